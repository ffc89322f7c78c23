//! Rows that are differences.
ghost use Rattle.std.specs.Prelude.{◌≡◌, ◌≤◌, ◌^◌, ◌∷◌, [], ℕ, unsigned_abs, true, IfSome};
ghost use Rattle.kat_linear.specs.Rows.{form_of};
ghost use Rattle.kat_potential.specs.Parts.{AreApart, AreTerms, IsOpposite, IsRowOf};

use kat_linear::Row;

/// Of two variables the lower one's value and the gap are at most the higher one's value.
#[derive(Clone, Copy)]
pub(crate) struct Difference {
    pub lower: u32,
    pub higher: u32,
    pub gap: i64,
}

/// The greatest gap, in absolute value.
const MOST: i64 = 1 << 39;

impl Difference {
    /// The row as a difference, if it is one and its constant isn't too great. A variable that isn't there is `nought`.
    pub(crate) fn of(row: &Row, nought: u32) -> Option<Difference>
        ensures { IfSome result (λ d. IsRowOf nought (form_of row.now) d) }
    {
        let gap = gap_of(row)?;
        let (lower, higher) = sides_of(row.terms.as_slice(), nought)?;
        Some(Difference { lower, higher, gap })
    }

    /// What holds of whole numbers if the difference doesn't. None if the gap is too great.
    pub(crate) fn opposite(&self) -> Option<Difference>
        ensures { IfSome result (λ d. IsOpposite self.now d) }
    {
        match 1i64.checked_sub(self.gap) {
            Some(gap) => Some(Difference {
                lower: self.higher,
                higher: self.lower,
                gap,
            }),
            None => None,
        }
    }

    /// Whether values, by variable, meet it.
    pub(crate) fn is_met(&self, values: &[i64]) -> bool
        ensures { result ≡ true → AreApart values.now self.now }
    {
        let Some(lower) = values.get(self.lower as usize) else {
            return false;
        };
        let Some(higher) = values.get(self.higher as usize) else {
            return false;
        };
        match lower.checked_add(self.gap) {
            Some(least) => least <= *higher,
            None => false,
        }
    }
}

// The row's constant, if it isn't too great.
fn gap_of(row: &Row) -> Option<i64>
    ensures constant { IfSome result (λ gap. (form_of row.now).constant ≡ gap) }
    ensures narrow { IfSome result (λ gap. unsigned_abs gap ≤ 2 ^ 39) }
{
    let Ok(gap) = i64::try_from(row.constant) else {
        return None;
    };
    if gap < -MOST || MOST < gap {
        return None;
    }
    Some(gap)
}

// The lower variable and the higher one, if the terms are those of a difference.
fn sides_of(terms: &[(u32, i128)], nought: u32) -> Option<(u32, u32)>
    ensures { IfSome result (λ (s : ℕ × ℕ). AreTerms nought s.0 s.1 terms.now) }
{
    match terms.len() {
        1 => side_of(&terms[0], nought),
        2 => both_sides(&terms[0], &terms[1]),
        _ => None,
    }
}

// Those of one term.
fn side_of(term: &(u32, i128), nought: u32) -> Option<(u32, u32)>
    ensures { IfSome result (λ (s : ℕ × ℕ). AreTerms nought s.0 s.1 (term.now ∷ [])) }
{
    if term.1 == 1 {
        return Some((term.0, nought));
    }
    if term.1 == -1 {
        return Some((nought, term.0));
    }
    None
}

// Those of two terms.
fn both_sides(first: &(u32, i128), second: &(u32, i128)) -> Option<(u32, u32)>
    ensures { IfSome result (λ (s : ℕ × ℕ). (nought : ℕ) → AreTerms nought s.0 s.1 (first.now ∷ second.now ∷ [])) }
{
    if first.1 == 1 && second.1 == -1 {
        return Some((first.0, second.0));
    }
    if first.1 == -1 && second.1 == 1 {
        return Some((second.0, first.0));
    }
    None
}
