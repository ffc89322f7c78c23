//! How a node of the walk is judged.
ghost use Rattle.std.specs.Prelude.{◌≡◌, ◌≤◌, ◌^◌, unsigned_abs, length, reverse, true, IfOk, IfSome, MatchOption, Some, vec_len};
ghost use Rattle.std.specs.List.{All};
ghost use Rattle.kat_linear.specs.Rows.{IsAscending, forms};
ghost use Rattle.kat_linear.specs.Widths.{widths};
ghost use Rattle.kat_clause.specs.Literals.{has_of};
ghost use Rattle.kat_form.specs.Encodings.{encoding, IsFit};
ghost use Rattle.kat_cases.specs.Nodes.{End, IsJudged, judged, Held, literals, rows, judged_open, judged_width, last_unmet, lowest_open, truths_from};
ghost use Rattle.kat_cases.specs.Nodes.End.{at_point};
ghost use Rattle.kat_cases.specs.Nodes.Judgement.{splits};
ghost use Rattle.kat_cases.specs.Settings.{setting_of, IsWalkable};
ghost use Rattle.kat_cases.specs.Stacks.{judgement_of, Keeps, Assumes, Recalls};

use crate::assumptions::Assumptions;
use crate::decision::{Ending, Point};
use crate::held::{Held, held_atoms, held_literals, truths, used_line};
use crate::marks::{choose, lowest};
use crate::meeting::are_met;
use kat_fm::{Solved, solve};
use kat_form::Encoded;
use kat_linear::wide_numbers;
use kat_potential::Values;
use kat_refute::ProofLine;
use std::alloc::{AllocError, Global};

/// What a node is: a leaf, with its own line if it has one, an end of the walk, or a split on a literal.
#[derive(Drop)]
pub enum Judged {
    Leaf(Option<ProofLine>),
    Ends(Ending),
    Splits(i32),
}

/// A point that elimination gave for the rows of some literals.
pub struct Kept {
    pub literals: Vec<i32>,
    pub den: i128,
    pub nums: Vec<i128>,
}

impl Drop for Kept {
    fn drop(self) {
        let Self {
            literals: _,
            den: _,
            nums: _,
        } = self;
    }
}

/// Judges the node at which the assumed literals are the path. If values are found that meet the rows of the known literals, no
/// elimination is needed to know that it splits; `values` begins with those of the node before. `last` has the last point that
/// elimination gave: a split on a variable that is no atom adds no row.
pub fn judge(
    alloc: Global,
    encoded: &Encoded,
    known: &mut Assumptions,
    values: &mut Values,
    last: &mut Option<Kept>,
) -> Result<Judged, AllocError>
    requires walkable { IsWalkable encoded.now.numbers (encoding encoded.now) }
    requires variables { vec_len encoded.now.meanings ≤ 2 ^ 28 }
    requires keeps { Keeps (encoding encoded.now) known.old }
    requires recalls { Recalls (setting_of encoded.now) last.old }
    ensures judged { IfOk result (λ j. IsJudged (setting_of encoded.now) (reverse known.old.assumed) (judgement_of j)) }
    ensures same { Assumes known.old known.new (reverse known.old.assumed) }
    ensures recalls { IfOk result (λ j. Recalls (setting_of encoded.now) last.new) }
{
    if known.propagate() {
        return Ok(Judged::Leaf(None));
    }
    if let Some(literal) = split_at_values(encoded, known.marks(), values)? {
        return Ok(Judged::Splits(literal));
    }
    judge_open(alloc, encoded, known.marks(), last)
}

/// The most number variables of which it is known that elimination ends if the rows are differences.
const MOST_NUMBERS: u32 = 60;

// The literal on which a node of these known literals splits, if their rows are differences in few variables, values are found that
// meet them, and a variable is open.
fn split_at_values(
    encoded: &Encoded,
    marks: &[bool],
    values: &mut Values,
) -> Result<Option<i32>, AllocError>
    requires walkable { IsWalkable encoded.now.numbers (encoding encoded.now) }
    requires variables { vec_len encoded.now.meanings ≤ 2 ^ 28 }
    ensures { IfOk result (λ o. IfSome o (λ l. splits l ≡ judged (setting_of encoded.now) (has_of marks.now))) }
{
    if encoded.numbers > MOST_NUMBERS || !values.meet(marks)? {
        return Ok(None);
    }
    if !are_met(&encoded.meanings, marks, values.as_slice(), encoded.numbers) {
        return Ok(None);
    }
    Ok(split(marks, encoded))
}

/// Judges a node of these known literals, if no clause is falsified.
pub(crate) fn judge_open(
    alloc: Global,
    encoded: &Encoded,
    marks: &[bool],
    last: &mut Option<Kept>,
) -> Result<Judged, AllocError>
    requires walkable { IsWalkable encoded.now.numbers (encoding encoded.now) }
    requires variables { vec_len encoded.now.meanings ≤ 2 ^ 28 }
    requires recalls { Recalls (setting_of encoded.now) last.old }
    ensures judged { IfOk result (λ j. judgement_of j ≡ judged (setting_of encoded.now) (has_of marks.now)) }
    ensures recalls { IfOk result (λ j. Recalls (setting_of encoded.now) last.new) }
{
    let literals = held_literals(alloc, &encoded.meanings, marks)?;
    if let Some(kept) = recalled(last, &literals) {
        return judge_point(alloc, encoded, marks, kept);
    }
    judge_anew(alloc, encoded, marks, last)
}

// The point, if it is of the rows of these literals.
fn recalled<'a>(last: &'a Option<Kept>, literals: &[i32]) -> Option<&'a Kept>
    ensures { MatchOption result (Unit {0}) (λ kept. (last.now ≡ Some kept.now) × (kept.now.literals.items ≡ literals.now)) }
{
    match last {
        Some(kept) if has_literals(kept, literals) => Some(kept),
        _ => None,
    }
}

// Whether the point is of the rows of these literals.
fn has_literals(kept: &Kept, literals: &[i32]) -> bool
    ensures { result ≡ true → kept.now.literals.items ≡ literals.now }
{
    kept.literals.as_slice() == literals
}

// Judges a node by elimination.
fn judge_anew(
    alloc: Global,
    encoded: &Encoded,
    marks: &[bool],
    last: &mut Option<Kept>,
) -> Result<Judged, AllocError>
    requires walkable { IsWalkable encoded.now.numbers (encoding encoded.now) }
    requires variables { vec_len encoded.now.meanings ≤ 2 ^ 28 }
    requires recalls { Recalls (setting_of encoded.now) last.old }
    ensures judged { IfOk result (λ j. judgement_of j ≡ judged (setting_of encoded.now) (has_of marks.now)) }
    ensures recalls { IfOk result (λ j. Recalls (setting_of encoded.now) last.new) }
{
    let held = held_atoms(alloc, &encoded.meanings, marks)?;
    match solve(alloc, &held.rows, encoded.numbers)? {
        Solved::Point { den, nums } => {
            let kept = Kept {
                literals: held.literals,
                den,
                nums,
            };
            let judged = judge_point(alloc, encoded, marks, &kept)?;
            *last = Some(kept);
            Ok(judged)
        }
        Solved::Multipliers(multipliers) => judge_line(alloc, held, &multipliers),
        Solved::Rows { plus, minus, rest } => Ok(Judged::Ends(Ending::Rows {
            lits: held.literals,
            plus,
            minus,
            rest,
        })),
        Solved::Wide { left, right } => Ok(Judged::Ends(Ending::Wide {
            lits: held.literals,
            left,
            right,
        })),
    }
}

// Judges a node whose rows have a solution: it splits, or the walk ends at that point.
fn judge_point(
    alloc: Global,
    encoded: &Encoded,
    marks: &[bool],
    kept: &Kept,
) -> Result<Judged, AllocError>
    requires fit { IsFit (encoding encoded.now) }
    requires variables { vec_len encoded.now.meanings ≤ 2 ^ 28 }
    ensures { IfOk result (λ j. judgement_of j ≡ judged_open
        (last_unmet (has_of marks.now) (encoding encoded.now).clauses)
        (at_point kept.now.den kept.now.nums.items (truths_from (has_of marks.now) 1 (encoding encoded.now).senses))
        (lowest_open (has_of marks.now) 1 (encoding encoded.now).senses)) }
{
    let Some(variable) = lowest(marks, &encoded.meanings) else {
        return Ok(Judged::Ends(Ending::Point(point_of(alloc, encoded, marks, kept)?)));
    };
    match choose(marks, &encoded.clauses) {
        Some(literal) => Ok(Judged::Splits(literal)),
        None => Ok(Judged::Splits(variable)),
    }
}

/// The literal on which a walk splits a node of these known literals that it doesn't close. None if each variable is known.
pub(crate) fn split(marks: &[bool], encoded: &Encoded) -> Option<i32>
    requires walkable { IsWalkable encoded.now.numbers (encoding encoded.now) }
    requires variables { vec_len encoded.now.meanings ≤ 2 ^ 28 }
    ensures { IfSome result (λ l. (end : End) → judged_open (last_unmet (has_of marks.now) (encoding encoded.now).clauses)
        end (lowest_open (has_of marks.now) 1 (encoding encoded.now).senses) ≡ splits l) }
{
    let Some(variable) = lowest(marks, &encoded.meanings) else {
        return None;
    };
    match choose(marks, &encoded.clauses) {
        Some(literal) => Some(literal),
        None => Some(variable),
    }
}

// The point at which the walk ends.
fn point_of(
    alloc: Global,
    encoded: &Encoded,
    marks: &[bool],
    kept: &Kept,
) -> Result<Point, AllocError>
    requires { vec_len encoded.now.meanings ≤ 2 ^ 28 }
    ensures { IfOk result (λ p. (p.den ≡ kept.now.den) × (p.nums.items ≡ kept.now.nums.items)
        × (p.truths.items ≡ truths_from (has_of marks.now) 1 (encoding encoded.now).senses)) }
{
    Ok(Point {
        den: kept.den,
        nums: Vec::from_slice(alloc, &kept.nums)?,
        truths: truths(alloc, &encoded.meanings, marks)?,
    })
}

// Judges a node whose rows contradict each other: a leaf with their line, unless the multipliers go wide.
fn judge_line(alloc: Global, held: Held, multipliers: &[i64]) -> Result<Judged, AllocError>
    requires sizes { length held.literals.items ≡ length multipliers.now }
    requires rows { length (forms held.rows.items) ≡ length multipliers.now }
    requires ascending { All IsAscending (forms held.rows.items) }
    requires small { All (λ k. unsigned_abs k ≤ 2 ^ 28) held.literals.items }
    ensures { IfOk result (λ j. judgement_of j ≡ judged_width held.literals.items multipliers.now
        (widths (forms held.rows.items) multipliers.now)) }
{
    match wide_numbers(&held.rows, multipliers) {
        Some((left, right)) => Ok(Judged::Ends(Ending::Wide {
            lits: held.literals,
            left,
            right,
        })),
        None => Ok(Judged::Leaf(Some(used_line(alloc, &held.literals, multipliers)?))),
    }
}
