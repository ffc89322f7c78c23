//! Whether values meet the rows of known literals.
ghost use Rattle.std.specs.Prelude.{◌≡◌, ◌+◌, ◌<◌, ◌≤◌, ◌^◌, pos, unsigned_abs, length, true, Some};
ghost use Rattle.std.specs.List.{All};
ghost use Rattle.kat_linear.specs.Rows.{form_of};
ghost use Rattle.kat_clause.specs.Literals.{has_of};
ghost use Rattle.kat_form.specs.Encodings.{IsBelow, form_in, sense_of, senses_of};
ghost use Rattle.kat_fm.specs.Answers.{HasVariablesBelow};
ghost use Rattle.kat_potential.specs.Differences.{IsMetApart};
ghost use Rattle.kat_cases.specs.Nodes.{held_from, held_of, rows};

use kat_form::Meaning;
use kat_linear::Row;
use kat_potential::{is_met, is_negation_met};
use kat_resolution::{has, is_denied, variable_at};

/// Whether the rows of the known literals are differences that the values meet: by variable, and at `nought` that of 0.
pub(crate) fn are_met(meanings: &[Meaning], marks: &[bool], values: &[i64], nought: u32) -> bool
    requires below { All (IsBelow nought) (senses_of meanings.now) }
    requires variables { length meanings.now ≤ 2 ^ 28 }
    ensures { result ≡ true → All (IsMetApart nought values.now) (rows (held_from (has_of marks.now) 1 (senses_of meanings.now))) }
{
    for (i, meaning) in meanings.iter().enumerate() {
        if !is_meaning_met(meaning, marks, i, values, nought) {
            return false;
        }
    }
    true
}

// The same of the variable at a place.
fn is_meaning_met(
    meaning: &Meaning,
    marks: &[bool],
    place: usize,
    values: &[i64],
    nought: u32,
) -> bool
    requires below { IsBelow nought (sense_of meaning.now) }
    requires place { place < 2 ^ 28 }
    ensures { result ≡ true → All (IsMetApart nought values.now)
        (rows (held_of (has_of marks.now) (place + 1) (form_in (sense_of meaning.now)))) }
{
    match meaning {
        Meaning::Atom(row) => is_atom_met(row, marks, variable_at(place), values, nought),
        _ => true,
    }
}

// The same of a variable that stands for an atom.
fn is_atom_met(row: &Row, marks: &[bool], variable: i32, values: &[i64], nought: u32) -> bool
    requires below { HasVariablesBelow nought (form_of row.now) }
    requires small { unsigned_abs variable ≤ 2 ^ 28 }
    requires positive { variable ≡ pos (unsigned_abs variable) }
    ensures { result ≡ true → All (IsMetApart nought values.now)
        (rows (held_of (has_of marks.now) (unsigned_abs variable) (Some (form_of row.now)))) }
{
    if has(marks, variable) {
        return is_met(row, values, nought);
    }
    if is_denied(marks, variable) {
        return is_negation_met(row, values, nought);
    }
    true
}
