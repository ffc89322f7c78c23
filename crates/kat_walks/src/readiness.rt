//! Whether an encoding may be walked.
ghost use Rattle.std.specs.Prelude.{◌≡◌, ℕ, ◌<◌, ◌≤◌, ◌^◌, ◌↔◌, pos, ◌-ℤ◌, unsigned_abs, length, IsTrue};
ghost use Rattle.std.specs.List.{All};
ghost use Rattle.kat_form.specs.Encodings.{encoding, senses_of, sense_of, IsBelow};
ghost use Rattle.kat_walks.specs.Walkable.{HasNarrowNegation, IsWalkable};

use kat_form::{Encoded, Meaning};
use kat_linear::Row;

// The most propositional variables that a walk takes.
const MOST_VARIABLES: usize = 1 << 28;

/// Whether an encoding may be decided: it has at most 2^28 propositional variables and is fit as for a check of lines, no number of
/// its atoms' negations passes 2^126 either, and their number variables are below `numbers`.
pub fn is_walkable(encoded: &Encoded) -> bool
    ensures { IsTrue result ↔ IsWalkable encoded.now.numbers (encoding encoded.now) }
{
    are_few(&encoded.meanings)
        && encoded.is_fit()
        && are_walkable(&encoded.meanings, encoded.numbers)
}

// Whether a walk takes this many variables.
fn are_few(meanings: &[Meaning]) -> bool
    ensures { IsTrue result ↔ length (senses_of meanings.now) ≤ 2 ^ 28 }
{
    meanings.len() <= MOST_VARIABLES
}

// Whether the atoms have narrow negations and number variables below a number.
fn are_walkable(meanings: &[Meaning], numbers: u32) -> bool
    ensures { IsTrue result ↔ (All HasNarrowNegation (senses_of meanings.now) × All (IsBelow numbers) (senses_of meanings.now)) }
{
    are_narrow(meanings) && are_below(meanings, numbers)
}

// Whether the atoms' negations are narrow.
fn are_narrow(meanings: &[Meaning]) -> bool
    ensures { IsTrue result ↔ All HasNarrowNegation (senses_of meanings.now) }
{
    for meaning in meanings {
        if !has_narrow_negation(meaning) {
            return false;
        }
    }
    true
}

// Whether the atoms' number variables are below a number.
fn are_below(meanings: &[Meaning], numbers: u32) -> bool
    ensures { IsTrue result ↔ All (IsBelow numbers) (senses_of meanings.now) }
{
    for meaning in meanings {
        if !is_below(meaning, numbers) {
            return false;
        }
    }
    true
}

fn has_narrow_negation(meaning: &Meaning) -> bool
    ensures { IsTrue result ↔ HasNarrowNegation (sense_of meaning.now) }
{
    match meaning {
        Meaning::Atom(row) => is_narrow_below(row.constant),
        _ => true,
    }
}

// The greatest absolute value of a row's number.
const LIMIT: u128 = 1 << 126;

// Whether 1 less the number is narrow.
fn is_narrow_below(number: i128) -> bool
    ensures { IsTrue result ↔ (unsigned_abs (pos 1 -ℤ number) ≤ 2 ^ 126) }
{
    match 1i128.checked_sub(number) {
        Some(rest) => rest.unsigned_abs() <= LIMIT,
        None => false,
    }
}

fn is_below(meaning: &Meaning, numbers: u32) -> bool
    ensures { IsTrue result ↔ IsBelow numbers (sense_of meaning.now) }
{
    match meaning {
        Meaning::Atom(row) => has_variables_below(row, numbers),
        _ => true,
    }
}

fn has_variables_below(row: &Row, numbers: u32) -> bool
    ensures { IsTrue result ↔ All (λ t. t.0 < numbers) row.now.terms.items }
{
    row.terms.iter().all(|t| t.0 < numbers)
}
