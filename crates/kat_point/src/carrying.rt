//! Points that are carried over.
ghost use Rattle.std.specs.Prelude.{IfOk, IfSome};
ghost use Rattle.kat_form.specs.Encodings.{encoding};
ghost use Rattle.kat_cases.specs.Points.{IsDecisive};

use crate::checking::point_of;
use crate::sketches::{Sketch, filled, is_filled, values_at};
use kat_cases::Point;
use kat_form::{Encoded, Meaning};
use kat_linear::Row;
use std::alloc::{AllocError, Global};

/// The most numbers that are tried for variables that nothing determines.
const MOST_GUESSES: usize = 4;

/// Carries a point of one encoded condition over to another: a point that is decisive for that, if one is found with the
/// same values of the variables that both begin with. Variables that only the second has get the values that its clauses
/// ask for. It isn't promised when one is found; points with a denominator above 1 aren't tried.
pub fn carried(
    alloc: Global,
    from: &Encoded,
    point: &Point,
    to: &Encoded,
) -> Result<Option<Point>, AllocError>
    ensures { IfOk result (λ found. IfSome found (λ p. IsDecisive (encoding to.now) to.now.numbers p.den p.nums.items p.truths.items)) }
{
    if point.den != 1 {
        return Ok(None);
    }
    let common = common_numbers(&from.meanings, &to.meanings);
    let truths = truths_by_variable(alloc, &from.meanings, &point.truths)?;
    let guesses = guesses(alloc, &point.nums, common)?;
    for guess in &guesses {
        let first = first_sketch(alloc, to, point, common, &truths)?;
        if let Some(found) = completed(alloc, to, first, *guess)? {
            return Ok(Some(found));
        }
    }
    Ok(None)
}

/// The point that a sketch is completed to, if that is decisive.
fn completed(
    alloc: Global,
    to: &Encoded,
    first: Sketch,
    guess: i128,
) -> Result<Option<Point>, AllocError>
    ensures { IfOk result (λ found. IfSome found (λ p. IsDecisive (encoding to.now) to.now.numbers p.den p.nums.items p.truths.items)) }
{
    let mut sketch = first;
    if !is_filled(to, guess, &mut sketch) {
        return Ok(None);
    }
    let nums = filled(alloc, &sketch.nums, guess)?;
    let values = values_at(alloc, to, &sketch, &nums)?;
    point_of(alloc, to, nums, &values)
}

/// How many number variables both begin with: those up to the greatest in what they have in common.
fn common_numbers(from: &[Meaning], to: &[Meaning]) -> u32 {
    let mut common = 0;
    for (i, meaning) in from.iter().enumerate() {
        match to.get(i) {
            Some(other) if is_same(meaning, other) => common = common.max(numbers_in(meaning)),
            _ => return common,
        }
    }
    common
}

fn is_same(a: &Meaning, b: &Meaning) -> bool {
    match (a, b) {
        (Meaning::Truth(a), Meaning::Truth(b)) => a == b,
        (Meaning::Atom(a), Meaning::Atom(b)) => is_same_row(a, b),
        (Meaning::Gate, Meaning::Gate) => true,
        _ => false,
    }
}

fn is_same_row(a: &Row, b: &Row) -> bool {
    a.constant == b.constant && a.terms.as_slice() == b.terms.as_slice()
}

/// One more than the greatest number variable.
fn numbers_in(meaning: &Meaning) -> u32 {
    match meaning {
        Meaning::Atom(row) => match row.terms.as_slice() {
            [.., last] => last.0.saturating_add(1),
            [] => 0,
        },
        _ => 0,
    }
}

/// The truth variables with their values at a point.
fn truths_by_variable(
    alloc: Global,
    meanings: &[Meaning],
    truths: &[bool],
) -> Result<Vec<(u32, bool)>, AllocError> {
    let mut by_variable = Vec::new(alloc);
    for meaning in meanings {
        if let Meaning::Truth(variable) = meaning {
            if by_variable.len() < truths.len() {
                by_variable.push((*variable, truths[by_variable.len()]))?;
            }
        }
    }
    Ok(by_variable)
}

/// What is known of a point at first.
fn first_sketch(
    alloc: Global,
    to: &Encoded,
    point: &Point,
    common: u32,
    truths: &[(u32, bool)],
) -> Result<Sketch, AllocError> {
    let mut nums = Vec::new(alloc);
    for variable in 0..to.numbers {
        nums.push(common_number(&point.nums, variable, common))?;
    }
    let mut values = Vec::new(alloc);
    for meaning in &to.meanings {
        values.push(first_value(meaning, truths))?;
    }
    Ok(Sketch { nums, values })
}

fn common_number(nums: &[i128], variable: u32, common: u32) -> Option<i128> {
    if variable < common {
        nums.get(variable as usize).copied()
    } else {
        None
    }
}

/// A truth variable that the point doesn't have is false. Gates are true until a part of theirs isn't.
fn first_value(meaning: &Meaning, truths: &[(u32, bool)]) -> Option<bool> {
    match meaning {
        Meaning::Truth(variable) => Some(truth_of(*variable, truths)),
        Meaning::Atom(_) => None,
        Meaning::Gate => Some(true),
    }
}

fn truth_of(variable: u32, truths: &[(u32, bool)]) -> bool {
    for (other, value) in truths {
        if *other == variable {
            return *value;
        }
    }
    false
}

/// What is tried for numbers that nothing determines: those of the point's other variables, and 0.
fn guesses(alloc: Global, nums: &[i128], common: u32) -> Result<Vec<i128>, AllocError> {
    let mut guesses = Vec::new(alloc);
    for (i, number) in nums.iter().enumerate() {
        if i >= common as usize {
            push_guess(&mut guesses, *number)?;
        }
    }
    push_guess(&mut guesses, 0)?;
    Ok(guesses)
}

fn push_guess(guesses: &mut Vec<i128>, number: i128) -> Result<(), AllocError> {
    if guesses.len() < MOST_GUESSES && !guesses.contains(&number) {
        guesses.push(number)?;
    }
    Ok(())
}
