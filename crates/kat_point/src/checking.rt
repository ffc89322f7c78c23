//! Whether numbers and truth values are a point of an encoded condition.
ghost use Rattle.std.specs.Prelude.{◌≡◌, ◌≤◌, ◌^◌, ◌≤ℤ◌, ◌<ℤ◌, IfOk, IfSome, true, false, length, pos, slice_index_or, unsigned_abs};
ghost use Rattle.std.specs.List.{All};
ghost use Rattle.kat_clause.specs.Clauses.{lists};
ghost use Rattle.kat_clause.specs.Valuations.{AreTrueClauses, IsTrueClause, literal_value};
ghost use Rattle.kat_form.specs.Encodings.{encoding, sense_of, senses_of};
ghost use Rattle.kat_form.specs.Encodings.Sense.{atom};
ghost use Rattle.kat_linear.specs.Rows.{form_of};
ghost use Rattle.kat_cases.specs.Nodes.{is_truth_sense, truths_from};
ghost use Rattle.kat_cases.specs.Points.{IsDecisive};
ghost use Rattle.kat_point.specs.Values.{AreRead, IsModel, IsRead, number_at, value_at};

use crate::sums::value_of;
use kat_cases::Point;
use kat_form::{Encoded, Meaning};
use kat_linear::Row;
use std::alloc::{AllocError, Global};

/// The greatest absolute value of a number.
const LIMIT: u128 = 1 << 126;

/// The point of these numbers, if it and the values of the propositional variables make all clauses true.
pub(crate) fn point_of(
    alloc: Global,
    encoded: &Encoded,
    nums: Vec<i128>,
    values: &[bool],
) -> Result<Option<Point>, AllocError>
    ensures { IfOk result (λ found. IfSome found (λ p. IsDecisive
        (encoding encoded.now) encoded.now.numbers p.den p.nums.items p.truths.items)) }
{
    if !is_model(encoded, &nums, values) {
        return Ok(None);
    }
    let truths = truths(alloc, &encoded.meanings, values)?;
    Ok(Some(Point {
        den: 1,
        nums,
        truths,
    }))
}

fn is_model(encoded: &Encoded, nums: &[i128], values: &[bool]) -> bool
    ensures { result ≡ true → IsModel (encoding encoded.now) encoded.now.numbers nums.now values.now }
{
    if !has_count(encoded, nums) {
        return false;
    }
    if !are_narrow(nums) {
        return false;
    }
    if !are_read(&encoded.meanings, nums, values) {
        return false;
    }
    are_true(&encoded.clauses, values)
}

fn has_count(encoded: &Encoded, nums: &[i128]) -> bool
    ensures { result ≡ true → length nums.now ≡ encoded.now.numbers }
{
    nums.len() == encoded.numbers as usize
}

fn are_narrow(nums: &[i128]) -> bool
    ensures { result ≡ true → All (λ n. unsigned_abs n ≤ 2 ^ 126) nums.now }
{
    nums.iter().all(|n| n.unsigned_abs() <= LIMIT)
}

/// Whether each atom's variable has the value of its row at the numbers.
fn are_read(meanings: &[Meaning], nums: &[i128], values: &[bool]) -> bool
    ensures { result ≡ true → AreRead (number_at nums.now) values.now (senses_of meanings.now) }
{
    for (i, meaning) in meanings.iter().enumerate() {
        if !is_read(meaning, nums, value(values, i)) {
            return false;
        }
    }
    true
}

fn is_read(meaning: &Meaning, nums: &[i128], value: bool) -> bool
    ensures { result ≡ true → IsRead (number_at nums.now) value (sense_of meaning.now) }
{
    match meaning {
        Meaning::Atom(row) => has_value(row, nums, value),
        _ => true,
    }
}

/// Whether the row is met at the numbers if the value is true, and otherwise its negation.
fn has_value(row: &Row, nums: &[i128], value: bool) -> bool
    ensures { result ≡ true → IsRead (number_at nums.now) value (atom (form_of row.now)) }
{
    match value_of(row, nums) {
        None => false,
        Some(sum) => is_told(sum, value),
    }
}

/// Whether a sum is at most 0 if the value is true, and otherwise above 0.
fn is_told(sum: i128, value: bool) -> bool
    ensures met { result ≡ true → value ≡ true → sum ≤ℤ pos 0 }
    ensures above { result ≡ true → value ≡ false → pos 0 <ℤ sum }
{
    if value { sum <= 0 } else { 0 < sum }
}

/// Whether all clauses are true.
fn are_true(clauses: &[Vec<i32>], values: &[bool]) -> bool
    ensures { result ≡ true → AreTrueClauses (value_at values.now) (lists clauses.now) }
{
    for clause in clauses {
        if !is_true_clause(clause, values) {
            return false;
        }
    }
    true
}

fn is_true_clause(clause: &[i32], values: &[bool]) -> bool
    ensures { result ≡ true → IsTrueClause (value_at values.now) clause.now }
{
    for literal in clause {
        if is_true(*literal, values) {
            return true;
        }
    }
    false
}

pub(crate) fn is_true(literal: i32, values: &[bool]) -> bool
    ensures { result ≡ literal_value (value_at values.now) literal }
{
    let place = (literal.unsigned_abs() as usize).saturating_sub(1);
    if literal < 0 {
        !value(values, place)
    } else {
        value(values, place)
    }
}

fn value(values: &[bool], place: usize) -> bool
    ensures { result ≡ slice_index_or values.now place false }
{
    place < values.len() && values[place]
}

/// The values of the truth variables that stand for propositional variables, in the order of these.
fn truths(alloc: Global, meanings: &[Meaning], values: &[bool]) -> Result<Vec<bool>, AllocError>
    ensures { IfOk result (λ truths. truths.items ≡ truths_from (literal_value (value_at values.now)) 1 (senses_of meanings.now)) }
{
    let mut truths = Vec::new(alloc);
    for (i, meaning) in meanings.iter().enumerate() {
        if !is_truth(meaning) {
            continue;
        }
        truths.push(value(values, i))?;
    }
    Ok(truths)
}

fn is_truth(meaning: &Meaning) -> bool
    ensures { result ≡ is_truth_sense (sense_of meaning.now) }
{
    matches!(meaning, Meaning::Truth(_))
}
