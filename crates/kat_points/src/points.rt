//! Whether a point decides the facts of a condition.
ghost use Rattle.std.specs.Prelude.{◌≡◌, ◌↔◌, ◌<◌, ◌≤◌, ◌^◌, ◌<ℤ◌, IfOk, IfSome, IsTrue, MatchOption, false, true, length, map, pos, slice_index_or, unsigned_abs};
ghost use Rattle.std.specs.List.{All};
ghost use Rattle.kat_form.specs.Encodings.{encoding, sense_of, senses_of};
ghost use Rattle.kat_form.specs.Facts.{facts_of};
ghost use Rattle.kat_points.specs.Answers.{IsFound, IsFoundOf, point_form};
ghost use Rattle.kat_points.specs.Points.{IsNarrowPoint, IsPointOf, IsSettledAt, end_place, next_place, passes_at, sense_value, some_pass, value_in, values_from};

use crate::saying::are_true;
use crate::sums::{LIMIT, row_sum};
use kat_form::{Encoded, Formula, Meaning};
use std::alloc::{AllocError, Global};

/// A point of a report: the fraction `nums[v]` over `den` for each number variable v, and a value for each truth variable that
/// stands for a propositional variable, in the order of these.
#[derive(Debug, PartialEq, Eq, Drop)]
pub struct Point {
    pub den: i128,
    pub nums: Vec<i128>,
    pub truths: Vec<bool>,
}

/// The outcome of a point.
#[derive(Debug, Clone, Copy, PartialEq, Eq)]
pub enum Found {
    /// No number of it passes 2^126 in absolute value, and it makes each atom's form at most 0 or at least 1, and all facts true.
    Decisive,
    /// A product or a sum that is computed for an atom passes 2^126 in absolute value.
    TooWide,
    /// It is no point of the condition, or doesn't decide it, or a number of it passes 2^126.
    Neither,
}

/// The outcome of a point under the facts of a condition, whose encoding tells the order of the truth variables and has the
/// atoms.
pub fn judge_point(
    alloc: Global,
    facts: &[Formula],
    encoded: &Encoded,
    point: &Point,
) -> Result<Found, AllocError>
    ensures { IfOk result (IsFound (facts_of facts.now) (encoding encoded.now).senses encoded.now.numbers (point_form point.now)) }
{
    if !is_point(encoded, point) {
        return Ok(Found::Neither);
    }
    judge_at(alloc, facts, encoded.meanings.as_slice(), point)
}

/// The same of a point of the encoding.
fn judge_at(
    alloc: Global,
    facts: &[Formula],
    meanings: &[Meaning],
    point: &Point,
) -> Result<Found, AllocError>
    requires { pos 0 <ℤ point.now.den }
    ensures { IfOk result (IsFoundOf (facts_of facts.now) (senses_of meanings.now) (point_form point.now)) }
{
    let Some(sums) = sums_at(alloc, meanings, point)? else {
        return Ok(Found::TooWide);
    };
    if !is_narrow(point) {
        return Ok(Found::Neither);
    }
    if !are_settled(&sums, &point.den) {
        return Ok(Found::Neither);
    }
    let values = values(alloc, meanings, &sums, point)?;
    if !are_true(facts, meanings, &values) {
        return Ok(Found::Neither);
    }
    Ok(Found::Decisive)
}

/// Whether the point has a number for each number variable and a value for each truth variable, and a denominator above 0.
fn is_point(encoded: &Encoded, point: &Point) -> bool
    ensures { IsTrue result ↔ IsPointOf (encoding encoded.now).senses encoded.now.numbers (point_form point.now) }
{
    is_above(point.den)
        && point.nums.len() == encoded.numbers as usize
        && point.truths.len() == truth_count(&encoded.meanings)
}

fn is_above(den: i128) -> bool
    ensures { IsTrue result ↔ (pos 0 <ℤ den) }
{
    0 < den
}

/// Whether no number of a point passes 2^126.
fn is_narrow(point: &Point) -> bool
    ensures { IsTrue result ↔ IsNarrowPoint (point_form point.now) }
{
    is_small(&point.den) && are_narrow(&point.nums)
}

fn is_small(number: &i128) -> bool
    ensures { IsTrue result ↔ (unsigned_abs number.now ≤ 2 ^ 126) }
{
    number.unsigned_abs() <= LIMIT
}

fn are_narrow(nums: &[i128]) -> bool
    ensures { IsTrue result ↔ All (λ n. unsigned_abs n ≤ 2 ^ 126) nums.now }
{
    nums.iter().all(|n| n.unsigned_abs() <= LIMIT)
}

/// How many of the variables stand for truth variables.
fn truth_count(meanings: &[Meaning]) -> usize
    ensures { result ≡ end_place 0 (senses_of meanings.now) }
{
    let mut place = 0;
    for meaning in meanings {
        place = next_place(meaning, place);
    }
    place
}

/// The place of the next truth variable's value, which is at most one further.
fn next_place(meaning: &Meaning, place: usize) -> usize
    requires { place < usize.MAX }
    ensures { result ≡ next_place place (sense_of meaning.now) }
{
    match meaning {
        Meaning::Truth(_) => place + 1,
        _ => place,
    }
}

/// The sums of the atoms, and 0 for each other variable, if none passes 2^126.
fn sums_at(
    alloc: Global,
    meanings: &[Meaning],
    point: &Point,
) -> Result<Option<Vec<i128>>, AllocError>
    requires { pos 0 <ℤ point.now.den }
    ensures { IfOk result (λ found. MatchOption found (some_pass (point_form point.now) (senses_of meanings.now) ≡ true) (λ sums.
        (some_pass (point_form point.now) (senses_of meanings.now) ≡ false)
        × (sums.items ≡ map (value_in (point_form point.now)) (senses_of meanings.now)))) }
{
    let mut sums = Vec::new(alloc);
    for meaning in meanings {
        let Some(sum) = sum_in(meaning, point) else {
            return Ok(None);
        };
        sums.push(sum)?;
    }
    Ok(Some(sums))
}

fn sum_in(meaning: &Meaning, point: &Point) -> Option<i128>
    requires { pos 0 <ℤ point.now.den }
    ensures { MatchOption result (passes_at (point_form point.now) (sense_of meaning.now) ≡ true) (λ sum.
        (passes_at (point_form point.now) (sense_of meaning.now) ≡ false)
        × (sum ≡ value_in (point_form point.now) (sense_of meaning.now))) }
{
    match meaning {
        Meaning::Atom(row) => row_sum(row, point.den, &point.nums),
        _ => Some(0),
    }
}

/// Whether each sum is at most 0 or at least the denominator.
fn are_settled(sums: &[i128], den: &i128) -> bool
    ensures { IsTrue result ↔ All (IsSettledAt den.now) sums.now }
{
    sums.iter().all(|sum| *sum <= 0 || *den <= *sum)
}

/// The values of the propositional variables, with the sums of their atoms.
fn values(
    alloc: Global,
    meanings: &[Meaning],
    sums: &[i128],
    point: &Point,
) -> Result<Vec<bool>, AllocError>
    requires { sums.now ≡ map (value_in (point_form point.now)) (senses_of meanings.now) }
    ensures { IfOk result (λ values. values.items ≡ values_from (point_form point.now) 0 (senses_of meanings.now)) }
{
    let mut values = Vec::new(alloc);
    let mut place = 0;
    for (i, meaning) in meanings.iter().enumerate() {
        values.push(value(meaning, sum(sums, i), point, place))?;
        place = next_place(meaning, place);
    }
    Ok(values)
}

fn sum(sums: &[i128], place: usize) -> i128
    ensures { result ≡ slice_index_or sums.now place (pos 0) }
{
    match sums.get(place) {
        Some(sum) => *sum,
        None => 0,
    }
}

/// A variable's value, if its atom has this sum.
fn value(meaning: &Meaning, sum: i128, point: &Point, place: usize) -> bool
    ensures { sum ≡ value_in (point_form point.now) (sense_of meaning.now)
        → result ≡ sense_value (point_form point.now) place (sense_of meaning.now) }
{
    match meaning {
        Meaning::Truth(_) => truth_at(&point.truths, place),
        Meaning::Atom(_) => sum <= 0,
        Meaning::Gate => false,
    }
}

fn truth_at(truths: &[bool], place: usize) -> bool
    ensures { result ≡ slice_index_or truths.now place false }
{
    place < truths.len() && truths[place]
}
