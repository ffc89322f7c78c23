//! Rows without variables, and of rows with equal coefficients the strongest.
ghost use Rattle.std.specs.Prelude.{◌≡◌, ◌<◌, ◌≤◌, ◌+◌, ℕ, List, length, map, filter, IfOk, not, true, false, slice_index_or, OnOk, set, ◌∷◌, ◌++◌, []};
ghost use Rattle.std.specs.List.{All, enumerate_from};
ghost use Rattle.kat_fm.specs.Combinations.{counted};
ghost use Rattle.kat_fm.specs.Eliminations.{contradiction, tidied};
ghost use Rattle.kat_fm.specs.Comparisons.{has_variables, covers, exceeds};
ghost use Rattle.kat_fm.specs.Lists.{beats_at, list_number, mixed, sized, spread_from, Leads, AreOnward, AreLinked};
ghost use Rattle.kat_fm.specs.EntryViews.{combination_in};
ghost use Rattle.kat_fm.specs.Views.{combinations, multipliers_in, is_beaten_at, marked};

use crate::working::Combination;
use std::alloc::{AllocError, Global};

/// The multipliers of the first row without variables whose constant is above 0.
pub fn find_contradiction(
    alloc: Global,
    rows: &[Combination],
) -> Result<Option<Vec<i64>>, AllocError>
    ensures { IfOk result (λ found. multipliers_in found ≡ contradiction (combinations rows.now)) }
{
    for row in rows {
        if row.is_contradiction() {
            return Ok(Some(row.multipliers.spread(alloc)?));
        }
    }
    Ok(None)
}

/// The rows with variables, the strongest of equal ones.
pub fn tidy(alloc: Global, rows: Vec<Combination>) -> Result<Vec<Combination>, AllocError>
    ensures { IfOk result (λ left. combinations left.items ≡ tidied (combinations rows.items)) }
{
    let rows = with_variables(alloc, rows)?;
    let stays = standing(alloc, &rows)?;
    marked_rows(alloc, rows, &stays)
}

/// The rows with variables.
fn with_variables(alloc: Global, rows: Vec<Combination>) -> Result<Vec<Combination>, AllocError>
    ensures { IfOk result (λ left. combinations left.items ≡ filter has_variables (combinations rows.items)) }
{
    let mut left = Vec::with_capacity(alloc, rows.len())?;
    for row in rows {
        if row.has_variables() {
            left.push(row)?;
        }
    }
    Ok(left)
}

/// For each row whether it is the strongest of those with its coefficients.
fn standing(alloc: Global, rows: &[Combination]) -> Result<Vec<bool>, AllocError>
    ensures { IfOk result (λ stays. stays.items ≡ map (λ place.
        not (is_beaten_at (combinations rows.now) place)) (counted 0 (length rows.now))) }
{
    let numbers = list_numbers(alloc, rows)?;
    let links = linked(alloc, &numbers)?;
    let mut stays = Vec::with_capacity(alloc, rows.len())?;
    for place in 0..rows.len() {
        let from = number_at(&links.first, number_at(&numbers, place));
        stays.push(!is_beaten(rows, &links.next, from, place))?;
    }
    Ok(stays)
}

/// The rows whose mark is true.
fn marked_rows(
    alloc: Global,
    rows: Vec<Combination>,
    marks: &[bool],
) -> Result<Vec<Combination>, AllocError>
    ensures { IfOk result (λ left. combinations left.items ≡ marked marks.now (enumerate_from 0 rows.items)) }
{
    let mut left = Vec::with_capacity(alloc, rows.len())?;
    for (place, row) in rows.into_iter().enumerate() {
        if is_marked(marks, place) {
            left.push(row)?;
        }
    }
    Ok(left)
}

/// Whether the mark at a place is true.
fn is_marked(marks: &[bool], place: usize) -> bool
    ensures { result ≡ slice_index_or marks.now place false }
{
    match marks.get(place) {
        Some(mark) => *mark,
        None => false,
    }
}

// Whether a row of a list beats the row at a place; `from` is where the list begins.
fn is_beaten(rows: &[Combination], next: &[usize], from: usize, place: usize) -> bool
    requires place { place < length rows.now }
    requires onward { AreOnward next.now }
    requires from { from ≤ length next.now }
    requires listed { (k : ℕ) → beats_at (combinations rows.now) place k ≡ true → Leads next.now from k }
    ensures { result ≡ is_beaten_at (combinations rows.now) place }
{
    let mut link = from;
    while link > 0 {
        if beats(rows, place, link - 1) {
            return true;
        }
        link = number_at(next, link - 1);
    }
    false
}

// The number at a place, 0 if there is none.
fn number_at(numbers: &[usize], place: usize) -> usize
    ensures { result ≡ slice_index_or numbers.now place 0 }
{
    match numbers.get(place) {
        Some(number) => *number,
        None => 0,
    }
}

/// Whether a row comes before another of its coefficients and has at least its constant, or after it and has more.
fn beats(rows: &[Combination], place: usize, other: usize) -> bool
    requires { place < length rows.now }
    ensures { result ≡ beats_at (combinations rows.now) place other }
{
    let Some(with) = rows.get(other) else {
        return false;
    };
    if other < place {
        with.covers(&rows[place])
    } else {
        place < other && with.exceeds(&rows[place])
    }
}

/// The rows in as many lists: rows of equal coefficients are in one. A list is linked from its first row to its last, so that
/// of many equal rows each soon meets one that beats it. A link is one more than a row's place, or 0 at the end.
struct Links {
    /// The link at which each list begins.
    first: Vec<usize>,
    /// The link after each row.
    next: Vec<usize>,
}

impl Drop for Links {
    fn drop(self) {
        let Self { first: _, next: _ } = self;
    }
}

// Links rows, by the numbers of their lists.
fn linked(alloc: Global, numbers: &[usize]) -> Result<Links, AllocError>
    requires { All (λ n. n < length numbers.now) numbers.now }
    ensures { IfOk result (λ links. AreLinked numbers.now 0 links.first.items links.next.items) }
{
    let mut links = Links {
        first: vec![in alloc; 0; numbers.len()]?,
        next: vec![in alloc; 0; numbers.len()]?,
    };
    let mut place = numbers.len();
    'back: while place > 0 {
        place -= 1;
        link(&mut links, numbers[place], place);
    }
    Ok(links)
}

// Links the row at a place, before those of its list.
fn link(links: &mut Links, number: usize, place: usize)
    requires number { number < length links.old.first.items }
    requires place { place < length links.old.next.items }
    ensures next { links.new.next.items ≡ set links.old.next.items place (slice_index_or links.old.first.items number 0) }
    ensures first { links.new.first.items ≡ set links.old.first.items number (place + 1) }
{
    links.next[place] = links.first[number];
    links.first[number] = place + 1;
}

// The numbers of the rows' lists.
fn list_numbers(alloc: Global, rows: &[Combination]) -> Result<Vec<usize>, AllocError>
    ensures value { IfOk result (λ numbers. numbers.items ≡ map (list_number (length rows.now)) (combinations rows.now)) }
    ensures below { IfOk result (λ numbers. All (λ n. n < length rows.now) numbers.items) }
{
    let mut numbers = Vec::with_capacity(alloc, rows.len())?;
    for row in rows {
        numbers.push(list_number(row, rows.len()))?;
    }
    Ok(numbers)
}

/// The number of a row's list, by its coefficients.
fn list_number(row: &Combination, count: usize) -> usize
    requires { 0 < count }
    ensures value { result ≡ list_number count (combination_in row.now) }
    ensures below { result < count }
{
    let product = u128::from(number_of(row)) * count as u128;
    (product >> 64) as usize
}

// A number made of a row's coefficients.
fn number_of(row: &Combination) -> u64
    ensures { result ≡ spread_from 0 row.now.coefficients.entries.items }
{
    let mut number = 0;
    for (place, c) in &row.coefficients.entries {
        number = mixed(mixed(number, *place as u64), size_of(*c));
    }
    number
}

// 64 bits of a number.
#[inline(always)]
pub(crate) fn size_of(n: i128) -> u64
    ensures { result ≡ sized n }
{
    let size = (n.unsigned_abs() % (1 << 64)) as u64;
    if n < 0 { u64::MAX - size } else { size }
}

// A number with another mixed in.
#[inline(always)]
pub(crate) fn mixed(number: u64, more: u64) -> u64
    ensures { result ≡ mixed number more }
{
    number.wrapping_add(more).wrapping_mul(SPREAD)
}

/// What numbers are multiplied by, so that their upper bits differ.
const SPREAD: u64 = 0x9E37_79B9_7F4A_7C15;
