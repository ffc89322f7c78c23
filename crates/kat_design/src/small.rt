//! How great the numbers of a state are.
ghost use Rattle.std.specs.Prelude.{◌≡◌, ◌≤◌, ◌^◌, ◌↔◌, All, IsTrue, nat_le, unsigned_abs};
ghost use Rattle.std.specs.List.{list_all};
ghost use Rattle.kat_design.specs.Small.{IsSmallPart, is_roomy, is_roomy_part};
ghost use Rattle.kat_design.specs.Tests.{are_small_sums, is_small_cell, is_small_part, is_small_tally, is_small_value};
ghost use Rattle.kat_lattice.specs.Tallies.{Sums};
ghost use Rattle.kat_num.specs.declared.values.Value as values;
ghost use Rattle.kat_shape.specs.Values.{Filled};

use crate::states::{Part, State};
use kat_lattice::Tally;
use kat_num::{NUMBER_LIMIT, Value};
use kat_shape::Cell;

/// The greatest number of a state.
const GREATEST: u128 = 1 << 100;

/// The greatest sum of a tally to which one more argument may be added.
const ROOM: u128 = GREATEST - NUMBER_LIMIT as u128;

/// The greatest number of replicas in a tally.
const REPLICAS: usize = 32;

/// Whether the numbers of a state are small enough for `design_answer`: each number of a cell is at most 2^100 in absolute
/// value, and each tally has at most 32 replicas with sums of at most 2^100.
pub fn is_small(state: &State) -> bool
    ensures { IsTrue result ↔ All IsSmallPart state.now.parts }
{
    are_small(state.parts.as_slice())
}

/// Whether each part is small.
fn are_small(parts: &[Part]) -> bool
    ensures { result ≡ list_all is_small_part parts.now }
{
    parts.iter().all(|part| is_small_part(part))
}

/// Whether the numbers of a part are small.
fn is_small_part(part: &Part) -> bool
    ensures { result ≡ is_small_part part.now }
{
    match part {
        Part::Cell(cell) => is_small_cell(cell),
        Part::Table(table) => {
            is_small_cell(table.start_value()) && are_small_cells(table.entries())
        }
        Part::Set(_) => true,
        Part::Tally(tally) => is_small_tally(tally),
        Part::Tallies(table) => {
            is_small_tally(table.start_value()) && are_small_tallies(table.entries())
        }
    }
}

/// Whether the cells of a table are small.
fn are_small_cells(entries: &[(Value, Cell)]) -> bool
    ensures { result ≡ list_all (λ (e : values.Value × Filled). is_small_cell e.1) entries.now }
{
    entries.iter().all(|entry| is_small_cell(&entry.1))
}

/// Whether the tallies of a table are small.
fn are_small_tallies(entries: &[(Value, Tally)]) -> bool
    ensures { result ≡ list_all (λ (e : values.Value × Sums). is_small_tally e.1) entries.now }
{
    entries.iter().all(|entry| is_small_tally(&entry.1))
}

/// Whether each number of a cell is small.
fn is_small_cell(cell: &Cell) -> bool
    ensures { result ≡ is_small_cell cell.now }
{
    cell.leaves().iter().all(|leaf| is_small_value(*leaf))
}

/// Whether a value is no number past the greatest.
fn is_small_value(value: Value) -> bool
    ensures { result ≡ is_small_value value }
{
    match value {
        Value::Num(number) => number.unsigned_abs() <= GREATEST,
        Value::Bool(_) => true,
        Value::Name(_) => true,
    }
}

/// Whether a tally has few replicas with small sums.
fn is_small_tally(tally: &Tally) -> bool
    ensures { result ≡ is_small_tally tally.now }
{
    tally.sums().len() <= REPLICAS && are_small_sums(tally)
}

/// Whether the sums of a tally are small.
fn are_small_sums(tally: &Tally) -> bool
    ensures { result ≡ are_small_sums tally.now }
{
    tally.sums().iter().all(|sum| sum.1 <= GREATEST)
}

/// Whether each sum of a tally in the state has room for one more argument: it is at most 2^100 - 10^12.
pub fn roomy(state: &State) -> bool
    ensures { result ≡ list_all is_roomy_part state.now.parts }
{
    state
        .parts
        .as_slice()
        .iter()
        .all(|part| is_roomy_part(part))
}

/// Whether each sum of the tallies of a part has room.
fn is_roomy_part(part: &Part) -> bool
    ensures { result ≡ is_roomy_part part.now }
{
    match part {
        Part::Cell(_) => true,
        Part::Table(_) => true,
        Part::Set(_) => true,
        Part::Tally(tally) => is_roomy(tally),
        Part::Tallies(table) => are_roomy(table.entries()),
    }
}

/// Whether each sum of the tallies of a table has room.
fn are_roomy(entries: &[(Value, Tally)]) -> bool
    ensures { result ≡ list_all (λ (e : values.Value × Sums). is_roomy e.1) entries.now }
{
    entries.iter().all(|entry| is_roomy(&entry.1))
}

/// Whether each sum of a tally has room.
fn is_roomy(tally: &Tally) -> bool
    ensures { result ≡ is_roomy tally.now }
{
    tally.sums().iter().all(|sum| sum.1 <= ROOM)
}
