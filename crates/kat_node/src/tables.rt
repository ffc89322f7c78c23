//! Making tables: the values that a table keeps.
ghost use Rattle.std.specs.Prelude.{◌≡◌, [], IfErr, IfOk, map};
ghost use Rattle.kat_type.specs.Unions.{are_same_values, is_same_value};
ghost use Rattle.kat_shape.specs.Flats.{filled_with};
ghost use Rattle.kat_shape.specs.Values.{OneShape, joined, leaves_of, shape_of};
ghost use Rattle.kat_json.specs.Refused.{IsRefused, IsSaid};
ghost use Rattle.kat_node.specs.Possible.{IsFitted, are_alike, are_none, cell_entry_made, follows, is_alike, is_own, keys_ascend, leaves_faults, next_faults, own_faults, table_entry_faults, table_faults};

use crate::making::cell_made;
use crate::rules::{judge_key, keys_ascend};
use crate::written::is_written;
use kat_design::{is_kind, value_kind};
use kat_json::WireError;
use kat_json::forms::{here, within};
use kat_lattice::{GrowMap, Lattice};
use kat_num::{Items, Sort, Value};
use kat_shape::Cell;
use std::alloc::Global;

/// Whether leaves fit the shape of a start.
fn fit(start: &Cell, leaves: &[Value]) -> bool
    ensures { result ≡ are_none (leaves_faults (shape_of start.now) leaves.now) }
{
    if start.leaves().len() != leaves.len() {
        return false;
    }
    each_fits(start.leaves(), leaves)
}

/// Whether each leaf may be in a file where the start's is.
fn each_fits(starts: &[Value], leaves: &[Value]) -> bool
    ensures { result ≡ are_alike starts.now leaves.now }
{
    match starts {
        [] => true,
        [start, others @ ..] => match leaves {
            [] => true,
            [leaf, rest @ ..] => fits(*start, *leaf) && each_fits(others, rest),
        },
    }
}

/// Whether a leaf may be in a file where the start's is.
fn fits(start: Value, leaf: Value) -> bool
    ensures { result ≡ is_alike start leaf }
{
    is_kind(value_kind(start), value_kind(leaf)) && is_written(leaf)
}

/// Whether two values are one.
fn is_same_value(left: Value, right: Value) -> bool
    ensures { result ≡ is_same_value left right }
{
    match (left, right) {
        (Value::Bool(a), Value::Bool(b)) => a == b,
        (Value::Num(a), Value::Num(b)) => a == b,
        (Value::Name(a), Value::Name(b)) => a == b,
        _ => false,
    }
}

/// Whether two lists of values are one.
fn are_same_values(left: &[Value], right: &[Value]) -> bool
    ensures { result ≡ are_same_values left.now right.now }
{
    match left {
        [] => right.is_empty(),
        [first, rest @ ..] => match right {
            [] => false,
            [other, others @ ..] => is_same_value(*first, *other) && are_same_values(rest, others),
        },
    }
}

/// Whether a value differs from the start, and is the join of both.
fn is_kept(start: &Cell, value: &Cell) -> bool
    requires { OneShape start.now value.now }
    ensures { result ≡ is_own start.now value.now }
{
    !are_same_values(value.leaves(), start.leaves()) && is_above(start, value)
}

/// Whether a value is the join of a start and itself.
fn is_above(start: &Cell, value: &Cell) -> bool
    requires { OneShape start.now value.now }
    ensures { result ≡ are_same_values (leaves_of (joined start.now value.now)) (leaves_of value.now) }
{
    start.leq(value)
}

/// The value of these leaves, if they fit; it must not be the start, and be its own join with it.
fn own_value(alloc: Global, start: &Cell, leaves: &[Value]) -> Result<Option<Cell>, WireError>
    ensures said { IfOk result (λ value. (own_faults (shape_of start.now) start.now leaves.now ≡ [])
        × IsFitted (shape_of start.now) leaves.now value) }
    ensures refused { IfErr result (IsRefused (own_faults (shape_of start.now) start.now leaves.now)) }
{
    if !fit(start, leaves) {
        return Ok(None);
    }
    let value = start.with_leaves(Vec::from_slice(alloc, leaves)?)?;
    start.goes_with(&value);
    if is_kept(start, &value) {
        Ok(Some(value))
    } else {
        Err(here(alloc))
    }
}

/// The value of these leaves; if they don't fit, the first of them that doesn't is refused.
fn fitted(
    alloc: Global,
    start: &Cell,
    leaves: &[Value],
    value: Option<Cell>,
) -> Result<Cell, WireError>
    requires { IsFitted (shape_of start.now) leaves.now value }
    ensures said { IfOk result (IsSaid (leaves_faults (shape_of start.now) leaves.now) (filled_with (shape_of start.now) leaves.now)) }
    ensures refused { IfErr result (IsRefused (leaves_faults (shape_of start.now) leaves.now)) }
{
    match value {
        Some(value) => Ok(value),
        None => {
            start.goes_with(start);
            cell_made(alloc, start.shape(), leaves)
        }
    }
}

/// An entry of a table.
fn cell_entry(
    alloc: Global,
    sort: Sort,
    start: &Cell,
    key: Value,
    leaves: &[Value],
) -> Result<(Value, Cell), WireError>
    ensures said { IfOk result (IsSaid (table_entry_faults sort (shape_of start.now) start.now (key, leaves.now))
        (cell_entry_made (shape_of start.now) (key, leaves.now))) }
    ensures refused { IfErr result (IsRefused (table_entry_faults sort (shape_of start.now) start.now (key, leaves.now))) }
{
    let value = own_value(alloc, start, leaves)?;
    within(alloc, 0, judge_key(alloc, sort, key))?;
    let value = within(alloc, 1, fitted(alloc, start, leaves, value))?;
    Ok((key, value))
}

/// Whether a key may come after the last one, if there is one.
fn follows(last: Option<Value>, key: Value) -> bool
    ensures { result ≡ follows keys_ascend last key }
{
    match last {
        Some(last) => keys_ascend(last, key),
        None => true,
    }
}

/// An entry of a table after one with this key.
fn next_entry(
    alloc: Global,
    sort: Sort,
    start: &Cell,
    last: Option<Value>,
    entry: &(Value, Items<Value>),
) -> Result<(Value, Cell), WireError>
    ensures said { IfOk result (IsSaid (next_faults sort start.now (last, entry.now)) (cell_entry_made (shape_of start.now) entry.now)) }
    ensures refused { IfErr result (IsRefused (next_faults sort start.now (last, entry.now))) }
{
    if !follows(last, entry.0) {
        return Err(here(alloc));
    }
    cell_entry(alloc, sort, start, entry.0, entry.1.as_slice())
}

/// The entries of a table.
fn cell_entries(
    alloc: Global,
    sort: Sort,
    start: &Cell,
    entries: &[(Value, Items<Value>)],
) -> Result<Vec<(Value, Cell)>, WireError>
    ensures said { IfOk result
        (λ made. IsSaid (table_faults sort (shape_of start.now) start.now entries.now)
        (map (cell_entry_made (shape_of start.now)) entries.now) made.items) }
    ensures refused { IfErr result (IsRefused (table_faults sort (shape_of start.now) start.now entries.now)) }
{
    let mut made = Vec::with_capacity(alloc, entries.len())?;
    let mut last = None;
    for i in 0..entries.len() {
        let entry = within(alloc, i, next_entry(alloc, sort, start, last, &entries[i]))?;
        last = Some(entry.0);
        made.push(entry)?;
    }
    Ok(made)
}

/// The table of these entries.
pub(crate) fn table_made(
    alloc: Global,
    sort: Sort,
    start: Cell,
    entries: &[(Value, Items<Value>)],
) -> Result<GrowMap<Value, Cell>, WireError>
    ensures said { IfOk result
        (λ table. IsSaid (table_faults sort (shape_of start) start entries.now)
        (record { start = start; entries = map (cell_entry_made (shape_of start)) entries.now }) table) }
    ensures refused { IfErr result (IsRefused (table_faults sort (shape_of start) start entries.now)) }
{
    start.goes_with(&start);
    let made = cell_entries(alloc, sort, &start, entries)?;
    Ok(GrowMap::from_entries(start, made))
}
