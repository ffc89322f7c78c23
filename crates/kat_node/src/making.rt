//! Making the parts of a state from what is said of them.
ghost use Rattle.std.specs.Prelude.{◌≡◌, [], IfErr, IfOk, map};
ghost use Rattle.kat_design.specs.Sorted.{EachHas};
ghost use Rattle.kat_shape.specs.Flats.{filled_with};
ghost use Rattle.kat_shape.specs.Forms.{IsGoodForm, form_of};
ghost use Rattle.kat_json.specs.Refused.{IsRefused, IsSaid};
ghost use Rattle.kat_node.specs.Possible.{HasSums, IsSaidSum, leaves_faults, set_faults, sum_made, sums_faults, tallies_faults, tally_entry_made};

use crate::judging::judge_each;
use crate::nodes::replica_made;
use crate::rules::{KeyRule, SumRule, TalliesRule};
use kat_design::kinds_of;
use kat_json::WireError;
use kat_lattice::{GrowMap, GrowSet, Tally};
use kat_num::{Items, Sort, Value};
use kat_shape::{Cell, Shape, cell};
use kat_sort_check::starts_fault;
use std::alloc::{AllocError, Global};

/// The set of these keys.
pub(crate) fn set_made(
    alloc: Global,
    sort: Sort,
    keys: &[Value],
) -> Result<GrowSet<Value>, WireError>
    ensures said { IfOk result (λ set. IsSaid (set_faults sort keys.now) keys.now set) }
    ensures refused { IfErr result (IsRefused (set_faults sort keys.now)) }
{
    judge_each::<KeyRule>(alloc, &KeyRule { sort }, keys)?;
    let keys = Vec::from_slice(alloc, keys)?;
    Ok(GrowSet::from_keys(keys))
}

/// The tally of these sums.
pub(crate) fn tally_made(alloc: Global, sums: &[(i128, i128)]) -> Result<Tally, WireError>
    ensures said { IfOk result (λ tally. IsSaid (sums_faults sums.now) (map sum_made sums.now) tally) }
    ensures refused { IfErr result (IsRefused (sums_faults sums.now)) }
{
    judge_each::<SumRule>(alloc, &SumRule, sums)?;
    let tally = tally_kept(alloc, sums)?;
    Ok(tally)
}

/// The tally of sums without a fault.
fn tally_kept(alloc: Global, sums: &[(i128, i128)]) -> Result<Tally, AllocError>
    requires { sums_faults sums.now ≡ [] }
    ensures { IfOk result (λ tally. tally ≡ map sum_made sums.now) }
{
    let made = sums_made(alloc, sums)?;
    Ok(Tally::from_sums(made))
}

/// The tallies by key of these entries.
pub(crate) fn tallies_made(
    alloc: Global,
    sort: Sort,
    entries: &[(Value, Items<(i128, i128)>)],
) -> Result<GrowMap<Value, Tally>, WireError>
    ensures said { IfOk result
        (λ table. IsSaid (tallies_faults sort entries.now) (record { start = []; entries = map tally_entry_made entries.now }) table) }
    ensures refused { IfErr result (IsRefused (tallies_faults sort entries.now)) }
{
    judge_each::<TalliesRule>(alloc, &TalliesRule { sort }, entries)?;
    let made = tally_entries(alloc, entries)?;
    Ok(GrowMap::from_entries(Tally::new(alloc), made))
}

/// The entries of tallies without a fault.
fn tally_entries(
    alloc: Global,
    entries: &[(Value, Items<(i128, i128)>)],
) -> Result<Vec<(Value, Tally)>, AllocError>
    requires { EachHas HasSums entries.now }
    ensures { IfOk result (λ made. made.items ≡ map tally_entry_made entries.now) }
{
    let mut made = Vec::with_capacity(alloc, entries.len())?;
    for i in 0..entries.len() {
        let entry = tally_entry(alloc, &entries[i])?;
        made.push(entry)?;
    }
    Ok(made)
}

fn tally_entry(
    alloc: Global,
    entry: &(Value, Items<(i128, i128)>),
) -> Result<(Value, Tally), AllocError>
    requires { HasSums entry.now }
    ensures { IfOk result (λ made. made ≡ tally_entry_made entry.now) }
{
    let tally = tally_kept(alloc, entry.1.as_slice())?;
    Ok((entry.0, tally))
}

/// Sums in their ranges as a tally keeps them.
fn sums_made(alloc: Global, sums: &[(i128, i128)]) -> Result<Vec<(u32, u128)>, AllocError>
    requires { EachHas IsSaidSum sums.now }
    ensures { IfOk result (λ made. made.items ≡ map sum_made sums.now) }
{
    let mut made = Vec::with_capacity(alloc, sums.len())?;
    for i in 0..sums.len() {
        made.push(sum_made(&sums[i]))?;
    }
    Ok(made)
}

fn sum_made(sum: &(i128, i128)) -> (u32, u128)
    requires { IsSaidSum sum.now }
    ensures { result ≡ sum_made sum.now }
{
    (replica_made(&sum.0), sum.1 as u128)
}

/// The cell of these leaves.
pub(crate) fn cell_made(alloc: Global, shape: &Shape, leaves: &[Value]) -> Result<Cell, WireError>
    requires { IsGoodForm (form_of shape.now) }
    ensures said { IfOk result (λ cell. IsSaid (leaves_faults (form_of shape.now) leaves.now)
        (filled_with (form_of shape.now) leaves.now) cell) }
    ensures refused { IfErr result (IsRefused (leaves_faults (form_of shape.now) leaves.now)) }
{
    judge_leaves(alloc, shape, leaves)?;
    let cell = cell(alloc, shape, leaves)?;
    Ok(cell)
}

/// Judges the leaves of a cell.
pub(crate) fn judge_leaves(alloc: Global, shape: &Shape, leaves: &[Value]) -> Result<(), WireError>
    ensures done { IfOk result (λ _. leaves_faults (form_of shape.now) leaves.now ≡ []) }
    ensures refused { IfErr result (IsRefused (leaves_faults (form_of shape.now) leaves.now)) }
{
    let kinds = kinds_of(alloc, shape)?;
    match starts_fault(alloc, leaves, &kinds)? {
        Some(place) => Err(WireError::Form(place)),
        None => Ok(()),
    }
}
