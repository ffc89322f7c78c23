//! The histories by their stamps.
ghost use Rattle.std.specs.Prelude.{◌≡◌, ◌<◌, ◌^◌, ◌++◌, [], Some, IfOk, OnOk, length, map, min, slice_get, take};
ghost use Rattle.std.specs.List.{slice_index_or, sum_by};
ghost use Rattle.kat_histories.specs.Choices.{one_of_each};
ghost use Rattle.kat_histories.specs.Groups.{count_of, groups_of, ways};
ghost use Rattle.kat_histories.specs.Histories.{all_histories, done_at, dones_at, histories_at};

use crate::calls::Call;
use crate::histories::{HISTORY_LIMIT, History};
use crate::stamps::{Stamp, stamp_lists};
use kat_num::Items;
use kat_type::Done;
use std::alloc::{AllocError, Global};

/// The histories with the same stamps: how many they are, up to the limit.
pub(crate) struct Group {
    pub(crate) stamps: Items<Stamp>,
    pub(crate) count: u64,
}

impl Drop for Group {
    fn drop(self) {
        let Self {
            stamps: _,
            count: _,
        } = self;
    }
}

/// All groups, if there are this many calls.
pub(crate) fn groups_of(alloc: Global, calls: usize) -> Result<Vec<Group>, AllocError>
    ensures { IfOk result (λ groups. groups.items ≡ groups_of calls) }
{
    let mut groups = Vec::new(alloc);
    for stamps in stamp_lists(alloc)? {
        let count = ways(calls, stamps.as_slice().len());
        groups.push(Group { stamps, count })?;
    }
    Ok(groups)
}

/// In how many ways this many operations can be one of this many calls, up to the limit of histories.
fn ways(calls: usize, operations: usize) -> u64
    ensures { result ≡ ways calls operations }
{
    let mut ways: u64 = 1;
    for _ in 0..operations {
        ways = HISTORY_LIMIT.min(ways.saturating_mul(calls as u64));
    }
    ways
}

/// How many histories there are in all, up to the limit.
pub(crate) fn total_of(groups: &[Group]) -> u64
    ensures { result ≡ min (sum_by count_of groups.now) HISTORY_LIMIT }
{
    let mut total: u64 = 0;
    for group in groups {
        total = HISTORY_LIMIT.min(total.saturating_add(group.count));
    }
    total
}

/// The history with this number, from 0, among all groups.
pub(crate) fn history_among(
    alloc: Global,
    groups: &[Group],
    calls: &[Call],
    number: u64,
) -> Result<History, AllocError>
    requires groups { groups.now ≡ groups_of (length calls.now) }
    requires within { number < length (take HISTORY_LIMIT (all_histories calls.now)) }
    ensures { IfOk result (λ found. slice_get (take HISTORY_LIMIT (all_histories calls.now)) number ≡ Some found) }
{
    let mut left = number;
    for group in groups {
        if left < group.count {
            return history_at(alloc, group.stamps.as_slice(), calls, left);
        }
        left -= group.count;
    }
    unreachable!()
}

/// The history of a group with this number, from 0.
fn history_at(
    alloc: Global,
    stamps: &[Stamp],
    calls: &[Call],
    number: u64,
) -> Result<History, AllocError>
    requires few { number < HISTORY_LIMIT }
    requires within { number < length calls.now ^ length stamps.now }
    ensures { IfOk result (λ found. slice_get (histories_at calls.now stamps.now) number ≡ Some found) }
{
    let mut ops = Vec::with_capacity(alloc, stamps.len())?;
    push_dones(alloc, stamps, calls, number, &mut ops)?;
    Ok(History {
        ops: Items::from_vec(ops),
    })
}

/// Appends the operations of a history, the first of which has the highest place in its number.
fn push_dones(
    alloc: Global,
    stamps: &[Stamp],
    calls: &[Call],
    number: u64,
    ops: &mut Vec<Done>,
) -> Result<(), AllocError>
    requires few { number < HISTORY_LIMIT }
    requires within { number < length calls.now ^ length stamps.now }
    ensures { OnOk result (ops.new.items ≡ ops.old.items ++ slice_index_or (one_of_each (map (dones_at calls.now) stamps.now)) number []) }
{
    match stamps {
        [] => Ok(()),
        [stamp, more @ ..] => {
            let block = ways(calls.len(), more.len());
            let call = &calls[(number / block) as usize];
            ops.push(done_at(alloc, *stamp, call)?)?;
            push_dones(alloc, more, calls, number % block, ops)
        }
    }
}

/// A call that is done at a replica and a time.
fn done_at(alloc: Global, stamp: Stamp, call: &Call) -> Result<Done, AllocError>
    ensures { IfOk result (λ done. done ≡ done_at stamp call.now) }
{
    Ok(Done {
        replica: stamp.replica,
        time: stamp.time,
        op: call.number,
        args: Items::from_vec(Vec::from_slice(alloc, call.args.as_slice())?),
    })
}
