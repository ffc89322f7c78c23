//! What each element of a set, a tally or tallies by key must keep.
ghost use Rattle.std.specs.Prelude.{◌≡◌, ◌++◌, [], IfErr, IfOk};
ghost use Rattle.kat_design.specs.Faults.{here_if};
ghost use Rattle.kat_json.specs.Refused.{IsRefused};
ghost use Rattle.kat_node.specs.Possible.{has_key_sort, have_one_kind, is_empty, key_faults, keys_ascend, replicas_ascend, sum_entry_faults, sums_faults};

use crate::judging::{Rule, in_range, is_less, judge_each};
use crate::written::is_written;
use kat_json::WireError;
use kat_json::forms::{here, within};
use kat_num::{Items, Sort, Value};
use std::alloc::Global;

/// A key of a sort.
#[derive(Drop)]
pub(crate) struct KeyRule {
    pub(crate) sort: Sort,
}

impl Rule for KeyRule {
    type Element = Value;

    type Key = Value;

    ghost key = { λ v. v };

    ghost ascend = { keys_ascend };

    ghost faults = { λ rule v. key_faults rule.sort v };

    fn key_of(element: &Value) -> Value {
        *element
    }

    fn may_follow(last: Value, next: Value) -> bool {
        keys_ascend(last, next)
    }

    fn judge(&self, alloc: Global, element: &Value) -> Result<(), WireError> {
        judge_key(alloc, self.sort, *element)
    }
}

/// Whether a key is greater than the last one; a number and a name aren't compared.
pub(crate) fn keys_ascend(last: Value, key: Value) -> bool
    ensures { result ≡ keys_ascend last key }
{
    !have_one_kind(last, key) || is_less(last.cmp(&key))
}

/// Two numbers, or two names.
fn have_one_kind(left: Value, right: Value) -> bool
    ensures { result ≡ have_one_kind left right }
{
    match (left, right) {
        (Value::Num(_), Value::Num(_)) | (Value::Name(_), Value::Name(_)) => true,
        _ => false,
    }
}

/// Judges a key.
pub(crate) fn judge_key(alloc: Global, sort: Sort, key: Value) -> Result<(), WireError>
    ensures done { IfOk result (λ _. key_faults sort key ≡ []) }
    ensures refused { IfErr result (IsRefused (key_faults sort key)) }
{
    if has_key_sort(sort, key) && is_written(key) {
        Ok(())
    } else {
        Err(here(alloc))
    }
}

/// Whether the value is a key of the sort.
fn has_key_sort(sort: Sort, key: Value) -> bool
    ensures { result ≡ has_key_sort sort key }
{
    match (sort, key) {
        (Sort::Int, Value::Num(_)) => true,
        (Sort::Nat, Value::Num(number)) => 0 <= number,
        (Sort::Name, Value::Name(_)) => true,
        _ => false,
    }
}

/// A replica with its sum.
#[derive(Drop)]
pub(crate) struct SumRule;

impl Rule for SumRule {
    type Element = (i128, i128);

    type Key = i128;

    ghost key = { λ sum. sum.0 };

    ghost ascend = { replicas_ascend };

    ghost faults = { λ rule sum. sum_entry_faults sum };

    fn key_of(element: &(i128, i128)) -> i128 {
        element.0
    }

    fn may_follow(last: i128, next: i128) -> bool {
        is_less(last.cmp(&next))
    }

    fn judge(&self, alloc: Global, element: &(i128, i128)) -> Result<(), WireError> {
        judge_sum(alloc, element)
    }
}

/// Judges a replica and its sum.
fn judge_sum(alloc: Global, sum: &(i128, i128)) -> Result<(), WireError>
    ensures done { IfOk result (λ _. sum_entry_faults sum.now ≡ []) }
    ensures refused { IfErr result (IsRefused (sum_entry_faults sum.now)) }
{
    within(alloc, 0, in_range(alloc, 1, 32, &sum.0))?;
    within(
        alloc,
        1,
        in_range(alloc, 1, 1_000_000_000_000_000_000, &sum.1),
    )?;
    Ok(())
}

/// A key with a tally that isn't empty.
#[derive(Drop)]
pub(crate) struct TalliesRule {
    pub(crate) sort: Sort,
}

impl Rule for TalliesRule {
    ghost use Rattle.kat_node.specs.Possible.{tallies_entry_faults};

    type Element = (Value, Items<(i128, i128)>);

    type Key = Value;

    ghost key = { λ entry. entry.0 };

    ghost ascend = { keys_ascend };

    ghost faults = { λ rule entry. tallies_entry_faults rule.sort entry };

    fn key_of(element: &(Value, Items<(i128, i128)>)) -> Value {
        element.0
    }

    fn may_follow(last: Value, next: Value) -> bool {
        keys_ascend(last, next)
    }

    fn judge(
        &self,
        alloc: Global,
        element: &(Value, Items<(i128, i128)>),
    ) -> Result<(), WireError> {
        within(alloc, 0, judge_key(alloc, self.sort, element.0))?;
        within(alloc, 1, judge_some(alloc, element.1.as_slice()))?;
        Ok(())
    }
}

/// Judges a tally that must have a sum.
fn judge_some(alloc: Global, sums: &[(i128, i128)]) -> Result<(), WireError>
    ensures done { IfOk result (λ _. here_if (is_empty sums.now) ++ sums_faults sums.now ≡ []) }
    ensures refused { IfErr result (IsRefused (here_if (is_empty sums.now) ++ sums_faults sums.now)) }
{
    match sums {
        [] => Err(here(alloc)),
        [_, ..] => judge_each::<SumRule>(alloc, &SumRule, sums),
    }
}
