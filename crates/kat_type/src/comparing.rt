//! Operations that were done are compared by their ranks.
ghost use Rattle.std.specs.Prelude.{◌≡◌, map};
ghost use Rattle.kat_expr.specs.Slots.{argument};
ghost use Rattle.kat_type.specs.Arrangements.{canonical_cmp};
ghost use Rattle.kat_type.specs.Ranks.{element_value, elements_of, kind_of, rank_cmp, rank_of, value_cmp};
ghost use Rattle.kat_type.specs.Types.{type_form};

use crate::done::Done;
use crate::types::{Rank, SeqType};
use kat_num::Value;
use std::cmp::Ordering;

/// Compares two operations that were done by their ranks, lexicographically from the first element on.
///
/// If `set` has the rank `time, replica`, the one done at time 3 by replica 1 comes before that of time 3 by replica 2.
pub fn compare(ty: &SeqType, left: &Done, right: &Done) -> Ordering
    ensures { result ≡ rank_cmp (rank_of (type_form ty.now) left.now) (rank_of (type_form ty.now) right.now) }
{
    compare_elements(left, elements(ty, left.op), right, elements(ty, right.op))
}

/// Compares two operations that were done by their ranks, then their times, then their replicas: so of two that differ
/// in time or replica one comes before the other. A sort by it gives the canonical arrangement.
pub fn canonical_order(ty: &SeqType, left: &Done, right: &Done) -> Ordering
    ensures { result ≡ canonical_cmp (type_form ty.now) left.now right.now }
{
    let time = left.time.cmp(&right.time);
    let replica = left.replica.cmp(&right.replica);
    compare(ty, left, right).then(time.then(replica))
}

/// The rank that an operation states, by its number.
fn elements(ty: &SeqType, op: u32) -> &[Rank]
    ensures { result.now ≡ elements_of (type_form ty.now) op }
{
    match ty.ops.as_slice().get(op as usize) {
        Some(operation) => operation.ranks.as_slice(),
        None => &[],
    }
}

/// The order of two operations that were done by these elements.
fn compare_elements(left: &Done, left_rank: &[Rank], right: &Done, right_rank: &[Rank]) -> Ordering
    ensures { result ≡ rank_cmp (map (element_value left.now) left_rank.now) (map (element_value right.now) right_rank.now) }
{
    let [first, left_rest @ ..] = left_rank else {
        return if right_rank.is_empty() {
            Ordering::Equal
        } else {
            Ordering::Less
        };
    };
    let [second, right_rest @ ..] = right_rank else {
        return Ordering::Greater;
    };
    match compare_values(element_value(left, *first), element_value(right, *second)) {
        Ordering::Equal => compare_elements(left, left_rest, right, right_rest),
        order => order,
    }
}

/// The value of an element.
fn element_value(done: &Done, element: Rank) -> Value
    ensures { result ≡ element_value done.now element }
{
    match element {
        Rank::Digit(digit) => Value::Num(i128::from(digit)),
        Rank::Time => Value::Num(i128::from(done.time)),
        Rank::Replica => Value::Num(i128::from(done.replica)),
        Rank::Arg(place) => argument(done.args.as_slice(), place),
    }
}

/// The argument with this number.
fn argument(args: &[Value], place: u32) -> Value
    ensures { result ≡ argument args.now place }
{
    match args.get(place as usize) {
        Some(value) => *value,
        None => Value::Bool(false),
    }
}

/// The order of two values: of two numbers, or of two names.
fn compare_values(left: Value, right: Value) -> Ordering
    ensures { result ≡ value_cmp left right }
{
    match (left, right) {
        (Value::Num(left), Value::Num(right)) => left.cmp(&right),
        (Value::Name(left), Value::Name(right)) => left.cmp(&right),
        _ => kind(left).cmp(&kind(right)),
    }
}

/// The place of a value's kind among the kinds.
fn kind(value: Value) -> u8
    ensures { result ≡ kind_of value }
{
    match value {
        Value::Bool(_) => 0,
        Value::Num(_) => 1,
        Value::Name(_) => 2,
    }
}
