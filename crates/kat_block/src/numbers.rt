//! The number of the condition at a place.
ghost use Rattle.std.specs.Prelude.{◌≡◌, ◌+◌, ◌*◌, ◌<◌, ◌≤◌, ◌^◌, MatchOption, Some, length, slice_get};
ghost use Rattle.kat_type.specs.Limits.{item_limit};
ghost use Rattle.kat_type.specs.Lists.{Has};
ghost use Rattle.kat_type.specs.Types.{type_form};
ghost use Rattle.kat_block.specs.Left.{HasNone, IsBlock, IsNumberAt};
ghost use Rattle.kat_said.specs.declared.said.Place.TheVariants.{Start, Step, Query};

use crate::left::Block;
use kat_said::Place;
use kat_type::SeqType;

/// The number, from 1, of the condition at a place among those of the relation that is left; none if there is no such condition,
/// or its candidate is dropped.
pub(crate) fn number_at(ty: &SeqType, block: &Block, at: Place) -> Option<u32>
    requires block { IsBlock block.now }
    requires ops { length ty.now.ops ≤ item_limit }
    requires queries { length ty.now.queries ≤ item_limit }
    ensures { MatchOption result (HasNone (type_form ty.now) block.now.candidates.conjuncts block.now.dropped.items at)
        (IsNumberAt (type_form ty.now) block.now.candidates.conjuncts block.now.dropped.items at) }
{
    match at {
        Place::Start(conjunct) => start_number(ty, block, conjunct),
        Place::Step { op, conjunct } => step_number(ty, block, op, conjunct),
        Place::Query(query) => query_number(ty, block, query),
    }
}

fn start_number(ty: &SeqType, block: &Block, conjunct: u128) -> Option<u32>
    requires block { IsBlock block.now }
    ensures { MatchOption result (HasNone (type_form ty.now) block.now.candidates.conjuncts block.now.dropped.items (Start conjunct))
        (IsNumberAt (type_form ty.now) block.now.candidates.conjuncts block.now.dropped.items (Start conjunct)) }
{
    let _ops = ty.ops.as_slice().len();
    match place_among(&block.numbers, conjunct) {
        Some(place) => Some(number_of(place)),
        None => None,
    }
}

fn step_number(ty: &SeqType, block: &Block, op: u128, conjunct: u128) -> Option<u32>
    requires block { IsBlock block.now }
    requires ops { length ty.now.ops ≤ item_limit }
    ensures { MatchOption result (HasNone (type_form ty.now) block.now.candidates.conjuncts block.now.dropped.items (Step op conjunct))
        (IsNumberAt (type_form ty.now) block.now.candidates.conjuncts block.now.dropped.items (Step op conjunct)) }
{
    match index_of(op, ty.ops.as_slice().len()) {
        Some(op) => step_number_of(ty, block, op, conjunct),
        None => None,
    }
}

fn step_number_of(ty: &SeqType, block: &Block, op: usize, conjunct: u128) -> Option<u32>
    requires block { IsBlock block.now }
    requires ops { length ty.now.ops ≤ item_limit }
    requires op { op < length ty.now.ops }
    ensures { MatchOption result (HasNone (type_form ty.now) block.now.candidates.conjuncts block.now.dropped.items (Step op conjunct))
        (IsNumberAt (type_form ty.now) block.now.candidates.conjuncts block.now.dropped.items (Step op conjunct)) }
{
    let _ops = ty.ops.as_slice().len();
    match place_among(&block.numbers, conjunct) {
        Some(place) => Some(later_number(block.numbers.len(), op, place)),
        None => None,
    }
}

fn query_number(ty: &SeqType, block: &Block, query: u128) -> Option<u32>
    requires block { IsBlock block.now }
    requires ops { length ty.now.ops ≤ item_limit }
    requires queries { length ty.now.queries ≤ item_limit }
    ensures { MatchOption result (HasNone (type_form ty.now) block.now.candidates.conjuncts block.now.dropped.items (Query query))
        (IsNumberAt (type_form ty.now) block.now.candidates.conjuncts block.now.dropped.items (Query query)) }
{
    match index_of(query, ty.queries.as_slice().len()) {
        Some(query) => Some(later_number(block.numbers.len(), ty.ops.as_slice().len(), query)),
        None => None,
    }
}

/// A number as an index below a count.
fn index_of(number: u128, count: usize) -> Option<usize>
    ensures { MatchOption result (count ≤ number) (λ index. (index ≡ number) × (index < count)) }
{
    if number < count as u128 {
        return Some(number as usize);
    }
    None
}

/// The number, from 1, of a place.
fn number_of(place: usize) -> u32
    requires { place < 2 ^ 28 }
    ensures { result ≡ place + 1 }
{
    place as u32 + 1
}

/// The number, from 1, of a place that comes after this many groups.
fn later_number(count: usize, groups: usize, place: usize) -> u32
    requires count { count ≤ 2 ^ 28 }
    requires groups { groups ≤ 12 }
    requires place { place ≤ 2 ^ 28 }
    ensures { result ≡ (count + (groups * count + place)) + 1 }
{
    (count + (groups * count + place)) as u32 + 1
}

/// How many conditions of candidates a relation with this many conjuncts has.
pub(crate) fn conjunct_count(count: usize, ops: usize) -> u32
    requires count { count ≤ 2 ^ 28 }
    requires ops { ops ≤ 12 }
    ensures value { result ≡ count + ops * count }
    ensures small { result ≤ 13 * 2 ^ 28 }
{
    (count + ops * count) as u32
}

/// The place of a number.
pub(crate) fn place_among(numbers: &[u64], number: u128) -> Option<usize>
    ensures { MatchOption result (Has numbers.now number → ⊥) (λ place. slice_get numbers.now place ≡ Some number) }
{
    for (place, n) in numbers.iter().enumerate() {
        if u128::from(*n) == number {
            return Some(place);
        }
    }
    None
}
