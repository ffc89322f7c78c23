//! The effects of operations, judged by the sorts of their arguments.
ghost use Rattle.std.specs.Prelude.{◌≡◌, IfOk, slice_get};
ghost use Rattle.kat_design.specs.Faults.{cell_effect_faults, first_of, gives_kind, has_kind, has_sort, is_weight, key_faults, leaf_faults, list_faults, set_effect_faults, table_effect_faults, tallies_effect_faults, tally_effect_faults, weight_faults};

use crate::faults::{earlier, here_if, within};
use kat_design::{Kind, Leaf, is_kind, is_sort, sort_kind};
use kat_num::{Items, Sort};
use kat_type::OpSig;
use std::alloc::{AllocError, Global};

/// Whether the argument has exactly the sort.
pub fn has_sort(asked: Sort, sorts: &[Sort], place: u32) -> bool
    ensures { result ≡ has_sort asked (slice_get sorts.now place) }
{
    match sorts.get(place as usize) {
        None => false,
        Some(given) => is_sort(asked, *given),
    }
}

/// Whether the argument has the kind.
fn has_kind(kind: Kind, sorts: &[Sort], place: u32) -> bool
    ensures { result ≡ has_kind kind (slice_get sorts.now place) }
{
    match sorts.get(place as usize) {
        None => false,
        Some(given) => is_kind(kind, sort_kind(*given)),
    }
}

/// Whether what an operation gives to a leaf has the kind of the leaf.
pub fn gives_kind(sorts: &[Sort], leaf: Leaf, kind: Kind) -> bool
    ensures { result ≡ gives_kind sorts.now leaf kind }
{
    match leaf {
        Leaf::Arg(place) => has_kind(kind, sorts, place),
        Leaf::Time => is_kind(kind, Kind::Number),
        Leaf::Replica => is_kind(kind, Kind::Number),
        Leaf::Zero => is_kind(kind, Kind::Number),
        Leaf::One => is_kind(kind, Kind::Number),
        Leaf::Pos(place) => is_kind(kind, Kind::Number) && has_sort(Sort::Int, sorts, place),
        Leaf::Neg(place) => is_kind(kind, Kind::Number) && has_sort(Sort::Int, sorts, place),
        Leaf::False => is_kind(kind, Kind::Truth),
        Leaf::True => is_kind(kind, Kind::Truth),
    }
}

/// Whether what an operation adds to a sum has sort `nat`.
pub fn is_weight(sorts: &[Sort], leaf: Leaf) -> bool
    ensures { result ≡ is_weight sorts.now leaf }
{
    match leaf {
        Leaf::Arg(place) => has_sort(Sort::Nat, sorts, place),
        Leaf::Time => true,
        Leaf::Replica => true,
        Leaf::Zero => true,
        Leaf::One => true,
        Leaf::Pos(place) => has_sort(Sort::Int, sorts, place),
        Leaf::Neg(place) => has_sort(Sort::Int, sorts, place),
        Leaf::False => false,
        Leaf::True => false,
    }
}

/// The fault of a key.
pub(crate) fn key_fault(alloc: Global, key: Sort, sorts: &[Sort], place: u32) -> Option<Items<u32>>
    ensures { result ≡ first_of (key_faults key sorts.now place) }
{
    here_if(alloc, !has_sort(key, sorts, place))
}

/// The fault of a weight.
fn weight_fault(alloc: Global, sorts: &[Sort], leaf: Leaf) -> Option<Items<u32>>
    ensures { result ≡ first_of (weight_faults sorts.now leaf) }
{
    here_if(alloc, !is_weight(sorts, leaf))
}

/// The first fault of the leaves that an operation gives.
fn leaves_fault(
    alloc: Global,
    sorts: &[Sort],
    leaves: &[Leaf],
    kinds: &[Kind],
) -> Result<Option<Items<u32>>, AllocError>
    ensures { IfOk result (λ fault. fault ≡ first_of (list_faults (leaf_faults sorts.now) leaves.now kinds.now)) }
{
    if leaves.len() != kinds.len() {
        return Ok(here_if(alloc, true));
    }
    for i in 0..leaves.len() {
        let fault = here_if(alloc, !gives_kind(sorts, leaves[i], kinds[i]));
        if fault.is_some() {
            return within(alloc, i, fault);
        }
    }
    Ok(None)
}

/// The first fault of an effect on a cell.
pub(crate) fn cell_effect_fault(
    alloc: Global,
    kinds: &[Kind],
    effect: &Option<Items<Leaf>>,
    op: &OpSig,
) -> Result<Option<Items<u32>>, AllocError>
    ensures { IfOk result (λ fault. fault ≡ first_of (cell_effect_faults kinds.now effect.now op.now)) }
{
    match effect {
        None => Ok(None),
        Some(leaves) => leaves_fault(alloc, op.sorts.as_slice(), leaves.as_slice(), kinds),
    }
}

/// The first fault of an effect on a table.
pub(crate) fn table_effect_fault(
    alloc: Global,
    key: Sort,
    kinds: &[Kind],
    effect: &Option<(u32, Items<Leaf>)>,
    op: &OpSig,
) -> Result<Option<Items<u32>>, AllocError>
    ensures { IfOk result (λ fault. fault ≡ first_of (table_effect_faults key kinds.now effect.now op.now)) }
{
    match effect {
        None => Ok(None),
        Some((place, leaves)) => {
            let sorts = op.sorts.as_slice();
            let first = within(alloc, 0, key_fault(alloc, key, sorts, *place))?;
            let second = leaves_fault(alloc, sorts, leaves.as_slice(), kinds)?;
            Ok(earlier(first, within(alloc, 1, second)?))
        }
    }
}

/// The fault of an effect on a set.
pub(crate) fn set_effect_fault(
    alloc: Global,
    key: Sort,
    effect: Option<u32>,
    op: &OpSig,
) -> Option<Items<u32>>
    ensures { result ≡ first_of (set_effect_faults key effect op.now) }
{
    match effect {
        None => None,
        Some(place) => key_fault(alloc, key, op.sorts.as_slice(), place),
    }
}

/// The fault of an effect on a tally.
pub(crate) fn tally_effect_fault(
    alloc: Global,
    effect: Option<Leaf>,
    op: &OpSig,
) -> Option<Items<u32>>
    ensures { result ≡ first_of (tally_effect_faults effect op.now) }
{
    match effect {
        None => None,
        Some(leaf) => weight_fault(alloc, op.sorts.as_slice(), leaf),
    }
}

/// The first fault of an effect on `tallies`.
pub(crate) fn tallies_effect_fault(
    alloc: Global,
    key: Sort,
    effect: &Option<(u32, Leaf)>,
    op: &OpSig,
) -> Result<Option<Items<u32>>, AllocError>
    ensures { IfOk result (λ fault. fault ≡ first_of (tallies_effect_faults key effect.now op.now)) }
{
    match effect {
        None => Ok(None),
        Some((place, leaf)) => {
            let sorts = op.sorts.as_slice();
            let first = within(alloc, 0, key_fault(alloc, key, sorts, *place))?;
            let second = within(alloc, 1, weight_fault(alloc, sorts, *leaf))?;
            Ok(earlier(first, second))
        }
    }
}
