//! Numbers, leaves, and constants with their positions, as lists.
ghost use Rattle.std.specs.Prelude.{◌≡◌, ◌++◌, IfOk, length, map, slice_get};
ghost use Rattle.kat_candidate.specs.Parts.{constants_at, constants_of, digits, has_digit, is_digit, leaves_from, leaves_of, numbers_from, rank_length};
ghost use Rattle.kat_design.specs.Designs.{component_form};
ghost use Rattle.kat_design.specs.Kinds.{component_kinds};
ghost use Rattle.kat_type.specs.Types.{operation_form};

use kat_design::{Component, Kind, component_kinds};
use kat_relation::LeafRef;
use kat_type::{Operation, Rank};
use std::alloc::{AllocError, Global};

/// A digit above 0 that some operation has at a position of its rank.
#[derive(Clone, Copy)]
pub struct Constant {
    pub position: u32,
    pub digit: u32,
}

/// The digits that may be constants.
const DIGITS: [u32; 9] = [1, 2, 3, 4, 5, 6, 7, 8, 9];

/// The number of a place in a list. A longer list is answered as out of memory.
fn number(place: usize) -> Result<u32, AllocError>
    ensures { IfOk result (λ n. n ≡ place) }
{
    match u32::try_from(place) {
        Ok(number) => Ok(number),
        Err(_) => Err(AllocError),
    }
}

/// The numbers below a count. More than 32 bits count are answered as out of memory.
pub fn numbers_below(alloc: Global, count: usize) -> Result<Vec<u32>, AllocError>
    ensures { IfOk result (λ numbers. numbers.items ≡ numbers_from 0 count) }
{
    let mut numbers = Vec::new(alloc);
    for i in 0..count {
        let n = number(i)?;
        numbers.push(n)?;
    }
    Ok(numbers)
}

/// How many elements each rank has: those of the first operation's. Without an operation there are none.
pub fn rank_length(ops: &[Operation]) -> usize
    ensures { result ≡ rank_length (map operation_form ops.now) }
{
    match ops {
        [] => 0,
        [op, ..] => op.ranks.as_slice().len(),
    }
}

/// The leaves of components, in order. More than 32 bits count are answered as out of memory.
pub fn leaves_of(alloc: Global, components: &[Component]) -> Result<Vec<LeafRef>, AllocError>
    ensures { IfOk result (λ leaves. leaves.items ≡ leaves_of 0 (map component_form components.now)) }
{
    let mut leaves = Vec::new(alloc);
    for (i, component) in components.iter().enumerate() {
        let n = number(i)?;
        push_leaves(alloc, n, component, &mut leaves)?;
    }
    Ok(leaves)
}

fn push_leaves(
    alloc: Global,
    number: u32,
    component: &Component,
    into: &mut Vec<LeafRef>,
) -> Result<(), AllocError>
    ensures { IfOk result (λ u. into.new.items ≡ into.old.items ++ leaves_from number 0 (component_kinds (component_form component.now))) }
{
    let kinds = component_kinds(alloc, component)?;
    push_leaves_of(number, &kinds, into)
}

fn push_leaves_of(component: u32, kinds: &[Kind], into: &mut Vec<LeafRef>) -> Result<(), AllocError>
    ensures { IfOk result (λ u. into.new.items ≡ into.old.items ++ leaves_from component 0 kinds.now) }
{
    for (i, _kind) in kinds.iter().enumerate() {
        let leaf = number(i)?;
        into.push(LeafRef { component, leaf })?;
    }
    Ok(())
}

/// The constants at positions: for each the digits above 0 that some operation has there, in order.
pub fn constants_of(
    alloc: Global,
    ops: &[Operation],
    positions: &[u32],
) -> Result<Vec<Constant>, AllocError>
    ensures { IfOk result (λ constants. constants.items ≡ constants_of (map operation_form ops.now) positions.now) }
{
    let mut constants = Vec::new(alloc);
    for position in positions {
        push_constants(ops, *position, &DIGITS, &mut constants)?;
    }
    Ok(constants)
}

/// The constants at a position.
fn push_constants(
    ops: &[Operation],
    position: u32,
    digits: &[u32],
    into: &mut Vec<Constant>,
) -> Result<(), AllocError>
    ensures { IfOk result (λ u. into.new.items ≡ into.old.items ++ constants_at (map operation_form ops.now) position digits.now) }
{
    for digit in digits {
        if !has_digit(ops, position, *digit) {
            continue;
        }
        into.push(Constant {
            position,
            digit: *digit,
        })?;
    }
    Ok(())
}

/// Whether some operation has the digit at the position of its rank.
fn has_digit(ops: &[Operation], position: u32, digit: u32) -> bool
    ensures { result ≡ has_digit (map operation_form ops.now) position digit }
{
    match ops {
        [] => false,
        [op, ops @ ..] => {
            if is_digit(op.ranks.as_slice(), position, digit) {
                true
            } else {
                has_digit(ops, position, digit)
            }
        }
    }
}

fn is_digit(ranks: &[Rank], position: u32, digit: u32) -> bool
    ensures { result ≡ is_digit (slice_get ranks.now position) digit }
{
    match ranks.get(position as usize) {
        None => false,
        Some(Rank::Digit(n)) => u32::from(*n) == digit,
        Some(Rank::Time) => false,
        Some(Rank::Replica) => false,
        Some(Rank::Arg(_)) => false,
    }
}
