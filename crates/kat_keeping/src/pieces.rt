//! Components that are being made: what is kept under a rank can still be joined with other such things.

use kat_design::{Component, Leaf};
use kat_num::{Sort, Value};
use kat_reading::{Gift, Miss, boxed, cell_or_table, push};
use kat_shape::Shape;
use std::alloc::{AllocError, Global};

/// What a slot holds.
#[derive(Clone, Copy, PartialEq, Eq, Debug)]
pub enum Holds {
    Number,
    Name,
    Truth,
}

/// A leaf of a cell or of a table: its start, and what each operation gives to it, which means nothing for those that do nothing.
#[derive(Drop)]
pub struct Slot {
    pub holds: Holds,
    pub start: Value,
    pub leaves: Vec<Leaf>,
}

/// What an operation does to a register: nothing, or it writes, in a table at the key that is the argument with that number.
#[derive(Clone, Copy, PartialEq, Eq, Debug)]
pub enum Touch {
    Not,
    Plain,
    At(u32),
}

/// A cell, or a table if there is a sort of keys: the first `ranks` slots are a rank, under which the others are kept.
#[derive(Drop)]
pub struct Register {
    pub key: Option<Sort>,
    pub ranks: usize,
    pub touches: Vec<Touch>,
    pub slots: Vec<Slot>,
}

/// A component, or a register that becomes one.
#[derive(Drop)]
pub enum Piece {
    Ready(Component),
    Open(Register),
}

/// The component of a register with these slots.
pub(crate) fn component_of(
    alloc: Global,
    register: &Register,
    slots: &[Slot],
) -> Result<Component, Miss> {
    let mut starts = Vec::new(alloc);
    for slot in slots {
        push(&mut starts, slot.start)?;
    }
    let mut gifts = Vec::new(alloc);
    for (op, touch) in register.touches.iter().enumerate() {
        push(&mut gifts, gift_of(alloc, slots, op, *touch)?)?;
    }
    let shape = shape_of(alloc, register.ranks, slots)?;
    cell_or_table(alloc, register.key, shape, starts, gifts)
}

/// What the operation with a number gives to slots.
fn gift_of(alloc: Global, slots: &[Slot], op: usize, touch: Touch) -> Result<Option<Gift>, Miss> {
    let key = match touch {
        Touch::Not => return Ok(None),
        Touch::Plain => None,
        Touch::At(key) => Some(key),
    };
    let mut leaves = Vec::new(alloc);
    for slot in slots {
        match slot.leaves.get(op) {
            Some(leaf) => push(&mut leaves, *leaf)?,
            None => return Err(Miss::NoRule),
        }
    }
    Ok(Some(Gift { key, leaves }))
}

/// The shape of slots: side by side, under a rank of so many.
fn shape_of(alloc: Global, ranks: usize, slots: &[Slot]) -> Result<Shape, Miss> {
    let mut shape = None;
    let mut place = slots.len();
    for slot in slots.iter().rev() {
        place = place.saturating_sub(1);
        let own = shape_held(slot.holds);
        shape = Some(over(alloc, place < ranks, own, shape)?);
    }
    match shape {
        Some(shape) => Ok(shape),
        None => Err(Miss::NoRule),
    }
}

/// The first over the second, or beside it, if there is a second.
fn over(
    alloc: Global,
    is_rank: bool,
    first: Shape,
    second: Option<Shape>,
) -> Result<Shape, AllocError> {
    let Some(second) = second else {
        return Ok(first);
    };
    let first = boxed(alloc, first)?;
    let second = boxed(alloc, second)?;
    Ok(if is_rank {
        Shape::Lex(first, second)
    } else {
        Shape::Pair(first, second)
    })
}

/// The shape of a slot.
fn shape_held(holds: Holds) -> Shape {
    match holds {
        Holds::Number => Shape::Max,
        Holds::Name => Shape::Name,
        Holds::Truth => Shape::Or,
    }
}
