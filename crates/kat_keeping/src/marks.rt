//! Marks of what was done, and cells that join one thing.

use crate::pieces::{Holds, Piece, Register, Slot, Touch};
use crate::stores::{Store, add_leaf, add_piece, add_register, leaf_of};
use crate::subjects::{Change, Subject};
use kat_design::Leaf;
use kat_expr::Expr;
use kat_num::{Sort, Value};
use kat_reading::{Gift, Miss, boxed, mark, push};
use std::alloc::{AllocError, Global};

/// What an assignment with such a key does to a register.
fn touch_of(key: Option<u32>) -> Touch {
    match key {
        None => Touch::Plain,
        Some(place) => Touch::At(place),
    }
}

/// What each change that gives something does to a register.
pub fn touches_of(alloc: Global, subject: &Subject) -> Result<Vec<Touch>, AllocError> {
    let mut touches = Vec::new(alloc);
    for change in &subject.changes {
        push(
            &mut touches,
            match change {
                Change::Gives { key, .. } => touch_of(*key),
                _ => Touch::Not,
            },
        )?;
    }
    Ok(touches)
}

/// Keeps whether an operation with a touch was done, and gives the condition that one was: a truth value, or the number 1 if the
/// store keeps truth values as numbers.
pub fn marked(
    alloc: Global,
    store: &mut Store,
    key: Option<Sort>,
    touches: Vec<Touch>,
) -> Result<Expr, Miss> {
    if store.as_numbers {
        let leaves = marks_of(alloc, &touches, Leaf::One)?;
        let read = joined_below(alloc, store, key, Value::Num(0), touches, leaves, Some(1))?;
        return Ok(above_0(alloc, read)?);
    }
    match key {
        None => {
            let leaves = marks_of(alloc, &touches, Leaf::True)?;
            joined_below(
                alloc,
                store,
                None,
                Value::Bool(false),
                touches,
                leaves,
                None,
            )
        }
        Some(sort) => {
            let mut gifts = Vec::new(alloc);
            for touch in &touches {
                push(&mut gifts, key_gift(alloc, *touch)?)?;
            }
            let set = mark(alloc, Some(sort), gifts)?;
            let piece = add_piece(store, Piece::Ready(set))?;
            Ok(add_leaf(store, leaf_of(piece, 0, true, Holds::Truth))?)
        }
    }
}

/// What an operation gives to a set.
fn key_gift(alloc: Global, touch: Touch) -> Result<Option<Gift>, AllocError> {
    match touch {
        Touch::At(key) => {
            let mut leaves = Vec::new(alloc);
            push(&mut leaves, Leaf::True)?;
            Ok(Some(Gift {
                key: Some(key),
                leaves,
            }))
        }
        _ => Ok(None),
    }
}

/// Whether a number is above 0.
pub fn above_0(alloc: Global, read: Expr) -> Result<Expr, AllocError> {
    let zero = boxed(alloc, Expr::Const(Value::Num(0)))?;
    Ok(Expr::Less(zero, boxed(alloc, read)?))
}

/// Keeps the greatest, or whether any is true, of a start and of what operations give to a field, and gives what reads it; nothing
/// if none gives anything.
pub fn joined(
    alloc: Global,
    store: &mut Store,
    subject: &Subject,
    start: Value,
    given: &[Option<Leaf>],
) -> Result<Option<Expr>, Miss> {
    let mut touches = Vec::new(alloc);
    let mut leaves = Vec::new(alloc);
    let mut any = false;
    for (leaf, change) in given.iter().zip(subject.changes.iter()) {
        any = any || leaf.is_some();
        push(&mut touches, touched(change, leaf.is_some()))?;
        push(&mut leaves, leaf.unwrap_or(Leaf::False))?;
    }
    if !any {
        return Ok(None);
    }
    Ok(Some(joined_below(alloc, store, subject.key, start, touches, leaves, None)?))
}

/// What an operation does to a register to which it gives something or nothing.
pub fn touched(change: &Change, gives: bool) -> Touch {
    match change {
        Change::Gives { key, .. } if gives => touch_of(*key),
        _ => Touch::Not,
    }
}

/// Keeps what operations join to a start, of numbers that are at most a bound, if there is one.
fn joined_below(
    alloc: Global,
    store: &mut Store,
    key: Option<Sort>,
    start: Value,
    touches: Vec<Touch>,
    leaves: Vec<Leaf>,
    most: Option<i128>,
) -> Result<Expr, Miss> {
    let (holds, least) = match start {
        Value::Bool(_) => (Holds::Truth, None),
        Value::Name(_) => (Holds::Name, None),
        Value::Num(number) => (Holds::Number, Some(number)),
    };
    let mut slots = Vec::new(alloc);
    let slot = Slot {
        holds,
        start,
        leaves,
    };
    push(&mut slots, slot)?;
    let register = Register {
        key,
        ranks: 0,
        touches,
        slots,
    };
    let piece = add_register(store, register)?;
    let mut stored = leaf_of(piece, 0, key.is_some(), holds);
    stored.least = least;
    stored.most = most;
    Ok(add_leaf(store, stored)?)
}

/// A leaf for each operation with a touch.
fn marks_of(alloc: Global, touches: &[Touch], leaf: Leaf) -> Result<Vec<Leaf>, AllocError> {
    let mut leaves = Vec::new(alloc);
    for touch in touches {
        push(
            &mut leaves,
            if *touch == Touch::Not {
                Leaf::False
            } else {
                leaf
            },
        )?;
    }
    Ok(leaves)
}
