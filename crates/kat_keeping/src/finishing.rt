//! The components of a design: what no ask reads is left out, and what is alike is kept once.

use crate::pieces::{Piece, Register, Slot, Touch, component_of};
use crate::stores::Store;
use kat_design::{Ask, Component};
use kat_formulas::{Scope, Stored};
use kat_num::Sort;
use kat_reading::{Miss, number_of, push};
use std::alloc::{AllocError, Global};

/// The components that some ask reads, and the leaves of a store with their places among these.
#[derive(Drop)]
pub struct Selection {
    pub components: Vec<Component>,
    pub(crate) stored: Vec<Stored>,
    pub(crate) first: u32,
}

impl Selection {
    /// What queries with arguments of these sorts read.
    pub fn scope(&self, alloc: Global, sorts: Vec<Sort>) -> Result<Scope, AllocError> {
        Ok(Scope {
            first: self.first,
            stored: Vec::from_slice(alloc, &self.stored)?,
            sorts,
        })
    }
}

/// What is kept of a store for asks that read it.
///
/// Last writes under one rank, by the same operations, are kept in one cell or table.
pub fn finished(alloc: Global, store: &Store, asks: &[Ask]) -> Result<Selection, Miss> {
    let homes = homes_of(alloc, &store.pieces, asks)?;
    let mut components = Vec::new(alloc);
    let mut numbers = Vec::new(alloc);
    let mut wholes = Vec::new(alloc);
    for (number, piece) in store.pieces.iter().enumerate() {
        push(&mut numbers, number_of(components.len()))?;
        let mut whole = Vec::new(alloc);
        if home_of(&homes, number) == Some(number) {
            whole = whole_of(alloc, &store.pieces, &homes, number)?;
            push(&mut components, made(alloc, piece, &whole)?)?;
        }
        push(&mut wholes, whole)?;
    }
    let mut stored = Vec::new(alloc);
    for own in &store.stored {
        push(
            &mut stored,
            moved(*own, &store.pieces, &homes, &numbers, &wholes),
        )?;
    }
    Ok(Selection {
        components,
        stored,
        first: store.first,
    })
}

/// The piece that keeps what each piece has: the first that is like it; none for a piece that no ask reads.
fn homes_of(
    alloc: Global,
    pieces: &[Piece],
    asks: &[Ask],
) -> Result<Vec<Option<usize>>, AllocError> {
    let mut homes = Vec::new(alloc);
    for (number, piece) in pieces.iter().enumerate() {
        let mut home = None;
        if asks
            .iter()
            .any(|ask| reads_component(ask, number_of(number)))
        {
            home = Some(first_like(pieces, &homes, number, piece));
        }
        push(&mut homes, home)?;
    }
    Ok(homes)
}

/// The first piece of those that are homes that is like a piece, or that piece.
fn first_like(pieces: &[Piece], homes: &[Option<usize>], number: usize, piece: &Piece) -> usize {
    for (other, own) in pieces.iter().enumerate() {
        if home_of(homes, other) == Some(other) && are_like(own, piece) {
            return other;
        }
    }
    number
}

/// The home of a piece.
fn home_of(homes: &[Option<usize>], number: usize) -> Option<usize> {
    match homes.get(number) {
        Some(home) => *home,
        None => None,
    }
}

/// Whether an ask reads a component.
fn reads_component(ask: &Ask, number: u32) -> bool {
    match ask {
        Ask::Leaf { component, .. } => *component == number,
        Ask::Arg(_) | Ask::Const(_) => false,
        Ask::Not(inner) => reads_component(inner, number),
        Ask::And(left, right)
        | Ask::Or(left, right)
        | Ask::Less(left, right)
        | Ask::Plus(left, right)
        | Ask::Minus(left, right) => {
            reads_component(left, number) || reads_component(right, number)
        }
    }
}

/// Whether two pieces can be one component.
fn are_like(one: &Piece, other: &Piece) -> bool {
    match (one, other) {
        (Piece::Open(x), Piece::Open(y)) => are_one_register(x, y),
        (Piece::Ready(x), Piece::Ready(y)) => are_equal(x, y),
        _ => false,
    }
}

/// Whether two registers have one rank, or without ranks the same slots.
fn are_one_register(x: &Register, y: &Register) -> bool {
    if x.key != y.key || x.ranks != y.ranks || x.touches.as_slice() != y.touches.as_slice() {
        return false;
    }
    if x.ranks == 0 && x.slots.len() != y.slots.len() {
        return false;
    }
    let mut left = if x.ranks == 0 { x.slots.len() } else { x.ranks };
    for (mine, theirs) in x.slots.iter().zip(y.slots.iter()) {
        if left > 0 && !is_same_slot(&x.touches, mine, theirs) {
            return false;
        }
        left = left.saturating_sub(1);
    }
    true
}

/// Whether two slots have one start, and the same is given to both.
fn is_same_slot(touches: &[Touch], one: &Slot, other: &Slot) -> bool {
    if one.holds != other.holds || one.start != other.start {
        return false;
    }
    for (touch, (mine, theirs)) in touches
        .iter()
        .zip(one.leaves.iter().zip(other.leaves.iter()))
    {
        if *touch != Touch::Not && *mine != *theirs {
            return false;
        }
    }
    true
}

/// Whether two sums or sets are the same.
fn are_equal(one: &Component, other: &Component) -> bool {
    match (one, other) {
        (Component::Tally { effects: x }, Component::Tally { effects: y }) => x.as_slice()
            == y.as_slice(),
        (
            Component::Tallies { key, effects: x },
            Component::Tallies {
                key: sort,
                effects: y,
            },
        ) => *key == *sort && x.as_slice() == y.as_slice(),
        (
            Component::Set { key, effects: x },
            Component::Set {
                key: sort,
                effects: y,
            },
        ) => *key == *sort && x.as_slice() == y.as_slice(),
        _ => false,
    }
}

/// The slots of all pieces that have a home, each once.
fn whole_of(
    alloc: Global,
    pieces: &[Piece],
    homes: &[Option<usize>],
    home: usize,
) -> Result<Vec<Slot>, AllocError> {
    let mut slots = Vec::new(alloc);
    for (number, piece) in pieces.iter().enumerate() {
        if home_of(homes, number) == Some(home) {
            if let Piece::Open(register) = piece {
                push_slots(alloc, register, number == home, &mut slots)?;
            }
        }
    }
    Ok(slots)
}

/// Appends the slots of a register: the first register has all of its slots there, others those that aren't there.
fn push_slots(
    alloc: Global,
    register: &Register,
    is_home: bool,
    into: &mut Vec<Slot>,
) -> Result<(), AllocError> {
    for (place, slot) in register.slots.iter().enumerate() {
        if is_home || (place >= register.ranks && place_of(register, slot, into).is_none()) {
            let leaves = Vec::from_slice(alloc, &slot.leaves)?;
            push(
                into,
                Slot {
                    holds: slot.holds,
                    start: slot.start,
                    leaves,
                },
            )?;
        }
    }
    Ok(())
}

/// The place of a slot that is kept under the rank of a register.
fn place_of(register: &Register, slot: &Slot, slots: &[Slot]) -> Option<usize> {
    for (place, own) in slots.iter().enumerate() {
        if place >= register.ranks && is_same_slot(&register.touches, own, slot) {
            return Some(place);
        }
    }
    None
}

/// The component of a piece, with all slots of the pieces that are kept there.
fn made(alloc: Global, piece: &Piece, whole: &[Slot]) -> Result<Component, Miss> {
    match piece {
        Piece::Ready(component) => Ok(component.copy(alloc)?),
        Piece::Open(register) => component_of(alloc, register, whole),
    }
}

/// A leaf at its place among the components that are kept.
fn moved(
    stored: Stored,
    pieces: &[Piece],
    homes: &[Option<usize>],
    numbers: &[u32],
    wholes: &[Vec<Slot>],
) -> Stored {
    let mut own = stored;
    let number = stored.at.component as usize;
    let home = home_of(homes, number).unwrap_or(number);
    if let Some(component) = numbers.get(home) {
        own.at.component = *component;
    }
    if let (Some(Piece::Open(register)), Some(whole)) = (pieces.get(number), wholes.get(home)) {
        if let Some(leaf) = moved_leaf(register, stored.at.leaf as usize, whole) {
            own.at.leaf = number_of(leaf);
        }
    }
    own
}

/// The place of a leaf of a register among all slots that are kept there.
fn moved_leaf(register: &Register, leaf: usize, whole: &[Slot]) -> Option<usize> {
    if leaf < register.ranks {
        return Some(leaf);
    }
    match register.slots.get(leaf) {
        Some(slot) => place_of(register, slot, whole),
        None => None,
    }
}
