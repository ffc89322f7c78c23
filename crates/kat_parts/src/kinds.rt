//! The components of a part's design, with effects for all operations of the whole.

use crate::parts::Part;
use kat_design::{Component, Leaf};
use kat_num::{Items, Value};
use std::alloc::{AllocError, Global};

/// A component of a part's design, which has an effect for each operation of the part, as one of the whole, which has one for each
/// of its `ops` operations: none for those that aren't in the part.
pub(crate) fn widened(
    alloc: Global,
    part: &Part,
    ops: usize,
    component: &Component,
) -> Result<Component, AllocError> {
    match component {
        Component::Cell {
            shape,
            starts,
            effects,
        } => Ok(Component::Cell {
            shape: shape.copy(alloc)?,
            starts: copied(alloc, starts)?,
            effects: cell_effects(alloc, part, ops, effects.as_slice())?,
        }),
        Component::Table {
            key,
            shape,
            starts,
            effects,
        } => Ok(Component::Table {
            key: *key,
            shape: shape.copy(alloc)?,
            starts: copied(alloc, starts)?,
            effects: table_effects(alloc, part, ops, effects.as_slice())?,
        }),
        Component::Set { key, effects } => Ok(Component::Set {
            key: *key,
            effects: spread(alloc, part, ops, effects.as_slice())?,
        }),
        Component::Tally { effects } => Ok(Component::Tally {
            effects: spread(alloc, part, ops, effects.as_slice())?,
        }),
        Component::Tallies { key, effects } => Ok(Component::Tallies {
            key: *key,
            effects: spread(alloc, part, ops, effects.as_slice())?,
        }),
    }
}

/// The starts again.
fn copied(alloc: Global, starts: &Items<Value>) -> Result<Items<Value>, AllocError> {
    Ok(Items::from_vec(Vec::from_slice(alloc, starts.as_slice())?))
}

/// The place of an operation in a part.
fn place_in(part: &Part, op: usize) -> Option<usize> {
    part.ops.iter().position(|own| *own as usize == op)
}

/// Effects that are copied as they are.
fn spread<T: Copy + Drop>(
    alloc: Global,
    part: &Part,
    ops: usize,
    effects: &[Option<T>],
) -> Result<Items<Option<T>>, AllocError> {
    let mut all = Vec::new(alloc);
    for op in 0..ops {
        let effect = match place_in(part, op) {
            Some(place) => match effects.get(place) {
                Some(effect) => *effect,
                None => None,
            },
            None => None,
        };
        all.push(effect)?;
    }
    Ok(Items::from_vec(all))
}

/// The effects on a cell.
fn cell_effects(
    alloc: Global,
    part: &Part,
    ops: usize,
    effects: &[Option<Items<Leaf>>],
) -> Result<Items<Option<Items<Leaf>>>, AllocError> {
    let mut all = Vec::new(alloc);
    for op in 0..ops {
        let mut effect = None;
        if let Some(place) = place_in(part, op) {
            if let Some(Some(leaves)) = effects.get(place) {
                effect = Some(Items::from_vec(Vec::from_slice(alloc, leaves.as_slice())?));
            }
        }
        all.push(effect)?;
    }
    Ok(Items::from_vec(all))
}

/// The effects on a table.
fn table_effects(
    alloc: Global,
    part: &Part,
    ops: usize,
    effects: &[Option<(u32, Items<Leaf>)>],
) -> Result<Items<Option<(u32, Items<Leaf>)>>, AllocError> {
    let mut all = Vec::new(alloc);
    for op in 0..ops {
        let mut effect = None;
        if let Some(place) = place_in(part, op) {
            if let Some(Some((key, leaves))) = effects.get(place) {
                let leaves = Items::from_vec(Vec::from_slice(alloc, leaves.as_slice())?);
                effect = Some((*key, leaves));
            }
        }
        all.push(effect)?;
    }
    Ok(Items::from_vec(all))
}
