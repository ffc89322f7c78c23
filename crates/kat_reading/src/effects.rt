//! Components, by what each operation gives to them.

use crate::misses::{Miss, push};
use crate::readings::Reading;
use kat_design::{Component, Leaf};
use kat_num::{Items, Sort, Value};
use kat_shape::Shape;
use std::alloc::{AllocError, Global};

/// What an operation gives to a cell, or to a table at the key that is the argument with that number.
#[derive(Drop)]
pub struct Gift {
    pub key: Option<u32>,
    pub leaves: Vec<Leaf>,
}

/// What an operation adds to a sum, or to one of a table's sums.
#[derive(Clone, Copy)]
pub struct Weight {
    pub key: Option<u32>,
    pub leaf: Leaf,
}

/// What a rule gives for a field: components, and how the field is read from them.
#[derive(Drop)]
pub struct Made {
    pub components: Vec<Component>,
    pub reading: Reading,
}

/// A cell, or a table if there is a sort of keys.
pub fn cell_or_table(
    alloc: Global,
    key: Option<Sort>,
    shape: Shape,
    starts: Vec<Value>,
    gifts: Vec<Option<Gift>>,
) -> Result<Component, Miss> {
    match key {
        None => Ok(Component::Cell {
            shape,
            starts: Items::from_vec(starts),
            effects: Items::from_vec(cell_effects(alloc, gifts)?),
        }),
        Some(key) => Ok(Component::Table {
            key,
            shape,
            starts: Items::from_vec(starts),
            effects: Items::from_vec(table_effects(alloc, gifts)?),
        }),
    }
}

/// A cell that is true once one of the operations was done, or the set of the keys at which one was.
pub fn mark(alloc: Global, key: Option<Sort>, gifts: Vec<Option<Gift>>) -> Result<Component, Miss> {
    match key {
        None => {
            let mut starts = Vec::new(alloc);
            push(&mut starts, Value::Bool(false))?;
            cell_or_table(alloc, None, Shape::Or, starts, gifts)
        }
        Some(key) => Ok(Component::Set {
            key,
            effects: Items::from_vec(set_effects(alloc, &gifts)?),
        }),
    }
}

/// A tally, or tallies if there is a sort of keys.
pub fn tally(
    alloc: Global,
    key: Option<Sort>,
    weights: &[Option<Weight>],
) -> Result<Component, Miss> {
    match key {
        None => Ok(Component::Tally {
            effects: Items::from_vec(tally_effects(alloc, weights)?),
        }),
        Some(key) => Ok(Component::Tallies {
            key,
            effects: Items::from_vec(tallies_effects(alloc, weights)?),
        }),
    }
}

/// The effects on a cell.
fn cell_effects(
    alloc: Global,
    gifts: Vec<Option<Gift>>,
) -> Result<Vec<Option<Items<Leaf>>>, AllocError> {
    let mut effects = Vec::new(alloc);
    for gift in gifts {
        push(&mut effects, cell_effect(gift))?;
    }
    Ok(effects)
}

/// The effect on a cell.
fn cell_effect(gift: Option<Gift>) -> Option<Items<Leaf>> {
    match gift {
        None => None,
        Some(Gift { leaves, .. }) => Some(Items::from_vec(leaves)),
    }
}

/// The effects on a table: each has a key.
fn table_effects(
    alloc: Global,
    gifts: Vec<Option<Gift>>,
) -> Result<Vec<Option<(u32, Items<Leaf>)>>, Miss> {
    let mut effects = Vec::new(alloc);
    for gift in gifts {
        push(&mut effects, table_effect(gift)?)?;
    }
    Ok(effects)
}

/// The effect on a table.
fn table_effect(gift: Option<Gift>) -> Result<Option<(u32, Items<Leaf>)>, Miss> {
    match gift {
        None => Ok(None),
        Some(Gift { key, leaves }) => match key {
            Some(key) => Ok(Some((key, Items::from_vec(leaves)))),
            None => Err(Miss::NoRule),
        },
    }
}

/// The effects on a set.
fn set_effects(alloc: Global, gifts: &[Option<Gift>]) -> Result<Vec<Option<u32>>, AllocError> {
    let mut effects = Vec::new(alloc);
    for gift in gifts {
        push(&mut effects, key_of(gift))?;
    }
    Ok(effects)
}

/// The key of a gift.
fn key_of(gift: &Option<Gift>) -> Option<u32> {
    match gift {
        None => None,
        Some(gift) => gift.key,
    }
}

/// The effects on a tally.
fn tally_effects(
    alloc: Global,
    weights: &[Option<Weight>],
) -> Result<Vec<Option<Leaf>>, AllocError> {
    let mut effects = Vec::new(alloc);
    for weight in weights {
        push(&mut effects, tally_effect(*weight))?;
    }
    Ok(effects)
}

/// The effect on a tally.
fn tally_effect(weight: Option<Weight>) -> Option<Leaf> {
    match weight {
        None => None,
        Some(weight) => Some(weight.leaf),
    }
}

/// The effects on tallies: each has a key.
fn tallies_effects(
    alloc: Global,
    weights: &[Option<Weight>],
) -> Result<Vec<Option<(u32, Leaf)>>, Miss> {
    let mut effects = Vec::new(alloc);
    for weight in weights {
        push(&mut effects, tallies_effect(*weight)?)?;
    }
    Ok(effects)
}

/// The effect on tallies.
fn tallies_effect(weight: Option<Weight>) -> Result<Option<(u32, Leaf)>, Miss> {
    match weight {
        None => Ok(None),
        Some(
            Weight {
                key: Some(key),
                leaf,
            },
        ) => Ok(Some((key, leaf))),
        Some(_) => Err(Miss::NoRule),
    }
}
