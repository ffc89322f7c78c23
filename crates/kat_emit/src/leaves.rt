//! The words of a part's leaves, as `explain` says them.
use kat_design::{Component, Kind, Leaf};
use kat_num::{Items, bytes_of};
use kat_type::Operation;
use std::alloc::{AllocError, Global};

/// Appends the name with a code.
pub fn push_name(alloc: Global, code: u128, into: &mut String) -> Result<(), AllocError> {
    let name = bytes_of(alloc, code)?;
    for letter in name.iter() {
        into.push(char::from(*letter))?;
    }
    Ok(())
}

/// The words of the leaves of a cell or a table, of these kinds: followed by its number if another one is the same.
pub(crate) fn leaf_words(
    alloc: Global,
    ops: &[Operation],
    component: &Component,
    kinds: &[Kind],
) -> Result<Vec<String>, AllocError> {
    let mut words = Vec::new(alloc);
    match given(component) {
        Some((op, leaves)) => {
            for leaf in leaves {
                words.push(leaf_word(alloc, ops, op, *leaf)?)?;
            }
        }
        None => {
            for kind in kinds {
                words.push(String::from_str(alloc, kind_word(*kind))?)?;
            }
        }
    }
    numbered(alloc, &words)
}

/// The first operation that gives something to a cell or a table, and what it gives.
fn given(component: &Component) -> Option<(usize, &[Leaf])> {
    match component {
        Component::Cell { effects, .. } => given_to_cell(effects.as_slice()),
        Component::Table { effects, .. } => given_to_table(effects.as_slice()),
        Component::Set { .. } | Component::Tally { .. } | Component::Tallies { .. } => None,
    }
}

fn given_to_cell(effects: &[Option<Items<Leaf>>]) -> Option<(usize, &[Leaf])> {
    for (op, effect) in effects.iter().enumerate() {
        if let Some(leaves) = effect {
            return Some((op, leaves.as_slice()));
        }
    }
    None
}

fn given_to_table(effects: &[Option<(u32, Items<Leaf>)>]) -> Option<(usize, &[Leaf])> {
    for (op, effect) in effects.iter().enumerate() {
        if let Some((_, leaves)) = effect {
            return Some((op, leaves.as_slice()));
        }
    }
    None
}

/// The word of a leaf by what an operation gives to it.
fn leaf_word(
    alloc: Global,
    ops: &[Operation],
    op: usize,
    leaf: Leaf,
) -> Result<String, AllocError> {
    let mut word = String::new(alloc);
    match leaf {
        Leaf::Arg(place) => push_param(alloc, ops, op, place, &mut word)?,
        Leaf::Time => word.push_str("time")?,
        Leaf::Replica => word.push_str("replica")?,
        Leaf::Zero | Leaf::One | Leaf::Pos(_) | Leaf::Neg(_) => word.push_str("number")?,
        Leaf::False | Leaf::True => word.push_str("flag")?,
    }
    Ok(word)
}

/// Appends the name of an operation's parameter.
fn push_param(
    alloc: Global,
    ops: &[Operation],
    op: usize,
    place: u32,
    into: &mut String,
) -> Result<(), AllocError> {
    let Some(op) = ops.get(op) else {
        return Ok(());
    };
    match op.params.as_slice().get(place as usize) {
        Some(param) => push_name(alloc, param.name, into),
        None => Ok(()),
    }
}

/// The word of a leaf by what it holds.
fn kind_word(kind: Kind) -> &'static str {
    match kind {
        Kind::Number => "number",
        Kind::Name => "name",
        Kind::Truth => "flag",
    }
}

/// The words, each followed by its number if another one is the same.
fn numbered(alloc: Global, words: &[String]) -> Result<Vec<String>, AllocError> {
    let mut different = Vec::new(alloc);
    for (place, word) in words.iter().enumerate() {
        let mut text = String::from_str(alloc, word.as_str())?;
        if words
            .iter()
            .filter(|other| other.as_str() == word.as_str())
            .count()
            > 1
        {
            push_number(place.saturating_add(1), &mut text)?;
        }
        different.push(text)?;
    }
    Ok(different)
}

/// Appends a number.
pub(crate) fn push_number(number: usize, into: &mut String) -> Result<(), AllocError> {
    into.push_str(itoa::Buffer::new().format(number as u128))
}
