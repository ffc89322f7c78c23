//! The names of leaves.
ghost use Rattle.std.specs.Prelude.{◌≡◌, ◌≤◌, ◌++◌, IfOk, OnOk, length, map, slice_get};
ghost use Rattle.kat_design.specs.Designs.{component_form};
ghost use Rattle.kat_pseudocode.specs.Leaves.{cell_words, counted, deciding, distinct, distinct_text, has_value, held_word, held_words, is_clock, leaf_word, leaf_words, param_word, params_of, table_words, value_name};
ghost use Rattle.kat_shape.specs.Forms.{form_of};
ghost use Rattle.kat_type.specs.Types.{operation_form};

use crate::texts::{push_name, push_number, text_at};
use kat_design::{Component, Kind, Leaf, kinds_of};
use kat_num::{Items, bytes_of, code_of};
use kat_shape::Shape;
use kat_type::{Operation, Param};
use std::alloc::{AllocError, Global};

/// How often a word occurs in a list.
fn counted(word: u128, words: &[u128]) -> usize
    ensures { result ≡ counted word words.now }
{
    let mut count = 0;
    let mut rest = words;
    'words: while let [first, behind @ ..] = rest {
        if *first == word {
            count += 1;
        }
        rest = behind;
    }
    count
}

/// The name with a code; if another of the words is the same, its number comes after it.
fn distinct_text(
    alloc: Global,
    words: &[u128],
    place: usize,
    word: u128,
) -> Result<Vec<u8>, AllocError>
    ensures { IfOk result (λ text. text.items ≡ distinct_text words.now place word) }
{
    let mut text = bytes_of(alloc, word)?;
    if counted(word, words) > 1 {
        text.extend_from_slice(b"#")?;
        push_number(place as u128 + 1, &mut text)?;
        return Ok(text);
    }
    Ok(text)
}

/// Names that are all different, for words given by their codes.
pub(crate) fn distinct(alloc: Global, words: &[u128]) -> Result<Vec<Items<u8>>, AllocError>
    ensures { IfOk result (λ names. names.items ≡ distinct words.now) }
{
    let mut names = Vec::new(alloc);
    let mut rest = words;
    'words: while let [word, behind @ ..] = rest {
        let name = distinct_text(alloc, words, names.len(), *word)?;
        names.push(Items::from_vec(name))?;
        rest = behind;
    }
    Ok(names)
}

/// The word of a parameter by its number.
fn param_word(params: &[Param], place: u32) -> u128
    ensures { result ≡ param_word params.now place }
{
    match params.get(place as usize) {
        Some(param) => param.name,
        None => 0,
    }
}

/// What a leaf is called, by what an operation with these parameters gives to it.
fn leaf_word(params: &[Param], leaf: Leaf) -> u128
    ensures { result ≡ leaf_word params.now leaf }
{
    match leaf {
        Leaf::Arg(place) => param_word(params, place),
        Leaf::Time => code_of(b"time"),
        Leaf::Replica => code_of(b"replica"),
        Leaf::Zero | Leaf::One | Leaf::Pos(_) | Leaf::Neg(_) => code_of(b"number"),
        Leaf::False | Leaf::True => code_of(b"flag"),
    }
}

/// What leaves are called.
fn words_of(alloc: Global, params: &[Param], leaves: &[Leaf]) -> Result<Vec<u128>, AllocError>
    ensures { IfOk result (λ words. words.items ≡ map (leaf_word params.now) leaves.now) }
{
    let mut words = Vec::new(alloc);
    for leaf in leaves {
        words.push(leaf_word(params, *leaf))?;
    }
    Ok(words)
}

/// The parameters of an operation by its number.
fn params_of(ops: &[Operation], op: usize) -> &[Param]
    ensures { result.now ≡ params_of (slice_get (map operation_form ops.now) op) }
{
    match ops.get(op) {
        Some(op) => op.params.as_slice(),
        None => &[],
    }
}

/// What a leaf is called by what it holds.
fn held_word(kind: Kind) -> u128
    ensures { result ≡ held_word kind }
{
    match kind {
        Kind::Number => code_of(b"number"),
        Kind::Name => code_of(b"name"),
        Kind::Truth => code_of(b"flag"),
    }
}

/// What leaves of these kinds are called.
fn kind_words(alloc: Global, kinds: &[Kind]) -> Result<Vec<u128>, AllocError>
    ensures { IfOk result (λ words. words.items ≡ map held_word kinds.now) }
{
    let mut words = Vec::new(alloc);
    for kind in kinds {
        words.push(held_word(*kind))?;
    }
    Ok(words)
}

/// What the leaves of a shape are called by what they hold.
fn held_words(alloc: Global, shape: &Shape) -> Result<Vec<u128>, AllocError>
    ensures { IfOk result (λ words. words.items ≡ held_words (form_of shape.now)) }
{
    let kinds = kinds_of(alloc, shape)?;
    kind_words(alloc, &kinds)
}

/// The words of a cell's leaves.
fn cell_words(
    alloc: Global,
    ops: &[Operation],
    shape: &Shape,
    effects: &[Option<Items<Leaf>>],
) -> Result<Vec<u128>, AllocError>
    ensures { IfOk result (λ words. words.items ≡ cell_words (map operation_form ops.now) (form_of shape.now) 0 effects.now) }
{
    let mut op = 0;
    let mut rest = effects;
    'effects: while let [effect, behind @ ..] = rest {
        if let Some(leaves) = effect {
            return words_of(alloc, params_of(ops, op), leaves.as_slice());
        }
        op += 1;
        rest = behind;
    }
    held_words(alloc, shape)
}

/// The words of a table's leaves.
fn table_words(
    alloc: Global,
    ops: &[Operation],
    shape: &Shape,
    effects: &[Option<(u32, Items<Leaf>)>],
) -> Result<Vec<u128>, AllocError>
    ensures { IfOk result (λ words. words.items ≡ table_words (map operation_form ops.now) (form_of shape.now) 0 effects.now) }
{
    let mut op = 0;
    let mut rest = effects;
    'effects: while let [effect, behind @ ..] = rest {
        if let Some((_, leaves)) = effect {
            return words_of(alloc, params_of(ops, op), leaves.as_slice());
        }
        op += 1;
        rest = behind;
    }
    held_words(alloc, shape)
}

/// The words of a component's leaves; those of a set, a tally and tallies have none.
pub(crate) fn leaf_words(
    alloc: Global,
    ops: &[Operation],
    component: &Component,
) -> Result<Vec<u128>, AllocError>
    ensures { IfOk result (λ words. words.items ≡ leaf_words (map operation_form ops.now) (component_form component.now)) }
{
    match component {
        Component::Cell { shape, effects, .. } => {
            cell_words(alloc, ops, shape, effects.as_slice())
        }
        Component::Table { shape, effects, .. } => {
            table_words(alloc, ops, shape, effects.as_slice())
        }
        Component::Set { .. } | Component::Tally { .. } | Component::Tallies { .. } => {
            Ok(Vec::new(alloc))
        }
    }
}

/// Whether the word is that of the operation's time or its replica.
fn is_clock(word: u128) -> bool
    ensures { result ≡ is_clock word }
{
    word == code_of(b"time") || word == code_of(b"replica")
}

/// Whether the last leaf is a value that is under the others.
pub(crate) fn has_value(words: &[u128]) -> bool
    ensures { result ≡ has_value words.now }
{
    match words.get(words.len().saturating_sub(1)) {
        Some(word) => words.len() > 1 && !is_clock(*word),
        None => false,
    }
}

/// The names of the leaves that decide which of two is kept.
pub(crate) fn deciding(alloc: Global, words: &[u128]) -> Result<Vec<Items<u8>>, AllocError>
    ensures { IfOk result (λ names. names.items ≡ deciding words.now) }
{
    let mut names = distinct(alloc, words)?;
    if has_value(words) {
        names.truncate(words.len().saturating_sub(1));
        return Ok(names);
    }
    Ok(names)
}

/// Appends the name of the value that is under them.
pub(crate) fn push_value_name(
    alloc: Global,
    words: &[u128],
    into: &mut Vec<u8>,
) -> Result<(), AllocError>
    ensures { OnOk result (into.new.items ≡ into.old.items ++ value_name words.now) }
{
    let names = distinct(alloc, words)?;
    into.extend_from_slice(text_at(&names, words.len().saturating_sub(1)))
}
