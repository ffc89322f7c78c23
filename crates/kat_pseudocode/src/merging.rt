//! How two states are merged.
ghost use Rattle.std.specs.Prelude.{◌≡◌, ◌++◌, IfOk, OnOk, map};
ghost use Rattle.kat_design.specs.Designs.{component_form};
ghost use Rattle.kat_pseudocode.specs.Leaves.{leaf_words};
ghost use Rattle.kat_pseudocode.specs.Merging.{each_sum, keyed_merge, keyed_sums_merge, merge_text, set_merge, sum_merge, tally_merge, value_merge, wins_text};
ghost use Rattle.kat_pseudocode.specs.Texts.{others, own};
ghost use Rattle.kat_shape.specs.Forms.{form_of};
ghost use Rattle.kat_type.specs.Types.{operation_form};

use crate::effects::push_joined;
use crate::keeping::is_chain;
use crate::leaves::{deciding, has_value, leaf_words};
use crate::phrases::{Phrase, say};
use crate::texts::{at_key, others, own, push_others, push_own, push_sort, push_tuple};
use kat_design::Component;
use kat_num::Sort;
use kat_shape::Shape;
use kat_type::Operation;
use std::alloc::{AllocError, Global};

/// Appends which of two values with another value under them wins.
#[tactic(auto, unfolding(crate::specs::Merging::wins_text))]
fn push_wins(
    alloc: Global,
    shape: &Shape,
    words: &[u128],
    into: &mut Vec<u8>,
) -> Result<(), AllocError>
    ensures { OnOk result (into.new.items ≡ into.old.items ++ wins_text (form_of shape.now) words.now) }
{
    if !(is_chain(shape) && has_value(words)) {
        return Ok(());
    }
    into.extend_from_slice(say(Phrase::GreaterOne))?;
    let names = deciding(alloc, words)?;
    push_tuple(&names, into)?;
    into.extend_from_slice(b" wins")
}

/// Appends how a value of a shape is merged.
fn push_value(
    alloc: Global,
    shape: &Shape,
    words: &[u128],
    mine: &[u8],
    theirs: &[u8],
    into: &mut Vec<u8>,
) -> Result<(), AllocError>
    ensures { OnOk result (into.new.items ≡ into.old.items ++ value_merge (form_of shape.now) words.now mine.now theirs.now) }
{
    into.extend_from_slice(mine)?;
    into.extend_from_slice(b" = ")?;
    push_joined(shape, mine, theirs, into)?;
    push_wins(alloc, shape, words, into)?;
    into.extend_from_slice(b"\n")
}

/// Appends how a sum is merged.
fn push_sum(mine: &[u8], theirs: &[u8], into: &mut Vec<u8>) -> Result<(), AllocError>
    ensures { OnOk result (into.new.items ≡ into.old.items ++ sum_merge mine.now theirs.now) }
{
    into.extend_from_slice(mine)?;
    into.extend_from_slice(b" = max(")?;
    into.extend_from_slice(mine)?;
    into.extend_from_slice(b", ")?;
    into.extend_from_slice(theirs)?;
    into.extend_from_slice(b")\n")
}

/// Appends how a component of this name is merged.
pub fn push_merge(
    alloc: Global,
    ops: &[Operation],
    name: &[u8],
    component: &Component,
    into: &mut Vec<u8>,
) -> Result<(), AllocError>
    ensures { OnOk result (into.new.items ≡ into.old.items ++ merge_text (map operation_form ops.now) name.now
        (component_form component.now)) }
{
    match component {
        Component::Cell { shape, .. } => {
            into.extend_from_slice(b"    ")?;
            let mine = own(alloc, name)?;
            let theirs = others(alloc, name)?;
            push_kept_merge(alloc, ops, component, shape, &mine, &theirs, into)
        }
        Component::Table { key, shape, .. } => {
            push_keyed(alloc, ops, *key, component, shape, name, into)
        }
        Component::Set { .. } => push_set(name, into),
        Component::Tally { .. } => push_tally(alloc, name, into),
        Component::Tallies { key, .. } => push_tallies(alloc, *key, name, into),
    }
}

/// Appends how a value that a component keeps is merged.
fn push_kept_merge(
    alloc: Global,
    ops: &[Operation],
    component: &Component,
    shape: &Shape,
    mine: &[u8],
    theirs: &[u8],
    into: &mut Vec<u8>,
) -> Result<(), AllocError>
    ensures { OnOk result (into.new.items ≡ into.old.items ++ value_merge (form_of shape.now)
        (leaf_words (map operation_form ops.now) (component_form component.now)) mine.now theirs.now) }
{
    let words = leaf_words(alloc, ops, component)?;
    push_value(alloc, shape, &words, mine, theirs, into)
}

/// Appends, if the component is a table, how its value at each key is merged.
fn push_keyed(
    alloc: Global,
    ops: &[Operation],
    key: Sort,
    component: &Component,
    shape: &Shape,
    name: &[u8],
    into: &mut Vec<u8>,
) -> Result<(), AllocError>
    ensures { OnOk result (into.new.items ≡ into.old.items ++ keyed_merge key (form_of shape.now)
        (leaf_words (map operation_form ops.now) (component_form component.now)) (own name.now) (others name.now)) }
{
    into.extend_from_slice(say(Phrase::EachKey))?;
    push_sort(key, into)?;
    into.extend_from_slice(b" k: ")?;
    let mine = at_key(own(alloc, name)?, b"k")?;
    let theirs = at_key(others(alloc, name)?, b"k")?;
    push_kept_merge(alloc, ops, component, shape, &mine, &theirs, into)
}

/// Appends, if the component is a set, that the sets of both states are united.
fn push_set(name: &[u8], into: &mut Vec<u8>) -> Result<(), AllocError>
    ensures { OnOk result (into.new.items ≡ into.old.items ++ set_merge (own name.now) (others name.now)) }
{
    into.extend_from_slice(b"    ")?;
    push_own(name, into)?;
    into.extend_from_slice(say(Phrase::UnionOf))?;
    push_own(name, into)?;
    into.extend_from_slice(b", ")?;
    push_others(name, into)?;
    into.extend_from_slice(b")\n")
}

/// Appends, if the component is a sum for each replica, how that of each replica is merged.
fn push_tally(alloc: Global, name: &[u8], into: &mut Vec<u8>) -> Result<(), AllocError>
    ensures { OnOk result (into.new.items ≡ into.old.items ++ tally_merge (own name.now) (others name.now)) }
{
    into.extend_from_slice(say(Phrase::EachReplica))?;
    let mine = at_key(own(alloc, name)?, b"r")?;
    let theirs = at_key(others(alloc, name)?, b"r")?;
    push_sum(&mine, &theirs, into)
}

/// The sum of each replica at each key.
#[tactic(auto, unfolding(crate::specs::Merging::each_sum))]
fn each_sum(place: Vec<u8>) -> Result<Vec<u8>, AllocError>
    ensures { IfOk result (λ text. text.items ≡ each_sum place.items) }
{
    at_key(at_key(place, b"k")?, b"r")
}

/// Appends, if the component is a sum for each replica at each key, how that of each replica at each key is merged.
fn push_tallies(alloc: Global, key: Sort, name: &[u8], into: &mut Vec<u8>) -> Result<(), AllocError>
    ensures { OnOk result (into.new.items ≡ into.old.items ++ keyed_sums_merge key (own name.now) (others name.now)) }
{
    into.extend_from_slice(say(Phrase::EachKey))?;
    push_sort(key, into)?;
    into.extend_from_slice(say(Phrase::KeyAndReplica))?;
    let mine = each_sum(own(alloc, name)?)?;
    let theirs = each_sum(others(alloc, name)?)?;
    push_sum(&mine, &theirs, into)
}
