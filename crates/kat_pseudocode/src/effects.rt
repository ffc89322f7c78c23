//! What each operation does.
ghost use Rattle.std.specs.Prelude.{◌≡◌, ◌++◌, IfOk, OnOk, codes, map, option_map, slice_get};
ghost use Rattle.std.specs.Option.{option_flatten};
ghost use Rattle.kat_design.specs.Designs.{component_form};
ghost use Rattle.kat_pseudocode.specs.Effects.{effect_text, effects_text, join_word, joined_text, leaf_text, member_line, op_text, value_line, weight_line};
ghost use Rattle.kat_pseudocode.specs.Phrases.{say};
ghost use Rattle.kat_pseudocode.specs.Texts.{at_key, own, param_text};
ghost use Rattle.kat_shape.specs.Forms.{form_of};
ghost use Rattle.kat_type.specs.Types.{operation_form};

use crate::keeping::{is_chain, is_or};
use crate::phrases::{Phrase, say};
use crate::texts::{own, push_call, push_own, push_param, push_tuple, text_at};
use kat_design::{Component, Leaf};
use kat_num::Items;
use kat_shape::Shape;
use kat_type::{Operation, Param};
use std::alloc::{AllocError, Global};

/// Appends what an operation with these parameters gives.
fn push_leaf(
    alloc: Global,
    params: &[Param],
    leaf: Leaf,
    into: &mut Vec<u8>,
) -> Result<(), AllocError>
    ensures { OnOk result (into.new.items ≡ into.old.items ++ leaf_text params.now leaf) }
{
    match leaf {
        Leaf::Arg(place) => push_param(alloc, params, place, into),
        Leaf::Time => into.extend_from_slice(b"time"),
        Leaf::Replica => into.extend_from_slice(b"replica"),
        Leaf::Zero => into.extend_from_slice(b"0"),
        Leaf::One => into.extend_from_slice(b"1"),
        Leaf::Pos(place) => {
            into.extend_from_slice(b"max(")?;
            push_param(alloc, params, place, into)?;
            into.extend_from_slice(b", 0)")
        }
        Leaf::Neg(place) => {
            into.extend_from_slice(b"max(-")?;
            push_param(alloc, params, place, into)?;
            into.extend_from_slice(b", 0)")
        }
        Leaf::False => into.extend_from_slice(b"false"),
        Leaf::True => into.extend_from_slice(b"true"),
    }
}

fn leaf_texts(
    alloc: Global,
    params: &[Param],
    leaves: &[Leaf],
) -> Result<Vec<Items<u8>>, AllocError>
    ensures { IfOk result (λ texts. texts.items ≡ map (leaf_text params.now) leaves.now) }
{
    let mut texts = Vec::new(alloc);
    for leaf in leaves {
        let mut text = Vec::new(alloc);
        push_leaf(alloc, params, *leaf, &mut text)?;
        texts.push(Items::from_vec(text))?;
    }
    Ok(texts)
}

fn push_join_word(shape: &Shape, into: &mut Vec<u8>) -> Result<(), AllocError>
    ensures { OnOk result (into.new.items ≡ into.old.items ++ join_word (form_of shape.now)) }
{
    if is_chain(shape) {
        into.extend_from_slice(b"max(")
    } else {
        into.extend_from_slice(b"join(")
    }
}

/// Appends two values of a shape, joined.
#[tactic(auto, unfolding(crate::specs::Effects::joined_text))]
pub(crate) fn push_joined(
    shape: &Shape,
    left: &[u8],
    right: &[u8],
    into: &mut Vec<u8>,
) -> Result<(), AllocError>
    ensures { OnOk result (into.new.items ≡ into.old.items ++ joined_text (form_of shape.now) left.now right.now) }
{
    if is_or(shape) {
        into.extend_from_slice(left)?;
        into.extend_from_slice(b" or ")?;
        return into.extend_from_slice(right);
    }
    push_join_word(shape, into)?;
    into.extend_from_slice(left)?;
    into.extend_from_slice(b", ")?;
    into.extend_from_slice(right)?;
    into.extend_from_slice(b")")
}

/// Appends that leaves are joined to what is at a place.
fn push_value_line(
    alloc: Global,
    shape: &Shape,
    params: &[Param],
    place: &[u8],
    leaves: &[Leaf],
    into: &mut Vec<u8>,
) -> Result<(), AllocError>
    ensures { OnOk result (into.new.items ≡ into.old.items ++ value_line (form_of shape.now) params.now place.now leaves.now) }
{
    let texts = leaf_texts(alloc, params, leaves)?;
    let mut given = Vec::new(alloc);
    push_tuple(&texts, &mut given)?;
    into.extend_from_slice(say(Phrase::Deep))?;
    into.extend_from_slice(place)?;
    into.extend_from_slice(b" = ")?;
    push_joined(shape, place, &given, into)?;
    into.extend_from_slice(b"\n")
}

/// Appends that leaves are joined to a cell of this name.
fn push_cell_line(
    alloc: Global,
    shape: &Shape,
    params: &[Param],
    name: &[u8],
    leaves: &[Leaf],
    into: &mut Vec<u8>,
) -> Result<(), AllocError>
    ensures { OnOk result (into.new.items ≡ into.old.items ++ value_line (form_of shape.now) params.now (own name.now) leaves.now) }
{
    let place = own(alloc, name)?;
    push_value_line(alloc, shape, params, &place, leaves, into)
}

/// Appends that leaves are joined to a table of this name at a key.
fn push_table_line(
    alloc: Global,
    shape: &Shape,
    params: &[Param],
    name: &[u8],
    key: u32,
    leaves: &[Leaf],
    into: &mut Vec<u8>,
) -> Result<(), AllocError>
    ensures { OnOk result (into.new.items ≡ into.old.items ++ value_line (form_of shape.now) params.now
        (at_key (own name.now) (param_text params.now key)) leaves.now) }
{
    let mut place = Vec::new(alloc);
    push_entry(alloc, params, name, key, &mut place)?;
    push_value_line(alloc, shape, params, &place, leaves, into)
}

/// Appends what a replica keeps under a name, at the key that is a parameter.
fn push_entry(
    alloc: Global,
    params: &[Param],
    name: &[u8],
    key: u32,
    into: &mut Vec<u8>,
) -> Result<(), AllocError>
    ensures { OnOk result (into.new.items ≡ into.old.items ++ at_key (own name.now) (param_text params.now key)) }
{
    push_own(name, into)?;
    into.extend_from_slice(b"[")?;
    push_param(alloc, params, key, into)?;
    into.extend_from_slice(b"]")
}

/// Appends that a key is added to a set of this name.
fn push_member_line(
    alloc: Global,
    params: &[Param],
    name: &[u8],
    key: u32,
    into: &mut Vec<u8>,
) -> Result<(), AllocError>
    ensures { OnOk result (into.new.items ≡ into.old.items ++ member_line params.now (own name.now) key) }
{
    into.extend_from_slice(say(Phrase::Deep))?;
    push_own(name, into)?;
    into.extend_from_slice(b".add(")?;
    push_param(alloc, params, key, into)?;
    into.extend_from_slice(b")\n")
}

/// Appends that a weight is added to the replica's own sum of this name.
fn push_tally_line(
    alloc: Global,
    params: &[Param],
    name: &[u8],
    weight: Leaf,
    into: &mut Vec<u8>,
) -> Result<(), AllocError>
    ensures { OnOk result (into.new.items ≡ into.old.items ++ weight_line params.now (own name.now) weight) }
{
    into.extend_from_slice(say(Phrase::Deep))?;
    push_own(name, into)?;
    push_weight(alloc, params, weight, into)
}

/// Appends that a weight is added to the replica's own sum at a key.
fn push_tallies_line(
    alloc: Global,
    params: &[Param],
    name: &[u8],
    key: u32,
    weight: Leaf,
    into: &mut Vec<u8>,
) -> Result<(), AllocError>
    ensures { OnOk result (into.new.items ≡ into.old.items ++ weight_line params.now
        (at_key (own name.now) (param_text params.now key)) weight) }
{
    into.extend_from_slice(say(Phrase::Deep))?;
    push_entry(alloc, params, name, key, into)?;
    push_weight(alloc, params, weight, into)
}

/// Appends a weight after the sum that it is added to.
fn push_weight(
    alloc: Global,
    params: &[Param],
    weight: Leaf,
    into: &mut Vec<u8>,
) -> Result<(), AllocError>
    ensures { OnOk result (into.new.items ≡ into.old.items ++ say Phrase.OwnSum ++ leaf_text params.now weight ++ codes "\n") }
{
    into.extend_from_slice(say(Phrase::OwnSum))?;
    push_leaf(alloc, params, weight, into)?;
    into.extend_from_slice(b"\n")
}

/// The effect of the operation with a number, if it has one.
fn effect_at<E>(effects: &[Option<E>], op: usize) -> Option<&E>
    ensures { option_map (λ effect. effect.now) result ≡ option_flatten (slice_get effects.now op) }
{
    match effects.get(op) {
        None => None,
        Some(None) => None,
        Some(Some(effect)) => Some(effect),
    }
}

/// Appends what the operation with a number does to a component of this name.
fn push_effect(
    alloc: Global,
    params: &[Param],
    op: usize,
    name: &[u8],
    component: &Component,
    into: &mut Vec<u8>,
) -> Result<(), AllocError>
    ensures { OnOk result (into.new.items ≡ into.old.items ++ effect_text params.now op name.now (component_form component.now)) }
{
    match component {
        Component::Cell { shape, effects, .. } => match effect_at(effects.as_slice(), op) {
            None => Ok(()),
            Some(leaves) => push_cell_line(alloc, shape, params, name, leaves.as_slice(), into),
        },
        Component::Table { shape, effects, .. } => match effect_at(effects.as_slice(), op) {
            None => Ok(()),
            Some((key, leaves)) => {
                push_table_line(alloc, shape, params, name, *key, leaves.as_slice(), into)
            }
        },
        Component::Set { effects, .. } => match effect_at(effects.as_slice(), op) {
            None => Ok(()),
            Some(key) => push_member_line(alloc, params, name, *key, into),
        },
        Component::Tally { effects } => match effect_at(effects.as_slice(), op) {
            None => Ok(()),
            Some(weight) => push_tally_line(alloc, params, name, *weight, into),
        },
        Component::Tallies { effects, .. } => match effect_at(effects.as_slice(), op) {
            None => Ok(()),
            Some((key, weight)) => push_tallies_line(alloc, params, name, *key, *weight, into),
        },
    }
}

/// What an operation does to all components.
fn effects_text(
    alloc: Global,
    names: &[Items<u8>],
    components: &[Component],
    params: &[Param],
    op: usize,
) -> Result<Vec<u8>, AllocError>
    ensures { IfOk result (λ text. text.items ≡ effects_text names.now (map component_form components.now) params.now op) }
{
    let mut text = Vec::new(alloc);
    let mut place = 0;
    let mut rest = components;
    'components: while let [component, behind @ ..] = rest {
        push_effect(
            alloc,
            params,
            op,
            text_at(names, place),
            component,
            &mut text,
        )?;
        place += 1;
        rest = behind;
    }
    Ok(text)
}

/// Appends an operation with a number.
pub fn push_op(
    alloc: Global,
    names: &[Items<u8>],
    components: &[Component],
    place: usize,
    op: &Operation,
    into: &mut Vec<u8>,
) -> Result<(), AllocError>
    ensures { OnOk result (into.new.items ≡ into.old.items ++ op_text names.now (map component_form components.now) place
        (operation_form op.now)) }
{
    let params = op.params.as_slice();
    into.extend_from_slice(b"    ")?;
    push_call(alloc, op.name, params, into)?;
    into.extend_from_slice(b":\n")?;
    let effects = effects_text(alloc, names, components, params, place)?;
    match effects.as_slice() {
        [] => into.extend_from_slice(say(Phrase::DoesNothing)),
        [_, ..] => into.extend_from_slice(&effects),
    }
}
