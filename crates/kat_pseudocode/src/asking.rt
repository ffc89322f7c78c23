//! How each query is answered.
ghost use Rattle.std.specs.Prelude.{◌≡◌, ◌++◌, ◌&&◌, false, IfOk, OnOk, map, slice_get};
ghost use Rattle.kat_design.specs.Designs.{ask_form, component_form};
ghost use Rattle.kat_design.specs.Designs.AskForm.{both, difference, either, less, negation, sum};
ghost use Rattle.kat_num.specs.Values.{value_text};
ghost use Rattle.kat_pseudocode.specs.Asking.{answer_text, are_same, ask_text, back_text, closed, front_text, is_denied, is_denied_less, is_less, key_text, leaf_at_text, leaf_suffix, opened, query_text, reference, sides};
ghost use Rattle.kat_pseudocode.specs.Leaves.{leaf_words};
ghost use Rattle.kat_pseudocode.specs.Texts.{param_text};
ghost use Rattle.kat_type.specs.Types.{operation_form, query_form};

use crate::leaves::{distinct, leaf_words};
use crate::phrases::{Phrase, say};
use crate::texts::{param_text, push_call, push_own, push_own_at, push_param, text_at};
use kat_design::{Ask, Component};
use kat_num::{Items, Value, print};
use kat_type::{Operation, Param, Query};
use std::alloc::{AllocError, Global};

/// What the texts of a design are made of: the operations of its type, and its components with their names.
#[derive(Clone, Copy)]
pub struct Scene<'a> {
    pub ops: &'a [Operation],
    pub components: &'a [Component],
    pub names: &'a [Items<u8>],
}

/// Appends the name of a leaf after that of its component, if there are several.
#[tactic(auto, unfolding(crate::specs::Asking::leaf_suffix))]
fn push_suffix(
    alloc: Global,
    words: &[u128],
    place: usize,
    into: &mut Vec<u8>,
) -> Result<(), AllocError>
    ensures { OnOk result (into.new.items ≡ into.old.items ++ leaf_suffix words.now place) }
{
    if words.len() <= 1 {
        return Ok(());
    }
    into.extend_from_slice(b".")?;
    let names = distinct(alloc, words)?;
    into.extend_from_slice(text_at(&names, place))
}

/// Appends a leaf of a component of this name, at a key.
fn push_leaf_at(
    alloc: Global,
    ops: &[Operation],
    name: &[u8],
    component: &Component,
    place: usize,
    key: &[u8],
    into: &mut Vec<u8>,
) -> Result<(), AllocError>
    ensures { OnOk result (into.new.items ≡ into.old.items ++ leaf_at_text (map operation_form ops.now) name.now
        (component_form component.now) place key.now) }
{
    match component {
        Component::Cell { .. } => {
            push_own(name, into)?;
            push_leaf_suffix(alloc, ops, component, place, into)
        }
        Component::Table { .. } => {
            push_own_at(name, key, into)?;
            push_leaf_suffix(alloc, ops, component, place, into)
        }
        Component::Set { .. } => {
            into.extend_from_slice(key)?;
            into.extend_from_slice(b" in ")?;
            push_own(name, into)
        }
        Component::Tally { .. } => {
            into.extend_from_slice(b"sum(")?;
            push_own(name, into)?;
            into.extend_from_slice(b")")
        }
        Component::Tallies { .. } => {
            into.extend_from_slice(b"sum(")?;
            push_own_at(name, key, into)?;
            into.extend_from_slice(b")")
        }
    }
}

/// Appends the name of a leaf of a component after the component's.
fn push_leaf_suffix(
    alloc: Global,
    ops: &[Operation],
    component: &Component,
    place: usize,
    into: &mut Vec<u8>,
) -> Result<(), AllocError>
    ensures { OnOk result (into.new.items ≡ into.old.items ++ leaf_suffix
        (leaf_words (map operation_form ops.now) (component_form component.now)) place) }
{
    let words = leaf_words(alloc, ops, component)?;
    push_suffix(alloc, &words, place, into)
}

/// Appends a leaf of the component with a number.
pub fn push_reference(
    alloc: Global,
    scene: &Scene<'_>,
    component: u32,
    place: u32,
    key: &[u8],
    into: &mut Vec<u8>,
) -> Result<(), AllocError>
    ensures { OnOk result (into.new.items ≡ into.old.items ++ reference (map operation_form scene.now.ops.now)
        (map component_form scene.now.components.now) scene.now.names.now component place key.now) }
{
    let name = text_at(scene.names, component as usize);
    match scene.components.get(component as usize) {
        Some(component) => {
            push_leaf_at(alloc, scene.ops, name, component, place as usize, key, into)
        }
        None => Ok(()),
    }
}

/// The parameter that is a key.
#[tactic(auto, unfolding(crate::specs::Asking::key_text))]
fn key_text(alloc: Global, params: &[Param], key: Option<u32>) -> Result<Vec<u8>, AllocError>
    ensures { IfOk result (λ text. text.items ≡ key_text params.now key) }
{
    match key {
        None => Ok(Vec::new(alloc)),
        Some(key) => param_text(alloc, params, key),
    }
}

/// Appends a leaf of the component with a number, at the parameter that is its key.
fn push_leaf(
    alloc: Global,
    scene: &Scene<'_>,
    params: &[Param],
    component: u32,
    place: u32,
    key: Option<u32>,
    into: &mut Vec<u8>,
) -> Result<(), AllocError>
    ensures { OnOk result (into.new.items ≡ into.old.items ++ reference (map operation_form scene.now.ops.now)
        (map component_form scene.now.components.now) scene.now.names.now component place (key_text params.now key)) }
{
    let key = key_text(alloc, params, key)?;
    push_reference(alloc, scene, component, place, &key, into)
}

/// Opens a parenthesis, if what binds like this needs one at a place of a level.
#[tactic(auto, unfolding(crate::specs::Asking::opened))]
fn push_open(level: u8, binds: u8, into: &mut Vec<u8>) -> Result<(), AllocError>
    ensures { OnOk result (into.new.items ≡ into.old.items ++ opened level binds) }
{
    if binds < level {
        into.extend_from_slice(b"(")
    } else {
        Ok(())
    }
}

/// Closes it.
#[tactic(auto, unfolding(crate::specs::Asking::closed))]
fn push_close(level: u8, binds: u8, into: &mut Vec<u8>) -> Result<(), AllocError>
    ensures { OnOk result (into.new.items ≡ into.old.items ++ closed level binds) }
{
    if binds < level {
        into.extend_from_slice(b")")
    } else {
        Ok(())
    }
}

/// Appends what comes before a text that is denied or not.
#[tactic(auto, unfolding(crate::specs::Asking::front_text))]
fn push_front(is_denied: bool, level: u8, binds: u8, into: &mut Vec<u8>) -> Result<(), AllocError>
    ensures { OnOk result (into.new.items ≡ into.old.items ++ front_text is_denied level binds) }
{
    if !is_denied {
        return push_open(level, binds, into);
    }
    push_open(level, 3, into)?;
    into.extend_from_slice(b"not ")?;
    push_open(3, binds, into)
}

/// Appends what comes after it.
#[tactic(auto, unfolding(crate::specs::Asking::back_text))]
fn push_back(is_denied: bool, level: u8, binds: u8, into: &mut Vec<u8>) -> Result<(), AllocError>
    ensures { OnOk result (into.new.items ≡ into.old.items ++ back_text is_denied level binds) }
{
    if !is_denied {
        return push_close(level, binds, into);
    }
    push_close(3, binds, into)?;
    push_close(level, 3, into)
}

/// How an ask is said.
#[derive(Clone, Copy)]
pub(crate) enum Tone {
    /// As it is.
    Plain,
    /// Its denial.
    Denied,
    /// Of the denial of a comparison: the same with its sides exchanged.
    Turned,
    /// In place of the denial of a comparison that its sides are equal.
    Equated,
}

fn is_denied(tone: Tone) -> bool
    ensures { result ≡ is_denied tone }
{
    match tone {
        Tone::Plain => false,
        Tone::Denied | Tone::Turned | Tone::Equated => true,
    }
}

/// Appends a comparison of two texts.
#[tactic(auto, unfolding(crate::specs::Asking::sides))]
fn push_sides(tone: Tone, left: &[u8], right: &[u8], into: &mut Vec<u8>) -> Result<(), AllocError>
    ensures { OnOk result (into.new.items ≡ into.old.items ++ sides tone left.now right.now) }
{
    match tone {
        Tone::Plain => push_between(left, b" < ", right, into),
        Tone::Denied => push_between(left, b" >= ", right, into),
        Tone::Turned => push_between(right, b" >= ", left, into),
        Tone::Equated => push_between(right, b" == ", left, into),
    }
}

/// Appends a comparison of two texts, in parentheses if the level wants them.
fn push_comparison(
    tone: Tone,
    level: u8,
    left: &[u8],
    right: &[u8],
    into: &mut Vec<u8>,
) -> Result<(), AllocError>
    ensures { OnOk result (into.new.items ≡ into.old.items ++ opened level 4 ++ sides tone left.now right.now ++ closed level 4) }
{
    push_open(level, 4, into)?;
    push_sides(tone, left, right, into)?;
    push_close(level, 4, into)
}

/// Appends two texts with a sign between them.
fn push_between(
    first: &[u8],
    sign: &[u8],
    second: &[u8],
    into: &mut Vec<u8>,
) -> Result<(), AllocError>
    ensures { OnOk result (into.new.items ≡ into.old.items ++ first.now ++ sign.now ++ second.now) }
{
    into.extend_from_slice(first)?;
    into.extend_from_slice(sign)?;
    into.extend_from_slice(second)
}

/// Whether an ask is a comparison.
fn is_less(ask: &Ask) -> bool
    ensures { result ≡ is_less (ask_form ask.now) }
{
    match ask {
        Ask::Less(..) => true,
        _ => false,
    }
}

/// Whether it is one that is denied.
fn is_denied_less(ask: &Ask) -> bool
    ensures { result ≡ is_denied_less (ask_form ask.now) }
{
    match ask {
        Ask::Not(inner) => is_less(inner),
        _ => false,
    }
}

/// Whether two texts are one.
fn are_same(left: &[u8], right: &[u8]) -> bool
    ensures { result ≡ are_same left.now right.now }
{
    match left {
        [] => right.is_empty(),
        [first, rest @ ..] => match right {
            [] => false,
            [other, others @ ..] => *first == *other && are_same(rest, others),
        },
    }
}

/// Appends an ask in a tone at a place of a level.
#[cycle(asks)]
fn push_ask(
    alloc: Global,
    scene: &Scene<'_>,
    params: &[Param],
    tone: Tone,
    level: u8,
    ask: &Ask,
    into: &mut Vec<u8>,
) -> Result<(), AllocError>
    ensures { OnOk result (into.new.items ≡ into.old.items ++ ask_text (map operation_form scene.now.ops.now)
        (map component_form scene.now.components.now) scene.now.names.now params.now tone level (ask_form ask.now)) }
{
    match ask {
        Ask::Leaf {
            component,
            leaf,
            key,
        } => {
            let denied = is_denied(tone);
            push_front(denied, level, 6, into)?;
            push_leaf(alloc, scene, params, *component, *leaf, *key, into)?;
            push_back(denied, level, 6, into)
        }
        Ask::Arg(place) => push_parameter(alloc, params, tone, level, *place, into),
        Ask::Const(value) => push_constant(alloc, tone, level, value, into),
        Ask::Not(inner) => push_negation(alloc, scene, params, tone, level, inner, into),
        Ask::And(left, right) => push_both(alloc, scene, params, tone, level, left, right, into),
        Ask::Or(left, right) => push_either(alloc, scene, params, tone, level, left, right, into),
        Ask::Less(left, right) => push_less(alloc, scene, params, tone, level, left, right, into),
        Ask::Plus(left, right) => push_sum(alloc, scene, params, tone, level, left, right, into),
        Ask::Minus(left, right) => {
            push_difference(alloc, scene, params, tone, level, left, right, into)
        }
    }
}

/// Appends a parameter in a tone at a place of a level.
fn push_parameter(
    alloc: Global,
    params: &[Param],
    tone: Tone,
    level: u8,
    place: u32,
    into: &mut Vec<u8>,
) -> Result<(), AllocError>
    ensures { OnOk result (into.new.items ≡ into.old.items ++ front_text (is_denied tone) level 6 ++ param_text params.now place
        ++ back_text (is_denied tone) level 6) }
{
    let denied = is_denied(tone);
    push_front(denied, level, 6, into)?;
    push_param(alloc, params, place, into)?;
    push_back(denied, level, 6, into)
}

/// Appends a constant in a tone at a place of a level.
fn push_constant(
    alloc: Global,
    tone: Tone,
    level: u8,
    value: &Value,
    into: &mut Vec<u8>,
) -> Result<(), AllocError>
    ensures { OnOk result (into.new.items ≡ into.old.items ++ front_text (is_denied tone) level 6 ++ value_text value.now
        ++ back_text (is_denied tone) level 6) }
{
    let denied = is_denied(tone);
    push_front(denied, level, 6, into)?;
    print(alloc, value, into)?;
    push_back(denied, level, 6, into)
}

/// Appends the negation of an ask in a tone at a place of a level: the ask denied, and after a `not` if the negation is denied itself.
#[cycle(asks)]
fn push_negation(
    alloc: Global,
    scene: &Scene<'_>,
    params: &[Param],
    tone: Tone,
    level: u8,
    inner: &Ask,
    into: &mut Vec<u8>,
) -> Result<(), AllocError>
    ensures { OnOk result (into.new.items ≡ into.old.items ++ ask_text (map operation_form scene.now.ops.now)
        (map component_form scene.now.components.now) scene.now.names.now params.now tone level (negation (ask_form inner.now))) }
{
    match tone {
        Tone::Plain => push_ask(alloc, scene, params, Tone::Denied, level, inner, into),
        Tone::Denied => {
            push_open(level, 3, into)?;
            into.extend_from_slice(b"not ")?;
            push_ask(alloc, scene, params, Tone::Denied, 3, inner, into)?;
            push_close(level, 3, into)
        }
        Tone::Turned => push_ask(alloc, scene, params, Tone::Turned, level, inner, into),
        Tone::Equated => push_ask(alloc, scene, params, Tone::Equated, level, inner, into),
    }
}

/// Appends the `and` of two asks in a tone at a place of a level: as an equation, if it is one.
#[cycle(asks)]
fn push_both(
    alloc: Global,
    scene: &Scene<'_>,
    params: &[Param],
    tone: Tone,
    level: u8,
    left: &Ask,
    right: &Ask,
    into: &mut Vec<u8>,
) -> Result<(), AllocError>
    ensures { OnOk result (into.new.items ≡ into.old.items ++ ask_text (map operation_form scene.now.ops.now)
        (map component_form scene.now.components.now) scene.now.names.now params.now tone level
        (both (ask_form left.now) (ask_form right.now))) }
{
    let denied = is_denied(tone);
    if is_equation(alloc, scene, params, left, right)? {
        push_front(denied, level, 4, into)?;
        push_ask(alloc, scene, params, Tone::Equated, 4, left, into)?;
        return push_back(denied, level, 4, into);
    }
    push_front(denied, level, 2, into)?;
    push_ask(alloc, scene, params, Tone::Plain, 2, left, into)?;
    into.extend_from_slice(b" and ")?;
    push_ask(alloc, scene, params, Tone::Plain, 2, right, into)?;
    push_back(denied, level, 2, into)
}

/// Whether the `and` of two asks is an equation: both are denied comparisons, and the second is the first with its sides exchanged.
#[cycle(asks)]
fn is_equation(
    alloc: Global,
    scene: &Scene<'_>,
    params: &[Param],
    left: &Ask,
    right: &Ask,
) -> Result<bool, AllocError>
    ensures { IfOk result (λ equated. equated ≡ (is_denied_less (ask_form left.now) && is_denied_less (ask_form right.now) && are_same
        (ask_text (map operation_form scene.now.ops.now) (map component_form scene.now.components.now) scene.now.names.now params.now
        Tone.Turned 2 (ask_form left.now)) (ask_text (map operation_form scene.now.ops.now)
        (map component_form scene.now.components.now) scene.now.names.now params.now Tone.Plain 2 (ask_form right.now)))) }
{
    if !(is_denied_less(left) && is_denied_less(right)) {
        return Ok(false);
    }
    let mut turned = Vec::new(alloc);
    push_ask(alloc, scene, params, Tone::Turned, 2, left, &mut turned)?;
    let mut second = Vec::new(alloc);
    push_ask(alloc, scene, params, Tone::Plain, 2, right, &mut second)?;
    Ok(are_same(&turned, &second))
}

/// Appends the `or` of two asks in a tone at a place of a level.
#[cycle(asks)]
fn push_either(
    alloc: Global,
    scene: &Scene<'_>,
    params: &[Param],
    tone: Tone,
    level: u8,
    left: &Ask,
    right: &Ask,
    into: &mut Vec<u8>,
) -> Result<(), AllocError>
    ensures { OnOk result (into.new.items ≡ into.old.items ++ ask_text (map operation_form scene.now.ops.now)
        (map component_form scene.now.components.now) scene.now.names.now params.now tone level
        (either (ask_form left.now) (ask_form right.now))) }
{
    let denied = is_denied(tone);
    push_front(denied, level, 1, into)?;
    push_ask(alloc, scene, params, Tone::Plain, 1, left, into)?;
    into.extend_from_slice(b" or ")?;
    push_ask(alloc, scene, params, Tone::Plain, 1, right, into)?;
    push_back(denied, level, 1, into)
}

/// Appends the comparison of two asks in a tone at a place of a level.
#[cycle(asks)]
fn push_less(
    alloc: Global,
    scene: &Scene<'_>,
    params: &[Param],
    tone: Tone,
    level: u8,
    left: &Ask,
    right: &Ask,
    into: &mut Vec<u8>,
) -> Result<(), AllocError>
    ensures { OnOk result (into.new.items ≡ into.old.items ++ ask_text (map operation_form scene.now.ops.now)
        (map component_form scene.now.components.now) scene.now.names.now params.now tone level
        (less (ask_form left.now) (ask_form right.now))) }
{
    let mut first = Vec::new(alloc);
    push_ask(alloc, scene, params, Tone::Plain, 5, left, &mut first)?;
    let mut second = Vec::new(alloc);
    push_ask(alloc, scene, params, Tone::Plain, 5, right, &mut second)?;
    push_comparison(tone, level, &first, &second, into)
}

/// Appends the sum of two asks in a tone at a place of a level.
#[cycle(asks)]
fn push_sum(
    alloc: Global,
    scene: &Scene<'_>,
    params: &[Param],
    tone: Tone,
    level: u8,
    left: &Ask,
    right: &Ask,
    into: &mut Vec<u8>,
) -> Result<(), AllocError>
    ensures { OnOk result (into.new.items ≡ into.old.items ++ ask_text (map operation_form scene.now.ops.now)
        (map component_form scene.now.components.now) scene.now.names.now params.now tone level
        (sum (ask_form left.now) (ask_form right.now))) }
{
    let denied = is_denied(tone);
    push_front(denied, level, 5, into)?;
    push_ask(alloc, scene, params, Tone::Plain, 5, left, into)?;
    into.extend_from_slice(b" + ")?;
    push_ask(alloc, scene, params, Tone::Plain, 6, right, into)?;
    push_back(denied, level, 5, into)
}

/// Appends the difference of two asks in a tone at a place of a level.
#[cycle(asks)]
fn push_difference(
    alloc: Global,
    scene: &Scene<'_>,
    params: &[Param],
    tone: Tone,
    level: u8,
    left: &Ask,
    right: &Ask,
    into: &mut Vec<u8>,
) -> Result<(), AllocError>
    ensures { OnOk result (into.new.items ≡ into.old.items ++ ask_text (map operation_form scene.now.ops.now)
        (map component_form scene.now.components.now) scene.now.names.now params.now tone level
        (difference (ask_form left.now) (ask_form right.now))) }
{
    let denied = is_denied(tone);
    push_front(denied, level, 5, into)?;
    push_ask(alloc, scene, params, Tone::Plain, 5, left, into)?;
    into.extend_from_slice(b" - ")?;
    push_ask(alloc, scene, params, Tone::Plain, 6, right, into)?;
    push_back(denied, level, 5, into)
}

/// Appends a query with a number.
pub fn push_query(
    alloc: Global,
    scene: &Scene<'_>,
    asks: &[Ask],
    place: usize,
    query: &Query,
    into: &mut Vec<u8>,
) -> Result<(), AllocError>
    ensures { OnOk result (into.new.items ≡ into.old.items ++ query_text (map operation_form scene.now.ops.now)
        (map component_form scene.now.components.now) scene.now.names.now (map ask_form asks.now) place (query_form query.now)) }
{
    let params = query.params.as_slice();
    into.extend_from_slice(b"    ")?;
    push_call(alloc, query.name, params, into)?;
    into.extend_from_slice(say(Phrase::Returns))?;
    push_answer(alloc, scene, asks, params, place, into)?;
    into.extend_from_slice(b"\n")
}

/// Appends the answer of the query with a number.
fn push_answer(
    alloc: Global,
    scene: &Scene<'_>,
    asks: &[Ask],
    params: &[Param],
    place: usize,
    into: &mut Vec<u8>,
) -> Result<(), AllocError>
    ensures { OnOk result (into.new.items ≡ into.old.items ++ answer_text (map operation_form scene.now.ops.now)
        (map component_form scene.now.components.now) scene.now.names.now params.now (slice_get (map ask_form asks.now) place)) }
{
    match asks.get(place) {
        Some(ask) => push_ask(alloc, scene, params, Tone::Plain, 0, ask, into),
        None => Ok(()),
    }
}
