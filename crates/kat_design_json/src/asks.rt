//! Asks of a design file.
ghost use Rattle.std.specs.Prelude.{IfErr, IfOk, Some, map, ◌≡◌, true, List};
ghost use Rattle.kat_design.specs.Designs.{AskForm, ask_form};
ghost use Rattle.serde_json.specs.View.{view};
ghost use Rattle.kat_design_json.specs.DesignFaults.{ask_faults};
ghost use Rattle.kat_json.specs.FormFaults.{list_of_faults, part_faults};
ghost use Rattle.kat_design_json.specs.DesignParts.{ask_said, ask_parts_said};
ghost use Rattle.kat_json.specs.Parts.{list_said, part_said};
ghost use Rattle.kat_json.specs.Refused.{IsRefused, IsSaid};
ghost use Rattle.kat_design.specs.Faults.{each_faults};
ghost use Rattle.kat_design_json.specs.Joined.{list_ask_faults, list_ask_said, is_of_two};
ghost use Rattle.kat_json.specs.Lists.{tag_of};
ghost use Rattle.kat_design_json.specs.Words.{ask_words};
ghost use Rattle.kat_json.specs.Words.{spelled};
ghost use Rattle.kat_design_json.specs.declared.tags.AskTag.TheVariants.{Leaf, Param, Not};
ghost use Rattle.serde_json.specs.Data.{Data};

use crate::tags::AskTag;
use crate::words::ask_tag;
use kat_design::Ask;
use kat_json::WireError;
use kat_json::forms::{Number, here, optional, part, past, within};
use kat_json::seen::SeenForm;
use kat_json::values::{elements, tag};
use kat_json::words::constant;
use serde_json::Value;
use std::alloc::{AllocError, Global};

/// An ask.
pub(crate) struct AnyAsk;

impl SeenForm for AnyAsk {
    type Item = Ask;

    ghost Said = { AskForm };

    ghost faults = { λ _. ask_faults };

    ghost said = { λ _. ask_said };

    ghost seen = { ask_form };

    fn read(&self, alloc: Global, value: &Value) -> Result<Ask, WireError> {
        ask(alloc, value)
    }
}

/// An ask: a constant, or a list of a word and parts.
#[cycle(ask)]
fn ask(alloc: Global, value: &Value) -> Result<Ask, WireError>
    ensures said { IfOk result (λ ask. IsSaid (ask_faults (view value.now)) (ask_said (view value.now)) (ask_form ask)) }
    ensures refused { IfErr result (IsRefused (ask_faults (view value.now))) }
{
    match elements(value) {
        Some(parts) => list_ask(alloc, parts),
        None => match constant(value) {
            Some(constant) => Ok(Ask::Const(constant)),
            None => Err(here(alloc)),
        },
    }
}

/// An ask that is a list.
#[cycle(ask)]
fn list_ask(alloc: Global, parts: &[Value]) -> Result<Ask, WireError>
    ensures said { IfOk result (λ ask. IsSaid (list_ask_faults (spelled ask_words (tag_of (map view parts.now))) (map view parts.now))
        (list_ask_said (spelled ask_words (tag_of (map view parts.now))) (map view parts.now)) (ask_form ask)) }
    ensures refused { IfErr result (IsRefused (list_ask_faults (spelled ask_words (tag_of (map view parts.now))) (map view parts.now))) }
{
    match ask_tag(tag(parts)) {
        None => within(alloc, 0, Err(here(alloc))),
        Some(AskTag::Leaf) => leaf_ask(alloc, parts),
        Some(AskTag::Param) => param_ask(alloc, parts),
        Some(AskTag::Not) => not_ask(alloc, parts),
        Some(tag) => two_asks(alloc, tag, parts),
    }
}

/// A leaf of a component, with or without a key.
fn leaf_ask(alloc: Global, parts: &[Value]) -> Result<Ask, WireError>
    ensures said { IfOk result (λ ask. IsSaid (list_ask_faults (Some Leaf) (map view parts.now))
        (list_ask_said (Some Leaf) (map view parts.now)) (ask_form ask)) }
    ensures refused { IfErr result (IsRefused (list_ask_faults (Some Leaf) (map view parts.now))) }
{
    let component = part::<Number>(alloc, parts, 1)?;
    let leaf = part::<Number>(alloc, parts, 2)?;
    let key = optional::<Number>(alloc, parts, 3)?;
    past(alloc, parts, 4)?;
    Ok(Ask::Leaf {
        component,
        leaf,
        key,
    })
}

/// A parameter.
fn param_ask(alloc: Global, parts: &[Value]) -> Result<Ask, WireError>
    ensures said { IfOk result (λ ask. IsSaid (list_ask_faults (Some Param) (map view parts.now))
        (list_ask_said (Some Param) (map view parts.now)) (ask_form ask)) }
    ensures refused { IfErr result (IsRefused (list_ask_faults (Some Param) (map view parts.now))) }
{
    let place = part::<Number>(alloc, parts, 1)?;
    past(alloc, parts, 2)?;
    Ok(Ask::Arg(place))
}

/// The negation of an ask.
#[cycle(ask)]
fn not_ask(alloc: Global, parts: &[Value]) -> Result<Ask, WireError>
    ensures said { IfOk result (λ ask. IsSaid (list_ask_faults (Some Not) (map view parts.now))
        (list_ask_said (Some Not) (map view parts.now)) (ask_form ask)) }
    ensures refused { IfErr result (IsRefused (list_ask_faults (Some Not) (map view parts.now))) }
{
    let first = ask_part(alloc, parts, 1)?;
    past(alloc, parts, 2)?;
    Ok(Ask::Not(Box::new(alloc, first)?))
}

/// An operation on two asks.
#[cycle(ask)]
fn two_asks(alloc: Global, tag: AskTag, parts: &[Value]) -> Result<Ask, WireError>
    requires { is_of_two tag ≡ true }
    ensures said { IfOk result (λ ask. IsSaid (list_ask_faults (Some tag) (map view parts.now))
        (list_ask_said (Some tag) (map view parts.now)) (ask_form ask)) }
    ensures refused { IfErr result (IsRefused (list_ask_faults (Some tag) (map view parts.now))) }
{
    let first = ask_part(alloc, parts, 1)?;
    let second = ask_part(alloc, parts, 2)?;
    past(alloc, parts, 3)?;
    let ask = joined(alloc, tag, first, second)?;
    Ok(ask)
}

/// Two asks as one.
fn joined(alloc: Global, tag: AskTag, first: Ask, second: Ask) -> Result<Ask, AllocError>
    requires { is_of_two tag ≡ true }
    ensures { (parts : List Data) → IfOk result (λ ask. ask_form ask ≡ ask_parts_said (Some tag) parts (ask_form first) (ask_form second)) }
{
    let first = Box::new(alloc, first)?;
    let second = Box::new(alloc, second)?;
    match tag {
        AskTag::And => Ok(Ask::And(first, second)),
        AskTag::Or => Ok(Ask::Or(first, second)),
        AskTag::Less => Ok(Ask::Less(first, second)),
        AskTag::Plus => Ok(Ask::Plus(first, second)),
        AskTag::Minus => Ok(Ask::Minus(first, second)),
        AskTag::Leaf | AskTag::Param | AskTag::Not => unreachable!(),
    }
}

/// The part of a list at a place, as an ask.
#[cycle(ask)]
fn ask_part(alloc: Global, parts: &[Value], place: usize) -> Result<Ask, WireError>
    ensures said { IfOk result (λ ask. IsSaid (part_faults ask_faults place (map view parts.now))
        (part_said ask_said place (map view parts.now)) (ask_form ask)) }
    ensures refused { IfErr result (IsRefused (part_faults ask_faults place (map view parts.now))) }
{
    match parts.get(place) {
        Some(value) => within(alloc, place, ask(alloc, value)),
        None => within(alloc, place, Err(here(alloc))),
    }
}
