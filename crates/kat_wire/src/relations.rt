//! Relations of a design file.
ghost use Rattle.std.specs.Prelude.{Some, IfErr, IfOk, map};
ghost use Rattle.kat_wire.specs.FileFaults.{ref_faults, ref_parts_faults, conjunct_faults, conjunct_parts_faults};
ghost use Rattle.kat_wire.specs.FileParts.{ref_said, ref_parts_said, conjunct_said, conjunct_parts_said};
ghost use Rattle.serde_json.specs.View.{view};
ghost use Rattle.kat_json.specs.Refused.{IsRefused, IsSaid};
ghost use Rattle.kat_json.specs.Lists.{tag_of};
ghost use Rattle.kat_wire.specs.Words.{conjunct_words};
ghost use Rattle.kat_json.specs.Words.{spelled};
ghost use Rattle.kat_wire.specs.declared.tags.ConjunctTag.TheVariants.{Query, Equal, Bounded, AtLeast, Matched, Total};

use crate::tags::ConjunctTag;
use crate::words::conjunct_tag;
use kat_json::WireError;
use kat_json::forms::{Form, Index, ListOf, here, part, past, within};
use kat_json::values::{elements, tag};
use kat_relation::{Conjunct, LeafRef};
use serde_json::Value;
use std::alloc::Global;

/// A leaf of a component.
pub(crate) struct Ref;

impl Form for Ref {
    type Item = LeafRef;

    ghost faults = { ref_faults };

    ghost said = { ref_said };

    fn read(alloc: Global, value: &Value) -> Result<LeafRef, WireError> {
        match elements(value) {
            Some(parts) => leaf_ref(alloc, parts),
            None => Err(here(alloc)),
        }
    }
}

fn leaf_ref(alloc: Global, parts: &[Value]) -> Result<LeafRef, WireError>
    ensures said { IfOk result (IsSaid (ref_parts_faults (map view parts.now)) (ref_parts_said (map view parts.now))) }
    ensures refused { IfErr result (IsRefused (ref_parts_faults (map view parts.now))) }
{
    let component = part::<Index>(alloc, parts, 0)?;
    let leaf = part::<Index>(alloc, parts, 1)?;
    past(alloc, parts, 2)?;
    Ok(LeafRef { component, leaf })
}

/// A conjunct: its word and its parts.
pub(crate) struct AnyConjunct;

impl Form for AnyConjunct {
    type Item = Conjunct;

    ghost faults = { conjunct_faults };

    ghost said = { conjunct_said };

    fn read(alloc: Global, value: &Value) -> Result<Conjunct, WireError> {
        match elements(value) {
            Some(parts) => conjunct(alloc, parts),
            None => Err(here(alloc)),
        }
    }
}

fn conjunct(alloc: Global, parts: &[Value]) -> Result<Conjunct, WireError>
    ensures said { IfOk result (IsSaid (conjunct_parts_faults (spelled conjunct_words (tag_of (map view parts.now))) (map view parts.now))
        (conjunct_parts_said (spelled conjunct_words (tag_of (map view parts.now))) (map view parts.now))) }
    ensures refused { IfErr result (IsRefused (conjunct_parts_faults (spelled conjunct_words (tag_of (map view parts.now)))
        (map view parts.now))) }
{
    match conjunct_tag(tag(parts)) {
        None => within(alloc, 0, Err(here(alloc))),
        Some(ConjunctTag::Query) => query(alloc, parts),
        Some(ConjunctTag::Equal) => equal(alloc, parts),
        Some(ConjunctTag::Bounded) => bounded(alloc, parts),
        Some(ConjunctTag::AtLeast) => at_least(alloc, parts),
        Some(ConjunctTag::Matched) => matched(alloc, parts),
        Some(ConjunctTag::Total) => total(alloc, parts),
    }
}

fn query(alloc: Global, parts: &[Value]) -> Result<Conjunct, WireError>
    ensures said { IfOk result (IsSaid (conjunct_parts_faults (Some Query) (map view parts.now))
        (conjunct_parts_said (Some Query) (map view parts.now))) }
    ensures refused { IfErr result (IsRefused (conjunct_parts_faults (Some Query) (map view parts.now))) }
{
    let query = part::<Index>(alloc, parts, 1)?;
    past(alloc, parts, 2)?;
    Ok(Conjunct::Query(query))
}

fn equal(alloc: Global, parts: &[Value]) -> Result<Conjunct, WireError>
    ensures said { IfOk result (IsSaid (conjunct_parts_faults (Some Equal) (map view parts.now))
        (conjunct_parts_said (Some Equal) (map view parts.now))) }
    ensures refused { IfErr result (IsRefused (conjunct_parts_faults (Some Equal) (map view parts.now))) }
{
    let field = part::<Index>(alloc, parts, 1)?;
    let leaf = part::<Ref>(alloc, parts, 2)?;
    past(alloc, parts, 3)?;
    Ok(Conjunct::Equal { field, leaf })
}

fn bounded(alloc: Global, parts: &[Value]) -> Result<Conjunct, WireError>
    ensures said { IfOk result (IsSaid (conjunct_parts_faults (Some Bounded) (map view parts.now))
        (conjunct_parts_said (Some Bounded) (map view parts.now))) }
    ensures refused { IfErr result (IsRefused (conjunct_parts_faults (Some Bounded) (map view parts.now))) }
{
    let leaves = part::<ListOf<Ref>>(alloc, parts, 1)?;
    let position = part::<Index>(alloc, parts, 2)?;
    past(alloc, parts, 3)?;
    Ok(Conjunct::Bounded { leaves, position })
}

fn at_least(alloc: Global, parts: &[Value]) -> Result<Conjunct, WireError>
    ensures said { IfOk result (IsSaid (conjunct_parts_faults (Some AtLeast) (map view parts.now))
        (conjunct_parts_said (Some AtLeast) (map view parts.now))) }
    ensures refused { IfErr result (IsRefused (conjunct_parts_faults (Some AtLeast) (map view parts.now))) }
{
    let leaf = part::<Ref>(alloc, parts, 1)?;
    let position = part::<Index>(alloc, parts, 2)?;
    let digit = part::<Index>(alloc, parts, 3)?;
    past(alloc, parts, 4)?;
    Ok(Conjunct::AtLeast {
        leaf,
        position,
        digit,
    })
}

fn matched(alloc: Global, parts: &[Value]) -> Result<Conjunct, WireError>
    ensures said { IfOk result (IsSaid (conjunct_parts_faults (Some Matched) (map view parts.now))
        (conjunct_parts_said (Some Matched) (map view parts.now))) }
    ensures refused { IfErr result (IsRefused (conjunct_parts_faults (Some Matched) (map view parts.now))) }
{
    let first = part::<Ref>(alloc, parts, 1)?;
    let position = part::<Index>(alloc, parts, 2)?;
    let second = part::<Ref>(alloc, parts, 3)?;
    let later = part::<Index>(alloc, parts, 4)?;
    let digit = part::<Index>(alloc, parts, 5)?;
    past(alloc, parts, 6)?;
    Ok(Conjunct::Matched {
        first,
        position,
        second,
        later,
        digit,
    })
}

fn total(alloc: Global, parts: &[Value]) -> Result<Conjunct, WireError>
    ensures said { IfOk result (IsSaid (conjunct_parts_faults (Some Total) (map view parts.now))
        (conjunct_parts_said (Some Total) (map view parts.now))) }
    ensures refused { IfErr result (IsRefused (conjunct_parts_faults (Some Total) (map view parts.now))) }
{
    let component = part::<Index>(alloc, parts, 1)?;
    past(alloc, parts, 2)?;
    Ok(Conjunct::Total(component))
}
