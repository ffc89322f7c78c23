//! Components of a design file.
ghost use Rattle.std.specs.Prelude.{IfErr, IfOk, Some, map};
ghost use Rattle.kat_design.specs.Designs.{ComponentForm, component_form};
ghost use Rattle.serde_json.specs.View.{view};
ghost use Rattle.kat_design_json.specs.DesignFaults.{component_faults, component_parts_faults};
ghost use Rattle.kat_json.specs.FormFaults.{list_of_faults, part_faults};
ghost use Rattle.kat_design_json.specs.DesignParts.{component_said, component_parts_said};
ghost use Rattle.kat_json.specs.Parts.{list_said, part_said};
ghost use Rattle.kat_json.specs.Refused.{IsRefused, IsSaid};
ghost use Rattle.kat_design.specs.Faults.{each_faults};
ghost use Rattle.kat_design_json.specs.declared.tags.ComponentTag.TheVariants.{Cell, Table, Set, Tally, Tallies};

use crate::shapes::shape_part;
use crate::tags::ComponentTag;
use crate::words::component_tag;
use kat_design::Component;
use kat_json::WireError;
use kat_json::forms::{
    EffectLeaf, EffectOf, Key, KeySort, KeyedBy, ListOf, Start, here, part, past, within,
};
use kat_json::seen::SeenForm;
use kat_json::values::{elements, tag};
use serde_json::Value;
use std::alloc::Global;

/// A component.
pub(crate) struct AnyComponent;

impl SeenForm for AnyComponent {
    type Item = Component;

    ghost Said = { ComponentForm };

    ghost faults = { λ _. component_faults };

    ghost said = { λ _. component_said };

    ghost seen = { component_form };

    fn read(&self, alloc: Global, value: &Value) -> Result<Component, WireError> {
        component(alloc, value)
    }
}

/// A component: its word and its parts.
fn component(alloc: Global, value: &Value) -> Result<Component, WireError>
    ensures said { IfOk result (λ component. IsSaid (component_faults (view value.now)) (component_said (view value.now))
        (component_form component)) }
    ensures refused { IfErr result (IsRefused (component_faults (view value.now))) }
{
    let Some(parts) = elements(value) else {
        return Err(here(alloc));
    };
    match component_tag(tag(parts)) {
        None => within(alloc, 0, Err(here(alloc))),
        Some(ComponentTag::Cell) => cell(alloc, parts),
        Some(ComponentTag::Table) => table(alloc, parts),
        Some(ComponentTag::Set) => set(alloc, parts),
        Some(ComponentTag::Tally) => tally(alloc, parts),
        Some(ComponentTag::Tallies) => tallies(alloc, parts),
    }
}

fn cell(alloc: Global, parts: &[Value]) -> Result<Component, WireError>
    ensures said { IfOk result (λ component. IsSaid (component_parts_faults (Some Cell) (map view parts.now))
        (component_parts_said (Some Cell) (map view parts.now)) (component_form component)) }
    ensures refused { IfErr result (IsRefused (component_parts_faults (Some Cell) (map view parts.now))) }
{
    let shape = shape_part(alloc, parts, 1)?;
    let starts = part::<ListOf<Start>>(alloc, parts, 2)?;
    let effects = part::<ListOf<EffectOf<ListOf<EffectLeaf>>>>(alloc, parts, 3)?;
    past(alloc, parts, 4)?;
    Ok(Component::Cell {
        shape,
        starts,
        effects,
    })
}

fn table(alloc: Global, parts: &[Value]) -> Result<Component, WireError>
    ensures said { IfOk result (λ component. IsSaid (component_parts_faults (Some Table) (map view parts.now))
        (component_parts_said (Some Table) (map view parts.now)) (component_form component)) }
    ensures refused { IfErr result (IsRefused (component_parts_faults (Some Table) (map view parts.now))) }
{
    let key = part::<KeySort>(alloc, parts, 1)?;
    let shape = shape_part(alloc, parts, 2)?;
    let starts = part::<ListOf<Start>>(alloc, parts, 3)?;
    let effects = part::<ListOf<EffectOf<KeyedBy<ListOf<EffectLeaf>>>>>(alloc, parts, 4)?;
    past(alloc, parts, 5)?;
    Ok(Component::Table {
        key,
        shape,
        starts,
        effects,
    })
}

fn set(alloc: Global, parts: &[Value]) -> Result<Component, WireError>
    ensures said { IfOk result (λ component. IsSaid (component_parts_faults (Some Set) (map view parts.now))
        (component_parts_said (Some Set) (map view parts.now)) (component_form component)) }
    ensures refused { IfErr result (IsRefused (component_parts_faults (Some Set) (map view parts.now))) }
{
    let key = part::<KeySort>(alloc, parts, 1)?;
    let effects = part::<ListOf<EffectOf<Key>>>(alloc, parts, 2)?;
    past(alloc, parts, 3)?;
    Ok(Component::Set { key, effects })
}

fn tally(alloc: Global, parts: &[Value]) -> Result<Component, WireError>
    ensures said { IfOk result (λ component. IsSaid (component_parts_faults (Some Tally) (map view parts.now))
        (component_parts_said (Some Tally) (map view parts.now)) (component_form component)) }
    ensures refused { IfErr result (IsRefused (component_parts_faults (Some Tally) (map view parts.now))) }
{
    let effects = part::<ListOf<EffectOf<EffectLeaf>>>(alloc, parts, 1)?;
    past(alloc, parts, 2)?;
    Ok(Component::Tally { effects })
}

fn tallies(alloc: Global, parts: &[Value]) -> Result<Component, WireError>
    ensures said { IfOk result (λ component. IsSaid (component_parts_faults (Some Tallies) (map view parts.now))
        (component_parts_said (Some Tallies) (map view parts.now)) (component_form component)) }
    ensures refused { IfErr result (IsRefused (component_parts_faults (Some Tallies) (map view parts.now))) }
{
    let key = part::<KeySort>(alloc, parts, 1)?;
    let effects = part::<ListOf<EffectOf<KeyedBy<EffectLeaf>>>>(alloc, parts, 2)?;
    past(alloc, parts, 3)?;
    Ok(Component::Tallies { key, effects })
}
