//! Reading what a state file says: its form alone.
ghost use Rattle.std.specs.Prelude.{◌≡◌, IfErr, IfOk, List, map};
ghost use Rattle.kat_design.specs.Designs.{component_form};
ghost use Rattle.serde_json.specs.View.{view};
ghost use Rattle.kat_json.specs.FormFaults.{part_faults};
ghost use Rattle.kat_json.specs.Parts.{part_said};
ghost use Rattle.kat_json.specs.Refused.{IsRefused, IsSaid};
ghost use Rattle.kat_node.specs.StateForms.{count_said, node_faults, node_said, parts_faults, state_faults, state_said, stated_faults, stated_parts_faults, stated_parts_said, stated_said};
ghost use Rattle.kat_node.specs.declared.stated.Stated as stateds;

use crate::extra::extra_parts;
use crate::forms::{Key, TwoOf, Whole};
use crate::stated::{NodeStated, Stated};
use kat_design::Component;
use kat_json::WireError;
use kat_json::forms::{Form, ListOf, Start, here, part, past, within};
use kat_json::values::elements;
use kat_num::Items;
use serde_json::Value;
use std::alloc::Global;

/// What a state file with these parts says.
pub(crate) fn node_stated(
    alloc: Global,
    components: &[Component],
    parts: &[Value],
) -> Result<NodeStated, WireError>
    ensures said { IfOk result (IsSaid (node_faults (map component_form components.now) (map view parts.now))
        (node_said (map component_form components.now) (map view parts.now))) }
    ensures refused { IfErr result (IsRefused (node_faults (map component_form components.now) (map view parts.now))) }
{
    let number = part::<Whole>(alloc, parts, 2)?;
    let clock = part::<Whole>(alloc, parts, 3)?;
    let (count, stated) = state_part(alloc, components, parts, 4)?;
    past(alloc, parts, 5)?;
    Ok(NodeStated {
        number,
        clock,
        count,
        parts: stated,
    })
}

/// The part of a list at a place, as a state.
fn state_part(
    alloc: Global,
    components: &[Component],
    parts: &[Value],
    place: usize,
) -> Result<(usize, Items<Stated>), WireError>
    ensures said { IfOk result (λ state. IsSaid (part_faults (state_faults (map component_form components.now)) place (map view parts.now)) (
      part_said count_said place (map view parts.now),
      part_said (state_said (map component_form components.now)) place (map view parts.now),
    ) state) }
    ensures refused { IfErr result (IsRefused (part_faults (state_faults (map component_form components.now)) place (map view parts.now))) }
{
    match parts.get(place) {
        Some(value) => within(alloc, place, state(alloc, components, value)),
        None => within(alloc, place, Err(here(alloc))),
    }
}

/// A state: how many parts it has, and what is said of each component.
fn state(
    alloc: Global,
    components: &[Component],
    value: &Value,
) -> Result<(usize, Items<Stated>), WireError>
    ensures said { IfOk result (λ state. IsSaid (state_faults (map component_form components.now) (view value.now))
        (count_said (view value.now), state_said (map component_form components.now) (view value.now)) state) }
    ensures refused { IfErr result (IsRefused (state_faults (map component_form components.now) (view value.now))) }
{
    match elements(value) {
        Some(values) => {
            let stated = parts_stated(alloc, components, values)?;
            Ok((values.len(), stated))
        }
        None => Err(here(alloc)),
    }
}

/// What is said of each component that has a part. A part past the components is judged for its form.
fn parts_stated(
    alloc: Global,
    components: &[Component],
    values: &[Value],
) -> Result<Items<Stated>, WireError>
    ensures said { IfOk result (IsSaid (parts_faults (map component_form components.now) (map view values.now))
        (stated_parts_said (map component_form components.now) (map view values.now))) }
    ensures refused { IfErr result (IsRefused (parts_faults (map component_form components.now) (map view values.now))) }
{
    let stated = each_stated(alloc, components, values)?;
    extra_parts(alloc, components.len(), values)?;
    Ok(stated)
}

/// What is said of each component that has a part.
fn each_stated(
    alloc: Global,
    components: &[Component],
    values: &[Value],
) -> Result<Items<Stated>, WireError>
    ensures said { IfOk result (IsSaid (stated_parts_faults (map component_form components.now) (map view values.now))
        (stated_parts_said (map component_form components.now) (map view values.now))) }
    ensures refused { IfErr result (IsRefused (stated_parts_faults (map component_form components.now) (map view values.now))) }
{
    let mut all = Vec::new(alloc);
    for i in 0..components.len().min(values.len()) {
        let item = within(alloc, i, stated(alloc, &components[i], &values[i]))?;
        all.push(item)?;
    }
    Ok(Items::from_vec(all))
}

/// What is said of a component.
fn stated(alloc: Global, component: &Component, value: &Value) -> Result<Stated, WireError>
    ensures said { IfOk result (IsSaid (stated_faults (component_form component.now) (view value.now))
        (stated_said (component_form component.now) (view value.now))) }
    ensures refused { IfErr result (IsRefused (stated_faults (component_form component.now) (view value.now))) }
{
    match component {
        Component::Cell { .. } => {
            let leaves = ListOf::<Start>::read(alloc, value)?;
            Ok(Stated::Cell(leaves))
        }
        Component::Table { .. } => {
            let entries = ListOf::<TwoOf<Key, ListOf<Start>>>::read(alloc, value)?;
            Ok(Stated::Table(entries))
        }
        Component::Set { .. } => {
            let keys = ListOf::<Key>::read(alloc, value)?;
            Ok(Stated::Set(keys))
        }
        Component::Tally { .. } => {
            let sums = ListOf::<TwoOf<Whole, Whole>>::read(alloc, value)?;
            Ok(Stated::Tally(sums))
        }
        Component::Tallies { .. } => {
            let entries = ListOf::<TwoOf<Key, ListOf<TwoOf<Whole, Whole>>>>::read(alloc, value)?;
            Ok(Stated::Tallies(entries))
        }
    }
}
