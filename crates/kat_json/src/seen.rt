//! Reading by forms whose items contracts see as plain data: the parts of a design are kept in boxes, and definitions
//! speak of plain data in their place.
ghost use Rattle.std.specs.Prelude.{IfErr, IfOk, List, map};
ghost use Rattle.kat_design.specs.Faults.{Path, each_faults};
ghost use Rattle.serde_json.specs.Data.{Data};
ghost use Rattle.serde_json.specs.View.{view};
ghost use Rattle.kat_json.specs.FormFaults.{list_of_faults, part_faults};
ghost use Rattle.kat_json.specs.Parts.{list_said, part_said};
ghost use Rattle.kat_json.specs.Refused.{IsRefused, IsSaid};

use crate::errors::WireError;
use crate::forms::{here, within};
use crate::values::elements;
use kat_num::Items;
use serde_json::Value;
use std::alloc::Global;

/// A form of value whose item is seen as plain data.
pub trait SeenForm {
    type Item: Drop;

    // plain data
    ghost Said: { Type 0 };

    // the places of a value that don't have the form
    ghost faults: { Self → Data → List Path };

    // what a value says
    ghost said: { Self → Data → Said };

    // how an item is seen
    ghost seen: { Self.Item → Said };

    /// Reads a value. The error is the first place that doesn't have the form.
    fn read(&self, alloc: Global, value: &Value) -> Result<Self::Item, WireError>
        ensures said { IfOk result (λ item. IsSaid (faults self.now (view value.now)) (said self.now (view value.now)) (seen item)) }
        ensures refused { IfErr result (IsRefused (faults self.now (view value.now))) };
}

/// The part of a list at a place. One that is missing is a fault at its own place.
pub fn seen_part<S: SeenForm>(
    alloc: Global,
    form: &S,
    parts: &[Value],
    place: usize,
) -> Result<S::Item, WireError>
    ensures said { IfOk result (λ item. IsSaid (part_faults (S.faults form.now) place (map view parts.now))
        (part_said (S.said form.now) place (map view parts.now)) (S.seen item)) }
    ensures refused { IfErr result (IsRefused (part_faults (S.faults form.now) place (map view parts.now))) }
{
    match parts.get(place) {
        Some(value) => within(alloc, place, form.read(alloc, value)),
        None => within(alloc, place, Err(here(alloc))),
    }
}

/// A list whose elements have a form.
#[derive(Drop)]
pub struct EachOf<S> {
    pub element: S,
}

impl<S: SeenForm> SeenForm for EachOf<S> {
    type Item = Items<S::Item>;

    ghost Said = { List S.SeenForm.Said };

    ghost faults = { λ each. list_of_faults (S.SeenForm.faults each.element) };

    ghost said = { λ each. list_said (S.SeenForm.said each.element) };

    ghost seen = { λ items. map S.SeenForm.seen items };

    fn read(&self, alloc: Global, value: &Value) -> Result<Items<S::Item>, WireError> {
        match elements(value) {
            Some(values) => seen_each(alloc, &self.element, values),
            None => Err(here(alloc)),
        }
    }
}

/// The elements of a list.
fn seen_each<S: SeenForm>(
    alloc: Global,
    form: &S,
    values: &[Value],
) -> Result<Items<S::Item>, WireError>
    ensures said { IfOk result (λ items. IsSaid (each_faults (S.faults form.now) 0 (map view values.now))
        (map (S.said form.now) (map view values.now)) (map S.seen items)) }
    ensures refused { IfErr result (IsRefused (each_faults (S.faults form.now) 0 (map view values.now))) }
{
    let mut items = Vec::new(alloc);
    for i in 0..values.len() {
        let item = within(alloc, i, form.read(alloc, &values[i]))?;
        items.push(item)?;
    }
    Ok(Items::from_vec(items))
}
