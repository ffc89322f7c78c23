//! The body of a design file: components and asks.
ghost use Rattle.std.specs.Prelude.{List, IfErr, IfOk, None, Some, map};
ghost use Rattle.kat_design.specs.Designs.{AskForm, ComponentForm, ask_form, component_form};
ghost use Rattle.serde_json.specs.View.{view};
ghost use Rattle.kat_design_json.specs.DesignFaults.{design_faults, design_parts_faults};
ghost use Rattle.kat_json.specs.FormFaults.{part_faults};
ghost use Rattle.kat_design_json.specs.DesignParts.{body_said, body_parts_said};
ghost use Rattle.kat_json.specs.Parts.{part_said};
ghost use Rattle.kat_json.specs.Refused.{IsRefused, IsSaid};

use crate::asks::AnyAsk;
use crate::components::AnyComponent;
use kat_design::{Ask, Component};
use kat_json::WireError;
use kat_json::forms::{here, past};
use kat_json::seen::{EachOf, SeenForm, seen_part};
use kat_json::values::elements;
use kat_num::Items;
use serde_json::Value;
use std::alloc::Global;

/// The body of a design: a list of components and one of asks.
pub struct DesignBody;

impl SeenForm for DesignBody {
    type Item = (Items<Component>, Items<Ask>);

    ghost Said = { List ComponentForm × List AskForm };

    ghost faults = { λ _. design_faults };

    ghost said = { λ _. body_said };

    ghost seen = { λ body. (map component_form body.0, map ask_form body.1) };

    fn read(
        &self,
        alloc: Global,
        value: &Value,
    ) -> Result<(Items<Component>, Items<Ask>), WireError> {
        body(alloc, value)
    }
}

/// A list of components and one of asks.
fn body(alloc: Global, value: &Value) -> Result<(Items<Component>, Items<Ask>), WireError>
    ensures said { IfOk result (λ body. IsSaid (design_faults (view value.now)) (body_said (view value.now))
        (map component_form body.0, map ask_form body.1)) }
    ensures refused { IfErr result (IsRefused (design_faults (view value.now))) }
{
    match elements(value) {
        Some(parts) => body_of_parts(alloc, parts),
        None => Err(here(alloc)),
    }
}

fn body_of_parts(
    alloc: Global,
    parts: &[Value],
) -> Result<(Items<Component>, Items<Ask>), WireError>
    ensures said { IfOk result (λ body. IsSaid (design_parts_faults (map view parts.now)) (body_parts_said (map view parts.now))
        (map component_form body.0, map ask_form body.1)) }
    ensures refused { IfErr result (IsRefused (design_parts_faults (map view parts.now))) }
{
    let components = seen_part(
        alloc,
        &EachOf {
            element: AnyComponent,
        },
        parts,
        0,
    )?;
    let asks = seen_part(alloc, &EachOf { element: AnyAsk }, parts, 1)?;
    past(alloc, parts, 2)?;
    Ok((components, asks))
}
