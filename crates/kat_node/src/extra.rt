//! Parts of a state file past the components of its design: their form alone.
ghost use Rattle.std.specs.Prelude.{◌≡◌, [], IfErr, IfOk, map};
ghost use Rattle.kat_design.specs.Faults.{each_faults};
ghost use Rattle.serde_json.specs.View.{view};
ghost use Rattle.kat_json.specs.Refused.{IsRefused};
ghost use Rattle.kat_node.specs.StateForms.{any_faults, extra_faults, extra_parts_faults};

use kat_json::WireError;
use kat_json::forms::{here, within};
use kat_json::values::elements;
use kat_json::words::constant;
use serde_json::Value;
use std::alloc::Global;

/// Judges the parts from a place on.
pub(crate) fn extra_parts(alloc: Global, count: usize, values: &[Value]) -> Result<(), WireError>
    ensures done { IfOk result (λ _. extra_parts_faults count (map view values.now) ≡ []) }
    ensures refused { IfErr result (IsRefused (extra_parts_faults count (map view values.now))) }
{
    for i in count..values.len() {
        within(alloc, i, extra(alloc, &values[i]))?;
    }
    Ok(())
}

/// Judges a part.
fn extra(alloc: Global, value: &Value) -> Result<(), WireError>
    ensures done { IfOk result (λ _. extra_faults (view value.now) ≡ []) }
    ensures refused { IfErr result (IsRefused (extra_faults (view value.now))) }
{
    match elements(value) {
        Some(values) => list(alloc, values),
        None => Err(here(alloc)),
    }
}

/// Judges a value, or a list of such.
#[cycle(any)]
fn any(alloc: Global, value: &Value) -> Result<(), WireError>
    ensures done { IfOk result (λ _. any_faults (view value.now) ≡ []) }
    ensures refused { IfErr result (IsRefused (any_faults (view value.now))) }
{
    match elements(value) {
        Some(values) => list(alloc, values),
        None => match constant(value) {
            Some(_) => Ok(()),
            None => Err(here(alloc)),
        },
    }
}

/// Judges the values of a list.
#[cycle(any)]
fn list(alloc: Global, values: &[Value]) -> Result<(), WireError>
    ensures done { IfOk result (λ _. each_faults any_faults 0 (map view values.now) ≡ []) }
    ensures refused { IfErr result (IsRefused (each_faults any_faults 0 (map view values.now))) }
{
    for i in 0..values.len() {
        within(alloc, i, any(alloc, &values[i]))?;
    }
    Ok(())
}
