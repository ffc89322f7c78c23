//! Forms of the parts of a state file.
ghost use Rattle.std.specs.Prelude.{◌≡◌, IfErr, IfOk, map};
ghost use Rattle.serde_json.specs.View.{view};
ghost use Rattle.kat_json.specs.Parts.{part_said};
ghost use Rattle.kat_json.specs.Refused.{IsRefused, IsSaid};
ghost use Rattle.kat_node.specs.StateForms.{key_value_faults, key_value_of, key_value_said, two_faults, two_parts_faults, two_said, whole_faults, whole_said};

use kat_json::WireError;
use kat_json::forms::{Form, found, here, part, past};
use kat_json::values::{elements, whole};
use kat_json::words::constant;
use kat_num::Value as Constant;
use serde_json::Value;
use std::alloc::Global;
use std::marker::PhantomData;

/// A whole number of 64 bits.
pub(crate) struct Whole;

impl Form for Whole {
    type Item = i128;

    ghost faults = { whole_faults };

    ghost said = { whole_said };

    fn read(alloc: Global, value: &Value) -> Result<i128, WireError> {
        found(alloc, whole(value))
    }
}

/// A key: a whole number of 64 bits or a name.
pub(crate) struct Key;

impl Form for Key {
    type Item = Constant;

    ghost faults = { key_value_faults };

    ghost said = { key_value_said };

    fn read(alloc: Global, value: &Value) -> Result<Constant, WireError> {
        found(alloc, key_value(value))
    }
}

fn key_value(value: &Value) -> Option<Constant>
    ensures { result ≡ key_value_of (view value.now) }
{
    match constant(value) {
        Some(Constant::Num(number)) => Some(Constant::Num(number)),
        Some(Constant::Name(code)) => Some(Constant::Name(code)),
        Some(Constant::Bool(_)) | None => None,
    }
}

/// A list of two values.
pub(crate) struct TwoOf<F, G>(PhantomData<(F, G)>);

impl<F: Form, G: Form> Form for TwoOf<F, G> {
    type Item = (F::Item, G::Item);

    ghost faults = { two_faults F.Form.faults G.Form.faults };

    ghost said = { two_said F.Form.said G.Form.said };

    fn read(alloc: Global, value: &Value) -> Result<(F::Item, G::Item), WireError> {
        match elements(value) {
            Some(parts) => two::<F, G>(alloc, parts),
            None => Err(here(alloc)),
        }
    }
}

/// The parts of a list of two.
fn two<F: Form, G: Form>(alloc: Global, parts: &[Value]) -> Result<(F::Item, G::Item), WireError>
    ensures said { IfOk result (IsSaid (two_parts_faults F.faults G.faults (map view parts.now))
        (part_said F.said 0 (map view parts.now), part_said G.said 1 (map view parts.now))) }
    ensures refused { IfErr result (IsRefused (two_parts_faults F.faults G.faults (map view parts.now))) }
{
    let first = part::<F>(alloc, parts, 0)?;
    let second = part::<G>(alloc, parts, 1)?;
    past(alloc, parts, 2)?;
    Ok((first, second))
}
