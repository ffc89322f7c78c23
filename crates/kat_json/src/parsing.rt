//! The value of a JSON text.
ghost use Rattle.std.specs.Prelude.{IfErr, IfOk, ◌≡◌, [], None, Some, map};
ghost use Rattle.serde_json.specs.View.{view};
ghost use Rattle.kat_json.specs.Texts.{IsJson, IsUnread};
ghost use Rattle.serde_json.specs.Errors.{IsMemory};
ghost use Rattle.kat_json.specs.declared.errors.WireError.TheVariants.{Json, Memory};
ghost use Rattle.kat_json.specs.Lists.{elements_of};

use crate::errors::WireError;
use crate::values::elements;
use serde_json::Value;
use std::alloc::Global;

/// The value of a JSON text.
pub fn parsed(alloc: Global, bytes: &[u8]) -> Result<Value, WireError>
    ensures json { IfOk result (λ value. IsJson bytes.now (view value)) }
    ensures refused { IfErr result (IsUnread bytes.now) }
{
    match Value::from_slice(alloc, bytes) {
        Ok(value) => Ok(value),
        Err(error) => Err(json_error(&error)),
    }
}

/// What the error of a JSON text is here.
fn json_error(error: &serde_json::Error) -> WireError
    ensures memory { IsMemory error.now → result ≡ Memory }
    ensures json { (IsMemory error.now → ⊥) → result ≡ Json }
{
    if error.is_memory() {
        WireError::Memory
    } else {
        WireError::Json
    }
}

/// The elements of a value; what is no list has none.
pub fn elements_of(value: &Value) -> &[Value]
    ensures { map view result.now ≡ elements_of (view value.now) }
{
    match elements(value) {
        Some(elements) => elements,
        None => &[],
    }
}
