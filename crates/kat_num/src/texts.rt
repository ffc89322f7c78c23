//! How values are printed.
ghost use Rattle.std.specs.Prelude.{◌≡◌, ◌++◌, OnOk, OnErr};
ghost use Rattle.kat_num.specs.Values.{value_text};

use crate::names::bytes_of;
use crate::values::Value;
use itoa::Buffer;
use std::alloc::{AllocError, Global};

/// Appends the text of the value: `true` or `false`, a decimal, or the name between double quotes.
/// If memory runs out, the bytes stay as they were.
pub fn print(alloc: Global, value: &Value, into: &mut Vec<u8>) -> Result<(), AllocError>
    ensures ok { OnOk result (into.new.items ≡ into.old.items ++ value_text value.now) }
    ensures err { OnErr result (into.new.items ≡ into.old.items) }
{
    match *value {
        Value::Bool(true) => into.extend_from_slice(b"true"),
        Value::Bool(false) => into.extend_from_slice(b"false"),
        Value::Num(number) => into.extend_from_slice(Buffer::new().format(number).as_bytes()),
        Value::Name(code) => {
            let mut text = Vec::from_slice(alloc, b"\"")?;
            text.extend_from_slice(&bytes_of(alloc, code)?)?;
            text.extend_from_slice(b"\"")?;
            into.extend_from_slice(&text)
        }
    }
}
