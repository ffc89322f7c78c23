//! Values in rows.
use kat_num::{Value, print};
use std::alloc::{AllocError, Global};

/// Appends a value after a text.
pub(crate) fn push_value(
    alloc: Global,
    before: &str,
    value: &Value,
    text: &mut Vec<u8>,
) -> Result<(), AllocError> {
    text.extend_from_slice(before.as_bytes())?;
    print(alloc, value, text)
}
