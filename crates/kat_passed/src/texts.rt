//! Bytes that must be text.
ghost use Rattle.std.specs.Prelude.{◌≡◌, IfOk, IsUtf8, MatchOption, string_bytes};

use std::alloc::{AllocError, Global};
use std::str::from_utf8;

/// The text that bytes are, or none if they are none.
pub(crate) fn text_of(alloc: Global, bytes: &[u8]) -> Result<Option<String>, AllocError>
    ensures { IfOk result (λ found. MatchOption found (IsUtf8 bytes.now → ⊥) (λ text. string_bytes text ≡ bytes.now)) }
{
    match from_utf8(bytes) {
        Ok(text) => Ok(Some(String::from_str(alloc, text)?)),
        Err(_) => Ok(None),
    }
}
