//! Names are carried as codes: the bytes of a name, padded at the end with zero bytes to 15, read as
//! one big-endian number. So codes are ordered as names are bytewise, and the empty name has code 0.
ghost use Rattle.std.specs.Prelude.{◌≡◌, ℕ, ◌/◌, ◌%◌, ◌^◌, ◌<◌, ◌≤◌, length, IfOk, MatchOption};
ghost use Rattle.std.specs.List.{list_all};
ghost use Rattle.std.specs.Option.{SomeIff};
ghost use Rattle.kat_num.specs.Bytes.{is_name_byte};
ghost use Rattle.kat_num.specs.Names.{IsName, IsNameCode, code_of, name_of_code};

use crate::bytes::is_name_byte;
use std::alloc::{AllocError, Global};

/// The greatest number of bytes of a name, and of a word.
pub const NAME_LIMIT: usize = 15;

/// The code of the bytes, or `None` if they are no name.
pub fn code(bytes: &[u8]) -> Option<u128>
    ensures { SomeIff result (IsName bytes.now) (code_of bytes.now) }
{
    if bytes.len() <= NAME_LIMIT && are_name_bytes(bytes) {
        Some(code_of(bytes))
    } else {
        None
    }
}

/// Whether each byte is one of names.
fn are_name_bytes(bytes: &[u8]) -> bool
    ensures { result ≡ list_all is_name_byte bytes.now }
{
    bytes.iter().all(|byte| is_name_byte(*byte))
}

/// The code of bytes that are known to be few enough.
pub fn code_of(bytes: &[u8]) -> u128
    requires { length bytes.now ≤ NAME_LIMIT }
    ensures { result ≡ code_of bytes.now }
{
    let mut code: u128 = 0;
    for byte in bytes {
        code = code * 256 + u128::from(*byte);
    }
    code << (8 * (NAME_LIMIT - bytes.len()))
}

/// The name with this code, or `None` if no name has it.
pub fn name_of(alloc: Global, code: u128) -> Result<Option<Vec<u8>>, AllocError>
    ensures { IfOk result (λ answer. MatchOption answer (IsNameCode code → ⊥)
        (λ name. IsName name.items × (code_of name.items ≡ code))) }
{
    let name = bytes_of(alloc, code)?;
    if crate::code(&name) == Some(code) {
        Ok(Some(name))
    } else {
        Ok(None)
    }
}

/// The bytes of the code before its padding: the name, if some name has the code.
pub fn bytes_of(alloc: Global, code: u128) -> Result<Vec<u8>, AllocError>
    ensures { IfOk result (λ name. name.items ≡ name_of_code code) }
{
    let mut name = Vec::with_capacity(alloc, NAME_LIMIT)?;
    let mut left = NAME_LIMIT;
    while left > 0 {
        let byte = byte_at(code, left - 1);
        if byte == 0 {
            return Ok(name);
        }
        name.push(byte)?;
        left -= 1;
    }
    Ok(name)
}

/// The byte of the number that has this many lower bytes below it.
fn byte_at(number: u128, place: usize) -> u8
    requires { place < NAME_LIMIT }
    ensures { result ≡ number / 256 ^ place % 256 }
{
    ((number >> (8 * place)) % 256) as u8
}
