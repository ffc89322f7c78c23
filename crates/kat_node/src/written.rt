//! Which values a file can have, judged without memory.
ghost use Rattle.std.specs.Prelude.{◌≡◌, ◌≤◌, ◌%◌, ◌/◌, ◌^◌, ◌<◌, ◌==◌, ◌&&◌, length, take};
ghost use Rattle.std.specs.List.{list_all};
ghost use Rattle.kat_num.specs.Bytes.{is_name_byte};
ghost use Rattle.kat_num.specs.Names.{code_of, name_of_code};
ghost use Rattle.kat_design.specs.Faults.{is_name_code, is_written};

use kat_num::{NAME_LIMIT, Value, code_of, is_name_byte};

/// The least number that a file can have.
const LEAST: i128 = -0x8000_0000_0000_0000;

/// The least number that a file can't have.
const PAST: i128 = 0x1_0000_0000_0000_0000;

/// Whether a file can have the value: a number of 64 bits with or without a sign, a name, or a truth value.
pub(crate) fn is_written(value: Value) -> bool
    ensures { result ≡ is_written value }
{
    match value {
        Value::Bool(_) => true,
        Value::Num(number) => LEAST <= number && number < PAST,
        Value::Name(code) => is_name_code(code),
    }
}

/// Whether the code is that of a name.
fn is_name_code(code: u128) -> bool
    ensures { result ≡ is_name_code code }
{
    let mut room = [0; NAME_LIMIT];
    let length = spell(code, &mut room);
    is_name_with(&room[..length], code)
}

/// Whether these bytes are a name with the code.
fn is_name_with(name: &[u8], code: u128) -> bool
    requires { length name.now ≤ NAME_LIMIT }
    ensures { result ≡ (list_all is_name_byte name.now && (code_of name.now == code)) }
{
    are_name_bytes(name) && code_of(name) == code
}

/// Whether each byte is one of names.
fn are_name_bytes(bytes: &[u8]) -> bool
    ensures { result ≡ list_all is_name_byte bytes.now }
{
    bytes.iter().all(|byte| is_name_byte(*byte))
}

/// Writes the name with this code, and gives its length.
pub(crate) fn spell(code: u128, room: &mut [u8; NAME_LIMIT]) -> usize
    ensures fits { result ≤ NAME_LIMIT }
    ensures name { take result room.new ≡ name_of_code code }
{
    let mut left = NAME_LIMIT;
    'bytes: while left > 0 {
        let byte = byte_at(code, left - 1);
        if byte == 0 {
            return NAME_LIMIT - left;
        }
        room[NAME_LIMIT - left] = byte;
        left -= 1;
    }
    NAME_LIMIT
}

/// The byte of the number that has this many lower bytes below it.
fn byte_at(number: u128, place: usize) -> u8
    requires { place < NAME_LIMIT }
    ensures { result ≡ number / 256 ^ place % 256 }
{
    ((number >> (8 * place)) % 256) as u8
}
