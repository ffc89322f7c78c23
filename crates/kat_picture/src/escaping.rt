//! Texts inside of SVG.
ghost use Rattle.std.specs.Prelude.{◌≡◌, ◌++◌, OnOk};
ghost use Rattle.kat_picture.specs.Escaping.{escaped, escaped_byte, is_plain};

use itoa::Buffer;
use kat_num::is_name_byte;
use std::alloc::AllocError;

/// Whether a byte stands for itself: a digit, a letter, `_`, `.`, `-`, a blank or `=`.
fn is_plain(byte: u8) -> bool
    ensures { result ≡ is_plain byte }
{
    is_name_byte(byte) || byte == b' ' || byte == b'='
}

/// Appends a text in which each byte but digits, letters, `_`, `.`, `-`, blanks and `=` is a character reference, by its number.
pub fn push_escaped(text: &[u8], into: &mut Vec<u8>) -> Result<(), AllocError>
    ensures { OnOk result (into.new.items ≡ into.old.items ++ escaped text.now) }
{
    for byte in text {
        push_byte(*byte, into)?;
    }
    Ok(())
}

fn push_byte(byte: u8, into: &mut Vec<u8>) -> Result<(), AllocError>
    ensures { OnOk result (into.new.items ≡ into.old.items ++ escaped_byte byte) }
{
    if is_plain(byte) {
        return into.extend_from_slice(&[byte]);
    }
    into.extend_from_slice(b"&#")?;
    into.extend_from_slice(Buffer::new().format(byte).as_bytes())?;
    into.extend_from_slice(b";")
}
