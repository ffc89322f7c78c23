//! Texts of row files: what their escapes stand for, and how bytes are shown as such a text.
use crate::errors::RowError;
use crate::reading::{Entry, find};
use std::alloc::{AllocError, Global};

/// The most bytes of a text.
const TEXT_LIMIT: usize = 33_554_432;

/// The most bytes of a text that are shown.
const SHOWN_LIMIT: usize = 4_000;

/// Appends what a text with escapes stands for: `\n`, `\r`, `\t`, `\\`, a byte `\x0c`, the text with a name `\{NAME}`, and
/// that text that many times `\20{NAME}`.
pub(crate) fn expand(said: &str, named: &[Entry], into: &mut Vec<u8>) -> Result<(), RowError> {
    let mut rest = said;
    for _ in 0..=said.len() {
        match rest.split_once('\\') {
            Some((front, behind)) => {
                into.extend_from_slice(front.as_bytes())?;
                rest = escaped(behind, named, into)?;
            }
            None => {
                into.extend_from_slice(rest.as_bytes())?;
                return Ok(());
            }
        }
    }
    Err(RowError::Damaged("a text has too many escapes"))
}

/// Appends what one escape stands for, and gives what comes after it.
fn escaped<'a>(behind: &'a str, named: &[Entry], into: &mut Vec<u8>) -> Result<&'a str, RowError> {
    let (byte, count) = match behind.as_bytes().first() {
        Some(b'n') => (b'\n', 1),
        Some(b'r') => (b'\r', 1),
        Some(b't') => (b'\t', 1),
        Some(b'\\') => (b'\\', 1),
        Some(b'x') => (byte_of(behind)?, 3),
        _ => return inserted(behind, named, into),
    };
    into.push(byte)?;
    match behind.get(count..) {
        Some(rest) => Ok(rest),
        None => Err(RowError::Damaged("an escape isn't whole")),
    }
}

/// The byte of an escape `x0c`.
fn byte_of(behind: &str) -> Result<u8, RowError> {
    let Some(digits) = behind.get(1..3) else {
        return Err(RowError::Damaged("an escape isn't whole"));
    };
    match u8::from_str_radix(digits, 16) {
        Ok(byte) => Ok(byte),
        Err(_) => Err(RowError::Damaged("a byte isn't two digits")),
    }
}

/// Appends the text that `{NAME}` or `20{NAME}` stands for, and gives what comes after it.
fn inserted<'a>(behind: &'a str, named: &[Entry], into: &mut Vec<u8>) -> Result<&'a str, RowError> {
    let Some((times, name, rest)) = insertion(behind) else {
        return Err(RowError::Damaged("an escape isn't known"));
    };
    let Some(text) = find(named, name) else {
        return Err(RowError::Damaged("no text has the name"));
    };
    repeat(text, times, into)?;
    Ok(rest)
}

/// How often a text is to be appended, its name, and what comes after that.
fn insertion(behind: &str) -> Option<(usize, &str, &str)> {
    let (count, rest) = behind.split_once('{')?;
    let (name, rest) = rest.split_once('}')?;
    let times = if count.is_empty() {
        1
    } else {
        count.parse::<usize>().ok()?
    };
    Some((times, name, rest))
}

/// Appends a text that many times.
fn repeat(text: &[u8], times: usize, into: &mut Vec<u8>) -> Result<(), RowError> {
    for _ in 0..times {
        if into.len() > TEXT_LIMIT {
            return Err(RowError::Damaged("a text is too long"));
        }
        into.extend_from_slice(text)?;
    }
    Ok(())
}

/// Bytes as a row file has them, on one line; of a long text the beginning.
pub(crate) fn shown(alloc: Global, bytes: &[u8]) -> Result<String, AllocError> {
    let mut text = String::new(alloc);
    for byte in bytes.iter().take(SHOWN_LIMIT) {
        push_byte(*byte, &mut text)?;
    }
    if bytes.len() > SHOWN_LIMIT {
        write!(text, " .. {} bytes", bytes.len())?;
    }
    Ok(text)
}

/// Appends a byte as a row file has it.
fn push_byte(byte: u8, text: &mut String) -> Result<(), AllocError> {
    match byte {
        b'\n' => text.push_str("\\n"),
        b'\r' => text.push_str("\\r"),
        b'\t' => text.push_str("\\t"),
        b'\\' => text.push_str("\\\\"),
        32..=126 => text.push(char::from(byte)),
        _ => write!(text, "\\x{byte:02x}"),
    }
}
