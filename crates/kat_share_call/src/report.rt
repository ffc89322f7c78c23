//! The line on standard error that says how a call ended.

use crate::status::{At, Status};
use crate::words::read_words;
use itoa::Buffer;
use std::alloc::{AllocError, Global};

/// The number of the file of the first packet.
const FIRST_PACKET: u32 = 3;

/// The line that is printed on standard error, with a newline at its end, and nothing for `Done`: that of `katara` for the same
/// end; for a gap the path of the packet.
pub fn status_text(
    alloc: Global,
    words: &[String],
    status: &Status,
) -> Result<Vec<u8>, AllocError> {
    let mut text = Vec::new(alloc);
    push_status(alloc, words, status, &mut text)?;
    Ok(text)
}

/// Appends the line of a status.
fn push_status(
    alloc: Global,
    words: &[String],
    status: &Status,
    into: &mut Vec<u8>,
) -> Result<(), AllocError> {
    match status {
        Status::Done => Ok(()),
        Status::Usage => into.extend_from_slice(b"usage\n"),
        Status::ReadFault { file } => {
            into.extend_from_slice(b"read fault: ")?;
            push_path(alloc, words, *file, into)?;
            into.extend_from_slice(b"\n")
        }
        Status::Refused { file, number, at } => {
            push_path(alloc, words, *file, into)?;
            into.extend_from_slice(b": ")?;
            push_number(refusal_name(*number), u64::from(*number), into)?;
            push_at(at, into)?;
            into.extend_from_slice(b"\n")
        }
        Status::Gap { packet } => {
            push_path(alloc, words, packet.saturating_add(FIRST_PACKET), into)?;
            into.extend_from_slice(b": gap\n")
        }
        Status::Memory => into.extend_from_slice(b"out of memory\n"),
        Status::WriteFault => into.extend_from_slice(b"write fault\n"),
    }
}

/// Appends the path of a file by its number.
fn push_path(
    alloc: Global,
    words: &[String],
    file: u32,
    into: &mut Vec<u8>,
) -> Result<(), AllocError> {
    match read_words(alloc, words)? {
        Some(request) => match request.paths.get(file as usize) {
            Some(path) => into.extend_from_slice(path.as_bytes()),
            None => Ok(()),
        },
        None => Ok(()),
    }
}

/// Appends where a file is refused.
fn push_at(at: &At, into: &mut Vec<u8>) -> Result<(), AllocError> {
    match at {
        At::Byte(byte) => push_number(b" at byte ", *byte as u64, into),
        At::Line(line) => push_number(b" at line ", *line, into),
        At::Place(place) => {
            into.extend_from_slice(b" at ")?;
            push_place(place.as_slice(), into)
        }
        At::Within { line, place } => {
            push_number(b" at line ", *line, into)?;
            into.extend_from_slice(b" place ")?;
            push_place(place.as_slice(), into)
        }
        At::Length => Ok(()),
    }
}

/// Appends a place: the indices that lead to it.
fn push_place(indices: &[u32], into: &mut Vec<u8>) -> Result<(), AllocError> {
    match indices {
        [] => into.extend_from_slice(b"top"),
        [first, rest @ ..] => {
            push_number(b"", u64::from(*first), into)?;
            push_points(rest, into)
        }
    }
}

/// Appends indices, each after a point.
fn push_points(indices: &[u32], into: &mut Vec<u8>) -> Result<(), AllocError> {
    for index in indices {
        push_number(b".", u64::from(*index), into)?;
    }
    Ok(())
}

/// Appends a text and then a number.
fn push_number(text: &[u8], number: u64, into: &mut Vec<u8>) -> Result<(), AllocError> {
    into.extend_from_slice(text)?;
    into.extend_from_slice(Buffer::new().format(number).as_bytes())
}

/// The name of a refusal by its number, with a blank after it.
fn refusal_name(number: u8) -> &'static [u8] {
    match number {
        1 => b"BadByte ",
        2 => b"LongName ",
        3 => b"LongNumber ",
        10 => b"Syntax ",
        14 => b"BadCall ",
        15 => b"TooLarge ",
        16 => b"BadDesign ",
        17 => b"Json ",
        18 => b"Form ",
        19 => b"Version ",
        20 => b"FileLong ",
        28 => b"BadState ",
        29 => b"FullState ",
        _ => b"Refused ",
    }
}
