//! What a report says. Nothing is promised of its words.

use itoa::Buffer;
use kat_num::bytes_of;
use kat_parts::Part;
use kat_type::{Field, SeqType};
use std::alloc::{AllocError, Global};

/// The first line.
pub(crate) fn begun(alloc: Global) -> Result<Vec<u8>, AllocError> {
    let mut text = Vec::new(alloc);
    text.extend_from_slice(b"No design was found.\n")?;
    Ok(text)
}

/// Appends which fields are in a part.
pub(crate) fn push_part(
    alloc: Global,
    ty: &SeqType,
    part: &Part,
    into: &mut Vec<u8>,
) -> Result<(), AllocError> {
    into.extend_from_slice(b"\nPart:")?;
    for number in &part.fields {
        into.extend_from_slice(b" ")?;
        push_name(alloc, ty, *number, into)?;
    }
    into.extend_from_slice(b"\n")
}

/// Appends the name of a field.
fn push_name(
    alloc: Global,
    ty: &SeqType,
    number: u32,
    into: &mut Vec<u8>,
) -> Result<(), AllocError> {
    match ty.fields.as_slice().get(number as usize) {
        None => Ok(()),
        Some(Field::Plain { name, .. }) => push_word(alloc, *name, into),
        Some(Field::Keyed { name, .. }) => push_word(alloc, *name, into),
    }
}

/// Appends a word by its code.
pub(crate) fn push_word(alloc: Global, code: u128, into: &mut Vec<u8>) -> Result<(), AllocError> {
    let bytes = bytes_of(alloc, code)?;
    into.extend_from_slice(&bytes)
}

/// Appends a number.
pub(crate) fn push_number(number: i128, into: &mut Vec<u8>) -> Result<(), AllocError> {
    into.extend_from_slice(Buffer::new().format(number).as_bytes())
}

/// Appends that a part has a design.
pub(crate) fn push_found(into: &mut Vec<u8>) -> Result<(), AllocError> {
    into.extend_from_slice(b"It has a design.\n")
}

/// Appends that a part has no type of its own.
pub(crate) fn push_refused(into: &mut Vec<u8>) -> Result<(), AllocError> {
    into.extend_from_slice(b"It can't be written as a type of its own.\n")
}

/// Appends that the parts' designs don't make one for the whole.
pub(crate) fn push_whole(into: &mut Vec<u8>) -> Result<(), AllocError> {
    into.extend_from_slice(b"\nTogether they are too large for a design, or aren't proved.\n")
}

/// Appends with which further queries a part has a design, by their lines.
pub(crate) fn push_helped(lines: &[Vec<u8>], into: &mut Vec<u8>) -> Result<(), AllocError> {
    into.extend_from_slice(if lines.len() == 1 {
        b"With this query in the type it has a design:\n"
    } else {
        b"With these queries in the type it has a design:\n"
    })?;
    for line in lines {
        into.extend_from_slice(b"  ")?;
        into.extend_from_slice(line)?;
    }
    Ok(())
}

/// Appends the text of a type for which a design is found.
pub(crate) fn push_type(text: &[u8], into: &mut Vec<u8>) -> Result<(), AllocError> {
    into.extend_from_slice(b"\nFor this type a design is found:\n\n")?;
    into.extend_from_slice(text)
}

/// Appends where to read on.
pub(crate) fn push_end(into: &mut Vec<u8>) -> Result<(), AllocError> {
    into.extend_from_slice(
        b"\ndocs/DESIGNS.md says what has no design, and for what `find` has no rule, and what to write in its place.\n",
    )
}
