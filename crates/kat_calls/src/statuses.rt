//! Rows of statuses: the code and the line of each way in which a call ends.
use crate::calling::push_words;
use kat_cli::{At, Refusal, Status, status_text};
use kat_num::Items;
use kat_table::{Answers, Row, RowError, Table, numbers_of, push_number, str_of};
use std::alloc::{AllocError, Global};

/// The code of a status, a blank, and its line after a call of the table's words.
pub(crate) fn status_answers(alloc: Global, table: &Table, row: &Row) -> Result<Answers, RowError> {
    let words = str_of(table, row, "words")?;
    let said = str_of(table, row, "status")?;
    let (name, numbers) = said.split_once(' ').unwrap_or((said, ""));
    let numbers = numbers_of(alloc, numbers.split_whitespace())?;
    named(alloc, words, name, &numbers)
}

/// What is reported of the status with a name and numbers.
fn named(alloc: Global, words: &str, name: &str, numbers: &[u32]) -> Result<Answers, RowError> {
    match status_of(alloc, name, numbers)? {
        Some(status) => Ok(told(alloc, words, &status)?),
        None => Err(RowError::Damaged("a status isn't known")),
    }
}

/// What is said of a status after a call of these words.
fn told(alloc: Global, words: &str, status: &Status) -> Result<Answers, AllocError> {
    let mut text = Vec::new(alloc);
    push_number(&mut text, "", status.code())?;
    text.push(b' ')?;
    push_line(alloc, words, status, &mut text)?;
    Answers::one(alloc, "words status", text)
}

/// Appends the line of a status after a call of these words.
fn push_line(
    alloc: Global,
    words: &str,
    status: &Status,
    text: &mut Vec<u8>,
) -> Result<(), AllocError> {
    let mut said = Vec::new(alloc);
    push_words(alloc, words, &mut said)?;
    text.extend_from_slice(&status_text(alloc, &said, status)?)
}

/// The status with a name and numbers. The name of a refusal is its place's; its numbers are those of the file and of the rule, and
/// then those of the place.
fn status_of(alloc: Global, name: &str, numbers: &[u32]) -> Result<Option<Status>, AllocError> {
    match numbers {
        [] => Ok(plain(name)),
        [file, number, at @ ..] if name != "ProofRefused" => {
            match place_of(alloc, name, at)? {
                Some(at) => Ok(refused(*file, *number, at)),
                None => Ok(None),
            }
        }
        _ => Ok(numbered(name, numbers)),
    }
}

/// The status with a name and no numbers.
fn plain(name: &str) -> Option<Status> {
    match name {
        "Done" => Some(Status::Done),
        "Usage" => Some(Status::Usage),
        "NoDesign" => Some(Status::NoDesign),
        "Undecided" => Some(Status::Undecided),
        "Stopped" => Some(Status::Stopped),
        "Memory" => Some(Status::Memory),
        "WriteFault" => Some(Status::WriteFault),
        _ => None,
    }
}

/// The status with a name and one number, or two.
fn numbered(name: &str, numbers: &[u32]) -> Option<Status> {
    match (name, numbers) {
        ("ReadFault", [file]) => Some(Status::ReadFault { file: *file }),
        ("ProofRefused", [condition, line]) => Some(Status::ProofRefused {
            condition: *condition,
            line: *line,
        }),
        _ => None,
    }
}

/// A file is refused by a rule, at a place.
fn refused(file: u32, number: u32, at: At) -> Option<Status> {
    let number = u8::try_from(number).ok()?;
    let refusal = Refusal { number, at };
    Some(Status::Refused { file, refusal })
}

/// The place with a name and numbers.
fn place_of(alloc: Global, name: &str, numbers: &[u32]) -> Result<Option<At>, AllocError> {
    if name == "Place" {
        let indices = Vec::from_slice(alloc, numbers)?;
        return Ok(Some(At::Place(Items::from_vec(indices))));
    }
    Ok(flat_place(name, numbers))
}

/// The place with a name and numbers that isn't in nested lists.
fn flat_place(name: &str, numbers: &[u32]) -> Option<At> {
    match (name, numbers) {
        ("Byte", [byte]) => Some(At::Byte(*byte as usize)),
        ("Line", [line]) => Some(At::Line(u64::from(*line))),
        ("Late", [line, clock]) => Some(At::Late {
            line: u64::from(*line),
            clock: u64::from(*clock),
        }),
        ("Gap", [line, origin, have, need]) => Some(At::Gap {
            line: u64::from(*line),
            origin: *origin,
            have: u64::from(*have),
            need: u64::from(*need),
        }),
        ("Length", []) => Some(At::Length),
        _ => None,
    }
}
