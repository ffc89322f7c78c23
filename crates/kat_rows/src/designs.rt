//! Rows of design files.
ghost use Rattle.std.specs.Prelude.{◌≡◌, []};
ghost use Rattle.kat_design.specs.Designs.{design_form};
ghost use Rattle.kat_design.specs.Faults.{faults_of};
ghost use Rattle.kat_design_json.specs.Signatures.{IsSignature};
ghost use Rattle.kat_wire.specs.FileForms.{AreOfVersion, HaveNoZero, IsVersion, file_form};

use kat_design::{Design, size};
use kat_table::{Answers, Row, RowError, Table, number_of, push_number, str_of, text_of};
use kat_wire::{Cause, DesignFile, WireError, design_text, read_file, write_file};
use std::alloc::{AllocError, Global};

/// What a row takes.
const INPUTS: &str = "text earlier";

/// `read`, or the refusal with its number and place; and if asked, the design, its size, and the file as it is written.
pub(crate) fn design_answers(alloc: Global, table: &Table, row: &Row) -> Result<Answers, RowError> {
    let text = text_of(table, row, "text")?;
    let earlier = earlier_in(alloc, table, row)?;
    judged(alloc, text, &earlier)
}

/// The results of a text that must be a design file, which is written with these earlier designs.
fn judged(alloc: Global, text: &[u8], earlier: &[(u64, Cause)]) -> Result<Answers, RowError> {
    match read_file(alloc, text) {
        Ok(file) => Ok(read_answers(alloc, &file, earlier)?),
        Err(error) => Ok(Answers::one(alloc, INPUTS, refusal_text(alloc, &error)?)?),
    }
}

/// The earlier designs with which a file is written: those of the row, if it has any.
fn earlier_in(alloc: Global, table: &Table, row: &Row) -> Result<Vec<(u64, Cause)>, RowError> {
    let mut earlier = Vec::new(alloc);
    if text_of(table, row, "earlier").is_ok() {
        push_earlier(str_of(table, row, "earlier")?, &mut earlier)?;
    }
    Ok(earlier)
}

/// Appends designs, each a number with a cause, with commas between them.
fn push_earlier(said: &str, earlier: &mut Vec<(u64, Cause)>) -> Result<(), RowError> {
    for one in said.split(", ") {
        let Some((number, cause)) = one.split_once(' ') else {
            return Err(RowError::Damaged("an earlier design has no cause"));
        };
        earlier.push((number_of(number)?, cause_of(cause)?))?;
    }
    Ok(())
}

/// The cause that a word names.
fn cause_of(word: &str) -> Result<Cause, RowError> {
    match word {
        "open" => Ok(Cause::OpenCert),
        "spent" => Ok(Cause::Spent),
        "rows" => Ok(Cause::Rows),
        "wide" => Ok(Cause::Wide),
        "long" => Ok(Cause::Long),
        _ => Err(RowError::Damaged("a cause isn't known")),
    }
}

/// The results of a file that is read.
fn read_answers(
    alloc: Global,
    file: &DesignFile,
    earlier: &[(u64, Cause)],
) -> Result<Answers, AllocError>
    requires signature { IsSignature file.now.design.sig }
    requires accepted { faults_of (design_form file.now.design) ≡ [] }
    requires literals { HaveNoZero (file_form file.now).proof }
    requires version { IsVersion file.now.version }
    requires lines { AreOfVersion file.now.version (file_form file.now).proof }
{
    let mut answers = Answers::one(alloc, INPUTS, Vec::from_slice(alloc, b"read")?)?;
    add_texts(alloc, file, earlier, &mut answers)?;
    Ok(answers)
}

/// Adds the design of a file, its size, and the file as it is written.
fn add_texts(
    alloc: Global,
    file: &DesignFile,
    earlier: &[(u64, Cause)],
    answers: &mut Answers,
) -> Result<(), AllocError>
    requires signature { IsSignature file.now.design.sig }
    requires accepted { faults_of (design_form file.now.design) ≡ [] }
    requires literals { HaveNoZero (file_form file.now).proof }
    requires version { IsVersion file.now.version }
    requires lines { AreOfVersion file.now.version (file_form file.now).proof }
{
    answers.add_other("design", design_text(alloc, &file.design)?)?;
    answers.add_other("size", size_text(alloc, &file.design)?)?;
    answers.add_other("written", write_file(alloc, file, earlier)?)
}

/// The size of a design.
fn size_text(alloc: Global, design: &Design) -> Result<Vec<u8>, AllocError> {
    let mut text = Vec::new(alloc);
    push_number(&mut text, "", size(design))?;
    Ok(text)
}

/// Why a file is refused, with the number of the refusal and the place.
fn refusal_text(alloc: Global, error: &WireError) -> Result<Vec<u8>, AllocError> {
    match error {
        WireError::Json => Vec::from_slice(alloc, b"refused 17"),
        WireError::Form(place) => place_text(alloc, "refused 18 at ", place.as_slice()),
        WireError::Version => Vec::from_slice(alloc, b"refused 19"),
        WireError::BadDesign(place) => place_text(alloc, "refused 16 at ", place.as_slice()),
        WireError::Memory => Err(AllocError),
    }
}

/// A place after a text: `3.0.1`, or `top`.
fn place_text(alloc: Global, before: &str, place: &[u32]) -> Result<Vec<u8>, AllocError> {
    let mut text = Vec::from_slice(alloc, before.as_bytes())?;
    push_place(place, &mut text)?;
    Ok(text)
}

/// Appends a place.
fn push_place(place: &[u32], text: &mut Vec<u8>) -> Result<(), AllocError> {
    if place.is_empty() {
        return text.extend_from_slice(b"top");
    }
    let mut dot = "";
    for index in place {
        push_number(text, dot, *index)?;
        dot = ".";
    }
    Ok(())
}
