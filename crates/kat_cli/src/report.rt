//! The line on standard error that says how a call ended.
ghost use Rattle.std.specs.Prelude.{◌≡◌, ◌++◌, ◌∷◌, codes, map, IfOk, OnOk};
ghost use Rattle.std.specs.List.{flat_map};
ghost use Rattle.std.specs.Fmt.{decimal};
ghost use Rattle.kat_cli.specs.Texts.{at_text, counts_text, path_at, place_text, refusal_name, refusal_text, status_line};
ghost use Rattle.kat_words.specs.Words.{paths_of, texts};

use crate::status::{At, Refusal, Status};
use itoa::Buffer;
use kat_words::read_words;
use std::alloc::{AllocError, Global};

/// The line that is printed on standard error, with a newline at its end, and nothing for `Done`. The words
/// are those of the call; a file is named by its path among them.
pub fn status_text(alloc: Global, words: &[String], status: &Status) -> Result<Vec<u8>, AllocError>
    ensures { IfOk result (λ text. text.items ≡ status_line (paths_of (texts words.now)) status.now) }
{
    let paths = paths_of(alloc, words)?;
    let mut text = Vec::new(alloc);
    push_status(&paths, status, &mut text)?;
    Ok(text)
}

/// The paths of the files that the words name, or none if they ask for no command.
fn paths_of<'a>(alloc: Global, words: &'a [String]) -> Result<Vec<&'a str>, AllocError>
    ensures { IfOk result (λ paths. map (λ path. path.now) paths.items ≡ paths_of (texts words.now)) }
{
    match read_words(alloc, words)? {
        Some(request) => Ok(request.paths),
        None => Ok(Vec::new(alloc)),
    }
}

/// Appends the line of a status.
fn push_status(paths: &[&str], status: &Status, into: &mut Vec<u8>) -> Result<(), AllocError>
    ensures { OnOk result (into.new.items ≡ into.old.items ++ status_line (map (λ path. path.now) paths.now) status.now) }
{
    match status {
        Status::Done => Ok(()),
        Status::Usage => into.extend_from_slice(b"usage\n"),
        Status::ReadFault { file } => push_fault(path_at(paths, *file), into),
        Status::Refused { file, refusal } => push_refused(path_at(paths, *file), refusal, into),
        Status::NoDesign => into.extend_from_slice(b"no design\n"),
        Status::Undecided => into.extend_from_slice(b"undecided\n"),
        Status::Stopped => into.extend_from_slice(b"stopped\n"),
        Status::Memory => into.extend_from_slice(b"out of memory\n"),
        Status::WriteFault => into.extend_from_slice(b"write fault\n"),
        Status::ProofRefused { condition, line } => push_proof_refused(*condition, *line, into),
    }
}

/// The path of a file by its number, and no text if there is none.
fn path_at<'a>(paths: &[&'a str], file: u32) -> &'a str
    ensures { result.now ≡ path_at (map (λ path. path.now) paths.now) file }
{
    match paths.get(file as usize) {
        Some(path) => path,
        None => "",
    }
}

/// Appends `read fault: PATH` and a newline.
fn push_fault(path: &str, into: &mut Vec<u8>) -> Result<(), AllocError>
    ensures { OnOk result (into.new.items ≡ into.old.items ++ codes "read fault: " ++ path.now ++ codes "\n") }
{
    into.extend_from_slice(b"read fault: ")?;
    into.extend_from_slice(path.as_bytes())?;
    into.extend_from_slice(b"\n")
}

/// Appends `PATH: ` with the refusal and a newline.
fn push_refused(path: &str, refusal: &Refusal, into: &mut Vec<u8>) -> Result<(), AllocError>
    ensures { OnOk result (into.new.items ≡ into.old.items ++ path.now ++ codes ": " ++ refusal_text refusal.now ++ codes "\n") }
{
    into.extend_from_slice(path.as_bytes())?;
    into.extend_from_slice(b": ")?;
    push_refusal(refusal, into)?;
    into.extend_from_slice(b"\n")
}

/// Appends the name of a refusal, its number and its place.
fn push_refusal(refusal: &Refusal, into: &mut Vec<u8>) -> Result<(), AllocError>
    ensures { OnOk result (into.new.items ≡ into.old.items ++ refusal_text refusal.now) }
{
    into.extend_from_slice(refusal_name(refusal.number).as_bytes())?;
    push_number(b" ", u64::from(refusal.number), into)?;
    push_at(&refusal.at, into)
}

/// Appends where a file is refused.
fn push_at(at: &At, into: &mut Vec<u8>) -> Result<(), AllocError>
    ensures { OnOk result (into.new.items ≡ into.old.items ++ at_text at.now) }
{
    match at {
        At::Byte(byte) => push_number(b" at byte ", *byte as u64, into),
        At::Line(line) => push_number(b" at line ", *line, into),
        At::Late { line, clock } => {
            push_number(b" at line ", *line, into)?;
            push_number(b" clock ", *clock, into)
        }
        At::Gap {
            line,
            origin,
            have,
            need,
        } => push_gap(*line, *origin, *have, *need, into),
        At::Place(indices) => {
            into.extend_from_slice(b" at ")?;
            push_place(indices.as_slice(), into)
        }
        At::Length => Ok(()),
    }
}

/// Appends the line of a gap, the replica whose operations are missing, and how many there are and are needed.
fn push_gap(
    line: u64,
    origin: u32,
    have: u64,
    need: u64,
    into: &mut Vec<u8>,
) -> Result<(), AllocError>
    ensures { OnOk result (into.new.items ≡ into.old.items ++ codes " at line " ++ decimal line ++ codes " origin " ++ decimal origin
        ++ counts_text have need) }
{
    push_number(b" at line ", line, into)?;
    push_number(b" origin ", u64::from(origin), into)?;
    push_counts(have, need, into)
}

/// Appends how many operations there are and are needed.
fn push_counts(have: u64, need: u64, into: &mut Vec<u8>) -> Result<(), AllocError>
    ensures { OnOk result (into.new.items ≡ into.old.items ++ counts_text have need) }
{
    push_number(b" have ", have, into)?;
    push_number(b" need ", need, into)
}

/// Appends a text and then a number.
fn push_number(text: &[u8], number: u64, into: &mut Vec<u8>) -> Result<(), AllocError>
    ensures { OnOk result (into.new.items ≡ into.old.items ++ text.now ++ decimal number) }
{
    into.extend_from_slice(text)?;
    into.extend_from_slice(Buffer::new().format(number).as_bytes())
}

/// Appends indices joined by points, or `top` if there are none.
fn push_place(indices: &[u32], into: &mut Vec<u8>) -> Result<(), AllocError>
    ensures { OnOk result (into.new.items ≡ into.old.items ++ place_text indices.now) }
{
    match indices {
        [] => into.extend_from_slice(b"top"),
        [first, rest @ ..] => {
            push_number(b"", u64::from(*first), into)?;
            push_points(rest, into)
        }
    }
}

/// Appends indices, each after a point.
fn push_points(indices: &[u32], into: &mut Vec<u8>) -> Result<(), AllocError>
    ensures { OnOk result (into.new.items ≡ into.old.items ++ flat_map (λ next. 46 ∷ decimal next) indices.now) }
{
    for index in indices {
        push_number(b".", u64::from(*index), into)?;
    }
    Ok(())
}

/// Appends the condition and the line at which a proof is refused, and a newline.
fn push_proof_refused(condition: u32, line: u32, into: &mut Vec<u8>) -> Result<(), AllocError>
    ensures { OnOk result (into.new.items ≡ into.old.items ++ codes "proof refused: condition " ++ decimal condition ++ codes " line "
        ++ decimal line ++ codes "\n") }
{
    push_number(b"proof refused: condition ", u64::from(condition), into)?;
    push_number(b" line ", u64::from(line), into)?;
    into.extend_from_slice(b"\n")
}

/// The name of a refusal by its number.
fn refusal_name(number: u8) -> &'static str
    ensures { result.now ≡ refusal_name number }
{
    match number {
        1 => "BadByte",
        2 => "LongName",
        3 => "LongNumber",
        4 | 10 => "Syntax",
        5 => "Unknown",
        6 => "Twice",
        7 => "WrongSort",
        8 => "RankMismatch",
        9 | 15 => "TooLarge",
        11 => "NoReplica",
        12 => "NoPacket",
        13 => "Late",
        14 => "BadCall",
        16 => "BadDesign",
        17 => "Json",
        18 => "Form",
        19 => "Version",
        20 => "FileLong",
        22 => "LongResult",
        23 => "NoCount",
        24 => "Gap",
        25 => "BadReport",
        26 => "NotShown",
        27 => "WidePoint",
        28 => "BadState",
        29 => "FullState",
        _ => "Refused",
    }
}
