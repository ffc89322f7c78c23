//! The histories that a report cites, as scripts.
ghost use Rattle.std.specs.List.{position_or_len};
ghost use Rattle.std.specs.Option.{option_map_or};
ghost use Rattle.std.specs.Prelude.{◌≡◌, ◌==◌, ◌<◌, ◌∷◌, [], length, option_map, IfOk, IfSome};
ghost use Rattle.kat_picture.specs.Histories.{behind_head, cited, head_of, lines_of, script_byte, script_of};

use std::alloc::{AllocError, Global};

/// The script of the first history of this number that a report of `synth` cites: its operations at two replicas, and then a
/// packet from each to the other. None if the report cites no such history.
pub fn history_script(
    alloc: Global,
    report: &[u8],
    number: &[u8],
) -> Result<Option<Vec<u8>>, AllocError>
    ensures { IfOk result (λ found. option_map (λ script. script.items) found ≡ cited report.now number.now) }
{
    let head = head_of(alloc, number)?;
    match behind_head(&head, report) {
        Some(operations) => Ok(Some(script_of(alloc, operations)?)),
        None => Ok(None),
    }
}

/// How the line of a history begins.
fn head_of(alloc: Global, number: &[u8]) -> Result<Vec<u8>, AllocError>
    ensures { IfOk result (λ head. head.items ≡ head_of number.now) }
{
    let mut head = Vec::from_slice(alloc, b"history ")?;
    head.extend_from_slice(number)?;
    head.extend_from_slice(b":")?;
    Ok(head)
}

/// What comes after the head in the first line that begins with it.
fn behind_head<'a>(head: &[u8], report: &'a [u8]) -> Option<&'a [u8]>
    ensures { option_map (λ found. found.now) result ≡ behind_head head.now (lines_of report.now) }
{
    let mut rest = report;
    'lines: loop {
        let (line, behind) = cut_line(rest);
        if let Some(found) = line.strip_prefix(head) {
            return Some(found);
        }
        match behind {
            Some(behind) => rest = behind,
            None => return None,
        }
    }
}

/// The first line of a text, and what comes after its newline, if it has one.
fn cut_line(text: &[u8]) -> (&[u8], Option<&[u8]>)
    ensures cut { lines_of text.now ≡ result.0.now ∷ option_map_or (λ behind. lines_of behind.now) result.1 [] }
    ensures shorter { IfSome result.1 (λ behind. length behind.now < length text.now) }
{
    let end = line_end(text);
    if end < text.len() {
        (&text[..end], Some(&text[end + 1..]))
    } else {
        (text, None)
    }
}

/// Where the first line of a text ends.
fn line_end(text: &[u8]) -> usize
    ensures { result ≡ position_or_len (λ byte. byte == 10) text.now }
{
    text.iter().take_while(|byte| **byte != b'\n').count()
}

/// Operations with `;` between them become lines.
fn script_of(alloc: Global, operations: &[u8]) -> Result<Vec<u8>, AllocError>
    ensures { IfOk result (λ script. script.items ≡ script_of operations.now) }
{
    let mut script = Vec::from_slice(alloc, b"replicas 2\n")?;
    for byte in operations {
        script.push(script_byte(*byte))?;
    }
    script.extend_from_slice(b"\nship 1 one\nship 2 two\ndeliver one 2\ndeliver two 1\n")?;
    Ok(script)
}

fn script_byte(byte: u8) -> u8
    ensures { result ≡ script_byte byte }
{
    if byte == b';' { b'\n' } else { byte }
}
