//! What the words ask for.
ghost use Rattle.std.specs.Prelude.{◌≡◌, ℕ, List, IfErr, IfOk, map, string_bytes};
ghost use Rattle.kat_io.specs.Outside.{Tells, grown};
ghost use Rattle.kat_people_call.specs.Showing.{DrewCitedFile, DrewFile, DrewFiles, EmittedFiles, ExplainedFiles, Showed, Shows};

use crate::drawing::{draw_answers, draw_history, draw_script};
use crate::emitting::{CodeForm, emit_texts};
use crate::explaining::explain_texts;
use crate::status::{At, Status, refused_at};
use crate::words::{Command, Request, read_words};
use kat_io::{Files, ReadEnd, ReadError, Sink, WriteError};
use std::alloc::Global;

/// How many bytes a file has at most.
const FILE_LIMIT: usize = 16_777_216;

const _: () = prove!(FILE_LIMIT == 16_777_216);

/// Does what the words say, with these files and this place for output, and says how it ended.
pub fn show<F: Files, K: Sink>(
    alloc: Global,
    words: &[String],
    files: &mut F,
    out: &mut K,
) -> Status
    ensures done { result ≡ Status.Done → Showed (map string_bytes words.now) (F.holds files.old) (K.written out.old) (K.written out.new) }
{
    match read_words(alloc, words) {
        Ok(Some(request)) => answer(alloc, &request, files, out),
        Ok(None) => Status::Usage,
        Err(_) => Status::Memory,
    }
}

/// The same for words that are read.
fn answer<F: Files, K: Sink>(
    alloc: Global,
    request: &Request<'_>,
    files: &mut F,
    out: &mut K,
) -> Status
    ensures done { result ≡ Status.Done → Shows request.now.command (F.holds files.old) (K.written out.old) (K.written out.new) }
{
    let paths = request.paths.as_slice();
    match request.command {
        Command::Picture => match paths {
            [script] => draw_file(alloc, script, request.as_text, files, out),
            _ => Status::Usage,
        },
        Command::Answers => match paths {
            [script, ty, design] => {
                draw_files(alloc, script, ty, design, request.as_text, files, out)
            }
            _ => Status::Usage,
        },
        Command::History => match paths {
            [report, number] => { draw_cited(alloc, report, number, request.as_text, files, out) }
            _ => Status::Usage,
        },
        Command::Explain => match paths {
            [ty, design] => explain_files(alloc, ty, design, request.as_markdown, files, out),
            _ => Status::Usage,
        },
        Command::Emit => match (paths, request.language) {
            ([ty, design], Some(language)) => {
                let form = CodeForm {
                    language,
                    as_package: request.as_package,
                };
                emit_files(alloc, ty, design, form, files, out)
            }
            _ => Status::Usage,
        },
    }
}

/// Draws the script of a file.
fn draw_file<F: Files, K: Sink>(
    alloc: Global,
    script_path: &str,
    as_text: bool,
    files: &mut F,
    out: &mut K,
) -> Status
    ensures done { result ≡ Status.Done → DrewFile (F.holds files.old) script_path.now as_text (K.written out.old) (K.written out.new) }
{
    match content(alloc, 0, script_path, files) {
        Ok(script) => draw_script(alloc, &script, as_text, out),
        Err(status) => status,
    }
}

/// Draws the script of a file with the answers of the design of another.
fn draw_files<F: Files, K: Sink>(
    alloc: Global,
    script_path: &str,
    ty_path: &str,
    design_path: &str,
    as_text: bool,
    files: &mut F,
    out: &mut K,
) -> Status
    ensures done { result ≡ Status.Done → DrewFiles (F.holds files.old) script_path.now ty_path.now design_path.now as_text
        (K.written out.old) (K.written out.new) }
{
    let script = match content(alloc, 0, script_path, files) {
        Ok(script) => script,
        Err(status) => return status,
    };
    let contents = match two_contents(alloc, 1, ty_path, design_path, files) {
        Ok(contents) => contents,
        Err(status) => return status,
    };
    draw_answers(alloc, &script, &contents.0, &contents.1, as_text, out)
}

/// Draws a history that the report of a file cites.
fn draw_cited<F: Files, K: Sink>(
    alloc: Global,
    report_path: &str,
    number: &str,
    as_text: bool,
    files: &mut F,
    out: &mut K,
) -> Status
    ensures done { result ≡ Status.Done → DrewCitedFile (F.holds files.old) report_path.now number.now as_text (K.written out.old)
        (K.written out.new) }
{
    match content(alloc, 0, report_path, files) {
        Ok(report) => draw_history(alloc, &report, number, as_text, out),
        Err(status) => status,
    }
}

/// Explains the design of a file for the type of another.
fn explain_files<F: Files, K: Sink>(
    alloc: Global,
    ty_path: &str,
    design_path: &str,
    as_markdown: bool,
    files: &mut F,
    out: &mut K,
) -> Status
    ensures done { result ≡ Status.Done → ExplainedFiles (F.holds files.old) ty_path.now design_path.now as_markdown (K.written out.old)
        (K.written out.new) }
{
    match two_contents(alloc, 0, ty_path, design_path, files) {
        Ok(contents) => explain_texts(alloc, &contents.0, &contents.1, as_markdown, out),
        Err(status) => status,
    }
}

/// Writes the design of a file as code, for the type of another.
fn emit_files<F: Files, K: Sink>(
    alloc: Global,
    ty_path: &str,
    design_path: &str,
    form: CodeForm,
    files: &mut F,
    out: &mut K,
) -> Status
    ensures done { result ≡ Status.Done → EmittedFiles (F.holds files.old) ty_path.now design_path.now (K.written out.old)
        (K.written out.new) }
{
    match two_contents(alloc, 0, ty_path, design_path, files) {
        Ok(contents) => emit_texts(alloc, &contents.0, &contents.1, form, out),
        Err(status) => status,
    }
}

/// The bytes of two files, the first of this number, or how the call ends without them.
fn two_contents<F: Files>(
    alloc: Global,
    file: u32,
    first: &str,
    second: &str,
    files: &mut F,
) -> Result<(Vec<u8>, Vec<u8>), Status>
    ensures told { IfOk result (λ read. Tells (F.holds files.old first.now) read.0.items
        × Tells (F.holds files.old second.now) read.1.items) }
    ensures not_done { IfErr result (λ status. status ≡ Status.Done → ⊥) }
{
    let bytes = match content(alloc, file, first, files) {
        Ok(bytes) => bytes,
        Err(status) => return Err(status),
    };
    let others = match content(alloc, file.saturating_add(1), second, files) {
        Ok(bytes) => bytes,
        Err(status) => return Err(status),
    };
    Ok((bytes, others))
}

/// The bytes of a file, or how the call ends without them.
fn content<F: Files>(alloc: Global, file: u32, path: &str, files: &mut F) -> Result<Vec<u8>, Status>
    ensures told { IfOk result (λ bytes. Tells (F.holds files.old path.now) bytes.items) }
    ensures same { (other : List ℕ) → F.holds files.new other ≡ F.holds files.old other }
    ensures not_done { IfErr result (λ status. status ≡ Status.Done → ⊥) }
{
    let mut bytes = Vec::new(alloc);
    match files.read(alloc, path, FILE_LIMIT, &mut bytes) {
        Ok(ReadEnd::Whole) => Ok(bytes),
        Ok(ReadEnd::Longer) => Err(refused_at(file, 20, At::Length)),
        Err(ReadError::Failed) => Err(Status::ReadFault { file }),
        Err(ReadError::Memory) => Err(Status::Memory),
    }
}

/// Writes a text, and says how that ended.
pub(crate) fn print<K: Sink>(alloc: Global, text: &[u8], out: &mut K) -> Status
    ensures done { result ≡ Status.Done → K.written out.new ≡ grown (K.written out.old) text.now }
{
    match out.write(alloc, text) {
        Ok(()) => Status::Done,
        Err(WriteError::Failed) => Status::WriteFault,
        Err(WriteError::Memory) => Status::Memory,
    }
}
