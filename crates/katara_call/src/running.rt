//! The commands of `katara` over files and a place for output in memory.
ghost use Rattle.std.specs.Prelude.{◌≡◌, ◌<◌, ◌⊎◌, [], codes, IfSome, true};
ghost use Rattle.kat_cli.specs.Codes.{code_of};
ghost use Rattle.kat_cli.specs.Texts.{status_line};
ghost use Rattle.kat_passed.specs.Passing.{told_in};
ghost use Rattle.kat_words.specs.Words.{paths_of, texts};
ghost use Rattle.katara_call.specs.Called.{IsPlainEnd};
ghost use Rattle.katara_call.specs.KataraCalls.{EndsKatara, IsKataraCall, KataraEnds};
ghost use Rattle.katara_call.specs.Passed.{passed_as};
ghost use Rattle.katara_call.specs.Taking.{IsEmpty, IsFresh};

use crate::outside::{empty_sink, written};
use crate::passing::{Taken, take_passed};
use crate::said::{Said, no_memory, no_text};
use kat_cli::{Status, katara, status_text};
use kat_io::{MemFiles, MemSink};
use std::alloc::Global;

/// What `katara` says to what is passed.
pub(crate) fn katara_said(
    alloc: Global,
    words: &[u8],
    names: &[u8],
    lengths: &[usize],
    bytes: &[u8],
) -> Said
    ensures says { IsKataraCall (passed_as words.now names.now lengths.now bytes.now) result.code result.written.items result.line.items }
    ensures status { result.code < 10 }
{
    match take_passed(alloc, words, names, lengths, bytes) {
        Ok(Some(taken)) => call_katara(alloc, taken),
        Ok(None) => no_text(alloc),
        Err(_) => no_memory(alloc),
    }
}

/// What `katara` says to these words and files.
fn call_katara(alloc: Global, taken: Taken) -> Said
    requires { IsFresh taken.files }
    ensures ends { EndsKatara taken.words.items taken.files.files.items result.code result.written.items result.line.items
        ⊎ IsPlainEnd 7 (codes "out of memory\n") result.code result.written.items result.line.items }
    ensures status { result.code < 10 }
{
    let Taken { words, mut files } = taken;
    let words = words.as_slice();
    let mut sink = empty_sink(alloc);
    match run_katara(alloc, words, &mut files, &mut sink) {
        Some(status) => {
            let line = line_of(alloc, words, &status);
            Said {
                code: status.code(),
                written: written(sink),
                line,
            }
        }
        None => no_memory(alloc),
    }
}

/// Calls `katara`. None if a fault was counted that its status doesn't tell, of which no clause of `katara` says that it doesn't come.
fn run_katara(
    alloc: Global,
    words: &[String],
    files: &mut MemFiles,
    sink: &mut MemSink,
) -> Option<Status>
    requires fresh { IsFresh files.old }
    requires empty { IsEmpty sink.old }
    ensures { IfSome result (λ status. KataraEnds words.now (told_in files.old.files.items) status sink.old.written.items
        sink.new.written.items) }
{
    let status = katara(alloc, words, files, sink);
    if is_told(&status, files.faults, sink.faults) {
        Some(status)
    } else {
        None
    }
}

/// Whether there were no faults but those of a read that the status tells.
fn is_told(status: &Status, reads: u64, writes: u64) -> bool
    ensures writes { result ≡ true → writes ≡ 0 }
    ensures reads { result ≡ true → (reads ≡ 0) ⊎ (code_of status.now ≡ 2) }
{
    if writes > 0 {
        return false;
    }
    if reads == 0 {
        return true;
    }
    status.code() == 2
}

/// The line of a status, or nothing if memory runs out.
fn line_of(alloc: Global, words: &[String], status: &Status) -> Vec<u8>
    ensures { (result.items ≡ status_line (paths_of (texts words.now)) status.now) ⊎ (result.items ≡ []) }
{
    match status_text(alloc, words, status) {
        Ok(line) => line,
        Err(_) => Vec::new(alloc),
    }
}
