//! The words and files that bytes pass.
ghost use Rattle.std.specs.Prelude.{IfOk, MatchOption};
ghost use Rattle.katara_call.specs.Passed.{HasNoText, passed_as};
ghost use Rattle.katara_call.specs.Taking.{IsTaken};

use kat_io::MemFiles;
use kat_passed::{files_in, words_in};
use std::alloc::{AllocError, Global};

/// The words and files of a call.
#[derive(Drop)]
pub(crate) struct Taken {
    pub(crate) words: Vec<String>,
    pub(crate) files: MemFiles,
}

/// The words and files that are passed, or none if the words, or the names of files, aren't text.
pub(crate) fn take_passed(
    alloc: Global,
    words: &[u8],
    names: &[u8],
    lengths: &[usize],
    bytes: &[u8],
) -> Result<Option<Taken>, AllocError>
    ensures { IfOk result (λ found. MatchOption found (HasNoText (passed_as words.now names.now lengths.now bytes.now))
        (IsTaken (passed_as words.now names.now lengths.now bytes.now))) }
{
    let Some(words) = words_in(alloc, words)? else {
        return Ok(None);
    };
    let Some(files) = files_in(alloc, names, lengths, bytes)? else {
        return Ok(None);
    };
    Ok(Some(Taken {
        words,
        files: MemFiles {
            files,
            calls: 0,
            failing: Vec::new(alloc),
            faults: 0,
        },
    }))
}
