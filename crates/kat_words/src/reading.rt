//! The reading of words with `clap`.
ghost use Rattle.std.specs.Prelude.{◌≡◌, IfOk, IfSome, option_map};
ghost use Rattle.kat_words.specs.Words.{KeepsRanges, request_of, said_by, texts};

use crate::program::program;
use crate::words::{Request, requested};
use clap::error::ErrorKind;
use std::alloc::{AllocError, Global};

/// The request of these words: a command with its options, and the paths of its files. It is nothing
/// if and only if the words are those of no command, and the only error is out of memory.
///
/// The first word is the command's name. The others are options and paths in any order: a word that
/// begins with `-` is an option, except for `-` alone, and after `--` each word is a path. An option is
/// `--name value` or `--name=value`, each at most once.
pub fn read_words<'a>(alloc: Global, words: &'a [String]) -> Result<Option<Request<'a>>, AllocError>
    ensures is { IfOk result (λ found. option_map said_by found ≡ request_of (texts words.now)) }
    ensures within { IfOk result (λ found. IfSome found (λ request. KeepsRanges request.command)) }
{
    let program = program(alloc)?;
    match program.try_get_matches_from(words) {
        Ok(matches) => requested(alloc, &matches),
        Err(error) => match error.kind() {
            ErrorKind::OutOfMemory => Err(AllocError),
            _ => Ok(None),
        },
    }
}
