//! `node-share`, `node-difference` and `node-take` over files and a place for output in memory.
ghost use Rattle.std.specs.Prelude.{◌<◌};
ghost use Rattle.katara_call.specs.Passed.{passed_as};
ghost use Rattle.katara_call.specs.ShareCalls.{EndsShares, IsSharesCall};

use crate::outside::{empty_sink, written};
use crate::passing::{Taken, take_passed};
use crate::said::{Said, no_memory, no_text};
use kat_share_call::{Status, share_nodes, status_text};
use std::alloc::Global;

/// What `node-share`, `node-difference` and `node-take` say to what is passed.
pub(crate) fn shares_said(
    alloc: Global,
    words: &[u8],
    names: &[u8],
    lengths: &[usize],
    bytes: &[u8],
) -> Said
    ensures says { IsSharesCall (passed_as words.now names.now lengths.now bytes.now) result.code result.written.items result.line.items }
    ensures status { result.code < 10 }
{
    match take_passed(alloc, words, names, lengths, bytes) {
        Ok(Some(taken)) => call_shares(alloc, taken),
        Ok(None) => no_text(alloc),
        Err(_) => no_memory(alloc),
    }
}

/// What they say to these words and files.
fn call_shares(alloc: Global, taken: Taken) -> Said
    ensures ends { EndsShares taken.words.items taken.files.files.items result.code result.written.items result.line.items }
    ensures status { result.code < 10 }
{
    let Taken { words, mut files } = taken;
    let words = words.as_slice();
    let mut sink = empty_sink(alloc);
    let status = share_nodes(alloc, words, &mut files, &mut sink);
    let line = line_of(alloc, words, &status);
    Said {
        code: status.code(),
        written: written(sink),
        line,
    }
}

/// The line of a status, or nothing if memory runs out.
fn line_of(alloc: Global, words: &[String], status: &Status) -> Vec<u8> {
    match status_text(alloc, words, status) {
        Ok(line) => line,
        Err(_) => Vec::new(alloc),
    }
}
