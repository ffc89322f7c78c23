//! What a call says, and how it is passed to the rooms of the host.
ghost use Rattle.std.specs.Prelude.{◌≡◌, ◌<◌, ◌≤◌, ◌⊎◌, [], codes, length, take};
ghost use Rattle.katara_call.specs.Called.{IsPlainEnd};

use kat_passed::put;
use std::alloc::Global;

/// A room is too short, and the lengths say how long the texts are: above each status.
pub(crate) const ROOM: u32 = 10;

/// How a call ended, what it wrote, and the line for standard error.
#[derive(Drop)]
pub(crate) struct Said {
    pub(crate) code: u8,
    pub(crate) written: Vec<u8>,
    pub(crate) line: Vec<u8>,
}

/// What a call says if its words, or the names of its files, aren't text.
pub(crate) fn no_text(alloc: Global) -> Said
    ensures { IsPlainEnd 1 (codes "usage\n") result.code result.written.items result.line.items }
{
    plain_end(alloc, 1, b"usage\n")
}

/// What a call says if memory ran out.
pub(crate) fn no_memory(alloc: Global) -> Said
    ensures { IsPlainEnd 7 (codes "out of memory\n") result.code result.written.items result.line.items }
{
    plain_end(alloc, 7, b"out of memory\n")
}

/// What a call says that wrote nothing.
fn plain_end(alloc: Global, code: u8, text: &[u8]) -> Said
    ensures { IsPlainEnd code text.now result.code result.written.items result.line.items }
{
    let line = line_of(alloc, text);
    Said {
        code,
        written: Vec::new(alloc),
        line,
    }
}

/// The text as a line of its own, or nothing if memory runs out.
fn line_of(alloc: Global, text: &[u8]) -> Vec<u8>
    ensures { (result.items ≡ text.now) ⊎ (result.items ≡ []) }
{
    match Vec::from_slice(alloc, text) {
        Ok(line) => line,
        Err(_) => Vec::new(alloc),
    }
}

/// Passes what was said: the status, with the texts at the start of the rooms if both fit there, or `ROOM`; and how long the texts are, in
/// either case.
pub(crate) fn pass(
    code: u8,
    written: &[u8],
    text: &[u8],
    out: &mut [u8],
    out_length: &mut usize,
    line: &mut [u8],
    line_length: &mut usize,
) -> u32
    requires { code < 10 }
    ensures lengths { (out_length.new ≡ length written.now) × (line_length.new ≡ length text.now) }
    ensures passed { result < ROOM → (result ≡ code) × (take out_length.new out.new ≡ written.now)
        × (take line_length.new line.new ≡ text.now) }
    ensures within { result < ROOM → (out_length.new ≤ length out.old) × (line_length.new ≤ length line.old) }
    ensures longer { result ≡ ROOM → (length out.old < out_length.new) ⊎ (length line.old < line_length.new) }
    ensures untouched { result ≡ ROOM → (out.new ≡ out.old) × (line.new ≡ line.old) }
    ensures either { result ≤ ROOM }
{
    *out_length = written.len();
    *line_length = text.len();
    if written.len() > out.len() {
        return ROOM;
    }
    if text.len() > line.len() {
        return ROOM;
    }
    put(written, out);
    put(text, line);
    u32::from(code)
}
