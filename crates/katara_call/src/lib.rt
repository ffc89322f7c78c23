//! The whole program as calls over bytes: words and files in; a status, what is written and the line for standard error out.
//!
//! `words` are those of the call, the program's name first, with a zero byte between two. `names` are the paths of the files, with a zero
//! byte between two, `lengths` how many bytes each file has, and `bytes` the bytes of all files, one file after the other. The output is
//! written to the start of `out`, and the line to the start of `line`. If a room is too short, the answer is 10, nothing is written to
//! either, and both lengths are those that are needed. No export has a condition, and nothing is kept between calls.
#![tactic(auto)]

ghost use Rattle.std.specs.Prelude.{◌≡◌, ◌<◌, ◌≤◌, length, take};
ghost use Rattle.katara_call.specs.Called.{IsShort};
ghost use Rattle.katara_call.specs.FindCalls.{IsFindCall};
ghost use Rattle.katara_call.specs.KataraCalls.{IsKataraCall};
ghost use Rattle.katara_call.specs.Passed.{passed_as};
ghost use Rattle.katara_call.specs.ShareCalls.{IsSharesCall};
ghost use Rattle.katara_call.specs.ShowCalls.{IsShowCall};

mod finding;
mod outside;
mod passing;
mod running;
mod said;
mod sharing;
mod showing;

use finding::find_said;
use running::katara_said;
use said::{ROOM, pass};
use sharing::shares_said;
use showing::show_said;
use std::alloc::Global;

/// The commands of `katara`.
#[unsafe(no_mangle)]
pub extern "C" fn katara_call(
    alloc: Global,
    words: &[u8],
    names: &[u8],
    lengths: &[usize],
    bytes: &[u8],
    out: &mut [u8],
    out_length: &mut usize,
    line: &mut [u8],
    line_length: &mut usize,
) -> u32
    ensures called { result < ROOM → IsKataraCall (passed_as words.now names.now lengths.now bytes.now) result
        (take out_length.new out.new) (take line_length.new line.new) }
    ensures within { result < ROOM → (out_length.new ≤ length out.old) × (line_length.new ≤ length line.old) }
    ensures short { result ≡ ROOM → IsShort (IsKataraCall (passed_as words.now names.now lengths.now bytes.now))
        out.old line.old out_length.new line_length.new }
    ensures untouched { result ≡ ROOM → (out.new ≡ out.old) × (line.new ≡ line.old) }
    ensures either { result ≤ ROOM }
{
    let said = katara_said(alloc, words, names, lengths, bytes);
    pass(
        said.code,
        &said.written,
        &said.line,
        out,
        out_length,
        line,
        line_length,
    )
}

/// `find` and `prove`.
#[unsafe(no_mangle)]
pub extern "C" fn katara_find(
    alloc: Global,
    words: &[u8],
    names: &[u8],
    lengths: &[usize],
    bytes: &[u8],
    out: &mut [u8],
    out_length: &mut usize,
    line: &mut [u8],
    line_length: &mut usize,
) -> u32
    ensures called { result < ROOM → IsFindCall (passed_as words.now names.now lengths.now bytes.now) result
        (take out_length.new out.new) (take line_length.new line.new) }
    ensures within { result < ROOM → (out_length.new ≤ length out.old) × (line_length.new ≤ length line.old) }
    ensures short { result ≡ ROOM → IsShort (IsFindCall (passed_as words.now names.now lengths.now bytes.now))
        out.old line.old out_length.new line_length.new }
    ensures untouched { result ≡ ROOM → (out.new ≡ out.old) × (line.new ≡ line.old) }
    ensures either { result ≤ ROOM }
{
    let said = find_said(alloc, words, names, lengths, bytes);
    pass(
        said.code,
        &said.written,
        &said.line,
        out,
        out_length,
        line,
        line_length,
    )
}

/// `picture`, `explain` and `emit`.
#[unsafe(no_mangle)]
pub extern "C" fn katara_show(
    alloc: Global,
    words: &[u8],
    names: &[u8],
    lengths: &[usize],
    bytes: &[u8],
    out: &mut [u8],
    out_length: &mut usize,
    line: &mut [u8],
    line_length: &mut usize,
) -> u32
    ensures called { result < ROOM → IsShowCall (passed_as words.now names.now lengths.now bytes.now) result
        (take out_length.new out.new) (take line_length.new line.new) }
    ensures within { result < ROOM → (out_length.new ≤ length out.old) × (line_length.new ≤ length line.old) }
    ensures short { result ≡ ROOM → IsShort (IsShowCall (passed_as words.now names.now lengths.now bytes.now))
        out.old line.old out_length.new line_length.new }
    ensures untouched { result ≡ ROOM → (out.new ≡ out.old) × (line.new ≡ line.old) }
    ensures either { result ≤ ROOM }
{
    let said = show_said(alloc, words, names, lengths, bytes);
    pass(
        said.code,
        &said.written,
        &said.line,
        out,
        out_length,
        line,
        line_length,
    )
}

/// `node-share`, `node-difference` and `node-take`.
#[unsafe(no_mangle)]
pub extern "C" fn katara_shares(
    alloc: Global,
    words: &[u8],
    names: &[u8],
    lengths: &[usize],
    bytes: &[u8],
    out: &mut [u8],
    out_length: &mut usize,
    line: &mut [u8],
    line_length: &mut usize,
) -> u32
    ensures called { result < ROOM → IsSharesCall (passed_as words.now names.now lengths.now bytes.now) result
        (take out_length.new out.new) (take line_length.new line.new) }
    ensures within { result < ROOM → (out_length.new ≤ length out.old) × (line_length.new ≤ length line.old) }
    ensures short { result ≡ ROOM → IsShort (IsSharesCall (passed_as words.now names.now lengths.now bytes.now))
        out.old line.old out_length.new line_length.new }
    ensures untouched { result ≡ ROOM → (out.new ≡ out.old) × (line.new ≡ line.old) }
    ensures either { result ≤ ROOM }
{
    let said = shares_said(alloc, words, names, lengths, bytes);
    pass(
        said.code,
        &said.written,
        &said.line,
        out,
        out_length,
        line,
        line_length,
    )
}
