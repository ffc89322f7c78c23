//! Where a word ends, and its code, in one pass.
ghost use Rattle.std.specs.Prelude.{◌≡◌, ◌+◌, ◌≤◌, length, slice_range, MatchOption};
ghost use Rattle.kat_num.specs.Bytes.{is_word_byte};
ghost use Rattle.kat_num.specs.Names.{code_of};
ghost use Rattle.kat_lex.specs.Found.{IsLongRun};
ghost use Rattle.kat_lex.specs.Pieces.{IsRun};

use kat_num::{NAME_LIMIT, is_word_byte};

/// The end of the word that begins at the place, and its code, or nothing if it has more than 15 bytes.
#[inline(always)]
pub fn code_at(bytes: &[u8], from: usize) -> Option<(usize, u128)>
    requires { from ≤ length bytes.now }
    ensures { MatchOption result (IsLongRun bytes.now from)
        (λ found. IsRun is_word_byte bytes.now from found.0 × (found.0 ≤ from + NAME_LIMIT)
        × (found.1 ≡ code_of (slice_range bytes.now from found.0))) }
{
    let last = from + (bytes.len() - from).min(NAME_LIMIT);
    let mut code: u128 = 0;
    for to in from..last {
        let byte = bytes[to];
        if !is_word_byte(byte) {
            return Some((to, code << (8 * (NAME_LIMIT - (to - from)))));
        }
        code = code * 256 + u128::from(byte);
    }
    if last < bytes.len() && is_word_byte(bytes[last]) {
        None
    } else {
        Some((last, code << (8 * (NAME_LIMIT - (last - from)))))
    }
}
