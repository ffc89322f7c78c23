//! Whether what a line has as lists is written as lists are.
ghost use Rattle.std.specs.Prelude.{◌≡◌, ◌↔◌, ◌⊎◌, IsTrue};
ghost use Rattle.std.specs.List.{All};
ghost use Rattle.kat_said.specs.Guesses.{IsPointFor, IsPointText, IsWhole, after, behind, guess, place_in, point_part, words};
ghost use Rattle.kat_said.specs.Sayings.{IsLineOf, SaidForm};

use crate::cutting::{after, byte_at, front};
use crate::guessing::{behind, place_in};
use crate::numerals::{are_whole_words, is_point};

/// Whether the point of a line is one, and its literals are numbers. So each line of a block is written, and a line that isn't fills
/// no list.
pub(crate) fn has_form(line: &[u8]) -> bool
    ensures point { IsTrue result → IsPointFor (guess line.now) (point_part (guess line.now) line.now) }
    ensures lines { (s : SaidForm) → IsLineOf line.now s → IsTrue result }
{
    let bytes = front(line, b'\n');
    has_form_by(byte_at(bytes, 0), after(bytes, b' '))
}

/// The same by the first byte, of what comes after the first blank.
fn has_form_by(tag: u8, bytes: &[u8]) -> bool
    ensures drop { tag ≡ 100 → IsTrue result ↔ IsPointText (after 32 (behind (place_in bytes.now) bytes.now)) }
    ensures fail { tag ≡ 102 → IsTrue result ↔ IsPointText (after 32 (after 32 (after 32 bytes.now))) }
    ensures rows { tag ≡ 114 → IsTrue result ↔ All IsWhole (words (after 32 (after 32 (behind (place_in bytes.now) bytes.now)))) }
    ensures wide { tag ≡ 119 → IsTrue result ↔ All IsWhole (words (after 32 (behind (place_in bytes.now) bytes.now))) }
    ensures plain { (tag ≡ 115) ⊎ (tag ≡ 108) → IsTrue result }
{
    if tag == b'd' {
        return is_point(after(behind(&place_in(bytes), bytes), b' '));
    }
    if tag == b'f' {
        return is_point(after(after(after(bytes, b' '), b' '), b' '));
    }
    if tag == b'r' {
        let numbers = behind(&place_in(bytes), bytes);
        return are_whole_words(after(after(numbers, b' '), b' '));
    }
    if tag == b'w' {
        return are_whole_words(after(behind(&place_in(bytes), bytes), b' '));
    }
    true
}
