//! Whether bytes are numbers in digits, however many, or a point.
ghost use Rattle.std.specs.Prelude.{◌≡◌, ◌↔◌, ◌<◌, ◌≤◌, ◌∷◌, [], IsTrue, false, true};
ghost use Rattle.std.specs.List.{All};
ghost use Rattle.kat_said.specs.Guesses.{AreBits, AreBoth, AreWholes, IsBegun, IsBit, IsNumeral, IsPointText, IsWhole, words};

use crate::cutting::{after, front, has, next_word};

/// Whether bytes are a point: the denominator, the numerators and the truth values.
pub(crate) fn is_point(bytes: &[u8]) -> bool
    ensures { IsTrue result ↔ IsPointText bytes.now }
{
    if !has(bytes, b';') {
        return false;
    }
    is_whole(front(bytes, b';')) && are_both(after(bytes, b';'))
}

/// Whether bytes are numerators and truth values.
fn are_both(bytes: &[u8]) -> bool
    ensures { IsTrue result ↔ AreBoth bytes.now }
{
    if !has(bytes, b';') {
        return false;
    }
    are_wholes(front(bytes, b';')) && are_bits(after(bytes, b';'))
}

/// Whether bytes are whole numbers, each after a blank.
fn are_wholes(bytes: &[u8]) -> bool
    ensures { IsTrue result ↔ AreWholes bytes.now }
{
    is_begun(bytes) && are_whole_words(bytes)
}

/// Whether the words after the blanks are whole numbers.
pub(crate) fn are_whole_words(bytes: &[u8]) -> bool
    ensures { IsTrue result ↔ All IsWhole (words bytes.now) }
{
    let mut left = bytes;
    'words: while let Some(rest) = next_word(left) {
        if !is_whole(front(rest, b' ')) {
            return false;
        }
        left = rest;
    }
    true
}

/// Whether bytes are truth values as 0 or 1, each after a blank.
fn are_bits(bytes: &[u8]) -> bool
    ensures { IsTrue result ↔ AreBits bytes.now }
{
    if !is_begun(bytes) {
        return false;
    }
    let mut left = bytes;
    'words: while let Some(rest) = next_word(left) {
        if !is_bit(front(rest, b' ')) {
            return false;
        }
        left = rest;
    }
    true
}

/// Whether there is nothing, or a blank first.
fn is_begun(bytes: &[u8]) -> bool
    ensures { IsTrue result ↔ IsBegun bytes.now }
{
    match bytes {
        [] => true,
        [first, ..] => *first == b' ',
    }
}

fn is_bit(bytes: &[u8]) -> bool
    ensures { IsTrue result ↔ IsBit bytes.now }
{
    match bytes {
        [bit] => *bit == b'0' || *bit == b'1',
        _ => false,
    }
}

/// Whether bytes are a whole number: none below 0 is written -0.
fn is_whole(bytes: &[u8]) -> bool
    ensures { IsTrue result ↔ IsWhole bytes.now }
{
    match bytes {
        [] => false,
        [first, rest @ ..] if *first == b'-' => is_numeral(rest) && !is_zero(rest),
        _ => is_numeral(bytes),
    }
}

fn is_zero(bytes: &[u8]) -> bool
    ensures { IsTrue result ↔ (bytes.now ≡ 48 ∷ []) }
{
    match bytes {
        [digit] => *digit == b'0',
        _ => false,
    }
}

/// Whether bytes are digits, the first of which is 0 only if it is alone.
fn is_numeral(bytes: &[u8]) -> bool
    ensures { IsTrue result ↔ IsNumeral bytes.now }
{
    match bytes {
        [] => false,
        [first, ..] => is_zero(bytes) || *first != b'0' && are_digits(bytes),
    }
}

fn are_digits(bytes: &[u8]) -> bool
    ensures { IsTrue result ↔ All (λ c. (48 ≤ c) × (c < 58)) bytes.now }
{
    bytes.iter().all(|c| b'0' <= *c && *c <= b'9')
}
