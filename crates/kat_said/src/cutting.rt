//! Parts of a line: what comes before a byte and after it, numbers, words.
ghost use Rattle.std.specs.Prelude.{◌≡◌, ◌↔◌, ◌∷◌, ◌<◌, ◌≤◌, ◌^◌, ◌+◌, neg_ℤ, pos, IfOk, IsTrue, false, true, MatchOption, [], drop, length, map, slice_index_or, take};
ghost use Rattle.kat_said.specs.Guesses.{IsCut, after, bit_in, front, number_after, number_in, whole_in, with_digit, words};

use std::alloc::{AllocError, Global};

/// The place of the first byte of this kind, or the length.
fn place_of(bytes: &[u8], byte: u8) -> usize
    ensures within { result ≤ length bytes.now }
    ensures front { front byte bytes.now ≡ take result bytes.now }
    ensures after { after byte bytes.now ≡ drop (result + 1) bytes.now }
{
    for (i, b) in bytes.iter().enumerate() {
        if *b == byte {
            return i;
        }
    }
    bytes.len()
}

/// What comes before the first byte of this kind, or all.
pub(crate) fn front(bytes: &[u8], byte: u8) -> &[u8]
    ensures { result.now ≡ front byte bytes.now }
{
    &bytes[..place_of(bytes, byte)]
}

/// What comes after it, or nothing.
pub(crate) fn after(bytes: &[u8], byte: u8) -> &[u8]
    ensures { result.now ≡ after byte bytes.now }
{
    behind(bytes, place_of(bytes, byte))
}

/// What comes after a place.
fn behind(bytes: &[u8], place: usize) -> &[u8]
    requires { place ≤ length bytes.now }
    ensures { result.now ≡ drop (place + 1) bytes.now }
{
    if place < bytes.len() {
        &bytes[place + 1..]
    } else {
        &[]
    }
}

/// What comes after the first blank, if there is one.
pub(crate) fn next_word(bytes: &[u8]) -> Option<&[u8]>
    ensures { MatchOption result (words bytes.now ≡ []) (λ rest. (words bytes.now ≡ front 32 rest.now ∷ words rest.now)
        × (length rest.now < length bytes.now)) }
{
    for (i, b) in bytes.iter().enumerate() {
        if *b == b' ' {
            return Some(behind(bytes, i));
        }
    }
    None
}

/// Whether a text has a byte.
pub(crate) fn has(bytes: &[u8], byte: u8) -> bool
    ensures { IsTrue result ↔ IsCut byte bytes.now }
{
    for (i, b) in bytes.iter().enumerate() {
        if *b == byte {
            return true;
        }
    }
    false
}

/// The byte at a place, and 0 if there is none.
pub(crate) fn byte_at(bytes: &[u8], place: usize) -> u8
    ensures { result ≡ slice_index_or bytes.now place 0 }
{
    match bytes.get(place) {
        Some(byte) => *byte,
        None => 0,
    }
}

/// The number that digits write. What it answers of other bytes, and of more than 38 of them, is at most 10^38 and one digit.
pub(crate) fn number(bytes: &[u8]) -> u128
    ensures value { result ≡ number_in bytes.now }
    ensures small { result < 2 ^ 127 }
{
    let mut number = 0;
    for byte in bytes {
        number = with_digit(number, *byte);
    }
    number
}

fn with_digit(number: u128, byte: u8) -> u128
    requires { number < 2 ^ 127 }
    ensures value { result ≡ with_digit number byte }
    ensures small { result < 2 ^ 127 }
{
    if number < 10_000_000_000_000_000_000_000_000_000_000_000_000 {
        number * 10 + u128::from(byte.saturating_sub(b'0'))
    } else {
        100_000_000_000_000_000_000_000_000_000_000_000_000
    }
}

/// The same, if a sign may come first.
pub(crate) fn whole(bytes: &[u8]) -> i128
    ensures { result ≡ whole_in bytes.now }
{
    match bytes {
        [] => 0,
        [first, rest @ ..] => signed(*first == b'-', rest, bytes),
    }
}

fn signed(is_below: bool, rest: &[u8], whole: &[u8]) -> i128
    ensures below { is_below ≡ true → result ≡ neg_ℤ (pos (number_in rest.now)) }
    ensures above { is_below ≡ false → result ≡ pos (number_in whole.now) }
{
    if is_below {
        -(number(rest) as i128)
    } else {
        number(whole) as i128
    }
}

/// The whole numbers that come after blanks.
pub(crate) fn wholes(alloc: Global, bytes: &[u8]) -> Result<Vec<i128>, AllocError>
    ensures { IfOk result (λ found. found.items ≡ map whole_in (words bytes.now)) }
{
    let mut found = Vec::new(alloc);
    let mut left = bytes;
    'words: while let Some(rest) = next_word(left) {
        found.push(whole(front(rest, b' ')))?;
        left = rest;
    }
    Ok(found)
}

/// The truth values that come after blanks, as 0 or 1.
pub(crate) fn bits(alloc: Global, bytes: &[u8]) -> Result<Vec<bool>, AllocError>
    ensures { IfOk result (λ found. found.items ≡ map bit_in (words bytes.now)) }
{
    let mut found = Vec::new(alloc);
    let mut left = bytes;
    'words: while let Some(rest) = next_word(left) {
        found.push(byte_at(front(rest, b' '), 0) == b'1')?;
        left = rest;
    }
    Ok(found)
}
