//! Words of a type in the case of a language.
ghost use Rattle.std.specs.Prelude.{◌≡◌, ◌++◌, ◌∷◌, ◌<◌, true, [], OnOk};
ghost use Rattle.std.specs.Char.{is_ascii_alphabetic, is_ascii_alphanumeric, to_ascii_lowercase};
ghost use Rattle.std.specs.List.{list_all};
ghost use Rattle.std.specs.String.{string_bytes};
ghost use Rattle.kat_emit.specs.Words.{AppendsParts, AppendsWord, is_begun, is_part, is_word};

use std::alloc::{AllocError, Global};

/// How a word of several pieces is written: `is_open`, `isOpen`, `IsOpen`.
#[derive(Clone, Copy)]
pub enum Case {
    Snake,
    Camel,
    Pascal,
}

/// Appends a word in a case. Its pieces end at `_`, and where a capital follows a small letter or a digit or begins a capitalised
/// piece, as in `HTTPServer`; a word without a letter at its front gets an `x` there.
pub fn push_cased(
    alloc: Global,
    case: Case,
    word: &str,
    into: &mut String,
) -> Result<(), AllocError>
    ensures { OnOk result (AppendsWord (string_bytes into.old) (string_bytes into.new)) }
{
    let mut small = String::new(alloc);
    push_snake(word, &mut small)?;
    match case {
        Case::Snake => into.push_str(small.as_str()),
        Case::Camel => push_joined(small.as_str(), false, into),
        Case::Pascal => push_joined(small.as_str(), true, into),
    }
}

/// Appends the pieces of a word in small letters with `_` between them, to an empty text.
fn push_snake(word: &str, into: &mut String) -> Result<(), AllocError>
    requires { string_bytes into.old ≡ [] }
    ensures { OnOk result (is_word (string_bytes into.new) ≡ true) }
{
    let letters = word.as_bytes();
    let mut before = b'_';
    'letters: for (place, letter) in letters.iter().enumerate() {
        if letter.is_ascii_alphanumeric() {
            let next = letters.get(place.saturating_add(1)).copied();
            push_letter(before, *letter, next.unwrap_or(b'_'), into)?;
        }
        before = *letter;
    }
    if into.is_empty() {
        into.push('x')?;
    }
    Ok(())
}

/// Appends a letter or a digit, between what is before it and after it in the word, as a small one, with what begins a piece before it.
fn push_letter(before: u8, letter: u8, next: u8, into: &mut String) -> Result<(), AllocError>
    requires alphanumeric { is_ascii_alphanumeric letter ≡ true }
    requires begun { is_begun (string_bytes into.old) ≡ true }
    ensures { OnOk result (is_word (string_bytes into.new) ≡ true) }
{
    into.push_str(mark_before(into.is_empty(), before, letter, next))?;
    into.push(char::from(letter.to_ascii_lowercase()))
}

/// What comes before a letter or a digit, which may be the first one.
fn mark_before(is_first: bool, before: u8, letter: u8, next: u8) -> &'static str
    requires { is_ascii_alphanumeric letter ≡ true }
    ensures first { is_first ≡ true → is_word (result.now ++ to_ascii_lowercase letter ∷ []) ≡ true }
    ensures later { list_all is_part result.now ≡ true }
{
    if is_first {
        return if letter.is_ascii_digit() { "x_" } else { "" };
    }
    if begins_piece(before, letter, next) {
        "_"
    } else {
        ""
    }
}

/// Whether a letter begins a piece, between the letters before it and after it.
fn begins_piece(before: u8, letter: u8, next: u8) -> bool {
    if !before.is_ascii_alphanumeric() {
        return true;
    }
    letter.is_ascii_uppercase() && (!before.is_ascii_uppercase() || next.is_ascii_lowercase())
}

/// Appends the pieces of a word joined by capitals, the first of which has one where `capital` says so.
fn push_joined(small: &str, capital: bool, into: &mut String) -> Result<(), AllocError>
    requires { is_word small.now ≡ true }
    ensures { OnOk result (AppendsWord (string_bytes into.old) (string_bytes into.new)) }
{
    match small.as_bytes() {
        [first, more @ ..] => {
            push_byte(raised_letter(capital, *first), into)?;
            push_further(more, into)?;
            Ok(())
        }
        [] => Ok(()),
    }
}

/// Appends further letters and digits, with a capital where anything else is between two.
fn push_further(letters: &[u8], into: &mut String) -> Result<(), AllocError>
    ensures { OnOk result (AppendsParts (string_bytes into.old) (string_bytes into.new)) }
{
    let mut raised = false;
    'further: for letter in letters {
        if letter.is_ascii_alphanumeric() {
            push_byte(raised_letter(raised, *letter), into)?;
            raised = false;
        } else {
            raised = true;
        }
    }
    Ok(())
}

/// A letter or a digit, as a capital if it is to be one.
fn raised_letter(raised: bool, letter: u8) -> u8
    ensures part { is_ascii_alphanumeric letter ≡ true → is_ascii_alphanumeric result ≡ true }
    ensures first { is_ascii_alphabetic letter ≡ true → is_ascii_alphabetic result ≡ true }
{
    if raised {
        letter.to_ascii_uppercase()
    } else {
        letter
    }
}

/// Appends a byte of ASCII.
fn push_byte(letter: u8, into: &mut String) -> Result<(), AllocError>
    requires { letter < 128 }
    ensures { OnOk result (string_bytes into.new ≡ string_bytes into.old ++ letter ∷ []) }
{
    into.push(char::from(letter))
}
