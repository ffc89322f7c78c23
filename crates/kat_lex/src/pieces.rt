//! One piece of a text: a token, a gap between tokens, or a fault.
ghost use Rattle.std.specs.Prelude.{◌≡◌, ◌<◌, length};
ghost use Rattle.kat_lex.specs.Classes.{byte_at, class_of};
ghost use Rattle.kat_lex.specs.Found.{IsPiece, IsTokenAt};

use crate::classes::{Class, class_of, is_double};
use crate::codes::code_at;
use crate::lexer::{LexError, Token, TokenKind};
use crate::numbers::digits_at;
use crate::runs::{LineBytes, NameBytes, run_end};
use kat_num::{NAME_LIMIT, NUMBER_LIMIT, code_of};

/// A token, or a gap up to a place.
pub enum Piece {
    Gap(usize),
    Token(Token),
}

/// The piece that begins at the place.
pub fn piece_at(bytes: &[u8], at: usize) -> Result<Piece, LexError>
    requires { at < length bytes.now }
    ensures { IsPiece bytes.now at result }
{
    let class = class_of(bytes[at]);
    match class {
        Class::LineEnd => Ok(Piece::Token(token(TokenKind::Newline, at, at + 1))),
        Class::Hash => Ok(Piece::Gap(run_end::<LineBytes>(bytes, at))),
        Class::Blank => Ok(Piece::Gap(at + 1)),
        _ => match token_at(bytes, at, class) {
            Ok(token) => Ok(Piece::Token(token)),
            Err(fault) => Err(fault),
        },
    }
}

/// The token at a place that has neither a gap nor a newline, but a byte of this class.
#[inline(always)]
pub fn token_at(bytes: &[u8], at: usize, class: Class) -> Result<Token, LexError>
    requires in_text { at < length bytes.now }
    requires class { class ≡ class_of (byte_at bytes.now at) }
    requires no_newline { class ≡ Class.LineEnd → ⊥ }
    requires no_comment { class ≡ Class.Hash → ⊥ }
    requires no_blank { class ≡ Class.Blank → ⊥ }
    ensures { IsTokenAt bytes.now at result }
{
    match class {
        Class::Letter => word_at(bytes, at),
        Class::Digit => number_at(bytes, at),
        Class::Quote => literal_at(bytes, at),
        Class::Mark => Ok(sign_at(bytes, at)),
        Class::Other | Class::LineEnd | Class::Hash | Class::Blank => Err(LexError::BadByte(at)),
    }
}

/// A token by its parts.
fn token(kind: TokenKind, from: usize, to: usize) -> Token
    ensures { result ≡ (record { kind = kind; from = from; to = to }) }
{
    Token { kind, from, to }
}

/// The word at the place.
#[inline(always)]
pub fn word_at(bytes: &[u8], at: usize) -> Result<Token, LexError>
    requires in_text { at < length bytes.now }
    requires class { class_of (byte_at bytes.now at) ≡ Class.Letter }
    ensures { IsTokenAt bytes.now at result }
{
    match code_at(bytes, at) {
        Some((to, code)) => Ok(token(TokenKind::Word(code), at, to)),
        None => Err(LexError::LongName(at)),
    }
}

/// The number at the place.
#[inline(always)]
pub fn number_at(bytes: &[u8], at: usize) -> Result<Token, LexError>
    requires in_text { at < length bytes.now }
    requires class { class_of (byte_at bytes.now at) ≡ Class.Digit }
    ensures { IsTokenAt bytes.now at result }
{
    let (to, value) = digits_at(bytes, at);
    if value > NUMBER_LIMIT {
        Err(LexError::LongNumber(at))
    } else {
        Ok(token(TokenKind::Number(value), at, to))
    }
}

/// The name literal of which the opening quote is at the place.
fn literal_at(bytes: &[u8], quote: usize) -> Result<Token, LexError>
    requires in_text { quote < length bytes.now }
    requires class { class_of (byte_at bytes.now quote) ≡ Class.Quote }
    ensures { IsTokenAt bytes.now quote result }
{
    let end = run_end::<NameBytes>(bytes, quote + 1);
    if end == bytes.len() || bytes[end] != b'"' {
        return Err(LexError::BadByte(end));
    }
    if end - quote > NAME_LIMIT + 1 {
        return Err(LexError::LongName(quote));
    }
    Ok(token(
        TokenKind::Name(code_of(&bytes[quote + 1..end])),
        quote,
        end + 1,
    ))
}

/// The sign at the place, the longest match.
fn sign_at(bytes: &[u8], at: usize) -> Token
    requires in_text { at < length bytes.now }
    requires class { class_of (byte_at bytes.now at) ≡ Class.Mark }
    ensures { IsTokenAt bytes.now at (Ok result) }
{
    let first = bytes[at];
    if at + 1 < bytes.len() && is_double(first, bytes[at + 1]) {
        token(TokenKind::Sign(first, bytes[at + 1]), at, at + 2)
    } else {
        token(TokenKind::Sign(first, 0), at, at + 1)
    }
}
