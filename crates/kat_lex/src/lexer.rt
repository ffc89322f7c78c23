//! The tokens of a text.
ghost use Rattle.std.specs.Prelude.{◌≡◌, ◌⊎◌, All, Err, IfErr, IfOk, List, MatchResult, length};
ghost use Rattle.kat_lex.specs.Kinds.{IsKindRead, token_kinds_of};
ghost use Rattle.kat_lex.specs.Tokens.{Ascend, FaultOf, TellsFault, TokensOf};

use crate::pieces::{Piece, piece_at};
use std::alloc::{AllocFailed, Global};
use thiserror::Error;

/// What a token says. Words and names are carried by their codes (those of `kat_num`), and a sign by
/// its two bytes, the second 0 if it has only one. Each newline byte is a token of its own.
#[derive(Clone, Copy, PartialEq, Eq, Debug)]
pub enum TokenKind {
    Word(u128),
    Name(u128),
    Number(u64),
    Sign(u8, u8),
    Newline,
}

/// A token and its span: the bytes from `from` up to, but not with, `to`.
#[derive(Clone, Copy, PartialEq, Eq, Debug)]
pub struct Token {
    pub kind: TokenKind,
    pub from: usize,
    pub to: usize,
}

/// Why a text has no tokens, with the place of a byte.
#[derive(Clone, Copy, PartialEq, Eq, Debug, Error)]
pub enum LexError {
    /// Nothing begins with this byte; or a name literal meets it, or the end of the text, in place of
    /// its closing quote.
    #[error("nothing begins with the byte at {0}, or a name literal isn't closed there")]
    BadByte(usize),
    /// A word or a name literal that begins at this byte has more than 15 bytes.
    #[error("the word or name at {0} has more than 15 bytes")]
    LongName(usize),
    /// A number that begins at this byte is past the limit.
    #[error("the number at {0} is more than 1000000000000")]
    LongNumber(usize),
    #[error("out of memory")]
    Memory,
}

impl<T: Drop> From<AllocFailed<T>> for LexError {
    ghost use Rattle.kat_lex.specs.declared.lexer.LexError.TheVariants.{Memory};

    ghost from_gives = { λ _ fault. fault ≡ Memory };

    fn from(_failed: AllocFailed<T>) -> LexError {
        LexError::Memory
    }
}

/// The tokens of the whole text, or its first fault in the order of the bytes. Blanks (space, tab and
/// carriage return) and comments, from `#` up to the end of the line, give no token.
pub fn tokens(alloc: Global, bytes: &[u8]) -> Result<Vec<Token>, LexError>
    ensures tokens { IfOk result (λ found. TokensOf bytes.now found.items) }
    ensures fault { IfErr result (λ fault. TellsFault bytes.now fault) }
    ensures every_token { (found : List Token) → TokensOf bytes.now found
        → MatchResult result (λ list. list.items ≡ found) (λ fault. fault ≡ LexError.Memory) }
    ensures first_fault { (fault : LexError) → FaultOf bytes.now fault
        → (result ≡ Err fault) ⊎ (result ≡ Err LexError.Memory) }
    ensures spans { IfOk result (λ found. Ascend 0 (length bytes.now) found.items) }
    ensures kinds { IfOk result (λ found. All IsKindRead (token_kinds_of found.items)) }
{
    let mut found = Vec::new(alloc);
    let mut at = 0;
    while at < bytes.len() {
        match piece_at(bytes, at)? {
            Piece::Gap(to) => at = to,
            Piece::Token(token) => {
                found.push(token)?;
                at = token.to;
            }
        }
    }
    Ok(found)
}
