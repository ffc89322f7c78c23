//! The tokens of one line of a text, for readers that keep no more than a line.
ghost use Rattle.std.specs.Prelude.{◌≡◌, ◌++◌, ◌≤◌, List, length, IfErr, IfOk, OnErr};
ghost use Rattle.kat_lex.specs.TextLines.{IsLineAdded, TellsLineFault};
ghost use Rattle.kat_lex.specs.declared.lexer.Token.{Token};

use crate::classes::{Class, class_of};
use crate::lexer::{LexError, Token};
use crate::pieces::{number_at, token_at, word_at};
use crate::runs::{LineBytes, run_end};
use std::alloc::Global;

/// Puts the tokens of the line that begins at the place after those in `into`, without the line's newline.
/// It answers the place after the newline, where the next line begins, or `None` if the text ends with
/// this line. The error is the line's own fault, and leaves `into` as it was.
pub fn line_tokens(
    _alloc: Global,
    bytes: &[u8],
    at: usize,
    into: &mut Vec<Token>,
) -> Result<Option<usize>, LexError>
    requires { at ≤ length bytes.now }
    ensures line { IfOk result (λ next. IsLineAdded bytes.now at into.old.items into.new.items next) }
    ensures fault { IfErr result (λ fault. TellsLineFault bytes.now at fault) }
    ensures unchanged { OnErr result (into.new.items ≡ into.old.items) }
{
    let kept = into.len();
    let line = push_line(bytes, at, into);
    if line.is_err() {
        into.truncate(kept);
    }
    line
}

// Words and numbers, which are most tokens, have arms of their own, so that no token is put together from
// the parts of all kinds.
/// The same, but after an error there are some tokens of the line too.
fn push_line(bytes: &[u8], at: usize, into: &mut Vec<Token>) -> Result<Option<usize>, LexError>
    requires { at ≤ length bytes.now }
    ensures line { IfOk result (λ next. IsLineAdded bytes.now at into.old.items into.new.items next) }
    ensures fault { IfErr result (λ fault. TellsLineFault bytes.now at fault) }
    ensures more { OnErr result ((more : List Token) × (into.new.items ≡ into.old.items ++ more)) }
{
    let mut place = at;
    while place < bytes.len() {
        let class = class_of(bytes[place]);
        match class {
            Class::Blank => place += 1,
            Class::Hash => place = run_end::<LineBytes>(bytes, place),
            Class::LineEnd => return Ok(Some(place + 1)),
            Class::Letter => {
                let word = word_at(bytes, place)?;
                into.push(word)?;
                place = word.to;
            }
            Class::Digit => {
                let number = number_at(bytes, place)?;
                into.push(number)?;
                place = number.to;
            }
            _ => {
                let token = token_at(bytes, place, class)?;
                into.push(token)?;
                place = token.to;
            }
        }
    }
    Ok(None)
}
