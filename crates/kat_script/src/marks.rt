//! The tokens of a line, as far as lines tell them apart.
ghost use Rattle.std.specs.Prelude.{◌≡◌, ◌++◌, OnOk};
ghost use Rattle.kat_script.specs.Marks.{mark_of_word, mark_of, marks_of, ends_constant, begins_constant, touches, touches_next, some_touch};

use kat_lex::words::{AT, FALSE, TRUE, is_reserved};
use kat_lex::{Token, TokenKind};
use std::alloc::AllocError;

/// A word that names something, a number, a name literal, one of the reserved words and signs of scripts, or another token, which no line
/// has.
#[derive(Clone, Copy, PartialEq, Eq, Debug)]
pub enum Mark {
    Word(u128),
    Number(u64),
    Name(u128),
    True,
    False,
    At,
    Minus,
    Other,
}

#[inline(always)]
fn mark_of_word(word: u128) -> Mark
    ensures { result ≡ mark_of_word word }
{
    match word {
        TRUE => Mark::True,
        FALSE => Mark::False,
        AT => Mark::At,
        _ if is_reserved(word) => Mark::Other,
        _ => Mark::Word(word),
    }
}

#[inline(always)]
pub(crate) fn mark_of(kind: TokenKind) -> Mark
    ensures { result ≡ mark_of kind }
{
    match kind {
        TokenKind::Word(word) => mark_of_word(word),
        TokenKind::Name(name) => Mark::Name(name),
        TokenKind::Number(n) => Mark::Number(n),
        TokenKind::Sign(b'-', 0) => Mark::Minus,
        TokenKind::Sign(_, _) | TokenKind::Newline => Mark::Other,
    }
}

/// Replaces what is in `into` by the marks of the tokens.
pub(crate) fn fill_marks(tokens: &[Token], into: &mut Vec<Mark>) -> Result<(), AllocError>
    ensures { OnOk result (into.new.items ≡ marks_of tokens.now) }
{
    into.clear();
    for token in tokens {
        into.push(mark_of(token.kind))?;
    }
    Ok(())
}

fn ends_constant(mark: Mark) -> bool
    ensures { result ≡ ends_constant mark }
{
    matches!(
        mark,
        Mark::Number(_) | Mark::Name(_) | Mark::True | Mark::False
    )
}

fn begins_constant(mark: Mark) -> bool
    ensures { result ≡ begins_constant mark }
{
    mark == Mark::Minus || ends_constant(mark)
}

// A blank is between most tokens, so the places are compared before the tokens are looked at.
fn touches(left: &Token, right: &Token) -> bool
    ensures { result ≡ touches left.now right.now }
{
    if left.to != right.from {
        return false;
    }
    ends_constant(mark_of(left.kind)) && begins_constant(mark_of(right.kind))
}

/// Whether a constant ends where the next one begins, with no blank between them.
pub(crate) fn some_touch(tokens: &[Token]) -> bool
    ensures { result ≡ some_touch tokens.now }
{
    match tokens {
        [] => false,
        [left, rest @ ..] => touches_next(left, rest),
    }
}

fn touches_next(left: &Token, tokens: &[Token]) -> bool
    ensures { result ≡ touches_next left.now tokens.now }
{
    let mut left = left;
    for right in tokens {
        if touches(left, right) {
            return true;
        }
        left = right;
    }
    false
}
