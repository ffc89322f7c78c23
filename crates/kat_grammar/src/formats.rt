//! What the format of a text changes in its marks, and how its first line says the format.
ghost use Rattle.std.specs.Prelude.{◌≡◌};
ghost use Rattle.kat_grammar.specs.Marks.{begins_second, in_format, is_newline, is_second, says_second};

use crate::marks::Mark;
use crate::words::mark_of;
use kat_lex::Token;
use kat_lex::words::CLEAR;

/// A mark as it is in its format: in format 2 the word `clear` names nothing.
pub fn in_format(second: bool, mark: Mark) -> Mark
    ensures { result ≡ in_format second mark }
{
    match mark {
        Mark::Word(code) => {
            if second && code == CLEAR {
                Mark::Clear
            } else {
                mark
            }
        }
        _ => mark,
    }
}

fn says_second(first: Mark, name: Mark, format: Mark) -> bool
    ensures { result ≡ says_second first name format }
{
    match (first, name, format) {
        (Mark::TypeLine, Mark::Word(_), Mark::Number(number)) => number == 2,
        _ => false,
    }
}

fn begins_second(tokens: &[Token]) -> bool
    ensures { result ≡ begins_second tokens.now }
{
    match tokens {
        [first, name, format, ..] => {
            says_second(
                mark_of(first.kind),
                mark_of(name.kind),
                mark_of(format.kind),
            )
        }
        _ => false,
    }
}

/// Whether a mark ends a line.
pub fn is_newline(mark: Mark) -> bool
    ensures { result ≡ is_newline mark }
{
    matches!(mark, Mark::Newline)
}

/// Whether the tokens are those of a text of format 2: its first line that isn't blank begins with `type`, a word
/// and the number 2.
pub fn is_second(tokens: &[Token]) -> bool
    ensures { result ≡ is_second tokens.now }
{
    let mut i = 0;
    'blank: while i < tokens.len() {
        if !is_newline(mark_of(tokens[i].kind)) {
            return begins_second(&tokens[i..]);
        }
        i += 1;
    }
    false
}
