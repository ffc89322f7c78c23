//! What a line of a script with deltas says, before it is judged.
ghost use Rattle.std.specs.Prelude.{◌≡◌, ◌∷◌, [], IfOk, IfSome, MatchOption, Option, None};
ghost use Rattle.kat_num.specs.One.{IsTheOne};
ghost use Rattle.kat_delta_script.specs.Grammar.{IsDelta, SaysSo};

use kat_lex::Token;
use kat_script::{Constant, Mark, Said, said_of};
use std::alloc::{AllocError, Global};

/// The word with which a line begins that makes a delta.
pub const DELTA: u128 = 0x64656c7461 << 80;

/// The word before the count that a delta is from.
pub const FROM: u128 = 0x66726f6d << 88;

/// A line by its parts. A delta is said as a line that ships, with the count that it is from.
#[derive(Drop)]
pub struct Statement {
    pub said: Said,
    pub from: Option<u64>,
}

/// What the tokens of a line say, or nothing if they are none of the grammar. The marks and the arguments are in the
/// memory of the buffers.
pub(crate) fn statement_of(
    alloc: Global,
    line: &[Token],
    marks: &mut Vec<Mark>,
    spare: &mut Vec<Constant>,
) -> Result<Option<Statement>, AllocError>
    ensures { IfOk result (IsTheOne (SaysSo line.now)) }
{
    match said_of(alloc, line, marks, spare)? {
        Some(said) => Ok(Some(Statement { said, from: None })),
        None => Ok(delta_of(marks)),
    }
}

/// What a line says that makes a delta, or nothing if the marks are none of such a line.
fn delta_of(marks: &[Mark]) -> Option<Statement>
    ensures { IsTheOne (IsDelta marks.now) result }
{
    match marks {
        [
            Mark::Word(DELTA),
            Mark::Number(replica),
            Mark::Word(packet),
            Mark::Word(FROM),
            Mark::Number(from),
        ] => Some(Statement {
            said: Said::Ships {
                replica: *replica,
                packet: *packet,
            },
            from: Some(*from),
        }),
        _ => None,
    }
}
