//! Calls, and what a line calls.
ghost use Rattle.std.specs.Prelude.{◌≡◌, ◌<◌, IfOk, length};
ghost use Rattle.kat_script.specs.Rules.{HasFewCalls};
ghost use Rattle.kat_actions.specs.Grammar.{Gives, called_by};
ghost use Rattle.kat_actions.specs.Texts.{item_of, judged};

use kat_lex::{Token, TokenKind};
use kat_num::{Items, Value};
use kat_script::{Constant, LINE_LIMIT, Mark, Said, op_of, query_of, said_of};
use kat_type::Signature;
use std::alloc::{AllocError, Global};

/// What the lines of a file do.
#[derive(Clone, Copy, PartialEq, Eq, Debug)]
pub enum Verb {
    /// They do operations: `do OP ARGS`.
    Do,
    /// They ask queries: `ask QUERY ARGS`.
    Ask,
}

/// A line by its parts, before it is judged: the name of its operation or query, and the arguments as they are written.
#[derive(Drop)]
pub struct Called {
    pub name: u128,
    pub args: Items<Constant>,
}

/// A line that is judged: its number, counted over all lines of the file from 1; the number of its operation or query in the
/// signature, from 0; and the arguments.
#[derive(Debug, Drop, PartialEq)]
pub struct Call {
    pub line: u64,
    pub item: u32,
    pub args: Items<Value>,
}

/// The number of replica 1, which comes after the first word of a script's line.
const REPLICA: Token = Token {
    kind: TokenKind::Number(1),
    from: 0,
    to: 0,
};

/// What a line calls, or nothing if it is none of the grammar. It is read as the line of a script at replica 1; the marks and
/// the arguments are in the memory of the buffers.
pub(crate) fn called_in(
    alloc: Global,
    verb: Verb,
    line: &mut Vec<Token>,
    marks: &mut Vec<Mark>,
    spare: &mut Vec<Constant>,
) -> Result<Option<Called>, AllocError>
    requires { 0 < length line.old.items }
    ensures { IfOk result (Gives verb line.old.items) }
{
    line.insert(1, REPLICA)?;
    let said = said_of(alloc, line, marks, spare)?;
    Ok(called_by(verb, said))
}

/// What a line of a script calls without a time.
fn called_by(verb: Verb, said: Option<Said>) -> Option<Called>
    ensures { result ≡ called_by verb said }
{
    match (verb, said) {
        (
            Verb::Do,
            Some(
                Said::Does {
                    op,
                    args,
                    time: None,
                    ..
                },
            ),
        ) => Some(Called { name: op, args }),
        (Verb::Ask, Some(Said::Asks { query, args, .. })) => Some(Called { name: query, args }),
        _ => None,
    }
}

/// The number of the operation or query that is called.
fn item_of(verb: Verb, sig: &Signature, called: &Called) -> Option<u32>
    requires { HasFewCalls sig.now }
    ensures { result ≡ item_of verb sig.now called.now }
{
    let args = called.args.as_slice();
    let found = match verb {
        Verb::Do => op_of(sig, called.name, args),
        Verb::Ask => query_of(sig, called.name, args),
    };
    match found {
        Some(number) => Some(number as u32),
        None => None,
    }
}

/// The number of what a line calls that comes after this many lines, or the number of its refusal.
pub(crate) fn judged(verb: Verb, sig: &Signature, count: usize, called: &Called) -> Result<u32, u8>
    requires { HasFewCalls sig.now }
    ensures { result ≡ judged verb sig.now count called.now }
{
    match item_of(verb, sig, called) {
        None => Err(14),
        Some(_) if count >= LINE_LIMIT as usize => Err(15),
        Some(item) => Ok(item),
    }
}
