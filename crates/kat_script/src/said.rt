//! What a line says, before it is judged.
ghost use Rattle.std.specs.Prelude.{◌≡◌, ◌++◌, ◌∷◌, List, IfOk, IfSome, MatchOption};
ghost use Rattle.kat_num.specs.One.{IsTheOne};
ghost use Rattle.kat_script.specs.Grammar.{constant_marks, constants_marks, line_marks};
ghost use Rattle.kat_script.specs.Front.{HasNoCallee, IsTime, IsWritten, Stops};

use crate::marks::Mark;
use kat_lex::words::{ASK, DELIVER, DO, REPLICAS, SHIP, SHOW};
use kat_num::Items;
use std::alloc::{AllocError, Global};
use std::mem;

/// An argument as it is written: a number, a number with a `-` before it, a name or a truth value.
#[derive(Clone, Copy, PartialEq, Eq, Debug)]
pub enum Constant {
    Natural(u64),
    Negated(u64),
    Named(u128),
    Truth(bool),
}

/// A line by its parts. Replicas are numbers, and names of operations, queries and packets are words.
#[derive(Drop)]
pub enum Said {
    Replicas(u64),
    Does {
        replica: u64,
        op: u128,
        args: Items<Constant>,
        time: Option<u64>,
    },
    Ships {
        replica: u64,
        packet: u128,
    },
    Delivers {
        packet: u128,
        replica: u64,
    },
    Asks {
        replica: u64,
        query: u128,
        args: Items<Constant>,
    },
    Shows {
        replica: u64,
    },
}

impl Said {
    /// Gives the memory of the arguments back.
    pub fn give_back(self, spare: &mut Vec<Constant>) {
        match self {
            Said::Does { args, .. } | Said::Asks { args, .. } => *spare = args.into_vec(),
            Said::Replicas(_) | Said::Ships { .. } | Said::Delivers { .. } | Said::Shows { .. } =>
                {}
        }
    }
}

/// What a line says, or nothing if it is none of the grammar. The arguments are in the memory of the spare
/// buffer.
pub(crate) fn said_by(
    alloc: Global,
    spare: &mut Vec<Constant>,
    marks: &[Mark],
) -> Result<Option<Said>, AllocError>
    ensures { IfOk result (IsTheOne (IsWritten marks.now)) }
{
    match marks {
        [Mark::Word(REPLICAS), rest @ ..] => Ok(opening(rest)),
        [Mark::Word(DO), rest @ ..] => doing(alloc, spare, rest),
        [Mark::Word(SHIP), rest @ ..] => Ok(shipping(rest)),
        [Mark::Word(DELIVER), rest @ ..] => Ok(delivering(rest)),
        [Mark::Word(ASK), rest @ ..] => asking(alloc, spare, rest),
        [Mark::Word(SHOW), rest @ ..] => Ok(showing(rest)),
        _ => Ok(None),
    }
}

fn opening(rest: &[Mark]) -> Option<Said>
    ensures { IsTheOne (IsWritten (Mark.Word REPLICAS ∷ rest.now)) result }
{
    match rest {
        [Mark::Number(n)] => Some(Said::Replicas(*n)),
        _ => None,
    }
}

fn shipping(rest: &[Mark]) -> Option<Said>
    ensures { IsTheOne (IsWritten (Mark.Word SHIP ∷ rest.now)) result }
{
    match rest {
        [Mark::Number(replica), Mark::Word(packet)] => Some(Said::Ships {
            replica: *replica,
            packet: *packet,
        }),
        _ => None,
    }
}

fn delivering(rest: &[Mark]) -> Option<Said>
    ensures { IsTheOne (IsWritten (Mark.Word DELIVER ∷ rest.now)) result }
{
    match rest {
        [Mark::Word(packet), Mark::Number(replica)] => Some(Said::Delivers {
            packet: *packet,
            replica: *replica,
        }),
        _ => None,
    }
}

fn showing(rest: &[Mark]) -> Option<Said>
    ensures { IsTheOne (IsWritten (Mark.Word SHOW ∷ rest.now)) result }
{
    match rest {
        [Mark::Number(replica)] => Some(Said::Shows { replica: *replica }),
        _ => None,
    }
}

#[inline(always)]
fn doing(
    alloc: Global,
    spare: &mut Vec<Constant>,
    rest: &[Mark],
) -> Result<Option<Said>, AllocError>
    ensures { IfOk result (IsTheOne (IsWritten (Mark.Word DO ∷ rest.now))) }
{
    let Some((replica, op, rest)) = callee(rest) else {
        return Ok(None);
    };
    let (args, rest) = constants(alloc, spare, rest)?;
    match time_at_end(rest) {
        Some(time) => Ok(Some(Said::Does {
            replica,
            op,
            args,
            time,
        })),
        None => Ok(None),
    }
}

#[inline(always)]
fn asking(
    alloc: Global,
    spare: &mut Vec<Constant>,
    rest: &[Mark],
) -> Result<Option<Said>, AllocError>
    ensures { IfOk result (IsTheOne (IsWritten (Mark.Word ASK ∷ rest.now))) }
{
    let Some((replica, query, rest)) = callee(rest) else {
        return Ok(None);
    };
    let (args, rest) = constants(alloc, spare, rest)?;
    if rest.is_empty() {
        Ok(Some(Said::Asks {
            replica,
            query,
            args,
        }))
    } else {
        Ok(None)
    }
}

/// The replica and the name at the beginning of a call, and what comes after them.
#[inline(always)]
fn callee(marks: &[Mark]) -> Option<(u64, u128, &[Mark])>
    ensures { MatchOption result (HasNoCallee marks.now)
        (λ found. marks.now ≡ Mark.Number found.0 ∷ Mark.Word found.1 ∷ found.2.now) }
{
    match marks {
        [Mark::Number(replica), Mark::Word(name), rest @ ..] => Some((*replica, *name, rest)),
        _ => None,
    }
}

/// The time that ends an operation, if one is given, or nothing if something else comes there.
#[inline(always)]
fn time_at_end(marks: &[Mark]) -> Option<Option<u64>>
    ensures { IsTheOne (IsTime marks.now) result }
{
    match marks {
        [] => Some(None),
        [Mark::At, Mark::Number(time)] => Some(Some(*time)),
        _ => None,
    }
}

/// The constants at the beginning, as many as there are, and what comes after them.
#[inline(always)]
fn constants<'a>(
    alloc: Global,
    spare: &mut Vec<Constant>,
    marks: &'a [Mark],
) -> Result<(Items<Constant>, &'a [Mark]), AllocError>
    ensures { IfOk result (λ found. (marks.now ≡ constants_marks found.0 ++ found.1.now) × Stops found.1.now) }
{
    let mut found = mem::replace(spare, Vec::new(alloc));
    found.clear();
    let mut rest = marks;
    while let Some((constant, behind)) = first_constant(rest) {
        found.push(constant)?;
        rest = behind;
    }
    Ok((Items::from_vec(found), rest))
}

#[inline(always)]
fn first_constant(marks: &[Mark]) -> Option<(Constant, &[Mark])>
    ensures { MatchOption result (Stops marks.now) (λ found. marks.now ≡ constant_marks found.0 ++ found.1.now) }
{
    match marks {
        [Mark::Number(n), rest @ ..] => Some((Constant::Natural(*n), rest)),
        [Mark::Minus, Mark::Number(n), rest @ ..] => Some((Constant::Negated(*n), rest)),
        [Mark::Name(name), rest @ ..] => Some((Constant::Named(*name), rest)),
        [Mark::True, rest @ ..] => Some((Constant::Truth(true), rest)),
        [Mark::False, rest @ ..] => Some((Constant::Truth(false), rest)),
        _ => None,
    }
}
