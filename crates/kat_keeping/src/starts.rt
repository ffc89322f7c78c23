//! Starts of slots, for which a formula has a value.

use crate::pieces::Holds;
use kat_expr::Expr;
use kat_formulas::value_of;
use kat_num::Value;
use kat_reading::push;
use std::alloc::{AllocError, Global};

/// How many slots there are of a kind.
pub const OF_KIND: u32 = 4;

/// How many slots there are of all kinds: of numbers, names and truth values.
pub const CODES: u32 = 12;

/// The first code of a kind.
pub fn first_code(holds: Holds) -> u32 {
    match holds {
        Holds::Number => 0,
        Holds::Name => OF_KIND,
        Holds::Truth => OF_KIND.saturating_mul(2),
    }
}

/// What the slot of a code holds.
pub fn held_by(code: u32) -> Holds {
    if code < OF_KIND {
        return Holds::Number;
    }
    if code < OF_KIND.saturating_mul(2) {
        return Holds::Name;
    }
    Holds::Truth
}

/// The start of the slot of a code.
#[derive(Clone, Copy, PartialEq, Eq, Debug)]
pub struct Solved {
    pub code: u32,
    pub value: Value,
}

/// How many values are tried for a slot, at most.
const TRIED: usize = 16;

/// Starts for which a formula over codes has a value, if any are found among few: 0, the value itself, and the constants of the
/// formula and what is next to them. At most three slots vary.
pub fn solve(
    alloc: Global,
    formula: &Expr,
    value: Value,
) -> Result<Option<Vec<Solved>>, AllocError> {
    let mut codes = Vec::new(alloc);
    let mut all = Vec::new(alloc);
    for code in 0..CODES {
        if reads_code(formula, code) {
            push(&mut codes, code)?;
            push(&mut all, candidates(alloc, formula, held_by(code), value)?)?;
        }
    }
    for turn in 0..turns(codes.len()) {
        let mut left = turn;
        let mut starts = Vec::new(alloc);
        for (code, candidates) in codes.iter().zip(all.iter()) {
            if let Some(found) = candidates.get(left % TRIED) {
                push(
                    &mut starts,
                    Solved {
                        code: *code,
                        value: *found,
                    },
                )?;
            }
            left /= TRIED;
        }
        if starts.len() == codes.len() && has_value(alloc, formula, &starts, value)? {
            return Ok(Some(starts));
        }
    }
    Ok(None)
}

/// How many starts are tried for so many slots.
fn turns(slots: usize) -> usize {
    match slots {
        0 => 1,
        1 => 16,
        2 => 256,
        _ => 4_096,
    }
}

/// Whether a formula reads a code.
fn reads_code(formula: &Expr, code: u32) -> bool {
    match formula {
        Expr::Arg(place) => *place == code,
        Expr::Const(_) | Expr::Plain(_) | Expr::Keyed { .. } => false,
        Expr::Not(inner) => reads_code(inner, code),
        Expr::And(left, right)
        | Expr::Or(left, right)
        | Expr::Less(left, right)
        | Expr::AtMost(left, right)
        | Expr::Same(left, right)
        | Expr::Plus(left, right)
        | Expr::Minus(left, right)
        | Expr::Max(left, right)
        | Expr::Min(left, right) => reads_code(left, code) || reads_code(right, code),
        Expr::If(condition, then, other) => {
            reads_code(condition, code) || reads_code(then, code) || reads_code(other, code)
        }
    }
}

/// Whether a formula has a value with these starts.
fn has_value(
    alloc: Global,
    formula: &Expr,
    starts: &[Solved],
    value: Value,
) -> Result<bool, AllocError> {
    let mut args = Vec::new(alloc);
    for code in 0..CODES {
        let mut own = Value::Bool(false);
        for solved in starts {
            if solved.code == code {
                own = solved.value;
            }
        }
        push(&mut args, own)?;
    }
    Ok(value_of(formula, &args) == Some(value))
}

/// Values for a slot.
fn candidates(
    alloc: Global,
    formula: &Expr,
    holds: Holds,
    value: Value,
) -> Result<Vec<Value>, AllocError> {
    let mut found = Vec::new(alloc);
    match holds {
        Holds::Truth => {
            push(&mut found, Value::Bool(false))?;
            push(&mut found, Value::Bool(true))?;
        }
        Holds::Number => {
            push(&mut found, Value::Num(0))?;
            push_value(value, holds, &mut found)?;
            push_constants(formula, holds, &mut found)?;
            push_value(Value::Num(1), holds, &mut found)?;
            push_value(Value::Num(-1), holds, &mut found)?;
        }
        Holds::Name => {
            push_value(value, holds, &mut found)?;
            push_value(Value::Name(0), holds, &mut found)?;
            push_constants(formula, holds, &mut found)?;
        }
    }
    Ok(found)
}

/// Appends a value, if it is of the kind and not among them.
fn push_value(value: Value, holds: Holds, into: &mut Vec<Value>) -> Result<(), AllocError> {
    let fits = match (value, holds) {
        (Value::Num(_), Holds::Number) | (Value::Name(_), Holds::Name) => true,
        _ => false,
    };
    if !fits || into.iter().any(|own| *own == value) {
        return Ok(());
    }
    push(into, value)
}

/// Appends the constants of a formula, and what is next to numbers.
fn push_constants(formula: &Expr, holds: Holds, into: &mut Vec<Value>) -> Result<(), AllocError> {
    match formula {
        Expr::Const(value) => push_near(*value, holds, into),
        Expr::Arg(_) | Expr::Plain(_) | Expr::Keyed { .. } => Ok(()),
        Expr::Not(inner) => push_constants(inner, holds, into),
        Expr::And(left, right)
        | Expr::Or(left, right)
        | Expr::Less(left, right)
        | Expr::AtMost(left, right)
        | Expr::Same(left, right)
        | Expr::Plus(left, right)
        | Expr::Minus(left, right)
        | Expr::Max(left, right)
        | Expr::Min(left, right) => {
            push_constants(left, holds, into)?;
            push_constants(right, holds, into)
        }
        Expr::If(condition, then, other) => {
            push_constants(condition, holds, into)?;
            push_constants(then, holds, into)?;
            push_constants(other, holds, into)
        }
    }
}

/// Appends a constant, what is next to it, and the same with the other sign.
fn push_near(value: Value, holds: Holds, into: &mut Vec<Value>) -> Result<(), AllocError> {
    push_value(value, holds, into)?;
    if let Value::Num(number) = value {
        push_value(Value::Num(number.saturating_sub(1)), holds, into)?;
        push_value(Value::Num(number.saturating_add(1)), holds, into)?;
        push_value(Value::Num(0_i128.saturating_sub(number)), holds, into)?;
    }
    Ok(())
}
