//! Expressions in which fields and arguments are replaced.

use crate::copies::{copied, equal, joined_as};
use crate::folding::{choice_of, denied, folded};
use kat_expr::Expr;
use kat_num::Value;
use std::alloc::{AllocError, Global};

/// The expression with readings in the place of the fields, and with other expressions in the place of the arguments, if there
/// are such; what is known then is computed. In a reading the key 0 is that of the field.
pub fn replaced(
    alloc: Global,
    expr: &Expr,
    readings: &[Option<Expr>],
    args: &[Option<Expr>],
) -> Result<Expr, AllocError> {
    match expr {
        Expr::Const(value) => Ok(Expr::Const(*value)),
        Expr::Arg(place) => match args.get(*place as usize) {
            Some(Some(other)) => copied(alloc, other),
            _ => Ok(Expr::Arg(*place)),
        },
        Expr::Plain(field) => read_by(alloc, expr, readings, *field, None),
        Expr::Keyed { field, key } => read_by(alloc, expr, readings, *field, Some(*key)),
        Expr::Not(inner) => {
            let inner = replaced(alloc, inner, readings, args)?;
            denied(alloc, inner)
        }
        Expr::And(left, right)
        | Expr::Or(left, right)
        | Expr::Less(left, right)
        | Expr::AtMost(left, right)
        | Expr::Same(left, right)
        | Expr::Plus(left, right)
        | Expr::Minus(left, right)
        | Expr::Max(left, right)
        | Expr::Min(left, right) => {
            let left = replaced(alloc, left, readings, args)?;
            let right = replaced(alloc, right, readings, args)?;
            folded(alloc, expr, left, right)
        }
        Expr::If(condition, then, other) => {
            let condition = replaced(alloc, condition, readings, args)?;
            let then = replaced(alloc, then, readings, args)?;
            let other = replaced(alloc, other, readings, args)?;
            choice_of(alloc, condition, then, other)
        }
    }
}

/// The reading of a field, or the expression itself if there is none.
fn read_by(
    alloc: Global,
    expr: &Expr,
    readings: &[Option<Expr>],
    field: u32,
    key: Option<u32>,
) -> Result<Expr, AllocError> {
    match (readings.get(field as usize), key) {
        (Some(Some(reading)), None) => copied(alloc, reading),
        (Some(Some(reading)), Some(place)) => at_key(alloc, reading, place),
        _ => copied(alloc, expr),
    }
}

/// A reading at the key that is the argument with a number.
pub fn at_key(alloc: Global, reading: &Expr, key: u32) -> Result<Expr, AllocError> {
    match reading {
        Expr::Const(_) | Expr::Arg(_) | Expr::Plain(_) => copied(alloc, reading),
        Expr::Keyed { field, .. } => Ok(Expr::Keyed { field: *field, key }),
        Expr::Not(inner) => {
            let inner = at_key(alloc, inner, key)?;
            denied(alloc, inner)
        }
        Expr::And(left, right)
        | Expr::Or(left, right)
        | Expr::Less(left, right)
        | Expr::AtMost(left, right)
        | Expr::Same(left, right)
        | Expr::Plus(left, right)
        | Expr::Minus(left, right)
        | Expr::Max(left, right)
        | Expr::Min(left, right) => {
            let left = at_key(alloc, left, key)?;
            let right = at_key(alloc, right, key)?;
            joined_as(alloc, reading, left, right)
        }
        Expr::If(condition, then, other) => {
            let condition = at_key(alloc, condition, key)?;
            let then = at_key(alloc, then, key)?;
            let other = at_key(alloc, other, key)?;
            choice_of(alloc, condition, then, other)
        }
    }
}

/// The expression with a value in the place of another expression; what is known then is computed.
pub fn assumed(alloc: Global, expr: &Expr, known: &Expr, value: Value) -> Result<Expr, AllocError> {
    if equal(expr, known) {
        return Ok(Expr::Const(value));
    }
    match expr {
        Expr::Const(_) | Expr::Arg(_) | Expr::Plain(_) | Expr::Keyed { .. } => copied(alloc, expr),
        Expr::Not(inner) => {
            let inner = assumed(alloc, inner, known, value)?;
            denied(alloc, inner)
        }
        Expr::And(left, right)
        | Expr::Or(left, right)
        | Expr::Less(left, right)
        | Expr::AtMost(left, right)
        | Expr::Same(left, right)
        | Expr::Plus(left, right)
        | Expr::Minus(left, right)
        | Expr::Max(left, right)
        | Expr::Min(left, right) => {
            let left = assumed(alloc, left, known, value)?;
            let right = assumed(alloc, right, known, value)?;
            folded(alloc, expr, left, right)
        }
        Expr::If(condition, then, other) => {
            let condition = assumed(alloc, condition, known, value)?;
            let then = assumed(alloc, then, known, value)?;
            let other = assumed(alloc, other, known, value)?;
            choice_of(alloc, condition, then, other)
        }
    }
}
