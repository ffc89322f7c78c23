//! Expressions that are equal to others, or made of others.

use kat_expr::Expr;
use kat_num::Value;
use kat_reading::boxed;
use std::alloc::{AllocError, Global};

/// An equal expression with memory of its own.
pub fn copied(alloc: Global, expr: &Expr) -> Result<Expr, AllocError> {
    match expr {
        Expr::Const(value) => Ok(Expr::Const(*value)),
        Expr::Arg(place) => Ok(Expr::Arg(*place)),
        Expr::Plain(field) => Ok(Expr::Plain(*field)),
        Expr::Keyed { field, key } => Ok(Expr::Keyed {
            field: *field,
            key: *key,
        }),
        Expr::Not(inner) => {
            let inner = copied(alloc, inner)?;
            Ok(Expr::Not(boxed(alloc, inner)?))
        }
        Expr::And(left, right)
        | Expr::Or(left, right)
        | Expr::Less(left, right)
        | Expr::AtMost(left, right)
        | Expr::Same(left, right)
        | Expr::Plus(left, right)
        | Expr::Minus(left, right)
        | Expr::Max(left, right)
        | Expr::Min(left, right) => {
            let left = copied(alloc, left)?;
            let right = copied(alloc, right)?;
            joined_as(alloc, expr, left, right)
        }
        Expr::If(condition, then, other) => {
            let condition = copied(alloc, condition)?;
            let then = copied(alloc, then)?;
            let other = copied(alloc, other)?;
            conditional(alloc, condition, then, other)
        }
    }
}

/// Two expressions, joined as the two sides of another one are; that is the lesser of both, unless it is one of the others.
pub(crate) fn joined_as(
    alloc: Global,
    as_in: &Expr,
    left: Expr,
    right: Expr,
) -> Result<Expr, AllocError> {
    let left = boxed(alloc, left)?;
    let right = boxed(alloc, right)?;
    match as_in {
        Expr::And(..) => Ok(Expr::And(left, right)),
        Expr::Or(..) => Ok(Expr::Or(left, right)),
        Expr::Less(..) => Ok(Expr::Less(left, right)),
        Expr::AtMost(..) => Ok(Expr::AtMost(left, right)),
        Expr::Same(..) => Ok(Expr::Same(left, right)),
        Expr::Plus(..) => Ok(Expr::Plus(left, right)),
        Expr::Minus(..) => Ok(Expr::Minus(left, right)),
        Expr::Max(..) => Ok(Expr::Max(left, right)),
        _ => Ok(Expr::Min(left, right)),
    }
}

/// The first if the condition holds, and otherwise the second.
pub(crate) fn conditional(
    alloc: Global,
    condition: Expr,
    then: Expr,
    other: Expr,
) -> Result<Expr, AllocError> {
    let condition = boxed(alloc, condition)?;
    let then = boxed(alloc, then)?;
    let other = boxed(alloc, other)?;
    Ok(Expr::If(condition, then, other))
}

/// The sum of two expressions.
pub fn sum_of(alloc: Global, left: Expr, right: Expr) -> Result<Expr, AllocError> {
    let left = boxed(alloc, left)?;
    let right = boxed(alloc, right)?;
    Ok(Expr::Plus(left, right))
}

/// The greater of two expressions.
pub fn greater_of(alloc: Global, left: Expr, right: Expr) -> Result<Expr, AllocError> {
    let left = boxed(alloc, left)?;
    let right = boxed(alloc, right)?;
    Ok(Expr::Max(left, right))
}

/// The lesser of two expressions.
pub fn lesser_of(alloc: Global, left: Expr, right: Expr) -> Result<Expr, AllocError> {
    let left = boxed(alloc, left)?;
    let right = boxed(alloc, right)?;
    Ok(Expr::Min(left, right))
}

/// The value that an expression always has, if it is a constant.
pub fn constant(expr: &Expr) -> Option<Value> {
    match expr {
        Expr::Const(value) => Some(*value),
        _ => None,
    }
}

/// How many nodes an expression has.
pub fn node_count(expr: &Expr) -> usize {
    match expr {
        Expr::Const(_) | Expr::Arg(_) | Expr::Plain(_) | Expr::Keyed { .. } => 1,
        Expr::Not(inner) => node_count(inner).saturating_add(1),
        Expr::And(left, right)
        | Expr::Or(left, right)
        | Expr::Less(left, right)
        | Expr::AtMost(left, right)
        | Expr::Same(left, right)
        | Expr::Plus(left, right)
        | Expr::Minus(left, right)
        | Expr::Max(left, right)
        | Expr::Min(left, right) => node_count(left)
            .saturating_add(node_count(right))
            .saturating_add(1),
        Expr::If(condition, then, other) => node_count(condition)
            .saturating_add(node_count(then))
            .saturating_add(node_count(other))
            .saturating_add(1),
    }
}

/// Whether two expressions are written alike.
pub fn equal(one: &Expr, other: &Expr) -> bool {
    match (one, other) {
        (Expr::Const(x), Expr::Const(y)) => *x == *y,
        (Expr::Arg(x), Expr::Arg(y)) => *x == *y,
        (Expr::Plain(x), Expr::Plain(y)) => *x == *y,
        (Expr::Keyed { field, key }, Expr::Keyed { field: f, key: k }) => {
            *field == *f && *key == *k
        }
        (Expr::Not(x), Expr::Not(y)) => equal(x, y),
        (Expr::And(a, b), Expr::And(x, y)) => equal(a, x) && equal(b, y),
        (Expr::Or(a, b), Expr::Or(x, y)) => equal(a, x) && equal(b, y),
        (Expr::Less(a, b), Expr::Less(x, y)) => equal(a, x) && equal(b, y),
        (Expr::AtMost(a, b), Expr::AtMost(x, y)) => equal(a, x) && equal(b, y),
        (Expr::Same(a, b), Expr::Same(x, y)) => equal(a, x) && equal(b, y),
        (Expr::Plus(a, b), Expr::Plus(x, y)) => equal(a, x) && equal(b, y),
        (Expr::Minus(a, b), Expr::Minus(x, y)) => equal(a, x) && equal(b, y),
        (Expr::Max(a, b), Expr::Max(x, y)) => equal(a, x) && equal(b, y),
        (Expr::Min(a, b), Expr::Min(x, y)) => equal(a, x) && equal(b, y),
        (Expr::If(c, a, b), Expr::If(d, x, y)) => equal(c, d) && equal(a, x) && equal(b, y),
        _ => false,
    }
}
