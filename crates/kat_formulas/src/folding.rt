//! Expressions of which no more is kept than is needed: what is known at once is computed.

use crate::copies::{conditional, constant, copied, equal, greater_of, joined_as, lesser_of};
use crate::values::computed;
use kat_expr::Expr;
use kat_num::Value;
use kat_reading::boxed;
use std::alloc::{AllocError, Global};

/// Two expressions, joined as the two sides of another one are.
pub fn folded(alloc: Global, as_in: &Expr, left: Expr, right: Expr) -> Result<Expr, AllocError> {
    match (as_in, constant(&left), constant(&right)) {
        (_, Some(one), Some(other)) => match computed(as_in, one, other) {
            Some(value) => Ok(Expr::Const(value)),
            None => joined_as(alloc, as_in, left, right),
        },
        (Expr::And(..), Some(Value::Bool(true)), _) => Ok(right),
        (Expr::And(..), Some(Value::Bool(false)), _) => Ok(left),
        (Expr::And(..), _, Some(Value::Bool(true))) => Ok(left),
        (Expr::And(..), _, Some(Value::Bool(false))) => Ok(right),
        (Expr::Or(..), Some(Value::Bool(false)), _) => Ok(right),
        (Expr::Or(..), Some(Value::Bool(true)), _) => Ok(left),
        (Expr::Or(..), _, Some(Value::Bool(false))) => Ok(left),
        (Expr::Or(..), _, Some(Value::Bool(true))) => Ok(right),
        (Expr::Plus(..), Some(Value::Num(0)), _) => Ok(right),
        (Expr::Plus(..), _, Some(Value::Num(0))) => Ok(left),
        (Expr::Minus(..), _, Some(Value::Num(0))) => Ok(left),
        _ => joined_as(alloc, as_in, left, right),
    }
}

/// An expression denied.
pub fn denied(alloc: Global, expr: Expr) -> Result<Expr, AllocError> {
    match &expr {
        Expr::Const(Value::Bool(truth)) => Ok(Expr::Const(Value::Bool(!*truth))),
        Expr::Not(inner) => copied(alloc, inner),
        _ => Ok(Expr::Not(boxed(alloc, expr)?)),
    }
}

/// The first if the condition holds, and otherwise the second; the greater or the lesser of two if the condition compares them.
pub fn choice_of(
    alloc: Global,
    condition: Expr,
    then: Expr,
    other: Expr,
) -> Result<Expr, AllocError> {
    match constant(&condition) {
        Some(Value::Bool(true)) => return Ok(then),
        Some(Value::Bool(false)) => return Ok(other),
        _ => {}
    }
    if equal(&then, &other) {
        return Ok(then);
    }
    if is_below(&condition, &then, &other) {
        return lesser_of(alloc, then, other);
    }
    if is_below(&condition, &other, &then) {
        return greater_of(alloc, then, other);
    }
    match (constant(&then), constant(&other)) {
        (Some(Value::Bool(true)), Some(Value::Bool(false))) => Ok(condition),
        (Some(Value::Bool(false)), Some(Value::Bool(true))) => denied(alloc, condition),
        _ => conditional(alloc, condition, then, other),
    }
}

/// Whether a condition says that the first is less than the second, or at most it.
fn is_below(condition: &Expr, first: &Expr, second: &Expr) -> bool {
    match condition {
        Expr::Less(left, right) | Expr::AtMost(left, right) => {
            equal(left, first) && equal(right, second)
        }
        _ => false,
    }
}
