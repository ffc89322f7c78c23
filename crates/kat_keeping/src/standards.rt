//! Formulas that are written in one way, so that equal ones are found to be equal.

use kat_expr::Expr;
use kat_formulas::{Linear, copied, difference, linear_of, spelled};
use kat_num::Value;
use kat_reading::{Miss, boxed, push};
use std::alloc::Global;

/// An expression whose sums and comparisons of numbers are written in one way.
pub(crate) fn standard(alloc: Global, expr: &Expr) -> Result<Expr, Miss> {
    match expr {
        Expr::Plus(..) | Expr::Minus(..) => spelled(alloc, &linear_of(alloc, expr)?),
        Expr::Less(left, right) if is_number(left) || is_number(right) => {
            let less = boxed(alloc, excess(alloc, left, right)?)?;
            Ok(Expr::Less(less, boxed(alloc, excess(alloc, right, left)?)?))
        }
        Expr::AtMost(left, right) if is_number(left) || is_number(right) => {
            let less = boxed(alloc, excess(alloc, left, right)?)?;
            Ok(Expr::AtMost(less, boxed(alloc, excess(alloc, right, left)?)?))
        }
        Expr::Same(left, right) if is_number(left) || is_number(right) => {
            let less = boxed(alloc, excess(alloc, left, right)?)?;
            Ok(Expr::Same(less, boxed(alloc, excess(alloc, right, left)?)?))
        }
        Expr::Not(inner) => {
            let inner = standard(alloc, inner)?;
            Ok(Expr::Not(boxed(alloc, inner)?))
        }
        Expr::And(left, right) => {
            let left = boxed(alloc, standard(alloc, left)?)?;
            Ok(Expr::And(left, boxed(alloc, standard(alloc, right)?)?))
        }
        Expr::Or(left, right) => {
            let left = boxed(alloc, standard(alloc, left)?)?;
            Ok(Expr::Or(left, boxed(alloc, standard(alloc, right)?)?))
        }
        Expr::If(condition, then, other) => {
            let condition = boxed(alloc, standard(alloc, condition)?)?;
            let then = boxed(alloc, standard(alloc, then)?)?;
            Ok(Expr::If(condition, then, boxed(alloc, standard(alloc, other)?)?))
        }
        _ => Ok(copied(alloc, expr)?),
    }
}

/// Whether an expression is a sum, a difference or a constant number.
fn is_number(expr: &Expr) -> bool {
    match expr {
        Expr::Plus(..) | Expr::Minus(..) | Expr::Const(Value::Num(_)) => true,
        _ => false,
    }
}

/// What the first number has that the second hasn't: what is added in their difference.
fn excess(alloc: Global, one: &Expr, rest: &Expr) -> Result<Expr, Miss> {
    let one = linear_of(alloc, one)?;
    let rest = linear_of(alloc, rest)?;
    let apart = difference(alloc, &one, &rest)?;
    let mut terms = Vec::new(alloc);
    for term in &apart.terms {
        if term.factor > 0 {
            push(&mut terms, *term)?;
        }
    }
    let constant = if apart.constant > 0 {
        apart.constant
    } else {
        0
    };
    spelled(alloc, &Linear { constant, terms })
}
