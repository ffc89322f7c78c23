//! Comparisons of fields that go by steps with constants: each is what tells whether a step was reached.

use kat_expr::Expr;
use kat_formulas::{choice_of, copied, denied, folded, replaced};
use kat_keeping::{Joint, Store, joined_by};
use kat_num::Value;
use kat_reading::push;
use std::alloc::{AllocError, Global};

/// A comparison of a field that goes by steps with a constant.
#[derive(Clone, Copy)]
struct Compared {
    field: u32,
    bound: i128,
    how: How,
}

/// How a field is compared with a bound.
#[derive(Clone, Copy, PartialEq, Eq, Debug)]
enum How {
    AtLeast,
    Below,
    Equal,
}

/// An expression in which comparisons of fields that go by steps with constants are what tells them.
pub(crate) fn by_steps(alloc: Global, store: &Store, expr: &Expr) -> Result<Expr, AllocError> {
    if let Some(compared) = compared_in(store, expr) {
        return told(alloc, store, expr, compared);
    }
    match expr {
        Expr::Const(_) | Expr::Arg(_) | Expr::Plain(_) | Expr::Keyed { .. } => copied(alloc, expr),
        Expr::Not(inner) => {
            let inner = by_steps(alloc, store, inner)?;
            denied(alloc, inner)
        }
        Expr::And(left, right)
        | Expr::Or(left, right)
        | Expr::Less(left, right)
        | Expr::AtMost(left, right)
        | Expr::Same(left, right)
        | Expr::Plus(left, right)
        | Expr::Minus(left, right)
        | Expr::Max(left, right)
        | Expr::Min(left, right) => {
            let left = by_steps(alloc, store, left)?;
            let right = by_steps(alloc, store, right)?;
            folded(alloc, expr, left, right)
        }
        Expr::If(condition, then, other) => {
            let condition = by_steps(alloc, store, condition)?;
            let then = by_steps(alloc, store, then)?;
            let other = by_steps(alloc, store, other)?;
            choice_of(alloc, condition, then, other)
        }
    }
}

/// What an expression compares, if that is a field that goes by steps, and a constant.
fn compared_in(store: &Store, expr: &Expr) -> Option<Compared> {
    let (field, bound, how) = match expr {
        Expr::AtMost(left, right) => match (number(left), number(right)) {
            (Some(bound), None) => (field_of(right), Some(bound), How::AtLeast),
            (None, Some(bound)) => (field_of(left), bound.checked_add(1), How::Below),
            _ => return None,
        },
        Expr::Less(left, right) => match (number(left), number(right)) {
            (Some(bound), None) => (field_of(right), bound.checked_add(1), How::AtLeast),
            (None, Some(bound)) => (field_of(left), Some(bound), How::Below),
            _ => return None,
        },
        Expr::Same(left, right) => match (number(left), number(right)) {
            (Some(bound), None) => (field_of(right), Some(bound), How::Equal),
            (None, Some(bound)) => (field_of(left), Some(bound), How::Equal),
            _ => return None,
        },
        _ => return None,
    };
    match (field, bound) {
        (Some(field), Some(bound)) if store.steps.iter().any(|step| step.field == field) => {
            Some(Compared { field, bound, how })
        }
        _ => None,
    }
}

/// The number that an expression is.
fn number(expr: &Expr) -> Option<i128> {
    match expr {
        Expr::Const(Value::Num(number)) => Some(*number),
        _ => None,
    }
}

/// The field that an expression reads, if it does nothing else.
fn field_of(expr: &Expr) -> Option<u32> {
    match expr {
        Expr::Plain(field) => Some(*field),
        Expr::Keyed { field, .. } => Some(*field),
        _ => None,
    }
}

/// What tells a comparison.
fn told(alloc: Global, store: &Store, expr: &Expr, compared: Compared) -> Result<Expr, AllocError> {
    let at_least = reached(alloc, store, expr, compared.field, Some(compared.bound))?;
    match compared.how {
        How::AtLeast => Ok(at_least),
        How::Below => denied(alloc, at_least),
        How::Equal => {
            let next = compared.bound.checked_add(1);
            let beyond = reached(alloc, store, expr, compared.field, next)?;
            let below = denied(alloc, beyond)?;
            joined_by(alloc, Joint::All, at_least, below)
        }
    }
}

/// Whether a field, read at the key of the expression, is at least a bound: whether it has reached the lowest step that isn't below it.
fn reached(
    alloc: Global,
    store: &Store,
    expr: &Expr,
    field: u32,
    bound: Option<i128>,
) -> Result<Expr, AllocError> {
    let mut lowest = None;
    let mut when = Expr::Const(Value::Bool(false));
    if let Some(bound) = bound {
        for step in &store.steps {
            if step.field == field && bound <= step.bound && is_lower(step.bound, lowest) {
                lowest = Some(step.bound);
                when = copied(alloc, &step.when)?;
            }
        }
    }
    let mut readings = Vec::new(alloc);
    for _ in 0..field {
        push(&mut readings, None)?;
    }
    push(&mut readings, Some(when))?;
    replaced(alloc, &read_in(expr, field), &readings, &[])
}

/// Whether a number is less than another one, if there is one.
fn is_lower(number: i128, found: Option<i128>) -> bool {
    match found {
        None => true,
        Some(found) => number < found,
    }
}

/// How a comparison reads a field.
fn read_in(expr: &Expr, field: u32) -> Expr {
    match expr {
        Expr::AtMost(left, right) | Expr::Less(left, right) | Expr::Same(left, right) => {
            match (key_in(left), key_in(right)) {
                (Some(key), _) | (_, Some(key)) => Expr::Keyed { field, key },
                _ => Expr::Plain(field),
            }
        }
        _ => Expr::Plain(field),
    }
}

/// The key at which an expression reads a field.
fn key_in(expr: &Expr) -> Option<u32> {
    match expr {
        Expr::Keyed { key, .. } => Some(*key),
        _ => None,
    }
}
