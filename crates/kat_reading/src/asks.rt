//! Asks, made of others; what is known at once isn't asked.

use kat_design::Ask;
use kat_num::Value;
use std::alloc::{AllocError, Global};

/// The truth value that an ask always gives.
pub(crate) fn known(ask: &Ask) -> Option<bool> {
    match ask {
        Ask::Const(Value::Bool(truth)) => Some(*truth),
        _ => None,
    }
}

/// A truth value.
pub(crate) fn truth(value: bool) -> Ask {
    Ask::Const(Value::Bool(value))
}

/// Denied.
pub fn negated(alloc: Global, ask: Ask) -> Result<Ask, AllocError> {
    match &ask {
        Ask::Const(Value::Bool(value)) => Ok(truth(!*value)),
        Ask::Not(inner) => inner.copy(alloc),
        other => match one_denied(alloc, other)? {
            Some(either) => Ok(either),
            None => Ok(Ask::Not(Box::new(alloc, ask)?)),
        },
    }
}

/// Of denials that are joined by `and`, none of them of a comparison, one of what they deny.
fn one_denied(alloc: Global, ask: &Ask) -> Result<Option<Ask>, AllocError> {
    match ask {
        Ask::Not(inner) if !is_less(inner) => Ok(Some(inner.copy(alloc)?)),
        Ask::And(left, right) => match (one_denied(alloc, left)?, one_denied(alloc, right)?) {
            (Some(first), Some(second)) => Ok(Some(either(alloc, first, second)?)),
            _ => Ok(None),
        },
        _ => Ok(None),
    }
}

/// Whether an ask is a comparison.
fn is_less(ask: &Ask) -> bool {
    match ask {
        Ask::Less(..) => true,
        _ => false,
    }
}

/// Both.
pub fn both(alloc: Global, left: Ask, right: Ask) -> Result<Ask, AllocError> {
    match (known(&left), known(&right)) {
        (Some(true), _) => Ok(right),
        (_, Some(true)) => Ok(left),
        (Some(false), _) => Ok(left),
        (_, Some(false)) => Ok(right),
        _ => {
            let left = Box::new(alloc, left)?;
            let right = Box::new(alloc, right)?;
            Ok(Ask::And(left, right))
        }
    }
}

/// One of both.
pub fn either(alloc: Global, left: Ask, right: Ask) -> Result<Ask, AllocError> {
    match (known(&left), known(&right)) {
        (Some(false), _) => Ok(right),
        (_, Some(false)) => Ok(left),
        (Some(true), _) => Ok(left),
        (_, Some(true)) => Ok(right),
        _ => {
            let left = Box::new(alloc, left)?;
            let right = Box::new(alloc, right)?;
            Ok(Ask::Or(left, right))
        }
    }
}

/// The sum.
pub fn plus(alloc: Global, left: Ask, right: Ask) -> Result<Ask, AllocError> {
    let left = Box::new(alloc, left)?;
    let right = Box::new(alloc, right)?;
    Ok(Ask::Plus(left, right))
}

/// The difference.
pub fn minus(alloc: Global, left: Ask, right: Ask) -> Result<Ask, AllocError> {
    let left = Box::new(alloc, left)?;
    let right = Box::new(alloc, right)?;
    Ok(Ask::Minus(left, right))
}

/// Whether the first is less.
pub fn less(alloc: Global, left: &Ask, right: &Ask) -> Result<Ask, AllocError> {
    match (left, right) {
        (Ask::Const(Value::Num(x)), Ask::Const(Value::Num(y))) => Ok(truth(*x < *y)),
        (Ask::Const(Value::Name(x)), Ask::Const(Value::Name(y))) => Ok(truth(*x < *y)),
        _ => {
            let left = Box::new(alloc, left.copy(alloc)?)?;
            let right = Box::new(alloc, right.copy(alloc)?)?;
            Ok(Ask::Less(left, right))
        }
    }
}

/// The first if the condition holds, and otherwise the second; no more of the condition than is needed if one of them is known.
pub fn chosen(alloc: Global, when: &Ask, then: Ask, other: Ask) -> Result<Ask, AllocError> {
    let first = known(&then);
    let second = known(&other);
    if first.is_some() && first == second {
        return Ok(then);
    }
    if first == Some(true) {
        return where_not(alloc, when, other);
    }
    if second == Some(true) {
        return where_holds(alloc, when, then);
    }
    by_cases(alloc, when, then, other)
}

/// True if the condition holds, and otherwise what is asked.
fn where_not(alloc: Global, when: &Ask, ask: Ask) -> Result<Ask, AllocError> {
    let when = when.copy(alloc)?;
    either(alloc, when, ask)
}

/// What is asked if the condition holds, and otherwise true.
fn where_holds(alloc: Global, when: &Ask, ask: Ask) -> Result<Ask, AllocError> {
    let unless = unless(alloc, when)?;
    either(alloc, unless, ask)
}

/// The condition with the first, or its denial with the second.
fn by_cases(alloc: Global, when: &Ask, then: Ask, other: Ask) -> Result<Ask, AllocError> {
    let then = both(alloc, when.copy(alloc)?, then)?;
    let unless = unless(alloc, when)?;
    let other = both(alloc, unless, other)?;
    either(alloc, then, other)
}

/// The condition denied.
fn unless(alloc: Global, when: &Ask) -> Result<Ask, AllocError> {
    let when = when.copy(alloc)?;
    negated(alloc, when)
}
