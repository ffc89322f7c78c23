//! Comparisons of what formulas mean.

use crate::combinations::Linear;
use crate::scopes::Scope;
use crate::sums::{Meaning, sum, turned};
use crate::writing::less_than_0;
use kat_design::Ask;
use kat_reading::{Miss, asked_both, asked_choice, asked_either, asked_less, asked_not};
use std::alloc::{AllocError, Global};

/// Whether the first is less, or if `or_equal` at most the second.
pub(crate) fn compared(
    alloc: Global,
    scope: &Scope,
    left: &Meaning,
    right: &Meaning,
    or_equal: bool,
) -> Result<Ask, Miss> {
    if is_name(left) {
        if or_equal {
            let above = name_below(alloc, right, left)?;
            return Ok(asked_not(alloc, above)?);
        }
        return name_below(alloc, left, right);
    }
    let apart = sum(alloc, left, &turned(alloc, right)?)?;
    negative(alloc, scope, &apart, or_equal)
}

/// Whether both are equal.
pub(crate) fn same(
    alloc: Global,
    scope: &Scope,
    left: &Meaning,
    right: &Meaning,
) -> Result<Ask, Miss> {
    match (left, right) {
        (Meaning::Truth(one), Meaning::Truth(other)) => Ok(same_truths(alloc, one, other)?),
        _ => {
            let above = compared(alloc, scope, right, left, false)?;
            let below = compared(alloc, scope, left, right, false)?;
            let not_above = asked_not(alloc, above)?;
            let not_below = asked_not(alloc, below)?;
            Ok(asked_both(alloc, not_above, not_below)?)
        }
    }
}

/// Whether two truth values are equal.
fn same_truths(alloc: Global, one: &Ask, other: &Ask) -> Result<Ask, AllocError> {
    let unless = asked_not(alloc, other.copy(alloc)?)?;
    asked_choice(alloc, one, other.copy(alloc)?, unless)
}

/// Whether a meaning is a name.
fn is_name(meaning: &Meaning) -> bool {
    match meaning {
        Meaning::Name(_) => true,
        Meaning::Truth(_) | Meaning::Number(_) => false,
        Meaning::Greater(one, _) | Meaning::Lesser(one, _) => is_name(one),
        Meaning::Choice { then, .. } => is_name(then),
    }
}

/// Whether a number is below 0, or if `or_zero` at most 0.
fn negative(alloc: Global, scope: &Scope, meaning: &Meaning, or_zero: bool) -> Result<Ask, Miss> {
    match meaning {
        Meaning::Truth(_) | Meaning::Name(_) => Err(Miss::NoRule),
        Meaning::Number(linear) => below_0(alloc, scope, linear, or_zero),
        Meaning::Greater(one, other) => {
            let one = negative(alloc, scope, one, or_zero)?;
            let other = negative(alloc, scope, other, or_zero)?;
            Ok(asked_both(alloc, one, other)?)
        }
        Meaning::Lesser(one, other) => {
            let one = negative(alloc, scope, one, or_zero)?;
            let other = negative(alloc, scope, other, or_zero)?;
            Ok(asked_either(alloc, one, other)?)
        }
        Meaning::Choice { when, then, other } => {
            let then = negative(alloc, scope, then, or_zero)?;
            let other = negative(alloc, scope, other, or_zero)?;
            Ok(asked_choice(alloc, when, then, other)?)
        }
    }
}

/// Whether a linear combination is below 0, or if `or_zero` at most 0.
fn below_0(alloc: Global, scope: &Scope, linear: &Linear, or_zero: bool) -> Result<Ask, Miss> {
    let lowered = if or_zero {
        linear.constant.checked_sub(1)
    } else {
        Some(linear.constant)
    };
    match lowered {
        None => Err(Miss::NoRule),
        Some(constant) => less_than_0(alloc, scope, &linear.terms, constant),
    }
}

/// Whether the first of two names is less.
fn name_below(alloc: Global, left: &Meaning, right: &Meaning) -> Result<Ask, Miss> {
    match left {
        Meaning::Truth(_) | Meaning::Number(_) => Err(Miss::NoRule),
        Meaning::Name(ask) => name_above(alloc, right, ask),
        Meaning::Greater(one, other) => {
            let one = name_below(alloc, one, right)?;
            let other = name_below(alloc, other, right)?;
            Ok(asked_both(alloc, one, other)?)
        }
        Meaning::Lesser(one, other) => {
            let one = name_below(alloc, one, right)?;
            let other = name_below(alloc, other, right)?;
            Ok(asked_either(alloc, one, other)?)
        }
        Meaning::Choice { when, then, other } => {
            let then = name_below(alloc, then, right)?;
            let other = name_below(alloc, other, right)?;
            Ok(asked_choice(alloc, when, then, other)?)
        }
    }
}

/// Whether the name that is asked is less than the other one.
fn name_above(alloc: Global, meaning: &Meaning, ask: &Ask) -> Result<Ask, Miss> {
    match meaning {
        Meaning::Truth(_) | Meaning::Number(_) => Err(Miss::NoRule),
        Meaning::Name(other) => Ok(asked_less(alloc, ask, other)?),
        Meaning::Greater(one, other) => {
            let one = name_above(alloc, one, ask)?;
            let other = name_above(alloc, other, ask)?;
            Ok(asked_either(alloc, one, other)?)
        }
        Meaning::Lesser(one, other) => {
            let one = name_above(alloc, one, ask)?;
            let other = name_above(alloc, other, ask)?;
            Ok(asked_both(alloc, one, other)?)
        }
        Meaning::Choice { when, then, other } => {
            let then = name_above(alloc, then, ask)?;
            let other = name_above(alloc, other, ask)?;
            Ok(asked_choice(alloc, when, then, other)?)
        }
    }
}
