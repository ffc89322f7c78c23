//! Linear combinations as asks.

use crate::combinations::{Atom, Linear, Term};
use crate::scopes::{Scope, leaf_ask, least, most, stored_at};
use kat_design::Ask;
use kat_num::Value;
use kat_reading::{Miss, asked_minus, asked_not, asked_plus, boxed, push};
use std::alloc::{AllocError, Global};

/// The ask of a linear combination: what is added, less what is taken away.
pub(crate) fn linear_ask(alloc: Global, scope: &Scope, linear: &Linear) -> Result<Ask, Miss> {
    let added = side(alloc, scope, &linear.terms, 1)?;
    let taken = side(alloc, scope, &linear.terms, -1)?;
    let more = with_constant(alloc, added, linear.constant)?;
    match taken {
        None => Ok(more),
        Some(less) => Ok(asked_minus(alloc, more, less)?),
    }
}

/// A sum with a constant.
fn with_constant(alloc: Global, sum: Option<Ask>, constant: i128) -> Result<Ask, AllocError> {
    match sum {
        None => Ok(Ask::Const(Value::Num(constant))),
        Some(sum) => {
            if constant == 0 {
                return Ok(sum);
            }
            asked_plus(alloc, sum, Ask::Const(Value::Num(constant)))
        }
    }
}

/// The sum of the terms of a sign, each as often as its factor says, if there are any.
fn side(alloc: Global, scope: &Scope, terms: &[Term], sign: i128) -> Result<Option<Ask>, Miss> {
    let mut sum = None;
    for term in terms {
        match term.factor.checked_mul(sign) {
            None => return Err(Miss::NoRule),
            Some(times) => {
                if times > 0 {
                    let own = repeated(alloc, &atom_ask(scope, term.atom)?, times)?;
                    sum = Some(summed(alloc, sum, own)?);
                }
            }
        }
    }
    Ok(sum)
}

/// A sum with one more summand.
fn summed(alloc: Global, sum: Option<Ask>, more: Ask) -> Result<Ask, AllocError> {
    match sum {
        None => Ok(more),
        Some(sum) => asked_plus(alloc, sum, more),
    }
}

/// An ask added to itself, so that it occurs so many times; no rule fits if a design has no room for that.
fn repeated(alloc: Global, ask: &Ask, times: i128) -> Result<Ask, Miss> {
    let count = match u32::try_from(times) {
        Ok(count) if count <= 32 => count,
        _ => return Err(Miss::NoRule),
    };
    let mut sum = ask.copy(alloc)?;
    for _ in 1..count {
        sum = asked_plus(alloc, ask.copy(alloc)?, sum)?;
    }
    Ok(sum)
}

/// The ask of an atom.
fn atom_ask(scope: &Scope, atom: Atom) -> Result<Ask, Miss> {
    match atom {
        Atom::Arg(place) => Ok(Ask::Arg(place)),
        Atom::Read { field, key } => match stored_at(scope, field) {
            Some(stored) => Ok(leaf_ask(stored.at, key)),
            None => Err(Miss::NoRule),
        },
    }
}

/// Whether a linear combination is below 0: at once, if its bounds tell; otherwise its terms, divided by what divides all their
/// factors, are compared.
pub(crate) fn less_than_0(
    alloc: Global,
    scope: &Scope,
    terms: &[Term],
    constant: i128,
) -> Result<Ask, Miss> {
    let whole = Linear {
        constant,
        terms: Vec::from_slice(alloc, terms)?,
    };
    if is_below_0(most(scope, &whole)) {
        return Ok(Ask::Const(Value::Bool(true)));
    }
    if let Some(bound) = least(scope, &whole) {
        if bound >= 0 {
            return Ok(Ask::Const(Value::Bool(false)));
        }
    }
    let divisor = divisor_of(terms);
    let mut own = Vec::new(alloc);
    for term in terms {
        let factor = quotient(term.factor, divisor);
        push(
            &mut own,
            Term {
                factor,
                atom: term.atom,
            },
        )?;
    }
    let Some(most) = (-1_i128).checked_sub(constant) else {
        return Err(Miss::NoRule);
    };
    match quotient(most, divisor).checked_add(1) {
        None => Err(Miss::NoRule),
        Some(bound) => below(alloc, scope, &own, bound),
    }
}

/// Whether there is a bound that is below 0.
fn is_below_0(bound: Option<i128>) -> bool {
    match bound {
        Some(bound) => bound < 0,
        None => false,
    }
}

/// Whether a sum of terms is less than a bound.
fn below(alloc: Global, scope: &Scope, terms: &[Term], bound: i128) -> Result<Ask, Miss> {
    let left = side(alloc, scope, terms, 1)?;
    let right = side(alloc, scope, terms, -1)?;
    let Some(turned) = bound.checked_neg() else {
        return Err(Miss::NoRule);
    };
    match (left, right) {
        (None, None) => Ok(Ask::Const(Value::Bool(0 < bound))),
        (Some(left), None) => Ok(less(alloc, left, Ask::Const(Value::Num(bound)))?),
        (None, Some(right)) => Ok(less(alloc, Ask::Const(Value::Num(turned)), right)?),
        (Some(left), Some(right)) => {
            if bound == 1 {
                let above = less(alloc, right, left)?;
                return Ok(asked_not(alloc, above)?);
            }
            if bound < 0 {
                let left = with_constant(alloc, Some(left), turned)?;
                return Ok(less(alloc, left, right)?);
            }
            let right = with_constant(alloc, Some(right), bound)?;
            Ok(less(alloc, left, right)?)
        }
    }
}

/// Whether the first is less.
fn less(alloc: Global, left: Ask, right: Ask) -> Result<Ask, AllocError> {
    let left = boxed(alloc, left)?;
    let right = boxed(alloc, right)?;
    Ok(Ask::Less(left, right))
}

/// The greatest of a few numbers that divides all factors.
fn divisor_of(terms: &[Term]) -> i128 {
    let mut divisor = 1;
    if !terms.is_empty() {
        for number in 2..1_001_u32 {
            let candidate = i128::from(number);
            if terms.iter().all(|term| divides(candidate, term.factor)) {
                divisor = candidate;
            }
        }
    }
    divisor
}

/// Whether a number divides another.
fn divides(divisor: i128, number: i128) -> bool {
    match quotient(number, divisor).checked_mul(divisor) {
        Some(product) => product == number,
        None => false,
    }
}

/// How often a divisor goes into a number, rounded down; the number itself for a divisor below 1.
fn quotient(number: i128, divisor: i128) -> i128 {
    if divisor < 1 {
        return number;
    }
    let whole = number / divisor;
    if number % divisor < 0 {
        return whole.saturating_sub(1);
    }
    whole
}
