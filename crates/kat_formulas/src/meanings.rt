//! What formulas mean.

use crate::combinations::{Atom, Linear, known, single, total};
use crate::comparing::{compared, same};
use crate::scopes::{Scope, leaf_ask, least, most, sort_of, stored_at};
use crate::sums::{Meaning, sum, turned};
use kat_design::Ask;
use kat_expr::Expr;
use kat_num::{Sort, Value};
use kat_reading::{Miss, asked_both, asked_choice, asked_either, asked_not, boxed};
use std::alloc::{AllocError, Global};

/// A leaf that is 0 or 1, and whether a condition says that it is 1.
#[derive(Clone, Copy)]
struct Switch {
    atom: Atom,
    on: bool,
}

/// What an expression over leaves and arguments means.
pub(crate) fn meaning_of(alloc: Global, scope: &Scope, expr: &Expr) -> Result<Meaning, Miss> {
    match expr {
        Expr::Const(value) => Ok(constant_meaning(alloc, *value)),
        Expr::Arg(place) => argument_meaning(alloc, scope, *place),
        Expr::Plain(field) => read_meaning(alloc, scope, *field, None),
        Expr::Keyed { field, key } => read_meaning(alloc, scope, *field, Some(*key)),
        Expr::Not(inner) => {
            let inner = truth_of(meaning_of(alloc, scope, inner)?)?;
            Ok(Meaning::Truth(asked_not(alloc, inner)?))
        }
        Expr::And(left, right)
        | Expr::Or(left, right)
        | Expr::Less(left, right)
        | Expr::AtMost(left, right)
        | Expr::Same(left, right)
        | Expr::Plus(left, right)
        | Expr::Minus(left, right)
        | Expr::Max(left, right)
        | Expr::Min(left, right) => {
            let left = meaning_of(alloc, scope, left)?;
            let right = meaning_of(alloc, scope, right)?;
            combined(alloc, scope, expr, left, right)
        }
        Expr::If(condition, then, other) => {
            let switch = switch_of(scope, condition);
            let when = truth_of(meaning_of(alloc, scope, condition)?)?;
            let then = meaning_of(alloc, scope, then)?;
            let other = meaning_of(alloc, scope, other)?;
            choice(alloc, switch, when, then, other)
        }
    }
}

/// A constant.
fn constant_meaning(alloc: Global, value: Value) -> Meaning {
    match value {
        Value::Bool(_) => Meaning::Truth(Ask::Const(value)),
        Value::Name(_) => Meaning::Name(Ask::Const(value)),
        Value::Num(number) => Meaning::Number(known(alloc, number)),
    }
}

/// An argument of the query.
fn argument_meaning(alloc: Global, scope: &Scope, place: u32) -> Result<Meaning, Miss> {
    match sort_of(scope, place) {
        None => Err(Miss::NoRule),
        Some(Sort::Bool) => Ok(Meaning::Truth(Ask::Arg(place))),
        Some(Sort::Name) => Ok(Meaning::Name(Ask::Arg(place))),
        Some(Sort::Int | Sort::Nat) => { Ok(Meaning::Number(single(alloc, Atom::Arg(place), 1)?)) }
    }
}

/// A leaf, at the key if it has one.
fn read_meaning(
    alloc: Global,
    scope: &Scope,
    field: u32,
    key: Option<u32>,
) -> Result<Meaning, Miss> {
    match stored_at(scope, field) {
        None => Err(Miss::NoRule),
        Some(stored) => match stored.sort {
            Sort::Bool => Ok(Meaning::Truth(leaf_ask(stored.at, key))),
            Sort::Name => Ok(Meaning::Name(leaf_ask(stored.at, key))),
            Sort::Int | Sort::Nat => {
                let atom = Atom::Read { field, key };
                Ok(Meaning::Number(single(alloc, atom, stored.factor)?))
            }
        },
    }
}

/// The ask of a truth value.
pub(crate) fn truth_of(meaning: Meaning) -> Result<Ask, Miss> {
    match meaning {
        Meaning::Truth(ask) => Ok(ask),
        _ => Err(Miss::NoRule),
    }
}

/// Two meanings, joined as the two sides of an expression are.
fn combined(
    alloc: Global,
    scope: &Scope,
    as_in: &Expr,
    left: Meaning,
    right: Meaning,
) -> Result<Meaning, Miss> {
    match as_in {
        Expr::And(..) => {
            let ask = asked_both(alloc, truth_of(left)?, truth_of(right)?)?;
            Ok(Meaning::Truth(ask))
        }
        Expr::Or(..) => {
            let ask = asked_either(alloc, truth_of(left)?, truth_of(right)?)?;
            Ok(Meaning::Truth(ask))
        }
        Expr::Less(..) => Ok(Meaning::Truth(compared(alloc, scope, &left, &right, false)?)),
        Expr::AtMost(..) => Ok(Meaning::Truth(compared(alloc, scope, &left, &right, true)?)),
        Expr::Same(..) => Ok(Meaning::Truth(same(alloc, scope, &left, &right)?)),
        Expr::Plus(..) => sum(alloc, &left, &right),
        Expr::Minus(..) => sum(alloc, &left, &turned(alloc, &right)?),
        Expr::Max(..) => greater(alloc, scope, left, right),
        _ => lesser(alloc, scope, left, right),
    }
}

/// The greater, which is one of both if their bounds tell.
fn greater(alloc: Global, scope: &Scope, left: Meaning, right: Meaning) -> Result<Meaning, Miss> {
    match first_is_less(alloc, scope, &left, &right)? {
        Some(true) => Ok(right),
        Some(false) => Ok(left),
        None => {
            let left = boxed(alloc, left)?;
            let right = boxed(alloc, right)?;
            Ok(Meaning::Greater(left, right))
        }
    }
}

/// The lesser, which is one of both if their bounds tell.
fn lesser(alloc: Global, scope: &Scope, left: Meaning, right: Meaning) -> Result<Meaning, Miss> {
    match first_is_less(alloc, scope, &left, &right)? {
        Some(true) => Ok(left),
        Some(false) => Ok(right),
        None => {
            let left = boxed(alloc, left)?;
            let right = boxed(alloc, right)?;
            Ok(Meaning::Lesser(left, right))
        }
    }
}

/// Whether the first of two linear combinations is always at most, or always at least the second, if their bounds tell.
fn first_is_less(
    alloc: Global,
    scope: &Scope,
    left: &Meaning,
    right: &Meaning,
) -> Result<Option<bool>, Miss> {
    match (left, right) {
        (Meaning::Number(one), Meaning::Number(other)) => {
            let apart = total(alloc, one, other, -1)?;
            if is_at_least_0(least(scope, &apart)) {
                return Ok(Some(false));
            }
            match most(scope, &apart) {
                Some(bound) if bound <= 0 => Ok(Some(true)),
                _ => Ok(None),
            }
        }
        _ => Ok(None),
    }
}

/// Whether there is a bound that is at least 0.
fn is_at_least_0(bound: Option<i128>) -> bool {
    match bound {
        Some(bound) => bound >= 0,
        None => false,
    }
}

/// The leaf that is 0 or 1 of which a condition says that it is above 0, or that it isn't.
fn switch_of(scope: &Scope, condition: &Expr) -> Option<Switch> {
    match condition {
        Expr::Less(zero, read) => {
            match above_zero(zero, read) {
                Some(atom) if is_switch(scope, atom) => Some(Switch { atom, on: true }),
                _ => None,
            }
        }
        Expr::Not(inner) => {
            match switch_of(scope, inner) {
                Some(switch) => Some(Switch {
                    atom: switch.atom,
                    on: !switch.on,
                }),
                None => None,
            }
        }
        _ => None,
    }
}

/// What is read, if that is compared with 0.
fn above_zero(zero: &Expr, read: &Expr) -> Option<Atom> {
    match (zero, read) {
        (Expr::Const(Value::Num(0)), Expr::Plain(field)) => Some(Atom::Read {
            field: *field,
            key: None,
        }),
        (Expr::Const(Value::Num(0)), Expr::Keyed { field, key }) => Some(Atom::Read {
            field: *field,
            key: Some(*key),
        }),
        _ => None,
    }
}

/// Whether an atom is a leaf that is 0 or 1.
fn is_switch(scope: &Scope, atom: Atom) -> bool {
    match atom {
        Atom::Arg(_) => false,
        Atom::Read { field, .. } => match stored_at(scope, field) {
            Some(stored) => {
                stored.factor == 1 && stored.least == Some(0) && stored.most == Some(1)
            }
            None => false,
        },
    }
}

/// The first if the condition holds, and otherwise the second.
fn choice(
    alloc: Global,
    switch: Option<Switch>,
    when: Ask,
    then: Meaning,
    other: Meaning,
) -> Result<Meaning, Miss> {
    match (switch, then, other) {
        (_, Meaning::Truth(then), Meaning::Truth(other)) => {
            Ok(Meaning::Truth(asked_choice(alloc, &when, then, other)?))
        }
        (Some(switch), Meaning::Number(then), Meaning::Number(other)) => {
            match switched(alloc, switch, &then, &other)? {
                Some(linear) => Ok(Meaning::Number(linear)),
                None => Ok(cases_of(alloc, when, Meaning::Number(then), Meaning::Number(other))?),
            }
        }
        (_, then, other) => Ok(cases_of(alloc, when, then, other)?),
    }
}

/// Two cases.
fn cases_of(
    alloc: Global,
    when: Ask,
    then: Meaning,
    other: Meaning,
) -> Result<Meaning, AllocError> {
    let then = boxed(alloc, then)?;
    let other = boxed(alloc, other)?;
    Ok(Meaning::Choice { when, then, other })
}

/// A choice by a leaf that is 0 or 1, if both differ by a constant.
fn switched(
    alloc: Global,
    switch: Switch,
    then: &Linear,
    other: &Linear,
) -> Result<Option<Linear>, Miss> {
    let (high, low) = if switch.on {
        (then, other)
    } else {
        (other, then)
    };
    let apart = total(alloc, high, low, -1)?;
    if !apart.terms.is_empty() {
        return Ok(None);
    }
    let step = single(alloc, switch.atom, 1)?;
    Ok(Some(total(alloc, low, &step, apart.constant)?))
}
