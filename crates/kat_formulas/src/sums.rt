//! Numbers that are known by cases, and their sums.

use crate::combinations::{Linear, known, total};
use kat_design::Ask;
use kat_reading::{Miss, boxed};
use std::alloc::Global;

/// An ask of a truth value or of a name, a linear combination of leaves and arguments; or a number or a name that no ask gives, but
/// that asks can compare.
#[derive(Drop)]
pub(crate) enum Meaning {
    Truth(Ask),
    Name(Ask),
    Number(Linear),
    Greater(Box<Meaning>, Box<Meaning>),
    Lesser(Box<Meaning>, Box<Meaning>),
    Choice {
        when: Ask,
        then: Box<Meaning>,
        other: Box<Meaning>,
    },
}

/// The sum, by cases; no rule fits if there would be very many.
pub(crate) fn sum(alloc: Global, left: &Meaning, right: &Meaning) -> Result<Meaning, Miss> {
    if cases(left).saturating_mul(cases(right)) > 32 {
        return Err(Miss::NoRule);
    }
    raised_by(alloc, left, right)
}

/// How many cases a meaning has.
fn cases(meaning: &Meaning) -> usize {
    match meaning {
        Meaning::Truth(_) | Meaning::Name(_) | Meaning::Number(_) => 1,
        Meaning::Greater(one, other) | Meaning::Lesser(one, other) => {
            cases(one).saturating_add(cases(other))
        }
        Meaning::Choice { then, other, .. } => cases(then).saturating_add(cases(other)),
    }
}

/// The first, each case of it with the second added.
fn raised_by(alloc: Global, left: &Meaning, right: &Meaning) -> Result<Meaning, Miss> {
    match left {
        Meaning::Truth(_) | Meaning::Name(_) => Err(Miss::NoRule),
        Meaning::Number(by) => raised(alloc, right, by),
        Meaning::Greater(one, other) => {
            let one = boxed(alloc, raised_by(alloc, one, right)?)?;
            let other = boxed(alloc, raised_by(alloc, other, right)?)?;
            Ok(Meaning::Greater(one, other))
        }
        Meaning::Lesser(one, other) => {
            let one = boxed(alloc, raised_by(alloc, one, right)?)?;
            let other = boxed(alloc, raised_by(alloc, other, right)?)?;
            Ok(Meaning::Lesser(one, other))
        }
        Meaning::Choice { when, then, other } => {
            let then = boxed(alloc, raised_by(alloc, then, right)?)?;
            let other = boxed(alloc, raised_by(alloc, other, right)?)?;
            let when = when.copy(alloc)?;
            Ok(Meaning::Choice { when, then, other })
        }
    }
}

/// A meaning with a linear combination added in each case.
fn raised(alloc: Global, meaning: &Meaning, by: &Linear) -> Result<Meaning, Miss> {
    match meaning {
        Meaning::Truth(_) | Meaning::Name(_) => Err(Miss::NoRule),
        Meaning::Number(own) => Ok(Meaning::Number(total(alloc, own, by, 1)?)),
        Meaning::Greater(one, other) => {
            let one = boxed(alloc, raised(alloc, one, by)?)?;
            let other = boxed(alloc, raised(alloc, other, by)?)?;
            Ok(Meaning::Greater(one, other))
        }
        Meaning::Lesser(one, other) => {
            let one = boxed(alloc, raised(alloc, one, by)?)?;
            let other = boxed(alloc, raised(alloc, other, by)?)?;
            Ok(Meaning::Lesser(one, other))
        }
        Meaning::Choice { when, then, other } => {
            let then = boxed(alloc, raised(alloc, then, by)?)?;
            let other = boxed(alloc, raised(alloc, other, by)?)?;
            let when = when.copy(alloc)?;
            Ok(Meaning::Choice { when, then, other })
        }
    }
}

/// A number with the other sign.
pub(crate) fn turned(alloc: Global, meaning: &Meaning) -> Result<Meaning, Miss> {
    match meaning {
        Meaning::Truth(_) | Meaning::Name(_) => Err(Miss::NoRule),
        Meaning::Number(own) => Ok(Meaning::Number(total(alloc, &known(alloc, 0), own, -1)?)),
        Meaning::Greater(one, other) => {
            let one = boxed(alloc, turned(alloc, one)?)?;
            let other = boxed(alloc, turned(alloc, other)?)?;
            Ok(Meaning::Lesser(one, other))
        }
        Meaning::Lesser(one, other) => {
            let one = boxed(alloc, turned(alloc, one)?)?;
            let other = boxed(alloc, turned(alloc, other)?)?;
            Ok(Meaning::Greater(one, other))
        }
        Meaning::Choice { when, then, other } => {
            let then = boxed(alloc, turned(alloc, then)?)?;
            let other = boxed(alloc, turned(alloc, other)?)?;
            let when = when.copy(alloc)?;
            Ok(Meaning::Choice { when, then, other })
        }
    }
}
