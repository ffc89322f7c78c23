//! What a query asks, read off its right side.
ghost use Rattle.std.specs.Prelude.{◌≡◌, ◌-◌, ◌^◌, ◌≤◌, min, IfOk};
ghost use Rattle.kat_design.specs.Designs.{ask_form};
ghost use Rattle.kat_design.specs.Sizes.{ask_nodes};
ghost use Rattle.kat_design.specs.declared.sizes.TheConstants.{SIZE_LIMIT};

use crate::asks::{both, either, minus, negated, plus};
use crate::misses::Miss;
use crate::readings::{Meaning, Reading, below, read};
use kat_design::{Ask, SIZE_LIMIT};
use kat_expr::Expr;
use std::alloc::{AllocError, Global};

/// The ask for an expression, with each field's reading in its place; no rule fits if no ask gives it, or if a design has no
/// room for the ask.
pub fn ask_of(alloc: Global, expr: &Expr, readings: &[Option<Reading>]) -> Result<Ask, Miss>
    ensures small { IfOk result (λ ask. ask_nodes (ask_form ask) ≤ SIZE_LIMIT) }
{
    plain(meaning(alloc, expr, readings)?)
}

/// The ask of a meaning that is one, if a design has room for it. A comparison of choices asks their conditions several times, so
/// that conditions within conditions would become great without this.
fn plain(meaning: Meaning) -> Result<Ask, Miss>
    ensures small { IfOk result (λ ask. ask_nodes (ask_form ask) ≤ SIZE_LIMIT) }
{
    match meaning {
        Meaning::Plain(ask) => {
            if ask_nodes(&ask) <= SIZE_LIMIT {
                return Ok(ask);
            }
            Err(Miss::NoRule)
        }
        _ => Err(Miss::NoRule),
    }
}

/// How many nodes an ask has.
pub fn ask_nodes(ask: &Ask) -> usize
    ensures { result ≡ min (ask_nodes (ask_form ask.now)) (2 ^ 64 - 1) }
{
    match ask {
        Ask::Leaf { .. } | Ask::Arg(_) | Ask::Const(_) => 1,
        Ask::Not(inner) => ask_nodes(inner).saturating_add(1),
        Ask::And(left, right)
        | Ask::Or(left, right)
        | Ask::Less(left, right)
        | Ask::Plus(left, right)
        | Ask::Minus(left, right) => ask_nodes(left)
            .saturating_add(ask_nodes(right))
            .saturating_add(1),
    }
}

/// What an expression means.
fn meaning(alloc: Global, expr: &Expr, readings: &[Option<Reading>]) -> Result<Meaning, Miss> {
    match expr {
        Expr::Const(value) => Ok(Meaning::Plain(Ask::Const(*value))),
        Expr::Arg(place) => Ok(Meaning::Plain(Ask::Arg(*place))),
        Expr::Plain(field) => of_field(alloc, readings, *field, None),
        Expr::Keyed { field, key } => of_field(alloc, readings, *field, Some(*key)),
        Expr::Not(inner) => {
            let inner = plain(meaning(alloc, inner, readings)?)?;
            Ok(Meaning::Plain(negated(alloc, inner)?))
        }
        Expr::And(left, right) => {
            let left = plain(meaning(alloc, left, readings)?)?;
            let right = plain(meaning(alloc, right, readings)?)?;
            Ok(Meaning::Plain(both(alloc, left, right)?))
        }
        Expr::Or(left, right) => {
            let left = plain(meaning(alloc, left, readings)?)?;
            let right = plain(meaning(alloc, right, readings)?)?;
            Ok(Meaning::Plain(either(alloc, left, right)?))
        }
        Expr::Less(left, right) => {
            let left = meaning(alloc, left, readings)?;
            let right = meaning(alloc, right, readings)?;
            Ok(Meaning::Plain(below(alloc, &left, &right)?))
        }
        Expr::AtMost(left, right) => {
            let left = meaning(alloc, left, readings)?;
            let right = meaning(alloc, right, readings)?;
            Ok(Meaning::Plain(at_most(alloc, &left, &right)?))
        }
        Expr::Same(left, right) => {
            let left = meaning(alloc, left, readings)?;
            let right = meaning(alloc, right, readings)?;
            Ok(Meaning::Plain(same(alloc, &left, &right)?))
        }
        Expr::Plus(left, right) => {
            let left = plain(meaning(alloc, left, readings)?)?;
            let right = plain(meaning(alloc, right, readings)?)?;
            Ok(Meaning::Plain(plus(alloc, left, right)?))
        }
        Expr::Minus(left, right) => {
            let left = plain(meaning(alloc, left, readings)?)?;
            let right = plain(meaning(alloc, right, readings)?)?;
            Ok(Meaning::Plain(minus(alloc, left, right)?))
        }
        Expr::Max(left, right) => {
            let left = meaning(alloc, left, readings)?;
            let right = meaning(alloc, right, readings)?;
            Ok(greater(alloc, left, right)?)
        }
        Expr::Min(left, right) => {
            let left = meaning(alloc, left, readings)?;
            let right = meaning(alloc, right, readings)?;
            Ok(lesser(alloc, left, right)?)
        }
        Expr::If(condition, then, other) => {
            let when = plain(meaning(alloc, condition, readings)?)?;
            let then = meaning(alloc, then, readings)?;
            let other = meaning(alloc, other, readings)?;
            Ok(choice(alloc, when, then, other)?)
        }
    }
}

/// What a field means.
fn of_field(
    alloc: Global,
    readings: &[Option<Reading>],
    field: u32,
    key: Option<u32>,
) -> Result<Meaning, Miss> {
    match readings.get(field as usize) {
        Some(Some(reading)) => Ok(read(alloc, reading, key)?),
        _ => Err(Miss::NoRule),
    }
}

/// Whether the first is less, or both are equal.
fn at_most(alloc: Global, left: &Meaning, right: &Meaning) -> Result<Ask, AllocError> {
    let above = below(alloc, right, left)?;
    negated(alloc, above)
}

/// Whether both are equal.
fn same(alloc: Global, left: &Meaning, right: &Meaning) -> Result<Ask, AllocError> {
    let not_above = at_most(alloc, left, right)?;
    let not_below = at_most(alloc, right, left)?;
    both(alloc, not_above, not_below)
}

/// The greater.
fn greater(alloc: Global, left: Meaning, right: Meaning) -> Result<Meaning, AllocError> {
    let left = Box::new(alloc, left)?;
    let right = Box::new(alloc, right)?;
    Ok(Meaning::Greater(left, right))
}

/// The lesser.
fn lesser(alloc: Global, left: Meaning, right: Meaning) -> Result<Meaning, AllocError> {
    let left = Box::new(alloc, left)?;
    let right = Box::new(alloc, right)?;
    Ok(Meaning::Lesser(left, right))
}

/// The first if the condition holds, and otherwise the second.
fn choice(alloc: Global, when: Ask, then: Meaning, other: Meaning) -> Result<Meaning, AllocError> {
    let then = Box::new(alloc, then)?;
    let other = Box::new(alloc, other)?;
    Ok(Meaning::Choice { when, then, other })
}

/// Whether an expression reads a field.
pub fn reads(expr: &Expr, number: u32) -> bool {
    match expr {
        Expr::Const(_) | Expr::Arg(_) => false,
        Expr::Plain(field) => *field == number,
        Expr::Keyed { field, .. } => *field == number,
        Expr::Not(inner) => reads(inner, number),
        Expr::And(left, right)
        | Expr::Or(left, right)
        | Expr::Less(left, right)
        | Expr::AtMost(left, right)
        | Expr::Same(left, right)
        | Expr::Plus(left, right)
        | Expr::Minus(left, right)
        | Expr::Max(left, right)
        | Expr::Min(left, right) => reads(left, number) || reads(right, number),
        Expr::If(condition, then, other) => {
            reads(condition, number) || reads(then, number) || reads(other, number)
        }
    }
}
