//! Fields that another field tells.

use crate::several::of_several;
use crate::standards::standard;
use crate::subjects::{Change, Subject, subject_of};
use kat_expr::Expr;
use kat_formulas::{
    Atom, at_key, choice_of, constant, copied, denied, difference, equal, folded, linear_of,
    reads_argument, reads_field, replaced, single, spelled,
};
use kat_reading::{Miss, number_of, push};
use kat_type::SeqType;
use std::alloc::Global;

/// A field that each operation sets to one formula over what another field is then, or several are: that formula.
pub fn derived_reading(alloc: Global, ty: &SeqType, subject: &Subject) -> Result<Expr, Miss> {
    for (base, _) in ty.fields.as_slice().iter().enumerate() {
        let base = number_of(base);
        if base != subject.field {
            match of_base(alloc, ty, subject, base) {
                Err(Miss::NoRule) => {}
                found => return found,
            }
        }
    }
    of_several(alloc, ty, subject)
}

/// The formula of a field over another one.
fn of_base(alloc: Global, ty: &SeqType, subject: &Subject, base: u32) -> Result<Expr, Miss> {
    let other = subject_of(alloc, ty, base)?;
    if other.key != subject.key {
        return Err(Miss::NoRule);
    }
    let mut formula = None;
    for (own, moved) in subject.changes.iter().zip(other.changes.iter()) {
        if let Some(told) = told_by(alloc, &other, own, moved)? {
            formula = Some(agreed(formula, told)?);
        }
    }
    let Some(formula) = formula else {
        return Err(Miss::NoRule);
    };
    if is_start(alloc, subject, &other, &formula)? {
        return Ok(formula);
    }
    Err(Miss::NoRule)
}

/// A formula, which must be the one that was found before, if there is one.
pub(crate) fn agreed(found: Option<Expr>, told: Expr) -> Result<Expr, Miss> {
    match found {
        None => Ok(told),
        Some(formula) => {
            if equal(&formula, &told) {
                Ok(formula)
            } else {
                Err(Miss::NoRule)
            }
        }
    }
}

/// Whether a formula reads the other field, and nothing else.
fn is_over(formula: &Expr, base: u32) -> bool {
    let next = base.saturating_add(1);
    reads_field(formula, base, next)
        && !reads_field(formula, 0, base)
        && !reads_field(formula, next, u32::MAX)
        && !reads_argument(formula)
}

/// Whether a formula over the other field's start is the field's start.
pub(crate) fn is_start(
    alloc: Global,
    subject: &Subject,
    other: &Subject,
    formula: &Expr,
) -> Result<bool, Miss> {
    let mut readings = Vec::new(alloc);
    for _ in 0..other.field {
        push(&mut readings, None)?;
    }
    push(&mut readings, Some(Expr::Const(other.start)))?;
    let begun = replaced(alloc, formula, &readings, &[])?;
    Ok(constant(&begun) == Some(subject.start))
}

/// What an operation sets a field to, over what it makes of another one; nothing if it changes neither.
pub(crate) fn told_by(
    alloc: Global,
    other: &Subject,
    own: &Change,
    moved: &Change,
) -> Result<Option<Expr>, Miss> {
    let told = match (own, moved) {
        (Change::Nothing, Change::Nothing) => return Ok(None),
        (Change::Gives { key, right }, Change::Nothing) => same_key(alloc, right, *key)?,
        (
            Change::Gives { key, right },
            Change::Gives {
                key: place,
                right: after,
            },
        ) if *key == *place => {
            let moved = over_changed(alloc, other, *key, right, after)?;
            same_key(alloc, &moved, *key)?
        }
        _ => return Err(Miss::NoRule),
    };
    let told = standard(alloc, &told)?;
    if is_over(&told, other.field) {
        return Ok(Some(told));
    }
    Err(Miss::NoRule)
}

/// A right side over what the same operation makes of the other field: an argument, itself and something added, or any other
/// expression if the right side has that too.
pub(crate) fn over_changed(
    alloc: Global,
    other: &Subject,
    key: Option<u32>,
    right: &Expr,
    after: &Expr,
) -> Result<Expr, Miss> {
    if let Expr::Arg(given) = after {
        return over_given(alloc, other, key, right, *given);
    }
    match over_sum(alloc, other, key, right, after) {
        Err(Miss::NoRule) => over_equal(alloc, other, key, right, after),
        found => found,
    }
}

/// The field, read at the key of an assignment.
fn own_read(other: &Subject, key: Option<u32>) -> Expr {
    match key {
        None => Expr::Plain(other.field),
        Some(place) => Expr::Keyed {
            field: other.field,
            key: place,
        },
    }
}

/// An expression in which the other field is read for what it becomes; no rule fits if it reads what it was before besides.
fn over_equal(
    alloc: Global,
    other: &Subject,
    key: Option<u32>,
    expr: &Expr,
    after: &Expr,
) -> Result<Expr, Miss> {
    if equal(expr, after) {
        return Ok(own_read(other, key));
    }
    match expr {
        Expr::Const(_) | Expr::Arg(_) | Expr::Plain(_) | Expr::Keyed { .. } => {
            unless_read(alloc, other, expr)
        }
        Expr::Not(inner) => {
            let inner = over_equal(alloc, other, key, inner, after)?;
            Ok(denied(alloc, inner)?)
        }
        Expr::And(left, right)
        | Expr::Or(left, right)
        | Expr::Less(left, right)
        | Expr::AtMost(left, right)
        | Expr::Same(left, right)
        | Expr::Plus(left, right)
        | Expr::Minus(left, right)
        | Expr::Max(left, right)
        | Expr::Min(left, right) => {
            let left = over_equal(alloc, other, key, left, after)?;
            let right = over_equal(alloc, other, key, right, after)?;
            Ok(folded(alloc, expr, left, right)?)
        }
        Expr::If(condition, then, rest) => {
            let condition = over_equal(alloc, other, key, condition, after)?;
            let then = over_equal(alloc, other, key, then, after)?;
            let rest = over_equal(alloc, other, key, rest, after)?;
            Ok(choice_of(alloc, condition, then, rest)?)
        }
    }
}

/// An expression without parts; no rule fits if it reads the other field.
fn unless_read(alloc: Global, other: &Subject, expr: &Expr) -> Result<Expr, Miss> {
    if reads_field(expr, other.field, other.field.saturating_add(1)) {
        return Err(Miss::NoRule);
    }
    Ok(copied(alloc, expr)?)
}

/// The expression, in which the key of the assignment is the key 0; no rule fits if it has another key.
pub(crate) fn same_key(alloc: Global, expr: &Expr, key: Option<u32>) -> Result<Expr, Miss> {
    match key {
        None => Ok(copied(alloc, expr)?),
        Some(place) => {
            let own = at_key(alloc, expr, place)?;
            if !equal(&own, expr) {
                return Err(Miss::NoRule);
            }
            Ok(at_key(alloc, expr, 0)?)
        }
    }
}

/// A right side over what the other field becomes, if that is an argument.
fn over_given(
    alloc: Global,
    other: &Subject,
    key: Option<u32>,
    right: &Expr,
    given: u32,
) -> Result<Expr, Miss> {
    if reads_field(right, other.field, other.field.saturating_add(1)) {
        return Err(Miss::NoRule);
    }
    let mut args = Vec::new(alloc);
    for _ in 0..given {
        push(&mut args, None)?;
    }
    push(&mut args, Some(own_read(other, key)))?;
    Ok(replaced(alloc, right, &[], &args)?)
}

/// A right side over what the other field becomes, if that is itself and something added: before the operation it was less.
fn over_sum(
    alloc: Global,
    other: &Subject,
    key: Option<u32>,
    right: &Expr,
    after: &Expr,
) -> Result<Expr, Miss> {
    let field = other.field;
    let atom = Atom::Read { field, key };
    let sum = linear_of(alloc, after)?;
    if sum.factor(atom) != 1 {
        return Err(Miss::NoRule);
    }
    let step = sum.without(alloc, atom)?;
    let home = Atom::Read {
        field,
        key: if key.is_some() { Some(0) } else { None },
    };
    let before = spelled(alloc, &difference(alloc, &single(alloc, home, 1)?, &step)?)?;
    let mut readings = Vec::new(alloc);
    for _ in 0..other.field {
        push(&mut readings, None)?;
    }
    push(&mut readings, Some(before))?;
    Ok(replaced(alloc, right, &readings, &[])?)
}
