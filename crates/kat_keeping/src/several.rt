//! Fields that several other fields tell.

use crate::derived::{agreed, over_changed, same_key};
use crate::standards::standard;
use crate::subjects::{Change, Subject, is_change, subject_of};
use kat_expr::Expr;
use kat_formulas::{constant, copied, reads_argument, reads_field, replaced};
use kat_reading::{Miss, number_of, push};
use kat_type::SeqType;
use std::alloc::Global;

/// A field that each operation which changes it, or a field that tells it, sets to one formula over what the others are then: that
/// formula.
pub(crate) fn of_several(alloc: Global, ty: &SeqType, subject: &Subject) -> Result<Expr, Miss> {
    let others = others_of(alloc, ty, subject)?;
    let mut formula = None;
    for (op, own) in subject.changes.iter().enumerate() {
        match own {
            Change::Nothing => {}
            Change::Clears => return Err(Miss::NoRule),
            Change::Gives { key, right } => {
                let told = told_at(alloc, &others, op, *key, right)?;
                formula = Some(agreed(formula, told)?);
            }
        }
    }
    let Some(formula) = formula else {
        return Err(Miss::NoRule);
    };
    if is_over(ty, &others, &formula)
        && is_set_with(subject, &others, &formula)
        && begins_so(alloc, ty, subject, &others, &formula)?
    {
        return Ok(formula);
    }
    Err(Miss::NoRule)
}

/// All other fields that are kept at the same keys.
fn others_of(alloc: Global, ty: &SeqType, subject: &Subject) -> Result<Vec<Subject>, Miss> {
    let mut others = Vec::new(alloc);
    for (number, _) in ty.fields.as_slice().iter().enumerate() {
        let number = number_of(number);
        if number != subject.field {
            let other = subject_of(alloc, ty, number)?;
            if other.key == subject.key {
                push(&mut others, other)?;
            }
        }
    }
    Ok(others)
}

/// What an operation sets the field to, over what it makes of the others.
fn told_at(
    alloc: Global,
    others: &[Subject],
    op: usize,
    key: Option<u32>,
    right: &Expr,
) -> Result<Expr, Miss> {
    let mut told = copied(alloc, right)?;
    for other in others {
        if let Some(change) = other.changes.get(op) {
            told = over_change(alloc, other, key, told, change)?;
        }
    }
    standard(alloc, &same_key(alloc, &told, key)?)
}

/// An expression over what a change makes of another field, if it can be written so, and otherwise as it is.
fn over_change(
    alloc: Global,
    other: &Subject,
    key: Option<u32>,
    told: Expr,
    change: &Change,
) -> Result<Expr, Miss> {
    match change {
        Change::Gives {
            key: place,
            right: after,
        } if *place == key => match over_changed(alloc, other, key, &told, after) {
            Err(Miss::NoRule) => Ok(told),
            found => found,
        },
        _ => Ok(told),
    }
}

/// Whether a formula reads others, and nothing else.
fn is_over(ty: &SeqType, others: &[Subject], formula: &Expr) -> bool {
    let count = number_of(ty.fields.as_slice().len());
    let mut numbers = 0..count;
    numbers.all(|number| is_among(others, number) || !reads(formula, number))
        && !reads_field(formula, count, u32::MAX)
        && !reads_argument(formula)
}

/// Whether a field is one of the others.
fn is_among(others: &[Subject], number: u32) -> bool {
    others.iter().any(|other| other.field == number)
}

/// Whether a formula reads a field.
fn reads(formula: &Expr, number: u32) -> bool {
    reads_field(formula, number, number.saturating_add(1))
}

/// Whether each operation that changes a field of the formula sets the field too, at that key.
fn is_set_with(subject: &Subject, others: &[Subject], formula: &Expr) -> bool {
    others.iter().all(|other| !reads(formula, other.field) || is_followed(subject, other))
}

/// Whether each operation that changes another field sets the field too, at that key.
fn is_followed(subject: &Subject, other: &Subject) -> bool {
    let mut changes = subject.changes.iter().zip(other.changes.iter());
    changes.all(|(own, moved)| is_change_with(own, moved))
}

/// Whether a change of another field goes with one of the field, at that key.
fn is_change_with(own: &Change, moved: &Change) -> bool {
    match (own, moved) {
        (Change::Gives { key, .. }, Change::Gives { key: place, .. }) => *key == *place,
        (_, moved) => !is_change(moved),
    }
}

/// Whether a formula over the starts of the others is the field's start.
fn begins_so(
    alloc: Global,
    ty: &SeqType,
    subject: &Subject,
    others: &[Subject],
    formula: &Expr,
) -> Result<bool, Miss> {
    let mut readings = Vec::new(alloc);
    for (number, _) in ty.fields.as_slice().iter().enumerate() {
        push(&mut readings, begun_at(others, number_of(number)))?;
    }
    let begun = replaced(alloc, formula, &readings, &[])?;
    Ok(constant(&begun) == Some(subject.start))
}

/// The start of the field with a number, if it is one of the others.
fn begun_at(others: &[Subject], number: u32) -> Option<Expr> {
    match others.iter().find(|other| other.field == number) {
        Some(other) => Some(Expr::Const(other.start)),
        None => None,
    }
}
