//! Fields that change only under a condition that is decided before.

use crate::flat::flat_reading;
use kat_expr::Expr;
use kat_formulas::{assumed, at_key, choice_of, copied, equal, reads_argument, reads_field};
use kat_keeping::{Change, Store, Subject, assigns, is_before, is_change};
use kat_num::Value;
use kat_reading::{Miss, number_of, push};
use kat_type::{Operation, SeqType};
use std::alloc::{AllocError, Global};

/// A field with a condition in its right sides of which all that it reads is changed before: the field as if that were true, or as
/// if it were false, by what it is in the end.
pub(crate) fn decided(
    alloc: Global,
    ty: &SeqType,
    subject: &Subject,
    store: &mut Store,
) -> Result<Expr, Miss> {
    let Some(condition) = condition_of(alloc, ty, subject)? else {
        return Err(Miss::NoRule);
    };
    let then = flat_reading(
        alloc,
        ty,
        &assuming(alloc, subject, &condition, true)?,
        store,
    )?;
    let other = flat_reading(
        alloc,
        ty,
        &assuming(alloc, subject, &condition, false)?,
        store,
    )?;
    let when = match subject.key {
        None => condition,
        Some(_) => at_key(alloc, &condition, 0)?,
    };
    Ok(choice_of(alloc, when, then, other)?)
}

/// The first condition of the right sides that is decided before each operation that changes the field.
fn condition_of(
    alloc: Global,
    ty: &SeqType,
    subject: &Subject,
) -> Result<Option<Expr>, AllocError> {
    for change in &subject.changes {
        if let Change::Gives { key, right } = change {
            if let Some(condition) = first_condition(alloc, right)? {
                if is_decided(alloc, ty, subject, *key, &condition)? {
                    return Ok(Some(condition));
                }
            }
        }
    }
    Ok(None)
}

/// The condition of an expression that has cases.
fn first_condition(alloc: Global, right: &Expr) -> Result<Option<Expr>, AllocError> {
    match right {
        Expr::If(condition, _, _) => Ok(Some(copied(alloc, condition)?)),
        _ => Ok(None),
    }
}

/// Whether a condition reads other fields alone, at the key of the field, and all that change these have lesser ranks.
fn is_decided(
    alloc: Global,
    ty: &SeqType,
    subject: &Subject,
    key: Option<u32>,
    condition: &Expr,
) -> Result<bool, AllocError> {
    let at_own = match key {
        None => true,
        Some(place) => equal(condition, &at_key(alloc, condition, place)?),
    };
    if !at_own || reads_argument(condition) || !reads_field(condition, 0, u32::MAX) {
        return Ok(false);
    }
    for (field, _) in ty.fields.as_slice().iter().enumerate() {
        let field = number_of(field);
        if reads_field(condition, field, field.saturating_add(1))
            && !is_settled(ty.ops.as_slice(), subject, field)
        {
            return Ok(false);
        }
    }
    Ok(true)
}

/// Whether all operations that change a field come before those that change the subject.
fn is_settled(ops: &[Operation], subject: &Subject, field: u32) -> bool {
    for other in ops {
        if assigns(other, field) {
            for (op, change) in ops.iter().zip(subject.changes.iter()) {
                if is_change(change) && !is_before(other, op) {
                    return false;
                }
            }
        }
    }
    true
}

/// The field as if a condition were always true, or always false.
fn assuming(
    alloc: Global,
    subject: &Subject,
    condition: &Expr,
    truth: bool,
) -> Result<Subject, Miss> {
    let value = Value::Bool(truth);
    let mut changes = Vec::new(alloc);
    for change in &subject.changes {
        match change {
            Change::Nothing => push(&mut changes, Change::Nothing)?,
            Change::Clears => push(&mut changes, Change::Clears)?,
            Change::Gives { key, right } => {
                let right = assumed(alloc, right, condition, value)?;
                push(&mut changes, Change::Gives { key: *key, right })?;
            }
        }
    }
    Ok(Subject {
        field: subject.field,
        key: subject.key,
        sort: subject.sort,
        start: subject.start,
        changes,
    })
}
