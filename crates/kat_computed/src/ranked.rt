//! Fields that operations of greater digits set for good.

use crate::flat::flat_reading;
use crate::good::only_constant;
use crate::writes::writes;
use kat_expr::Expr;
use kat_formulas::choice_of;
use kat_keeping::{Change, Store, Subject, Touch, copied_change, is_change, marked, touches_of};
use kat_reading::{Miss, push};
use kat_type::{Operation, Rank, SeqType};
use std::alloc::Global;

/// A field whose operations have different digits at the head of their ranks: those of the least digit by any rule, and above
/// them what those of each greater digit set or clear, once one of them was done.
pub(crate) fn ranked(
    alloc: Global,
    ty: &SeqType,
    subject: &Subject,
    store: &mut Store,
) -> Result<Expr, Miss> {
    let mut expr = None;
    for digit in 0..10 {
        let part = part_at(alloc, ty.ops.as_slice(), subject, digit)?;
        if part.changes.iter().any(|change| is_change(change)) {
            expr = Some(with_part(alloc, ty, &part, expr, store)?);
        }
    }
    if digit_count(ty.ops.as_slice(), subject) < 2 {
        return Err(Miss::NoRule);
    }
    match expr {
        Some(expr) => Ok(expr),
        None => Err(Miss::NoRule),
    }
}

/// The field with the operations of one more digit.
fn with_part(
    alloc: Global,
    ty: &SeqType,
    part: &Subject,
    below: Option<Expr>,
    store: &mut Store,
) -> Result<Expr, Miss> {
    match below {
        None => lowest(alloc, ty, part, store),
        Some(below) => above(alloc, ty, part, below, store),
    }
}

/// How many different digits the operations that change the field have; 0 if one has none.
fn digit_count(ops: &[Operation], subject: &Subject) -> u32 {
    let mut count: u32 = 0;
    for digit in 0..10 {
        let mut any = false;
        for (op, change) in ops.iter().zip(subject.changes.iter()) {
            if is_change(change) {
                match digit_of(op) {
                    None => return 0,
                    Some(own) => any = any || own == digit,
                }
            }
        }
        if any {
            count = count.saturating_add(1);
        }
    }
    count
}

/// The digit at the head of a rank.
fn digit_of(op: &Operation) -> Option<u8> {
    match op.ranks.as_slice().first() {
        Some(Rank::Digit(digit)) => Some(*digit),
        _ => None,
    }
}

/// The field with the operations of one digit alone.
fn part_at(
    alloc: Global,
    ops: &[Operation],
    subject: &Subject,
    digit: u8,
) -> Result<Subject, Miss> {
    let mut changes = Vec::new(alloc);
    for (op, change) in ops.iter().zip(subject.changes.iter()) {
        if digit_of(op) == Some(digit) {
            push(&mut changes, copied_change(alloc, change)?)?;
        } else {
            push(&mut changes, Change::Nothing)?;
        }
    }
    Ok(Subject {
        field: subject.field,
        key: subject.key,
        sort: subject.sort,
        start: subject.start,
        changes,
    })
}

/// Whether an operation clears the field.
fn is_clear(change: &Change) -> bool {
    match change {
        Change::Clears => true,
        _ => false,
    }
}

/// The field by the operations of the least digit; if these clear it, it has its start.
fn lowest(alloc: Global, ty: &SeqType, part: &Subject, store: &mut Store) -> Result<Expr, Miss> {
    if part
        .changes
        .iter()
        .all(|change| !is_change(change) || is_clear(change))
    {
        return Ok(Expr::Const(part.start));
    }
    flat_reading(alloc, ty, part, store)
}

/// The field with the operations of a greater digit.
fn above(
    alloc: Global,
    ty: &SeqType,
    part: &Subject,
    below: Expr,
    store: &mut Store,
) -> Result<Expr, Miss> {
    if part.changes.iter().any(|change| is_clear(change)) {
        let when = cleared(alloc, part, store)?;
        return Ok(choice_of(alloc, when, Expr::Const(part.start), below)?);
    }
    let then = match only_constant(part) {
        Some(value) => Expr::Const(value),
        None => writes(alloc, ty, part, store)?,
    };
    let touches = touches_of(alloc, part)?;
    let when = marked(alloc, store, part.key, touches)?;
    Ok(choice_of(alloc, when, then, below)?)
}

/// Whether one of the operations was done, which all clear the field.
fn cleared(alloc: Global, part: &Subject, store: &mut Store) -> Result<Expr, Miss> {
    let mut touches = Vec::new(alloc);
    for change in &part.changes {
        push(
            &mut touches,
            match change {
                Change::Nothing => Touch::Not,
                Change::Clears => Touch::Plain,
                Change::Gives { .. } => return Err(Miss::NoRule),
            },
        )?;
    }
    marked(alloc, store, None, touches)
}
