//! Numbers that a query answers by the first of several truth values that is true, each of which stays true: a number for each step
//! from one case to the next.

use kat_expr::Expr;
use kat_formulas::{at_key, choice_of, sum_of};
use kat_keeping::{Change, Store, Subject, Touch, marked, subject_of, touched};
use kat_num::{Sort, Value};
use kat_reading::{Miss, push};
use kat_type::{Query, SeqType};
use std::alloc::Global;

/// A truth value, and what is answered if it is true and none before it is.
#[derive(Clone, Copy)]
struct Rung {
    field: u32,
    key: Option<u32>,
    number: i128,
}

/// The formula of a query that answers a number by the first of several truth values that is true. Kept is for each of them whether
/// it or one before it is true, as 0 or 1.
pub(crate) fn laddered(
    alloc: Global,
    ty: &SeqType,
    query: &Query,
    store: &mut Store,
) -> Result<Expr, Miss> {
    if !store.as_numbers || query.sort == Sort::Bool || query.sort == Sort::Name {
        return Err(Miss::NoRule);
    }
    let mut rungs = Vec::new(alloc);
    let rest = push_rungs(&query.right, &mut rungs)?;
    let [first, ..] = rungs.as_slice() else {
        return Err(Miss::NoRule);
    };
    let key = first.key;
    let mut touches = Vec::new(alloc);
    let mut formula = Expr::Const(Value::Num(rest));
    for (place, rung) in rungs.iter().enumerate() {
        if rung.key != key {
            return Err(Miss::NoRule);
        }
        let subject = subject_of(alloc, ty, rung.field)?;
        touches = with_touches(alloc, &touches, &subject)?;
        let Some(step) = step_at(&rungs, place, rest) else {
            return Err(Miss::NoRule);
        };
        let own = Vec::from_slice(alloc, &touches)?;
        let when = marked(alloc, store, subject.key, own)?;
        let zero = Expr::Const(Value::Num(0));
        let share = choice_of(alloc, when, Expr::Const(Value::Num(step)), zero)?;
        formula = sum_of(alloc, formula, share)?;
    }
    match key {
        None => Ok(formula),
        Some(place) => Ok(at_key(alloc, &formula, place)?),
    }
}

/// How much more a case answers than the next one does, or than is answered in none.
fn step_at(rungs: &[Rung], place: usize, rest: i128) -> Option<i128> {
    let below = match rungs.get(place.saturating_add(1)) {
        Some(next) => next.number,
        None => rest,
    };
    match rungs.get(place) {
        Some(own) => own.number.checked_sub(below),
        None => None,
    }
}

/// Appends the cases of an expression, and gives the number if none of them holds.
fn push_rungs(expr: &Expr, into: &mut Vec<Rung>) -> Result<i128, Miss> {
    match expr {
        Expr::Const(Value::Num(number)) => Ok(*number),
        Expr::If(condition, then, other) => {
            let number = match &**then {
                Expr::Const(Value::Num(number)) => *number,
                _ => return Err(Miss::NoRule),
            };
            let (field, key) = match &**condition {
                Expr::Plain(field) => (*field, None),
                Expr::Keyed { field, key } => (*field, Some(*key)),
                _ => return Err(Miss::NoRule),
            };
            push(into, Rung { field, key, number })?;
            push_rungs(other, into)
        }
        _ => Err(Miss::NoRule),
    }
}

/// The touches of operations, and of those that make a field true; no rule fits if it doesn't stay true then.
fn with_touches(alloc: Global, before: &[Touch], subject: &Subject) -> Result<Vec<Touch>, Miss> {
    if subject.start != Value::Bool(false) {
        return Err(Miss::NoRule);
    }
    let mut touches = Vec::new(alloc);
    for (op, change) in subject.changes.iter().enumerate() {
        let own = match change {
            Change::Nothing => Touch::Not,
            Change::Gives {
                right: Expr::Const(Value::Bool(true)),
                ..
            } => touched(change, true),
            _ => return Err(Miss::NoRule),
        };
        let found = match before.get(op) {
            Some(found) => *found,
            None => Touch::Not,
        };
        push(&mut touches, if found == Touch::Not { own } else { found })?;
    }
    Ok(touches)
}
