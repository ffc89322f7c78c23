//! Guesses in which a query of a truth value says more than it asks for.
//!
//! Stages that were reached are kept as marks, the sum of which is the field. A query that answers the field ties that sum to it, but
//! no relation says that a later stage is reached only with the earlier ones. A query of a truth value can say it: in states that
//! never come its answer is free, so there it differs from what the type answers, and where both answer the same no such state is.

use crate::formulas::{field_reading, formulas_of, guess_of, over_leaves, readings_of};
use crate::marking::{Mark, forget_lows, lows_of, marks_of, never_of, set_lower};
use crate::plain::Guess;
use kat_expr::Expr;
use kat_formulas::{
    Atom, Linear, Term, choice_of, copied, denied, folded, reads_field, spelled, sum_of,
};
use kat_keeping::{Joint, Store, joined_by, new_store};
use kat_num::{Sort, Value};
use kat_reading::{Miss, number_of, push};
use kat_type::{Field, Query, SeqType};
use std::alloc::{AllocError, Global};

/// How the guarded query answers in states that never come.
#[derive(Clone, Copy, PartialEq, Eq, Debug)]
enum Guard {
    /// It is true there. That is enough if no such state is one in which the type's query is true.
    True,
    /// It is the opposite of the type's query.
    Turned,
}

/// How many guesses with a guard there are: for each query two.
pub(crate) fn guarded_count(ty: &SeqType) -> u32 {
    number_of(ty.queries.as_slice().len()).saturating_mul(2)
}

/// The guess with a guard that has a number: first one for each query that is true in states that never come, and then one for each
/// that is turned there.
pub(crate) fn guarded_guess(alloc: Global, ty: &SeqType, number: u32) -> Result<Guess, Miss> {
    let count = number_of(ty.queries.as_slice().len());
    match number.checked_sub(count) {
        None => guarded(alloc, ty, number as usize, Guard::True),
        Some(place) => guarded(alloc, ty, place as usize, Guard::Turned),
    }
}

/// The guess with a guard in the query at a place; no rule fits if that doesn't ask for a truth value, or no other query answers a
/// number by the same leaves.
fn guarded(alloc: Global, ty: &SeqType, place: usize, guard: Guard) -> Result<Guess, Miss> {
    let Some(query) = ty.queries.as_slice().get(place) else {
        return Err(Miss::NoRule);
    };
    if query.sort != Sort::Bool || query.params.as_slice().len() > 1 {
        return Err(Miss::NoRule);
    }
    let mut store = new_store(alloc, ty, true);
    let readings = readings_of(alloc, ty, &mut store, 0)?;
    let formulas = formulas_of(alloc, ty, &mut store, &readings)?;
    let key = key_of(query);
    let marks = marks_of(alloc, &store, key, &formulas)?;
    let lows = lows_of(alloc, &store, key, &formulas)?;
    let known = marks
        .iter()
        .any(|mark| is_answered(ty, key, &store, *mark, &formulas))
        || lows
            .iter()
            .any(|(low, _)| is_answered(ty, key, &store, *low, &formulas));
    if !known {
        return Err(Miss::NoRule);
    }
    let whole = match guard {
        Guard::True => Expr::Const(Value::Bool(false)),
        Guard::Turned => whole_of(alloc, ty, query, &mut store, &readings)?,
    };
    set_lower(&marks, &mut store);
    forget_lows(&lows, &mut store);
    let never = never_of(alloc, ty, &marks, &lows, &store)?;
    let whole = lowered(alloc, &store, &marks, &whole)?;
    let mut told = Vec::new(alloc);
    for (own, formula) in formulas.iter().enumerate() {
        let mut answer = lowered(alloc, &store, &marks, formula)?;
        if own == place {
            answer = with_guard(alloc, guard, &never, &whole, answer)?;
        }
        push(&mut told, answer)?;
    }
    guess_of(alloc, ty, &store, &told)
}

/// The sort of a query's argument, if it has one.
fn key_of(query: &Query) -> Option<Sort> {
    match query.params.as_slice() {
        [param, ..] => Some(param.sort),
        [] => None,
    }
}

/// Whether a query with such an argument answers a number by a leaf.
fn is_answered(
    ty: &SeqType,
    key: Option<Sort>,
    store: &Store,
    leaf: Mark,
    formulas: &[Expr],
) -> bool {
    for (query, formula) in ty.queries.as_slice().iter().zip(formulas.iter()) {
        let is_number = query.sort == Sort::Nat || query.sort == Sort::Int;
        let is_tied = query.params.as_slice().len() < 2 && key_of(query) == key;
        if is_number && is_tied && leaf.is_read(store, formula) {
            return true;
        }
    }
    false
}

/// What a query asks, by truth values as they are where its fields have such: a relation ties these to them.
fn whole_of(
    alloc: Global,
    ty: &SeqType,
    query: &Query,
    store: &mut Store,
    readings: &[Option<Expr>],
) -> Result<Expr, Miss> {
    let mut own = Vec::new(alloc);
    store.as_numbers = false;
    for (field, reading) in readings.iter().enumerate() {
        let number = number_of(field);
        let is_read = reads_field(&query.right, number, number.saturating_add(1));
        let found = match (ty.fields.as_slice().get(field), reading) {
            (Some(kept), Some(_)) if is_read && is_truth(kept) => {
                field_reading(alloc, ty, number, store, 0)?
            }
            (_, Some(found)) => Some(copied(alloc, found)?),
            (_, None) => None,
        };
        push(&mut own, found)?;
    }
    store.as_numbers = true;
    over_leaves(alloc, ty, &query.right, &own)
}

/// Whether a field has truth values.
fn is_truth(field: &Field) -> bool {
    match field {
        Field::Plain { sort, .. } => *sort == Sort::Bool,
        Field::Keyed { sort, .. } => *sort == Sort::Bool,
    }
}

/// The formula of a query with its guard.
fn with_guard(
    alloc: Global,
    guard: Guard,
    never: &Expr,
    whole: &Expr,
    formula: Expr,
) -> Result<Expr, AllocError> {
    let here = copied(alloc, never)?;
    match guard {
        Guard::True => joined_by(alloc, Joint::Any, here, formula),
        Guard::Turned => {
            let turned = denied(alloc, copied(alloc, whole)?)?;
            let otherwise = denied(alloc, copied(alloc, never)?)?;
            let there = joined_by(alloc, Joint::All, here, turned)?;
            let rest = joined_by(alloc, Joint::All, otherwise, formula)?;
            joined_by(alloc, Joint::Any, there, rest)
        }
    }
}

/// A formula over marks that are 0 and 1, if they are -1 and 0.
fn lowered(alloc: Global, store: &Store, marks: &[Mark], expr: &Expr) -> Result<Expr, Miss> {
    if let Some(linear) = switched(alloc, store, marks, expr)? {
        return spelled(alloc, &linear);
    }
    match expr {
        Expr::Const(_) | Expr::Arg(_) => Ok(copied(alloc, expr)?),
        Expr::Plain(_) | Expr::Keyed { .. } => {
            let own = copied(alloc, expr)?;
            if is_lower(store, marks, expr) {
                return Ok(sum_of(alloc, own, Expr::Const(Value::Num(1)))?);
            }
            Ok(own)
        }
        Expr::Not(inner) => {
            let inner = lowered(alloc, store, marks, inner)?;
            Ok(denied(alloc, inner)?)
        }
        Expr::And(left, right)
        | Expr::Or(left, right)
        | Expr::Less(left, right)
        | Expr::AtMost(left, right)
        | Expr::Same(left, right)
        | Expr::Plus(left, right)
        | Expr::Minus(left, right)
        | Expr::Max(left, right)
        | Expr::Min(left, right) => {
            let left = lowered(alloc, store, marks, left)?;
            let right = lowered(alloc, store, marks, right)?;
            Ok(folded(alloc, expr, left, right)?)
        }
        Expr::If(condition, then, other) => {
            let condition = lowered(alloc, store, marks, condition)?;
            let then = lowered(alloc, store, marks, then)?;
            let other = lowered(alloc, store, marks, other)?;
            Ok(choice_of(alloc, condition, then, other)?)
        }
    }
}

/// A choice between two numbers by a mark, as a multiple of the mark that is -1 or 0.
fn switched(
    alloc: Global,
    store: &Store,
    marks: &[Mark],
    expr: &Expr,
) -> Result<Option<Linear>, Miss> {
    let Expr::If(condition, then, other) = expr else {
        return Ok(None);
    };
    let (Expr::Const(Value::Num(high)), Expr::Const(Value::Num(low))) = (&**then, &**other) else {
        return Ok(None);
    };
    let Some(atom) = marked_in(store, marks, condition) else {
        return Ok(None);
    };
    let Some(factor) = high.checked_sub(*low) else {
        return Err(Miss::NoRule);
    };
    let mut terms = Vec::new(alloc);
    push(&mut terms, Term { factor, atom })?;
    Ok(Some(Linear {
        constant: *high,
        terms,
    }))
}

/// The mark of which a condition says that it is above 0.
fn marked_in(store: &Store, marks: &[Mark], condition: &Expr) -> Option<Atom> {
    match condition {
        Expr::Less(zero, read) => match &**zero {
            Expr::Const(Value::Num(0)) if is_lower(store, marks, read) => match &**read {
                Expr::Plain(field) => Some(Atom::Read {
                    field: *field,
                    key: None,
                }),
                Expr::Keyed { field, key } => Some(Atom::Read {
                    field: *field,
                    key: Some(*key),
                }),
                _ => None,
            },
            _ => None,
        },
        _ => None,
    }
}

/// Whether an expression reads one of the marks.
fn is_lower(store: &Store, marks: &[Mark], expr: &Expr) -> bool {
    match expr {
        Expr::Plain(field) | Expr::Keyed { field, .. } => {
            marks.iter().any(|mark| mark.number(store) == *field)
        }
        _ => false,
    }
}
