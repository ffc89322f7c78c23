//! Guesses by formulas: what operations compute is kept, and each query computes of it what it asks.

use crate::ladders::laddered;
use crate::plain::{Guess, made_at};
use crate::steps::by_steps;
use kat_computed::{Fitting, reading_for};
use kat_expr::Expr;
use kat_formulas::{formula_ask, node_count, reads_field, replaced};
use kat_keeping::{Store, add_made, finished, new_store, scope_of, subject_of};
use kat_num::Sort;
use kat_reading::{Miss, number_of, push};
use kat_type::{Assign, Query, SeqType};
use std::alloc::{AllocError, Global};

/// How many nodes the formula of a query may have.
const NODES: usize = 400;

/// A guess by formulas. The lowest bit of the number says whether truth values are kept as the numbers 0 and 1, so that sums can
/// have them, and the others for each field that is read whether the second rule that fits is used in place of the first.
pub(crate) fn formula_guess(alloc: Global, ty: &SeqType, number: u32) -> Result<Guess, Miss> {
    let mut store = new_store(alloc, ty, number % 2 == 1);
    let readings = readings_of(alloc, ty, &mut store, number / 2)?;
    let formulas = formulas_of(alloc, ty, &mut store, &readings)?;
    guess_of(alloc, ty, &store, &formulas)
}

/// The reading of each field that something else reads: by the first rule that fits, or where the lowest bits of the choices say so by
/// the second.
pub(crate) fn readings_of(
    alloc: Global,
    ty: &SeqType,
    store: &mut Store,
    choices: u32,
) -> Result<Vec<Option<Expr>>, Miss> {
    let mut left = choices;
    let mut readings = Vec::new(alloc);
    for (field, _) in ty.fields.as_slice().iter().enumerate() {
        let field = number_of(field);
        if is_read_anywhere(ty, field) {
            let reading = field_reading(alloc, ty, field, store, left % 2)?;
            push(&mut readings, reading)?;
            left /= 2;
        } else {
            push(&mut readings, None)?;
        }
    }
    Ok(readings)
}

/// What is kept, and the asks of the formulas of all queries.
pub(crate) fn guess_of(
    alloc: Global,
    ty: &SeqType,
    store: &Store,
    formulas: &[Expr],
) -> Result<Guess, Miss> {
    let mut asks = Vec::new(alloc);
    for (query, formula) in ty.queries.as_slice().iter().zip(formulas.iter()) {
        let scope = scope_of(alloc, store, sorts_of(alloc, query)?)?;
        push(&mut asks, formula_ask(alloc, &scope, formula)?)?;
    }
    let kept = finished(alloc, store, &asks)?;
    let mut moved = Vec::new(alloc);
    for (query, formula) in ty.queries.as_slice().iter().zip(formulas.iter()) {
        let scope = kept.scope(alloc, sorts_of(alloc, query)?)?;
        push(&mut moved, formula_ask(alloc, &scope, formula)?)?;
    }
    Ok(Guess {
        components: kept.components,
        asks: moved,
    })
}

/// The sorts of a query's arguments.
fn sorts_of(alloc: Global, query: &Query) -> Result<Vec<Sort>, AllocError> {
    let mut sorts = Vec::new(alloc);
    for param in query.params.as_slice() {
        push(&mut sorts, param.sort)?;
    }
    Ok(sorts)
}

/// Whether some query or right side reads a field.
fn is_read_anywhere(ty: &SeqType, field: u32) -> bool {
    let next = field.saturating_add(1);
    ty.queries
        .as_slice()
        .iter()
        .any(|query| reads_field(&query.right, field, next))
        || ty.ops.as_slice().iter().any(|op| {
            op.assigns
                .as_slice()
                .iter()
                .any(|assign| reads_other(assign, field))
        })
}

/// Whether the right side of another field reads a field.
fn reads_other(assign: &Assign, number: u32) -> bool {
    let next = number.saturating_add(1);
    match assign {
        Assign::Plain { field, right } => *field != number && reads_field(right, number, next),
        Assign::Keyed { field, right, .. } => {
            *field != number && reads_field(right, number, next)
        }
        Assign::Clear { .. } => false,
    }
}

/// The reading of a field by the first rule that fits, so many being passed over: those about what operations compute, and then
/// the others. There is none if no rule fits.
pub(crate) fn field_reading(
    alloc: Global,
    ty: &SeqType,
    field: u32,
    store: &mut Store,
    passed: u32,
) -> Result<Option<Expr>, Miss> {
    let subject = subject_of(alloc, ty, field)?;
    let left = match reading_for(alloc, ty, &subject, store, passed)? {
        Fitting::Found(expr) => return Ok(Some(expr)),
        Fitting::Left(left) => left,
    };
    match made_at(alloc, ty, field, 0, left) {
        Err(Miss::NoRule) => Ok(None),
        Err(Miss::Memory) => Err(Miss::Memory),
        Ok(made) => match add_made(alloc, store, made, subject.sort) {
            Err(Miss::NoRule) => Ok(None),
            Err(Miss::Memory) => Err(Miss::Memory),
            Ok(expr) => Ok(Some(expr)),
        },
    }
}

/// The formula of each query over what is kept.
pub(crate) fn formulas_of(
    alloc: Global,
    ty: &SeqType,
    store: &mut Store,
    readings: &[Option<Expr>],
) -> Result<Vec<Expr>, Miss> {
    let mut formulas = Vec::new(alloc);
    for query in ty.queries.as_slice() {
        let formula = match laddered(alloc, ty, query, store) {
            Err(Miss::NoRule) => formula_of(alloc, ty, query, store, readings)?,
            found => found?,
        };
        push(&mut formulas, formula)?;
    }
    Ok(formulas)
}

/// The formula of a query over what is kept, by the readings of the fields.
fn formula_of(
    alloc: Global,
    ty: &SeqType,
    query: &Query,
    store: &Store,
    readings: &[Option<Expr>],
) -> Result<Expr, Miss> {
    let stepped = by_steps(alloc, store, &query.right)?;
    over_leaves(alloc, ty, &stepped, readings)
}

/// An expression over what is kept, by the readings of the fields.
pub(crate) fn over_leaves(
    alloc: Global,
    ty: &SeqType,
    expr: &Expr,
    readings: &[Option<Expr>],
) -> Result<Expr, Miss> {
    let fields = number_of(ty.fields.as_slice().len());
    let mut formula = replaced(alloc, expr, readings, &[])?;
    for _ in 0..fields {
        if reads_field(&formula, 0, fields) && node_count(&formula) <= NODES {
            formula = replaced(alloc, &formula, readings, &[])?;
        }
    }
    if reads_field(&formula, 0, fields) || node_count(&formula) > NODES {
        return Err(Miss::NoRule);
    }
    Ok(formula)
}
