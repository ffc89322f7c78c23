//! Whether rules give a guess for less than a type: for what some operations do to a field alone, or for one query alone.

use kat_design::{Design, size};
use kat_expr::Expr;
use kat_formulas::{copied, reads_field};
use kat_guess::{Guess, Miss, guess_count, guess_for};
use kat_num::{Items, Sort, Value};
use kat_reading::boxed;
use kat_type::{Assign, Field, Operation, Param, Query, SeqType, signature};
use std::alloc::{AllocError, Global};

/// The greatest size of a design.
const SIZE: u32 = 64;

/// Of the assignments to a field those of two operations, by their numbers; of one if they are the same.
#[derive(Clone, Copy)]
struct Keeps {
    field: u32,
    one: usize,
    other: usize,
}

/// The first guess that rules give for a type, whatever its size.
fn first_made(alloc: Global, ty: &SeqType) -> Result<Option<Guess>, AllocError> {
    for number in 0..guess_count(ty) {
        match guess_for(alloc, ty, number) {
            Ok(guess) => return Ok(Some(guess)),
            Err(Miss::NoRule) => {}
            Err(Miss::Memory) => return Err(AllocError),
        }
    }
    Ok(None)
}

/// The size of the first guess that rules give for a type, if that is too great for a design.
pub(crate) fn large_guess(alloc: Global, ty: &SeqType) -> Result<Option<u32>, AllocError> {
    let Some(Guess { components, asks }) = first_made(alloc, ty)? else {
        return Ok(None);
    };
    let design = Design {
        sig: signature(alloc, ty)?,
        components: Items::from_vec(components),
        asks: Items::from_vec(asks),
    };
    let size = size(&design);
    Ok(if size > SIZE { Some(size) } else { None })
}

/// Whether rules give a guess for a field, whatever else queries read.
pub(crate) fn is_ruled(alloc: Global, ty: &SeqType, field: u32) -> Result<bool, AllocError> {
    has_guess(alloc, ty, field, None)
}

/// Whether rules give a guess for a field if none but two operations change it, or one if they are the same.
pub(crate) fn are_ruled(
    alloc: Global,
    ty: &SeqType,
    field: u32,
    one: usize,
    other: usize,
) -> Result<bool, AllocError> {
    has_guess(alloc, ty, field, Some(Keeps { field, one, other }))
}

/// Whether rules give a guess for a query of a field, with so much of what changes it.
fn has_guess(
    alloc: Global,
    ty: &SeqType,
    field: u32,
    keeps: Option<Keeps>,
) -> Result<bool, AllocError> {
    match query_of(alloc, ty, field)? {
        None => Ok(false),
        Some(query) => {
            let own = restricted(alloc, ty, keeps, query)?;
            Ok(first_made(alloc, &own)?.is_some())
        }
    }
}

/// Whether rules give a guess for a query of a type alone.
pub(crate) fn is_asked_alone(
    alloc: Global,
    ty: &SeqType,
    query: &Query,
) -> Result<bool, AllocError> {
    let query = same_query(alloc, query)?;
    let own = restricted(alloc, ty, None, query)?;
    Ok(first_made(alloc, &own)?.is_some())
}

/// The type with so much of what changes a field, and with one query.
fn restricted(
    alloc: Global,
    ty: &SeqType,
    keeps: Option<Keeps>,
    query: Query,
) -> Result<SeqType, AllocError> {
    let mut ops = Vec::new(alloc);
    for (number, op) in ty.ops.as_slice().iter().enumerate() {
        let dropped = match keeps {
            Some(Keeps { field, one, other }) if number != one && number != other => Some(field),
            _ => None,
        };
        ops.push(operation_without(alloc, op, dropped)?)?;
    }
    let mut queries = Vec::new(alloc);
    queries.push(query)?;
    Ok(SeqType {
        name: ty.name,
        fields: same_items(alloc, &ty.fields)?,
        ops: Items::from_vec(ops),
        queries: Items::from_vec(queries),
    })
}

/// An operation without what it does to a field, if one is given.
fn operation_without(
    alloc: Global,
    op: &Operation,
    field: Option<u32>,
) -> Result<Operation, AllocError> {
    let mut assigns = Vec::new(alloc);
    for assign in op.assigns.as_slice() {
        if field != Some(field_of(assign)) {
            assigns.push(same_assign(alloc, assign)?)?;
        }
    }
    Ok(Operation {
        name: op.name,
        params: same_items(alloc, &op.params)?,
        ranks: same_items(alloc, &op.ranks)?,
        assigns: Items::from_vec(assigns),
    })
}

/// The field that is assigned.
fn field_of(assign: &Assign) -> u32 {
    match assign {
        Assign::Plain { field, .. } => *field,
        Assign::Keyed { field, .. } => *field,
        Assign::Clear { field } => *field,
    }
}

/// The same assignment.
fn same_assign(alloc: Global, assign: &Assign) -> Result<Assign, AllocError> {
    match assign {
        Assign::Plain { field, right } => Ok(Assign::Plain {
            field: *field,
            right: copied(alloc, right)?,
        }),
        Assign::Keyed { field, key, right } => Ok(Assign::Keyed {
            field: *field,
            key: *key,
            right: copied(alloc, right)?,
        }),
        Assign::Clear { field } => Ok(Assign::Clear { field: *field }),
    }
}

/// The same elements.
fn same_items<T: Copy>(alloc: Global, items: &Items<T>) -> Result<Items<T>, AllocError> {
    Ok(Items::from_vec(items.as_slice().iter().copied().collect(alloc)?))
}

/// The same query.
fn same_query(alloc: Global, query: &Query) -> Result<Query, AllocError> {
    Ok(Query {
        name: query.name,
        params: same_items(alloc, &query.params)?,
        sort: query.sort,
        right: copied(alloc, &query.right)?,
    })
}

/// A query of a field: it itself if it is a truth value or a query answers it; otherwise the first query that reads no other field,
/// or how it compares with its start if there is none.
fn query_of(alloc: Global, ty: &SeqType, number: u32) -> Result<Option<Query>, AllocError> {
    match ty.fields.as_slice().get(number as usize) {
        None => Ok(None),
        Some(Field::Plain { sort, start, .. }) => Ok(Some(query_for(
            alloc,
            ty,
            number,
            Items::from_vec(Vec::new(alloc)),
            *sort,
            *start,
        )?)),
        Some(
            Field::Keyed {
                name,
                key,
                sort,
                start,
            },
        ) => {
            let mut params = Vec::new(alloc);
            params.push(Param {
                name: *name,
                sort: *key,
            })?;
            Ok(Some(query_for(alloc, ty, number, Items::from_vec(params), *sort, *start)?))
        }
    }
}

/// A query of a field with a sort and a start, at the key that these parameters have.
fn query_for(
    alloc: Global,
    ty: &SeqType,
    number: u32,
    params: Items<Param>,
    sort: Sort,
    start: Value,
) -> Result<Query, AllocError> {
    let read = if params.as_slice().is_empty() {
        Expr::Plain(number)
    } else {
        Expr::Keyed {
            field: number,
            key: 0,
        }
    };
    let is_itself = sort == Sort::Bool || is_answered(ty, number);
    if !is_itself {
        for query in ty.queries.as_slice() {
            if reads_alone(&query.right, number) {
                return same_query(alloc, query);
            }
        }
    }
    Ok(Query {
        name: ty.name,
        params,
        sort: if is_itself { sort } else { Sort::Bool },
        right: if is_itself {
            read
        } else {
            compared(alloc, read, start)?
        },
    })
}

/// Whether an expression reads a field and no other.
fn reads_alone(expr: &Expr, number: u32) -> bool {
    let next = number.saturating_add(1);
    reads_field(expr, number, next)
        && !reads_field(expr, 0, number)
        && !reads_field(expr, next, u32::MAX)
}

/// A number or a name beside a constant.
fn compared(alloc: Global, read: Expr, start: Value) -> Result<Expr, AllocError> {
    let left = boxed(alloc, read)?;
    let right = boxed(alloc, Expr::Const(start))?;
    match start {
        Value::Num(_) => Ok(Expr::AtMost(left, right)),
        _ => Ok(Expr::Same(left, right)),
    }
}

/// Whether a query answers a number or a name that is a field, or is computed of it.
fn is_answered(ty: &SeqType, field: u32) -> bool {
    ty.queries.as_slice().iter().any(|query| query.sort != Sort::Bool && gives(&query.right, field))
}

/// Whether an expression gives a field in some case, or adds something to it.
fn gives(expr: &Expr, field: u32) -> bool {
    match expr {
        Expr::Plain(number) => *number == field,
        Expr::Keyed { field: number, .. } => *number == field,
        Expr::Plus(left, right)
        | Expr::Minus(left, right)
        | Expr::Max(left, right)
        | Expr::Min(left, right) => gives(left, field) || gives(right, field),
        Expr::If(_, then, other) => gives(then, field) || gives(other, field),
        _ => false,
    }
}
