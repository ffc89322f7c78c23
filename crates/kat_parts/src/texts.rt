//! The text of a part, as a type file.

use crate::parts::{Part, assigned_field};
use itoa::Buffer;
use kat_expr::Expr;
use kat_num::{Sort, Value, bytes_of, print};
use kat_reading::number_of;
use kat_type::{Assign, Field, Operation, Param, Query, Rank, SeqType};
use std::alloc::{AllocError, Global};

/// The text of a part of a type, which has the type's name; of format 2 if an operation of the part clears a table.
///
/// In format 1 `clear` can be a name, so a part that clears nothing stays of that format.
pub(crate) fn part_text(alloc: Global, ty: &SeqType, part: &Part) -> Result<Vec<u8>, AllocError> {
    let mut text = Vec::new(alloc);
    text.extend_from_slice(b"type ")?;
    push_word(alloc, ty.name, &mut text)?;
    text.extend_from_slice(if clears(ty, part) { b" 2\n" } else { b"\n" })?;
    for (number, field) in ty.fields.as_slice().iter().enumerate() {
        if has(&part.fields, number) {
            push_field(alloc, field, &mut text)?;
        }
    }
    for (number, op) in ty.ops.as_slice().iter().enumerate() {
        if has(&part.ops, number) {
            push_operation(alloc, ty, part, op, &mut text)?;
        }
    }
    for (number, query) in ty.queries.as_slice().iter().enumerate() {
        if has(&part.queries, number) {
            push_query(alloc, ty, query, &mut text)?;
        }
    }
    Ok(text)
}

/// The text of a whole type.
pub(crate) fn whole_text(alloc: Global, ty: &SeqType) -> Result<Vec<u8>, AllocError> {
    let whole = Part {
        fields: numbers_to(alloc, ty.fields.as_slice().len())?,
        ops: numbers_to(alloc, ty.ops.as_slice().len())?,
        queries: numbers_to(alloc, ty.queries.as_slice().len())?,
    };
    part_text(alloc, ty, &whole)
}

/// The numbers below a number.
fn numbers_to(alloc: Global, count: usize) -> Result<Vec<u32>, AllocError> {
    let mut numbers = Vec::new(alloc);
    for place in 0..count {
        numbers.push(number_of(place))?;
    }
    Ok(numbers)
}

/// Whether a number is among those of a part.
pub(crate) fn has(numbers: &[u32], number: usize) -> bool {
    numbers.iter().any(|own| *own as usize == number)
}

/// Whether an operation of a part clears a table of it.
fn clears(ty: &SeqType, part: &Part) -> bool {
    let mut ops = ty.ops.as_slice().iter().enumerate();
    ops.any(|(number, op)| has(&part.ops, number) && clears_one(part, op))
}

/// Whether an operation clears a table of a part.
fn clears_one(part: &Part, op: &Operation) -> bool {
    let mut assigns = op.assigns.as_slice().iter();
    assigns.any(|assign| match assign {
        Assign::Clear { field } => has(&part.fields, *field as usize),
        Assign::Plain { .. } | Assign::Keyed { .. } => false,
    })
}

/// Appends a word by its code.
fn push_word(alloc: Global, code: u128, into: &mut Vec<u8>) -> Result<(), AllocError> {
    let bytes = bytes_of(alloc, code)?;
    into.extend_from_slice(&bytes)
}

/// The word of a sort.
fn sort_word(sort: Sort) -> &'static [u8] {
    match sort {
        Sort::Bool => b"bool",
        Sort::Int => b"int",
        Sort::Nat => b"nat",
        Sort::Name => b"name",
    }
}

/// Appends the line of a field.
fn push_field(alloc: Global, field: &Field, into: &mut Vec<u8>) -> Result<(), AllocError> {
    into.extend_from_slice(b"state ")?;
    match field {
        Field::Plain { name, sort, start } => {
            push_word(alloc, *name, into)?;
            into.extend_from_slice(b": ")?;
            push_start(alloc, *sort, start, into)
        }
        Field::Keyed {
            name,
            key,
            sort,
            start,
        } => {
            push_word(alloc, *name, into)?;
            into.extend_from_slice(b": table ")?;
            into.extend_from_slice(sort_word(*key))?;
            into.extend_from_slice(b" -> ")?;
            push_start(alloc, *sort, start, into)
        }
    }
}

/// Appends a sort and a start.
fn push_start(
    alloc: Global,
    sort: Sort,
    start: &Value,
    into: &mut Vec<u8>,
) -> Result<(), AllocError> {
    into.extend_from_slice(sort_word(sort))?;
    into.extend_from_slice(b" = ")?;
    print(alloc, start, into)?;
    into.extend_from_slice(b"\n")
}

/// Appends the line of an operation, with what it assigns to fields of the part.
fn push_operation(
    alloc: Global,
    ty: &SeqType,
    part: &Part,
    op: &Operation,
    into: &mut Vec<u8>,
) -> Result<(), AllocError> {
    let params = op.params.as_slice();
    into.extend_from_slice(b"op ")?;
    push_word(alloc, op.name, into)?;
    push_params(alloc, params, into)?;
    into.extend_from_slice(b" rank ")?;
    for (place, rank) in op.ranks.as_slice().iter().enumerate() {
        into.extend_from_slice(if place == 0 { b"" } else { b", " })?;
        push_rank(alloc, params, *rank, into)?;
    }
    into.extend_from_slice(b":")?;
    let mut any = false;
    for assign in op.assigns.as_slice() {
        if has(&part.fields, assigned_field(assign) as usize) {
            into.extend_from_slice(if any { b"; " } else { b" " })?;
            any = true;
            push_assign(alloc, ty, params, assign, into)?;
        }
    }
    into.extend_from_slice(b"\n")
}

/// Appends parameters between parentheses.
fn push_params(alloc: Global, params: &[Param], into: &mut Vec<u8>) -> Result<(), AllocError> {
    into.extend_from_slice(b"(")?;
    for (place, param) in params.iter().enumerate() {
        into.extend_from_slice(if place == 0 { b"" } else { b", " })?;
        push_word(alloc, param.name, into)?;
        into.extend_from_slice(b": ")?;
        into.extend_from_slice(sort_word(param.sort))?;
    }
    into.extend_from_slice(b")")
}

/// Appends an element of a rank.
fn push_rank(
    alloc: Global,
    params: &[Param],
    rank: Rank,
    into: &mut Vec<u8>,
) -> Result<(), AllocError> {
    match rank {
        Rank::Digit(digit) => {
            into.extend_from_slice(Buffer::new().format(u32::from(digit)).as_bytes())
        }
        Rank::Time => into.extend_from_slice(b"time"),
        Rank::Replica => into.extend_from_slice(b"replica"),
        Rank::Arg(place) => push_param(alloc, params, place, into),
    }
}

/// Appends the name of a parameter.
fn push_param(
    alloc: Global,
    params: &[Param],
    place: u32,
    into: &mut Vec<u8>,
) -> Result<(), AllocError> {
    match params.get(place as usize) {
        Some(param) => push_word(alloc, param.name, into),
        None => Ok(()),
    }
}

/// Appends the name of a field.
fn push_name(
    alloc: Global,
    ty: &SeqType,
    field: u32,
    into: &mut Vec<u8>,
) -> Result<(), AllocError> {
    match ty.fields.as_slice().get(field as usize) {
        Some(Field::Plain { name, .. }) => push_word(alloc, *name, into),
        Some(Field::Keyed { name, .. }) => push_word(alloc, *name, into),
        None => Ok(()),
    }
}

/// Appends an assignment.
fn push_assign(
    alloc: Global,
    ty: &SeqType,
    params: &[Param],
    assign: &Assign,
    into: &mut Vec<u8>,
) -> Result<(), AllocError> {
    match assign {
        Assign::Clear { field } => {
            into.extend_from_slice(b"clear ")?;
            push_name(alloc, ty, *field, into)
        }
        Assign::Plain { field, right } => {
            push_name(alloc, ty, *field, into)?;
            into.extend_from_slice(b" := ")?;
            push_side(alloc, ty, params, right, into)
        }
        Assign::Keyed { field, key, right } => {
            push_entry(alloc, ty, params, *field, *key, into)?;
            into.extend_from_slice(b" := ")?;
            push_side(alloc, ty, params, right, into)
        }
    }
}

/// Appends a table at a key.
fn push_entry(
    alloc: Global,
    ty: &SeqType,
    params: &[Param],
    field: u32,
    key: u32,
    into: &mut Vec<u8>,
) -> Result<(), AllocError> {
    push_name(alloc, ty, field, into)?;
    into.extend_from_slice(b"[")?;
    push_param(alloc, params, key, into)?;
    into.extend_from_slice(b"]")
}

/// Appends the line of a query.
fn push_query(
    alloc: Global,
    ty: &SeqType,
    query: &Query,
    into: &mut Vec<u8>,
) -> Result<(), AllocError> {
    let params = query.params.as_slice();
    into.extend_from_slice(b"query ")?;
    push_word(alloc, query.name, into)?;
    push_params(alloc, params, into)?;
    into.extend_from_slice(b": ")?;
    into.extend_from_slice(sort_word(query.sort))?;
    into.extend_from_slice(b" = ")?;
    push_side(alloc, ty, params, &query.right, into)?;
    into.extend_from_slice(b"\n")
}

/// What comes before and between the two sides of an operator.
fn operator_words(expr: &Expr) -> (&'static [u8], &'static [u8]) {
    match expr {
        Expr::And(..) => (b"(", b" and "),
        Expr::Or(..) => (b"(", b" or "),
        Expr::Less(..) => (b"(", b" < "),
        Expr::AtMost(..) => (b"(", b" <= "),
        Expr::Same(..) => (b"(", b" = "),
        Expr::Plus(..) => (b"(", b" + "),
        Expr::Minus(..) => (b"(", b" - "),
        Expr::Max(..) => (b"max(", b", "),
        Expr::Min(..) => (b"min(", b", "),
        _ => (b"", b""),
    }
}

/// Appends a whole right side, without parentheses around it.
fn push_side(
    alloc: Global,
    ty: &SeqType,
    params: &[Param],
    expr: &Expr,
    into: &mut Vec<u8>,
) -> Result<(), AllocError> {
    let mut side = Vec::new(alloc);
    push_expr(alloc, ty, params, expr, &mut side)?;
    match side.as_slice() {
        [b'(', inner @ .., b')'] => into.extend_from_slice(inner),
        whole => into.extend_from_slice(whole),
    }
}

/// Appends an expression, in parentheses if it has parts.
fn push_expr(
    alloc: Global,
    ty: &SeqType,
    params: &[Param],
    expr: &Expr,
    into: &mut Vec<u8>,
) -> Result<(), AllocError> {
    match expr {
        Expr::Const(value) => print(alloc, value, into),
        Expr::Arg(place) => push_param(alloc, params, *place, into),
        Expr::Plain(field) => push_name(alloc, ty, *field, into),
        Expr::Keyed { field, key } => push_entry(alloc, ty, params, *field, *key, into),
        Expr::Not(inner) => {
            into.extend_from_slice(b"(not ")?;
            push_expr(alloc, ty, params, inner, into)?;
            into.extend_from_slice(b")")
        }
        Expr::And(left, right)
        | Expr::Or(left, right)
        | Expr::Less(left, right)
        | Expr::AtMost(left, right)
        | Expr::Same(left, right)
        | Expr::Plus(left, right)
        | Expr::Minus(left, right)
        | Expr::Max(left, right)
        | Expr::Min(left, right) => {
            let (before, between) = operator_words(expr);
            into.extend_from_slice(before)?;
            push_expr(alloc, ty, params, left, into)?;
            into.extend_from_slice(between)?;
            push_expr(alloc, ty, params, right, into)?;
            into.extend_from_slice(b")")
        }
        Expr::If(condition, then, other) => {
            into.extend_from_slice(b"(if ")?;
            push_expr(alloc, ty, params, condition, into)?;
            into.extend_from_slice(b" then ")?;
            push_expr(alloc, ty, params, then, into)?;
            into.extend_from_slice(b" else ")?;
            push_expr(alloc, ty, params, other, into)?;
            into.extend_from_slice(b")")
        }
    }
}
