//! Further queries of a type, as lines of its file: what a field is, and how it compares with numbers.

use itoa::Buffer;
use kat_expr::Expr;
use kat_guess::is_read;
use kat_num::{Sort, Value, bytes_of};
use kat_type::{Assign, Field, Operation, Query, SeqType};
use std::alloc::{AllocError, Global};

/// What a further query asks of a field.
#[derive(Clone, Copy, PartialEq, Eq, Debug)]
pub(crate) enum Asks {
    /// The field itself.
    Itself,
    /// Whether it is at least a number, or at most the start.
    Bounds,
    /// 1 if it is at least a number, or true, and otherwise 0.
    Steps,
}

/// How many bytes of a field's name are in the name of a query.
const STEM: usize = 11;

/// How many numbers a field is compared with, if they are next to each other.
const NEAR: i128 = 8;

/// How many numbers a field is compared with at most.
const BOUNDS: usize = 8;

/// The lines of further queries of one kind, of the fields that a query reads.
pub(crate) fn lines_of(
    alloc: Global,
    ty: &SeqType,
    asks: Asks,
) -> Result<Vec<Vec<u8>>, AllocError> {
    let mut lines = Vec::new(alloc);
    for (number, field) in ty.fields.as_slice().iter().enumerate() {
        let number = u32::try_from(number).unwrap_or(u32::MAX);
        if is_read(ty, number) {
            push_lines(alloc, ty, number, field, asks, &mut lines)?;
        }
    }
    Ok(lines)
}

/// Appends the lines of further queries of a field.
fn push_lines(
    alloc: Global,
    ty: &SeqType,
    number: u32,
    field: &Field,
    asks: Asks,
    into: &mut Vec<Vec<u8>>,
) -> Result<(), AllocError> {
    let (sort, start) = match field {
        Field::Plain { sort, start, .. } => (*sort, *start),
        Field::Keyed { sort, start, .. } => (*sort, *start),
    };
    if asks == Asks::Itself {
        if !ty
            .queries
            .as_slice()
            .iter()
            .any(|query| is_itself(query, number))
        {
            into.push(itself_line(alloc, ty, field, sort)?)?;
        }
        return Ok(());
    }
    let start = match start {
        Value::Num(start) => start,
        Value::Bool(_) if asks == Asks::Steps => {
            into.push(truth_line(alloc, ty, field)?)?;
            return Ok(());
        }
        _ => return Ok(()),
    };
    let bounds = bounds_of(alloc, ty, number, start)?;
    let mut count = 1_u32;
    for bound in &bounds {
        into.push(bound_line(alloc, ty, field, count, *bound, asks)?)?;
        count = count.saturating_add(1);
    }
    if asks == Asks::Bounds {
        into.push(low_line(alloc, ty, field, start)?)?;
    }
    Ok(())
}

/// The line of a query that asks whether a field is at most its start.
fn low_line(
    alloc: Global,
    ty: &SeqType,
    field: &Field,
    start: i128,
) -> Result<Vec<u8>, AllocError> {
    let mut line = head_of(alloc, ty, field, b"_low", b"bool")?;
    push_read(alloc, ty, field, &mut line)?;
    line.extend_from_slice(b" <= ")?;
    push_number(start, &mut line)?;
    line.extend_from_slice(b"\n")?;
    Ok(line)
}

/// Whether a query asks for a field itself.
fn is_itself(query: &Query, number: u32) -> bool {
    match &query.right {
        Expr::Plain(field) => *field == number,
        Expr::Keyed { field, .. } => *field == number && query.params.as_slice().len() == 1,
        _ => false,
    }
}

/// The line of a query that asks for a field itself.
fn itself_line(
    alloc: Global,
    ty: &SeqType,
    field: &Field,
    sort: Sort,
) -> Result<Vec<u8>, AllocError> {
    let mut line = head_of(alloc, ty, field, b"_is", sort_word(sort))?;
    push_read(alloc, ty, field, &mut line)?;
    line.extend_from_slice(b"\n")?;
    Ok(line)
}

/// The line of a query that asks for a truth value as 1 or 0.
fn truth_line(alloc: Global, ty: &SeqType, field: &Field) -> Result<Vec<u8>, AllocError> {
    let mut line = head_of(alloc, ty, field, b"_s", b"nat")?;
    line.extend_from_slice(b"if ")?;
    push_read(alloc, ty, field, &mut line)?;
    line.extend_from_slice(b" then 1 else 0\n")?;
    Ok(line)
}

/// The line of a query that asks whether a field is at least a number, as a truth value or as 1 or 0.
fn bound_line(
    alloc: Global,
    ty: &SeqType,
    field: &Field,
    count: u32,
    bound: i128,
    asks: Asks,
) -> Result<Vec<u8>, AllocError> {
    let mut end = Vec::new(alloc);
    end.extend_from_slice(if asks == Asks::Steps { b"_s" } else { b"_" })?;
    end.extend_from_slice(Buffer::new().format(count).as_bytes())?;
    let sort: &[u8] = if asks == Asks::Steps { b"nat" } else { b"bool" };
    let mut line = head_of(alloc, ty, field, &end, sort)?;
    if asks == Asks::Steps {
        line.extend_from_slice(b"if ")?;
    }
    push_number(bound, &mut line)?;
    line.extend_from_slice(b" <= ")?;
    push_read(alloc, ty, field, &mut line)?;
    if asks == Asks::Steps {
        line.extend_from_slice(b" then 1 else 0")?;
    }
    line.extend_from_slice(b"\n")?;
    Ok(line)
}

/// The line of a query up to its right side: its name is that of the field with an end.
fn head_of(
    alloc: Global,
    ty: &SeqType,
    field: &Field,
    end: &[u8],
    sort: &[u8],
) -> Result<Vec<u8>, AllocError> {
    let mut line = Vec::new(alloc);
    line.extend_from_slice(b"query ")?;
    let name = bytes_of(alloc, name_of(field))?;
    for (place, byte) in name.iter().enumerate() {
        if place < STEM {
            line.push(*byte)?;
        }
    }
    line.extend_from_slice(end)?;
    line.extend_from_slice(b"(")?;
    if let Field::Keyed { key, .. } = field {
        line.extend_from_slice(key_word(alloc, ty)?)?;
        line.extend_from_slice(b": ")?;
        line.extend_from_slice(sort_word(*key))?;
    }
    line.extend_from_slice(b"): ")?;
    line.extend_from_slice(sort)?;
    line.extend_from_slice(b" = ")?;
    Ok(line)
}

/// Appends a field, at the key if it is a table.
fn push_read(
    alloc: Global,
    ty: &SeqType,
    field: &Field,
    into: &mut Vec<u8>,
) -> Result<(), AllocError> {
    let name = bytes_of(alloc, name_of(field))?;
    into.extend_from_slice(&name)?;
    if let Field::Keyed { .. } = field {
        into.extend_from_slice(b"[")?;
        into.extend_from_slice(key_word(alloc, ty)?)?;
        into.extend_from_slice(b"]")?;
    }
    Ok(())
}

/// What the parameter is called, as no field is.
fn key_word(alloc: Global, ty: &SeqType) -> Result<&'static [u8], AllocError> {
    for field in ty.fields.as_slice() {
        let name = bytes_of(alloc, name_of(field))?;
        if name.as_slice() == b"key".as_slice() {
            return Ok(b"which");
        }
    }
    Ok(b"key")
}

/// The name of a field, by its code.
fn name_of(field: &Field) -> u128 {
    match field {
        Field::Plain { name, .. } => *name,
        Field::Keyed { name, .. } => *name,
    }
}

/// The word of a sort.
fn sort_word(sort: Sort) -> &'static [u8] {
    match sort {
        Sort::Bool => b"bool",
        Sort::Int => b"int",
        Sort::Nat => b"nat",
        Sort::Name => b"name",
    }
}

/// Appends a number.
fn push_number(number: i128, into: &mut Vec<u8>) -> Result<(), AllocError> {
    into.extend_from_slice(Buffer::new().format(number).as_bytes())
}

/// Numbers above the start and the least constant that operations set a field with: all up to the greatest one, if they are few,
/// and otherwise the constants.
fn bounds_of(
    alloc: Global,
    ty: &SeqType,
    number: u32,
    start: i128,
) -> Result<Vec<i128>, AllocError> {
    let mut constants = Vec::new(alloc);
    constants.push(start)?;
    for op in ty.ops.as_slice() {
        push_constants_of(op, number, &mut constants)?;
    }
    let mut least = start;
    let mut most = start;
    for constant in &constants {
        least = least.min(*constant);
        most = most.max(*constant);
    }
    let mut bounds = Vec::new(alloc);
    if most.saturating_sub(least) <= NEAR {
        for step in 1..9_u32 {
            let bound = least.saturating_add(i128::from(step));
            if bound <= most {
                bounds.push(bound)?;
            }
        }
        return Ok(bounds);
    }
    for constant in &constants {
        if least < *constant && !bounds.contains(constant) && bounds.len() < BOUNDS {
            bounds.push(*constant)?;
        }
    }
    Ok(bounds)
}

/// Appends the numbers in what an operation sets a field to.
fn push_constants_of(op: &Operation, number: u32, into: &mut Vec<i128>) -> Result<(), AllocError> {
    for assign in op.assigns.as_slice() {
        match assign {
            Assign::Plain { field, right } if *field == number => push_constants(right, into)?,
            Assign::Keyed { field, right, .. } if *field == number => push_constants(right, into)?,
            _ => {}
        }
    }
    Ok(())
}

/// Appends the numbers of an expression.
fn push_constants(expr: &Expr, into: &mut Vec<i128>) -> Result<(), AllocError> {
    match expr {
        Expr::Const(Value::Num(number)) => {
            into.push(*number)?;
            Ok(())
        }
        Expr::Const(_) | Expr::Arg(_) | Expr::Plain(_) | Expr::Keyed { .. } => Ok(()),
        Expr::Not(inner) => push_constants(inner, into),
        Expr::And(left, right)
        | Expr::Or(left, right)
        | Expr::Less(left, right)
        | Expr::AtMost(left, right)
        | Expr::Same(left, right)
        | Expr::Plus(left, right)
        | Expr::Minus(left, right)
        | Expr::Max(left, right)
        | Expr::Min(left, right) => {
            push_constants(left, into)?;
            push_constants(right, into)
        }
        Expr::If(condition, then, other) => {
            push_constants(condition, into)?;
            push_constants(then, into)?;
            push_constants(other, into)
        }
    }
}
