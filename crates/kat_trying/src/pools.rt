//! Values for longer histories: small ones, and the constants of the type, with one more and one less.

use kat_expr::Expr;
use kat_num::{Sort, Value};
use kat_type::{Assign, Field, SeqType};
use std::alloc::{AllocError, Global};

/// Numbers and names from which arguments are drawn.
#[derive(Drop)]
pub(crate) struct Pools {
    pub(crate) numbers: Vec<i128>,
    pub(crate) names: Vec<u128>,
    /// The greatest constant.
    pub(crate) greatest: i128,
}

/// How many numbers there are at most, and how many names.
const NUMBERS: usize = 32;

const NAMES: usize = 8;

/// The greatest number that an argument of a script may be.
const LIMIT: i128 = 1_000_000_000_000;

/// The codes of the names `a` and `b`.
const A: u128 = 0x61 << 112;

const B: u128 = 0x62 << 112;

/// The pools of a type.
pub(crate) fn pools_of(alloc: Global, ty: &SeqType) -> Result<Pools, AllocError> {
    let mut pools = Pools {
        numbers: Vec::new(alloc),
        names: Vec::new(alloc),
        greatest: 0,
    };
    note_number(1, &mut pools)?;
    note_name(A, &mut pools)?;
    note_name(B, &mut pools)?;
    for field in ty.fields.as_slice() {
        note_value(start_of(field), &mut pools)?;
    }
    for op in ty.ops.as_slice() {
        for assign in op.assigns.as_slice() {
            note_assigned(assign, &mut pools)?;
        }
    }
    for query in ty.queries.as_slice() {
        note_all(&query.right, &mut pools)?;
    }
    Ok(pools)
}

/// The start of a field.
pub(crate) fn start_of(field: &Field) -> Value {
    match field {
        Field::Plain { start, .. } => *start,
        Field::Keyed { start, .. } => *start,
    }
}

/// Notes the constants of a right side.
fn note_assigned(assign: &Assign, into: &mut Pools) -> Result<(), AllocError> {
    match assign {
        Assign::Plain { right, .. } => note_all(right, into),
        Assign::Keyed { right, .. } => note_all(right, into),
        Assign::Clear { .. } => Ok(()),
    }
}

/// Notes the constants of an expression.
fn note_all(expr: &Expr, into: &mut Pools) -> Result<(), AllocError> {
    match expr {
        Expr::Const(value) => note_value(*value, into),
        Expr::Plain(_) | Expr::Arg(_) | Expr::Keyed { .. } => Ok(()),
        Expr::Not(inner) => note_all(inner, into),
        Expr::And(left, right)
        | Expr::Or(left, right)
        | Expr::Less(left, right)
        | Expr::AtMost(left, right)
        | Expr::Same(left, right)
        | Expr::Plus(left, right)
        | Expr::Minus(left, right)
        | Expr::Max(left, right)
        | Expr::Min(left, right) => {
            note_all(left, into)?;
            note_all(right, into)
        }
        Expr::If(condition, then, other) => {
            note_all(condition, into)?;
            note_all(then, into)?;
            note_all(other, into)
        }
    }
}

/// Notes a constant, and of a number one less and one more too.
fn note_value(value: Value, into: &mut Pools) -> Result<(), AllocError> {
    match value {
        Value::Bool(_) => Ok(()),
        Value::Name(code) => note_name(code, into),
        Value::Num(number) => {
            if number > into.greatest {
                into.greatest = number;
            }
            note_number(number, into)
        }
    }
}

/// Notes a number, one less and one more.
fn note_number(number: i128, into: &mut Pools) -> Result<(), AllocError> {
    for near in [number, number.saturating_sub(1), number.saturating_add(1)] {
        let is_new = !into.numbers.contains(&near);
        if is_new && into.numbers.len() < NUMBERS && -LIMIT <= near && near <= LIMIT {
            into.numbers.push(near)?;
        }
    }
    Ok(())
}

/// Notes a name.
fn note_name(code: u128, into: &mut Pools) -> Result<(), AllocError> {
    if !into.names.contains(&code) && into.names.len() < NAMES {
        into.names.push(code)?;
    }
    Ok(())
}

/// The value of a sort that is drawn with a number.
pub(crate) fn value_of(pools: &Pools, sort: Sort, drawn: u32) -> Value {
    match sort {
        Sort::Bool => Value::Bool(drawn % 2 == 0),
        Sort::Int => Value::Num(chosen(&pools.numbers, drawn).unwrap_or(0)),
        Sort::Nat => Value::Num(natural(chosen(&pools.numbers, drawn).unwrap_or(0))),
        Sort::Name => Value::Name(chosen(&pools.names, drawn).unwrap_or(A)),
    }
}

/// A number as one that is at least 0.
fn natural(number: i128) -> i128 {
    if number < 0 { 0 } else { number }
}

/// The element that is drawn with a number.
fn chosen<T: Copy>(all: &[T], drawn: u32) -> Option<T> {
    match u32::try_from(all.len()) {
        Ok(count) if count > 0 => all.get((drawn % count) as usize).copied(),
        _ => None,
    }
}
