//! What the operations of a type do to one of its fields.

use crate::misses::{Miss, push};
use kat_expr::Expr;
use kat_num::{Sort, Value};
use kat_type::{Assign, Field, Operation, Param, SeqType};
use std::alloc::Global;

/// What an operation brings: a constant, or one of its arguments.
#[derive(Clone, Copy, Debug)]
pub enum Given {
    Const(Value),
    Arg { place: u32, sort: Sort },
}

/// How an operation joins what it brings to what a field holds.
#[derive(Clone, Copy, PartialEq, Eq, Debug)]
pub enum Join {
    Greater,
    Or,
    And,
}

/// What an operation does to a field; to a table at the key that is the argument with that number.
#[derive(Clone, Copy, Debug)]
pub enum Doing {
    Nothing,
    /// The table gets its start at every key.
    Clears,
    /// The field gets what is brought.
    Sets {
        key: Option<u32>,
        given: Given,
    },
    /// What is brought is added, or taken away.
    Adds {
        key: Option<u32>,
        given: Given,
        away: bool,
    },
    /// What is brought is joined.
    Joins {
        key: Option<u32>,
        given: Given,
        by: Join,
    },
}

/// A field, and what each operation does to it, in the order of the operations.
#[derive(Drop)]
pub struct Kept {
    /// The sort of a table's keys.
    pub key: Option<Sort>,
    pub sort: Sort,
    pub start: Value,
    pub doings: Vec<Doing>,
}

/// The field itself, as a right side reads it.
#[derive(Clone, Copy)]
struct Own {
    field: u32,
    key: Option<u32>,
}

/// The field with a number, if each operation does to it what a rule may know.
pub fn kept_of(alloc: Global, ty: &SeqType, number: u32) -> Result<Kept, Miss> {
    let mut doings = Vec::new(alloc);
    for op in ty.ops.as_slice() {
        push(&mut doings, doing_of(op, number)?)?;
    }
    match ty.fields.as_slice().get(number as usize) {
        None => Err(Miss::NoRule),
        Some(Field::Plain { sort, start, .. }) => Ok(Kept {
            key: None,
            sort: *sort,
            start: *start,
            doings,
        }),
        Some(
            Field::Keyed {
                key,
                sort,
                start,
                ..
            },
        ) => Ok(Kept {
            key: Some(*key),
            sort: *sort,
            start: *start,
            doings,
        }),
    }
}

/// What an operation does to the field with a number.
pub fn doing_of(op: &Operation, number: u32) -> Result<Doing, Miss> {
    let params = op.params.as_slice();
    for assign in op.assigns.as_slice() {
        match assign {
            Assign::Plain { field, right } if *field == number => {
                let own = Own {
                    field: number,
                    key: None,
                };
                return changed(params, own, right);
            }
            Assign::Keyed { field, key, right } if *field == number => {
                let own = Own {
                    field: number,
                    key: Some(*key),
                };
                return changed(params, own, right);
            }
            Assign::Clear { field } if *field == number => return Ok(Doing::Clears),
            _ => {}
        }
    }
    Ok(Doing::Nothing)
}

/// What an assignment does by its right side.
fn changed(params: &[Param], own: Own, right: &Expr) -> Result<Doing, Miss> {
    match right {
        Expr::Plus(left, right) => added(params, own, left, right),
        Expr::Minus(left, right) => taken(params, own, left, right),
        Expr::Max(left, right) => joined(params, own, left, right, Join::Greater),
        Expr::Or(left, right) => joined(params, own, left, right, Join::Or),
        Expr::And(left, right) => joined(params, own, left, right, Join::And),
        _ => Ok(Doing::Sets {
            key: own.key,
            given: given_by(params, right)?,
        }),
    }
}

/// What a sum of the field and something does.
fn added(params: &[Param], own: Own, left: &Expr, right: &Expr) -> Result<Doing, Miss> {
    Ok(Doing::Adds {
        key: own.key,
        given: given_beside(params, own, left, right)?,
        away: false,
    })
}

/// What a difference of the field and something does.
fn taken(params: &[Param], own: Own, left: &Expr, right: &Expr) -> Result<Doing, Miss> {
    if !is_own(own, left) {
        return Err(Miss::NoRule);
    }
    Ok(Doing::Adds {
        key: own.key,
        given: given_by(params, right)?,
        away: true,
    })
}

/// What a join of the field with something does.
fn joined(params: &[Param], own: Own, left: &Expr, right: &Expr, by: Join) -> Result<Doing, Miss> {
    Ok(Doing::Joins {
        key: own.key,
        given: given_beside(params, own, left, right)?,
        by,
    })
}

/// What is beside the field, on either side.
fn given_beside(params: &[Param], own: Own, left: &Expr, right: &Expr) -> Result<Given, Miss> {
    if is_own(own, left) {
        return given_by(params, right);
    }
    if is_own(own, right) {
        return given_by(params, left);
    }
    Err(Miss::NoRule)
}

/// Whether an expression reads the field at the key of the assignment.
fn is_own(own: Own, expr: &Expr) -> bool {
    match (expr, own.key) {
        (Expr::Plain(field), None) => *field == own.field,
        (Expr::Keyed { field, key }, Some(place)) => *field == own.field && *key == place,
        _ => false,
    }
}

/// A constant or an argument.
fn given_by(params: &[Param], expr: &Expr) -> Result<Given, Miss> {
    match expr {
        Expr::Const(value) => Ok(Given::Const(*value)),
        Expr::Arg(place) => match params.get(*place as usize) {
            Some(param) => Ok(Given::Arg {
                place: *place,
                sort: param.sort,
            }),
            None => Err(Miss::NoRule),
        },
        _ => Err(Miss::NoRule),
    }
}

/// Whether an operation changes the field.
pub fn acts(doing: Doing) -> bool {
    match doing {
        Doing::Nothing => false,
        _ => true,
    }
}
