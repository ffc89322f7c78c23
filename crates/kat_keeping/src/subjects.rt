//! A field, and the right sides that change it.

use kat_expr::Expr;
use kat_formulas::{copied, replaced};
use kat_num::{Sort, Value};
use kat_reading::{Miss, number_of, push};
use kat_type::{Assign, Field, Operation, Rank, SeqType};
use std::alloc::{AllocError, Global};

/// What an operation does to a field.
#[derive(Drop)]
pub enum Change {
    Nothing,
    /// The table gets its start at every key.
    Clears,
    /// The field gets a value; a table at the key that is the argument with that number.
    Gives { key: Option<u32>, right: Expr },
}

/// A field, and what each operation does to it, in the order of the operations.
#[derive(Drop)]
pub struct Subject {
    pub field: u32,
    /// The sort of a table's keys.
    pub key: Option<Sort>,
    pub sort: Sort,
    pub start: Value,
    pub changes: Vec<Change>,
}

/// The field with a number. In right sides the fields that no operation can have changed yet, since each that does has a greater
/// rank, are their starts.
pub fn subject_of(alloc: Global, ty: &SeqType, number: u32) -> Result<Subject, Miss> {
    let Some(field) = ty.fields.as_slice().get(number as usize) else {
        return Err(Miss::NoRule);
    };
    let mut changes = Vec::new(alloc);
    for op in ty.ops.as_slice() {
        push(&mut changes, change_of(alloc, ty, op, number)?)?;
    }
    Ok(Subject {
        field: number,
        key: key_of(field),
        sort: sort_of(field),
        start: start_of(field),
        changes,
    })
}

/// The sort of a table's keys.
pub(crate) fn key_of(field: &Field) -> Option<Sort> {
    match field {
        Field::Plain { .. } => None,
        Field::Keyed { key, .. } => Some(*key),
    }
}

/// The sort of a field.
fn sort_of(field: &Field) -> Sort {
    match field {
        Field::Plain { sort, .. } => *sort,
        Field::Keyed { sort, .. } => *sort,
    }
}

/// The start of a field.
pub(crate) fn start_of(field: &Field) -> Value {
    match field {
        Field::Plain { start, .. } => *start,
        Field::Keyed { start, .. } => *start,
    }
}

/// What an operation does to a field.
fn change_of(
    alloc: Global,
    ty: &SeqType,
    op: &Operation,
    number: u32,
) -> Result<Change, AllocError> {
    for assign in op.assigns.as_slice() {
        match assign {
            Assign::Plain { field, right } if *field == number => {
                let right = live(alloc, ty, op, right)?;
                return Ok(Change::Gives { key: None, right });
            }
            Assign::Keyed { field, key, right } if *field == number => {
                let right = live(alloc, ty, op, right)?;
                return Ok(Change::Gives {
                    key: Some(*key),
                    right,
                });
            }
            Assign::Clear { field } if *field == number => return Ok(Change::Clears),
            _ => {}
        }
    }
    Ok(Change::Nothing)
}

/// A right side of an operation without the fields that are at their starts then.
fn live(alloc: Global, ty: &SeqType, op: &Operation, right: &Expr) -> Result<Expr, AllocError> {
    let mut readings = Vec::new(alloc);
    for (number, field) in ty.fields.as_slice().iter().enumerate() {
        let is_start = is_unchanged(ty, op, number_of(number));
        push(
            &mut readings,
            if is_start {
                Some(Expr::Const(start_of(field)))
            } else {
                None
            },
        )?;
    }
    replaced(alloc, right, &readings, &[])
}

/// Whether all operations that change a field have ranks above that of an operation.
fn is_unchanged(ty: &SeqType, op: &Operation, field: u32) -> bool {
    ty.ops
        .as_slice()
        .iter()
        .all(|other| !assigns(other, field) || is_before(op, other))
}

/// Whether an operation assigns or clears a field.
pub fn assigns(op: &Operation, number: u32) -> bool {
    op.assigns
        .as_slice()
        .iter()
        .any(|assign| assigned_field(assign) == number)
}

/// The field that is assigned or cleared.
fn assigned_field(assign: &Assign) -> u32 {
    match assign {
        Assign::Plain { field, .. } | Assign::Keyed { field, .. } | Assign::Clear { field } => {
            *field
        }
    }
}

/// Whether the digits at the head of the ranks tell that one operation always comes before another.
pub fn is_before(one: &Operation, other: &Operation) -> bool {
    for (mine, theirs) in one
        .ranks
        .as_slice()
        .iter()
        .zip(other.ranks.as_slice().iter())
    {
        match (mine, theirs) {
            (Rank::Digit(x), Rank::Digit(y)) => {
                if *x != *y {
                    return *x < *y;
                }
            }
            _ => return false,
        }
    }
    false
}

/// Whether an operation changes the field.
pub fn is_change(change: &Change) -> bool {
    match change {
        Change::Nothing => false,
        Change::Clears | Change::Gives { .. } => true,
    }
}

/// Whether an expression reads the field of a subject, at the key of the assignment.
pub fn is_own(subject: &Subject, key: Option<u32>, expr: &Expr) -> bool {
    match (expr, key) {
        (Expr::Plain(field), None) => *field == subject.field,
        (Expr::Keyed { field, key }, Some(place)) => *field == subject.field && *key == place,
        _ => false,
    }
}

/// The same change, with memory of its own.
pub fn copied_change(alloc: Global, change: &Change) -> Result<Change, AllocError> {
    match change {
        Change::Nothing => Ok(Change::Nothing),
        Change::Clears => Ok(Change::Clears),
        Change::Gives { key, right } => Ok(Change::Gives {
            key: *key,
            right: copied(alloc, right)?,
        }),
    }
}
