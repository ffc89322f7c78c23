//! Greatest values that forget the start.

use kat_design::Leaf;
use kat_expr::Expr;
use kat_formulas::{Atom, equal, linear_of, sum_of};
use kat_keeping::{
    Change, Holds, Register, Slot, Store, Subject, add_leaf, add_register, assigns, is_own,
    leaf_of, touches_of,
};
use kat_num::{Sort, Value};
use kat_reading::{Miss, push};
use kat_type::{Assign, Field, Operation, SeqType};
use std::alloc::Global;

/// What an operation brings, by an argument and a constant; and the field that says whether one was done.
#[derive(Clone, Copy)]
struct Brought {
    flag: u32,
    leaf: Leaf,
    by: i128,
}

/// A field of which operations keep the greatest of arguments, the start not counting once one was done: `if any then max(high, x)
/// else x`, with a field that they make true. A truth value precedes the greatest argument.
pub(crate) fn firsts(
    alloc: Global,
    ty: &SeqType,
    subject: &Subject,
    store: &mut Store,
) -> Result<Expr, Miss> {
    let mut leaves = Vec::new(alloc);
    let mut marks = Vec::new(alloc);
    let mut by = None;
    for (op, change) in ty.ops.as_slice().iter().zip(subject.changes.iter()) {
        push(&mut marks, Leaf::True)?;
        match brought_by(alloc, op, subject, change)? {
            None => push(&mut leaves, Leaf::False)?,
            Some(brought) => {
                if !is_flag(ty, subject, brought.flag) || by.unwrap_or(brought.by) != brought.by {
                    return Err(Miss::NoRule);
                }
                by = Some(brought.by);
                push(&mut leaves, brought.leaf)?;
            }
        }
    }
    let Some(by) = by else {
        return Err(Miss::NoRule);
    };
    kept(alloc, subject, store, marks, leaves, by)
}

/// What an operation brings to the field.
fn brought_by(
    alloc: Global,
    op: &Operation,
    subject: &Subject,
    change: &Change,
) -> Result<Option<Brought>, Miss> {
    let (key, right) = match change {
        Change::Nothing => return Ok(None),
        Change::Clears => return Err(Miss::NoRule),
        Change::Gives { key, right } => (*key, right),
    };
    let Expr::If(condition, then, other) = right else {
        return Err(Miss::NoRule);
    };
    let Some((flag, is_denied)) = flag_in(key, condition) else {
        return Err(Miss::NoRule);
    };
    let (again, first) = if is_denied {
        (other, then)
    } else {
        (then, other)
    };
    if !is_greater_of(subject, key, again, first) {
        return Err(Miss::NoRule);
    }
    let linear = linear_of(alloc, first)?;
    let [term] = linear.terms.as_slice() else {
        return Err(Miss::NoRule);
    };
    match (term.atom, op.params.as_slice().get(arg_of(term.atom))) {
        (Atom::Arg(place), Some(param)) if term.factor == 1 && param.sort != Sort::Bool => {
            Ok(Some(Brought {
                flag,
                leaf: Leaf::Arg(place),
                by: linear.constant,
            }))
        }
        _ => Err(Miss::NoRule),
    }
}

/// The place of an argument.
fn arg_of(atom: Atom) -> usize {
    match atom {
        Atom::Arg(place) => place as usize,
        Atom::Read { .. } => usize::MAX,
    }
}

/// The field that a condition reads, at the key of the assignment, and whether that is denied.
fn flag_in(key: Option<u32>, condition: &Expr) -> Option<(u32, bool)> {
    match condition {
        Expr::Not(inner) => match flag_of(key, inner) {
            Some(field) => Some((field, true)),
            None => None,
        },
        _ => match flag_of(key, condition) {
            Some(field) => Some((field, false)),
            None => None,
        },
    }
}

/// The field that an expression is, at the key of the assignment.
fn flag_of(key: Option<u32>, condition: &Expr) -> Option<u32> {
    match (condition, key) {
        (Expr::Plain(field), None) => Some(*field),
        (Expr::Keyed { field, key }, Some(place)) if *key == place => Some(*field),
        _ => None,
    }
}

/// Whether an expression is the greater of the field and another expression.
fn is_greater_of(subject: &Subject, key: Option<u32>, expr: &Expr, other: &Expr) -> bool {
    match expr {
        Expr::Max(left, right) => {
            (is_own(subject, key, left) && equal(right, other))
                || (is_own(subject, key, right) && equal(left, other))
        }
        _ => false,
    }
}

/// Whether a field is false at first, and made true by the operations that change the subject and by no others.
fn is_flag(ty: &SeqType, subject: &Subject, flag: u32) -> bool {
    let starts = match ty.fields.as_slice().get(flag as usize) {
        Some(Field::Plain { start, .. }) => *start == Value::Bool(false),
        Some(Field::Keyed { start, .. }) => *start == Value::Bool(false),
        None => false,
    };
    starts
        && ty.ops.as_slice().iter().all(|op| assigns(op, flag) == assigns(op, subject.field)
            && raises(op, flag))
}

/// Whether an operation leaves a field as it is, or makes it true.
fn raises(op: &Operation, flag: u32) -> bool {
    op.assigns.as_slice().iter().all(|assign| match assign {
        Assign::Plain { field, right } => *field != flag || is_true(right),
        Assign::Keyed { field, right, .. } => *field != flag || is_true(right),
        Assign::Clear { field } => *field != flag,
    })
}

/// Whether an expression is always true.
fn is_true(expr: &Expr) -> bool {
    match expr {
        Expr::Const(Value::Bool(truth)) => *truth,
        _ => false,
    }
}

/// Keeps a truth value and under it the greatest argument.
fn kept(
    alloc: Global,
    subject: &Subject,
    store: &mut Store,
    marks: Vec<Leaf>,
    leaves: Vec<Leaf>,
    by: i128,
) -> Result<Expr, Miss> {
    let (holds, start) = begun(subject.start, by)?;
    let mut slots = Vec::new(alloc);
    let written = Slot {
        holds: Holds::Truth,
        start: Value::Bool(false),
        leaves: marks,
    };
    let greatest = Slot {
        holds,
        start,
        leaves,
    };
    push(&mut slots, written)?;
    push(&mut slots, greatest)?;
    let key = subject.key;
    let register = Register {
        key,
        ranks: 1,
        touches: touches_of(alloc, subject)?,
        slots,
    };
    let piece = add_register(store, register)?;
    let read = add_leaf(store, leaf_of(piece, 1, key.is_some(), holds))?;
    if by == 0 {
        return Ok(read);
    }
    Ok(sum_of(alloc, read, Expr::Const(Value::Num(by)))?)
}

/// What the greatest argument is at first, less the constant that is added to it.
fn begun(start: Value, by: i128) -> Result<(Holds, Value), Miss> {
    match start {
        Value::Num(number) => match number.checked_sub(by) {
            Some(own) => Ok((Holds::Number, Value::Num(own))),
            None => Err(Miss::NoRule),
        },
        Value::Name(_) if by == 0 => Ok((Holds::Name, start)),
        _ => Err(Miss::NoRule),
    }
}
