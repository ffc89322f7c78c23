//! What is in the way of rules: an `if`, a constant or another field in what an operation sets a field to, or in a query.

use kat_expr::Expr;
use kat_formulas::{reads_argument, reads_field};
use kat_num::{Sort, Value};
use kat_type::{Assign, Operation, Query};

/// What may be in the way of a rule, and what it is called in a report.
#[derive(Clone, Copy, PartialEq, Eq)]
pub(crate) enum Obstacle {
    /// A greater or lesser number is taken of what was added and a bound.
    Bound,
    /// An `if`.
    Choice,
    /// An `if` that gives constants alone.
    Constants,
    /// Another field is read.
    Other(u32),
    /// Another entry of the table is read.
    Entry,
    /// A constant that no effect has.
    Constant(Value),
    /// The greater or lesser of two numbers.
    Extreme,
    /// The least of numbers, which begins above 0.
    Least,
    /// An `if` by arguments alone.
    Case,
    /// Two arguments are compared in what is joined.
    Apart,
    /// A condition on an argument, in what is joined, that the greatest argument doesn't tell.
    Condition,
}

/// A field as an operation reads it to change it: a table at the key that is the argument with a number.
#[derive(Clone, Copy, PartialEq, Eq)]
pub(crate) struct Own {
    field: u32,
    key: Option<u32>,
}

/// A field as an operation changes it, and what it is set to.
fn change_of(op: &Operation, number: u32) -> Option<(Own, &Expr)> {
    for assign in op.assigns.as_slice() {
        match assign {
            Assign::Plain { field, right } if *field == number => {
                let own = Own {
                    field: number,
                    key: None,
                };
                return Some((own, right));
            }
            Assign::Keyed { field, key, right } if *field == number => {
                let own = Own {
                    field: number,
                    key: Some(*key),
                };
                return Some((own, right));
            }
            _ => {}
        }
    }
    None
}

/// Whether an operation clears a field.
pub(crate) fn is_cleared(op: &Operation, field: u32) -> bool {
    op.assigns.as_slice().iter().any(|assign| match assign {
        Assign::Clear { field: own } => *own == field,
        _ => false,
    })
}

/// The first obstacle in what an operation sets a field with a start to.
pub(crate) fn obstacle_in(op: &Operation, field: u32, start: Value) -> Option<Obstacle> {
    let Some((own, right)) = change_of(op, field) else {
        return None;
    };
    if let Some(obstacle) = extreme_in(right, own, start) {
        return Some(obstacle);
    }
    if let Some(obstacle) = choice_in(right) {
        return Some(obstacle);
    }
    if is_joined(right, own) {
        if let Some(obstacle) = condition_in(right, false) {
            return Some(obstacle);
        }
    }
    if let Some(obstacle) = other_in(right, own) {
        return Some(obstacle);
    }
    if reads_any(right) && !is_moved(right, own) {
        return None;
    }
    constant_in(right).map(|value| Obstacle::Constant(value))
}

/// What is in the way of the greater or lesser of two numbers that a field is set to.
fn extreme_in(right: &Expr, own: Own, start: Value) -> Option<Obstacle> {
    match right {
        Expr::Max(left, other) | Expr::Min(left, other)
            if is_moved(left, own) || is_moved(other, own) => Some(Obstacle::Bound),
        Expr::Min(left, other) if is_own(left, own) || is_own(other, own) => match start {
            Value::Num(number) if number > 0 && reads_argument(right) => Some(Obstacle::Least),
            _ => None,
        },
        Expr::Max(left, other) if is_own(left, own) || is_own(other, own) => {
            if is_simple(left) && is_simple(other) {
                return None;
            }
            Some(Obstacle::Extreme)
        }
        Expr::Max(..) | Expr::Min(..) => Some(Obstacle::Extreme),
        _ => None,
    }
}

/// An `if` in an expression: by arguments alone, or by what else it reads.
fn choice_in(expr: &Expr) -> Option<Obstacle> {
    match expr {
        Expr::If(condition, _, _) if reads_argument(condition) && !reads_any(condition) => {
            Some(Obstacle::Case)
        }
        _ => choice_by(expr),
    }
}

/// An `if` in an expression, by what it gives.
fn choice_by(expr: &Expr) -> Option<Obstacle> {
    if !has_choice(expr) {
        return None;
    }
    Some(if is_of_constants(expr) {
        Obstacle::Constants
    } else {
        Obstacle::Choice
    })
}

/// Whether an expression is a constant in each case.
fn is_of_constants(expr: &Expr) -> bool {
    match expr {
        Expr::Const(_) => true,
        Expr::If(_, then, other) => is_of_constants(then) && is_of_constants(other),
        _ => false,
    }
}

/// Whether a field is joined with something by `or` or `and`.
fn is_joined(expr: &Expr, own: Own) -> bool {
    match expr {
        Expr::Or(left, right) | Expr::And(left, right) => {
            is_own(left, own) || is_own(right, own) || is_joined(left, own) || is_joined(right, own)
        }
        _ => false,
    }
}

/// A condition on arguments that the greatest one doesn't tell, in what is joined: by `and` if `all`, and otherwise by `or`.
fn condition_in(expr: &Expr, all: bool) -> Option<Obstacle> {
    match expr {
        Expr::Less(left, right) | Expr::AtMost(left, right)
            if reads_argument(left) && reads_argument(right) => Some(Obstacle::Apart),
        Expr::Less(low, high) | Expr::AtMost(low, high)
            if (all && reads_argument(high) && is_above_0(low))
                || (!all && reads_argument(low) && is_above_0(high)) => Some(Obstacle::Least),
        Expr::Same(left, right) if reads_argument(left) || reads_argument(right) => {
            Some(Obstacle::Condition)
        }
        Expr::Or(left, right) => first_of(condition_in(left, false), condition_in(right, false)),
        Expr::And(left, right) => {
            if reads_argument(left) && reads_argument(right) {
                return Some(Obstacle::Condition);
            }
            first_of(condition_in(left, true), condition_in(right, true))
        }
        _ => None,
    }
}

/// Whether an expression is a field, an argument or a constant.
fn is_simple(expr: &Expr) -> bool {
    match expr {
        Expr::Arg(_) | Expr::Plain(_) | Expr::Keyed { .. } | Expr::Const(_) => true,
        _ => false,
    }
}

/// Whether an expression is a constant above 0.
fn is_above_0(expr: &Expr) -> bool {
    match expr {
        Expr::Const(Value::Num(number)) => *number > 0,
        _ => false,
    }
}

/// The first obstacle in what a query answers, unless it is a truth value: what is compared may be a case for each choice.
pub(crate) fn obstacle_asked(query: &Query) -> Option<Obstacle> {
    if query.sort == Sort::Bool {
        return None;
    }
    if let Some(obstacle) = choice_by(&query.right) {
        return Some(obstacle);
    }
    if has_extreme(&query.right) {
        return Some(Obstacle::Extreme);
    }
    None
}

/// Whether an operation adds to a field, or takes from it.
pub(crate) fn adds(op: &Operation, field: u32) -> bool {
    match change_of(op, field) {
        Some((own, right)) => is_moved(right, own),
        None => false,
    }
}

/// Whether an operation keeps the greater of a field and something, or makes it true.
pub(crate) fn joins(op: &Operation, field: u32) -> bool {
    match change_of(op, field) {
        Some((own, Expr::Max(left, right) | Expr::Or(left, right))) => {
            is_own(left, own) || is_own(right, own)
        }
        _ => false,
    }
}

/// Whether an operation sets a field anew, to a constant or an argument.
pub(crate) fn sets(op: &Operation, field: u32) -> bool {
    match change_of(op, field) {
        Some((_, Expr::Const(_) | Expr::Arg(_))) => true,
        _ => false,
    }
}

/// Whether an expression is the field and something that is added to it, or taken from it.
fn is_moved(expr: &Expr, own: Own) -> bool {
    !is_own(expr, own) && is_sum(expr, own)
}

/// Whether an expression is the field, or that and something that is added to it, or taken from it.
fn is_sum(expr: &Expr, own: Own) -> bool {
    match expr {
        Expr::Plus(left, right) => is_sum(left, own) || is_sum(right, own),
        Expr::Minus(left, _) => is_sum(left, own),
        _ => is_own(expr, own),
    }
}

/// Whether an expression is the field itself, at the key at which it is changed.
fn is_own(expr: &Expr, own: Own) -> bool {
    match (expr, own.key) {
        (Expr::Plain(field), None) => *field == own.field,
        (Expr::Keyed { field, key }, Some(place)) => *field == own.field && *key == place,
        _ => false,
    }
}

/// Whether an expression reads a field.
fn reads_any(expr: &Expr) -> bool {
    reads_field(expr, 0, u32::MAX)
}

/// Whether an expression has an `if`.
fn has_choice(expr: &Expr) -> bool {
    match expr {
        Expr::Const(_) | Expr::Arg(_) | Expr::Plain(_) | Expr::Keyed { .. } => false,
        Expr::Not(inner) => has_choice(inner),
        Expr::And(left, right)
        | Expr::Or(left, right)
        | Expr::Less(left, right)
        | Expr::AtMost(left, right)
        | Expr::Same(left, right)
        | Expr::Plus(left, right)
        | Expr::Minus(left, right)
        | Expr::Max(left, right)
        | Expr::Min(left, right) => has_choice(left) || has_choice(right),
        Expr::If(..) => true,
    }
}

/// Whether an expression has the greater or lesser of two numbers.
fn has_extreme(expr: &Expr) -> bool {
    match expr {
        Expr::Const(_) | Expr::Arg(_) | Expr::Plain(_) | Expr::Keyed { .. } => false,
        Expr::Not(inner) => has_extreme(inner),
        Expr::And(left, right)
        | Expr::Or(left, right)
        | Expr::Less(left, right)
        | Expr::AtMost(left, right)
        | Expr::Same(left, right)
        | Expr::Plus(left, right)
        | Expr::Minus(left, right) => has_extreme(left) || has_extreme(right),
        Expr::Max(..) | Expr::Min(..) => true,
        Expr::If(condition, then, other) => {
            has_extreme(condition) || has_extreme(then) || has_extreme(other)
        }
    }
}

/// The first read of another field, or of another entry of the table.
fn other_in(expr: &Expr, own: Own) -> Option<Obstacle> {
    match expr {
        Expr::Const(_) | Expr::Arg(_) => None,
        Expr::Plain(number) | Expr::Keyed { field: number, .. } => {
            if is_own(expr, own) {
                return None;
            }
            Some(if *number == own.field {
                Obstacle::Entry
            } else {
                Obstacle::Other(*number)
            })
        }
        Expr::Not(inner) => other_in(inner, own),
        Expr::And(left, right)
        | Expr::Or(left, right)
        | Expr::Less(left, right)
        | Expr::AtMost(left, right)
        | Expr::Same(left, right)
        | Expr::Plus(left, right)
        | Expr::Minus(left, right)
        | Expr::Max(left, right)
        | Expr::Min(left, right) => first_of(other_in(left, own), other_in(right, own)),
        Expr::If(condition, then, other) => first_of(
            other_in(condition, own),
            first_of(other_in(then, own), other_in(other, own)),
        ),
    }
}

/// The first constant of an expression that no effect has: a name, or a number other than 0 and 1.
fn constant_in(expr: &Expr) -> Option<Value> {
    match expr {
        Expr::Const(Value::Num(number)) if *number != 0 && *number != 1 => {
            Some(Value::Num(*number))
        }
        Expr::Const(Value::Name(code)) => Some(Value::Name(*code)),
        Expr::Const(_) | Expr::Arg(_) | Expr::Plain(_) | Expr::Keyed { .. } => None,
        Expr::Not(inner) => constant_in(inner),
        Expr::And(left, right)
        | Expr::Or(left, right)
        | Expr::Less(left, right)
        | Expr::AtMost(left, right)
        | Expr::Same(left, right)
        | Expr::Plus(left, right)
        | Expr::Minus(left, right)
        | Expr::Max(left, right)
        | Expr::Min(left, right) => first_of(constant_in(left), constant_in(right)),
        Expr::If(condition, then, other) => first_of(
            constant_in(condition),
            first_of(constant_in(then), constant_in(other)),
        ),
    }
}

/// The first that is there.
fn first_of<T: Drop>(one: Option<T>, other: Option<T>) -> Option<T> {
    match one {
        Some(found) => Some(found),
        None => other,
    }
}
