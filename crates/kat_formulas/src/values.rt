//! The values of expressions over arguments alone.

use kat_expr::Expr;
use kat_num::Value;

/// The value of an expression that reads no field, with these arguments; there is none if it reads one, if an argument isn't
/// there, or if a number would be too great.
pub fn value_of(expr: &Expr, args: &[Value]) -> Option<Value> {
    match expr {
        Expr::Const(value) => Some(*value),
        Expr::Arg(place) => match args.get(*place as usize) {
            Some(value) => Some(*value),
            None => None,
        },
        Expr::Plain(_) | Expr::Keyed { .. } => None,
        Expr::Not(inner) => match value_of(inner, args) {
            Some(Value::Bool(truth)) => Some(Value::Bool(!truth)),
            _ => None,
        },
        Expr::And(left, right)
        | Expr::Or(left, right)
        | Expr::Less(left, right)
        | Expr::AtMost(left, right)
        | Expr::Same(left, right)
        | Expr::Plus(left, right)
        | Expr::Minus(left, right)
        | Expr::Max(left, right)
        | Expr::Min(left, right) => match (value_of(left, args), value_of(right, args)) {
            (Some(one), Some(other)) => computed(expr, one, other),
            _ => None,
        },
        Expr::If(condition, then, other) => match value_of(condition, args) {
            Some(Value::Bool(true)) => value_of(then, args),
            Some(Value::Bool(false)) => value_of(other, args),
            _ => None,
        },
    }
}

/// The result of two values, joined as the two sides of an expression are.
pub(crate) fn computed(as_in: &Expr, one: Value, other: Value) -> Option<Value> {
    match (one, other) {
        (Value::Bool(x), Value::Bool(y)) => of_truths(as_in, x, y),
        (Value::Num(x), Value::Num(y)) => of_numbers(as_in, x, y),
        (Value::Name(x), Value::Name(y)) => of_names(as_in, x, y),
        _ => None,
    }
}

/// The same of truth values.
fn of_truths(as_in: &Expr, x: bool, y: bool) -> Option<Value> {
    match as_in {
        Expr::And(..) => Some(Value::Bool(x && y)),
        Expr::Or(..) => Some(Value::Bool(x || y)),
        Expr::Same(..) => Some(Value::Bool(x == y)),
        _ => None,
    }
}

/// The same of numbers.
fn of_numbers(as_in: &Expr, x: i128, y: i128) -> Option<Value> {
    match as_in {
        Expr::Less(..) => Some(Value::Bool(x < y)),
        Expr::AtMost(..) => Some(Value::Bool(x <= y)),
        Expr::Same(..) => Some(Value::Bool(x == y)),
        Expr::Max(..) => Some(Value::Num(if x < y { y } else { x })),
        Expr::Min(..) => Some(Value::Num(if x < y { x } else { y })),
        Expr::Plus(..) => number(x.checked_add(y)),
        Expr::Minus(..) => number(x.checked_sub(y)),
        _ => None,
    }
}

/// A number, if there is one.
fn number(found: Option<i128>) -> Option<Value> {
    match found {
        Some(number) => Some(Value::Num(number)),
        None => None,
    }
}

/// The same of names.
fn of_names(as_in: &Expr, x: u128, y: u128) -> Option<Value> {
    match as_in {
        Expr::Less(..) => Some(Value::Bool(x < y)),
        Expr::AtMost(..) => Some(Value::Bool(x <= y)),
        Expr::Same(..) => Some(Value::Bool(x == y)),
        Expr::Max(..) => Some(Value::Name(if x < y { y } else { x })),
        Expr::Min(..) => Some(Value::Name(if x < y { x } else { y })),
        _ => None,
    }
}
