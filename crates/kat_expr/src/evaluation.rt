//! The value of an expression.
ghost use Rattle.std.specs.Prelude.{◌≡◌, ◌+◌, ◌^◌, ◌<◌, ◌≤◌, ◌||◌, ◌+ℤ◌, ◌-ℤ◌, All, unsigned_abs, if◌then◌else◌};
ghost use Rattle.kat_expr.specs.Evaluation.{is_less, number_of, truth_of, value_of};
ghost use Rattle.kat_expr.specs.Slots.{is_same};
ghost use Rattle.kat_expr.specs.Limits.{HasConstantsAtMost, IsAtMost, IsSlotAtMost};
ghost use Rattle.kat_expr.specs.Terms.{node_count, term_of};

use crate::expressions::{Expr, Slot};
use crate::slots::{argument, is_same, read_plain, read_table};
use kat_num::Value;

/// The value of the expression, over unbounded whole numbers. It needs at most 400 nodes and numbers of
/// at most 2^100 in absolute value. In an expression that isn't well-sorted, what is no truth value
/// counts as false, what is no number as 0, and what isn't there as false.
pub fn eval(expr: &Expr, state: &[Slot], args: &[Value]) -> Value
    requires few { node_count (term_of expr.now) ≤ 400 }
    requires constants { HasConstantsAtMost (2 ^ 100) (term_of expr.now) }
    requires state { All (IsSlotAtMost (2 ^ 100)) state.now }
    requires args { All (IsAtMost (2 ^ 100)) args.now }
    ensures { result ≡ value_of (term_of expr.now) state.now args.now }
{
    match expr {
        Expr::Const(value) => *value,
        Expr::Plain(field) => read_plain(state, *field),
        Expr::Keyed { field, key } => read_table(state, *field, argument(args, *key)),
        Expr::Arg(place) => argument(args, *place),
        Expr::Not(inner) => Value::Bool(!truth(eval(inner, state, args))),
        Expr::And(left, right) => {
            Value::Bool(truth(eval(left, state, args)) && truth(eval(right, state, args)))
        }
        Expr::Or(left, right) => {
            Value::Bool(truth(eval(left, state, args)) || truth(eval(right, state, args)))
        }
        Expr::Less(left, right) => Value::Bool(is_less(
            eval(left, state, args),
            eval(right, state, args),
        )),
        Expr::AtMost(left, right) => at_most(eval(left, state, args), eval(right, state, args)),
        Expr::Same(left, right) => Value::Bool(is_same(
            eval(left, state, args),
            eval(right, state, args),
        )),
        Expr::Plus(left, right) => plus(eval(left, state, args), eval(right, state, args)),
        Expr::Minus(left, right) => minus(eval(left, state, args), eval(right, state, args)),
        Expr::Max(left, right) => greater(eval(left, state, args), eval(right, state, args)),
        Expr::Min(left, right) => lesser(eval(left, state, args), eval(right, state, args)),
        Expr::If(condition, then, other) => {
            if truth(eval(condition, state, args)) {
                eval(then, state, args)
            } else {
                eval(other, state, args)
            }
        }
    }
}

/// The truth of a value.
fn truth(value: Value) -> bool
    ensures { result ≡ truth_of value }
{
    match value {
        Value::Bool(truth) => truth,
        _ => false,
    }
}

/// The number of a value.
fn number(value: Value) -> i128
    ensures { result ≡ number_of value }
{
    match value {
        Value::Num(number) => number,
        _ => 0,
    }
}

/// Whether the first of two numbers or of two names is less.
fn is_less(left: Value, right: Value) -> bool
    ensures { result ≡ is_less left right }
{
    match (left, right) {
        (Value::Num(x), Value::Num(y)) => x < y,
        (Value::Name(x), Value::Name(y)) => x < y,
        _ => false,
    }
}

/// Whether the first is less, or both are equal.
fn at_most(left: Value, right: Value) -> Value
    ensures { result ≡ Value.Bool (is_less left right || is_same left right) }
{
    Value::Bool(is_less(left, right) || is_same(left, right))
}

/// The sum.
fn plus(left: Value, right: Value) -> Value
    requires { unsigned_abs (number_of left) + unsigned_abs (number_of right) < 2 ^ 127 }
    ensures { result ≡ Value.Num (number_of left +ℤ number_of right) }
{
    Value::Num(number(left) + number(right))
}

/// The difference.
fn minus(left: Value, right: Value) -> Value
    requires { unsigned_abs (number_of left) + unsigned_abs (number_of right) < 2 ^ 127 }
    ensures { result ≡ Value.Num (number_of left -ℤ number_of right) }
{
    Value::Num(number(left) - number(right))
}

/// The greater value.
fn greater(left: Value, right: Value) -> Value
    ensures { result ≡ (if is_less left right then right else left) }
{
    if is_less(left, right) { right } else { left }
}

/// The lesser value.
fn lesser(left: Value, right: Value) -> Value
    ensures { result ≡ (if is_less right left then right else left) }
{
    if is_less(right, left) { right } else { left }
}
