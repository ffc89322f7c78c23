//! What a design answers in a state.
ghost use Rattle.std.specs.Prelude.{◌≡◌, ◌+◌, ◌^◌, ◌<◌, ◌≤◌, ◌+ℤ◌, ◌-ℤ◌, All, pos, slice_get, unsigned_abs};
ghost use Rattle.kat_design.specs.Answers.{answer_of, ask_value, leaf_of, read_at, read_part, read_plain, total_value};
ghost use Rattle.kat_design.specs.Designs.{ask_form, design_form};
ghost use Rattle.kat_design.specs.Sizes.{ask_nodes};
ghost use Rattle.kat_design.specs.Small.{HasConstantsAtMost, IsSmallDesign, IsSmallPart, IsSmallTally};
ghost use Rattle.kat_expr.specs.Evaluation.{is_less, number_of, truth_of};
ghost use Rattle.kat_expr.specs.Limits.{IsAtMost};

use crate::designs::{Ask, Design};
use crate::states::{Part, State};
use kat_expr::argument;
use kat_lattice::Tally;
use kat_num::Value;
use kat_shape::Cell;

/// What stands for a value that isn't there, which no design that is accepted reads.
const ABSENT: Value = Value::Bool(false);

/// The answer of a query, by its number, in a state with these arguments.
///
/// A leaf is read from its component, at the key if it has keys: a set says whether it has the key, and a tally gives
/// the sum over all replicas. Numbers of the state and arguments are at most 2^100 in absolute value, and each tally has
/// at most 32 replicas, so no sum is too great: `is_small` tells.
pub fn design_answer(design: &Design, state: &State, query: u32, args: &[Value]) -> Value
    requires small { IsSmallDesign (design_form design.now) }
    requires state { All IsSmallPart state.now.parts }
    requires args { All (IsAtMost (2 ^ 100)) args.now }
    ensures { result ≡ answer_of (design_form design.now) state.now.parts query args.now }
{
    match design.asks.as_slice().get(query as usize) {
        Some(ask) => ask_value(ask, state.parts.as_slice(), args),
        None => ABSENT,
    }
}

/// The value of an ask.
fn ask_value(ask: &Ask, parts: &[Part], args: &[Value]) -> Value
    requires few { ask_nodes (ask_form ask.now) ≤ 64 }
    requires constants { HasConstantsAtMost (2 ^ 64) (ask_form ask.now) }
    requires state { All IsSmallPart parts.now }
    requires args { All (IsAtMost (2 ^ 100)) args.now }
    ensures { result ≡ ask_value (ask_form ask.now) parts.now args.now }
{
    match ask {
        Ask::Leaf {
            component,
            leaf,
            key,
        } => read_part(parts, *component, *leaf, *key, args),
        Ask::Arg(place) => argument(args, *place),
        Ask::Const(value) => *value,
        Ask::Not(inner) => Value::Bool(!truth(ask_value(inner, parts, args))),
        Ask::And(left, right) => {
            Value::Bool(truth(ask_value(left, parts, args)) && truth(ask_value(right, parts, args)))
        }
        Ask::Or(left, right) => {
            Value::Bool(truth(ask_value(left, parts, args)) || truth(ask_value(right, parts, args)))
        }
        Ask::Less(left, right) => Value::Bool(is_less(
            ask_value(left, parts, args),
            ask_value(right, parts, args),
        )),
        Ask::Plus(left, right) => plus(ask_value(left, parts, args), ask_value(right, parts, args)),
        Ask::Minus(left, right) => {
            minus(ask_value(left, parts, args), ask_value(right, parts, args))
        }
    }
}

/// What is read of a part, at the key that an argument gives, if one is.
fn read_part(parts: &[Part], component: u32, leaf: u32, key: Option<u32>, args: &[Value]) -> Value
    requires { All IsSmallPart parts.now }
    ensures { result ≡ read_part (slice_get parts.now component) leaf key args.now }
{
    match parts.get(component as usize) {
        None => ABSENT,
        Some(part) => match key {
            None => read_plain(part, leaf),
            Some(key) => read_at(part, leaf, argument(args, key)),
        },
    }
}

/// What is read of a part without a key.
fn read_plain(part: &Part, leaf: u32) -> Value
    requires { IsSmallPart part.now }
    ensures { result ≡ read_plain part.now leaf }
{
    match part {
        Part::Cell(cell) => leaf_of(cell, leaf),
        Part::Tally(tally) => total_of(tally),
        Part::Table(_) | Part::Set(_) | Part::Tallies(_) => ABSENT,
    }
}

/// What is read of a part at a key.
fn read_at(part: &Part, leaf: u32, key: Value) -> Value
    requires { IsSmallPart part.now }
    ensures { result ≡ read_at part.now leaf key }
{
    match part {
        Part::Table(table) => leaf_of(table.get(&key), leaf),
        Part::Set(keys) => Value::Bool(keys.contains(&key)),
        Part::Tallies(table) => total_of(table.get(&key)),
        Part::Cell(_) | Part::Tally(_) => ABSENT,
    }
}

/// A leaf of a cell, counted from the left.
fn leaf_of(cell: &Cell, leaf: u32) -> Value
    ensures { result ≡ leaf_of cell.now leaf }
{
    match cell.leaves().get(leaf as usize) {
        Some(value) => *value,
        None => ABSENT,
    }
}

/// The sum over all replicas.
fn total_of(tally: &Tally) -> Value
    requires { IsSmallTally tally.now }
    ensures { result ≡ total_value tally.now }
{
    number_value(tally.total())
}

/// A sum as a number.
fn number_value(total: u128) -> Value
    requires { total < 2 ^ 127 }
    ensures { result ≡ Value.Num (pos total) }
{
    Value::Num(total as i128)
}

/// The truth of a value.
fn truth(value: Value) -> bool
    ensures { result ≡ truth_of value }
{
    match value {
        Value::Bool(truth) => truth,
        _ => false,
    }
}

/// The number of a value.
fn number(value: Value) -> i128
    ensures { result ≡ number_of value }
{
    match value {
        Value::Num(number) => number,
        _ => 0,
    }
}

/// Whether the first of two numbers or of two names is less.
fn is_less(left: Value, right: Value) -> bool
    ensures { result ≡ is_less left right }
{
    match (left, right) {
        (Value::Num(x), Value::Num(y)) => x < y,
        (Value::Name(x), Value::Name(y)) => x < y,
        _ => false,
    }
}

/// The sum.
fn plus(left: Value, right: Value) -> Value
    requires { unsigned_abs (number_of left) + unsigned_abs (number_of right) < 2 ^ 127 }
    ensures { result ≡ Value.Num (number_of left +ℤ number_of right) }
{
    Value::Num(number(left) + number(right))
}

/// The difference.
fn minus(left: Value, right: Value) -> Value
    requires { unsigned_abs (number_of left) + unsigned_abs (number_of right) < 2 ^ 127 }
    ensures { result ≡ Value.Num (number_of left -ℤ number_of right) }
{
    Value::Num(number(left) - number(right))
}
