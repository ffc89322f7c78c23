//! What an operation gives: the effect that it has on a component, the values of its leaves, and its weights.
ghost use Rattle.std.specs.Prelude.{◌≡◌, ◌≤◌, All, IfOk, MatchOption, None, Some, map, unsigned_abs};
ghost use Rattle.kat_expr.specs.Evaluation.{number_of};
ghost use Rattle.kat_expr.specs.Limits.{IsAtMost};
ghost use Rattle.kat_expr.specs.Slots.{argument};
ghost use Rattle.kat_design.specs.Denotations.{natural, weight_of};
ghost use Rattle.kat_design.specs.Effects.{effect_of, leaf_value};
ghost use Rattle.kat_replica.specs.Suiting.{GivesLeaves};
ghost use Rattle.kat_shape.specs.Flats.{filled_with};
ghost use Rattle.kat_shape.specs.Values.{shape_of};

use kat_design::Leaf;
use kat_expr::argument;
use kat_num::{NUMBER_LIMIT, Value};
use kat_shape::Cell;
use kat_type::Done;
use std::alloc::{AllocError, Global};

/// The effect of an operation, if it has one.
pub(crate) fn effect_of<'a, E>(effects: &'a [Option<E>], done: &Done) -> Option<&'a E>
    ensures { MatchOption result (effect_of effects.now done.now ≡ None) (λ effect. effect_of effects.now done.now ≡ Some effect.now) }
{
    match effects.get(done.op as usize) {
        Some(Some(effect)) => Some(effect),
        _ => None,
    }
}

/// The value of a leaf for an operation.
pub(crate) fn leaf_value(done: &Done, leaf: Leaf) -> Value
    requires { All (IsAtMost NUMBER_LIMIT) done.now.args }
    ensures { result ≡ leaf_value done.now leaf }
{
    match leaf {
        Leaf::Arg(place) => argument(done.args.as_slice(), place),
        Leaf::Time => Value::Num(i128::from(done.time)),
        Leaf::Replica => Value::Num(i128::from(done.replica)),
        Leaf::Zero => Value::Num(0),
        Leaf::One => Value::Num(1),
        Leaf::Pos(place) => Value::Num(number_at(done, place).max(0)),
        Leaf::Neg(place) => Value::Num((-number_at(done, place)).max(0)),
        Leaf::False => Value::Bool(false),
        Leaf::True => Value::Bool(true),
    }
}

/// The number that an argument is.
fn number_at(done: &Done, place: u32) -> i128
    requires { All (IsAtMost NUMBER_LIMIT) done.now.args }
    ensures number { result ≡ number_of (argument done.now.args place) }
    ensures small { unsigned_abs result ≤ NUMBER_LIMIT }
{
    number(argument(done.args.as_slice(), place))
}

/// The number of a value.
fn number(value: Value) -> i128
    ensures { result ≡ number_of value }
{
    match value {
        Value::Num(number) => number,
        _ => 0,
    }
}

/// The weight of a leaf for an operation: what is below 0 weighs nothing.
pub(crate) fn weight(done: &Done, leaf: Leaf) -> u128
    requires { All (IsAtMost NUMBER_LIMIT) done.now.args }
    ensures { result ≡ weight_of (Some leaf) done.now }
{
    natural(number(leaf_value(done, leaf)))
}

/// A number as a weight.
fn natural(number: i128) -> u128
    ensures { result ≡ natural number }
{
    if number < 0 { 0 } else { number as u128 }
}

/// The values of leaves for an operation.
fn leaf_values(alloc: Global, done: &Done, leaves: &[Leaf]) -> Result<Vec<Value>, AllocError>
    requires { All (IsAtMost NUMBER_LIMIT) done.now.args }
    ensures { IfOk result (λ values. values.items ≡ map (leaf_value done.now) leaves.now) }
{
    let mut values = Vec::with_capacity(alloc, leaves.len())?;
    for leaf in leaves {
        values.push(leaf_value(done, *leaf))?;
    }
    Ok(values)
}

/// The cell of the values of leaves, in the shape of another, which both share.
pub(crate) fn effect_cell(
    alloc: Global,
    like: &Cell,
    done: &Done,
    leaves: &[Leaf],
) -> Result<Cell, AllocError>
    requires gives { GivesLeaves (shape_of like.now) done.now leaves.now }
    requires small { All (IsAtMost NUMBER_LIMIT) done.now.args }
    ensures { IfOk result (λ cell. cell ≡ filled_with (shape_of like.now) (map (leaf_value done.now) leaves.now)) }
{
    let values = leaf_values(alloc, done, leaves)?;
    like.with_leaves(values)
}
