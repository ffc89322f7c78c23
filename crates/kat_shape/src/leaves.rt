//! A shape's leaves as one flat list: how two lists of one shape compare and join.

ghost use Rattle.std.specs.Prelude.{◌≡◌, ◌↔◌, ◌<◌, ◌≤◌, ◌^◌, IsTrue, length, take, drop};
ghost use Rattle.kat_shape.specs.Forms.{form_of, width_of};
ghost use Rattle.kat_shape.specs.Values.{cells_compared, joined};
ghost use Rattle.kat_shape.specs.Leaves.{leaves_compared, leaves_joined};
ghost use Rattle.kat_shape.specs.Flats.{filled_with, Fits, FitBoth};

use super::shapes::Shape;
use kat_num::Value;
use std::cmp::Ordering;

/// The number of a shape's leaves.
fn width(shape: &Shape) -> usize
    requires { width_of (form_of shape.now) < 2 ^ 64 }
    ensures { result ≡ width_of (form_of shape.now) }
{
    match shape {
        Shape::Max | Shape::Name | Shape::Or => 1,
        Shape::Lex(first, second) | Shape::Pair(first, second) => width(first) + width(second),
    }
}

/// How many of the values are the first shape's, if they fit the two.
#[tactic(auto, using(crate::proofs::Filling::front_in))]
fn front_count(first: &Shape, second: &Shape, values: &[Value]) -> usize
    requires { FitBoth (form_of first.now) (form_of second.now) values.now }
    ensures count { result ≡ width_of (form_of first.now) }
    ensures within { result ≤ length values.now }
{
    let _all = values.len();
    width(first)
}

/// The values of the first shape and those of the second.
#[tactic(auto, using(crate::proofs::Filling::fits_first, crate::proofs::Filling::fits_second))]
fn cut<'a>(first: &Shape, second: &Shape, values: &'a [Value]) -> (&'a [Value], &'a [Value])
    requires { FitBoth (form_of first.now) (form_of second.now) values.now }
    ensures front { result.0.now ≡ take (width_of (form_of first.now)) values.now }
    ensures back { result.1.now ≡ drop (width_of (form_of first.now)) values.now }
    ensures first { Fits (form_of first.now) result.0.now }
    ensures second { Fits (form_of second.now) result.1.now }
{
    let count = front_count(first, second, values);
    values.split_at(count)
}

/// Two leaves of one kind, as one.
fn join_leaf(mine: Value, theirs: Value) -> Value
    ensures { result ≡ leaves_joined mine theirs }
{
    match (mine, theirs) {
        (Value::Num(x), Value::Num(y)) => Value::Num(x.max(y)),
        (Value::Name(x), Value::Name(y)) => Value::Name(x.max(y)),
        (Value::Bool(x), Value::Bool(y)) => Value::Bool(x || y),
        _ => mine,
    }
}

/// How two leaves of one kind compare.
fn compare_leaf(mine: Value, theirs: Value) -> Ordering
    ensures { result ≡ leaves_compared mine theirs }
{
    match (mine, theirs) {
        (Value::Num(x), Value::Num(y)) => x.cmp(&y),
        (Value::Name(x), Value::Name(y)) => x.cmp(&y),
        (Value::Bool(x), Value::Bool(y)) => x.cmp(&y),
        _ => Ordering::Less,
    }
}

/// How two values of a chain compare.
fn compare(shape: &Shape, mine: &[Value], theirs: &[Value]) -> Ordering
    requires mine { Fits (form_of shape.now) mine.now }
    requires theirs { Fits (form_of shape.now) theirs.now }
    ensures { result ≡ cells_compared (filled_with (form_of shape.now) mine.now) (filled_with (form_of shape.now) theirs.now) }
{
    match shape {
        Shape::Max | Shape::Name | Shape::Or => compare_leaf(mine[0], theirs[0]),
        Shape::Lex(first, second) => {
            let (a, b) = cut(first, second, mine);
            let (c, d) = cut(first, second, theirs);
            match compare(first, a, c) {
                Ordering::Equal => compare(second, b, d),
                other => other,
            }
        }
        Shape::Pair(_, _) => Ordering::Less,
    }
}

/// Whether joining the first values into the second changes nothing.
pub(crate) fn is_below(shape: &Shape, mine: &[Value], theirs: &[Value]) -> bool
    requires mine { Fits (form_of shape.now) mine.now }
    requires theirs { Fits (form_of shape.now) theirs.now }
    ensures { IsTrue result ↔ (joined (filled_with (form_of shape.now) mine.now) (filled_with (form_of shape.now) theirs.now)
        ≡ filled_with (form_of shape.now) theirs.now) }
{
    match shape {
        Shape::Max | Shape::Name | Shape::Or => compare_leaf(mine[0], theirs[0]).is_le(),
        Shape::Lex(first, second) => {
            let (a, b) = cut(first, second, mine);
            let (c, d) = cut(first, second, theirs);
            match compare(first, a, c) {
                Ordering::Less => true,
                Ordering::Equal => is_below(second, b, d),
                Ordering::Greater => false,
            }
        }
        Shape::Pair(first, second) => {
            let (a, b) = cut(first, second, mine);
            let (c, d) = cut(first, second, theirs);
            is_below(first, a, c) && is_below(second, b, d)
        }
    }
}

/// Joins the second values into the first.
#[tactic(auto, using(crate::proofs::Filling::fits_first, crate::proofs::Filling::fits_second))]
pub(crate) fn join_leaves(shape: &Shape, mine: &mut [Value], theirs: &[Value])
    requires mine { Fits (form_of shape.now) mine.old }
    requires theirs { Fits (form_of shape.now) theirs.now }
    ensures fits { Fits (form_of shape.now) mine.new }
    ensures value { filled_with (form_of shape.now) mine.new ≡ joined (filled_with (form_of shape.now) mine.old)
        (filled_with (form_of shape.now) theirs.now) }
{
    match shape {
        Shape::Max | Shape::Name | Shape::Or => mine[0] = join_leaf(mine[0], theirs[0]),
        Shape::Lex(first, second) => {
            let (c, d) = cut(first, second, theirs);
            let (front, _) = cut(first, second, mine);
            match compare(first, front, c) {
                Ordering::Less => mine.copy_from_slice(theirs),
                Ordering::Equal => {
                    let count = front_count(first, second, mine);
                    let (_, b) = mine.split_at_mut(count);
                    join_leaves(second, b, d);
                }
                Ordering::Greater => {}
            }
        }
        Shape::Pair(first, second) => {
            let (c, d) = cut(first, second, theirs);
            let count = front_count(first, second, mine);
            let (a, b) = mine.split_at_mut(count);
            join_leaves(first, a, c);
            join_leaves(second, b, d);
        }
    }
}
