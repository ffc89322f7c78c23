//! Designs that keep the same.
ghost use Rattle.std.specs.Prelude.{◌≡◌, map};
ghost use Rattle.kat_design.specs.Designs.{component_form};
ghost use Rattle.kat_shape.specs.Forms.{form_of};
ghost use Rattle.kat_type.specs.Unions.{are_same_values, is_same_value};
ghost use Rattle.kat_embed.specs.Alike.{all_alike, keep_alike, same_form};

use kat_design::{Component, is_sort};
use kat_num::Value;
use kat_shape::Shape;

/// Whether these components keep the same as others, one by one, whatever their effects are.
pub(crate) fn all_alike(left: &[Component], right: &[Component]) -> bool
    ensures { result ≡ all_alike (map component_form left.now) (map component_form right.now) }
{
    match left {
        [] => right.is_empty(),
        [first, rest @ ..] => match right {
            [] => false,
            [other, others @ ..] => keep_alike(first, other) && all_alike(rest, others),
        },
    }
}

/// Whether a component keeps the same as another.
fn keep_alike(left: &Component, right: &Component) -> bool
    ensures { result ≡ keep_alike (component_form left.now) (component_form right.now) }
{
    match (left, right) {
        (
            Component::Cell { shape, starts, .. },
            Component::Cell {
                shape: form,
                starts: begins,
                ..
            },
        ) => same_shape(shape, form) && are_same_values(starts.as_slice(), begins.as_slice()),
        (
            Component::Table {
                key,
                shape,
                starts,
                ..
            },
            Component::Table {
                key: sort,
                shape: form,
                starts: begins,
                ..
            },
        ) => {
            is_sort(*key, *sort)
                && same_shape(shape, form)
                && are_same_values(starts.as_slice(), begins.as_slice())
        }
        (Component::Set { key, .. }, Component::Set { key: sort, .. }) => is_sort(*key, *sort),
        (Component::Tally { .. }, Component::Tally { .. }) => true,
        (Component::Tallies { key, .. }, Component::Tallies { key: sort, .. }) => {
            is_sort(*key, *sort)
        }
        _ => false,
    }
}

/// Whether two shapes are one.
fn same_shape(left: &Shape, right: &Shape) -> bool
    ensures { result ≡ same_form (form_of left.now) (form_of right.now) }
{
    match (left, right) {
        (Shape::Max, Shape::Max) => true,
        (Shape::Name, Shape::Name) => true,
        (Shape::Or, Shape::Or) => true,
        (Shape::Lex(a, b), Shape::Lex(c, d)) => same_shape(a, c) && same_shape(b, d),
        (Shape::Pair(a, b), Shape::Pair(c, d)) => same_shape(a, c) && same_shape(b, d),
        _ => false,
    }
}

/// Whether two lists of values are one.
fn are_same_values(left: &[Value], right: &[Value]) -> bool
    ensures { result ≡ are_same_values left.now right.now }
{
    match left {
        [] => right.is_empty(),
        [first, rest @ ..] => match right {
            [] => false,
            [other, others @ ..] => is_same_value(*first, *other) && are_same_values(rest, others),
        },
    }
}

/// Whether two values are one.
fn is_same_value(left: Value, right: Value) -> bool
    ensures { result ≡ is_same_value left right }
{
    match (left, right) {
        (Value::Bool(a), Value::Bool(b)) => a == b,
        (Value::Num(a), Value::Num(b)) => a == b,
        (Value::Name(a), Value::Name(b)) => a == b,
        _ => false,
    }
}
