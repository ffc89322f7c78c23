//! Shapes of a design file.
ghost use Rattle.std.specs.Prelude.{IfErr, IfOk, Some, map, ◌≡◌};
ghost use Rattle.kat_shape.specs.Forms.{form_of};
ghost use Rattle.serde_json.specs.View.{view};
ghost use Rattle.kat_json.specs.FormFaults.{part_faults};
ghost use Rattle.kat_design_json.specs.DesignFaults.{shape_faults};
ghost use Rattle.kat_json.specs.Parts.{part_said};
ghost use Rattle.kat_design_json.specs.DesignParts.{shape_said, joined_shape};
ghost use Rattle.kat_json.specs.Refused.{IsRefused, IsSaid};
ghost use Rattle.kat_design_json.specs.Joined.{joined_faults, joined_said};

use crate::tags::ShapeTag;
use crate::words::{plain_shape, shape_tag};
use kat_json::WireError;
use kat_json::forms::{here, past, within};
use kat_json::values::{elements, tag, text};
use kat_shape::Shape;
use serde_json::Value;
use std::alloc::{AllocError, Global};

/// The part of a list at a place, as a shape.
#[cycle(shape)]
pub(crate) fn shape_part(alloc: Global, parts: &[Value], place: usize) -> Result<Shape, WireError>
    ensures said { IfOk result (λ shape. IsSaid (part_faults shape_faults place (map view parts.now))
        (part_said shape_said place (map view parts.now)) (form_of shape)) }
    ensures refused { IfErr result (IsRefused (part_faults shape_faults place (map view parts.now))) }
{
    match parts.get(place) {
        Some(value) => within(alloc, place, shape(alloc, value)),
        None => within(alloc, place, Err(here(alloc))),
    }
}

/// A shape: a word, or a list of a word and two shapes.
#[cycle(shape)]
fn shape(alloc: Global, value: &Value) -> Result<Shape, WireError>
    ensures said { IfOk result (λ shape. IsSaid (shape_faults (view value.now)) (shape_said (view value.now)) (form_of shape)) }
    ensures refused { IfErr result (IsRefused (shape_faults (view value.now))) }
{
    match elements(value) {
        Some(parts) => shape_of_parts(alloc, parts),
        None => match text(value).and_then(plain_shape) {
            Some(shape) => Ok(shape),
            None => Err(here(alloc)),
        },
    }
}

/// A shape of two parts.
#[cycle(shape)]
fn shape_of_parts(alloc: Global, parts: &[Value]) -> Result<Shape, WireError>
    ensures said { IfOk result (λ shape. IsSaid (joined_faults (map view parts.now)) (joined_said (map view parts.now)) (form_of shape)) }
    ensures refused { IfErr result (IsRefused (joined_faults (map view parts.now))) }
{
    let Some(tag) = shape_tag(tag(parts)) else {
        return within(alloc, 0, Err(here(alloc)));
    };
    let first = shape_part(alloc, parts, 1)?;
    let second = shape_part(alloc, parts, 2)?;
    past(alloc, parts, 3)?;
    let shape = joined(alloc, tag, first, second)?;
    Ok(shape)
}

/// Two shapes as one.
fn joined(alloc: Global, tag: ShapeTag, first: Shape, second: Shape) -> Result<Shape, AllocError>
    ensures { IfOk result (λ shape. form_of shape ≡ joined_shape (Some tag) (form_of first) (form_of second)) }
{
    let first = Box::new(alloc, first)?;
    let second = Box::new(alloc, second)?;
    match tag {
        ShapeTag::Lex => Ok(Shape::Lex(first, second)),
        ShapeTag::Pair => Ok(Shape::Pair(first, second)),
    }
}
