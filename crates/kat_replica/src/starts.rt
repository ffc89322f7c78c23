//! What each component keeps at first.
ghost use Rattle.std.specs.Prelude.{◌≡◌, [], All, IfOk, map};
ghost use Rattle.kat_design.specs.Denotations.{part_of};
ghost use Rattle.kat_design.specs.Designs.{component_form};
ghost use Rattle.kat_replica.specs.Starting.{HasStarts};
ghost use Rattle.kat_shape.specs.Flats.{filled_with};
ghost use Rattle.kat_shape.specs.Forms.{form_of, leaf_kind_of, leaf_kinds_of, IsGoodForm};

use kat_design::{Component, Part};
use kat_lattice::{GrowMap, GrowSet, Tally};
use kat_num::Value;
use kat_shape::{Cell, Shape, cell};
use std::alloc::{AllocError, Global};

/// The parts of components before any operation.
pub(crate) fn start_parts(alloc: Global, components: &[Component]) -> Result<Vec<Part>, AllocError>
    requires { All (λ component. HasStarts (component_form component)) components.now }
    ensures { IfOk result (λ parts. parts.items ≡ map (λ component. part_of (component_form component) []) components.now) }
{
    let mut parts = Vec::with_capacity(alloc, components.len())?;
    for component in components {
        parts.push(start_part(alloc, component)?)?;
    }
    Ok(parts)
}

/// The part of a component before any operation.
fn start_part(alloc: Global, component: &Component) -> Result<Part, AllocError>
    requires { HasStarts (component_form component.now) }
    ensures { IfOk result (λ part. part ≡ part_of (component_form component.now) []) }
{
    match component {
        Component::Cell { shape, starts, .. } => {
            Ok(Part::Cell(start_cell(alloc, shape, starts.as_slice())?))
        }
        Component::Table { shape, starts, .. } => {
            let start = start_cell(alloc, shape, starts.as_slice())?;
            Ok(Part::Table(GrowMap::new(alloc, start)))
        }
        Component::Set { .. } => Ok(Part::Set(GrowSet::new(alloc))),
        Component::Tally { .. } => Ok(Part::Tally(Tally::new(alloc))),
        Component::Tallies { .. } => Ok(Part::Tallies(GrowMap::new(alloc, Tally::new(alloc)))),
    }
}

/// The cell of a shape with these starts.
fn start_cell(alloc: Global, shape: &Shape, starts: &[Value]) -> Result<Cell, AllocError>
    requires good { IsGoodForm (form_of shape.now) }
    requires fit { map leaf_kind_of starts.now ≡ leaf_kinds_of (form_of shape.now) }
    ensures { IfOk result (λ cell. cell ≡ filled_with (form_of shape.now) starts.now) }
{
    cell(alloc, shape, starts)
}
