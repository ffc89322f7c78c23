//! Making cells.

ghost use Rattle.std.specs.Prelude.{◌≡◌, IfOk, map};
ghost use Rattle.kat_shape.specs.Forms.{form_of, leaf_kind_of, leaf_kinds_of, IsGoodForm};
ghost use Rattle.kat_shape.specs.Values.{shape_of, leaves_of};

use super::cells::Cell;
use super::shapes::Shape;
use kat_num::Value;
use std::alloc::{AllocError, Global};
use std::sync::Arc;

/// The cell of a shape with these values at its leaves, from the left. It keeps a copy of the shape.
pub fn cell(alloc: Global, shape: &Shape, leaves: &[Value]) -> Result<Cell, AllocError>
    requires good { IsGoodForm (form_of shape.now) }
    requires fit { map leaf_kind_of leaves.now ≡ leaf_kinds_of (form_of shape.now) }
    ensures shape { IfOk result (λ cell. shape_of cell ≡ form_of shape.now) }
    ensures leaves { IfOk result (λ cell. leaves_of cell ≡ leaves.now) }
{
    let shape = Arc::new(alloc, shape.copy(alloc)?)?;
    cell_of(alloc, &shape, leaves)
}

/// The cell of a shape with these values at its leaves, from the left. It shares the shape.
#[tactic(auto, using(crate::proofs::Filling::filled_shape, crate::proofs::Filling::filled_leaves))]
pub fn cell_of(alloc: Global, shape: &Arc<Shape>, leaves: &[Value]) -> Result<Cell, AllocError>
    requires good { IsGoodForm (form_of shape.now.value) }
    requires fit { map leaf_kind_of leaves.now ≡ leaf_kinds_of (form_of shape.now.value) }
    ensures shape { IfOk result (λ cell. shape_of cell ≡ form_of shape.now.value) }
    ensures leaves { IfOk result (λ cell. leaves_of cell ≡ leaves.now) }
{
    let leaves = Vec::from_slice(alloc, leaves)?;
    let shape = shape.clone()?;
    Ok(Cell { shape, leaves })
}
