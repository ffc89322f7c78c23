//! Cells: what is new is told whole.

use super::difference::{Difference, whole_or_none};
use kat_lattice::Lattice;
use kat_shape::Cell;
use std::alloc::{AllocError, Global};

impl Difference for Cell {
    ghost use Rattle.kat_shape.specs.Forms.{IsChainForm};
    ghost use Rattle.kat_shape.specs.Values.{shape_of};
    ghost use Rattle.kat_difference.specs.Pieces.{IsWhole};

    ghost can_start = { λ _. Unit {0} };

    ghost exact = { λ c. IsChainForm (shape_of c) };

    ghost is_piece = { λ _. IsWhole };

    fn difference(
        &self,
        alloc: Global,
        _start: &Self,
        known: &Self,
    ) -> Result<Option<Self>, AllocError> {
        whole_or_none(alloc, self, known)
    }
}
