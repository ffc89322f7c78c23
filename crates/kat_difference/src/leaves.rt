//! Single values, and values under a first part: of two, one is at or below the other, so what is new is told whole.

use super::difference::{Difference, whole_or_none};
use kat_lattice::{Chain, Flat, Lattice, Lex, Max, NameMax, Or};
use std::alloc::{AllocError, Global};

impl Difference for Max {
    ghost use Rattle.kat_difference.specs.Pieces.{IsWhole};

    ghost can_start = { λ _. Unit {0} };

    ghost exact = { λ _. Unit {0} };

    ghost is_piece = { λ _. IsWhole };

    fn difference(
        &self,
        alloc: Global,
        _start: &Self,
        known: &Self,
    ) -> Result<Option<Self>, AllocError> {
        whole_or_none(alloc, self, known)
    }
}

impl Difference for NameMax {
    ghost use Rattle.kat_difference.specs.Pieces.{IsWhole};

    ghost can_start = { λ _. Unit {0} };

    ghost exact = { λ _. Unit {0} };

    ghost is_piece = { λ _. IsWhole };

    fn difference(
        &self,
        alloc: Global,
        _start: &Self,
        known: &Self,
    ) -> Result<Option<Self>, AllocError> {
        whole_or_none(alloc, self, known)
    }
}

impl Difference for Or {
    ghost use Rattle.kat_difference.specs.Pieces.{IsWhole};

    ghost can_start = { λ _. Unit {0} };

    ghost exact = { λ _. Unit {0} };

    ghost is_piece = { λ _. IsWhole };

    fn difference(
        &self,
        alloc: Global,
        _start: &Self,
        known: &Self,
    ) -> Result<Option<Self>, AllocError> {
        whole_or_none(alloc, self, known)
    }
}

impl<A: Chain + Copy, B: Chain + Copy> Difference for Lex<A, B> {
    ghost use Rattle.kat_difference.specs.Pieces.{IsWhole};

    ghost can_start = { λ _. Unit {0} };

    ghost exact = { λ _. Unit {0} };

    ghost is_piece = { λ _. IsWhole };

    fn difference(
        &self,
        alloc: Global,
        _start: &Self,
        known: &Self,
    ) -> Result<Option<Self>, AllocError> {
        whole_or_none(alloc, self, known)
    }
}
