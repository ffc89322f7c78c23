//! Values of two parts, side by side: each part is told by itself.

ghost use Rattle.std.specs.Prelude.{◌≡◌, IfOk};
ghost use Rattle.kat_difference.specs.Pairs.{paired};

use super::difference::Difference;
use kat_lattice::{Lattice, Pair};
use std::alloc::{AllocError, Global};

/// What was told of two parts, with the start's part if nothing was told of one.
fn pair_of<A: Lattice, B: Lattice>(
    alloc: Global,
    start: &Pair<A, B>,
    first: Option<A>,
    second: Option<B>,
) -> Result<Option<Pair<A, B>>, AllocError>
    ensures { IfOk result (λ o. o ≡ paired start.now first second) }
{
    match (first, second) {
        (None, None) => Ok(None),
        (Some(first), None) => {
            let second = start.second.copy(alloc)?;
            Ok(Some(Pair { first, second }))
        }
        (None, Some(second)) => {
            let first = start.first.copy(alloc)?;
            Ok(Some(Pair { first, second }))
        }
        (Some(first), Some(second)) => Ok(Some(Pair { first, second })),
    }
}

impl<A: Difference, B: Difference> Difference for Pair<A, B> {
    ghost use Rattle.kat_difference.specs.Pieces.{IsPieceOfPair};

    ghost can_start = { λ p. A.can_start p.first × B.can_start p.second };

    ghost exact = { λ p. A.exact p.first × B.exact p.second };

    ghost is_piece = { IsPieceOfPair A.is_piece B.is_piece };

    fn difference(
        &self,
        alloc: Global,
        start: &Self,
        known: &Self,
    ) -> Result<Option<Self>, AllocError> {
        let first = self.first.difference(alloc, &start.first, &known.first)?;
        let second = self.second.difference(alloc, &start.second, &known.second)?;
        pair_of(alloc, start, first, second)
    }
}
