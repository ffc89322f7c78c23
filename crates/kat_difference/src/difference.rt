//! The difference of a value from a known one.

ghost use Rattle.std.specs.Prelude.{◌≡◌, [], IfOk, IfSome, MatchOption};
ghost use Rattle.kat_difference.specs.Differences.{IsFilled, IsFrom, IsWholeOrNone, Lacks, Serves, ServesAbove, TellsNothing};
ghost use Rattle.kat_difference.specs.Pieces.{IsPieceOrStart};

use kat_lattice::Lattice;
use std::alloc::{AllocError, Global};

/// A lattice whose values can be told by what is new in them.
pub trait Difference: Lattice {
    // values that differences may start from, as nothing smaller is told
    ghost can_start: { Self → Type 0 };

    // over this start a difference is the least one that serves
    ghost exact: { Self → Type 0 };

    // over a start, a piece of a value: what a difference of it is made of
    ghost is_piece: { Self → Self → Self → Type 0 };

    /// What this value has that the known one lacks; `None` if the known one has all of it.
    ///
    /// Both values are at or above the start, and so is the difference. Joined to the known value, the difference gives what this
    /// value gives there. The only error is that memory ran out.
    fn difference(
        &self,
        alloc: Global,
        start: &Self,
        known: &Self,
    ) -> Result<Option<Self>, AllocError>
        requires start { can_start start.now }
        requires known { IsFrom Self.kin Self.joined start.now known.now }
        requires value { IsFrom Self.kin Self.joined start.now self.now }
        ensures lacks { IfOk result (Lacks Self.kin Self.joined (exact start.now) start.now known.now self.now) }
        ensures piece { IfOk result (λ told. IfSome told (is_piece start.now self.now)) };
}

/// The value whole, unless the known one has all of it.
pub(crate) fn whole_or_none<L: Lattice>(
    alloc: Global,
    value: &L,
    known: &L,
) -> Result<Option<L>, AllocError>
    requires { L.kin value.now known.now }
    ensures { IfOk result (IsWholeOrNone L.joined known.now value.now) }
{
    if value.leq(known) {
        return Ok(None);
    }
    Ok(Some(value.copy(alloc)?))
}

/// The list, unless it is empty.
pub(crate) fn list_or_none<E: Drop>(list: Vec<E>) -> Option<Vec<E>>
    ensures { MatchOption result (list.items ≡ []) (λ all. (all.items ≡ list.items) × (list.items ≡ [] → ⊥)) }
{
    if list.is_empty() {
        return None;
    }
    Some(list)
}

/// What a value has that the known one lacks, or the start if the known one has all of it.
///
/// What is asked of the arguments, and what the error is, is as for `Difference::difference`.
pub fn difference_or_start<L: Difference>(
    alloc: Global,
    value: &L,
    start: &L,
    known: &L,
) -> Result<L, AllocError>
    requires start { L.can_start start.now }
    requires known { IsFrom L.kin L.joined start.now known.now }
    requires value { IsFrom L.kin L.joined start.now value.now }
    ensures serves { IfOk result (Serves L.kin L.joined (L.exact start.now) start.now known.now value.now) }
    ensures piece { IfOk result (IsPieceOrStart (L.is_piece start.now) start.now value.now) }
{
    let told = value.difference(alloc, start, known)?;
    filled(alloc, told, start)
}

/// What was told, or the start if nothing was.
fn filled<L: Lattice>(alloc: Global, told: Option<L>, start: &L) -> Result<L, AllocError>
    ensures { IfOk result (IsFilled start.now told) }
{
    match told {
        Some(value) => Ok(value),
        None => start.copy(alloc),
    }
}

/// Nothing is told of a value that is known.
pub fn differences_tell_what_is_new<L: Difference>()
    ensures { TellsNothing L.kin L.joined L.exact }
{}

/// What serves beside a known value serves beside each value that is at or above it: so a difference serves everybody who has
/// what is known, and more.
pub fn differences_serve_above<L: Difference>()
    ensures { ServesAbove L.kin L.joined }
{}
