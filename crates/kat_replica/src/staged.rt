//! What parts take before they are joined.
ghost use Rattle.std.specs.Prelude.{◌≡◌, IfOk};
ghost use Rattle.kat_design.specs.Parts.{PartsKin, part_joined};
ghost use Rattle.kat_replica.specs.Staging.{IsStaged};

use kat_design::Part;
use kat_lattice::{Flat, GrowMap, GrowSet, Lattice, Room, Tally, commit};
use kat_num::Value;
use kat_shape::Cell;
use std::alloc::{AllocError, Global};

/// What a part takes before another is joined to it. A cell takes nothing, and a table room for new keys alone.
#[derive(Drop)]
pub(crate) enum StagedPart {
    Cell,
    Table(Option<Room<Value, Cell>>),
    Set(Option<GrowSet<Value>>),
    Tally(Option<Tally>),
    Tallies(Option<GrowMap<Value, Tally>>),
}

/// Takes all memory that joining the other part needs.
pub(crate) fn stage(alloc: Global, part: &Part, other: &Part) -> Result<StagedPart, AllocError>
    requires { PartsKin part.now other.now }
    ensures { IfOk result (λ staged. IsStaged staged part.now other.now) }
{
    match (part, other) {
        (Part::Table(mine), Part::Table(theirs)) => {
            Ok(StagedPart::Table(mine.stage_in_place(alloc, theirs)?))
        }
        (Part::Set(mine), Part::Set(theirs)) => Ok(StagedPart::Set(mine.stage(alloc, theirs)?)),
        (Part::Tally(mine), Part::Tally(theirs)) => {
            Ok(StagedPart::Tally(mine.stage(alloc, theirs)?))
        }
        (Part::Tallies(mine), Part::Tallies(theirs)) => {
            Ok(StagedPart::Tallies(mine.stage(alloc, theirs)?))
        }
        _ => Ok(StagedPart::Cell),
    }
}

/// Joins the other part, with what was taken for it.
pub(crate) fn join_staged(part: &mut Part, other: &Part, staged: StagedPart)
    requires kin { PartsKin part.old other.now }
    requires staged { IsStaged staged part.old other.now }
    ensures { part.new ≡ part_joined part.old other.now }
{
    match (part, other, staged) {
        (Part::Cell(mine), Part::Cell(theirs), _) => mine.join_flat(theirs),
        (Part::Table(mine), Part::Table(theirs), StagedPart::Table(room)) => {
            mine.join_in_place(theirs, room)
        }
        (Part::Set(mine), _, StagedPart::Set(next)) => commit(mine, next),
        (Part::Tally(mine), _, StagedPart::Tally(next)) => commit(mine, next),
        (Part::Tallies(mine), _, StagedPart::Tallies(next)) => commit(mine, next),
        _ => {}
    }
}
