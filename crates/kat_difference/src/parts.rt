//! The difference of a part from a known one.
ghost use Rattle.std.specs.Prelude.{◌≡◌, ◌↔◌, [], IfOk, IsTrue};
ghost use Rattle.kat_design.specs.Parts.{PartsKin};
ghost use Rattle.kat_lattice.specs.JoinLaws.{IsBelow};
ghost use Rattle.kat_lattice.specs.Maps.{MapsKin};
ghost use Rattle.kat_lattice.specs.Sets.{SetsKin};
ghost use Rattle.kat_lattice.specs.Tallies.{TalliesKin, tallies_joined};
ghost use Rattle.kat_num.specs.Orders.{value_order};
ghost use Rattle.kat_shape.specs.Values.{OneShape, joined};
ghost use Rattle.kat_difference.specs.States.{IsBegun, IsPartTold};

use crate::difference::difference_or_start;
use kat_design::Part;
use kat_lattice::{GrowMap, GrowSet, Lattice, Tally};
use kat_num::Value;
use kat_shape::Cell;
use std::alloc::{AllocError, Global};

/// What a part has that the known one lacks, over what it began with.
pub(crate) fn part_difference(
    alloc: Global,
    start: &Part,
    known: &Part,
    whole: &Part,
) -> Result<Part, AllocError>
    requires begun { IsBegun start.now }
    requires known { PartsKin start.now known.now }
    requires whole { PartsKin start.now whole.now }
    ensures { IfOk result (IsPartTold start.now known.now whole.now) }
{
    match (start, known, whole) {
        (Part::Cell(start), Part::Cell(known), Part::Cell(whole)) => {
            cell_difference(alloc, start, known, whole)
        }
        (Part::Table(start), Part::Table(known), Part::Table(whole)) => {
            table_difference(alloc, start, known, whole)
        }
        (Part::Set(start), Part::Set(known), Part::Set(whole)) => {
            set_difference(alloc, start, known, whole)
        }
        (Part::Tally(start), Part::Tally(known), Part::Tally(whole)) => {
            tally_difference(alloc, start, known, whole)
        }
        (Part::Tallies(start), Part::Tallies(known), Part::Tallies(whole)) => {
            tallies_difference(alloc, start, known, whole)
        }
        _ => whole.copy(alloc),
    }
}

/// A cell that is new, whole. A cell of a file may be below its start; a cell beside such a one is told as it is.
fn cell_difference(
    alloc: Global,
    start: &Cell,
    known: &Cell,
    whole: &Cell,
) -> Result<Part, AllocError>
    requires known { OneShape start.now known.now }
    requires whole { OneShape start.now whole.now }
    ensures { IfOk result (IsPartTold (Part.Cell start.now) (Part.Cell known.now) (Part.Cell whole.now)) }
{
    if are_above(start, known, whole) {
        let told = difference_or_start(alloc, whole, start, known)?;
        return Ok(Part::Cell(told));
    }
    let copy = whole.copy(alloc)?;
    Ok(Part::Cell(copy))
}

/// Whether both cells are at or above the start.
fn are_above(start: &Cell, known: &Cell, whole: &Cell) -> bool
    requires known { OneShape start.now known.now }
    requires whole { OneShape start.now whole.now }
    ensures { IsTrue result ↔ (IsBelow joined start.now known.now × IsBelow joined start.now whole.now) }
{
    start.leq(known) && start.leq(whole)
}

/// The entries that are new, or have something new.
fn table_difference(
    alloc: Global,
    start: &GrowMap<Value, Cell>,
    known: &GrowMap<Value, Cell>,
    whole: &GrowMap<Value, Cell>,
) -> Result<Part, AllocError>
    requires begun { start.now.entries ≡ [] }
    requires known { MapsKin value_order OneShape joined start.now known.now }
    requires whole { MapsKin value_order OneShape joined start.now whole.now }
    ensures { IfOk result (IsPartTold (Part.Table start.now) (Part.Table known.now) (Part.Table whole.now)) }
{
    let told = difference_or_start(alloc, whole, start, known)?;
    Ok(Part::Table(told))
}

/// The keys that are new.
fn set_difference(
    alloc: Global,
    start: &GrowSet<Value>,
    known: &GrowSet<Value>,
    whole: &GrowSet<Value>,
) -> Result<Part, AllocError>
    requires begun { start.now ≡ [] }
    requires known { SetsKin value_order start.now known.now }
    requires whole { SetsKin value_order start.now whole.now }
    ensures { IfOk result (IsPartTold (Part.Set start.now) (Part.Set known.now) (Part.Set whole.now)) }
{
    let told = difference_or_start(alloc, whole, start, known)?;
    Ok(Part::Set(told))
}

/// The sums that are greater than those known.
fn tally_difference(
    alloc: Global,
    start: &Tally,
    known: &Tally,
    whole: &Tally,
) -> Result<Part, AllocError>
    requires begun { start.now ≡ [] }
    requires known { TalliesKin start.now known.now }
    requires whole { TalliesKin start.now whole.now }
    ensures { IfOk result (IsPartTold (Part.Tally start.now) (Part.Tally known.now) (Part.Tally whole.now)) }
{
    let told = difference_or_start(alloc, whole, start, known)?;
    Ok(Part::Tally(told))
}

/// At each key the sums that are greater than those known.
fn tallies_difference(
    alloc: Global,
    start: &GrowMap<Value, Tally>,
    known: &GrowMap<Value, Tally>,
    whole: &GrowMap<Value, Tally>,
) -> Result<Part, AllocError>
    requires begun { start.now.entries ≡ [] }
    requires itself { start.now.start ≡ [] }
    requires known { MapsKin value_order TalliesKin tallies_joined start.now known.now }
    requires whole { MapsKin value_order TalliesKin tallies_joined start.now whole.now }
    ensures { IfOk result (IsPartTold (Part.Tallies start.now) (Part.Tallies known.now) (Part.Tallies whole.now)) }
{
    let told = difference_or_start(alloc, whole, start, known)?;
    Ok(Part::Tallies(told))
}
