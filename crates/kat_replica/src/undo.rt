//! Steps on parts that can be taken back.
ghost use Rattle.std.specs.Prelude.{◌≡◌};
ghost use Rattle.kat_replica.specs.Undoing.{IsBackable, part_taken_back};

use kat_design::Part;
use kat_lattice::{Tally, Undo};
use kat_num::Value;
use kat_shape::Cell;

/// What one step changed in a part, with all that is needed to take it back without memory.
#[derive(Drop)]
pub(crate) enum PartUndo {
    /// Nothing changed.
    Same,
    /// The cell as it was.
    Cell(Cell),
    Table(Undo<(Value, Cell)>),
    Set(Undo<Value>),
    Tally(Undo<(u32, u128)>),
    Tallies(Undo<(Value, Tally)>),
}

/// Takes the step back.
pub(crate) fn take_back(part: &mut Part, undo: PartUndo)
    requires { IsBackable undo part.old }
    ensures { part.new ≡ part_taken_back undo part.old }
{
    match (part, undo) {
        (Part::Cell(cell), PartUndo::Cell(was)) => *cell = was,
        (Part::Table(table), PartUndo::Table(step)) => table.take_back(step),
        (Part::Set(keys), PartUndo::Set(step)) => keys.take_back(step),
        (Part::Tally(sums), PartUndo::Tally(step)) => sums.take_back(step),
        (Part::Tallies(table), PartUndo::Tallies(step)) => table.take_back(step),
        _ => {}
    }
}
