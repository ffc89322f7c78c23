//! The text of a state.
ghost use Rattle.std.specs.Prelude.{◌≡◌, ◌++◌, OnErr, OnOk, map};
ghost use Rattle.kat_replica.specs.Printing.{Grows, comma_before};
ghost use Rattle.kat_replica.specs.Texts.{listed, state_text};

use itoa::Buffer;
use kat_design::{Part, State};
use kat_lattice::Tally;
use kat_num::{Value, print};
use kat_shape::Cell;
use std::alloc::{AllocError, Global};

/// Appends the text of a state: a list with one element for each component. After an error the text is as it was.
pub fn push_state(alloc: Global, state: &State, into: &mut Vec<u8>) -> Result<(), AllocError>
    ensures ok { OnOk result (into.new.items ≡ into.old.items ++ state_text state.now.parts) }
    ensures err { OnErr result (into.new.items ≡ into.old.items) }
{
    let end = into.len();
    match push_list(alloc, state.parts.as_slice(), into) {
        Ok(()) => Ok(()),
        Err(error) => {
            into.truncate(end);
            Err(error)
        }
    }
}

/// What has a text in that of a state.
trait Shown {
    ghost use Rattle.std.specs.Prelude.{ℕ, List};

    // the text
    ghost text: { Self → List ℕ };

    /// Appends the text. After an error a part of it may have been appended.
    fn push(&self, alloc: Global, into: &mut Vec<u8>) -> Result<(), AllocError>
        ensures ok { OnOk result (into.new.items ≡ into.old.items ++ text self.now) }
        ensures grows { Grows into.old.items into.new.items };
}

/// Appends a list between brackets, with a comma between each two.
fn push_list<T: Shown>(alloc: Global, items: &[T], into: &mut Vec<u8>) -> Result<(), AllocError>
    ensures ok { OnOk result (into.new.items ≡ into.old.items ++ listed (map T.text items.now)) }
    ensures grows { Grows into.old.items into.new.items }
{
    into.extend_from_slice(b"[")?;
    for (place, item) in items.iter().enumerate() {
        push_comma(place, into)?;
        item.push(alloc, into)?;
    }
    into.extend_from_slice(b"]")
}

/// Appends a comma, but not before the first element.
fn push_comma(place: usize, into: &mut Vec<u8>) -> Result<(), AllocError>
    ensures ok { OnOk result (into.new.items ≡ into.old.items ++ comma_before place) }
    ensures err { OnErr result (into.new.items ≡ into.old.items) }
{
    if place == 0 {
        return Ok(());
    }
    into.extend_from_slice(b",")
}

impl Shown for Value {
    ghost use Rattle.kat_num.specs.Values.{value_text};

    ghost text = { value_text };

    fn push(&self, alloc: Global, into: &mut Vec<u8>) -> Result<(), AllocError> {
        print(alloc, self, into)
    }
}

impl Shown for Cell {
    ghost use Rattle.kat_replica.specs.Texts.{cell_text};

    ghost text = { cell_text };

    fn push(&self, alloc: Global, into: &mut Vec<u8>) -> Result<(), AllocError> {
        push_list(alloc, self.leaves(), into)
    }
}

impl Shown for (u32, u128) {
    ghost use Rattle.kat_replica.specs.Texts.{sum_text};

    ghost text = { sum_text };

    fn push(&self, alloc: Global, into: &mut Vec<u8>) -> Result<(), AllocError> {
        into.extend_from_slice(b"[")?;
        into.extend_from_slice(Buffer::new().format(self.0).as_bytes())?;
        into.extend_from_slice(b",")?;
        into.extend_from_slice(Buffer::new().format(self.1).as_bytes())?;
        into.extend_from_slice(b"]")
    }
}

impl Shown for Tally {
    ghost use Rattle.kat_replica.specs.Texts.{tally_text};

    ghost text = { tally_text };

    fn push(&self, alloc: Global, into: &mut Vec<u8>) -> Result<(), AllocError> {
        push_list(alloc, self.sums(), into)
    }
}

impl<V: Shown> Shown for (Value, V) {
    ghost use Rattle.kat_replica.specs.Texts.{entry_text};

    ghost text = { entry_text V.text };

    fn push(&self, alloc: Global, into: &mut Vec<u8>) -> Result<(), AllocError> {
        into.extend_from_slice(b"[")?;
        print(alloc, &self.0, into)?;
        into.extend_from_slice(b",")?;
        self.1.push(alloc, into)?;
        into.extend_from_slice(b"]")
    }
}

impl Shown for Part {
    ghost use Rattle.kat_replica.specs.Texts.{part_text};

    ghost text = { part_text };

    fn push(&self, alloc: Global, into: &mut Vec<u8>) -> Result<(), AllocError> {
        match self {
            Part::Cell(cell) => cell.push(alloc, into),
            Part::Table(table) => push_list(alloc, table.entries(), into),
            Part::Set(keys) => push_list(alloc, keys.keys(), into),
            Part::Tally(sums) => sums.push(alloc, into),
            Part::Tallies(table) => push_list(alloc, table.entries(), into),
        }
    }
}
