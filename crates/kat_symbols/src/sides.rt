//! A side of a condition: how two states and a last operation are read.
ghost use Rattle.std.specs.Prelude.{◌≡◌};
ghost use Rattle.kat_symbols.specs.Sides.{Side, given};
ghost use Rattle.kat_symbols.specs.Views.{reader_of, GivesFact, GivesRow, GivesSymbol};

use crate::names::{Instance, Place};
use crate::readers::Reader;
use crate::symbols::Symbol;
use kat_form::Formula;
use kat_linear::Row;
use std::alloc::{AllocError, Global};

/// A side, which reads what is kept, whether there is a last operation, and the elements of its rank.
pub trait ReadSide {
    ghost side: { Self → Side };

    /// What is kept at a place, at a key if it is kept by key.
    fn value(
        &self,
        alloc: Global,
        reader: &mut Reader,
        place: Place,
        at: Option<Instance>,
    ) -> Result<Symbol, AllocError>
        ensures { GivesSymbol ((side self.now).value place at (reader_of reader.old)) result (reader_of reader.new) };

    /// Whether there is a last operation.
    fn begun(&self, reader: &mut Reader) -> Result<Formula, AllocError>
        ensures { GivesFact ((side self.now).begun (reader_of reader.old)) result (reader_of reader.new) };

    /// An element of the last operation's rank.
    fn element(&self, alloc: Global, reader: &mut Reader, position: u32) -> Result<Row, AllocError>
        ensures { GivesRow ((side self.now).element position (reader_of reader.old)) result (reader_of reader.new) };
}

/// The key that a parameter gives.
pub fn given(at: Option<Instance>, place: u32) -> Instance
    ensures { result ≡ given at place }
{
    match at {
        None => Instance::Argument(place),
        Some(instance) => instance,
    }
}
