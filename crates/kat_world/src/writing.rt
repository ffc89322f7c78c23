//! Text is written, each piece by a call of its own.
ghost use Rattle.std.specs.Prelude.{◌≡◌, ◌≤◌, ◌⊎◌, IsErrOf, Ok, OnErr, OnOk};
ghost use Rattle.kat_io.specs.Outside.{Rose, grown};
ghost use Rattle.kat_world.specs.Written.{IsCutShort};

use kat_io::{Sink, WriteError};
use std::alloc::{AllocError, Global};

/// Why a text wasn't all written.
#[derive(Clone, Copy, Debug, PartialEq, Eq)]
pub enum WorldError {
    WriteFault,
    Memory,
}

impl From<AllocError> for WorldError {
    ghost use Rattle.kat_world.specs.declared.writing.WorldError.TheVariants.{Memory};

    ghost from_gives = { λ _ error. error ≡ Memory };

    fn from(_: AllocError) -> Self {
        WorldError::Memory
    }
}

/// Writes a text, if there is any.
pub fn emit<K: Sink>(alloc: Global, text: &[u8], out: &mut K) -> Result<(), WorldError>
    ensures ok { OnOk result (K.written out.new ≡ grown (K.written out.old) text.now) }
    ensures err { OnErr result (IsCutShort (K.written out.old) (K.written out.new) text.now) }
    ensures later { K.faults out.old ≤ K.faults out.new }
    ensures fault { IsErrOf result WorldError.WriteFault → Rose (K.faults out.old) (K.faults out.new) }
{
    if text.is_empty() {
        return Ok(());
    }
    match out.write(alloc, text) {
        Ok(()) => Ok(()),
        Err(WriteError::Failed) => Err(WorldError::WriteFault),
        Err(WriteError::Memory) => Err(WorldError::Memory),
    }
}
