//! Writing the text with which a command ends.
ghost use Rattle.std.specs.Prelude.{◌≡◌, ◌<◌, ◌≤◌, IsErrOf, OnErr, OnOk, length};
ghost use Rattle.kat_io.specs.Outside.{Rose, grown};
ghost use Rattle.kat_world.specs.Written.{IsCutShort};
ghost use Rattle.kat_cli.specs.Ending.{Prints, ended_status};
ghost use Rattle.kat_cli.specs.Outcome.{IsEnd};

use crate::status::Status;
use kat_check::Checked;
use kat_io::Sink;
use kat_world::{WorldError, emit};
use std::alloc::Global;

/// Writes a text, line by line, and says how that ended: as it should, except for a fault or out of memory.
pub(crate) fn print<K: Sink>(alloc: Global, text: &[u8], end: Status, out: &mut K) -> Status
    requires { IsEnd end }
    ensures prints { Prints text.now end (record {
      written = K.written out.old;
      written_after = K.written out.new;
      faults = K.faults out.old;
      faults_after = K.faults out.new;
    }) result }
    ensures later { K.faults out.old ≤ K.faults out.new }
{
    match write_lines(alloc, text, out) {
        Ok(()) => end,
        Err(WorldError::WriteFault) => Status::WriteFault,
        Err(WorldError::Memory) => Status::Memory,
    }
}

/// Writes a text, each line by a call of its own.
fn write_lines<K: Sink>(alloc: Global, text: &[u8], out: &mut K) -> Result<(), WorldError>
    ensures ok { OnOk result (K.written out.new ≡ grown (K.written out.old) text.now) }
    ensures err { OnErr result (IsCutShort (K.written out.old) (K.written out.new) text.now) }
    ensures fault { IsErrOf result WorldError.WriteFault → Rose (K.faults out.old) (K.faults out.new) }
    ensures later { K.faults out.old ≤ K.faults out.new }
{
    let mut rest = text;
    'lines: while !rest.is_empty() {
        let (line, behind) = rest.split_at(first_line(rest));
        emit(alloc, line, out)?;
        rest = behind;
    }
    Ok(())
}

/// How many bytes the first line of a text has, with its newline.
fn first_line(text: &[u8]) -> usize
    requires { 0 < length text.now }
    ensures some { 0 < result }
    ensures within { result ≤ length text.now }
{
    match text.iter().position(|byte| *byte == b'\n') {
        Some(place) => place + 1,
        None => text.len(),
    }
}

/// How a command ends that writes once a proof is accepted.
pub(crate) fn ended(written: Result<Checked, WorldError>) -> Status
    ensures { result ≡ ended_status written }
{
    match written {
        Ok(Checked::Accepted) => Status::Done,
        Ok(Checked::Refused { condition, line }) => Status::ProofRefused { condition, line },
        Err(WorldError::WriteFault) => Status::WriteFault,
        Err(WorldError::Memory) => Status::Memory,
    }
}
