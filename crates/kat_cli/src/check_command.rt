//! `check TYPE DESIGN`: the proof in a design file is checked for a type.
ghost use Rattle.std.specs.Prelude.{◌≤◌, ◌∷◌, []};
ghost use Rattle.kat_cli.specs.Ending.{Judges};

use crate::printing::ended;
use crate::status::Status;
use crate::typed_files::read_typed_file;
use kat_accepted::write_accepted;
use kat_io::Sink;
use kat_words::Command;
use std::alloc::Global;

/// Judges the type and then the design, which must have the type's signature, and checks the proof.
pub(crate) fn judge_check<K: Sink>(alloc: Global, ty: &[u8], design: &[u8], out: &mut K) -> Status
    ensures judged { Judges Command.Check (ty.now ∷ design.now ∷ []) (record {
      written = K.written out.old;
      written_after = K.written out.new;
      faults = K.faults out.old;
      faults_after = K.faults out.new;
    }) result }
    ensures later { K.faults out.old ≤ K.faults out.new }
{
    let read = match read_typed_file(alloc, ty, design) {
        Ok(read) => read,
        Err(status) => return status,
    };
    ended(write_accepted(alloc, &read.ty, &read.file, out))
}
