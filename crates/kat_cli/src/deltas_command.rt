//! `deltas TYPE DESIGN SCRIPT`: a design whose proof is accepted for a type runs on a script with deltas.
ghost use Rattle.std.specs.Prelude.{◌≡◌, ℕ, ◌≤◌, List, ◌∷◌, []};
ghost use Rattle.kat_design.specs.Designs.{design_form};
ghost use Rattle.kat_design.specs.Sorted.{IsWellSorted};
ghost use Rattle.kat_script.specs.Rules.{HasFewCalls};
ghost use Rattle.kat_type.specs.Signatures.{signature_of};
ghost use Rattle.kat_type.specs.Types.{type_form};
ghost use Rattle.kat_wire.specs.FileForms.{file_form};
ghost use Rattle.kat_cli.specs.CheckCommand.{IsFileFor};
ghost use Rattle.kat_cli.specs.Ending.{Judges};

use crate::commands::refused_deltas;
use crate::printing::ended;
use crate::status::Status;
use crate::typed_files::read_typed_file;
use kat_accepted::deltas_accepted;
use kat_delta_script::read_deltas;
use kat_io::Sink;
use kat_type::SeqType;
use kat_wire::DesignFile;
use kat_words::Command;
use std::alloc::Global;

/// Judges the type, the design, which must have the type's signature, and the script with deltas; checks the proof; and only
/// then runs the design.
pub(crate) fn judge_deltas<K: Sink>(
    alloc: Global,
    ty: &[u8],
    design: &[u8],
    script: &[u8],
    out: &mut K,
) -> Status
    ensures judged { Judges Command.Deltas (ty.now ∷ design.now ∷ script.now ∷ []) (record {
      written = K.written out.old;
      written_after = K.written out.new;
      faults = K.faults out.old;
      faults_after = K.faults out.new;
    }) result }
    ensures later { K.faults out.old ≤ K.faults out.new }
{
    let read = match read_typed_file(alloc, ty, design) {
        Ok(read) => read,
        Err(status) => return status,
    };
    deltas_typed(alloc, &read.ty, &read.file, script, out)
}

/// Runs the design of a file of the type's signature on a script with deltas that is judged good, if the proof is accepted.
fn deltas_typed<K: Sink>(
    alloc: Global,
    ty: &SeqType,
    file: &DesignFile,
    script: &[u8],
    out: &mut K,
) -> Status
    requires agree { signature_of (type_form ty.now) ≡ file.now.design.sig }
    requires few { HasFewCalls file.now.design.sig }
    requires sorted { IsWellSorted (design_form file.now.design) }
    ensures judged { (first second : List ℕ) → IsFileFor first second (type_form ty.now) (file_form file.now)
        → Judges Command.Deltas (first ∷ second ∷ script.now ∷ []) (record {
          written = K.written out.old;
          written_after = K.written out.new;
          faults = K.faults out.old;
          faults_after = K.faults out.new;
        }) result }
    ensures later { K.faults out.old ≤ K.faults out.new }
{
    let script = match read_deltas(alloc, script, &file.design.sig) {
        Ok(script) => script,
        Err(error) => return refused_deltas(2, error),
    };
    ended(deltas_accepted(alloc, ty, file, &script, out))
}
