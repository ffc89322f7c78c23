//! `migrate TYPE DESIGN`: a design file with an accepted proof is written in version 2.
ghost use Rattle.std.specs.Prelude.{◌≡◌, ℕ, ◌≤◌, List, ◌∷◌, []};
ghost use Rattle.kat_design.specs.Designs.{design_form};
ghost use Rattle.kat_design.specs.Faults.{faults_of};
ghost use Rattle.kat_design_json.specs.Signatures.{IsSignature};
ghost use Rattle.kat_type.specs.Signatures.{signature_of};
ghost use Rattle.kat_type.specs.Types.{type_form};
ghost use Rattle.kat_wire.specs.FileForms.{AreOfVersion, HaveNoZero, file_form};
ghost use Rattle.kat_wire.specs.Printed.{file_text};
ghost use Rattle.kat_cli.specs.CheckCommand.{IsFileFor};
ghost use Rattle.kat_cli.specs.Ending.{Judges, WritesShort};
ghost use Rattle.kat_cli.specs.Refusals.{long_result};

use crate::printing::print;
use crate::reading::FILE_LIMIT;
use crate::status::{At, Refusal, Status};
use crate::typed_files::read_typed_file;
use kat_check::{Migrated, migrate};
use kat_io::Sink;
use kat_type::SeqType;
use kat_wire::{DesignFile, write_file};
use kat_words::Command;
use std::alloc::Global;

/// Judges the type and then the design, which must have the type's signature, and writes the file with the hints of its lines. A
/// file that would be longer than a file may be is refused.
pub(crate) fn judge_migrate<K: Sink>(alloc: Global, ty: &[u8], design: &[u8], out: &mut K) -> Status
    ensures judged { Judges Command.Migrate (ty.now ∷ design.now ∷ []) (record {
      written = K.written out.old;
      written_after = K.written out.new;
      faults = K.faults out.old;
      faults_after = K.faults out.new;
    }) result }
    ensures later { K.faults out.old ≤ K.faults out.new }
{
    let read = match read_typed_file(alloc, ty, design) {
        Ok(read) => read,
        Err(status) => return status,
    };
    migrate_typed(alloc, &read.ty, &read.file, out)
}

/// Writes a file of the type's signature in version 2, if its proof is accepted.
fn migrate_typed<K: Sink>(alloc: Global, ty: &SeqType, file: &DesignFile, out: &mut K) -> Status
    requires agree { signature_of (type_form ty.now) ≡ file.now.design.sig }
    requires signature { IsSignature file.now.design.sig }
    requires accepted { faults_of (design_form file.now.design) ≡ [] }
    requires literals { HaveNoZero (file_form file.now).proof }
    ensures judged { (first second : List ℕ) → IsFileFor first second (type_form ty.now) (file_form file.now)
        → Judges Command.Migrate (first ∷ second ∷ []) (record {
          written = K.written out.old;
          written_after = K.written out.new;
          faults = K.faults out.old;
          faults_after = K.faults out.new;
        }) result }
    ensures later { K.faults out.old ≤ K.faults out.new }
{
    match migrate(alloc, ty, file) {
        Ok(Migrated::Done(file)) => write_migrated(alloc, &file, out),
        Ok(Migrated::Refused { condition, line }) => Status::ProofRefused { condition, line },
        Err(_) => Status::Memory,
    }
}

/// Writes a file of version 2, unless its text is too long.
fn write_migrated<K: Sink>(alloc: Global, file: &DesignFile, out: &mut K) -> Status
    requires signature { IsSignature file.now.design.sig }
    requires accepted { faults_of (design_form file.now.design) ≡ [] }
    requires literals { HaveNoZero (file_form file.now).proof }
    requires version { file.now.version ≡ 2 }
    requires lines { AreOfVersion 2 (file_form file.now).proof }
    ensures writes { WritesShort (file_text (file_form file.now) []) (record {
      written = K.written out.old;
      written_after = K.written out.new;
      faults = K.faults out.old;
      faults_after = K.faults out.new;
    }) result }
    ensures later { K.faults out.old ≤ K.faults out.new }
{
    let text = match write_file(alloc, file, &[]) {
        Ok(text) => text,
        Err(_) => return Status::Memory,
    };
    if text.len() > FILE_LIMIT {
        return long_result();
    }
    print(alloc, &text, Status::Done, out)
}

/// The design file is refused, since what would be written of it is too long.
fn long_result() -> Status
    ensures { result ≡ Status.Refused 1 long_result }
{
    Status::Refused {
        file: 1,
        refusal: Refusal {
            number: 22,
            at: At::Length,
        },
    }
}
