//! The file of a proved design.
ghost use Rattle.std.specs.Prelude.{◌≡◌, [], IfOk};
ghost use Rattle.kat_check.specs.Acceptance.{IsAcceptedFile};
ghost use Rattle.kat_check.specs.Migration.{migrated_file};
ghost use Rattle.kat_design.specs.Designs.{design_form};
ghost use Rattle.kat_design.specs.Faults.{faults_of};
ghost use Rattle.kat_design_json.specs.Signatures.{IsSignature};
ghost use Rattle.kat_type.specs.Signatures.{signature_of};
ghost use Rattle.kat_type.specs.Types.{type_form};
ghost use Rattle.kat_wire.specs.FileForms.{HaveNoZero, file_form};
ghost use Rattle.kat_wire.specs.Files.{IsFileText};
ghost use Rattle.kat_wire.specs.Printed.{file_text};

use kat_check::{Migrated, migrate};
use kat_type::SeqType;
use kat_wire::{Cause, DesignFile, write_file};
use std::alloc::{AllocError, Global};

/// The text of an accepted file, with the hints that are found for its lines, and the designs that were passed over before.
pub(crate) fn hinted_text(
    alloc: Global,
    ty: &SeqType,
    file: &DesignFile,
    passed: &[(u64, Cause)],
) -> Result<Vec<u8>, AllocError>
    requires words { IsSignature (signature_of (type_form ty.now)) }
    requires signature { file.now.design.sig ≡ signature_of (type_form ty.now) }
    requires no_faults { faults_of (design_form file.now.design) ≡ [] }
    requires accepted { IsAcceptedFile (type_form ty.now) (file_form file.now) }
    requires literals { HaveNoZero (file_form file.now).proof }
    ensures text { IfOk result (λ text. text.items ≡ file_text (migrated_file (type_form ty.now) (file_form file.now)) passed.now) }
    ensures read { IfOk result (λ text. IsFileText text.items (migrated_file (type_form ty.now) (file_form file.now))) }
{
    let hinted = with_hints(alloc, ty, file)?;
    write_file(alloc, &hinted, passed)
}

/// An accepted file, with the hints that are found for its lines.
fn with_hints(alloc: Global, ty: &SeqType, file: &DesignFile) -> Result<DesignFile, AllocError>
    requires signature { file.now.design.sig ≡ signature_of (type_form ty.now) }
    requires accepted { IsAcceptedFile (type_form ty.now) (file_form file.now) }
    ensures { IfOk result (λ hinted. file_form hinted ≡ migrated_file (type_form ty.now) (file_form file.now)) }
{
    match migrate(alloc, ty, file)? {
        Migrated::Done(hinted) => Ok(hinted),
        Migrated::Refused { .. } => unreachable!(),
    }
}
