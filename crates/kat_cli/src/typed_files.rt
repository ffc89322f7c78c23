//! A type file and a design file after it, as several commands read them.
ghost use Rattle.std.specs.Prelude.{◌≡◌, [], IfErr, IfOk};
ghost use Rattle.kat_design.specs.Designs.{design_form};
ghost use Rattle.kat_design.specs.Faults.{faults_of};
ghost use Rattle.kat_design_json.specs.Signatures.{IsSignature};
ghost use Rattle.kat_type.specs.Types.{type_form};
ghost use Rattle.kat_wire.specs.FileForms.{HaveNoZero, file_form};
ghost use Rattle.kat_cli.specs.CheckCommand.{IsFileFor};
ghost use Rattle.kat_cli.specs.Ending.{FailsToPass};

use crate::commands::{refused_design, refused_signature, refused_type};
use crate::status::Status;
use kat_type::SeqType;
use kat_type_file::read_type;
use kat_wire::{DesignFile, agrees, read_file};
use std::alloc::Global;

/// A sequential type, and a design file of its signature.
pub(crate) struct TypedFile {
    pub ty: SeqType,
    pub file: DesignFile,
}

impl Drop for TypedFile {
    fn drop(self) {
        let Self { ty: _, file: _ } = self;
    }
}

/// Judges a type file and then a design file, which must have the type's signature. If one of them isn't judged good, it says
/// how the call ends.
pub(crate) fn read_typed_file(alloc: Global, ty: &[u8], design: &[u8]) -> Result<TypedFile, Status>
    ensures files { IfOk result (λ read. IsFileFor ty.now design.now (type_form read.ty) (file_form read.file)) }
    ensures refused { IfErr result (FailsToPass ty.now design.now) }
    ensures signature { IfOk result (λ read. IsSignature read.file.design.sig) }
    ensures accepted { IfOk result (λ read. faults_of (design_form read.file.design) ≡ []) }
    ensures literals { IfOk result (λ read. HaveNoZero (file_form read.file).proof) }
{
    let ty = match read_type(alloc, ty) {
        Ok(ty) => ty,
        Err(error) => return Err(refused_type(0, error)),
    };
    let file = match read_file(alloc, design) {
        Ok(file) => file,
        Err(error) => return Err(refused_design(alloc, 1, error)),
    };
    if !agrees(&ty, &file.design) {
        return Err(refused_signature(alloc, 1));
    }
    Ok(TypedFile { ty, file })
}
