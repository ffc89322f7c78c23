//! Designs that are accepted for a type.
ghost use Rattle.std.specs.Prelude.{◌≡◌, IfErr, IfOk, OnOk};
ghost use Rattle.kat_check.specs.Acceptance.{IsAcceptedFile};
ghost use Rattle.kat_type.specs.Signatures.{signature_of};
ghost use Rattle.kat_type.specs.Types.{type_form};
ghost use Rattle.kat_wire.specs.FileForms.{file_form};
ghost use Rattle.kat_embed.specs.Accepting.{AreTexts, IsFaultOf, IsUnaccepted, refused_type};

use crate::errors::AcceptError;
use kat_check::{Checked, check};
use kat_type::{SeqType, TypeError};
use kat_type_file::read_type;
use kat_wire::{DesignFile, WireError, agrees, read_file};
use std::alloc::Global;

/// A type, and a design file of its signature.
#[derive(Drop)]
pub(crate) struct Typed {
    pub ty: SeqType,
    pub file: DesignFile,
}

/// Reads a type file, and then a design file, which must have the type's signature.
pub(crate) fn read_typed(alloc: Global, ty: &[u8], design: &[u8]) -> Result<Typed, AcceptError>
    ensures texts { IfOk result (λ read. AreTexts ty.now design.now (type_form read.ty) (file_form read.file)) }
    ensures refused { IfErr result (IsUnaccepted ty.now design.now) }
{
    let ty = match read_type(alloc, ty) {
        Ok(ty) => ty,
        Err(error) => return Err(refused_type(error)),
    };
    let file = match read_file(alloc, design) {
        Ok(file) => file,
        Err(WireError::Memory) => return Err(AcceptError::Memory),
        Err(error) => return Err(AcceptError::BadDesign(error)),
    };
    if !agrees(&ty, &file.design) {
        return Err(AcceptError::OtherSignature);
    }
    Ok(Typed { ty, file })
}

/// How a type file is refused.
fn refused_type(error: TypeError) -> AcceptError
    ensures { result ≡ refused_type error }
{
    match error {
        TypeError::Refused { number, at } => AcceptError::BadType { number, at },
        TypeError::Memory => AcceptError::Memory,
    }
}

/// Checks the proof of a design file.
pub(crate) fn accept(alloc: Global, read: &Typed) -> Result<(), AcceptError>
    requires { signature_of (type_form read.now.ty) ≡ (file_form read.now.file).design.sig }
    ensures accepted { OnOk result (IsAcceptedFile (type_form read.now.ty) (file_form read.now.file)) }
    ensures refused { IfErr result (IsFaultOf (type_form read.now.ty) (file_form read.now.file)) }
{
    match check(alloc, &read.ty, &read.file)? {
        Checked::Accepted => Ok(()),
        Checked::Refused { condition, line } => Err(AcceptError::BadProof { condition, line }),
    }
}
