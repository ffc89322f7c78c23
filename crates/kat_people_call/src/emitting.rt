//! Designs are written as code.
ghost use Rattle.std.specs.Prelude.{◌≡◌};
ghost use Rattle.kat_design.specs.Designs.{design_form};
ghost use Rattle.kat_design.specs.Sorted.{IsWellSorted};
ghost use Rattle.kat_people_call.specs.Emissions.{Emitted, EmittedTexts};
ghost use Rattle.kat_script.specs.Rules.{HasFewCalls};
ghost use Rattle.kat_type.specs.Signatures.{signature_of};
ghost use Rattle.kat_type.specs.Types.{type_form};
ghost use Rattle.kat_wire.specs.FileForms.{file_form};

use crate::calls::print;
use crate::status::{At, Status, refused_at, refused_design, refused_type};
use kat_check::{Checked, check};
use kat_emit_tests::package;
use kat_emit_text::{Language, emitted};
use kat_io::Sink;
use kat_type::SeqType;
use kat_type_file::read_type;
use kat_wire::{DesignFile, agrees, read_file};
use std::alloc::{AllocError, Global};

/// In which language code is written, and whether as a package of files.
#[derive(Clone, Copy)]
pub(crate) struct CodeForm {
    pub(crate) language: Language,
    pub(crate) as_package: bool,
}

/// Writes the design of a file as code of a language, if its proof is accepted for the type.
pub(crate) fn emit_texts<K: Sink>(
    alloc: Global,
    text: &[u8],
    design: &[u8],
    form: CodeForm,
    out: &mut K,
) -> Status
    ensures done { result ≡ Status.Done → EmittedTexts text.now design.now (K.written out.old) (K.written out.new) }
{
    let ty = match read_type(alloc, text) {
        Ok(ty) => ty,
        Err(error) => return refused_type(0, error),
    };
    let file = match read_file(alloc, design) {
        Ok(file) => file,
        Err(error) => return refused_design(1, error),
    };
    emit_typed(alloc, text, &ty, &file, form, out)
}

/// The same for a type and a design that are read.
fn emit_typed<'a, K: Sink>(
    alloc: Global,
    text: &[u8],
    ty: &'a SeqType,
    file: &'a DesignFile,
    form: CodeForm,
    out: &mut K,
) -> Status
    requires sorted { IsWellSorted (design_form file.now.design) }
    requires few { HasFewCalls file.now.design.sig }
    ensures done { result ≡ Status.Done → Emitted (type_form ty.now) (file_form file.now) (K.written out.old) (K.written out.new) }
{
    if !agrees(ty, &file.design) {
        return refused_at(1, 16, At::Signature);
    }
    emit_agreed(alloc, text, ty, file, form, out)
}

/// The same for a design of the type's signature: the proof is checked, and then the code is written.
fn emit_agreed<'a, K: Sink>(
    alloc: Global,
    text: &[u8],
    ty: &'a SeqType,
    file: &'a DesignFile,
    form: CodeForm,
    out: &mut K,
) -> Status
    requires agrees { signature_of (type_form ty.now) ≡ file.now.design.sig }
    requires sorted { IsWellSorted (design_form file.now.design) }
    requires few { HasFewCalls file.now.design.sig }
    ensures done { result ≡ Status.Done → Emitted (type_form ty.now) (file_form file.now) (K.written out.old) (K.written out.new) }
{
    match check(alloc, ty, file) {
        Ok(Checked::Accepted) => {
            // a text that isn't UTF-8 is so in its comments alone, and gives none
            let words = str::from_utf8(text).unwrap_or("");
            match code_text(alloc, words, ty, file, form) {
                Ok(code) => print(alloc, code.as_bytes(), out),
                Err(_) => Status::Memory,
            }
        }
        Ok(Checked::Refused { condition, line }) => Status::ProofRefused { condition, line },
        Err(_) => Status::Memory,
    }
}

/// The code of a design, or all files of its package.
fn code_text<'a>(
    alloc: Global,
    text: &str,
    ty: &'a SeqType,
    file: &'a DesignFile,
    form: CodeForm,
) -> Result<String, AllocError>
    requires sorted { IsWellSorted (design_form file.now.design) }
    requires few { HasFewCalls file.now.design.sig }
{
    let (design, relation) = (&file.design, &file.relation);
    if form.as_package {
        package(alloc, form.language, text, ty, design, relation)
    } else {
        emitted(alloc, form.language, text, ty, design, relation)
    }
}
