//! Designs are explained.
ghost use Rattle.std.specs.Prelude.{◌≡◌, IfOk};
ghost use Rattle.kat_explain.specs.Pages.{explanation};
ghost use Rattle.kat_people_call.specs.Explanations.{Explained, ExplainedTexts};
ghost use Rattle.kat_type.specs.Signatures.{signature_of};
ghost use Rattle.kat_type.specs.Types.{type_form};
ghost use Rattle.kat_wire.specs.FileForms.{file_form};

use crate::calls::print;
use crate::status::{At, Status, refused_at, refused_design, refused_type};
use kat_check::{Checked, check};
use kat_explain::{passed_over, push_explanation};
use kat_io::Sink;
use kat_num::Items;
use kat_type::SeqType;
use kat_type_file::read_type;
use kat_wire::{DesignFile, agrees, read_file};
use std::alloc::{AllocError, Global};

/// Explains the design of a file for a type, as a plain text or as a page of Markdown.
pub(crate) fn explain_texts<K: Sink>(
    alloc: Global,
    ty: &[u8],
    design: &[u8],
    as_markdown: bool,
    out: &mut K,
) -> Status
    ensures done { result ≡ Status.Done → ExplainedTexts ty.now design.now as_markdown (K.written out.old) (K.written out.new) }
{
    let ty = match read_type(alloc, ty) {
        Ok(ty) => ty,
        Err(error) => return refused_type(0, error),
    };
    let file = match read_file(alloc, design) {
        Ok(file) => file,
        Err(error) => return refused_design(1, error),
    };
    match passed_over(alloc, design) {
        Ok(passed) => explain_typed(alloc, &ty, &file, &passed, as_markdown, out),
        Err(_) => Status::Memory,
    }
}

/// The same for a type and a design that are read.
fn explain_typed<K: Sink>(
    alloc: Global,
    ty: &SeqType,
    file: &DesignFile,
    passed: &[Items<u8>],
    as_markdown: bool,
    out: &mut K,
) -> Status
    ensures done { result ≡ Status.Done → Explained (type_form ty.now) (file_form file.now) passed.now as_markdown (K.written out.old)
        (K.written out.new) }
{
    if !agrees(ty, &file.design) {
        return refused_at(1, 16, At::Signature);
    }
    explain_agreed(alloc, ty, file, passed, as_markdown, out)
}

/// The same for a design of the type's signature: the proof is checked, and the text says what came of that.
fn explain_agreed<K: Sink>(
    alloc: Global,
    ty: &SeqType,
    file: &DesignFile,
    passed: &[Items<u8>],
    as_markdown: bool,
    out: &mut K,
) -> Status
    requires agrees { signature_of (type_form ty.now) ≡ file.now.design.sig }
    ensures done { result ≡ Status.Done → Explained (type_form ty.now) (file_form file.now) passed.now as_markdown (K.written out.old)
        (K.written out.new) }
{
    match check(alloc, ty, file) {
        Ok(checked) => match explained(alloc, as_markdown, ty, file, passed, checked) {
            Ok(text) => print(alloc, &text, out),
            Err(_) => Status::Memory,
        },
        Err(_) => Status::Memory,
    }
}

/// The explanation.
fn explained(
    alloc: Global,
    as_markdown: bool,
    ty: &SeqType,
    file: &DesignFile,
    passed: &[Items<u8>],
    checked: Checked,
) -> Result<Vec<u8>, AllocError>
    ensures { IfOk result (λ text. text.items ≡ explanation as_markdown (type_form ty.now) (file_form file.now) passed.now checked) }
{
    let mut text = Vec::new(alloc);
    push_explanation(alloc, as_markdown, ty, file, passed, checked, &mut text)?;
    Ok(text)
}
