//! Scripts and histories are drawn.
ghost use Rattle.std.specs.Prelude.{◌≡◌, ◌++◌, IfOk, OnOk};
ghost use Rattle.kat_design.specs.Designs.{design_form};
ghost use Rattle.kat_design.specs.Sorted.{IsWellSorted};
ghost use Rattle.kat_people_call.specs.Pictures.{DrewAnswers, DrewScript, DrewTexts, IsAnsweredDrawing, drawn};
ghost use Rattle.kat_people_call.specs.Showing.{DrewCited};
ghost use Rattle.kat_picture.specs.Pictures.{picture_of};
ghost use Rattle.kat_script.specs.Judged.{IsJudged};
ghost use Rattle.kat_script.specs.Rules.{HasFewCalls};
ghost use Rattle.kat_script.specs.Script.{IsScriptText};
ghost use Rattle.kat_type.specs.Signatures.{signature_of};
ghost use Rattle.kat_type.specs.Types.{type_form};
ghost use Rattle.kat_wire.specs.FileForms.{file_form};

use crate::calls::print;
use crate::status::{At, Status, refused_at, refused_design, refused_script, refused_type};
use kat_check::{Checked, check};
use kat_design::Design;
use kat_io::Sink;
use kat_num::Value;
use kat_picture::{Picture, history_script, names_in, picture_of, push_svg, push_text};
use kat_script::{Script, read_script};
use kat_type::{SeqType, Signature};
use kat_type_file::read_type;
use kat_wire::{DesignFile, agrees, read_file};
use kat_world::answers;
use std::alloc::{AllocError, Global};

/// Draws a script without a type, for the signature that its own lines have.
pub(crate) fn draw_script<K: Sink>(alloc: Global, text: &[u8], as_text: bool, out: &mut K) -> Status
    ensures done { result ≡ Status.Done → DrewScript text.now as_text (K.written out.old) (K.written out.new) }
{
    let names = match names_in(alloc, text) {
        Ok(names) => names,
        Err(_) => return Status::Memory,
    };
    let script = match read_script(alloc, text, &names.sig) {
        Ok(script) => script,
        Err(error) => return refused_script(0, error),
    };
    match drawing(
        alloc,
        &names.sig,
        names.words.as_slice(),
        &[],
        &script,
        as_text,
    ) {
        Ok(drawing) => print(alloc, &drawing, out),
        Err(_) => Status::Memory,
    }
}

/// Draws a script with the answers of a design, whose proof has to be accepted for the type.
pub(crate) fn draw_answers<K: Sink>(
    alloc: Global,
    text: &[u8],
    ty: &[u8],
    design: &[u8],
    as_text: bool,
    out: &mut K,
) -> Status
    ensures done { result ≡ Status.Done → DrewTexts ty.now design.now text.now as_text (K.written out.old) (K.written out.new) }
{
    let ty = match read_type(alloc, ty) {
        Ok(ty) => ty,
        Err(error) => return refused_type(1, error),
    };
    let file = match read_file(alloc, design) {
        Ok(file) => file,
        Err(error) => return refused_design(2, error),
    };
    draw_typed(alloc, text, &ty, &file, as_text, out)
}

/// The same for a type and a design that are read.
fn draw_typed<K: Sink>(
    alloc: Global,
    text: &[u8],
    ty: &SeqType,
    file: &DesignFile,
    as_text: bool,
    out: &mut K,
) -> Status
    requires sorted { IsWellSorted (design_form file.now.design) }
    requires few { HasFewCalls file.now.design.sig }
    ensures done { result ≡ Status.Done → DrewAnswers (type_form ty.now) (file_form file.now) text.now as_text (K.written out.old)
        (K.written out.new) }
{
    if !agrees(ty, &file.design) {
        return refused_at(2, 16, At::Signature);
    }
    match read_script(alloc, text, &file.design.sig) {
        Ok(script) => draw_checked(alloc, text, ty, file, &script, as_text, out),
        Err(error) => refused_script(0, error),
    }
}

/// The same for a script that is read too: the proof is checked, and then the picture is drawn.
fn draw_checked<K: Sink>(
    alloc: Global,
    text: &[u8],
    ty: &SeqType,
    file: &DesignFile,
    script: &Script,
    as_text: bool,
    out: &mut K,
) -> Status
    requires sorted { IsWellSorted (design_form file.now.design) }
    requires agrees { signature_of (type_form ty.now) ≡ file.now.design.sig }
    requires script { IsScriptText file.now.design.sig text.now script.now }
    ensures done { result ≡ Status.Done → DrewAnswers (type_form ty.now) (file_form file.now) text.now as_text (K.written out.old)
        (K.written out.new) }
{
    match check(alloc, ty, file) {
        Ok(Checked::Accepted) => {
            match answered_drawing(alloc, text, &file.design, script, as_text) {
                Ok(drawing) => print(alloc, &drawing, out),
                Err(_) => Status::Memory,
            }
        }
        Ok(Checked::Refused { condition, line }) => Status::ProofRefused { condition, line },
        Err(_) => Status::Memory,
    }
}

/// Draws a history that a report cites.
pub(crate) fn draw_history<K: Sink>(
    alloc: Global,
    report: &[u8],
    number: &str,
    as_text: bool,
    out: &mut K,
) -> Status
    ensures done { result ≡ Status.Done → DrewCited report.now number.now as_text (K.written out.old) (K.written out.new) }
{
    match history_script(alloc, report, number.as_bytes()) {
        Ok(Some(script)) => draw_script(alloc, &script, as_text, out),
        Ok(None) => Status::NoHistory { file: 0 },
        Err(_) => Status::Memory,
    }
}

/// The drawing of a script with the answers of a design.
fn answered_drawing(
    alloc: Global,
    text: &[u8],
    design: &Design,
    script: &Script,
    as_text: bool,
) -> Result<Vec<u8>, AllocError>
    requires sorted { IsWellSorted (design_form design.now) }
    requires judged { IsJudged design.now.sig script.now }
    ensures { IfOk result (λ drawing. IsAnsweredDrawing (design_form design.now) script.now as_text drawing.items) }
{
    let names = names_in(alloc, text)?;
    let answers = answers(alloc, design, script)?;
    drawing(
        alloc,
        &design.sig,
        names.words.as_slice(),
        &answers,
        script,
        as_text,
    )
}

/// The drawing of a script.
fn drawing(
    alloc: Global,
    sig: &Signature,
    words: &[u128],
    answers: &[Value],
    script: &Script,
    as_text: bool,
) -> Result<Vec<u8>, AllocError>
    ensures { IfOk result (λ text. text.items ≡ drawn as_text (picture_of sig.now words.now answers.now script.now)) }
{
    let picture = picture_of(alloc, sig, words, answers, script)?;
    let mut text = Vec::new(alloc);
    push_drawing(alloc, &picture, as_text, &mut text)?;
    Ok(text)
}

/// Appends the drawing of a picture.
fn push_drawing(
    alloc: Global,
    picture: &Picture,
    as_text: bool,
    into: &mut Vec<u8>,
) -> Result<(), AllocError>
    ensures { OnOk result (into.new.items ≡ into.old.items ++ drawn as_text picture.now) }
{
    if as_text {
        push_text(alloc, picture, into)
    } else {
        push_svg(picture, into)
    }
}
