//! A design that a person wrote.
ghost use Rattle.std.specs.Prelude.{◌≡◌, ◌≤◌, [], IfOk};
ghost use Rattle.kat_design.specs.Designs.{design_form};
ghost use Rattle.kat_design.specs.Faults.{faults_of};
ghost use Rattle.kat_design_json.specs.Signatures.{IsSignature};
ghost use Rattle.kat_type.specs.Fits.{IsWellSorted};
ghost use Rattle.kat_type.specs.Signatures.{signature_of};
ghost use Rattle.kat_type.specs.Types.{type_form};
ghost use Rattle.kat_type.specs.Within.{IsWithinLimits};
ghost use Rattle.kat_by_hand.specs.Answers.{IsAnswerOf};

use crate::answers::Answer;
use crate::proving::{Proof, prove_design};
use crate::report::{first_difference, push_difference, push_unproved};
use kat_design::Design;
use kat_type::SeqType;
use std::alloc::{AllocError, Global};

/// Proves a design that a person wrote for a type, and gives its file; otherwise a report says why it isn't proved: the first
/// history on which it differs, or the candidates for its relation that were dropped, and where the search gave up.
///
/// The type is one that `read_type` gives. The design passes the sort check, and its signature is the type's, which can be written in a
/// design file.
pub fn prove_by_hand(
    alloc: Global,
    ty: &SeqType,
    design: &Design,
    effort: u32,
) -> Result<Answer, AllocError>
    requires limits { IsWithinLimits (type_form ty.now) }
    requires sorted { IsWellSorted (type_form ty.now) }
    requires signature { IsSignature (signature_of (type_form ty.now)) }
    requires effort { (1 ≤ effort) × (effort ≤ 10_000) }
    requires accepted { faults_of (design_form design.now) ≡ [] }
    requires agrees { signature_of (type_form ty.now) ≡ design.now.sig }
    ensures answer { IfOk result (IsAnswerOf (type_form ty.now) (design_form design.now)) }
{
    let copy = design.copy(alloc)?;
    match prove_design(alloc, ty, copy, effort)? {
        Proof::File(bytes) => Ok(Answer::File(bytes)),
        unproved => {
            let mut text = Vec::new(alloc);
            text.extend_from_slice(b"The design isn't proved.\n")?;
            match first_difference(alloc, ty, design)? {
                Some(history) => push_difference(alloc, ty, &history, &mut text)?,
                None => push_unproved(alloc, ty, design, &unproved, &mut text)?,
            }
            Ok(Answer::Report(text))
        }
    }
}
