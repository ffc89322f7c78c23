//! A part as a type of its own.
ghost use Rattle.std.specs.Prelude.{ℕ, List, IfOk, IfSome};
ghost use Rattle.kat_type.specs.Fits.{IsWellSorted};
ghost use Rattle.kat_type.specs.Types.{type_form};
ghost use Rattle.kat_type.specs.Within.{IsWithinLimits};
ghost use Rattle.kat_type_file.specs.TypeFiles.{IsTypeFile};

use crate::parts::Part;
use crate::texts::{part_text, whole_text};
use kat_type::{SeqType, TypeError};
use kat_type_file::read_type;
use std::alloc::{AllocError, Global};

/// The type of a part, read from its text: with its fields, its operations, of what they assign what is in the part, and its
/// queries. There is none if the text is refused, as for an expression of very many operators, each of which is a level there.
pub fn part_type(alloc: Global, ty: &SeqType, part: &Part) -> Result<Option<SeqType>, AllocError>
    ensures says { IfOk result (λ found. IfSome found (λ own. (text : List ℕ) × IsTypeFile text (type_form own))) }
    ensures sorted { IfOk result (λ found. IfSome found (λ own. IsWellSorted (type_form own))) }
    ensures limits { IfOk result (λ found. IfSome found (λ own. IsWithinLimits (type_form own))) }
{
    let text = part_text(alloc, ty, part)?;
    read_text(alloc, &text)
}

/// The text of a type that has further lines at its end.
pub fn extended_text(alloc: Global, ty: &SeqType, lines: &[u8]) -> Result<Vec<u8>, AllocError> {
    let mut text = whole_text(alloc, ty)?;
    text.extend_from_slice(lines)?;
    Ok(text)
}

/// The type with further lines at its end, read from its text; there is none if the text is refused.
pub fn extended_type(
    alloc: Global,
    ty: &SeqType,
    lines: &[u8],
) -> Result<Option<SeqType>, AllocError>
    ensures says { IfOk result (λ found. IfSome found (λ own. (text : List ℕ) × IsTypeFile text (type_form own))) }
    ensures sorted { IfOk result (λ found. IfSome found (λ own. IsWellSorted (type_form own))) }
    ensures limits { IfOk result (λ found. IfSome found (λ own. IsWithinLimits (type_form own))) }
{
    let text = extended_text(alloc, ty, lines)?;
    read_text(alloc, &text)
}

/// The type that a text says, unless the text is refused.
fn read_text(alloc: Global, text: &[u8]) -> Result<Option<SeqType>, AllocError>
    ensures says { IfOk result (λ found. IfSome found (λ own. (text : List ℕ) × IsTypeFile text (type_form own))) }
    ensures sorted { IfOk result (λ found. IfSome found (λ own. IsWellSorted (type_form own))) }
    ensures limits { IfOk result (λ found. IfSome found (λ own. IsWithinLimits (type_form own))) }
{
    match read_type(alloc, text) {
        Ok(own) => Ok(Some(own)),
        Err(TypeError::Refused { .. }) => Ok(None),
        Err(TypeError::Memory) => Err(AllocError),
    }
}
