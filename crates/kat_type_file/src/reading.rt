//! Type files are read.
ghost use Rattle.std.specs.Prelude.{◌≡◌, IfErr, IfOk};
ghost use Rattle.kat_type.specs.Alike.{HasAlikeRanks};
ghost use Rattle.kat_type.specs.Fits.{IsWellSorted};
ghost use Rattle.kat_type.specs.Types.{type_form};
ghost use Rattle.kat_type.specs.Within.{IsWithinLimits};
ghost use Rattle.kat_type_file.specs.TypeFiles.{IsTypeFile, TellsFileRefusal, type_error};

use crate::typing::type_of;
use kat_grammar::{GrammarError, read_text};
use kat_type::{SeqType, TypeError};
use std::alloc::Global;

/// Reads a type file: the type that it says, or its first refusal, by its number and its byte.
///
/// A fault of tokens comes first, for the whole file (1 a byte that isn't expected, 2 a long word or name, 3 a long
/// number); then 4, a token at which no type goes on, or 9, an expression that is too deep or too large, whichever comes
/// first; then the rules of names, sorts and ranks (5 to 8); and then, as 9, the limits.
pub fn read_type(alloc: Global, bytes: &[u8]) -> Result<SeqType, TypeError>
    ensures says { IfOk result (λ ty. IsTypeFile bytes.now (type_form ty)) }
    ensures sorted { IfOk result (λ ty. IsWellSorted (type_form ty)) }
    ensures limits { IfOk result (λ ty. IsWithinLimits (type_form ty)) }
    ensures ranks { IfOk result (λ ty. HasAlikeRanks (type_form ty)) }
    ensures refused { IfErr result (λ error. TellsFileRefusal bytes.now error) }
{
    match read_text(alloc, bytes) {
        Ok(text) => type_of(alloc, &text),
        Err(error) => Err(type_error(error)),
    }
}

/// A refusal of the grammar by its number.
fn type_error(error: GrammarError) -> TypeError
    ensures { result ≡ type_error error }
{
    match error {
        GrammarError::BadByte(at) => TypeError::Refused { number: 1, at },
        GrammarError::LongName(at) => TypeError::Refused { number: 2, at },
        GrammarError::LongNumber(at) => TypeError::Refused { number: 3, at },
        GrammarError::Syntax(at) => TypeError::Refused { number: 4, at },
        GrammarError::TooLarge(at) => TypeError::Refused { number: 9, at },
        GrammarError::Memory => TypeError::Memory,
    }
}
