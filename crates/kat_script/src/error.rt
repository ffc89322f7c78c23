//! Refusals of scripts.

ghost use Rattle.std.specs.Prelude.{◌≡◌};

use kat_lex::LexError;
use std::alloc::{AllocError, AllocFailed};
use thiserror::Error;

/// Why a text is no script for a signature. Lines are counted over all lines of the text, from 1.
#[derive(Debug, Drop, Error)]
pub enum ScriptError {
    /// A fault of tokens, by its number (1 a byte that isn't expected, 2 a long name, 3 a long number)
    /// and the place of a byte.
    #[error("refusal {number} at byte {at}")]
    Refused { number: u8, at: usize },
    /// The first rule that the line breaks, by its number: 10 syntax, 11 no such replica, 12 no such
    /// packet, 14 a bad call, 15 past a limit.
    #[error("refusal {number} at line {line}")]
    Line { number: u8, line: u64 },
    /// The line's time doesn't exceed the replica's clock.
    #[error("late at line {line} with clock {clock}")]
    Late { line: u64, clock: u64 },
    #[error("out of memory")]
    Memory,
}

impl From<AllocError> for ScriptError {
    ghost use Rattle.kat_script.specs.declared.error.ScriptError.TheVariants.{Memory};

    ghost from_gives = { λ _ error. error ≡ Memory };

    fn from(_: AllocError) -> Self {
        ScriptError::Memory
    }
}

impl<T: Drop> From<AllocFailed<T>> for ScriptError {
    ghost use Rattle.kat_script.specs.declared.error.ScriptError.TheVariants.{Memory};

    ghost from_gives = { λ _ error. error ≡ Memory };

    fn from(_: AllocFailed<T>) -> Self {
        ScriptError::Memory
    }
}

impl From<LexError> for ScriptError {
    ghost use Rattle.kat_script.specs.Faults.{refusal_of_fault};

    ghost from_gives = { λ fault error. error ≡ refusal_of_fault fault };

    fn from(fault: LexError) -> Self {
        match fault {
            LexError::BadByte(at) => ScriptError::Refused { number: 1, at },
            LexError::LongName(at) => ScriptError::Refused { number: 2, at },
            LexError::LongNumber(at) => ScriptError::Refused { number: 3, at },
            LexError::Memory => ScriptError::Memory,
        }
    }
}
