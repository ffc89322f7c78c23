//! Refusals of scripts with deltas.

ghost use Rattle.std.specs.Prelude.{◌≡◌};

use kat_lex::LexError;
use kat_script::ScriptError;
use std::alloc::{AllocError, AllocFailed};
use thiserror::Error;

/// Why a text is no script with deltas for a signature. Lines are counted over all lines of the text, from 1.
#[derive(Debug, Drop, Error)]
pub enum DeltaScriptError {
    /// A refusal that scripts without deltas have too; a delta is judged there as a line that ships.
    #[error("{0}")]
    Script(ScriptError),
    /// The delta is from more operations than its replica did so far.
    #[error("no such count at line {line}")]
    NoCount {
        line: u64,
    },
    /// The delta is delivered to a replica that absorbed `have` operations of its origin, fewer than the `need` that it is
    /// from.
    #[error("gap at line {line}: of replica {origin} it has {have} operations and needs {need}")]
    Gap {
        line: u64,
        origin: u32,
        have: u64,
        need: u64,
    },
}

impl From<AllocError> for DeltaScriptError {
    ghost use Rattle.kat_delta_script.specs.declared.error.DeltaScriptError.TheVariants.{Script};
    ghost use Rattle.kat_script.specs.declared.error.ScriptError.TheVariants.{Memory};

    ghost from_gives = { λ _ error. error ≡ Script Memory };

    fn from(_: AllocError) -> Self {
        DeltaScriptError::Script(ScriptError::Memory)
    }
}

impl<T: Drop> From<AllocFailed<T>> for DeltaScriptError {
    ghost use Rattle.kat_delta_script.specs.declared.error.DeltaScriptError.TheVariants.{Script};
    ghost use Rattle.kat_script.specs.declared.error.ScriptError.TheVariants.{Memory};

    ghost from_gives = { λ _ error. error ≡ Script Memory };

    fn from(_: AllocFailed<T>) -> Self {
        DeltaScriptError::Script(ScriptError::Memory)
    }
}

impl From<LexError> for DeltaScriptError {
    ghost use Rattle.kat_delta_script.specs.declared.error.DeltaScriptError.TheVariants.{Script};
    ghost use Rattle.kat_script.specs.Faults.{refusal_of_fault};

    ghost from_gives = { λ fault error. error ≡ Script (refusal_of_fault fault) };

    fn from(fault: LexError) -> Self {
        DeltaScriptError::Script(ScriptError::from(fault))
    }
}
