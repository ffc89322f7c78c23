//! Why actions are refused.
use std::alloc::{AllocError, AllocFailed};
use thiserror::Error;

/// The first action that a node can't do, by its line, or out of memory, which says nothing of the actions.
#[derive(PartialEq, Debug, Drop, Error)]
pub enum StepError {
    /// Its time would pass 10^9.
    #[error("too large at line {line}")]
    TooLarge { line: u64 },
    /// It would make a sum pass 10^18.
    #[error("full state at line {line}")]
    FullState { line: u64 },
    #[error("out of memory")]
    Memory,
}

impl From<AllocError> for StepError {
    ghost use Rattle.std.specs.Prelude.{◌≡◌};
    ghost use Rattle.kat_step.specs.declared.error.StepError.TheVariants.{Memory};

    ghost from_gives = { λ _ error. error ≡ Memory };

    fn from(_: AllocError) -> Self {
        StepError::Memory
    }
}

impl<T: Drop> From<AllocFailed<T>> for StepError {
    ghost use Rattle.std.specs.Prelude.{◌≡◌};
    ghost use Rattle.kat_step.specs.declared.error.StepError.TheVariants.{Memory};

    ghost from_gives = { λ _ error. error ≡ Memory };

    fn from(_: AllocFailed<T>) -> Self {
        StepError::Memory
    }
}
