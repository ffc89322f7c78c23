//! Why a step isn't done.
use std::alloc::AllocError;

/// The first packet with a gap, by its number from 0; or, after all packets, the first action that can't be done, by its line; or out
/// of memory, which says nothing of either.
#[derive(PartialEq, Debug, Drop)]
pub enum ShareStepError {
    /// Operations are missing from which on the packet tells.
    Gap { packet: u32 },
    /// The time of the action would pass 10^9.
    TooLarge { line: u64 },
    /// The action would make a sum pass 10^18.
    FullState { line: u64 },
    /// Out of memory.
    Memory,
}

impl From<AllocError> for ShareStepError {
    ghost use Rattle.std.specs.Prelude.{◌≡◌};
    ghost use Rattle.kat_share_step.specs.declared.error.ShareStepError.TheVariants.{Memory};

    ghost from_gives = { λ _ error. error ≡ Memory };

    fn from(_: AllocError) -> Self {
        ShareStepError::Memory
    }
}
