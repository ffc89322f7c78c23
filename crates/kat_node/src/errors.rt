//! Why a state file is refused.
use kat_num::Items;
use std::alloc::{AllocError, AllocFailed};

/// The first refusal of a state file, or out of memory, which says nothing of the file. A place is the list of indices
/// that lead to it: 4, 0, 1 is the second value in the part of the first component.
#[derive(PartialEq, Debug, Drop)]
pub enum NodeError {
    /// The bytes are no JSON.
    Json,
    /// The first place that doesn't have the form of a state file; no index if the file doesn't begin with `"state"`.
    Form(Items<u32>),
    /// The version isn't 1.
    Version,
    /// The first place that can't be that of a replica of the design.
    BadState(Items<u32>),
    /// Out of memory.
    Memory,
}

impl From<AllocError> for NodeError {
    ghost use Rattle.std.specs.Prelude.{◌≡◌};
    ghost use Rattle.kat_node.specs.declared.errors.NodeError.TheVariants.{Memory};

    ghost from_gives = { λ _ error. error ≡ Memory };

    fn from(_: AllocError) -> Self {
        NodeError::Memory
    }
}

impl<T: Drop> From<AllocFailed<T>> for NodeError {
    ghost use Rattle.std.specs.Prelude.{◌≡◌};
    ghost use Rattle.kat_node.specs.declared.errors.NodeError.TheVariants.{Memory};

    ghost from_gives = { λ _ error. error ≡ Memory };

    fn from(_: AllocFailed<T>) -> Self {
        NodeError::Memory
    }
}
