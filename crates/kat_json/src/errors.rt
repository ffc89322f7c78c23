//! Why a design file is refused.
ghost use Rattle.std.specs.Prelude.{◌≡◌};

use kat_num::Items;
use std::alloc::{AllocError, AllocFailed};

/// The first refusal of a design file, or out of memory, which says nothing of the file. A place is the list of indices
/// that lead to it: 3, 0, 1 is the second component.
#[derive(PartialEq, Debug, Drop)]
pub enum WireError {
    /// The bytes are no JSON.
    Json,
    /// The first place that doesn't have the form of a design file; no index if the file doesn't begin with `"katara"`.
    Form(Items<u32>),
    /// The version is neither 1 nor 2.
    Version,
    /// The first place that breaks a rule of designs.
    BadDesign(Items<u32>),
    /// Out of memory.
    Memory,
}

impl From<AllocError> for WireError {
    ghost use Rattle.std.specs.Prelude.{◌≡◌};
    ghost use Rattle.kat_json.specs.declared.errors.WireError.TheVariants.{Memory};

    ghost from_gives = { λ _ error. error ≡ Memory };

    fn from(_: AllocError) -> Self {
        WireError::Memory
    }
}

impl<T: Drop> From<AllocFailed<T>> for WireError {
    ghost use Rattle.std.specs.Prelude.{◌≡◌};
    ghost use Rattle.kat_json.specs.declared.errors.WireError.TheVariants.{Memory};

    ghost from_gives = { λ _ error. error ≡ Memory };

    fn from(_: AllocFailed<T>) -> Self {
        WireError::Memory
    }
}
