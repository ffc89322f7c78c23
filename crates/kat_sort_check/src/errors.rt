//! Why a design is refused.
ghost use Rattle.std.specs.Prelude.{◌≡◌};

use kat_num::Items;
use std::alloc::AllocError;

/// The first wrong place of a design, as the indices that lead to it in the design's file; or out of memory, which says nothing of the
/// design. `BadDesign` with 3, 0, 1 is the second component.
#[derive(PartialEq, Debug, Drop, thiserror::Error)]
pub enum DesignError {
    #[error("bad design")]
    BadDesign(Items<u32>),
    #[error("out of memory")]
    Memory,
}

impl From<AllocError> for DesignError {
    ghost use Rattle.std.specs.Prelude.{◌≡◌};
    ghost use Rattle.kat_sort_check.specs.declared.errors.DesignError.TheVariants.{Memory};

    ghost from_gives = { λ _ error. error ≡ Memory };

    fn from(_: AllocError) -> Self {
        DesignError::Memory
    }
}
