//! Why a text isn't that of a type.
use std::alloc::AllocError;

/// The first refusal of a text, by its number (1 to 9), and the byte at which it is; or out of memory, which says nothing of the text.
/// `Refused { number: 5, at: 22 }` says that the word at byte 22 is unknown.
#[derive(Clone, Copy, PartialEq, Eq, Debug, thiserror::Error)]
pub enum TypeError {
    #[error("refusal {number} at byte {at}")]
    Refused { number: u8, at: usize },
    #[error("out of memory")]
    Memory,
}

impl From<AllocError> for TypeError {
    ghost use Rattle.std.specs.Prelude.{◌≡◌};
    ghost use Rattle.kat_type.specs.declared.errors.TypeError.TheVariants.{Memory};

    ghost from_gives = { λ _ error. error ≡ Memory };

    fn from(_: AllocError) -> Self {
        TypeError::Memory
    }
}
