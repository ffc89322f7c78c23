//! Why there is no guess.
ghost use Rattle.std.specs.Prelude.{◌≡◌};

use std::alloc::{AllocError, Global};

/// No rule fits; or out of memory, which tells nothing of the type.
#[derive(Debug, PartialEq, Eq, Drop, thiserror::Error)]
pub enum Miss {
    #[error("no rule fits")]
    NoRule,
    #[error("out of memory")]
    Memory,
}

impl From<AllocError> for Miss {
    ghost use Rattle.std.specs.Prelude.{◌≡◌};
    ghost use Rattle.kat_reading.specs.declared.misses.Miss.TheVariants.{Memory};

    ghost from_gives = { λ _ error. error ≡ Memory };

    fn from(_: AllocError) -> Self {
        Miss::Memory
    }
}

/// Puts an element after the others.
pub fn push<T: Drop>(into: &mut Vec<T>, item: T) -> Result<(), AllocError> {
    into.push(item)?;
    Ok(())
}

/// A value with memory of its own.
pub fn boxed<T: Drop>(alloc: Global, item: T) -> Result<Box<T>, AllocError> {
    Ok(Box::new(alloc, item)?)
}

/// A number of elements, or the greatest number that there is.
pub fn number_of(count: usize) -> u32 {
    u32::try_from(count).unwrap_or(u32::MAX)
}
