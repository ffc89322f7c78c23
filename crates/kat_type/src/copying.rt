//! Copies of lists of plain values.
ghost use Rattle.std.specs.Prelude.{◌≡◌, IfOk};

use kat_num::Items;
use std::alloc::{AllocError, Global};

/// The same elements, in their order.
pub(crate) fn copied<T: Copy>(alloc: Global, items: &[T]) -> Result<Items<T>, AllocError>
    ensures { IfOk result (λ copy. copy ≡ items.now) }
{
    Ok(Items::from_vec(items.iter().copied().collect(alloc)?))
}
