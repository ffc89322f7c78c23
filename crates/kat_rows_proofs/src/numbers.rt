//! Numbers in rows of proofs, histories and listings.
ghost use Rattle.std.specs.Prelude.{◌≤◌};

use kat_table::push_number;
use std::alloc::{AllocError, Global};

/// The greatest size of a listing: a number from 1 to 24, or the nearest one that is.
pub(crate) fn size(number: u32) -> u32
    ensures { (1 ≤ result) × (result ≤ 24) }
{
    if number < 1 {
        1
    } else if number > 24 {
        24
    } else {
        number
    }
}

/// A number as text.
pub(crate) fn number_text(alloc: Global, number: u64) -> Result<Vec<u8>, AllocError> {
    let mut text = Vec::new(alloc);
    push_number(&mut text, "", number)?;
    Ok(text)
}
