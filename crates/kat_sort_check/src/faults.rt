//! Places of a design that break a rule: a place is the list of indices that lead to it, from the outside.
ghost use Rattle.std.specs.Prelude.{◌≡◌, [], ◌∷◌, IfOk};
ghost use Rattle.kat_design.specs.Faults.{first_of, here_if};
ghost use Rattle.kat_sort_check.specs.Places.{earlier, placed};

use kat_num::Items;
use std::alloc::{AllocError, Global};

/// A fault at this very place, if this is so.
pub(crate) fn here_if(alloc: Global, broken: bool) -> Option<Items<u32>>
    ensures { result ≡ first_of (here_if broken) }
{
    if broken {
        Some(Items::from_vec(Vec::new(alloc)))
    } else {
        None
    }
}

/// The first of two faults, if the second comes after the first.
pub(crate) fn earlier(first: Option<Items<u32>>, second: Option<Items<u32>>) -> Option<Items<u32>>
    ensures { result ≡ earlier first second }
{
    match first {
        Some(place) => Some(place),
        None => second,
    }
}

/// A fault inside an element of a list. A list that is too long for its index counts as out of memory.
pub(crate) fn within(
    alloc: Global,
    index: usize,
    fault: Option<Items<u32>>,
) -> Result<Option<Items<u32>>, AllocError>
    ensures { IfOk result (λ place. place ≡ placed index fault) }
{
    match fault {
        None => Ok(None),
        Some(place) => {
            let place = behind(alloc, index, place)?;
            Ok(Some(place))
        }
    }
}

/// The place with one more index before it.
fn behind(_alloc: Global, index: usize, place: Items<u32>) -> Result<Items<u32>, AllocError>
    ensures { IfOk result (λ longer. longer ≡ index ∷ place) }
{
    let index = narrow(index)?;
    let mut indices = place.into_vec();
    indices.insert(0, index)?;
    Ok(Items::from_vec(indices))
}

/// The index in 32 bits.
fn narrow(index: usize) -> Result<u32, AllocError>
    ensures { IfOk result (λ narrow. narrow ≡ index) }
{
    match u32::try_from(index) {
        Ok(narrow) => Ok(narrow),
        Err(_) => Err(AllocError),
    }
}
