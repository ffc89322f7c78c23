//! Sets: the keys that aren't known are told.

ghost use Rattle.std.specs.Prelude.{IfOk, OnOk};
ghost use Rattle.kat_difference.specs.Picking.{Grows, Picks};
ghost use Rattle.kat_difference.specs.Sets.{key_told};

use super::difference::{Difference, list_or_none};
use kat_lattice::{GrowSet, Lattice};
use std::alloc::{AllocError, Global};

/// The keys that the known set lacks.
fn new_keys<K: Ord + Copy>(
    alloc: Global,
    known: &GrowSet<K>,
    keys: &[K],
) -> Result<Vec<K>, AllocError>
    ensures { IfOk result (λ v. Picks (key_told K.cmp known.now) keys.now v.items) }
{
    let mut told = Vec::new(alloc);
    for key in keys {
        tell_key(alloc, known, key, &mut told)?;
    }
    Ok(told)
}

/// Adds a key at the end of a list, unless the known set has it.
fn tell_key<K: Ord + Copy>(
    _alloc: Global,
    known: &GrowSet<K>,
    key: &K,
    into: &mut Vec<K>,
) -> Result<(), AllocError>
    ensures { OnOk result (Grows (key_told K.cmp known.now key.now) into.old.items into.new.items) }
{
    if known.contains(key) {
        return Ok(());
    }
    into.push(*key)?;
    Ok(())
}

impl<K: Ord + Copy> Difference for GrowSet<K> {
    ghost use Rattle.std.specs.Prelude.{◌≡◌, []};
    ghost use Rattle.kat_difference.specs.Pieces.{AreEntriesOf};

    ghost can_start = { λ s. s ≡ [] };

    ghost exact = { λ _. Unit {0} };

    ghost is_piece = { λ _. AreEntriesOf };

    fn difference(
        &self,
        alloc: Global,
        _start: &Self,
        known: &Self,
    ) -> Result<Option<Self>, AllocError> {
        let told = new_keys(alloc, known, self.keys())?;
        match list_or_none(told) {
            None => Ok(None),
            Some(keys) => Ok(Some(GrowSet::from_keys(keys))),
        }
    }
}
