//! Maps: at each key what its value has that the known map lacks there is told.

ghost use Rattle.std.specs.Prelude.{◌≡◌, IfOk, IfSome, OnOk};
ghost use Rattle.std.specs.List.{AllByRecursion};
ghost use Rattle.kat_lattice.specs.Maps.{at_key};
ghost use Rattle.kat_difference.specs.Differences.{IsFrom, Lacks};
ghost use Rattle.kat_difference.specs.Maps.{entry_told, with_told};
ghost use Rattle.kat_difference.specs.Picking.{Grows, Picks};

use super::difference::{Difference, list_or_none};
use kat_lattice::{GrowMap, Lattice};
use std::alloc::{AllocError, Global};

/// The entries that have something which the known map lacks at their keys, each with that alone.
fn new_values<K: Ord + Copy, L: Difference>(
    alloc: Global,
    known: &GrowMap<K, L>,
    entries: &[(K, L)],
) -> Result<Vec<(K, L)>, AllocError>
    requires start { L.can_start known.now.start }
    requires kept { AllByRecursion (λ (e : K × L). IsFrom L.kin L.joined known.now.start e.1) entries.now }
    ensures { IfOk result (λ v. Picks (entry_told K.cmp L.kin L.joined (L.exact known.now.start) (L.is_piece known.now.start) known.now) entries.now v.items) }
{
    let mut told = Vec::new(alloc);
    for entry in entries {
        tell_value(alloc, known, entry, &mut told)?;
    }
    Ok(told)
}

/// Adds an entry at the end of a list with what its value has that the known map lacks at its key, if there is anything.
fn tell_value<K: Ord + Copy, L: Difference>(
    alloc: Global,
    known: &GrowMap<K, L>,
    entry: &(K, L),
    into: &mut Vec<(K, L)>,
) -> Result<(), AllocError>
    requires start { L.can_start known.now.start }
    requires kept { IsFrom L.kin L.joined known.now.start entry.now.1 }
    ensures { OnOk result (Grows (entry_told K.cmp L.kin L.joined (L.exact known.now.start) (L.is_piece known.now.start) known.now entry.now) into.old.items into.new.items) }
{
    let value = new_value(alloc, known, entry)?;
    push_told(alloc, into, entry.0, value)
}

/// Adds a key with its value at the end of a list, if there is one.
fn push_told<K: Ord + Copy, L: Lattice>(
    _alloc: Global,
    into: &mut Vec<(K, L)>,
    key: K,
    told: Option<L>,
) -> Result<(), AllocError>
    ensures { OnOk result (into.new.items ≡ with_told into.old.items key told) }
{
    match told {
        None => Ok(()),
        Some(value) => {
            into.push((key, value))?;
            Ok(())
        }
    }
}

/// What the value of an entry has that the known map lacks at its key.
fn new_value<K: Ord + Copy, L: Difference>(
    alloc: Global,
    known: &GrowMap<K, L>,
    entry: &(K, L),
) -> Result<Option<L>, AllocError>
    requires start { L.can_start known.now.start }
    requires kept { IsFrom L.kin L.joined known.now.start entry.now.1 }
    ensures lacks { IfOk result (Lacks L.kin L.joined (L.exact known.now.start) known.now.start (at_key K.cmp known.now entry.now.0) entry.now.1) }
    ensures piece { IfOk result (λ told. IfSome told (L.is_piece known.now.start entry.now.1)) }
{
    let _known = known.entries();
    entry
        .1
        .difference(alloc, known.start_value(), known.get(&entry.0))
}

impl<K: Ord + Copy, L: Difference> Difference for GrowMap<K, L> {
    ghost use Rattle.std.specs.Prelude.{[]};
    ghost use Rattle.kat_difference.specs.Pieces.{IsPieceOfMap};

    ghost can_start = { λ m. (m.entries ≡ []) × L.can_start m.start };

    ghost exact = { λ m. L.exact m.start };

    ghost is_piece = { λ m. IsPieceOfMap (L.is_piece m.start) };

    fn difference(
        &self,
        alloc: Global,
        _start: &Self,
        known: &Self,
    ) -> Result<Option<Self>, AllocError> {
        let told = new_values(alloc, known, self.entries())?;
        match list_or_none(told) {
            None => Ok(None),
            Some(entries) => {
                let start = known.start_value().copy(alloc)?;
                Ok(Some(GrowMap::from_entries(start, entries)))
            }
        }
    }
}
