//! Tallies: the sums that are greater than those known are told.

ghost use Rattle.std.specs.Prelude.{◌≡◌, IfOk, OnOk};
ghost use Rattle.kat_lattice.specs.Tallies.{IsTally, sum_of};
ghost use Rattle.kat_difference.specs.Picking.{Grows, Picks};
ghost use Rattle.kat_difference.specs.Tallies.{sum_told};

use super::difference::{Difference, list_or_none};
use kat_join::{SumEntries, place_of};
use kat_lattice::{Lattice, Tally};
use std::alloc::{AllocError, Global};

/// The sum of a replica, 0 if it has none.
fn sum_at(sums: &[(u32, u128)], replica: u32) -> u128
    requires { IsTally sums.now }
    ensures { result ≡ sum_of sums.now replica }
{
    match place_of::<SumEntries>(sums, &replica) {
        Ok(at) => sums[at].1,
        Err(_) => 0,
    }
}

/// The sums that are greater than those known.
fn new_sums(
    alloc: Global,
    known: &[(u32, u128)],
    sums: &[(u32, u128)],
) -> Result<Vec<(u32, u128)>, AllocError>
    requires { IsTally known.now }
    ensures { IfOk result (λ v. Picks (sum_told known.now) sums.now v.items) }
{
    let mut told = Vec::new(alloc);
    for entry in sums {
        tell_sum(alloc, known, entry, &mut told)?;
    }
    Ok(told)
}

/// Adds a sum at the end of a list, if it is greater than the one known.
fn tell_sum(
    _alloc: Global,
    known: &[(u32, u128)],
    entry: &(u32, u128),
    into: &mut Vec<(u32, u128)>,
) -> Result<(), AllocError>
    requires { IsTally known.now }
    ensures { OnOk result (Grows (sum_told known.now entry.now) into.old.items into.new.items) }
{
    if entry.1 <= sum_at(known, entry.0) {
        return Ok(());
    }
    into.push(*entry)?;
    Ok(())
}

impl Difference for Tally {
    ghost use Rattle.std.specs.Prelude.{◌≡◌, []};
    ghost use Rattle.kat_difference.specs.Pieces.{AreEntriesOf};

    ghost can_start = { λ s. s ≡ [] };

    ghost exact = { λ _. Unit {0} };

    ghost is_piece = { λ _. AreEntriesOf };

    fn difference(
        &self,
        alloc: Global,
        _start: &Self,
        known: &Self,
    ) -> Result<Option<Self>, AllocError> {
        let whole = self.sums();
        let before = known.sums();
        let told = new_sums(alloc, before, whole)?;
        match list_or_none(told) {
            None => Ok(None),
            Some(sums) => Ok(Some(Tally::from_sums(sums))),
        }
    }
}
