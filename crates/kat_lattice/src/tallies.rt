//! Counters that grow.

ghost use Rattle.std.specs.Prelude.{◌≡◌, ◌+◌, ◌^◌, ◌<◌, ◌≤◌, [], IfOk, OnOk, OnErr};
ghost use Rattle.kat_lattice.specs.Tallies.{sum_of, total_of, Adds, IsTally, TalliesKin};
ghost use Rattle.kat_lattice.specs.Undos.{Undoes, IsInside, taken_back};

use super::Lattice;
use super::undo::{Undo, take_back};
use kat_join::{SumEntries, is_part, place_of, union_of};
use std::alloc::{AllocError, Global};
use std::marker::Model;

/// A counter that only grows: a sum for each replica, of which each replica raises its own.
///
/// The join takes the greater sum of each replica. That is right if of two sums of one replica the greater
/// is the later one: so each replica adds to its own sum alone, and two replicas never share a number.
///
/// ```
/// let mut mine = Tally::new(alloc);
/// mine.bump(alloc, 1, 2)?;
/// let mut theirs = Tally::new(alloc);
/// theirs.bump(alloc, 2, 5)?;
/// mine.goes_with(&theirs);
/// mine.join(alloc, &theirs)?;
/// // mine.sums() is (1, 2), (2, 5)
/// ```
#[derive(Debug)]
pub struct Tally {
    sums: Vec<(u32, u128)>,
}

impl Drop for Tally {
    fn drop(self) {
        let Self { sums: _ } = self;
    }
}

impl Model for Tally {
    ghost use Rattle.kat_lattice.specs.Tallies.{Sums, IsTally};

    ghost Value = { Sums };

    ghost view = { λ t. t.sums.items };

    ghost invariant = { λ t. IsTally t.sums.items };
}

impl Tally {
    /// The tally without a sum.
    pub fn new(alloc: Global) -> Tally
        ensures { result ≡ [] }
    {
        Tally {
            sums: Vec::new(alloc),
        }
    }

    /// The tally of sums above 0 whose replicas ascend.
    pub fn from_sums(sums: Vec<(u32, u128)>) -> Tally
        requires { IsTally sums.items }
        ensures { result ≡ sums.items }
    {
        Tally { sums }
    }

    /// The replicas with a sum above 0, ascending, each with its sum.
    pub fn sums(&self) -> &[(u32, u128)]
        ensures all { result.now ≡ self.now }
        ensures canonical { IsTally self.now }
    {
        &self.sums
    }

    /// The sum over all replicas.
    pub fn total(&self) -> u128
        requires { total_of self.now < 2 ^ 128 }
        ensures { result ≡ total_of self.now }
    {
        sum_up(&self.sums)
    }

    /// Adds a weight to a replica's sum. After an error the tally is as it was.
    pub fn bump(&mut self, alloc: Global, replica: u32, weight: u128) -> Result<(), AllocError>
        requires { sum_of self.old replica + weight ≤ 2 ^ 100 }
        ensures ok { OnOk result (Adds self.old replica weight self.new) }
        ensures err { OnErr result (self.new ≡ self.old) }
        ensures canonical { IsTally self.new }
    {
        self.bump_step(alloc, replica, weight)?;
        Ok(())
    }

    /// Adds a weight to a replica's sum, and gives what takes the step back. After an error the tally is as it was.
    pub fn bump_step(
        &mut self,
        _alloc: Global,
        replica: u32,
        weight: u128,
    ) -> Result<Undo<(u32, u128)>, AllocError>
        requires { sum_of self.old replica + weight ≤ 2 ^ 100 }
        ensures ok { OnOk result (Adds self.old replica weight self.new) }
        ensures back { IfOk result (λ undo. Undoes IsTally undo self.old self.new) }
        ensures err { OnErr result (self.new ≡ self.old) }
        ensures canonical { IsTally self.new }
    {
        match place_of::<SumEntries>(&self.sums, &replica) {
            Ok(at) => {
                let was = self.sums[at];
                self.sums[at] = (was.0, was.1 + weight);
                Ok(Undo::Changed(at, was))
            }
            Err(at) => {
                if weight == 0 {
                    return Ok(Undo::Same);
                }
                self.sums.insert(at, (replica, weight))?;
                Ok(Undo::Added(at))
            }
        }
    }

    /// Takes a step back, without memory.
    pub fn take_back(&mut self, undo: Undo<(u32, u128)>)
        requires inside { IsInside undo self.old }
        requires kept { IsTally (taken_back undo self.old) }
        ensures { self.new ≡ taken_back undo self.old }
    {
        take_back(&mut self.sums, undo);
    }

    /// Any two tallies go together.
    pub fn goes_with(&self, other: &Self)
        ensures { TalliesKin self.now other.now }
    {
        let _mine = &self.sums;
        let _theirs = &other.sums;
    }
}

impl Lattice for Tally {
    ghost use Rattle.kat_lattice.specs.Tallies.{TalliesKin, tallies_joined, tally_laws};

    ghost kin = { TalliesKin };

    ghost joined = { tallies_joined };

    fn join(&mut self, alloc: Global, other: &Self) -> Result<(), AllocError> {
        if let Some(next) = self.stage(alloc, other)? {
            *self = next;
        }
        Ok(())
    }

    fn leq(&self, other: &Self) -> bool {
        is_part::<SumEntries>(&self.sums, &other.sums)
    }

    fn copy(&self, alloc: Global) -> Result<Self, AllocError> {
        Ok(Tally {
            sums: Vec::from_slice(alloc, &self.sums)?,
        })
    }

    fn stage(&self, alloc: Global, other: &Self) -> Result<Option<Self>, AllocError> {
        if other.leq(self) {
            return Ok(None);
        }
        let sums = union_of::<SumEntries>(alloc, &self.sums, &other.sums)?;
        Ok(Some(Tally { sums }))
    }

    ghost laws = { tally_laws };
}

/// The sum of all sums.
#[tactic(auto, using(crate::proofs::Sums::total_more, crate::proofs::Sums::total_fits))]
fn sum_up(sums: &[(u32, u128)]) -> u128
    requires { total_of sums.now < 2 ^ 128 }
    ensures { result ≡ total_of sums.now }
{
    let mut total = 0;
    for entry in sums {
        total += entry.1;
    }
    total
}
