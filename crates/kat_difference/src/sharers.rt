//! Replicas that ship differences.
ghost use Rattle.std.specs.Prelude.{◌≡◌, [], ◌<◌, true, IfOk, OnErr, OnOk};
ghost use Rattle.std.specs.List.{list_all};
ghost use Rattle.kat_design.specs.Denotations.{denotation_of};
ghost use Rattle.kat_design.specs.Designs.{design_form};
ghost use Rattle.kat_design.specs.Fitting.{FitsSignature};
ghost use Rattle.kat_design.specs.Meanings.{are_kin};
ghost use Rattle.kat_design.specs.Parts.{PartsKin};
ghost use Rattle.kat_design.specs.Small.{is_roomy_part};
ghost use Rattle.kat_design.specs.Sorted.{IsWellSorted};
ghost use Rattle.kat_difference.specs.Sharing.{HasDone, HasMerged, IsMade, IsNew, TellsGap};

use crate::states::state_difference;
use kat_design::{Design, State};
use kat_lattice::{Lattice, Tally, commit};
use kat_replica::Replica;
use kat_type::Done;
use std::alloc::{AllocError, Global};

/// A replica with its marks: for each replica, this one among them, the time of its latest operation that the state has.
///
/// A copy of a sharer, or what a file keeps of it, says what somebody has.
///
/// ```
/// let mut here = Sharer::new(alloc, &design)?;
/// let nothing = Sharer::new(alloc, &design)?;
/// here.apply(alloc, &design, &done)?;
/// let packet = here.difference(alloc, &design, &nothing)?;
/// there.deliver(alloc, &packet)?;
/// ```
#[derive(Drop)]
pub struct Sharer {
    pub replica: Replica,
    pub marks: Tally,
}

/// What a sharer has beyond a known one: `base` are the marks of the known one, `marks` and `clock` those of the sharer, and `state`
/// is the difference of the two states.
#[derive(Drop)]
pub struct Packet {
    pub clock: u64,
    pub base: Tally,
    pub marks: Tally,
    pub state: State,
}

/// Why a packet isn't merged: operations that it leaves out are missing here, or memory ran out.
#[derive(PartialEq, Debug, Drop, thiserror::Error)]
pub enum DeliverError {
    #[error("operations before the difference are missing")]
    Gap,
    #[error("out of memory")]
    Memory,
}

impl From<AllocError> for DeliverError {
    ghost use Rattle.std.specs.Prelude.{◌≡◌};
    ghost use Rattle.kat_difference.specs.declared.sharers.DeliverError.TheVariants.{Memory};

    ghost from_gives = { λ _ error. error ≡ Memory };

    fn from(_: AllocError) -> Self {
        DeliverError::Memory
    }
}

impl Sharer {
    /// A sharer that has no operations. The only error is that memory ran out.
    pub fn new(alloc: Global, design: &Design) -> Result<Sharer, AllocError>
        requires sorted { IsWellSorted (design_form design.now) }
        ensures { IfOk result (IsNew (design_form design.now)) }
    {
        let replica = Replica::new(alloc, design)?;
        let marks = Tally::new(alloc);
        Ok(Sharer { replica, marks })
    }

    /// Does an operation of this replica, as `Replica::apply` does it; its time is the replica's mark from then on. After an error,
    /// which is that memory ran out, the sharer is as it was.
    pub fn apply(&mut self, alloc: Global, design: &Design, done: &Done) -> Result<(), AllocError>
        requires sorted { IsWellSorted (design_form design.now) }
        requires kin { are_kin PartsKin self.old.replica.state.parts (denotation_of (design_form design.now) []) }
        requires room { list_all is_roomy_part self.old.replica.state.parts ≡ true }
        requires fits { FitsSignature design.now.sig done.now }
        requires later { self.old.replica.clock < done.now.time }
        ensures adds { OnOk result (HasDone (design_form design.now) self.old done.now self.new) }
        ensures goes { OnOk result (are_kin PartsKin self.old.replica.state.parts self.new.replica.state.parts) }
        ensures err { OnErr result (self.new ≡ self.old) }
    {
        let mut entries = Vec::new(alloc);
        entries.push((done.replica, u128::from(done.time)))?;
        let mark = Tally::from_sums(entries);
        self.marks.goes_with(&mark);
        let staged = self.marks.stage(alloc, &mark)?;
        self.replica.apply(alloc, design, done)?;
        commit(&mut self.marks, staged);
        Ok(())
    }

    /// What this sharer has that the known one lacks. The only error is that memory ran out.
    pub fn difference(
        &self,
        alloc: Global,
        design: &Design,
        known: &Sharer,
    ) -> Result<Packet, AllocError>
        requires sorted { IsWellSorted (design_form design.now) }
        requires known { are_kin PartsKin (denotation_of (design_form design.now) []) known.now.replica.state.parts }
        requires whole { are_kin PartsKin (denotation_of (design_form design.now) []) self.now.replica.state.parts }
        ensures made { IfOk result (λ made. IsMade (denotation_of (design_form design.now) []) known.now self.now made) }
    {
        let base = known.marks.copy(alloc)?;
        let marks = self.marks.copy(alloc)?;
        let state = state_difference(alloc, design, &known.replica.state, &self.replica.state)?;
        Ok(Packet {
            clock: self.replica.clock,
            base,
            marks,
            state,
        })
    }

    /// Merges a packet if all operations that it leaves out are here: the greater clock, the greater mark of each replica, and the
    /// join of both states. It may come late or again. After an error the sharer is as it was.
    pub fn deliver(&mut self, alloc: Global, packet: &Packet) -> Result<(), DeliverError>
        requires kin { are_kin PartsKin self.old.replica.state.parts packet.now.state.parts }
        ensures gap { TellsGap packet.now.base self.old.marks result }
        ensures merges { OnOk result (HasMerged self.old packet.now self.new) }
        ensures goes { OnOk result (are_kin PartsKin self.old.replica.state.parts self.new.replica.state.parts) }
        ensures err { OnErr result (self.new ≡ self.old) }
    {
        packet.base.goes_with(&self.marks);
        if !packet.base.leq(&self.marks) {
            return Err(DeliverError::Gap);
        }
        self.marks.goes_with(&packet.marks);
        let staged = self.marks.stage(alloc, &packet.marks)?;
        self.replica.take_in(alloc, packet.clock, &packet.state)?;
        commit(&mut self.marks, staged);
        Ok(())
    }
}
