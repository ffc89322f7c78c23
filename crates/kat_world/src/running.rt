//! The replicas and packets of a design while a script runs.
ghost use Rattle.std.specs.Prelude.{◌≡◌, ◌<◌, ◌++◌, length, IfOk, OnOk, slice_set};
ghost use Rattle.kat_design.specs.Designs.{design_form};
ghost use Rattle.kat_design.specs.Meanings.{are_kin};
ghost use Rattle.kat_design.specs.Parts.{PartsKin};
ghost use Rattle.kat_design.specs.Small.{IsSmallDesign};
ghost use Rattle.kat_design.specs.Sorted.{IsWellSorted};
ghost use Rattle.kat_world.specs.Kept.{CanDo, IsReady, did, first_keeps, kept_after, kept_answers, kept_at, kept_text, took};
ghost use Rattle.kat_world.specs.Run.{kept};

use crate::places::{place_of, put};
use crate::texts::{push_ask, push_show};
use kat_design::Design;
use kat_num::Value;
use kat_replica::{Packet, Replica};
use kat_script::Line;
use kat_type::Done;
use std::alloc::{AllocError, Global};

/// All replicas, and the packets by the number of their word.
pub(crate) struct Running {
    pub(crate) replicas: Vec<Replica>,
    pub(crate) packets: Vec<Packet>,
}

impl Drop for Running {
    fn drop(self) {
        let Self {
            replicas: _,
            packets: _,
        } = self;
    }
}

impl Running {
    /// This many replicas that did nothing.
    pub(crate) fn new(alloc: Global, design: &Design, replicas: u32) -> Result<Self, AllocError>
        requires sorted { IsWellSorted (design_form design.now) }
        ensures { IfOk result (λ running. kept running ≡ first_keeps (design_form design.now) replicas) }
    {
        let mut fresh = Vec::new(alloc);
        for _ in 0..replicas {
            fresh.push(Replica::new(alloc, design)?)?;
        }
        Ok(Running {
            replicas: fresh,
            packets: Vec::new(alloc),
        })
    }

    /// Does what a line says.
    pub(crate) fn follow(
        &mut self,
        alloc: Global,
        design: &Design,
        line: &Line,
    ) -> Result<(), AllocError>
        requires sorted { IsWellSorted (design_form design.now) }
        requires ready { IsReady (design_form design.now) (kept self.old) line.now }
        ensures { OnOk result (kept self.new ≡ kept_after (design_form design.now) (kept self.old) line.now) }
    {
        match line {
            Line::Do(done) => apply_at(
                alloc,
                design,
                &mut self.replicas,
                place_of(done.replica),
                done,
            ),
            Line::Ship { replica, packet } => {
                let shipped = self.replicas[place_of(*replica)].packet(alloc)?;
                put(&mut self.packets, *packet as usize, shipped)
            }
            Line::Deliver { packet, replica } => deliver_at(
                alloc,
                &mut self.replicas,
                place_of(*replica),
                &self.packets[*packet as usize],
            ),
            Line::Ask { .. } | Line::Show { .. } => Ok(()),
        }
    }

    /// Appends what a line is answered.
    pub(crate) fn reply(
        &self,
        design: &Design,
        line: &Line,
        into: &mut Vec<Value>,
    ) -> Result<(), AllocError>
        requires small { IsSmallDesign (design_form design.now) }
        requires ready { IsReady (design_form design.now) (kept self.now) line.now }
        ensures { OnOk result (into.new.items ≡ into.old.items ++ kept_answers (design_form design.now) (kept self.now) line.now) }
    {
        match line {
            Line::Ask {
                replica,
                query,
                args,
            } => {
                let args = args.as_slice();
                into.push(self.replicas[place_of(*replica)].ask(design, *query, args))?;
                Ok(())
            }
            Line::Do(_) | Line::Ship { .. } | Line::Deliver { .. } | Line::Show { .. } => Ok(()),
        }
    }

    /// Appends what a line prints.
    pub(crate) fn print(
        &self,
        alloc: Global,
        design: &Design,
        line: &Line,
        into: &mut Vec<u8>,
    ) -> Result<(), AllocError>
        requires small { IsSmallDesign (design_form design.now) }
        requires ready { IsReady (design_form design.now) (kept self.now) line.now }
        ensures { OnOk result (into.new.items ≡ into.old.items ++ kept_text (design_form design.now) (kept self.now) line.now) }
    {
        match line {
            Line::Ask {
                replica,
                query,
                args,
            } => {
                let args = args.as_slice();
                let answer = self.replicas[place_of(*replica)].ask(design, *query, args);
                push_ask(alloc, &design.sig, *replica, *query, args, &answer, into)
            }
            Line::Show { replica } => {
                push_show(alloc, *replica, &self.replicas[place_of(*replica)], into)
            }
            Line::Do(_) | Line::Ship { .. } | Line::Deliver { .. } => Ok(()),
        }
    }
}

/// The replica at a place does an operation.
fn apply_at(
    alloc: Global,
    design: &Design,
    replicas: &mut [Replica],
    place: usize,
    done: &Done,
) -> Result<(), AllocError>
    requires sorted { IsWellSorted (design_form design.now) }
    requires there { place < length replicas.old }
    requires can { CanDo (design_form design.now) (kept_at replicas.old place) done.now }
    ensures { OnOk result (replicas.new ≡ slice_set replicas.old place
        (did (design_form design.now) (kept_at replicas.old place) done.now)) }
{
    replicas[place].apply(alloc, design, done)
}

/// The replica at a place takes a packet in.
fn deliver_at(
    alloc: Global,
    replicas: &mut [Replica],
    place: usize,
    packet: &Packet,
) -> Result<(), AllocError>
    requires there { place < length replicas.old }
    requires kin { are_kin PartsKin (kept_at replicas.old place).state.parts packet.now.state.parts }
    ensures { OnOk result (replicas.new ≡ slice_set replicas.old place (took (kept_at replicas.old place) packet.now)) }
{
    replicas[place].deliver(alloc, packet)
}
