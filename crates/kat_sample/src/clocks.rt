//! The clocks of replicas and packets, while the lines of commands are made.
ghost use Rattle.std.specs.Prelude.{◌≡◌, ◌-◌, ◌<◌, IfOk, OnOk, [], max, replicate, slice_set};
ghost use Rattle.std.specs.List.{slice_index_or};
ghost use Rattle.kat_sample.specs.Clocks.{clock_at, kept, times_after};
ghost use Rattle.kat_sample.specs.Commands.{replica_of};
ghost use Rattle.kat_script.specs.World.{put};

use crate::commands::Command;
use kat_script::TIME_LIMIT;
use std::alloc::{AllocError, Global};

/// The clocks of all replicas, and of the packets by the number of their word.
pub(crate) struct Clocks {
    pub(crate) replicas: Vec<u64>,
    pub(crate) packets: Vec<u64>,
}

impl Drop for Clocks {
    fn drop(self) {
        let Self {
            replicas: _,
            packets: _,
        } = self;
    }
}

impl Clocks {
    /// Three replicas that did nothing, and no packet.
    pub(crate) fn new(alloc: Global) -> Result<Self, AllocError>
        ensures replicas { IfOk result (λ clocks. clocks.replicas.items ≡ replicate 3 0) }
        ensures packets { IfOk result (λ clocks. clocks.packets.items ≡ []) }
    {
        Ok(Clocks {
            replicas: vec![in alloc; 0; 3]?,
            packets: Vec::new(alloc),
        })
    }

    /// The clock of a replica.
    pub(crate) fn of(&self, replica: u32) -> u64
        ensures { result ≡ clock_at (kept self.now) replica }
    {
        match self.replicas.get(place_of(replica)) {
            Some(clock) => *clock,
            None => 0,
        }
    }

    /// The clock of the packets that a replica ships.
    fn shipped(&self, sender: u32) -> u64
        ensures { result ≡ slice_index_or (kept self.now).packets (sender - 1) 0 }
    {
        match self.packets.get(place_of(sender)) {
            Some(clock) => *clock,
            None => 0,
        }
    }

    /// Sets the clock of a replica.
    fn set(&mut self, replica: u32, clock: u64)
        ensures replicas { self.new.replicas.items ≡ slice_set self.old.replicas.items (replica - 1) clock }
        ensures packets { self.new.packets.items ≡ self.old.packets.items }
    {
        let place = place_of(replica);
        if place < self.replicas.len() {
            self.replicas[place] = clock;
        }
    }

    /// Does what a command says.
    pub(crate) fn follow(&mut self, command: Command) -> Result<(), AllocError>
        requires { clock_at (kept self.old) (replica_of command) < TIME_LIMIT }
        ensures { OnOk result (kept self.new ≡ times_after (kept self.old) command) }
    {
        match command {
            Command::Add { replica, .. } => {
                self.set(replica, self.of(replica) + 1);
                Ok(())
            }
            Command::Ship { replica } => {
                let clock = self.of(replica);
                put(&mut self.packets, place_of(replica), clock)
            }
            Command::Deliver { sender, replica } => {
                self.set(replica, self.of(replica).max(self.shipped(sender)));
                Ok(())
            }
            Command::Ask { .. } => Ok(()),
        }
    }
}

/// The place of a replica, which are numbered from 1.
fn place_of(replica: u32) -> usize
    ensures { result ≡ replica - 1 }
{
    replica.saturating_sub(1) as usize
}

/// Puts the clock of a packet in place of what its word had, or after the others if the word is new.
fn put(packets: &mut Vec<u64>, packet: usize, clock: u64) -> Result<(), AllocError>
    ensures { OnOk result (packets.new.items ≡ put packets.old.items packet clock) }
{
    if packet < packets.len() {
        packets[packet] = clock;
        return Ok(());
    }
    packets.push(clock)?;
    Ok(())
}
