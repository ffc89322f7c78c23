//! Of each replica and packet, what it absorbed: the latest time of each replica's operations.
//!
//! A replica or packet has, of each replica, exactly the operations up to some time. So these times, one for each
//! replica, stand for all that it absorbed (version vectors: Parker and others 1983).
ghost use Rattle.std.specs.Prelude.{◌≡◌, ◌-◌, IfOk, OnOk, replicate, slice_set};
ghost use Rattle.kat_world.specs.Seen.{seen};
ghost use Rattle.kat_world.specs.Tracked.{first_times, followed, is_known, later, latest, times_at};

use crate::places::{place_of, put};
use kat_script::Line;
use kat_type::Done;
use std::alloc::{AllocError, Global};
use std::marker::Model;

/// The latest time of each replica's operations, by the replica's number from 1; 0 if there is none.
#[derive(Drop)]
pub(crate) struct Latest {
    times: Vec<u64>,
}

impl Model for Latest {
    ghost use Rattle.std.specs.Prelude.{ℕ, List};

    ghost Value = { List ℕ };

    ghost view = { λ latest. latest.times.items };
}

impl Latest {
    /// No operation of this many replicas.
    pub(crate) fn none(alloc: Global, replicas: u32) -> Result<Self, AllocError>
        ensures { IfOk result (λ latest. latest ≡ replicate replicas 0) }
    {
        Ok(Latest {
            times: vec![in alloc; 0; replicas as usize]?,
        })
    }

    /// Whether the operation is among those that were absorbed.
    pub(crate) fn knows(&self, done: &Done) -> bool
        ensures { result ≡ is_known self.now done.now }
    {
        done.time <= self.time_of(done.replica)
    }

    /// The latest time of a replica's operations.
    fn time_of(&self, replica: u32) -> u64
        ensures { result ≡ latest self.now replica }
    {
        match self.times.get(place_of(replica)) {
            Some(time) => *time,
            None => 0,
        }
    }

    /// An operation of a replica is absorbed.
    fn set(&mut self, replica: u32, time: u64)
        ensures { self.new ≡ slice_set self.old (replica - 1) time }
    {
        let place = place_of(replica);
        if place < self.times.len() {
            self.times[place] = time;
        }
    }

    /// What the other absorbed is absorbed.
    fn join(&mut self, other: &Latest)
        ensures { self.new ≡ later self.old other.now }
    {
        raise(&mut self.times, &other.times);
    }

    fn copy(&self, alloc: Global) -> Result<Self, AllocError>
        ensures { IfOk result (λ latest. latest ≡ self.now) }
    {
        Ok(Latest {
            times: Vec::from_slice(alloc, &self.times)?,
        })
    }
}

/// Takes the greater time of each replica.
fn raise(times: &mut [u64], others: &[u64])
    ensures { times.new ≡ later times.old others.now }
{
    let Some((time, rest)) = times.split_first_mut() else {
        return;
    };
    let Some((other, more)) = others.split_first() else {
        return;
    };
    *time = (*time).max(*other);
    raise(rest, more);
}

/// The times of all replicas, and of the packets by the number of their word.
pub(crate) struct Holders {
    pub(crate) replicas: Vec<Latest>,
    pub(crate) packets: Vec<Latest>,
}

impl Drop for Holders {
    fn drop(self) {
        let Self {
            replicas: _,
            packets: _,
        } = self;
    }
}

impl Holders {
    /// This many replicas that did nothing.
    pub(crate) fn new(alloc: Global, replicas: u32) -> Result<Self, AllocError>
        ensures { IfOk result (λ holders. seen holders ≡ first_times replicas) }
    {
        let mut latest = Vec::new(alloc);
        for _ in 0..replicas {
            latest.push(Latest::none(alloc, replicas)?)?;
        }
        Ok(Holders {
            replicas: latest,
            packets: Vec::new(alloc),
        })
    }

    /// Does what a line says.
    pub(crate) fn follow(&mut self, alloc: Global, line: &Line) -> Result<(), AllocError>
        ensures { OnOk result (seen self.new ≡ followed (seen self.old) line.now) }
    {
        match line {
            Line::Do(done) => {
                absorb(&mut self.replicas, done.replica, done.time);
                Ok(())
            }
            Line::Ship { replica, packet } => {
                let latest = copy_at(alloc, &self.replicas, place_of(*replica))?;
                put(&mut self.packets, *packet as usize, latest)
            }
            Line::Deliver { packet, replica } => {
                deliver(
                    &mut self.replicas,
                    place_of(*replica),
                    &self.packets,
                    *packet as usize,
                );
                Ok(())
            }
            Line::Ask { .. } | Line::Show { .. } => Ok(()),
        }
    }
}

/// A replica absorbs an operation of its own.
fn absorb(replicas: &mut Vec<Latest>, replica: u32, time: u64)
    ensures { replicas.new.items ≡ slice_set replicas.old.items (replica - 1)
        (slice_set (times_at replicas.old.items (replica - 1)) (replica - 1) time) }
{
    let place = place_of(replica);
    if place < replicas.len() {
        replicas[place].set(replica, time);
    }
}

/// A replica absorbs what a packet has.
fn deliver(replicas: &mut Vec<Latest>, place: usize, packets: &[Latest], packet: usize)
    ensures { replicas.new.items ≡ slice_set replicas.old.items place
        (later (times_at replicas.old.items place) (times_at packets.now packet)) }
{
    if place < replicas.len() && packet < packets.len() {
        replicas[place].join(&packets[packet]);
    }
}

/// What is known at a place, and nothing past the end.
pub(crate) fn copy_at(alloc: Global, holders: &[Latest], place: usize) -> Result<Latest, AllocError>
    ensures { IfOk result (λ latest. latest ≡ times_at holders.now place) }
{
    match holders.get(place) {
        Some(latest) => latest.copy(alloc),
        None => Latest::none(alloc, 0),
    }
}
