//! How many operations of each origin the replicas and packets have, line by line.
ghost use Rattle.std.specs.Prelude.{◌≡◌, ◌-◌, ◌+◌, [], max, IfOk, OnOk, replicate, slice_set};
ghost use Rattle.std.specs.List.{slice_index_or};
ghost use Rattle.kat_script.specs.World.{put};
ghost use Rattle.kat_delta.specs.Standing.{count_at};
ghost use Rattle.kat_delta_script.specs.Counted.{counted, counted_after, counted_with, counts_of, made_of, no_counts, parcel_at, raised_by, raised_each, with_own};
ghost use Rattle.kat_delta.specs.declared.script.DeltaLine.TheVariants.{Plain};
ghost use Rattle.kat_delta_script.specs.Refusals.{gap, gap_of, no_count, refused_by_counts};

use crate::error::DeltaScriptError;
use crate::statement::Statement;
use kat_delta::DeltaLine;
use kat_script::{Line, Said};
use std::alloc::{AllocError, Global};
use std::marker::Model;

/// Of each replica, from 1, how many of its operations there are.
#[derive(Drop)]
pub(crate) struct Counts {
    counts: Vec<u64>,
}

impl Model for Counts {
    ghost use Rattle.std.specs.Prelude.{ℕ, List};

    ghost Value = { List ℕ };

    ghost view = { λ counts. counts.counts.items };
}

impl Counts {
    /// No operation of this many replicas.
    fn none(alloc: Global, replicas: usize) -> Result<Self, AllocError>
        ensures { IfOk result (λ counts. counts ≡ replicate replicas 0) }
    {
        Ok(Counts {
            counts: vec![in alloc; 0; replicas]?,
        })
    }

    /// The count of a replica.
    fn of(&self, replica: u64) -> u64
        ensures { result ≡ count_at self.now replica }
    {
        match self.counts.get(place_of(replica)) {
            Some(count) => *count,
            None => 0,
        }
    }

    /// Sets the count of a replica.
    fn set(&mut self, replica: u64, count: u64)
        ensures { self.new ≡ with_own self.old replica count }
    {
        let place = place_of(replica);
        if place < self.counts.len() {
            self.counts[place] = count;
        }
    }

    /// Counts one operation more. More than there are numbers for don't fit into memory.
    fn add_one(&mut self, replica: u64) -> Result<(), AllocError>
        ensures { OnOk result (self.new ≡ with_own self.old replica (count_at self.old replica + 1)) }
    {
        let Some(count) = self.of(replica).checked_add(1) else {
            return Err(AllocError);
        };
        self.set(replica, count);
        Ok(())
    }

    /// Raises the counts by those of a packet.
    fn raise(&mut self, parcel: &Parcel)
        ensures { self.new ≡ raised_by self.old parcel.now }
    {
        match parcel {
            Parcel::Whole(others) => raise_each(&mut self.counts, &others.counts),
            Parcel::Own { origin, to, .. } => {
                let origin = u64::from(*origin);
                let count = greater(self.of(origin), *to);
                self.set(origin, count);
            }
        }
    }

    fn copy(&self, alloc: Global) -> Result<Self, AllocError>
        ensures { IfOk result (λ counts. counts ≡ self.now) }
    {
        Ok(Counts {
            counts: Vec::from_slice(alloc, &self.counts)?,
        })
    }
}

/// Takes the greater count of each replica.
fn raise_each(counts: &mut [u64], others: &[u64])
    ensures { counts.new ≡ raised_each counts.old others.now }
{
    let Some((count, rest)) = counts.split_first_mut() else {
        return;
    };
    let Some((other, more)) = others.split_first() else {
        return;
    };
    *count = (*count).max(*other);
    raise_each(rest, more);
}

/// A packet: the counts of a whole state, or of a delta its origin and from where to where it is.
#[derive(Drop)]
pub(crate) enum Parcel {
    Whole(Counts),
    Own { origin: u32, from: u64, to: u64 },
}

/// The counts of all replicas, and the packets by the number of their word.
pub(crate) struct Tally {
    pub(crate) replicas: Vec<Counts>,
    pub(crate) packets: Vec<Parcel>,
}

impl Drop for Tally {
    fn drop(self) {
        let Self {
            replicas: _,
            packets: _,
        } = self;
    }
}

impl Tally {
    /// Before the first line.
    pub(crate) fn new(alloc: Global) -> Self
        ensures replicas { result.replicas.items ≡ [] }
        ensures packets { result.packets.items ≡ [] }
    {
        Tally {
            replicas: Vec::new(alloc),
            packets: Vec::new(alloc),
        }
    }

    /// Does what a line says, or opens a script with this many replicas.
    pub(crate) fn take(
        &mut self,
        alloc: Global,
        line: &Option<DeltaLine>,
        replicas: usize,
    ) -> Result<(), AllocError>
        ensures { OnOk result (counted self.new ≡ counted_with (counted self.old) replicas line.now) }
    {
        match line {
            Some(line) => self.follow(alloc, line),
            None => self.open(alloc, replicas),
        }
    }

    /// This many replicas that did nothing.
    fn open(&mut self, alloc: Global, replicas: usize) -> Result<(), AllocError>
        ensures replicas { OnOk result (self.new.replicas.items ≡ no_counts replicas) }
        ensures packets { self.new.packets.items ≡ self.old.packets.items }
    {
        let mut rows = Vec::new(alloc);
        for _ in 0..replicas {
            rows.push(Counts::none(alloc, replicas)?)?;
        }
        self.replicas = rows;
        Ok(())
    }

    /// Does what a line says.
    fn follow(&mut self, alloc: Global, line: &DeltaLine) -> Result<(), AllocError>
        ensures { OnOk result (counted self.new ≡ counted_after (counted self.old) line.now) }
    {
        match line {
            DeltaLine::Plain(line) => self.follow_plain(alloc, line),
            DeltaLine::Delta {
                replica,
                packet,
                from,
            } => {
                let origin = u64::from(*replica);
                let to = count_of(&self.replicas, origin, origin);
                let delta = Parcel::Own {
                    origin: *replica,
                    from: *from,
                    to,
                };
                put(&mut self.packets, *packet as usize, delta)
            }
        }
    }

    /// The same for a line that makes no delta.
    fn follow_plain(&mut self, alloc: Global, line: &Line) -> Result<(), AllocError>
        ensures { OnOk result (counted self.new ≡ counted_after (counted self.old) (Plain line.now)) }
    {
        match line {
            Line::Do(done) => count_one(&mut self.replicas, u64::from(done.replica)),
            Line::Ship { replica, packet } => {
                let counts = copy_at(alloc, &self.replicas, place_of(u64::from(*replica)))?;
                put(&mut self.packets, *packet as usize, Parcel::Whole(counts))
            }
            Line::Deliver { packet, replica } => {
                deliver(
                    &mut self.replicas,
                    place_of(u64::from(*replica)),
                    &self.packets,
                    *packet as usize,
                );
                Ok(())
            }
            Line::Ask { .. } | Line::Show { .. } => Ok(()),
        }
    }
}

impl Tally {
    /// How counts refuse a line that keeps the rules of scripts and names the packet of this number.
    pub(crate) fn refused_by_counts(
        &self,
        number: u64,
        statement: &Statement,
        packet: usize,
    ) -> Option<DeltaScriptError>
        ensures { result ≡ refused_by_counts number (λ r. λ origin. count_at (counts_of self.now.replicas.items r) origin)
            (made_of (parcel_at self.now.packets.items packet)) statement.now.said statement.now.from }
    {
        match (&statement.said, statement.from) {
            (Said::Ships { replica, .. }, Some(from)) => {
                no_count(number, count_of(&self.replicas, *replica, *replica), from)
            }
            (Said::Delivers { replica, .. }, None) => self.gap(number, *replica, packet),
            _ => None,
        }
    }

    /// How a gap before a packet refuses its delivery.
    fn gap(&self, number: u64, replica: u64, packet: usize) -> Option<DeltaScriptError>
        ensures { result ≡ gap number (λ origin. count_at (counts_of self.now.replicas.items replica) origin)
            (made_of (parcel_at self.now.packets.items packet)) }
    {
        match self.packets.get(packet) {
            Some(Parcel::Own { origin, from, .. }) => {
                let have = count_of(&self.replicas, replica, u64::from(*origin));
                gap_of(number, *origin, have, *from)
            }
            _ => None,
        }
    }
}

/// How a count refuses a delta.
fn no_count(number: u64, did: u64, from: u64) -> Option<DeltaScriptError>
    ensures { result ≡ no_count number did from }
{
    if did < from {
        Some(DeltaScriptError::NoCount { line: number })
    } else {
        None
    }
}

/// How a count refuses a delivery.
fn gap_of(number: u64, origin: u32, have: u64, need: u64) -> Option<DeltaScriptError>
    ensures { result ≡ gap_of number origin have need }
{
    if have < need {
        Some(DeltaScriptError::Gap {
            line: number,
            origin,
            have,
            need,
        })
    } else {
        None
    }
}

/// The greater of two counts.
fn greater(count: u64, other: u64) -> u64
    ensures { result ≡ max count other }
{
    count.max(other)
}

/// The place of a replica, which are numbered from 1.
fn place_of(replica: u64) -> usize
    ensures { result ≡ replica - 1 }
{
    replica.saturating_sub(1) as usize
}

/// Puts a packet in place of what its word had, or after the others if the word is new.
fn put<T: Drop>(packets: &mut Vec<T>, packet: usize, new: T) -> Result<(), AllocError>
    ensures { OnOk result (packets.new.items ≡ put packets.old.items packet new) }
{
    if packet < packets.len() {
        packets[packet] = new;
        return Ok(());
    }
    packets.push(new)?;
    Ok(())
}

/// How many operations of an origin a replica has.
fn count_of(rows: &[Counts], replica: u64, origin: u64) -> u64
    ensures { result ≡ count_at (counts_of rows.now replica) origin }
{
    match rows.get(place_of(replica)) {
        Some(counts) => counts.of(origin),
        None => 0,
    }
}

/// A replica does one operation more.
fn count_one(rows: &mut Vec<Counts>, replica: u64) -> Result<(), AllocError>
    ensures { OnOk result (rows.new.items ≡ slice_set rows.old.items (replica - 1)
        (with_own (counts_of rows.old.items replica) replica (count_at (counts_of rows.old.items replica) replica + 1))) }
{
    let place = place_of(replica);
    if place < rows.len() {
        rows[place].add_one(replica)?;
    }
    Ok(())
}

/// A replica absorbs what a packet has.
fn deliver(rows: &mut Vec<Counts>, place: usize, packets: &[Parcel], packet: usize)
    ensures { rows.new.items ≡ slice_set rows.old.items place (raised_by (slice_index_or rows.old.items place [])
        (parcel_at packets.now packet)) }
{
    if place < rows.len() && packet < packets.len() {
        rows[place].raise(&packets[packet]);
    }
}

/// The counts at a place, and none past the end.
fn copy_at(alloc: Global, rows: &[Counts], place: usize) -> Result<Counts, AllocError>
    ensures { IfOk result (λ counts. counts ≡ slice_index_or rows.now place []) }
{
    match rows.get(place) {
        Some(counts) => counts.copy(alloc),
        None => Counts::none(alloc, 0),
    }
}
