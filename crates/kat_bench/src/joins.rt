//! `joins KIND ENTRIES` times joins of the growing types `set`, `map` or `tally`: it prints the microseconds of the
//! fastest of five rounds of joins, and how many entries the result has. Without words it does nothing.
ghost use Rattle.std.specs.Prelude.{◌≡◌, IfOk, pos};

use crate::words::{next_number, print_line};
use kat_lattice::{GrowMap, GrowSet, Lattice, Max, Tally, tells_numbers_apart};
use kat_table::push_number;
use std::alloc::{AllocError, Global};
use std::env::Args;
use std::io;
use std::time::Instant;

// Makes the join of two values, over and over; `None` if the second is absorbed.
fn joined<L: Lattice>(alloc: Global, a: &L, b: &L, rounds: u32) -> Result<Option<L>, AllocError>
    requires { L.kin a.now b.now }
{
    let mut whole = None;
    for _ in 0..rounds {
        whole = a.stage(alloc, b)?;
    }
    Ok(whole)
}

// The microseconds of the fastest of five such rounds, and the join.
fn timed<L: Lattice>(rt: &HostRuntime, a: &L, b: &L, rounds: u32) -> io::Result<(u128, Option<L>)>
    requires { L.kin a.now b.now }
{
    let mut least = u128::MAX;
    let mut whole = None;
    for _ in 0..5 {
        let start = Instant::now(rt)?;
        whole = joined(rt.alloc(), a, b, rounds)?;
        least = least.min(start.elapsed(rt)?.as_micros());
    }
    Ok((least, whole))
}

// The set of the first n multiples of a number.
fn set_of(alloc: Global, n: u32, step: u32) -> Result<GrowSet<u64>, AllocError> {
    let mut set = GrowSet::new(alloc);
    for i in 0..n {
        set.insert(alloc, u64::from(i).wrapping_mul(u64::from(step)))?;
    }
    Ok(set)
}

// The time of joins of two sets, and how many keys the join has.
fn time_sets(
    rt: &HostRuntime,
    a: &GrowSet<u64>,
    b: &GrowSet<u64>,
    rounds: u32,
) -> io::Result<(u128, usize)> {
    tells_numbers_apart();
    a.goes_with(b);
    let (least, whole) = timed(rt, a, b, rounds)?;
    let entries = whole.as_ref().unwrap_or(a).keys().len();
    Ok((least, entries))
}

fn sets(rt: &HostRuntime, n: u32, rounds: u32) -> io::Result<(u128, usize)> {
    let a = set_of(rt.alloc(), n, 2)?;
    let b = set_of(rt.alloc(), n, 3)?;
    time_sets(rt, &a, &b, rounds)
}

// The map that has a value at each of the first n multiples of a number.
fn map_of(alloc: Global, n: u32, step: u32, value: i128) -> Result<GrowMap<u64, Max>, AllocError>
    ensures { IfOk result (λ map. map.start ≡ record { 0 = pos 0 }) }
{
    let mut map = GrowMap::new(alloc, Max(0));
    for i in 0..n {
        map.join_at(
            alloc,
            u64::from(i).wrapping_mul(u64::from(step)),
            &Max(value),
        )?;
    }
    Ok(map)
}

// The time of joins of two maps, and how many entries the join has.
fn time_maps(
    rt: &HostRuntime,
    a: &GrowMap<u64, Max>,
    b: &GrowMap<u64, Max>,
    rounds: u32,
) -> io::Result<(u128, usize)>
    requires { a.now.start ≡ b.now.start }
{
    tells_numbers_apart();
    a.goes_with(b);
    let (least, whole) = timed(rt, a, b, rounds)?;
    let entries = whole.as_ref().unwrap_or(a).entries().len();
    Ok((least, entries))
}

fn maps(rt: &HostRuntime, n: u32, rounds: u32) -> io::Result<(u128, usize)> {
    let a = map_of(rt.alloc(), n, 2, 5)?;
    let b = map_of(rt.alloc(), n, 3, 7)?;
    time_maps(rt, &a, &b, rounds)
}

// The tally in which each replica of a range has one sum.
fn tally_of(alloc: Global, from: u32, to: u32, sum: u8) -> Result<Tally, AllocError> {
    let mut tally = Tally::new(alloc);
    for i in from..to {
        tally.bump(alloc, i, u128::from(sum))?;
    }
    Ok(tally)
}

// The time of joins of two tallies, and how many sums the join has.
fn time_tallies(rt: &HostRuntime, a: &Tally, b: &Tally, rounds: u32) -> io::Result<(u128, usize)> {
    a.goes_with(b);
    let (least, whole) = timed(rt, a, b, rounds)?;
    let entries = whole.as_ref().unwrap_or(a).sums().len();
    Ok((least, entries))
}

fn tallies(rt: &HostRuntime, n: u32, rounds: u32) -> io::Result<(u128, usize)> {
    let a = tally_of(rt.alloc(), 0, n, 5)?;
    let b = tally_of(rt.alloc(), n / 2, n.saturating_add(n / 2), 7)?;
    time_tallies(rt, &a, &b, rounds)
}

// Times a kind with this many entries, and reports it.
fn tell(rt: &HostRuntime, kind: &str, n: u32) -> io::Result<()> {
    if n == 0 {
        return Ok(());
    }
    let rounds = 4_000_000 / n;
    let (least, entries) = match kind {
        "set" => sets(rt, n, rounds)?,
        "map" => maps(rt, n, rounds)?,
        "tally" => tallies(rt, n, rounds)?,
        _ => return Ok(()),
    };
    let mut text = Vec::new(rt.alloc());
    push_number(&mut text, "", least)?;
    push_number(&mut text, " entries ", entries)?;
    print_line(rt, text)
}

pub(crate) fn measure(rt: &HostRuntime, mut words: Args) -> io::Result<()> {
    let Some(kind) = words.next() else {
        return Ok(());
    };
    let n = next_number(&mut words);
    tell(rt, kind.as_str(), n)
}
