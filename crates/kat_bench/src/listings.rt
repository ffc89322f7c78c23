//! `listing PATH SIZE COUNT` goes through the listing of a type's designs up to a size, and then looks for this many at random
//! numbers of those that were given. It prints how many were given, and how many were found.
ghost use Rattle.std.specs.Prelude.{◌≤◌, ◌+◌, IfOk, length};
ghost use Rattle.kat_gram.specs.Listings.{given_of};
ghost use Rattle.kat_type.specs.Fits.{IsWellSorted};
ghost use Rattle.kat_type.specs.Types.{type_form};

use crate::words::{next_number, print_line};
use kat_gram::{Kinds, Listing};
use kat_table::push_number;
use kat_type::SeqType;
use kat_type_file::read_type;
use std::alloc::{AllocError, Global};
use std::env::Args;
use std::{fs, io};

const ALL: Kinds = Kinds {
    cell: true,
    table: true,
    set: true,
    tally: true,
    tallies: true,
};

// Goes through a listing to its end, or to the last number that a design may have.
fn go_through(alloc: Global, listing: &mut Listing) -> Result<(), AllocError>
    requires { length (given_of listing.old) ≤ 0 }
    ensures { length (given_of listing.new) ≤ 1_000_001 }
{
    'designs: for _ in 0..1_000_001u64 {
        if !listing.advance(alloc)? {
            break;
        }
    }
    Ok(())
}

// A number from 1 up to a bound, by a linear congruence.
fn drawn(seed: &mut u64, bound: u64) -> u64
    requires { 1 ≤ bound }
    ensures { result ≤ bound }
{
    *seed = seed
        .wrapping_mul(6_364_136_223_846_793_005)
        .wrapping_add(1_442_695_040_888_963_407);
    (*seed >> 33) % bound + 1
}

// How many designs are found at so many random numbers of those that were given.
fn taken(alloc: Global, listing: &Listing, count: u32) -> Result<u32, AllocError>
    requires { length (given_of listing.now) ≤ 1_000_001 }
{
    let given = listing.count();
    if given == 0 {
        return Ok(0);
    }
    let mut seed = 1;
    let mut found: u32 = 0;
    for _ in 0..count {
        let number = drawn(&mut seed, given);
        if listing.at(alloc, number)?.is_some() {
            found = found.saturating_add(1);
        }
    }
    Ok(found)
}

// How many designs a listing gives, and how many of this many numbers have one.
fn counted(alloc: Global, listing: &mut Listing, count: u32) -> Result<(u64, u32), AllocError>
    requires { length (given_of listing.old) ≤ 0 }
{
    go_through(alloc, listing)?;
    let found = taken(alloc, listing, count)?;
    Ok((listing.count(), found))
}

// The same of a type's designs up to a size.
fn listed(alloc: Global, ty: &SeqType, size: u32, count: u32) -> Result<(u64, u32), AllocError>
    requires sorted { IsWellSorted (type_form ty.now) }
    requires some { 1 ≤ size }
    requires small { size ≤ 24 }
{
    let mut listing = Listing::new(alloc, ty, size, ALL)?;
    counted(alloc, &mut listing, count)
}

// The same with the type's text; `None` if it is no type, or memory runs out.
fn measured(alloc: Global, text: &[u8], size: u32, count: u32) -> Option<(u64, u32)>
    requires some { 1 ≤ size }
    requires small { size ≤ 24 }
{
    match read_type(alloc, text) {
        Ok(ty) => listed(alloc, &ty, size, count).ok(),
        Err(_) => None,
    }
}

// Appends what was found of this many numbers.
fn push_found(
    text: &mut Vec<u8>,
    counts: Option<(u64, u32)>,
    count: u32,
) -> Result<(), AllocError> {
    match counts {
        Some((given, found)) => {
            push_number(text, "", given)?;
            push_number(text, " designs, ", found)?;
            push_number(text, " of ", count)?;
            text.extend_from_slice(b" found")
        }
        None => text.extend_from_slice(b"not read"),
    }
}

// What is reported of a file.
fn told(rt: &HostRuntime, path: &str, size: u32, count: u32) -> io::Result<Vec<u8>> {
    let mut text = Vec::new(rt.alloc());
    if size < 1 || size > 24 {
        text.extend_from_slice(b"no size")?;
    } else {
        let bytes = fs::read(rt, path)?;
        push_found(&mut text, measured(rt.alloc(), &bytes, size, count), count)?;
    }
    Ok(text)
}

pub(crate) fn measure(rt: &HostRuntime, mut words: Args) -> io::Result<()> {
    let Some(path) = words.next() else {
        return Ok(());
    };
    let size = next_number(&mut words);
    let count = next_number(&mut words);
    print_line(rt, told(rt, path.as_str(), size, count)?)
}
