//! `watches ROUNDS` draws 20,000 clauses of three literals over 5,000 variables. In each round it assumes 100 drawn literals,
//! those that are open, propagates, and takes all back. It prints how many literals were assigned in all, in the rounds in which
//! no clause was falsified.
ghost use Rattle.std.specs.Prelude.{◌≡◌, ◌≢◌, neg_ℤ, IsTrue, IfOk};
ghost use Rattle.kat_watch.specs.Watched.{IsLiteral};

use crate::words::print_line;
use kat_table::{number_of, push_number};
use kat_watch::{Propagation, Watches};
use std::alloc::{AllocError, Global};
use std::env::Args;
use std::io;

const VARIABLES: u32 = 5_000;

const CLAUSES: u32 = 20_000;

const ASSUMED: u32 = 100;

// The next number of a sequence.
fn next(seed: &mut u32) -> u32 {
    *seed = seed.wrapping_mul(1_664_525).wrapping_add(1_013_904_223);
    *seed >> 8
}

// The literal of a drawn number.
fn literal(draw: u32) -> i32
    ensures { IsLiteral 5_000 result }
{
    let variable = (draw / 2 % VARIABLES) as i32 + 1;
    if draw % 2 == 0 { variable } else { -variable }
}

// The literal's opposite.
fn opposite(literal: i32) -> i32
    requires { IsLiteral 5_000 literal }
    ensures is { result ≡ neg_ℤ literal }
    ensures literal { IsLiteral 5_000 result }
{
    -literal
}

// Whether two literals are of two variables.
fn differ(one: i32, two: i32) -> bool
    ensures { IsTrue result → one ≢ two }
{
    one.unsigned_abs() != two.unsigned_abs()
}

// Adds a clause of three literals, if they are of three variables.
fn add(watches: &mut Watches, alloc: Global, a: i32, b: i32, c: i32) -> Result<(), AllocError>
    requires greatest { watches.old.greatest ≡ 5_000 }
    requires a { IsLiteral 5_000 a }
    requires b { IsLiteral 5_000 b }
    requires c { IsLiteral 5_000 c }
    ensures greatest { watches.new.greatest ≡ 5_000 }
{
    if !differ(a, b) {
        return Ok(());
    }
    if !differ(a, c) {
        return Ok(());
    }
    if !differ(b, c) {
        return Ok(());
    }
    let clause = [a, b, c];
    watches.add(alloc, &clause)?;
    Ok(())
}

// Adds the drawn clauses.
fn add_drawn(watches: &mut Watches, alloc: Global, seed: &mut u32) -> Result<(), AllocError>
    requires { watches.old.greatest ≡ 5_000 }
    ensures { watches.new.greatest ≡ 5_000 }
{
    for _ in 0..CLAUSES {
        let a = literal(next(seed));
        let b = literal(next(seed));
        let c = literal(next(seed));
        add(watches, alloc, a, b, c)?;
    }
    Ok(())
}

// Assumes a literal, if it is open.
fn assume(watches: &mut Watches, literal: i32)
    requires greatest { watches.old.greatest ≡ 5_000 }
    requires literal { IsLiteral 5_000 literal }
    ensures { watches.new.greatest ≡ 5_000 }
{
    if watches.has(literal) {
        return;
    }
    if watches.has(opposite(literal)) {
        return;
    }
    watches.assume(literal);
}

// Assumes drawn literals, propagates and takes all back; how many were assigned, if no clause was falsified.
fn round(watches: &mut Watches, seed: &mut u32) -> usize
    requires { watches.old.greatest ≡ 5_000 }
    ensures { watches.new.greatest ≡ 5_000 }
{
    for _ in 0..ASSUMED {
        assume(watches, literal(next(seed)));
    }
    let answer = watches.propagate();
    let assigned = watches.trail().len();
    watches.undo(0);
    match answer {
        Propagation::Quiet => assigned,
        Propagation::Conflict(_) => 0,
    }
}

// How many literals are assigned in so many rounds over the drawn clauses.
fn assigned_in(watches: &mut Watches, alloc: Global, rounds: u32) -> Result<usize, AllocError>
    requires { watches.old.greatest ≡ 5_000 }
{
    let mut seed = 1;
    add_drawn(watches, alloc, &mut seed)?;
    let mut assigned: usize = 0;
    for _ in 0..rounds {
        assigned = assigned.wrapping_add(round(watches, &mut seed));
    }
    Ok(assigned)
}

// What is reported of this many rounds.
fn told(alloc: Global, rounds: u32) -> Result<Vec<u8>, AllocError> {
    let mut watches = Watches::new(alloc, VARIABLES)?;
    let assigned = assigned_in(&mut watches, alloc, rounds)?;
    let mut text = Vec::new(alloc);
    push_number(&mut text, "", assigned)?;
    Ok(text)
}

pub(crate) fn measure(rt: &HostRuntime, mut words: Args) -> io::Result<()> {
    let rounds = match words.next() {
        Some(word) => number_of(word.as_str()).unwrap_or(1),
        None => 1,
    };
    print_line(rt, told(rt.alloc(), rounds)?)
}
