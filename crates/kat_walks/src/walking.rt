//! How the case split over an encoded condition ends.
ghost use Rattle.std.specs.Prelude.{◌≡◌, ◌<◌, ◌≤◌, ◌-◌, ◌^◌, ◌∷◌, ◌++◌, ◌||◌, if◌then◌else◌, ℕ, [], IfOk, length, neg_ℤ, reverse, true, unsigned_abs, vec_len};
ghost use Rattle.kat_clause.specs.Literals.{IsUpTo};
ghost use Rattle.kat_form.specs.Encodings.{Encoding, IsFit, encoding};
ghost use Rattle.kat_walks.specs.Stands.{ComesAt, HasLiteral, IsNodeAt, IsWalked, Keeps, StandsAt, added_by, judgement_of, outcome_of};
ghost use Rattle.kat_walks.specs.Walkable.{IsWalkable};
ghost use Rattle.kat_walks.specs.Walks.{Comes, of_both, uses};
ghost use Rattle.kat_walks.specs.Walks.Judgement.{branches, closes};
ghost use Rattle.kat_walks.specs.Walks.Outcome.{core_of};

use crate::cores::leaf_core;
use crate::nodes::judge;
use kat_clause::Clauses;
use kat_form::Encoded;
use std::alloc::{AllocError, Global};

/// How a walk ends that doesn't refute.
#[derive(Debug, Drop)]
pub enum WalkEnd {
    UsedUp,
    MetPoint,
    TooMany {
        lits: Vec<i32>,
        plus: u64,
        minus: u64,
        rest: u64,
    },
    TooWide {
        lits: Vec<i32>,
        left: i128,
        right: i128,
    },
}

/// What a node is: a leaf, with the clause that multipliers give if they do; an end; or a split.
#[derive(Debug, Drop)]
pub(crate) enum Judged {
    Closes(Option<Vec<i32>>),
    Stops(WalkEnd),
    Branches(i32),
}

/// The outcome of a node: its core and the leaves left, or an end.
#[derive(Debug, Drop)]
pub(crate) enum Reached {
    Core { core: Vec<i32>, left: u32 },
    Ended(WalkEnd),
}

/// Walks the node of the path, with this many leaves left. `depth` bounds the splits below it; more are answered as out of memory.
#[cycle(nodes)]
fn node(
    alloc: Global,
    encoded: &Encoded,
    known: &mut Clauses,
    path: &mut Vec<i32>,
    depth: u32,
    left: u32,
) -> Result<Reached, AllocError>
    requires { StandsAt (encoding encoded.now) encoded.now.numbers known.old path.old.items }
    ensures comes { IfOk result (λ r. ComesAt (encoding encoded.now) encoded.now.numbers path.old.items left r) }
    ensures path { IfOk result (λ r. path.new.items ≡ path.old.items) }
    ensures stands { IfOk result (λ r. StandsAt (encoding encoded.now) encoded.now.numbers known.new path.old.items) }
{
    match judge(alloc, encoded, known, path)? {
        Judged::Stops(end) => Ok(Reached::Ended(end)),
        Judged::Closes(own) => close(alloc, encoded, known, path, own, left),
        Judged::Branches(literal) => split(alloc, encoded, known, path, literal, depth, left),
    }
}

/// A leaf.
fn close(
    alloc: Global,
    encoded: &Encoded,
    known: &mut Clauses,
    path: &[i32],
    own: Option<Vec<i32>>,
    left: u32,
) -> Result<Reached, AllocError>
    requires stands { StandsAt (encoding encoded.now) encoded.now.numbers known.old path.now }
    requires node { IsNodeAt (encoding encoded.now) encoded.now.numbers path.now (closes (added_by own)) }
    ensures comes { IfOk result (λ r. ComesAt (encoding encoded.now) encoded.now.numbers path.now left r) }
    ensures stands { IfOk result (λ r. StandsAt (encoding encoded.now) encoded.now.numbers known.new path.now) }
{
    if left == 0 {
        return Ok(Reached::Ended(WalkEnd::UsedUp));
    }
    let core = leaf_core(alloc, encoded, known, path, &own)?;
    Ok(Reached::Core {
        core,
        left: left - 1,
    })
}

/// A split.
#[cycle(nodes)]
fn split(
    alloc: Global,
    encoded: &Encoded,
    known: &mut Clauses,
    path: &mut Vec<i32>,
    literal: i32,
    depth: u32,
    left: u32,
) -> Result<Reached, AllocError>
    requires stands { StandsAt (encoding encoded.now) encoded.now.numbers known.old path.old.items }
    requires literal { IsUpTo (length (encoding encoded.now).senses) literal }
    requires node { IsNodeAt (encoding encoded.now) encoded.now.numbers path.old.items (branches literal) }
    ensures comes { IfOk result (λ r. ComesAt (encoding encoded.now) encoded.now.numbers path.old.items left r) }
    ensures path { IfOk result (λ r. path.new.items ≡ path.old.items) }
    ensures stands { IfOk result (λ r. StandsAt (encoding encoded.now) encoded.now.numbers known.new path.old.items) }
{
    match descend(alloc, encoded, known, path, literal, depth, left)? {
        Reached::Ended(end) => Ok(Reached::Ended(end)),
        Reached::Core { core, left: behind } => go_on(
            alloc, encoded, known, path, literal, depth, core, behind,
        ),
    }
}

/// Walks the node with one literal more.
#[cycle(nodes)]
fn descend(
    alloc: Global,
    encoded: &Encoded,
    known: &mut Clauses,
    path: &mut Vec<i32>,
    literal: i32,
    depth: u32,
    left: u32,
) -> Result<Reached, AllocError>
    requires stands { StandsAt (encoding encoded.now) encoded.now.numbers known.old path.old.items }
    requires literal { IsUpTo (length (encoding encoded.now).senses) literal }
    ensures comes { IfOk result (λ r. Comes (encoding encoded.now) encoded.now.numbers (literal ∷ reverse path.old.items) left
        (outcome_of r)) }
    ensures path { IfOk result (λ r. path.new.items ≡ path.old.items) }
    ensures stands { IfOk result (λ r. StandsAt (encoding encoded.now) encoded.now.numbers known.new path.old.items) }
{
    if depth == 0 {
        return Err(AllocError);
    }
    let kept = path.len();
    known.assume(literal)?;
    path.push(literal)?;
    let reached = node(alloc, encoded, known, path, depth - 1, left)?;
    known.undo(kept);
    path.truncate(kept);
    Ok(reached)
}

/// A split, of which the first node has its core.
#[cycle(nodes)]
fn go_on(
    alloc: Global,
    encoded: &Encoded,
    known: &mut Clauses,
    path: &mut Vec<i32>,
    literal: i32,
    depth: u32,
    first: Vec<i32>,
    behind: u32,
) -> Result<Reached, AllocError>
    requires stands { StandsAt (encoding encoded.now) encoded.now.numbers known.old path.old.items }
    requires literal { IsUpTo (length (encoding encoded.now).senses) literal }
    requires node { IsNodeAt (encoding encoded.now) encoded.now.numbers path.old.items (branches literal) }
    ensures comes { IfOk result (λ r. (left : ℕ) → Comes (encoding encoded.now) encoded.now.numbers (literal ∷ reverse path.old.items) left
        (core_of first.items behind)
        → ComesAt (encoding encoded.now) encoded.now.numbers path.old.items left r) }
    ensures path { IfOk result (λ r. path.new.items ≡ path.old.items) }
    ensures stands { IfOk result (λ r. StandsAt (encoding encoded.now) encoded.now.numbers known.new path.old.items) }
{
    if !has(&first, literal) {
        return Ok(Reached::Core {
            core: first,
            left: behind,
        });
    }
    let other = opposite(literal);
    match descend(alloc, encoded, known, path, other, depth, behind)? {
        Reached::Ended(end) => Ok(Reached::Ended(end)),
        Reached::Core { core, left } => join(alloc, path, other, first, core, left),
    }
}

/// Both nodes of a split have their cores.
fn join(
    alloc: Global,
    path: &[i32],
    other: i32,
    first: Vec<i32>,
    second: Vec<i32>,
    left: u32,
) -> Result<Reached, AllocError>
    ensures { IfOk result (λ r. outcome_of r ≡ core_of (if uses other second.items then of_both
        (reverse path.now) first.items second.items else second.items) left) }
{
    if !has(&second, other) {
        return Ok(Reached::Core { core: second, left });
    }
    let core = both(alloc, path, &first, &second)?;
    Ok(Reached::Core { core, left })
}

/// The literals of the path, the last first, that are in one of two cores.
fn both(alloc: Global, path: &[i32], first: &[i32], second: &[i32]) -> Result<Vec<i32>, AllocError>
    ensures { IfOk result (λ core. core.items ≡ of_both (reverse path.now) first.now second.now) }
{
    path.iter()
        .rev()
        .copied()
        .filter(|k| is_in_one(*k, first, second))
        .collect(alloc)
}

fn is_in_one(literal: i32, first: &[i32], second: &[i32]) -> bool
    ensures { result ≡ (uses literal first.now || uses literal second.now) }
{
    has(first, literal) || has(second, literal)
}

/// Whether the core has the literal.
fn has(core: &[i32], literal: i32) -> bool
    ensures { result ≡ uses literal core.now }
{
    core.contains(&literal)
}

fn opposite(literal: i32) -> i32
    requires { unsigned_abs literal ≤ 2 ^ 28 }
    ensures { result ≡ neg_ℤ literal }
{
    -literal
}

/// How the walk of an encoded condition ends, with at most `effort` leaves, and none if it refutes. A walk with more splits below
/// one another than there are variables is answered as out of memory; there is none.
pub fn walk_end(
    alloc: Global,
    encoded: &Encoded,
    effort: u32,
) -> Result<Option<WalkEnd>, AllocError>
    requires walkable { IsWalkable encoded.now.numbers (encoding encoded.now) }
    requires variables { vec_len encoded.now.meanings ≤ 2 ^ 28 }
    ensures { IfOk result (λ end. IsWalked (encoding encoded.now) encoded.now.numbers effort end) }
{
    let mut known = clauses_in(alloc, encoded)?;
    let mut path = Vec::new(alloc);
    let depth = encoded.meanings.len() as u32 + 1;
    let reached = node(alloc, encoded, &mut known, &mut path, depth, effort)?;
    Ok(end_in(reached))
}

fn end_in(reached: Reached) -> Option<WalkEnd>
    ensures { (e : Encoding) (numbers effort : ℕ) → Comes e numbers [] effort (outcome_of reached) → IsWalked e numbers effort result }
{
    match reached {
        Reached::Core { .. } => None,
        Reached::Ended(end) => Some(end),
    }
}

/// The condition's clauses.
fn clauses_in(alloc: Global, encoded: &Encoded) -> Result<Clauses, AllocError>
    requires fit { IsFit (encoding encoded.now) }
    requires variables { vec_len encoded.now.meanings ≤ 2 ^ 28 }
    ensures keeps { IfOk result (λ known. Keeps (encoding encoded.now) known) }
    ensures assumed { IfOk result (λ known. known.assumed ≡ []) }
{
    let mut known = Clauses::new(alloc, encoded.meanings.len() as u32)?;
    for clause in &encoded.clauses {
        known.add(alloc, clause)?;
    }
    Ok(known)
}
