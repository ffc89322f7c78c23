//! Candidates that don't hold are taken from a relation, pass by pass, until each that is left is kept by all operations.
ghost use Rattle.std.specs.Prelude.{◌≤◌};

use kat_design::Design;
use kat_num::Items;
use kat_refute::ProofLine;
use kat_relation::{Conjunct, Relation};
use kat_sat::{Decision, decide, is_walkable};
use kat_type::SeqType;
use kat_vc::condition;
use std::alloc::{AllocError, Global};

/// A search for a relation: what must be proved, all candidates, and the leaves of each walk.
#[derive(Clone, Copy)]
pub(crate) struct Search<'a> {
    pub(crate) ty: &'a SeqType,
    pub(crate) design: &'a Design,
    pub(crate) all: &'a [Conjunct],
    pub(crate) effort: u32,
}

/// What comes of some candidates.
#[derive(Drop)]
pub(crate) enum Course {
    /// All conditions of those that are left are refuted, each by the lines at its place.
    Proved {
        relation: Relation,
        proof: Items<Items<ProofLine>>,
    },
    /// With those that are left the condition of a query isn't refuted. Some were left out, since a condition wasn't decided.
    Stopped {
        left_out: Vec<u32>,
        query: u32,
        decision: Decision,
    },
}

/// The candidates that are left, and what was decided of them in this pass.
#[derive(Drop)]
struct Pass {
    numbers: Vec<u32>,
    relation: Relation,
    /// The lines of each condition so far. Once a candidate was taken out they are those of no relation.
    lists: Vec<Items<ProofLine>>,
    is_shorter: bool,
    left_out: Vec<u32>,
    /// A query whose condition isn't refuted any more.
    stop: Option<Stop>,
}

/// A query, and what is decided of its condition, which isn't refuted.
#[derive(Drop)]
struct Stop {
    query: u32,
    decision: Decision,
}

/// Takes candidates out that fail or aren't decided, until all conditions of the others are refuted, or that of a query isn't.
pub(crate) fn settled(
    alloc: Global,
    search: &Search<'_>,
    numbers: Vec<u32>,
) -> Result<Course, AllocError>
    requires effort { (1 ≤ search.now.effort) × (search.now.effort ≤ 10_000) }
{
    let relation = relation_of(alloc, search.all, &numbers)?;
    let mut pass = Pass {
        numbers,
        relation,
        lists: Vec::new(alloc),
        is_shorter: false,
        left_out: Vec::new(alloc),
        stop: None,
    };
    'passes: for _ in 0..search.all.len() {
        go_over(alloc, search, &mut pass)?;
        if !pass.is_shorter || pass.stop.is_some() {
            return ended(alloc, search, pass);
        }
        pass.lists = Vec::new(alloc);
        pass.is_shorter = false;
    }
    ended(alloc, search, pass)
}

/// The relation with its lines, if the conditions of all queries are refuted.
fn ended(alloc: Global, search: &Search<'_>, pass: Pass) -> Result<Course, AllocError>
    requires effort { (1 ≤ search.now.effort) × (search.now.effort ≤ 10_000) }
{
    let Pass {
        numbers: _,
        relation,
        lists,
        is_shorter: _,
        left_out,
        stop,
    } = pass;
    match stop {
        Some(stop) => Ok(Course::Stopped {
            left_out,
            query: stop.query,
            decision: stop.decision,
        }),
        None => answered(alloc, search, relation, lists, left_out),
    }
}

/// The same, if the conditions of all candidates are refuted by these lines.
fn answered(
    alloc: Global,
    search: &Search<'_>,
    relation: Relation,
    lists: Vec<Items<ProofLine>>,
    left_out: Vec<u32>,
) -> Result<Course, AllocError>
    requires effort { (1 ≤ search.now.effort) × (search.now.effort ≤ 10_000) }
{
    let mut proof = lists;
    match first_unanswered(alloc, search, &relation, &mut proof)? {
        Some(stop) => Ok(Course::Stopped {
            left_out,
            query: stop.query,
            decision: stop.decision,
        }),
        None => Ok(Course::Proved {
            relation,
            proof: Items::from_vec(proof),
        }),
    }
}

/// The first query whose condition isn't refuted. Of those before it the lines are appended.
fn first_unanswered(
    alloc: Global,
    search: &Search<'_>,
    relation: &Relation,
    into: &mut Vec<Items<ProofLine>>,
) -> Result<Option<Stop>, AllocError>
    requires effort { (1 ≤ search.now.effort) × (search.now.effort ≤ 10_000) }
{
    'queries: for place in 0..search.ty.queries.as_slice().len() {
        let query = number_of(place)?;
        match decided(alloc, search, relation, turns(search), place)? {
            Decision::Refutation(lines) => into.push(Items::from_vec(lines))?,
            decision => return Ok(Some(Stop { query, decision })),
        }
    }
    Ok(None)
}

/// The turns of conditions before those of the queries: the start, and each operation.
fn turns(search: &Search<'_>) -> usize {
    search.ty.ops.as_slice().len().saturating_add(1)
}

/// Decides the conditions of all candidates that are left, and takes out those that fail or aren't decided.
fn go_over(alloc: Global, search: &Search<'_>, pass: &mut Pass) -> Result<(), AllocError>
    requires effort { (1 ≤ search.now.effort) × (search.now.effort ≤ 10_000) }
{
    'turns: for turn in 0..turns(search) {
        let mut place = 0_usize;
        'places: for _ in 0..pass.numbers.len() {
            if pass.stop.is_some() {
                return Ok(());
            }
            if holds(alloc, search, turn, place, pass)? {
                place = place.saturating_add(1);
            }
        }
    }
    Ok(())
}

/// Whether the candidate at a place holds in a turn; otherwise it is taken out.
fn holds(
    alloc: Global,
    search: &Search<'_>,
    turn: usize,
    place: usize,
    pass: &mut Pass,
) -> Result<bool, AllocError>
    requires effort { (1 ≤ search.now.effort) × (search.now.effort ≤ 10_000) }
{
    match decided(alloc, search, &pass.relation, turn, place)? {
        Decision::Refutation(lines) => {
            pass.lists.push(Items::from_vec(lines))?;
            return Ok(true);
        }
        Decision::Point(_) => {}
        _ => leave_out(place, pass)?,
    }
    let query = query_at(search, place, pass);
    take_out(alloc, search, place, pass)?;
    if let Some(query) = query {
        ask_again(alloc, search, query, pass)?;
    }
    Ok(false)
}

/// Notes that the candidate at a place isn't decided.
fn leave_out(place: usize, pass: &mut Pass) -> Result<(), AllocError> {
    if let Some(number) = pass.numbers.get(place).copied() {
        pass.left_out.push(number)?;
    }
    Ok(())
}

/// The query that the candidate at a place ties, if it is one of those.
fn query_at(search: &Search<'_>, place: usize, pass: &Pass) -> Option<u32> {
    let number = pass.numbers.get(place)?;
    match search.all.get(*number as usize)? {
        Conjunct::Query(query) => Some(*query),
        _ => None,
    }
}

/// Takes the candidate at a place out.
fn take_out(
    alloc: Global,
    search: &Search<'_>,
    place: usize,
    pass: &mut Pass,
) -> Result<(), AllocError> {
    let mut numbers = Vec::new(alloc);
    for (other, number) in pass.numbers.iter().enumerate() {
        if other != place {
            numbers.push(*number)?;
        }
    }
    pass.relation = relation_of(alloc, search.all, &numbers)?;
    pass.numbers = numbers;
    pass.is_shorter = true;
    Ok(())
}

/// Decides the condition of a query whose candidate was taken out: if it isn't refuted, no fewer candidates will do.
fn ask_again(
    alloc: Global,
    search: &Search<'_>,
    query: u32,
    pass: &mut Pass,
) -> Result<(), AllocError>
    requires effort { (1 ≤ search.now.effort) × (search.now.effort ≤ 10_000) }
{
    match decided(alloc, search, &pass.relation, turns(search), query as usize)? {
        Decision::Refutation(_) => {}
        decision => pass.stop = Some(Stop { query, decision }),
    }
    Ok(())
}

/// Decides a condition: in turn 0 that of the candidate at a place at the start, then those of each operation, and of the queries.
/// One that can't be walked is answered as out of memory: its numbers are past the limits of rows.
fn decided(
    alloc: Global,
    search: &Search<'_>,
    relation: &Relation,
    turn: usize,
    place: usize,
) -> Result<Decision, AllocError>
    requires effort { (1 ≤ search.now.effort) × (search.now.effort ≤ 10_000) }
{
    let before = turn.saturating_mul(relation.conjuncts.as_slice().len());
    let number = number_of(before.saturating_add(place).saturating_add(1))?;
    let encoded = condition(alloc, search.ty, search.design, relation, number)?;
    if !is_walkable(&encoded) {
        return Err(AllocError);
    }
    decide(alloc, &encoded, search.effort)
}

/// A place as a number of 32 bits. A greater one is answered as out of memory.
pub(crate) fn number_of(place: usize) -> Result<u32, AllocError> {
    match u32::try_from(place) {
        Ok(number) => Ok(number),
        Err(_) => Err(AllocError),
    }
}

/// The relation of the candidates with these numbers.
fn relation_of(alloc: Global, all: &[Conjunct], numbers: &[u32]) -> Result<Relation, AllocError> {
    let mut conjuncts = Vec::new(alloc);
    for number in numbers {
        if let Some(conjunct) = all.get(*number as usize) {
            let copy = conjunct.copy(alloc)?;
            conjuncts.push(copy)?;
        }
    }
    Ok(Relation {
        conjuncts: Items::from_vec(conjuncts),
    })
}
