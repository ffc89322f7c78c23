//! A relation for a design: few conjuncts are tried first, and then all candidates, except for those that fail or aren't decided.
//!
//! To keep fewer conjuncts is always sound, and nothing is promised of a relation that is given: whoever takes it has its lines
//! judged.
ghost use Rattle.std.specs.Prelude.{◌≤◌};

use crate::passes::{Course, Search, number_of, settled};
use kat_candidate::{Place1, candidates};
use kat_design::Design;
use kat_drop::Drop1;
use kat_num::Items;
use kat_prove::{Proving, prove};
use kat_refute::ProofLine;
use kat_relation::{Conjunct, LeafRef, Relation};
use kat_sat::Decision;
use kat_type::SeqType;
use std::alloc::{AllocError, Global};

/// What comes of the search for a relation.
#[derive(Drop)]
pub enum Related {
    /// Each condition of the relation is refuted, by the lines at its place.
    Proved {
        relation: Relation,
        proof: Items<Items<ProofLine>>,
    },
    /// No relation is proved, for what is in the way.
    Unproved(Blocked),
}

/// What is in the way of a proof.
#[derive(Drop)]
pub struct Blocked {
    /// The candidates that fail, in the order in which they were dropped.
    pub drops: Vec<Drop1>,
    /// The numbers of the candidates that were left out, since a condition of theirs wasn't decided.
    pub left_out: Vec<u32>,
    /// The query whose condition isn't refuted with those that are left, and what is decided of it.
    pub query: u32,
    pub decision: Decision,
}

/// Few candidates that are tried before all of them.
#[derive(Clone, Copy, PartialEq, Eq)]
enum Selection {
    /// Queries and sums.
    Queries,
    /// Those, and fields that are leaves.
    Ties,
    /// Those, and the first leaves of components beside the first elements of ranks.
    Ranks,
}

/// Searches a relation for a design: of few candidates, and then of all. A candidate that has a condition which isn't decided is
/// left out, and the search goes on.
///
/// Each condition is decided with at most `effort` leaves.
pub fn relate(
    alloc: Global,
    ty: &SeqType,
    design: &Design,
    effort: u32,
) -> Result<Related, AllocError>
    requires effort { (1 ≤ effort) × (effort ≤ 10_000) }
{
    let all = candidates(alloc, ty, design)?;
    let search = Search {
        ty,
        design,
        all: all.conjuncts.as_slice(),
        effort,
    };
    searched(alloc, &search)
}

/// A relation of few candidates, or else of all.
fn searched(alloc: Global, search: &Search<'_>) -> Result<Related, AllocError>
    requires effort { (1 ≤ search.now.effort) × (search.now.effort ≤ 10_000) }
{
    if let Some(few) = few_related(alloc, search)? {
        return Ok(few);
    }
    match prove(alloc, search.ty, search.design, search.effort)? {
        Proving::Proved {
            drops: _,
            relation,
            proof,
        } => Ok(Related::Proved { relation, proof }),
        Proving::OpenCert {
            drops,
            query,
            point,
        } => Ok(stopped_at(alloc, drops, query, Decision::Point(point))),
        Proving::Stuck {
            drops,
            at,
            decision,
        } => match at {
            Place1::Query(query) => Ok(stopped_at(alloc, drops, query, decision)),
            _ => most_related(alloc, search, drops),
        },
    }
}

/// No relation is proved for the condition of a query, and no candidate was left out.
fn stopped_at(alloc: Global, drops: Vec<Drop1>, query: u32, decision: Decision) -> Related {
    Related::Unproved(Blocked {
        drops,
        left_out: Vec::new(alloc),
        query,
        decision,
    })
}

/// A relation of few candidates: if the first leaves of components go with ranks, of these, queries, sums and ties, and otherwise
/// of queries and sums alone, or with the ties.
fn few_related(alloc: Global, search: &Search<'_>) -> Result<Option<Related>, AllocError>
    requires effort { (1 ≤ search.now.effort) × (search.now.effort ≤ 10_000) }
{
    let queries = few(alloc, search.all, Selection::Queries)?;
    let ties = few(alloc, search.all, Selection::Ties)?;
    let ranks = few(alloc, search.all, Selection::Ranks)?;
    if ranks.len() > ties.len() {
        return proved_of(alloc, search, ranks);
    }
    let has_ties = ties.len() > queries.len();
    if let Some(related) = proved_of(alloc, search, queries)? {
        return Ok(Some(related));
    }
    if has_ties {
        return proved_of(alloc, search, ties);
    }
    Ok(None)
}

/// A relation of the candidates with these numbers, if it is proved.
fn proved_of(
    alloc: Global,
    search: &Search<'_>,
    numbers: Vec<u32>,
) -> Result<Option<Related>, AllocError>
    requires effort { (1 ≤ search.now.effort) × (search.now.effort ≤ 10_000) }
{
    match settled(alloc, search, numbers)? {
        Course::Proved { relation, proof } => Ok(Some(Related::Proved { relation, proof })),
        Course::Stopped { .. } => Ok(None),
    }
}

/// The numbers of the candidates that are selected.
fn few(alloc: Global, all: &[Conjunct], selection: Selection) -> Result<Vec<u32>, AllocError> {
    let mut numbers = Vec::new(alloc);
    for (place, conjunct) in all.iter().enumerate() {
        if is_selected(conjunct, selection) {
            numbers.push(number_of(place)?)?;
        }
    }
    Ok(numbers)
}

/// Whether a candidate is selected.
fn is_selected(conjunct: &Conjunct, selection: Selection) -> bool {
    match conjunct {
        Conjunct::Query(_) => true,
        Conjunct::Total(_) => true,
        Conjunct::Equal { .. } => selection != Selection::Queries,
        Conjunct::Bounded { leaves, position } => {
            selection == Selection::Ranks && *position == 0 && are_first(leaves.as_slice())
        }
        Conjunct::AtLeast { .. } => selection == Selection::Ranks,
        Conjunct::Matched { .. } => false,
    }
}

/// Whether leaves are the first ones of their component, in order.
fn are_first(leaves: &[LeafRef]) -> bool {
    leaves
        .iter()
        .enumerate()
        .all(|(place, leaf)| leaf.leaf as usize == place)
}

/// A relation of the candidates that don't fail, except for those that aren't decided.
fn most_related(
    alloc: Global,
    search: &Search<'_>,
    drops: Vec<Drop1>,
) -> Result<Related, AllocError>
    requires effort { (1 ≤ search.now.effort) × (search.now.effort ≤ 10_000) }
{
    let numbers = kept(alloc, search.all.len(), &drops)?;
    match settled(alloc, search, numbers)? {
        Course::Proved { relation, proof } => Ok(Related::Proved { relation, proof }),
        Course::Stopped {
            left_out,
            query,
            decision,
        } => Ok(Related::Unproved(Blocked {
            drops,
            left_out,
            query,
            decision,
        })),
    }
}

/// The numbers of the candidates that aren't dropped.
fn kept(alloc: Global, count: usize, drops: &[Drop1]) -> Result<Vec<u32>, AllocError> {
    let mut numbers = Vec::new(alloc);
    for place in 0..count {
        let number = number_of(place)?;
        if !is_dropped(drops, number) {
            numbers.push(number)?;
        }
    }
    Ok(numbers)
}

/// Whether the candidate with a number is dropped.
fn is_dropped(drops: &[Drop1], number: u32) -> bool {
    drops.iter().any(|dropped| match dropped.at {
        Place1::Start { conjunct } => conjunct == number,
        Place1::Step { conjunct, .. } => conjunct == number,
        Place1::Query(_) => false,
    })
}
