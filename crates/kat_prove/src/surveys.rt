//! All conditions of a relation are decided, in their order.
ghost use Rattle.std.specs.Prelude.{◌≡◌, ◌++◌, ◌∷◌, [], ◌-◌, ◌<◌, ◌≤◌, ◌^◌, IfOk, Some, None};
ghost use Rattle.kat_cases.specs.Answers.{answer_of};
ghost use Rattle.kat_type.specs.Types.{type_form};
ghost use Rattle.kat_vc.specs.Conditions.{condition_count};
ghost use Rattle.kat_prove.specs.Trials.{AreSeen, IsDecided, IsFound, IsNoted, IsSurveyed, Notes, Sorts, condition_facts, trial_form};

use crate::seen::Seen;
use crate::trials::Trial;
use kat_form::Encoded;
use kat_num::Items;
use kat_refute::ProofLine;
use kat_relation::Relation;
use kat_sat::{Decision, Point, decide, is_walkable};
use kat_type::SeqType;
use kat_vc::condition;
use std::alloc::{AllocError, Global};

/// What the walk finds of a condition.
#[derive(Drop)]
pub(crate) enum Found {
    /// Lines that refute it.
    Refuted(Vec<ProofLine>),
    /// A point at which it fails.
    Fails(Point),
    /// Neither: the decision says why.
    Open(Decision),
}

/// The first condition that isn't refuted, and how its walk gives up.
#[derive(Drop)]
pub(crate) struct Stop {
    pub number: u32,
    pub decision: Decision,
}

/// What was decided of conditions none of which fails: lists of lines up to the first that isn't refuted.
#[derive(Drop)]
pub(crate) struct Survey {
    pub lists: Vec<Items<ProofLine>>,
    pub stop: Option<Stop>,
}

/// What is decided of all conditions of a relation.
#[derive(Drop)]
pub(crate) enum Surveyed {
    /// The condition with this number, from 1, fails at a point.
    Fails { number: u32, point: Point },
    /// None fails.
    Quiet(Survey),
}

/// Decides the condition with a number, from 1: by the walk, and if that gives up, by a further search. One that can't be walked
/// is answered as out of memory: its numbers are past the limits of rows. `last` is the condition then.
pub(crate) fn find(
    alloc: Global,
    trial: &Trial<'_>,
    relation: &Relation,
    number: u32,
    last: &mut Option<Encoded>,
) -> Result<Found, AllocError>
    requires effort { (1 ≤ trial.now.effort) × (trial.now.effort ≤ 10_000) }
    ensures { IfOk result (IsFound (condition_facts (trial_form trial.now) relation.now.conjuncts number) trial.now.effort) }
{
    let decision = decided(alloc, trial, relation, number, last)?;
    Ok(sorted(decision))
}

fn decided(
    alloc: Global,
    trial: &Trial<'_>,
    relation: &Relation,
    number: u32,
    last: &mut Option<Encoded>,
) -> Result<Decision, AllocError>
    requires effort { (1 ≤ trial.now.effort) × (trial.now.effort ≤ 10_000) }
    ensures { IfOk result (λ decision.
        IsDecided (condition_facts (trial_form trial.now) relation.now.conjuncts number) trial.now.effort (answer_of decision)) }
{
    let encoded = condition(alloc, trial.ty, trial.design, relation, number)?;
    if !is_walkable(&encoded) {
        return Err(AllocError);
    }
    let decision = decide(alloc, &encoded, trial.effort);
    *last = Some(encoded);
    decision
}

/// A decision by its kind.
fn sorted(decision: Decision) -> Found
    ensures { Sorts decision result }
{
    match decision {
        Decision::Refutation(lines) => Found::Refuted(lines),
        Decision::Point(point) => Found::Fails(point),
        Decision::Spent => Found::Open(Decision::Spent),
        Decision::Rows {
            lits,
            plus,
            minus,
            rest,
        } => Found::Open(Decision::Rows {
            lits,
            plus,
            minus,
            rest,
        }),
        Decision::Wide { lits, left, right } => Found::Open(Decision::Wide { lits, left, right }),
    }
}

/// What is found of the condition with a number, if it was seen, and else by deciding it.
fn find_once(
    alloc: Global,
    trial: &Trial<'_>,
    relation: &Relation,
    seen: &mut Seen,
    number: u32,
    last: &mut Option<Encoded>,
) -> Result<Found, AllocError>
    requires effort { (1 ≤ trial.now.effort) × (trial.now.effort ≤ 10_000) }
    requires seen { AreSeen (trial_form trial.now) relation.now.conjuncts seen.old }
    ensures found { IfOk result (IsFound (condition_facts (trial_form trial.now) relation.now.conjuncts number) trial.now.effort) }
    ensures seen { IfOk result (λ found. AreSeen (trial_form trial.now) relation.now.conjuncts seen.new) }
{
    if let Some(found) = seen.take(number) {
        return Ok(found);
    }
    find(alloc, trial, relation, number, last)
}

/// Decides all conditions of a relation, up to the first that fails, but those that were seen. `last` is the one that was decided last.
pub(crate) fn survey_all(
    alloc: Global,
    trial: &Trial<'_>,
    relation: &Relation,
    seen: &mut Seen,
    last: &mut Option<Encoded>,
) -> Result<Surveyed, AllocError>
    requires effort { (1 ≤ trial.now.effort) × (trial.now.effort ≤ 10_000) }
    requires seen { AreSeen (trial_form trial.now) relation.now.conjuncts seen.old }
    ensures { IfOk result (IsSurveyed (trial_form trial.now) relation.now.conjuncts) }
{
    let count = conditions_of(trial.ty, relation)?;
    let mut survey = Survey {
        lists: Vec::new(alloc),
        stop: None,
    };
    for i in 0..count {
        let number = i + 1;
        let found = find_once(alloc, trial, relation, seen, number, last)?;
        match noted(survey, number, found)? {
            Surveyed::Fails { number, point } => return Ok(Surveyed::Fails { number, point }),
            Surveyed::Quiet(longer) => survey = longer,
        }
    }
    Ok(Surveyed::Quiet(survey))
}

/// What is found of a further condition.
fn noted(survey: Survey, number: u32, found: Found) -> Result<Surveyed, AllocError>
    ensures { IfOk result (IsNoted survey number found) }
{
    match found {
        Found::Fails(point) => Ok(Surveyed::Fails { number, point }),
        Found::Refuted(lines) => {
            let longer = refuted(survey, lines)?;
            Ok(Surveyed::Quiet(longer))
        }
        Found::Open(decision) => Ok(Surveyed::Quiet(stopped(survey, number, decision))),
    }
}

/// A further condition is refuted.
fn refuted(survey: Survey, lines: Vec<ProofLine>) -> Result<Survey, AllocError>
    ensures { IfOk result (Notes survey (Some lines.items) None) }
{
    let Survey { lists, stop } = survey;
    match stop {
        Some(stop) => Ok(Survey {
            lists,
            stop: Some(stop),
        }),
        None => Ok(Survey {
            lists: with_list(lists, lines)?,
            stop: None,
        }),
    }
}

fn with_list(
    lists: Vec<Items<ProofLine>>,
    lines: Vec<ProofLine>,
) -> Result<Vec<Items<ProofLine>>, AllocError>
    ensures { IfOk result (λ longer. longer.items ≡ lists.items ++ lines.items ∷ []) }
{
    let mut longer = lists;
    longer.push(Items::from_vec(lines))?;
    Ok(longer)
}

/// A further condition isn't refuted.
fn stopped(survey: Survey, number: u32, decision: Decision) -> Survey
    ensures { Notes survey None (Some (record { number = number; decision = decision })) result }
{
    let Survey { lists, stop } = survey;
    match stop {
        Some(first) => Survey {
            lists,
            stop: Some(first),
        },
        None => Survey {
            lists,
            stop: Some(Stop { number, decision }),
        },
    }
}

/// How many conditions there are. As many as 32 bits count are out of memory.
pub(crate) fn conditions_of(ty: &SeqType, relation: &Relation) -> Result<u32, AllocError>
    ensures count { IfOk result (λ count. count ≡ condition_count (type_form ty.now) relation.now.conjuncts) }
    ensures few { IfOk result (λ count. count < 2 ^ 32 - 1) }
{
    let conjuncts = relation.conjuncts.as_slice().len() as u128;
    let ops = ty.ops.as_slice().len() as u128;
    let queries = ty.queries.as_slice().len() as u128;
    let count = conjuncts + ops * conjuncts + queries;
    if count >= u32::MAX as u128 {
        return Err(AllocError);
    }
    Ok(count as u32)
}
