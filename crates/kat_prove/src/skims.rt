//! Candidates that fail are dropped one after the other.
ghost use Rattle.std.specs.Prelude.{◌≡◌, ◌≤◌, IfOk, IfSome, List, length};
ghost use Rattle.kat_relation.specs.declared.relations.Conjunct.{Conjunct};
ghost use Rattle.kat_drop.specs.Certificates.{point_form};
ghost use Rattle.kat_prove.specs.Trials.{AreSeen, Holds, IsDecisiveFor, IsFailed, IsFound, IsNoLonger, IsSkim, TrialForm, condition_facts, trial_form};

use crate::seen::Seen;
use crate::surveys::{Found, conditions_of, find};
use crate::trials::{Kept, Trial, dropped, place_of};
use kat_candidate::Place1;
use kat_drop::Drop1;
use kat_form::Encoded;
use kat_point::carried;
use kat_relation::Relation;
use kat_sat::Point;
use kat_type::SeqType;
use kat_vc::condition;
use std::alloc::{AllocError, Global};

/// What follows from a condition that fails.
#[derive(Drop)]
pub(crate) enum Failed {
    /// It is that of a query.
    Query {
        kept: Kept,
        query: u32,
        point: Point,
    },
    /// Its candidate is dropped. The condition with this number is the next one among those that are left.
    Dropped {
        kept: Kept,
        next: u32,
    },
}

/// The condition with a number fails at a point.
pub(crate) fn drop_failed(
    alloc: Global,
    trial: &Trial<'_>,
    kept: Kept,
    number: u32,
    point: Point,
) -> Result<Failed, AllocError>
    requires holds { Holds (trial_form trial.now) kept }
    requires decisive { IsDecisiveFor (condition_facts (trial_form trial.now) kept.relation.conjuncts number) (point_form point) }
    ensures { IfOk result (IsFailed (trial_form trial.now) kept number point) }
{
    match place_of(trial.ty, &kept.numbers, number)? {
        Place1::Query(query) => Ok(Failed::Query { kept, query, point }),
        Place1::Start { conjunct } => {
            let at = Place1::Start { conjunct };
            let kept = dropped(alloc, trial, kept, conjunct, Drop1 { at, point })?;
            Ok(Failed::Dropped { kept, next: number })
        }
        Place1::Step { op, conjunct } => {
            let at = Place1::Step { op, conjunct };
            let kept = dropped(alloc, trial, kept, conjunct, Drop1 { at, point })?;
            let next = number.saturating_sub(op).saturating_sub(1);
            Ok(Failed::Dropped { kept, next })
        }
    }
}

/// A point of a step's condition, which is tried on other candidates of its operation.
struct Shared {
    op: u32,
    conjunct: u32,
    encoded: Encoded,
    point: Point,
}

impl Drop for Shared {
    fn drop(self) {
        let Self {
            op: _,
            conjunct: _,
            encoded: _,
            point: _,
        } = self;
    }
}

/// The condition with a number fails at a point: if it is an operation's, other candidates that the operation doesn't keep
/// there are dropped with its own. `failed` is that condition.
pub(crate) fn drop_with_others(
    alloc: Global,
    trial: &Trial<'_>,
    kept: Kept,
    number: u32,
    point: Point,
    failed: Option<Encoded>,
) -> Result<Failed, AllocError>
    requires holds { Holds (trial_form trial.now) kept }
    requires decisive { IsDecisiveFor (condition_facts (trial_form trial.now) kept.relation.conjuncts number) (point_form point) }
    ensures { IfOk result (IsFailed (trial_form trial.now) kept number point) }
{
    let shared = shared_point(alloc, trial, &kept, number, &point, failed)?;
    match drop_failed(alloc, trial, kept, number, point)? {
        Failed::Query { kept, query, point } => Ok(Failed::Query { kept, query, point }),
        Failed::Dropped { kept, next } => {
            let rest = share(alloc, trial, kept, next, &shared)?;
            Ok(Failed::Dropped {
                kept: rest.kept,
                next: rest.next,
            })
        }
    }
}

/// A copy of the point, with the condition at which it was found. None if that is no operation's, or isn't there.
fn shared_point(
    alloc: Global,
    trial: &Trial<'_>,
    kept: &Kept,
    number: u32,
    point: &Point,
    failed: Option<Encoded>,
) -> Result<Option<Shared>, AllocError> {
    let Some(encoded) = failed else {
        return Ok(None);
    };
    let Place1::Step { op, conjunct } = place_of(trial.ty, &kept.numbers, number)? else {
        return Ok(None);
    };
    Ok(Some(Shared {
        op,
        conjunct,
        encoded,
        point: Point {
            den: point.den,
            nums: Vec::from_slice(alloc, &point.nums)?,
            truths: Vec::from_slice(alloc, &point.truths)?,
        },
    }))
}

/// What is kept, and the number of the next condition.
#[derive(Drop)]
struct Rest {
    kept: Kept,
    next: u32,
}

/// Drops the other candidates at whose conditions of the same operation the point, carried over, is decisive too.
fn share(
    alloc: Global,
    trial: &Trial<'_>,
    kept: Kept,
    next: u32,
    shared: &Option<Shared>,
) -> Result<Rest, AllocError>
    requires holds { Holds (trial_form trial.now) kept }
    ensures { IfOk result (λ rest. IsNoLonger (trial_form trial.now) (length kept.numbers.items) rest.kept) }
{
    match shared {
        Some(shared) => {
            let left = share_each(alloc, trial, kept, shared)?;
            let next = step_number(&left.numbers, shared.op, shared.conjunct);
            Ok(Rest { kept: left, next })
        }
        None => Ok(Rest { kept, next }),
    }
}

fn share_each(
    alloc: Global,
    trial: &Trial<'_>,
    kept: Kept,
    shared: &Shared,
) -> Result<Kept, AllocError>
    requires holds { Holds (trial_form trial.now) kept }
    ensures { IfOk result (IsNoLonger (trial_form trial.now) (length kept.numbers.items)) }
{
    let others = Vec::from_slice(alloc, &kept.numbers)?;
    let mut left = kept;
    'others: for other in &others {
        let number = step_number(&left.numbers, shared.op, *other);
        left = share_one(alloc, trial, left, number, shared)?;
    }
    Ok(left)
}

/// Drops the candidate of the condition with a number, if the point, carried over, is decisive for it.
fn share_one(
    alloc: Global,
    trial: &Trial<'_>,
    kept: Kept,
    number: u32,
    shared: &Shared,
) -> Result<Kept, AllocError>
    requires holds { Holds (trial_form trial.now) kept }
    ensures { IfOk result (IsNoLonger (trial_form trial.now) (length kept.numbers.items)) }
{
    match carried_to(alloc, trial, &kept.relation, number, shared)? {
        None => Ok(kept),
        Some(point) => drop_alone(alloc, trial, kept, number, point),
    }
}

fn drop_alone(
    alloc: Global,
    trial: &Trial<'_>,
    kept: Kept,
    number: u32,
    point: Point,
) -> Result<Kept, AllocError>
    requires holds { Holds (trial_form trial.now) kept }
    requires decisive { IsDecisiveFor (condition_facts (trial_form trial.now) kept.relation.conjuncts number) (point_form point) }
    ensures { IfOk result (IsNoLonger (trial_form trial.now) (length kept.numbers.items)) }
{
    match drop_failed(alloc, trial, kept, number, point)? {
        Failed::Query { kept, .. } => Ok(kept),
        Failed::Dropped { kept, .. } => Ok(kept),
    }
}

/// The point that is carried over to the condition with a number, if it is decisive there.
fn carried_to(
    alloc: Global,
    trial: &Trial<'_>,
    relation: &Relation,
    number: u32,
    shared: &Shared,
) -> Result<Option<Point>, AllocError>
    ensures { IfOk result (λ found. IfSome found (λ p.
        IsDecisiveFor (condition_facts (trial_form trial.now) relation.now.conjuncts number) (point_form p))) }
{
    let to = condition(alloc, trial.ty, trial.design, relation, number)?;
    carried(alloc, &shared.encoded, &shared.point, &to)
}

/// The number of the condition that an operation keeps a candidate, or of the next one that is kept if it is dropped.
fn step_number(numbers: &[u32], op: u32, candidate: u32) -> u32 {
    let mut earlier = 0_u32;
    let mut count = 0_u32;
    for number in numbers {
        count = count.saturating_add(1);
        if *number < candidate {
            earlier = earlier.saturating_add(1);
        }
    }
    count
        .saturating_mul(op.saturating_add(1))
        .saturating_add(earlier)
        .saturating_add(1)
}

/// Goes on at the condition with a number: candidates that fail are dropped, each under those that are still kept.
pub(crate) fn skimmed(
    alloc: Global,
    trial: &Trial<'_>,
    kept: Kept,
    number: u32,
) -> Result<Skim, AllocError>
    requires effort { (1 ≤ trial.now.effort) × (trial.now.effort ≤ 10_000) }
    requires holds { Holds (trial_form trial.now) kept }
    ensures { IfOk result (IsSkim (trial_form trial.now) (length kept.numbers.items)) }
{
    let count = conditions_of(trial.ty, &kept.relation)?;
    let mut skim = unseen(alloc, kept, number);
    'turns: for _ in 0..count {
        if is_past(trial.ty, &skim.kept, skim.next) {
            return Ok(skim);
        }
        skim = skim_one(alloc, trial, skim)?;
    }
    Ok(skim)
}

/// What is kept, the number of the next condition, and what was found of those before it since the last drop.
#[derive(Drop)]
pub(crate) struct Skim {
    pub kept: Kept,
    pub next: u32,
    pub seen: Seen,
}

/// Whether the conditions of candidates are past.
fn is_past(ty: &SeqType, kept: &Kept, number: u32) -> bool {
    let ops = ty.ops.as_slice().len() as u128;
    let conjuncts = kept.numbers.len() as u128;
    u128::from(number) > conjuncts + ops * conjuncts
}

/// Decides the next condition, and drops its candidate if it fails, with others that fail at the point too.
fn skim_one(alloc: Global, trial: &Trial<'_>, skim: Skim) -> Result<Skim, AllocError>
    requires effort { (1 ≤ trial.now.effort) × (trial.now.effort ≤ 10_000) }
    requires holds { Holds (trial_form trial.now) skim.kept }
    requires seen { AreSeen (trial_form trial.now) skim.kept.relation.conjuncts skim.seen }
    ensures { IfOk result (IsSkim (trial_form trial.now) (length skim.kept.numbers.items)) }
{
    let mut last = None;
    match find(alloc, trial, &skim.kept.relation, skim.next, &mut last)? {
        Found::Fails(point) => drop_next(alloc, trial, skim.kept, skim.next, point, last),
        found => with_found(alloc, skim, found),
    }
}

/// Drops the candidate of the condition with a number, which fails at the point, with others that fail there too. `failed` is that
/// condition.
fn drop_next(
    alloc: Global,
    trial: &Trial<'_>,
    kept: Kept,
    number: u32,
    point: Point,
    failed: Option<Encoded>,
) -> Result<Skim, AllocError>
    requires holds { Holds (trial_form trial.now) kept }
    requires decisive { IsDecisiveFor (condition_facts (trial_form trial.now) kept.relation.conjuncts number) (point_form point) }
    ensures { IfOk result (IsSkim (trial_form trial.now) (length kept.numbers.items)) }
{
    match drop_with_others(alloc, trial, kept, number, point, failed)? {
        Failed::Query { kept, .. } => Ok(unseen(alloc, kept, number.saturating_add(1))),
        Failed::Dropped { kept, next } => Ok(unseen(alloc, kept, next)),
    }
}

/// Goes on at the condition with a number. Nothing is seen yet under what is kept.
fn unseen(alloc: Global, kept: Kept, next: u32) -> Skim
    ensures kept { result.kept ≡ kept }
    ensures seen { (trial : TrialForm) (relation : List Conjunct) → AreSeen trial relation result.seen }
{
    Skim {
        kept,
        next,
        seen: Seen::none(alloc),
    }
}

/// With what is found of the next condition. The one after it is the next then.
fn with_found(alloc: Global, skim: Skim, found: Found) -> Result<Skim, AllocError>
    ensures kept { IfOk result (λ more. more.kept ≡ skim.kept) }
    ensures seen { IfOk result (λ more. (trial : TrialForm) (relation : List Conjunct) → AreSeen trial relation skim.seen
        → IsFound (condition_facts trial relation skim.next) trial.effort found → AreSeen trial relation more.seen) }
{
    let Skim { kept, next, seen } = skim;
    let mut more = seen;
    more.note(alloc, next, found)?;
    Ok(Skim {
        kept,
        next: next.saturating_add(1),
        seen: more,
    })
}
