//! Proving a design.
ghost use Rattle.std.specs.Prelude.{◌≤◌, List, IfOk, length};
ghost use Rattle.kat_candidate.specs.Candidates.{AreCandidates};
ghost use Rattle.kat_drop.specs.Certificates.{point_form};
ghost use Rattle.kat_design.specs.Designs.{design_form};
ghost use Rattle.kat_relation.specs.declared.relations.Conjunct.{Conjunct};
ghost use Rattle.kat_type.specs.Types.{type_form};
ghost use Rattle.kat_prove.specs.Provings.{IsFirst, IsProving, drops_in};
ghost use Rattle.kat_prove.specs.Trials.{AreSeen, Holds, IsAnswer, IsFailure, IsSurveyed, IsTurn, trial_form};

use crate::provings::Proving;
use crate::seen::Seen;
use crate::skims::{Failed, drop_with_others, skimmed};
use crate::surveys::{Survey, Surveyed, survey_all};
use crate::trials::{Kept, Trial, all_kept, place_of};
use kat_candidate::candidates;
use kat_design::Design;
use kat_form::Encoded;
use kat_num::Items;
use kat_sat::Point;
use kat_type::SeqType;
use std::alloc::{AllocError, Global};

/// Proves a design, or shows why not: candidates that fail are dropped until none fails, and then the queries are decided.
/// Each condition is decided by a walk with at most `effort` leaves, and if that gives up, by a further search of as many lines.
///
/// The answer is `Proved` if all conditions are refuted, `OpenCert` if a query fails, and otherwise `Stuck` at the first
/// condition that isn't refuted. There are at most as many drops as candidates.
///
/// A relation with as many conditions as 32 bits count, or a condition with a number past the limits of rows, is answered
/// as out of memory.
pub fn prove(
    alloc: Global,
    ty: &SeqType,
    design: &Design,
    effort: u32,
) -> Result<Proving, AllocError>
    requires effort { (1 ≤ effort) × (effort ≤ 10_000) }
    ensures proving { IfOk result (λ proving. (candidates : List Conjunct)
        × AreCandidates (type_form ty.now) (design_form design.now) candidates
        × IsProving (type_form ty.now) (design_form design.now) candidates effort proving) }
    ensures first { IfOk result (λ proving. (candidates : List Conjunct)
        × AreCandidates (type_form ty.now) (design_form design.now) candidates
        × IsFirst (type_form ty.now) (design_form design.now) candidates effort proving) }
    ensures few { IfOk result (λ proving. (candidates : List Conjunct)
        × AreCandidates (type_form ty.now) (design_form design.now) candidates × (length (drops_in proving) ≤ length candidates)) }
{
    let candidates = candidates(alloc, ty, design)?;
    let trial = Trial {
        ty,
        design,
        candidates: candidates.conjuncts.as_slice(),
        effort,
    };
    proved(alloc, &trial)
}

/// Turn by turn, from all candidates.
fn proved(alloc: Global, trial: &Trial<'_>) -> Result<Proving, AllocError>
    requires effort { (1 ≤ trial.now.effort) × (trial.now.effort ≤ 10_000) }
    ensures { IfOk result (IsAnswer (trial_form trial.now)) }
{
    let mut kept = all_kept(alloc, trial)?;
    let mut seen = Seen::none(alloc);
    'turns: loop {
        match take_turn(alloc, trial, kept, seen)? {
            Turn::Ends(proving) => return Ok(proving),
            Turn::Goes { fewer, later } => {
                kept = fewer;
                seen = later;
            }
        }
    }
}

/// What a turn gives: an answer, or fewer candidates, with what was found of conditions under them.
#[derive(Drop)]
enum Turn {
    Ends(Proving),
    Goes { fewer: Kept, later: Seen },
}

/// Decides all conditions; if one of a candidate fails, that one is dropped, and others that fail too.
fn take_turn(alloc: Global, trial: &Trial<'_>, kept: Kept, seen: Seen) -> Result<Turn, AllocError>
    requires effort { (1 ≤ trial.now.effort) × (trial.now.effort ≤ 10_000) }
    requires holds { Holds (trial_form trial.now) kept }
    requires seen { AreSeen (trial_form trial.now) kept.relation.conjuncts seen }
    ensures { IfOk result (IsTurn (trial_form trial.now) (length kept.numbers.items)) }
{
    let mut left = seen;
    let mut last = None;
    match survey_all(alloc, trial, &kept.relation, &mut left, &mut last)? {
        Surveyed::Quiet(survey) => {
            let proving = concluded(trial, kept, survey)?;
            Ok(Turn::Ends(proving))
        }
        Surveyed::Fails { number, point } => answered(alloc, trial, kept, number, point, last),
    }
}

/// No condition fails at a point.
fn concluded(trial: &Trial<'_>, kept: Kept, survey: Survey) -> Result<Proving, AllocError>
    requires holds { Holds (trial_form trial.now) kept }
    requires survey { IsSurveyed (trial_form trial.now) kept.relation.conjuncts (Surveyed.Quiet survey) }
    ensures { IfOk result (IsAnswer (trial_form trial.now)) }
{
    let Survey { lists, stop } = survey;
    match stop {
        None => Ok(Proving::Proved {
            drops: kept.drops,
            relation: kept.relation,
            proof: Items::from_vec(lists),
        }),
        Some(stop) => {
            let at = place_of(trial.ty, &kept.numbers, stop.number)?;
            Ok(Proving::Stuck {
                drops: kept.drops,
                at,
                decision: stop.decision,
            })
        }
    }
}

/// The condition with a number fails at a point. `failed` is that condition.
fn answered(
    alloc: Global,
    trial: &Trial<'_>,
    kept: Kept,
    number: u32,
    point: Point,
    failed: Option<Encoded>,
) -> Result<Turn, AllocError>
    requires effort { (1 ≤ trial.now.effort) × (trial.now.effort ≤ 10_000) }
    requires holds { Holds (trial_form trial.now) kept }
    requires failure { IsFailure (trial_form trial.now) kept.relation.conjuncts number (point_form point) }
    ensures { IfOk result (IsTurn (trial_form trial.now) (length kept.numbers.items)) }
{
    match drop_with_others(alloc, trial, kept, number, point, failed)? {
        Failed::Query { kept, query, point } => Ok(Turn::Ends(Proving::OpenCert {
            drops: kept.drops,
            query,
            point,
        })),
        Failed::Dropped { kept, next } => {
            let rest = skimmed(alloc, trial, kept, next)?;
            Ok(Turn::Goes {
                fewer: rest.kept,
                later: rest.seen,
            })
        }
    }
}
