//! Judging a line of a block.
ghost use Rattle.std.specs.Prelude.{◌≡◌, ℕ, ◌≤◌, IfOk, List, length};
ghost use Rattle.kat_design.specs.Designs.{DesignForm, design_form};
ghost use Rattle.kat_points.specs.Answers.{point_form};
ghost use Rattle.kat_said.specs.Sayings.{said_form};
ghost use Rattle.kat_said.specs.Sayings.SaidForm.{drops, is_long};
ghost use Rattle.kat_type.specs.Limits.{item_limit};
ghost use Rattle.kat_relation.specs.declared.relations.Conjunct.{Conjunct};
ghost use Rattle.kat_type.specs.Types.{TypeForm, type_form};
ghost use Rattle.kat_vc.specs.Conditions.{facts_of_condition};
ghost use Rattle.kat_block.specs.Left.{IsBlock, IsFoundIn, IsPointStep, IsStepOf, step_of};

use crate::closing::judge_end;
use crate::left::Block;
use crate::numbers::number_at;
use kat_design::Design;
use kat_points::{Found, Point, judge_point};
use kat_relation::Relation;
use kat_said::{Place, Said, Step};
use kat_type::SeqType;
use kat_vc::{condition, facts};
use std::alloc::{AllocError, Global};

/// Whether what a line says is due in a block, each walk being taken with this many leaves.
///
/// A condition with a number past the limits of rows is answered as out of memory.
pub fn judge_said(
    alloc: Global,
    ty: &SeqType,
    design: &Design,
    block: &Block,
    effort: u32,
    said: &Said,
) -> Result<Step, AllocError>
    requires block { IsBlock block.now }
    requires ops { length ty.now.ops ≤ item_limit }
    requires queries { length ty.now.queries ≤ item_limit }
    ensures { IfOk result (IsStepOf (type_form ty.now) (design_form design.now) block.now.candidates.conjuncts effort
        block.now.dropped.items (said_form said.now)) }
{
    match said {
        Said::Drop { at, point } => judge_drop(alloc, ty, design, block, effort, *at, point),
        Said::Fail { query, point } => {
            judge_at(alloc, ty, design, block, Place::Query(*query), point)
        }
        Said::Spent(at) => judge_end(alloc, ty, design, block, effort, *at, said),
        Said::Rows { at, .. } => judge_end(alloc, ty, design, block, effort, *at, said),
        Said::Wide { at, .. } => judge_end(alloc, ty, design, block, effort, *at, said),
        Said::Long(bytes) => Ok(judge_long(*bytes)),
    }
}

/// A candidate is dropped.
fn judge_drop(
    alloc: Global,
    ty: &SeqType,
    design: &Design,
    block: &Block,
    effort: u32,
    at: Place,
    point: &Point,
) -> Result<Step, AllocError>
    requires block { IsBlock block.now }
    requires ops { length ty.now.ops ≤ item_limit }
    requires queries { length ty.now.queries ≤ item_limit }
    ensures { IfOk result (IsStepOf (type_form ty.now) (design_form design.now) block.now.candidates.conjuncts effort
        block.now.dropped.items (drops at (point_form point.now))) }
{
    match at {
        Place::Query(_) => Ok(Step::Fault),
        Place::Start(_) => judge_at(alloc, ty, design, block, at, point),
        Place::Step { .. } => judge_at(alloc, ty, design, block, at, point),
    }
}

/// A point at a place.
fn judge_at(
    alloc: Global,
    ty: &SeqType,
    design: &Design,
    block: &Block,
    at: Place,
    point: &Point,
) -> Result<Step, AllocError>
    requires block { IsBlock block.now }
    requires ops { length ty.now.ops ≤ item_limit }
    requires queries { length ty.now.queries ≤ item_limit }
    ensures { IfOk result (IsPointStep (type_form ty.now) (design_form design.now) block.now.candidates.conjuncts block.now.dropped.items
        at (point_form point.now)) }
{
    let Some(number) = number_at(ty, block, at) else {
        return Ok(Step::Fault);
    };
    let found = found_at(alloc, ty, design, &block.left, number, point)?;
    Ok(step_of(found))
}

fn step_of(found: Found) -> Step
    ensures { result ≡ step_of found }
{
    match found {
        Found::Decisive => Step::Due,
        Found::TooWide => Step::Wide,
        Found::Neither => Step::Fault,
    }
}

/// The outcome of a point under the facts of the condition with a number.
fn found_at(
    alloc: Global,
    ty: &SeqType,
    design: &Design,
    relation: &Relation,
    number: u32,
    point: &Point,
) -> Result<Found, AllocError>
    ensures { IfOk result (IsFoundIn (facts_of_condition (type_form ty.now) (design_form design.now) relation.now.conjuncts number)
        (point_form point.now)) }
{
    let facts = facts(alloc, ty, design, relation, number)?;
    let encoded = condition(alloc, ty, design, relation, number)?;
    judge_point(alloc, &facts, &encoded, point)
}

/// The greatest number of bytes that a file may have.
const TEXT_LIMIT: u128 = 16_777_216;

/// A file is too long.
fn judge_long(bytes: u128) -> Step
    ensures { (ty : TypeForm) (d : DesignForm) (candidates : List Conjunct) (effort : ℕ) (dropped : List ℕ)
        → IsStepOf ty d candidates effort dropped (is_long bytes) result }
{
    if bytes > TEXT_LIMIT {
        Step::Due
    } else {
        Step::Fault
    }
}
