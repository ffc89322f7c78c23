//! Judging a line that says how a walk ends.
ghost use Rattle.std.specs.Prelude.{◌≡◌, ℕ, ◌+◌, ◌<◌, ◌≤◌, ◌↔◌, ◌^◌, IfOk, IsTrue, List, Some, length};
ghost use Rattle.kat_design.specs.Designs.{design_form};
ghost use Rattle.kat_said.specs.Sayings.{said_form};
ghost use Rattle.kat_type.specs.Limits.{item_limit};
ghost use Rattle.kat_type.specs.Types.{type_form};
ghost use Rattle.kat_vc.specs.Conditions.{facts_of_condition};
ghost use Rattle.kat_walks.specs.Stands.{end_of};
ghost use Rattle.kat_walks.specs.Walks.{End};
ghost use Rattle.kat_walks.specs.Walks.End.{too_many, too_wide, used_up};
ghost use Rattle.kat_walks.specs.declared.walking.WalkEnd.TheVariants.{MetPoint};
ghost use Rattle.kat_block.specs.Left.{IsBlock, IsEndStep, IsSaid, IsWalkOf, MeetsPoint, end_said};

use crate::left::Block;
use crate::numbers::{conjunct_count, number_at};
use kat_design::Design;
use kat_relation::Relation;
use kat_said::{Place, Said, Step};
use kat_type::SeqType;
use kat_vc::condition;
use kat_walks::{WalkEnd, is_walkable, walk_end};
use std::alloc::{AllocError, Global};

/// The walk of the condition at a place ends as a line says.
pub(crate) fn judge_end(
    alloc: Global,
    ty: &SeqType,
    design: &Design,
    block: &Block,
    effort: u32,
    at: Place,
    said: &Said,
) -> Result<Step, AllocError>
    requires block { IsBlock block.now }
    requires ops { length ty.now.ops ≤ item_limit }
    requires queries { length ty.now.queries ≤ item_limit }
    ensures { IfOk result (λ step. (end : End) → end_said (said_form said.now) ≡ Some end
        → IsEndStep (type_form ty.now) (design_form design.now) block.now.candidates.conjuncts effort block.now.dropped.items at end step) }
{
    let Some(number) = number_at(ty, block, at) else {
        return Ok(Step::Fault);
    };
    let end = end_at(alloc, ty, design, &block.left, effort, number)?;
    if !is_said(&end, said) {
        return Ok(Step::Fault);
    }
    if meets_point(alloc, ty, design, block, effort)? {
        return Ok(Step::Fault);
    }
    Ok(Step::Due)
}

/// How the walk of the condition with a number ends, unless it refutes it. One that can't be walked is answered as out of memory.
fn end_at(
    alloc: Global,
    ty: &SeqType,
    design: &Design,
    relation: &Relation,
    effort: u32,
    number: u32,
) -> Result<Option<WalkEnd>, AllocError>
    ensures { IfOk result (IsWalkOf (facts_of_condition (type_form ty.now) (design_form design.now) relation.now.conjuncts number) effort) }
{
    let encoded = condition(alloc, ty, design, relation, number)?;
    if !is_walkable(&encoded) {
        return Err(AllocError);
    }
    walk_end(alloc, &encoded, effort)
}

/// Whether the walk of a condition of a candidate ends at a point.
fn meets_point(
    alloc: Global,
    ty: &SeqType,
    design: &Design,
    block: &Block,
    effort: u32,
) -> Result<bool, AllocError>
    requires block { IsBlock block.now }
    requires ops { length ty.now.ops ≤ item_limit }
    ensures { IfOk result (λ met. IsTrue met ↔ MeetsPoint (type_form ty.now)
        (design_form design.now) block.now.candidates.conjuncts effort block.now.dropped.items) }
{
    let count = conjunct_count(block.numbers.len(), ty.ops.as_slice().len());
    for place in 0..count {
        let end = end_at(alloc, ty, design, &block.left, effort, place + 1)?;
        if is_point(&end) {
            return Ok(true);
        }
    }
    Ok(false)
}

fn is_point(end: &Option<WalkEnd>) -> bool
    ensures { IsTrue result ↔ (end.now ≡ Some MetPoint) }
{
    match end {
        Some(WalkEnd::MetPoint) => true,
        _ => false,
    }
}

/// Whether the walk ended as a line says.
fn is_said(end: &Option<WalkEnd>, said: &Said) -> bool
    ensures { IsTrue result ↔ IsSaid end.now (said_form said.now) }
{
    match end {
        None => false,
        Some(end) => is_end(end, said),
    }
}

fn is_end(end: &WalkEnd, said: &Said) -> bool
    ensures { IsTrue result ↔ (end_said (said_form said.now) ≡ Some (end_of end.now)) }
{
    match end {
        WalkEnd::UsedUp => is_spent(said),
        WalkEnd::MetPoint => false,
        WalkEnd::TooMany {
            lits,
            plus,
            minus,
            rest,
        } => is_crowd(lits, *plus, *minus, *rest, said),
        WalkEnd::TooWide { lits, left, right } => is_width(lits, left, right, said),
    }
}

fn is_spent(said: &Said) -> bool
    ensures { IsTrue result ↔ (end_said (said_form said.now) ≡ Some used_up) }
{
    match said {
        Said::Spent(_) => true,
        _ => false,
    }
}

fn is_crowd(lits: &[i32], plus: u64, minus: u64, rest: u64, said: &Said) -> bool
    ensures { IsTrue result ↔ (end_said (said_form said.now) ≡ Some (too_many lits.now plus minus rest)) }
{
    match said {
        Said::Rows {
            plus: p,
            minus: m,
            rest: r,
            lits: ls,
            ..
        } => {
            u128::from(plus) == *p
                && u128::from(minus) == *m
                && u128::from(rest) == *r
                && are_same(lits, ls)
        }
        _ => false,
    }
}

fn is_width(lits: &[i32], left: &i128, right: &i128, said: &Said) -> bool
    ensures { IsTrue result ↔ (end_said (said_form said.now) ≡ Some (too_wide lits.now left.now right.now)) }
{
    match said {
        Said::Wide {
            left: l,
            right: r,
            lits: ls,
            ..
        } => *left == *l && *right == *r && are_same(lits, ls),
        _ => false,
    }
}

/// Whether the literals are these numbers.
fn are_same(lits: &[i32], numbers: &[i128]) -> bool
    ensures { IsTrue result ↔ (lits.now ≡ numbers.now) }
{
    match lits {
        [] => numbers.is_empty(),
        [lit, more @ ..] => match numbers {
            [] => false,
            [number, others @ ..] => i128::from(*lit) == *number && are_same(more, others),
        },
    }
}
