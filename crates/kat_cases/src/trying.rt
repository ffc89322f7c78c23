//! Literals that a further search finds, tried before they are answered.
ghost use Rattle.std.specs.Prelude.{◌≡◌, ◌≤◌, ◌^◌, ◌++◌, true, IfOk, IfSome, vec_len};
ghost use Rattle.kat_form.specs.Encodings.{encoding};
ghost use Rattle.kat_cases.specs.Answers.{answer_of};
ghost use Rattle.kat_cases.specs.Further.{IsFound};
ghost use Rattle.kat_cases.specs.Guests.{MayBeAssumed};
ghost use Rattle.kat_cases.specs.Settings.{IsWalkable};
ghost use Rattle.kat_cases.specs.Stacks.{Keeps};

use crate::assumptions::{Assumptions, clauses_in};
use crate::cores::falsifies;
use crate::decision::{Decision, Ending};
use crate::engine::are_literals;
use crate::judging::{Judged, judge};
use crate::plain::has_each_once;
use kat_form::Encoded;
use kat_potential::Values;
use std::alloc::{AllocError, Global};

/// The point at which these literals are known, if there is one. None if one is of no variable, two are of one, or the node at
/// which they are assumed doesn't end at a point. The effort occurs in the contract alone.
pub fn try_literals(
    alloc: Global,
    encoded: &Encoded,
    effort: u32,
    literals: &[i32],
) -> Result<Option<Decision>, AllocError>
    requires walkable { IsWalkable encoded.now.numbers (encoding encoded.now) }
    requires variables { vec_len encoded.now.meanings ≤ 2 ^ 28 }
    ensures { IfOk result (λ o. IfSome o (λ d. IsFound encoded.now effort (answer_of d))) }
{
    if !may_be_assumed(literals, encoded.meanings.len() as u32) {
        return Ok(None);
    }
    let mut known = clauses_in(alloc, encoded)?;
    point_behind(alloc, encoded, &mut known, effort, literals)
}

// The point at which these literals are assumed, if there is one.
fn point_behind(
    alloc: Global,
    encoded: &Encoded,
    known: &mut Assumptions,
    effort: u32,
    literals: &[i32],
) -> Result<Option<Decision>, AllocError>
    requires walkable { IsWalkable encoded.now.numbers (encoding encoded.now) }
    requires variables { vec_len encoded.now.meanings ≤ 2 ^ 28 }
    requires keeps { Keeps (encoding encoded.now) known.old }
    requires literals { MayBeAssumed known.old.greatest (known.old.assumed ++ literals.now) }
    ensures { IfOk result (λ o. IfSome o (λ d. IsFound encoded.now effort (answer_of d))) }
{
    let _effort = effort;
    let _falsified = falsifies(known, literals, None)?;
    let mut values = Values::new(alloc, &encoded.meanings, encoded.numbers)?;
    let mut last = None;
    match judge(alloc, encoded, known, &mut values, &mut last)? {
        Judged::Ends(Ending::Point(point)) => Ok(Some(Decision::Point(point))),
        _ => Ok(None),
    }
}

// Whether the literals are of different variables up to the greatest.
fn may_be_assumed(literals: &[i32], greatest: u32) -> bool
    ensures { result ≡ true → MayBeAssumed greatest literals.now }
{
    are_literals(literals, greatest) && has_each_once(literals)
}
