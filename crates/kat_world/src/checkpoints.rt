//! The states of a sequential type at the replicas that are asked, kept from one ask to the next.
//!
//! An ask goes on from the state of the ask before at its replica, if each operation that is newly known comes after
//! all that were known, in the order of all operations. Otherwise it begins anew.
ghost use Rattle.std.specs.Prelude.{◌≡◌, ◌^◌, ◌≤◌, [], ◌∷◌, length, All, IfOk, IsTrue, OnOk, None, Some, not, drop, replicate, slice_set, take};
ghost use Rattle.std.specs.List.{list_all, slice_index_or};
ghost use Rattle.std.specs.Option.{IfSome};
ghost use Rattle.kat_expr.specs.Limits.{IsAtMost, IsSlotAtMost};
ghost use Rattle.kat_seq.specs.Sizes.{HaveSmallArguments};
ghost use Rattle.kat_seq.specs.States.{answer_of, started, stepped_by};
ghost use Rattle.kat_type.specs.Types.{type_form};
ghost use Rattle.kat_type.specs.Within.{IsWithinLimits};
ghost use Rattle.kat_world.specs.Checkpoints.{AreReached, IsReached};
ghost use Rattle.kat_world.specs.Tracked.{is_known, known_of, times_at};

use crate::times::{Latest, copy_at};
use kat_expr::Slot;
use kat_num::Value;
use kat_seq::{answer, start, step};
use kat_type::{Done, SeqType};
use std::alloc::{AllocError, Global};

/// The state after the operations that were known at an ask, and their latest times.
#[derive(Drop)]
pub(crate) struct Checkpoint {
    latest: Latest,
    state: Vec<Slot>,
}

/// No checkpoint of this many replicas.
pub(crate) fn no_checkpoints(
    alloc: Global,
    replicas: u32,
) -> Result<Vec<Option<Checkpoint>>, AllocError>
    ensures { IfOk result (λ points. points.items ≡ replicate replicas None) }
{
    let mut points = Vec::new(alloc);
    for _ in 0..replicas {
        points.push(None)?;
    }
    Ok(points)
}

/// The answer of a query at a replica, after what it absorbed. The replica has a checkpoint from then on.
pub(crate) fn answer_at(
    alloc: Global,
    ty: &SeqType,
    order: &[Done],
    replicas: &[Latest],
    points: &mut Vec<Option<Checkpoint>>,
    place: usize,
    query: u32,
    args: &[Value],
) -> Result<Value, AllocError>
    requires limits { IsWithinLimits (type_form ty.now) }
    requires order { HaveSmallArguments order.now }
    requires few { length order.now ≤ 100_000 }
    requires points { AreReached (type_form ty.now) order.now points.old.items }
    requires args { All (IsAtMost (2 ^ 100)) args.now }
    ensures answer { IfOk result (λ answer. answer ≡ answer_of (type_form ty.now)
        (stepped_by (type_form ty.now) (started (type_form ty.now)) (known_of (times_at replicas.now place) order.now)) query args.now) }
    ensures points { OnOk result (AreReached (type_form ty.now) order.now points.new.items) }
{
    let latest = copy_at(alloc, replicas, place)?;
    let old = take_out(points, place);
    let point = advanced(alloc, ty, order, old, latest)?;
    let answer = answer(ty, &point.state, query, args);
    put_back(points, place, point);
    Ok(answer)
}

/// Takes the checkpoint of a replica out.
fn take_out(points: &mut Vec<Option<Checkpoint>>, place: usize) -> Option<Checkpoint>
    ensures taken { result ≡ slice_index_or points.old.items place None }
    ensures left { points.new.items ≡ slice_set points.old.items place None }
{
    if place >= points.len() {
        return None;
    }
    points[place].take()
}

/// Gives a replica a checkpoint.
fn put_back(points: &mut Vec<Option<Checkpoint>>, place: usize, point: Checkpoint)
    ensures { points.new.items ≡ slice_set points.old.items place (Some point) }
{
    if place < points.len() {
        points[place] = Some(point);
    }
}

/// The checkpoint at these times, gone on to from an earlier one if that can be done.
fn advanced(
    alloc: Global,
    ty: &SeqType,
    order: &[Done],
    old: Option<Checkpoint>,
    latest: Latest,
) -> Result<Checkpoint, AllocError>
    requires limits { IsWithinLimits (type_form ty.now) }
    requires order { HaveSmallArguments order.now }
    requires few { length order.now ≤ 100_000 }
    requires old { IfSome old (IsReached (type_form ty.now) order.now) }
    ensures latest { IfOk result (λ point. point.latest ≡ latest) }
    ensures reached { IfOk result (IsReached (type_form ty.now) order.now) }
{
    match old {
        Some(old) => gone_on(alloc, ty, order, old, latest),
        None => begun(alloc, ty, order, latest),
    }
}

/// The checkpoint at these times, begun anew.
fn begun(
    alloc: Global,
    ty: &SeqType,
    order: &[Done],
    latest: Latest,
) -> Result<Checkpoint, AllocError>
    requires limits { IsWithinLimits (type_form ty.now) }
    requires order { HaveSmallArguments order.now }
    requires few { length order.now ≤ 100_000 }
    ensures latest { IfOk result (λ point. point.latest ≡ latest) }
    ensures reached { IfOk result (IsReached (type_form ty.now) order.now) }
{
    let mut state = start(alloc, ty)?;
    step_all(alloc, ty, order, 0, &latest, &mut state)?;
    Ok(Checkpoint { latest, state })
}

/// The checkpoint at these times, from an earlier one: up to some place the same operations are known, and after it none was.
fn gone_on(
    alloc: Global,
    ty: &SeqType,
    order: &[Done],
    old: Checkpoint,
    latest: Latest,
) -> Result<Checkpoint, AllocError>
    requires limits { IsWithinLimits (type_form ty.now) }
    requires order { HaveSmallArguments order.now }
    requires few { length order.now ≤ 100_000 }
    requires old { IsReached (type_form ty.now) order.now old }
    ensures latest { IfOk result (λ point. point.latest ≡ latest) }
    ensures reached { IfOk result (IsReached (type_form ty.now) order.now) }
{
    let from = agreed(order, &old.latest, &latest);
    if !knows_none(&old.latest, behind(order, from)) {
        return begun(alloc, ty, order, latest);
    }
    let mut state = old.state;
    step_all(alloc, ty, order, from, &latest, &mut state)?;
    Ok(Checkpoint { latest, state })
}

/// How many operations go by before one that is known at only one of two times.
fn agreed(order: &[Done], old: &Latest, new: &Latest) -> usize
    ensures { known_of old.now (take result order.now) ≡ known_of new.now (take result order.now) }
{
    for (at, done) in order.iter().enumerate() {
        if !knows_alike(old, new, done) {
            return at;
        }
    }
    order.len()
}

/// Whether an operation is known at both times, or at none of them.
fn knows_alike(old: &Latest, new: &Latest, done: &Done) -> bool
    ensures { IsTrue result → is_known old.now done.now ≡ is_known new.now done.now }
{
    old.knows(done) == new.knows(done)
}

/// Whether none of the operations is known.
fn knows_none(latest: &Latest, order: &[Done]) -> bool
    ensures { result ≡ list_all (λ done. not (is_known latest.now done)) order.now }
{
    order.iter().all(|done| !latest.knows(done))
}

/// The operations from a place on.
fn behind(order: &[Done], from: usize) -> &[Done]
    ensures { result.now ≡ drop from order.now }
{
    if from >= order.len() {
        return &[];
    }
    &order[from..]
}

/// Does the operations that are known, from a place on, in the state after those before it.
fn step_all(
    alloc: Global,
    ty: &SeqType,
    order: &[Done],
    from: usize,
    latest: &Latest,
    state: &mut Vec<Slot>,
) -> Result<(), AllocError>
    requires limits { IsWithinLimits (type_form ty.now) }
    requires order { HaveSmallArguments order.now }
    requires few { length order.now ≤ 100_000 }
    requires state { state.old.items ≡ stepped_by (type_form ty.now) (started (type_form ty.now))
        (known_of latest.now (take from order.now)) }
    ensures { OnOk result (state.new.items ≡ stepped_by (type_form ty.now) (started (type_form ty.now)) (known_of latest.now order.now)) }
{
    let mut at = from;
    while at < order.len() {
        step_known(alloc, ty, latest, &order[at], state)?;
        at += 1;
    }
    Ok(())
}

/// Does the operation, if it is known.
fn step_known(
    alloc: Global,
    ty: &SeqType,
    latest: &Latest,
    done: &Done,
    state: &mut Vec<Slot>,
) -> Result<(), AllocError>
    requires limits { IsWithinLimits (type_form ty.now) }
    requires state { All (IsSlotAtMost (2 ^ 100)) state.old.items }
    requires args { All (IsAtMost (2 ^ 100)) done.now.args }
    ensures { OnOk result (state.new.items ≡ stepped_by (type_form ty.now) state.old.items (known_of latest.now (done.now ∷ []))) }
{
    if latest.knows(done) {
        return step(alloc, ty, state, done);
    }
    Ok(())
}
