//! The orders of a history's operations that respect the ranks, and the answers after them.
ghost use Rattle.std.specs.Prelude.{◌≡◌, ◌≤◌, ◌^◌, All, IfOk, length};
ghost use Rattle.std.specs.List.{list_all, list_any};
ghost use Rattle.kat_design.specs.Designs.{design_form};
ghost use Rattle.kat_design.specs.Small.{IsSmallDesign, IsSmallPart};
ghost use Rattle.kat_expr.specs.Limits.{IsAtMost, IsSlotAtMost};
ghost use Rattle.kat_histories.specs.Orders.{orders_of};
ghost use Rattle.kat_histories.specs.declared.calls.Call as calls;
ghost use Rattle.kat_histories.specs.Places.{AreWithin, picked};
ghost use Rattle.kat_hist.specs.Arranging.{is_unlike, may_follow, respects_ranks, tells_apart};
ghost use Rattle.kat_seq.specs.Sizes.{HaveSmallArguments};
ghost use Rattle.kat_seq.specs.States.{state_after};
ghost use Rattle.kat_type.specs.Types.{type_form};
ghost use Rattle.kat_type.specs.Within.{IsWithinLimits};

use kat_design::{Design, State, design_answer};
use kat_expr::Slot;
use kat_histories::{Call, is_same_value, orders_of};
use kat_seq::{answer, start, step};
use kat_type::{Done, SeqType, compare};
use std::alloc::{AllocError, Global};
use std::cmp::Ordering;

/// Whether some order of these operations that respects the ranks shows that a design, in a state, answers otherwise than the
/// type. They are at most three.
pub(crate) fn some_order_tells(
    alloc: Global,
    ty: &SeqType,
    design: &Design,
    state: &State,
    asks: &[Call],
    ones: &[Done],
) -> Result<bool, AllocError>
    requires few { length ones.now ≤ 3 }
    requires limits { IsWithinLimits (type_form ty.now) }
    requires small { IsSmallDesign (design_form design.now) }
    requires state { All IsSmallPart state.now.parts }
    requires asks { All (λ (ask : calls.Call). All (IsAtMost (2 ^ 100)) ask.args) asks.now }
    requires args { HaveSmallArguments ones.now }
    ensures { IfOk result (λ found. found
        ≡ list_any (tells_apart (type_form ty.now) (design_form design.now) state.now.parts asks.now) (orders_of ones.now)) }
{
    for order in orders_of(ones) {
        if order_tells(alloc, ty, design, state, asks, ones, &order[..ones.len()])? {
            return Ok(true);
        }
    }
    Ok(false)
}

/// Whether one order, by the places of the operations, respects the ranks and shows the difference.
fn order_tells(
    alloc: Global,
    ty: &SeqType,
    design: &Design,
    state: &State,
    asks: &[Call],
    ones: &[Done],
    order: &[usize],
) -> Result<bool, AllocError>
    requires within { AreWithin ones.now order.now }
    requires few { length order.now ≤ 3 }
    requires limits { IsWithinLimits (type_form ty.now) }
    requires small { IsSmallDesign (design_form design.now) }
    requires state { All IsSmallPart state.now.parts }
    requires asks { All (λ (ask : calls.Call). All (IsAtMost (2 ^ 100)) ask.args) asks.now }
    requires args { HaveSmallArguments ones.now }
    ensures { IfOk result (λ found. found
        ≡ tells_apart (type_form ty.now) (design_form design.now) state.now.parts asks.now (picked ones.now order.now)) }
{
    if !respects_ranks(ty, ones, order) {
        return Ok(false);
    }
    let slots = state_after(alloc, ty, ones, order)?;
    Ok(some_is_unlike(ty, design, state, &slots, asks))
}

/// Whether operations, by their places, are in an order that respects the ranks.
pub(crate) fn respects_ranks(ty: &SeqType, ones: &[Done], order: &[usize]) -> bool
    requires { AreWithin ones.now order.now }
    ensures { result ≡ respects_ranks (type_form ty.now) (picked ones.now order.now) }
{
    match order {
        [] => true,
        [first, more @ ..] => {
            may_follow_all(ty, &ones[*first], ones, more) && respects_ranks(ty, ones, more)
        }
    }
}

/// Whether no operation of these places has a smaller rank than the earlier one.
fn may_follow_all(ty: &SeqType, earlier: &Done, ones: &[Done], order: &[usize]) -> bool
    requires { AreWithin ones.now order.now }
    ensures { result ≡ list_all (may_follow (type_form ty.now) earlier.now) (picked ones.now order.now) }
{
    match order {
        [] => true,
        [later, more @ ..] => {
            may_follow(ty, earlier, &ones[*later]) && may_follow_all(ty, earlier, ones, more)
        }
    }
}

/// Whether an operation's rank isn't smaller than that of an earlier one.
fn may_follow(ty: &SeqType, earlier: &Done, later: &Done) -> bool
    ensures { result ≡ may_follow (type_form ty.now) earlier.now later.now }
{
    match compare(ty, later, earlier) {
        Ordering::Less => false,
        Ordering::Equal | Ordering::Greater => true,
    }
}

/// The state of the type after operations, by their places.
pub(crate) fn state_after(
    alloc: Global,
    ty: &SeqType,
    ones: &[Done],
    order: &[usize],
) -> Result<Vec<Slot>, AllocError>
    requires within { AreWithin ones.now order.now }
    requires few { length order.now ≤ 3 }
    requires limits { IsWithinLimits (type_form ty.now) }
    requires args { HaveSmallArguments ones.now }
    ensures slots { IfOk result (λ slots. slots.items ≡ state_after (type_form ty.now) (picked ones.now order.now)) }
    ensures small { IfOk result (λ slots. All (IsSlotAtMost (2 ^ 100)) slots.items) }
{
    let mut slots = start(alloc, ty)?;
    for place in order {
        step(alloc, ty, &mut slots, &ones[*place])?;
    }
    Ok(slots)
}

/// Whether some ask has another answer in the state of the design than in that of the type.
fn some_is_unlike(
    ty: &SeqType,
    design: &Design,
    state: &State,
    slots: &[Slot],
    asks: &[Call],
) -> bool
    requires limits { IsWithinLimits (type_form ty.now) }
    requires small { IsSmallDesign (design_form design.now) }
    requires state { All IsSmallPart state.now.parts }
    requires slots { All (IsSlotAtMost (2 ^ 100)) slots.now }
    requires asks { All (λ (ask : calls.Call). All (IsAtMost (2 ^ 100)) ask.args) asks.now }
    ensures { result ≡ list_any (is_unlike (type_form ty.now) (design_form design.now) state.now.parts slots.now) asks.now }
{
    match asks {
        [] => false,
        [ask, more @ ..] => {
            is_unlike(ty, design, state, slots, ask)
                || some_is_unlike(ty, design, state, slots, more)
        }
    }
}

/// Whether an ask has another answer in the state of the design than in that of the type.
fn is_unlike(ty: &SeqType, design: &Design, state: &State, slots: &[Slot], ask: &Call) -> bool
    requires limits { IsWithinLimits (type_form ty.now) }
    requires small { IsSmallDesign (design_form design.now) }
    requires state { All IsSmallPart state.now.parts }
    requires slots { All (IsSlotAtMost (2 ^ 100)) slots.now }
    requires asks { All (IsAtMost (2 ^ 100)) ask.now.args }
    ensures { result ≡ is_unlike (type_form ty.now) (design_form design.now) state.now.parts slots.now ask.now }
{
    let args = ask.args.as_slice();
    !is_same_value(
        answer(ty, slots, ask.number, args),
        design_answer(design, state, ask.number, args),
    )
}
