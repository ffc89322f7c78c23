//! What the operations of a history ask of designs: the answers of the type, made once for all of them.
ghost use Rattle.std.specs.Prelude.{◌≡◌, ◌≤◌, ◌^◌, ◌++◌, ◌∷◌, All, [], IfOk, List, OnOk, length};
ghost use Rattle.kat_design.specs.Denotations.{denotation_of};
ghost use Rattle.kat_design.specs.Designs.{design_form};
ghost use Rattle.kat_design.specs.Small.{IsSmallDesign, IsSmallPart};
ghost use Rattle.kat_design.specs.Sorted as designs;
ghost use Rattle.kat_expr.specs.Limits.{IsAtMost, IsSlotAtMost};
ghost use Rattle.kat_histories.specs.Histories.{FitsHistory, history_of};
ghost use Rattle.kat_histories.specs.Orders.{orders_of};
ghost use Rattle.kat_histories.specs.declared.calls.Call as calls;
ghost use Rattle.kat_histories.specs.Answering.{is_other};
ghost use Rattle.kat_histories.specs.Places.{AreWithin, picked};
ghost use Rattle.kat_hist.specs.Trials.{Gathers, IsGathered, Tells, answers_in, are_known, is_refuted, some_other};
ghost use Rattle.kat_seq.specs.Sizes.{HaveSmallArguments};
ghost use Rattle.kat_type.specs.Types.{type_form};
ghost use Rattle.kat_type.specs.Within.{IsWithinLimits};
ghost use Rattle.kat_type.specs.declared.done.Done as dones;

use crate::arrangements::{respects_ranks, state_after};
use kat_design::{Design, State, denotations_are_small, design_answer};
use kat_expr::Slot;
use kat_histories::{Call, denotation, is_same_value, orders_of};
use kat_num::{Items, Value};
use kat_seq::answer;
use kat_type::{Done, SeqType};
use std::alloc::{AllocError, Global};

/// The answers of a type to all asks after operations, if all orders of them that respect the ranks give the same; `None` if two orders
/// give different ones.
pub(crate) fn answers_of(
    alloc: Global,
    ty: &SeqType,
    asks: &[Call],
    ones: &[Done],
) -> Result<Option<Items<Value>>, AllocError>
    requires few { length ones.now ≤ 3 }
    requires limits { IsWithinLimits (type_form ty.now) }
    requires asks { All (λ (ask : calls.Call). All (IsAtMost (2 ^ 100)) ask.args) asks.now }
    requires args { HaveSmallArguments ones.now }
    ensures { IfOk result (λ answers. Tells (type_form ty.now) asks.now (orders_of ones.now) answers) }
{
    let mut answers = Vec::with_capacity(alloc, asks.len())?;
    for order in orders_of(ones) {
        if !gather(alloc, ty, asks, ones, &order[..ones.len()], &mut answers)? {
            return Ok(None);
        }
    }
    Ok(Some(Items::from_vec(answers)))
}

/// Takes the answers after one more order, and tells whether they are those after the orders before it.
fn gather(
    alloc: Global,
    ty: &SeqType,
    asks: &[Call],
    ones: &[Done],
    order: &[usize],
    answers: &mut Vec<Value>,
) -> Result<bool, AllocError>
    requires within { AreWithin ones.now order.now }
    requires few { length order.now ≤ 3 }
    requires limits { IsWithinLimits (type_form ty.now) }
    requires asks { All (λ (ask : calls.Call). All (IsAtMost (2 ^ 100)) ask.args) asks.now }
    requires args { HaveSmallArguments ones.now }
    ensures { IfOk result (λ same. (orders : List (List dones.Done)) → Gathers (type_form ty.now) asks.now orders answers.old.items
        → IsGathered (type_form ty.now) asks.now (orders ++ picked ones.now order.now ∷ []) same answers.new.items) }
{
    if !respects_ranks(ty, ones, order) {
        return Ok(true);
    }
    let slots = state_after(alloc, ty, ones, order)?;
    if answers.is_empty() {
        push_answers(ty, &slots, asks, answers)?;
        return Ok(true);
    }
    Ok(are_known(ty, &slots, asks, answers))
}

/// Appends the answers in a state to all asks.
fn push_answers(
    ty: &SeqType,
    slots: &[Slot],
    asks: &[Call],
    answers: &mut Vec<Value>,
) -> Result<(), AllocError>
    requires limits { IsWithinLimits (type_form ty.now) }
    requires slots { All (IsSlotAtMost (2 ^ 100)) slots.now }
    requires asks { All (λ (ask : calls.Call). All (IsAtMost (2 ^ 100)) ask.args) asks.now }
    ensures { OnOk result (answers.new.items ≡ answers.old.items ++ answers_in (type_form ty.now) slots.now asks.now) }
{
    match asks {
        [] => Ok(()),
        [ask, more @ ..] => {
            answers.push(answer(ty, slots, ask.number, ask.args.as_slice()))?;
            push_answers(ty, slots, more, answers)
        }
    }
}

/// Whether the answers in a state are those that are known, one for each ask.
fn are_known(ty: &SeqType, slots: &[Slot], asks: &[Call], answers: &[Value]) -> bool
    requires limits { IsWithinLimits (type_form ty.now) }
    requires slots { All (IsSlotAtMost (2 ^ 100)) slots.now }
    requires asks { All (λ (ask : calls.Call). All (IsAtMost (2 ^ 100)) ask.args) asks.now }
    ensures { result ≡ are_known (type_form ty.now) slots.now asks.now answers.now }
{
    match asks {
        [] => true,
        [ask, more @ ..] => match answers {
            [] => true,
            [known, others @ ..] => {
                is_same_value(*known, answer(ty, slots, ask.number, ask.args.as_slice()))
                    && are_known(ty, slots, more, others)
            }
        },
    }
}

/// Whether a design, after operations, answers otherwise than the type after some order.
pub(crate) fn is_refuted(
    alloc: Global,
    design: &Design,
    asks: &[Call],
    ones: &[Done],
    answers: &Option<Items<Value>>,
) -> Result<bool, AllocError>
    requires sorted { designs.IsWellSorted (design_form design.now) }
    requires small { IsSmallDesign (design_form design.now) }
    requires asks { All (λ (ask : calls.Call). All (IsAtMost (2 ^ 100)) ask.args) asks.now }
    requires fits { FitsHistory design.now.sig (history_of ones.now) }
    ensures { IfOk result (λ found. found ≡ is_refuted (design_form design.now)
        (denotation_of (design_form design.now) ones.now) asks.now answers.now) }
{
    let Some(answers) = answers else {
        return Ok(true);
    };
    denotations_are_small();
    let state = denotation(alloc, design, ones)?;
    Ok(some_other(design, &state, asks, answers.as_slice()))
}

/// Whether a design, in a state, answers some ask otherwise.
fn some_other(design: &Design, state: &State, asks: &[Call], answers: &[Value]) -> bool
    requires small { IsSmallDesign (design_form design.now) }
    requires state { All IsSmallPart state.now.parts }
    requires asks { All (λ (ask : calls.Call). All (IsAtMost (2 ^ 100)) ask.args) asks.now }
    ensures { result ≡ some_other (design_form design.now) state.now.parts asks.now answers.now }
{
    match asks {
        [] => false,
        [ask, more @ ..] => match answers {
            [] => false,
            [answer, others @ ..] => {
                is_other(design, state, ask, *answer) || some_other(design, state, more, others)
            }
        },
    }
}

/// Whether a design, in a state, answers an ask otherwise.
fn is_other(design: &Design, state: &State, ask: &Call, answer: Value) -> bool
    requires small { IsSmallDesign (design_form design.now) }
    requires state { All IsSmallPart state.now.parts }
    requires asks { All (IsAtMost (2 ^ 100)) ask.now.args }
    ensures { result ≡ is_other (design_form design.now) state.now.parts ask.now answer }
{
    !is_same_value(
        answer,
        design_answer(design, state, ask.number, ask.args.as_slice()),
    )
}
