//! How the card of a history is made.
ghost use Rattle.std.specs.Prelude.{◌≡◌, ◌≤◌, ◌^◌, ◌++◌, ◌∷◌, All, [], IfOk, List, OnOk, length, map};
ghost use Rattle.kat_expr.specs.Limits.{IsAtMost, IsSlotAtMost};
ghost use Rattle.kat_expr.specs.declared.expressions.Slot as expressions;
ghost use Rattle.kat_histories.specs.Histories.{FitsHistory};
ghost use Rattle.kat_histories.specs.Orders.{orders_of};
ghost use Rattle.kat_histories.specs.Pools.{asks_of};
ghost use Rattle.kat_histories.specs.declared.calls.Call as calls;
ghost use Rattle.kat_histories.specs.Answering.{card_answer};
ghost use Rattle.kat_histories.specs.Places.{AreWithin, picked};
ghost use Rattle.kat_histories.specs.Cards.{IsCard};
ghost use Rattle.kat_hist.specs.Arranging.{states_of};
ghost use Rattle.kat_seq.specs.Sizes.{HaveSmallArguments};
ghost use Rattle.kat_type.specs.Fits as types;
ghost use Rattle.kat_type.specs.Signatures.{signature_of};
ghost use Rattle.kat_type.specs.Types.{type_form};
ghost use Rattle.kat_type.specs.Within.{IsWithinLimits};

use crate::arrangements::{respects_ranks, state_after};
use kat_expr::Slot;
use kat_histories::{Call, Card, CardAnswer, History, asks_of, one_answer, orders_of};
use kat_num::Items;
use kat_type::{Done, SeqType, signature, signatures_are_small};
use std::alloc::{AllocError, Global};

/// The card of a history of a type. The history has at most three operations of its signature, each once, at times above 0.
pub fn card(alloc: Global, ty: &SeqType, history: &History) -> Result<Card, AllocError>
    requires limits { IsWithinLimits (type_form ty.now) }
    requires sorted { types.IsWellSorted (type_form ty.now) }
    requires fits { FitsHistory (signature_of (type_form ty.now)) history.now }
    ensures { IfOk result (λ card. IsCard (type_form ty.now) history.now card) }
{
    let asks = asks_of_type(alloc, ty)?;
    let states = states_after(alloc, ty, history.ops.as_slice())?;
    let mut answers = Vec::with_capacity(alloc, asks.len())?;
    push_answers(alloc, ty, &states, &asks, &mut answers)?;
    Ok(Card {
        ops: history.copy(alloc)?.ops,
        answers: Items::from_vec(answers),
    })
}

/// The queries of a type with each list of arguments of the pools. The signature is dropped here, so that who holds the asks
/// doesn't hold it too.
pub(crate) fn asks_of_type(alloc: Global, ty: &SeqType) -> Result<Vec<Call>, AllocError>
    requires { types.IsWellSorted (type_form ty.now) }
    ensures { IfOk result (λ asks. asks.items ≡ asks_of (signature_of (type_form ty.now))) }
{
    signatures_are_small();
    let sig = signature(alloc, ty)?;
    asks_of(alloc, &sig)
}

/// The states of the type after each order of at most three operations that respects the ranks.
fn states_after(alloc: Global, ty: &SeqType, ones: &[Done]) -> Result<Vec<Items<Slot>>, AllocError>
    requires few { length ones.now ≤ 3 }
    requires limits { IsWithinLimits (type_form ty.now) }
    requires args { HaveSmallArguments ones.now }
    ensures states { IfOk result (λ states. states.items ≡ states_of (type_form ty.now) (orders_of ones.now)) }
    ensures small { IfOk result (λ states. All (λ (state : List expressions.Slot). All (IsSlotAtMost (2 ^ 100)) state) states.items) }
{
    let mut states = Vec::new(alloc);
    for order in orders_of(ones) {
        push_state(alloc, ty, ones, &order[..ones.len()], &mut states)?;
    }
    Ok(states)
}

/// Appends the state of the type after operations, by their places, if they are in an order that respects the ranks.
fn push_state(
    alloc: Global,
    ty: &SeqType,
    ones: &[Done],
    order: &[usize],
    states: &mut Vec<Items<Slot>>,
) -> Result<(), AllocError>
    requires within { AreWithin ones.now order.now }
    requires few { length order.now ≤ 3 }
    requires limits { IsWithinLimits (type_form ty.now) }
    requires args { HaveSmallArguments ones.now }
    requires small { All (λ (state : List expressions.Slot). All (IsSlotAtMost (2 ^ 100)) state) states.old.items }
    ensures pushed { OnOk result (states.new.items ≡ states.old.items ++ states_of (type_form ty.now) (picked ones.now order.now ∷ [])) }
    ensures small { OnOk result (All (λ (state : List expressions.Slot). All (IsSlotAtMost (2 ^ 100)) state) states.new.items) }
{
    if respects_ranks(ty, ones, order) {
        let slots = state_after(alloc, ty, ones, order)?;
        states.push(Items::from_vec(slots))?;
    }
    Ok(())
}

/// Appends the answers in these states to all asks.
fn push_answers(
    alloc: Global,
    ty: &SeqType,
    states: &[Items<Slot>],
    asks: &[Call],
    answers: &mut Vec<CardAnswer>,
) -> Result<(), AllocError>
    requires limits { IsWithinLimits (type_form ty.now) }
    requires states { All (λ (state : List expressions.Slot). All (IsSlotAtMost (2 ^ 100)) state) states.now }
    requires asks { All (λ (ask : calls.Call). All (IsAtMost (2 ^ 100)) ask.args) asks.now }
    ensures { OnOk result (answers.new.items ≡ answers.old.items ++ map (card_answer (type_form ty.now) states.now) asks.now) }
{
    match asks {
        [] => Ok(()),
        [ask, more @ ..] => {
            let args = Vec::from_slice(alloc, ask.args.as_slice())?;
            answers.push(CardAnswer {
                query: ask.number,
                args: Items::from_vec(args),
                value: one_answer(ty, states, ask),
            })?;
            push_answers(alloc, ty, states, more, answers)
        }
    }
}
