//! A design compared with a type by the card of a history.
ghost use Rattle.std.specs.Prelude.{◌≡◌, ◌^◌, All, IfOk};
ghost use Rattle.std.specs.Bool.{Decides};
ghost use Rattle.std.specs.List.{list_any};
ghost use Rattle.kat_histories.specs.Answering.{is_unsettled, misses};
ghost use Rattle.kat_histories.specs.Cards.{IsCard, IsCardFor};
ghost use Rattle.kat_histories.specs.Differing.{Differs};
ghost use Rattle.kat_histories.specs.declared.cards.CardAnswer as cards;
ghost use Rattle.kat_design.specs.Designs.{design_form};
ghost use Rattle.kat_design.specs.Small.{IsSmallDesign, IsSmallPart};
ghost use Rattle.kat_design.specs.Sorted as designs;
ghost use Rattle.kat_expr.specs.Limits.{IsAtMost};
ghost use Rattle.kat_histories.specs.declared.histories.History as histories;
ghost use Rattle.kat_type.specs.Signatures.{signature_of};
ghost use Rattle.kat_type.specs.Types.{TypeForm};

use crate::answers::is_same_value;
use crate::cards::{Card, CardAnswer};
use crate::denotations::denotation;
use kat_design::{Design, State, denotations_are_small, design_answer};
use kat_sort_check::{accepted_designs_are_small, accepted_designs_are_well_sorted};
use std::alloc::{AllocError, Global};

/// Whether a design differs from a type on a history, by the card of the history: from each type of its signature, and on each
/// history, that have this card.
///
/// The design is accepted (`sort_check`), and the card is one of a history of a type with its signature.
pub fn differs_by(alloc: Global, design: &Design, card: &Card) -> Result<bool, AllocError>
    requires sorted { designs.IsWellSorted (design_form design.now) }
    requires of_history { IsCardFor design.now.sig card.now }
    ensures { IfOk result (λ found. (ty : TypeForm) (history : histories.History) → signature_of ty ≡ design.now.sig
        → IsCard ty history card.now
        → Decides found (Differs ty (design_form design.now) history)) }
{
    accepted_designs_are_well_sorted();
    accepted_designs_are_small();
    denotations_are_small();
    let answers = card.answers.as_slice();
    if some_unsettled(answers) {
        return Ok(true);
    }
    let state = denotation(alloc, design, card.ops.as_slice())?;
    Ok(misses_some(design, &state, answers))
}

/// Whether two orders answer some query differently.
fn some_unsettled(answers: &[CardAnswer]) -> bool
    ensures { result ≡ list_any is_unsettled answers.now }
{
    match answers {
        [] => false,
        [answer, more @ ..] => is_unsettled(answer) || some_unsettled(more),
    }
}

/// Whether there isn't one answer.
fn is_unsettled(answer: &CardAnswer) -> bool
    ensures { result ≡ is_unsettled answer.now }
{
    match answer.value {
        None => true,
        Some(_) => false,
    }
}

/// Whether a design, in a state, doesn't give some of the answers.
fn misses_some(design: &Design, state: &State, answers: &[CardAnswer]) -> bool
    requires small { IsSmallDesign (design_form design.now) }
    requires state { All IsSmallPart state.now.parts }
    requires asks { All (λ (answer : cards.CardAnswer). All (IsAtMost (2 ^ 100)) answer.args) answers.now }
    ensures { result ≡ list_any (misses (design_form design.now) state.now.parts) answers.now }
{
    match answers {
        [] => false,
        [answer, more @ ..] => { misses(design, state, answer) || misses_some(design, state, more) }
    }
}

/// Whether a design, in a state, doesn't give the one answer.
fn misses(design: &Design, state: &State, answer: &CardAnswer) -> bool
    requires small { IsSmallDesign (design_form design.now) }
    requires state { All IsSmallPart state.now.parts }
    requires asks { All (IsAtMost (2 ^ 100)) answer.now.args }
    ensures { result ≡ misses (design_form design.now) state.now.parts answer.now }
{
    match answer.value {
        None => true,
        Some(value) => {
            let own = design_answer(design, state, answer.query, answer.args.as_slice());
            !is_same_value(value, own)
        }
    }
}
