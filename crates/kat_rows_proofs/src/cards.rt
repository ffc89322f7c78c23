//! Rows of cards: what the card of a history says, and whether a design differs by it.
ghost use Rattle.std.specs.Prelude.{◌≡◌, ◌<◌, [], IfOk, length};
ghost use Rattle.kat_design.specs.Designs.{design_form};
ghost use Rattle.kat_design.specs.Faults.{faults_of};
ghost use Rattle.kat_design.specs.Sorted as designs;
ghost use Rattle.kat_histories.specs.Cards.{IsCardFor};
ghost use Rattle.kat_histories.specs.Histories.{histories};
ghost use Rattle.kat_type.specs.Fits as types;
ghost use Rattle.kat_type.specs.Signatures.{signature_of};
ghost use Rattle.kat_type.specs.Types.{type_form};
ghost use Rattle.kat_type.specs.Within.{IsWithinLimits};

use crate::readings::{is_well_sorted, of_type};
use kat_design::Design;
use kat_hist::{Card, CardAnswer, Histories, card, differs_by, histories_fit};
use kat_num::print;
use kat_table::{Answers, Row, RowError, Table, number_of, str_of};
use kat_type::SeqType;
use std::alloc::{AllocError, Global};

/// The answers of the card of the history at a place, and whether a design differs by it.
pub(crate) fn card_answers(
    alloc: Global,
    ty: &SeqType,
    design: &Design,
    table: &Table,
    row: &Row,
) -> Result<Answers, RowError>
    requires limits { IsWithinLimits (type_form ty.now) }
    requires type_sorted { types.IsWellSorted (type_form ty.now) }
    requires accepted { faults_of (design_form design.now) ≡ [] }
{
    is_well_sorted(design);
    of_type(ty, design)?;
    let at = number_of(str_of(table, row, "place")?)?;
    let mut text = Vec::new(alloc);
    tell_at(alloc, ty, design, at, &mut text)?;
    Ok(Answers::one(alloc, "type design place", text)?)
}

/// Tells the card of the history at a place, if there is one.
fn tell_at(
    alloc: Global,
    ty: &SeqType,
    design: &Design,
    place: u64,
    text: &mut Vec<u8>,
) -> Result<(), AllocError>
    requires limits { IsWithinLimits (type_form ty.now) }
    requires type_sorted { types.IsWellSorted (type_form ty.now) }
    requires sorted { designs.IsWellSorted (design_form design.now) }
    requires agrees { design.now.sig ≡ signature_of (type_form ty.now) }
{
    let whole = Histories::new(alloc, ty)?;
    if place >= whole.len() {
        return text.extend_from_slice(b"no history");
    }
    let card = card_at(alloc, ty, &whole, place)?;
    tell_card(alloc, design, &card, text)
}

/// The card of the history at a place.
fn card_at(alloc: Global, ty: &SeqType, whole: &Histories, place: u64) -> Result<Card, AllocError>
    requires limits { IsWithinLimits (type_form ty.now) }
    requires type_sorted { types.IsWellSorted (type_form ty.now) }
    requires all { whole.now ≡ histories (signature_of (type_form ty.now)) }
    requires there { place < length whole.now }
    ensures { IfOk result (IsCardFor (signature_of (type_form ty.now))) }
{
    histories_fit();
    let history = whole.get(alloc, place)?;
    let found = card(alloc, ty, &history)?;
    Ok(found)
}

/// Tells a card's answers in their order, and whether the design differs by it.
fn tell_card(
    alloc: Global,
    design: &Design,
    card: &Card,
    text: &mut Vec<u8>,
) -> Result<(), AllocError>
    requires sorted { designs.IsWellSorted (design_form design.now) }
    requires of_history { IsCardFor design.now.sig card.now }
{
    for answer in card.answers.as_slice() {
        tell_answer(alloc, answer, text)?;
    }
    if differs_by(alloc, design, card)? {
        text.extend_from_slice(b"differs")
    } else {
        text.extend_from_slice(b"agrees")
    }
}

/// Tells one answer, `none` if two arrangements answer differently.
fn tell_answer(alloc: Global, answer: &CardAnswer, text: &mut Vec<u8>) -> Result<(), AllocError> {
    match &answer.value {
        None => text.extend_from_slice(b"none")?,
        Some(value) => print(alloc, value, text)?,
    }
    text.push(b' ')?;
    Ok(())
}
