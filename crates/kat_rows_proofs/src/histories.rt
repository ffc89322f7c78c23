//! Rows of histories: how many a type has, their scripts, and the first one on which a design differs.
ghost use Rattle.std.specs.Prelude.{◌≡◌, []};
ghost use Rattle.kat_design.specs.Designs.{design_form};
ghost use Rattle.kat_design.specs.Faults.{faults_of};
ghost use Rattle.kat_type.specs.Fits as types;
ghost use Rattle.kat_type.specs.Types.{type_form};
ghost use Rattle.kat_type.specs.Within.{IsWithinLimits};

use crate::numbers::number_text;
use crate::readings::{is_well_sorted, of_type, type_in};
use kat_design::Design;
use kat_hist::{Histories, Trials, first_difference, script_of};
use kat_table::{Answers, Row, RowError, Table, number_of, str_of};
use kat_type::SeqType;
use std::alloc::{AllocError, Global};

/// How many histories a type has, and the script of the one at a place.
pub(crate) fn history_answers(
    alloc: Global,
    table: &Table,
    row: &Row,
) -> Result<Answers, RowError> {
    let at = number_of(str_of(table, row, "place")?)?;
    let ty = type_in(alloc, table, row)?;
    Ok(history_told(alloc, &ty, at)?)
}

/// What is reported of a type's histories.
fn history_told(alloc: Global, ty: &SeqType, at: u64) -> Result<Answers, AllocError>
    requires sorted { types.IsWellSorted (type_form ty.now) }
{
    let whole = Histories::new(alloc, ty)?;
    let script = script_at(alloc, ty, &whole, at)?;
    history_answer(alloc, whole.len(), script)
}

/// The answer of how many histories there are, and of a script.
fn history_answer(alloc: Global, count: u64, script: Vec<u8>) -> Result<Answers, AllocError> {
    let mut answers = Answers::of(alloc, "type place");
    answers.add_other("gives", script)?;
    answers.add_other("count", number_text(alloc, count)?)?;
    Ok(answers)
}

/// The script of the history at a place, or `none` if there is none.
fn script_at(
    alloc: Global,
    ty: &SeqType,
    whole: &Histories,
    place: u64,
) -> Result<Vec<u8>, AllocError>
    requires sorted { types.IsWellSorted (type_form ty.now) }
{
    if place >= whole.len() {
        return Vec::from_slice(alloc, b"none");
    }
    let history = whole.get(alloc, place)?;
    script_of(alloc, ty, &history)
}

/// The place of the first history on which a design differs, or `none`. It is looked for alone, and twice among the trials of a
/// type: where these are made, and where they are kept.
pub(crate) fn difference_answers(
    alloc: Global,
    ty: &SeqType,
    design: &Design,
) -> Result<Answers, RowError>
    requires limits { IsWithinLimits (type_form ty.now) }
    requires type_sorted { types.IsWellSorted (type_form ty.now) }
    requires accepted { faults_of (design_form design.now) ≡ [] }
{
    is_well_sorted(design);
    of_type(ty, design)?;
    let first = first_difference(alloc, ty, design)?;
    let mut trials = Trials::new(alloc, ty)?;
    let made = trials.first_difference(alloc, design)?;
    let kept = trials.first_difference(alloc, design)?;
    let text = if made == first && kept == first {
        place_text(alloc, first)?
    } else {
        Vec::from_slice(alloc, b"the searches differ")?
    };
    Ok(Answers::one(alloc, "type design", text)?)
}

/// A place, or `none`.
fn place_text(alloc: Global, place: Option<u64>) -> Result<Vec<u8>, AllocError> {
    match place {
        Some(place) => number_text(alloc, place),
        None => Vec::from_slice(alloc, b"none"),
    }
}
