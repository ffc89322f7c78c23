//! Histories after which the type itself has two answers.
ghost use Rattle.kat_type.specs.Fits.{IsWellSorted};
ghost use Rattle.kat_type.specs.Types.{type_form};
ghost use Rattle.kat_type.specs.Within.{IsWithinLimits};

use kat_hist::{Card, Histories, History, card, histories_fit};
use kat_type::SeqType;
use std::alloc::{AllocError, Global};

/// A history, and the number of a query that the type answers in two ways after it, in two orders that the ranks allow.
#[derive(Drop)]
pub(crate) struct Tie {
    pub(crate) history: History,
    pub(crate) query: u32,
}

/// How many answers of the type are looked at.
const ANSWERS: usize = 200_000;

/// The first tie of the first histories. If there is one, no design is right.
pub(crate) fn first_tie(alloc: Global, ty: &SeqType) -> Result<Option<Tie>, AllocError>
    requires limits { IsWithinLimits (type_form ty.now) }
    requires sorted { IsWellSorted (type_form ty.now) }
{
    histories_fit();
    let whole = Histories::new(alloc, ty)?;
    let mut left = ANSWERS;
    'histories: for number in 0..whole.len() {
        let history = whole.get(alloc, number)?;
        let card = card(alloc, ty, &history)?;
        if let Some(query) = tied_query(&card) {
            return Ok(Some(Tie { history, query }));
        }
        let answers = card.answers.as_slice().len();
        if answers >= left {
            return Ok(None);
        }
        left = left.saturating_sub(answers).saturating_sub(1);
    }
    Ok(None)
}

/// The number of the first query without one answer.
fn tied_query(card: &Card) -> Option<u32> {
    for answer in card.answers.as_slice() {
        if answer.value.is_none() {
            return Some(answer.query);
        }
    }
    None
}
