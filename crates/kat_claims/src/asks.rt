//! The reading of a design's asks, by the kind that is required.
ghost use Rattle.kat_design.specs.Designs.{ask_form};
ghost use Rattle.std.specs.Prelude.{◌≡◌, option_map};
ghost use Rattle.kat_claims.specs.Asks.{number_asked, truth_asked};
ghost use Rattle.kat_symbols.specs.Sides.{given};
ghost use Rattle.kat_symbols.specs.Views.{reader_of, GivesFact, GivesRow};

use kat_design::Ask;
use kat_form::Formula;
use kat_linear::Row;
use kat_symbols::{
    Instance, Name, Place, ReadSide, Reader, both, denied, either, given, less, minus, number_kept,
    numeral, plus, symbol_of, truth_kept,
};
use std::alloc::{AllocError, Global};

/// The key that a parameter gives, if there is one.
fn given_key(at: Option<Instance>, key: Option<u32>) -> Option<Instance>
    ensures { result ≡ option_map (given at) key }
{
    match key {
        None => None,
        Some(place) => Some(given(at, place)),
    }
}

/// A number or a name. A truth value counts as 0.
pub(crate) fn number_asked<S: ReadSide>(
    alloc: Global,
    reader: &mut Reader,
    side: &S,
    at: Option<Instance>,
    ask: &Ask,
) -> Result<Row, AllocError>
    ensures { GivesRow (number_asked (S.side side.now) at (ask_form ask.now) (reader_of reader.old)) result (reader_of reader.new) }
{
    match ask {
        Ask::Leaf {
            component,
            leaf,
            key,
        } => {
            let place = Place::Leaf(*component, *leaf);
            number_kept(alloc, reader, side, place, given_key(at, *key))
        }
        Ask::Arg(place) => reader.read_name(alloc, Name::Key(given(at, *place))),
        Ask::Const(value) => Ok(symbol_of(alloc, *value)?.into_number(alloc)),
        Ask::Not(_) => Ok(numeral(alloc, 0)),
        Ask::And(_, _) | Ask::Or(_, _) | Ask::Less(_, _) => Ok(numeral(alloc, 0)),
        Ask::Plus(a, b) => {
            let a = number_asked(alloc, reader, side, at, a)?;
            let b = number_asked(alloc, reader, side, at, b)?;
            plus(alloc, &a, &b)
        }
        Ask::Minus(a, b) => {
            let a = number_asked(alloc, reader, side, at, a)?;
            let b = number_asked(alloc, reader, side, at, b)?;
            minus(alloc, &a, &b)
        }
    }
}

/// A truth value. A number or a name counts as false.
pub(crate) fn truth_asked<S: ReadSide>(
    alloc: Global,
    reader: &mut Reader,
    side: &S,
    at: Option<Instance>,
    ask: &Ask,
) -> Result<Formula, AllocError>
    ensures { GivesFact (truth_asked (S.side side.now) at (ask_form ask.now) (reader_of reader.old)) result (reader_of reader.new) }
{
    match ask {
        Ask::Leaf {
            component,
            leaf,
            key,
        } => {
            let place = Place::Leaf(*component, *leaf);
            truth_kept(alloc, reader, side, place, given_key(at, *key))
        }
        Ask::Arg(place) => reader.read_flag(Name::Key(given(at, *place))),
        Ask::Const(value) => Ok(symbol_of(alloc, *value)?.into_truth()),
        Ask::Not(a) => {
            let a = truth_asked(alloc, reader, side, at, a)?;
            denied(alloc, &a)
        }
        Ask::And(a, b) => {
            let a = truth_asked(alloc, reader, side, at, a)?;
            let b = truth_asked(alloc, reader, side, at, b)?;
            both(alloc, a, b)
        }
        Ask::Or(a, b) => {
            let a = truth_asked(alloc, reader, side, at, a)?;
            let b = truth_asked(alloc, reader, side, at, b)?;
            either(alloc, a, b)
        }
        Ask::Less(a, b) => {
            let a = number_asked(alloc, reader, side, at, a)?;
            let b = number_asked(alloc, reader, side, at, b)?;
            less(alloc, &a, &b)
        }
        Ask::Plus(_, _) | Ask::Minus(_, _) => Ok(Formula::False),
    }
}
