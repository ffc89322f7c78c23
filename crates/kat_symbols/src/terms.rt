//! The reading of a type's expressions, by the kind that is required.
ghost use Rattle.kat_expr.specs.Terms.{term_of};
ghost use Rattle.kat_linear.specs.Rows.{form_of};
ghost use Rattle.kat_symbols.specs.Connectives.{fact_lt};
ghost use Rattle.kat_symbols.specs.Readers.{choose};
ghost use Rattle.kat_symbols.specs.Terms.{number_kept, number_read, truth_kept, truth_read};
ghost use Rattle.kat_symbols.specs.Views.{reader_of, GivesFact, GivesRow};

use crate::connectives::{at_most, both, denied, either, less, same};
use crate::names::{Instance, Name, Place};
use crate::readers::Reader;
use crate::sides::{ReadSide, given};
use crate::sums::{minus, numeral, plus};
use crate::symbols::symbol_of;
use kat_expr::Expr;
use kat_form::Formula;
use kat_linear::Row;
use std::alloc::{AllocError, Global};

/// What a side keeps, as a number.
pub fn number_kept<S: ReadSide>(
    alloc: Global,
    reader: &mut Reader,
    side: &S,
    place: Place,
    at: Option<Instance>,
) -> Result<Row, AllocError>
    ensures { GivesRow (number_kept (S.side side.now) place at (reader_of reader.old)) result (reader_of reader.new) }
{
    let symbol = side.value(alloc, reader, place, at)?;
    Ok(symbol.into_number(alloc))
}

/// What a side keeps, as a truth value.
pub fn truth_kept<S: ReadSide>(
    alloc: Global,
    reader: &mut Reader,
    side: &S,
    place: Place,
    at: Option<Instance>,
) -> Result<Formula, AllocError>
    ensures { GivesFact (truth_kept (S.side side.now) place at (reader_of reader.old)) result (reader_of reader.new) }
{
    let symbol = side.value(alloc, reader, place, at)?;
    Ok(symbol.into_truth())
}

/// A number or a name. A truth value counts as 0.
#[cycle(read)]
pub fn number_read<S: ReadSide>(
    alloc: Global,
    reader: &mut Reader,
    side: &S,
    at: Option<Instance>,
    expr: &Expr,
) -> Result<Row, AllocError>
    ensures { GivesRow (number_read (S.side side.now) at (term_of expr.now) (reader_of reader.old)) result (reader_of reader.new) }
{
    match expr {
        Expr::Const(value) => Ok(symbol_of(alloc, *value)?.into_number(alloc)),
        Expr::Plain(field) => number_kept(alloc, reader, side, Place::Field(*field), None),
        Expr::Keyed { field, key } => {
            number_kept(
                alloc,
                reader,
                side,
                Place::Field(*field),
                Some(given(at, *key)),
            )
        }
        Expr::Arg(place) => reader.read_name(alloc, Name::Key(given(at, *place))),
        Expr::Not(_) => Ok(numeral(alloc, 0)),
        Expr::And(_, _) | Expr::Or(_, _) => Ok(numeral(alloc, 0)),
        Expr::Less(_, _) | Expr::AtMost(_, _) | Expr::Same(_, _) => Ok(numeral(alloc, 0)),
        Expr::Plus(a, b) => {
            let a = number_read(alloc, reader, side, at, a)?;
            let b = number_read(alloc, reader, side, at, b)?;
            plus(alloc, &a, &b)
        }
        Expr::Minus(a, b) => {
            let a = number_read(alloc, reader, side, at, a)?;
            let b = number_read(alloc, reader, side, at, b)?;
            minus(alloc, &a, &b)
        }
        Expr::Max(a, b) => {
            let a = number_read(alloc, reader, side, at, a)?;
            let b = number_read(alloc, reader, side, at, b)?;
            greater(alloc, reader, a, b)
        }
        Expr::Min(a, b) => {
            let a = number_read(alloc, reader, side, at, a)?;
            let b = number_read(alloc, reader, side, at, b)?;
            lesser(alloc, reader, a, b)
        }
        Expr::If(c, a, b) => {
            let c = truth_read(alloc, reader, side, at, c)?;
            let a = number_read(alloc, reader, side, at, a)?;
            let b = number_read(alloc, reader, side, at, b)?;
            reader.choose(alloc, c, a, b)
        }
    }
}

/// A truth value. A number or a name counts as false.
#[cycle(read)]
pub fn truth_read<S: ReadSide>(
    alloc: Global,
    reader: &mut Reader,
    side: &S,
    at: Option<Instance>,
    expr: &Expr,
) -> Result<Formula, AllocError>
    ensures { GivesFact (truth_read (S.side side.now) at (term_of expr.now) (reader_of reader.old)) result (reader_of reader.new) }
{
    match expr {
        Expr::Const(value) => Ok(symbol_of(alloc, *value)?.into_truth()),
        Expr::Plain(field) => truth_kept(alloc, reader, side, Place::Field(*field), None),
        Expr::Keyed { field, key } => {
            truth_kept(
                alloc,
                reader,
                side,
                Place::Field(*field),
                Some(given(at, *key)),
            )
        }
        Expr::Arg(place) => reader.read_flag(Name::Key(given(at, *place))),
        Expr::Not(a) => {
            let a = truth_read(alloc, reader, side, at, a)?;
            denied(alloc, &a)
        }
        Expr::And(a, b) => {
            let a = truth_read(alloc, reader, side, at, a)?;
            let b = truth_read(alloc, reader, side, at, b)?;
            both(alloc, a, b)
        }
        Expr::Or(a, b) => {
            let a = truth_read(alloc, reader, side, at, a)?;
            let b = truth_read(alloc, reader, side, at, b)?;
            either(alloc, a, b)
        }
        Expr::Less(a, b) => {
            let a = number_read(alloc, reader, side, at, a)?;
            let b = number_read(alloc, reader, side, at, b)?;
            less(alloc, &a, &b)
        }
        Expr::AtMost(a, b) => {
            let a = number_read(alloc, reader, side, at, a)?;
            let b = number_read(alloc, reader, side, at, b)?;
            at_most(alloc, &a, &b)
        }
        Expr::Same(a, b) => {
            let a = number_read(alloc, reader, side, at, a)?;
            let b = number_read(alloc, reader, side, at, b)?;
            same(alloc, &a, &b)
        }
        Expr::Plus(_, _) | Expr::Minus(_, _) => Ok(Formula::False),
        Expr::Max(_, _) | Expr::Min(_, _) | Expr::If(_, _, _) => Ok(Formula::False),
    }
}

/// The greater of two numbers.
pub fn greater(alloc: Global, reader: &mut Reader, a: Row, b: Row) -> Result<Row, AllocError>
    ensures { GivesRow (choose (fact_lt (form_of a) (form_of b)) (form_of b) (form_of a) (reader_of reader.old)) result
        (reader_of reader.new) }
{
    let is_less = less(alloc, &a, &b)?;
    reader.choose(alloc, is_less, b, a)
}

/// The lesser of two numbers.
fn lesser(alloc: Global, reader: &mut Reader, a: Row, b: Row) -> Result<Row, AllocError>
    ensures { GivesRow (choose (fact_lt (form_of a) (form_of b)) (form_of a) (form_of b) (reader_of reader.old)) result
        (reader_of reader.new) }
{
    let is_less = less(alloc, &a, &b)?;
    reader.choose(alloc, is_less, a, b)
}
