//! Rows of linear arithmetic: multipliers, wide numbers and eliminations.
ghost use Rattle.std.specs.Prelude.{◌≡◌, length};
ghost use Rattle.std.specs.List.{All};
ghost use Rattle.kat_linear.specs.Rows.{IsAscending, forms};

use crate::bounds::{are_ascending, are_rows, rows_of};
use kat_fm::{Solved, solve};
use kat_linear::{Farkas, Row as Linear, farkas, wide_numbers};
use kat_table::{
    Answers, Row, RowError, Table, number_of, numbers_of, push_number, push_numbers, str_of,
};
use std::alloc::{AllocError, Global};

const NO_ROWS: RowError = RowError::Damaged("the rows aren't rows of so many variables");

/// What multipliers of rows come to, and if asked, the two numbers of the first sum or product that is wide.
pub(crate) fn multiplier_answers(
    alloc: Global,
    table: &Table,
    row: &Row,
) -> Result<Answers, RowError> {
    let rows = rows_of(alloc, str_of(table, row, "linear")?)?;
    let by = str_of(table, row, "by")?.split_whitespace();
    let multipliers = numbers_of(alloc, by)?;
    multiplied(alloc, &rows, &multipliers)
}

/// The result for rows and multipliers, if there is one for each row.
fn multiplied(alloc: Global, rows: &[Linear], multipliers: &[i64]) -> Result<Answers, RowError> {
    if !are_ascending(rows) {
        return Err(NO_ROWS);
    }
    if rows.len() != multipliers.len() {
        return Err(RowError::Damaged("there are more rows than multipliers, or fewer"));
    }
    let wide = widths_text(alloc, rows, multipliers)?;
    Ok(multipliers_told(alloc, product_word(rows, multipliers), wide)?)
}

/// The two numbers of the first sum or product that is wide, or `none`.
fn widths_text(alloc: Global, rows: &[Linear], multipliers: &[i64]) -> Result<Vec<u8>, AllocError>
    requires ascending { All IsAscending (forms rows.now) }
    requires lengths { length rows.now ≡ length multipliers.now }
{
    let mut text = Vec::new(alloc);
    push_widths(&mut text, rows, multipliers)?;
    Ok(text)
}

/// What multipliers of rows come to, as a word.
fn product_word(rows: &[Linear], multipliers: &[i64]) -> &'static str
    requires ascending { All IsAscending (forms rows.now) }
    requires lengths { length rows.now ≡ length multipliers.now }
{
    match farkas(rows, multipliers) {
        Farkas::Contradiction => "contradiction",
        Farkas::Wide => "wide",
        Farkas::Other => "other",
    }
}

/// Appends the two numbers of the first sum or product that is wide, or `none`.
fn push_widths(text: &mut Vec<u8>, rows: &[Linear], multipliers: &[i64]) -> Result<(), AllocError>
    requires ascending { All IsAscending (forms rows.now) }
    requires lengths { length rows.now ≡ length multipliers.now }
{
    match wide_numbers(rows, multipliers) {
        Some((left, right)) => {
            push_number(text, "", left)?;
            push_number(text, " ", right)
        }
        None => text.extend_from_slice(b"none"),
    }
}

/// The answers of a word and of wide numbers.
fn multipliers_told(alloc: Global, word: &str, wide: Vec<u8>) -> Result<Answers, AllocError> {
    let mut answers = Answers::of(alloc, "linear by");
    answers.add_other("wide", wide)?;
    answers.add_other("gives", Vec::from_slice(alloc, word.as_bytes())?)?;
    Ok(answers)
}

/// What elimination answers of rows of this many variables.
pub(crate) fn elimination_answers(
    alloc: Global,
    table: &Table,
    row: &Row,
) -> Result<Answers, RowError> {
    let vars = number_of(str_of(table, row, "variables")?)?;
    let rows = rows_of(alloc, str_of(table, row, "linear")?)?;
    eliminated(alloc, vars, &rows)
}

/// The results of rows.
fn eliminated(alloc: Global, vars: u32, rows: &[Linear]) -> Result<Answers, RowError> {
    if !are_rows(vars, rows) {
        return Err(NO_ROWS);
    }
    let solved = solve(alloc, rows, vars)?;
    Ok(solved_told(alloc, &solved)?)
}

/// What is reported of an elimination.
fn solved_told(alloc: Global, solved: &Solved) -> Result<Answers, AllocError> {
    let mut text = Vec::new(alloc);
    push_solved(&mut text, solved)?;
    Answers::one(alloc, "linear variables", text)
}

/// Appends what elimination answers.
fn push_solved(text: &mut Vec<u8>, solved: &Solved) -> Result<(), AllocError> {
    match solved {
        Solved::Point { den, nums } => {
            push_number(text, "point ", *den)?;
            push_numbers(text, ":", nums)
        }
        Solved::Multipliers(multipliers) => push_numbers(text, "multipliers", multipliers),
        Solved::Rows { plus, minus, rest } => push_numbers(text, "rows", &[*plus, *minus, *rest]),
        Solved::Wide { left, right } => push_numbers(text, "wide", &[*left, *right]),
    }
}
