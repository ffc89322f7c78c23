//! Rows of linear arithmetic, and which of them are rows of this many variables.
ghost use Rattle.std.specs.Prelude.{◌≡◌, ◌<◌, ◌≤◌, ◌^◌, length, IfOk, IfSome, IsTrue, unsigned_abs};
ghost use Rattle.std.specs.List.{All};
ghost use Rattle.kat_linear.specs.Rows.{Term, AreAscending, IsAscending, IsSmall, form_of, forms};
ghost use Rattle.kat_fm.specs.Answers.{HasVariablesBelow};

use kat_linear::Row;
use kat_table::{RowError, number_of};
use std::alloc::Global;
use std::str::SplitWhitespace;

/// A row of words `VARIABLE:COEFFICIENT` and `+ CONSTANT`.
pub(crate) fn row_of(alloc: Global, words: SplitWhitespace) -> Result<Row, RowError> {
    let mut row = Row {
        terms: Vec::new(alloc),
        constant: 0,
    };
    for word in words {
        take_word(&mut row, word)?;
    }
    Ok(row)
}

/// Adds the term of a word to a row, or takes it for the constant, except for the `+` before that.
fn take_word(row: &mut Row, word: &str) -> Result<(), RowError> {
    match word.split_once(':') {
        Some((variable, coefficient)) => {
            let term = (number_of(variable)?, number_of(coefficient)?);
            Ok(row.terms.push(term)?)
        }
        None => {
            if word != "+" {
                row.constant = number_of(word)?;
            }
            Ok(())
        }
    }
}

/// The rows of a text, one a line.
pub(crate) fn rows_of(alloc: Global, text: &str) -> Result<Vec<Row>, RowError> {
    let mut rows = Vec::new(alloc);
    for line in text.lines() {
        rows.push(row_of(alloc, line.split_whitespace())?)?;
    }
    Ok(rows)
}

const LIMIT: u128 = 1 << 126;

/// Whether the terms' variables ascend.
fn ascend(terms: &[(u32, i128)]) -> bool
    ensures { IsTrue result → AreAscending terms.now }
{
    match terms {
        [] => true,
        [first, others @ ..] => are_above(first.0, others) && ascend(others),
    }
}

/// Whether the terms' variables are above one.
fn are_above(variable: u32, terms: &[(u32, i128)]) -> bool
    ensures { IsTrue result → All (λ (t : Term). variable < t.0) terms.now }
{
    terms.iter().all(|t| variable < t.0)
}

/// Whether the terms' variables are below a number.
fn are_below(vars: u32, terms: &[(u32, i128)]) -> bool
    ensures { IsTrue result → All (λ (t : Term). t.0 < vars) terms.now }
{
    terms.iter().all(|t| t.0 < vars)
}

/// Whether no coefficient passes the limit.
fn are_small(terms: &[(u32, i128)]) -> bool
    ensures { IsTrue result → All (λ (t : Term). unsigned_abs t.1 ≤ 2 ^ 126) terms.now }
{
    terms.iter().all(|t| t.1.unsigned_abs() <= LIMIT)
}

/// Whether the variables of all rows ascend.
pub(crate) fn are_ascending(rows: &[Row]) -> bool
    ensures { IsTrue result → All IsAscending (forms rows.now) }
{
    match rows {
        [] => true,
        [first, others @ ..] => ascend(&first.terms) && are_ascending(others),
    }
}

/// Whether a row is one of this many variables: they ascend and are below that number, and no number passes the limit.
fn is_row(vars: u32, row: &Row) -> bool
    ensures { IsTrue result → IsAscending (form_of row.now) × IsSmall (form_of row.now) × HasVariablesBelow vars (form_of row.now) }
{
    ascend(&row.terms)
        && are_below(vars, &row.terms)
        && are_small(&row.terms)
        && row.constant.unsigned_abs() <= LIMIT
}

/// Whether all are rows of this many variables.
pub(crate) fn are_rows(vars: u32, rows: &[Row]) -> bool
    ensures ascending { IsTrue result → All IsAscending (forms rows.now) }
    ensures small { IsTrue result → All IsSmall (forms rows.now) }
    ensures below { IsTrue result → All (HasVariablesBelow vars) (forms rows.now) }
{
    match rows {
        [] => true,
        [first, others @ ..] => is_row(vars, first) && are_rows(vars, others),
    }
}
