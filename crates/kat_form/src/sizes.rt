//! Whether the numbers of formulas are in the range that encoding takes.
ghost use Rattle.std.specs.Prelude.{◌↔◌, ◌<◌, ◌≤◌, ◌^◌, suc, IsTrue, unsigned_abs};
ghost use Rattle.std.specs.List.{All};
ghost use Rattle.kat_linear.specs.Rows.{form_of};
ghost use Rattle.kat_form.specs.Facts.{fact_of, facts_of, forms_in, forms_among, IsSized, AreSized};
ghost use Rattle.kat_form.specs.Folds.{rows_of, rows_of_all};

use crate::Formula;
use kat_linear::Row;

impl Formula {
    /// Whether no number of the formula's rows passes 2^125 in absolute value and each number variable is below
    /// 2^32 - 1: what encoding asks of a fact.
    pub fn is_sized(&self) -> bool
        ensures { IsTrue result ↔ AreSized (forms_in (fact_of self.now)) }
    {
        has_sized_rows(self)
    }
}

/// Whether each of the formulas is sized.
pub fn are_sized(formulas: &[Formula]) -> bool
    ensures { IsTrue result ↔ AreSized (forms_among (facts_of formulas.now)) }
{
    have_sized_rows(formulas)
}

// Whether the rows of the formula are sized.
#[cycle(sizes)]
fn has_sized_rows(formula: &Formula) -> bool
    ensures { IsTrue result ↔ AreSized (rows_of formula.now) }
{
    match formula {
        Formula::True => true,
        Formula::False => true,
        Formula::Lit { .. } => true,
        Formula::AtMost(row) => is_sized_row(row),
        Formula::Above(row) => is_sized_row(row),
        Formula::And(parts) => have_sized_rows(parts),
        Formula::Or(parts) => have_sized_rows(parts),
    }
}

// Whether the rows of each formula are.
#[cycle(sizes)]
fn have_sized_rows(formulas: &[Formula]) -> bool
    ensures { IsTrue result ↔ AreSized (rows_of_all formulas.now) }
{
    for formula in formulas {
        if !has_sized_rows(formula) {
            return false;
        }
    }
    true
}

// Whether the row's numbers and variables are in range.
fn is_sized_row(row: &Row) -> bool
    ensures { IsTrue result ↔ IsSized (form_of row.now) }
{
    are_numbered(&row.terms) && are_small(&row.terms) && is_small(row.constant)
}

// Whether one more than each variable is a number of 32 bits.
fn are_numbered(terms: &[(u32, i128)]) -> bool
    ensures { IsTrue result ↔ All (λ t. suc t.0 < 2 ^ 32) terms.now }
{
    terms.iter().all(|t| t.0 < u32::MAX)
}

// The greatest absolute value of a fact's number.
const LIMIT: u128 = 1 << 125;

fn is_small(number: i128) -> bool
    ensures { IsTrue result ↔ (unsigned_abs number ≤ 2 ^ 125) }
{
    number.unsigned_abs() <= LIMIT
}

fn are_small(terms: &[(u32, i128)]) -> bool
    ensures { IsTrue result ↔ All (λ t. unsigned_abs t.1 ≤ 2 ^ 125) terms.now }
{
    terms.iter().all(|t| t.1.unsigned_abs() <= LIMIT)
}
