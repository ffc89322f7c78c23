//! The two numbers of the first product or sum that goes wide.
ghost use Rattle.std.specs.Prelude.{◌≡◌, ◌↔◌, ℤ, List, length, IsSome};
ghost use Rattle.std.specs.List.{All};
ghost use Rattle.kat_linear.specs.Rows.{Form, IsAscending, coefficient, form_of, forms};
ghost use Rattle.kat_linear.specs.Sums.{combined, AreNarrow, AreWide};
ghost use Rattle.kat_linear.specs.Columns.{number_in};
ghost use Rattle.kat_linear.specs.Widths.{pair_at, pair_in_terms, pair_in_row, widths};

use crate::{Column, Row, column_sum, narrow_product, narrow_sum};

/// The two numbers of the first product or sum for which `farkas` answers `Wide`, and none if it doesn't. The rows
/// are gone through in order, in a row the variables and then the constant; each product of multiplier and number
/// comes before the sum of what there is so far and that product.
pub fn wide_numbers(rows: &[Row], multipliers: &[i64]) -> Option<(i128, i128)>
    requires lengths { length rows.now ≡ length multipliers.now }
    requires ascending { All IsAscending (forms rows.now) }
    ensures { result ≡ widths (forms rows.now) multipliers.now }
{
    for (i, row) in rows.iter().enumerate() {
        if let Some(pair) = wide_in_row(&rows[..i], &multipliers[..i], row, &multipliers[i]) {
            return Some(pair);
        }
    }
    None
}

/// A law: there are such numbers if and only if the multipliers' products or sums go wide for the constants or for some
/// variable.
pub fn wide_numbers_are_of_wide_sums()
    ensures { (rows : List Form) (multipliers : List ℤ) → length rows ≡ length multipliers → All IsAscending rows →
        IsSome (widths rows multipliers) ↔ AreWide rows multipliers }
{}

/// The first wide product or sum of one row, after rows none of whose products and sums are wide.
fn wide_in_row(before: &[Row], done: &[i64], row: &Row, multiplier: &i64) -> Option<(i128, i128)>
    requires lengths { length before.now ≡ length done.now }
    requires ascending { All IsAscending (forms before.now) }
    requires narrow { AreNarrow (forms before.now) done.now }
    ensures { result ≡ pair_in_row (forms before.now) done.now multiplier.now (form_of row.now) }
{
    // most multipliers are 0, and change no sum
    if *multiplier == 0 {
        return None;
    }
    match wide_in_terms(before, done, &row.terms, multiplier) {
        Some(pair) => Some(pair),
        None => {
            let sum = narrow_column(before, done, Column::Constant);
            wide_at(*multiplier, sum, row.constant)
        }
    }
}

/// The same along the row's terms.
fn wide_in_terms(
    before: &[Row],
    done: &[i64],
    terms: &[(u32, i128)],
    multiplier: &i64,
) -> Option<(i128, i128)>
    requires lengths { length before.now ≡ length done.now }
    requires ascending { All IsAscending (forms before.now) }
    requires narrow { AreNarrow (forms before.now) done.now }
    ensures { result ≡ pair_in_terms multiplier.now (λ v. combined (coefficient v) (forms before.now) done.now) terms.now }
{
    for (variable, coefficient) in terms {
        let sum = narrow_column(before, done, Column::Variable(*variable));
        if let Some(pair) = wide_at(*multiplier, sum, *coefficient) {
            return Some(pair);
        }
    }
    None
}

/// The product of a multiplier and a number, or its sum with what there is so far.
fn wide_at(multiplier: i64, sum: i128, number: i128) -> Option<(i128, i128)>
    ensures { result ≡ pair_at multiplier sum number }
{
    let Some(product) = narrow_product(i128::from(multiplier), number) else {
        return Some((i128::from(multiplier), number));
    };
    match narrow_sum(sum, product) {
        Some(_) => None,
        None => Some((sum, product)),
    }
}

/// A column's sum, if none of its products and sums are wide.
fn narrow_column(rows: &[Row], multipliers: &[i64], column: Column) -> i128
    requires lengths { length rows.now ≡ length multipliers.now }
    requires ascending { All IsAscending (forms rows.now) }
    requires narrow { AreNarrow (forms rows.now) multipliers.now }
    ensures { result ≡ combined (number_in column) (forms rows.now) multipliers.now }
{
    match column_sum(rows, multipliers, column) {
        Some(sum) => sum,
        None => unreachable!(),
    }
}
