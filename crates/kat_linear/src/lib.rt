//! Rows of linear arithmetic, and the check of Farkas multipliers.
#![tactic(auto)]

ghost use Rattle.std.specs.Prelude.{◌≡◌, ℕ, ◌+◌, ◌<◌, ◌≤◌, ◌^◌, ◌↔◌, Bool, ℤ, pos, ◌+ℤ◌, ◌-ℤ◌, ◌*ℤ◌, neg_ℤ, ◌≤ℤ◌, ◌<ℤ◌, List, length, MatchOption, IfOk, map, IsTrue, ◌⊎◌};
ghost use Rattle.std.specs.List.{All};
ghost use Rattle.kat_linear.specs.Rows.{Term, AreAscending, IsAscending, coefficient_in, coefficient, IsMet, IsSmall, negated_form, Form, form_of, forms};
ghost use Rattle.kat_linear.specs.Sums.{IsNarrow, IsWide, products, AreNarrow, AreWide, IsCertificate};
ghost use Rattle.kat_linear.specs.Columns.{IsColumnSum, number_in, IsNext, IsBalance};

mod verdict;
mod widths;

use std::alloc::{AllocError, Global};
pub use verdict::Farkas;
pub use widths::{wide_numbers, wide_numbers_are_of_wide_sums};

/// A linear form over number variables, read as the demand that its sum is at most 0: a sum of coefficient times
/// variable over `terms`, plus `constant`. The variables of the terms ascend. Contracts see it as a `Form` (`form_of row`).
///
/// ```
/// // x + 1 and -x + 1 can't both be at most 0.
/// let up = Row { terms: vec![in alloc; (0, 1)]?, constant: 1 };
/// let down = Row { terms: vec![in alloc; (0, -1)]?, constant: 1 };
/// assert_eq!(farkas(&[up, down], &[1, 1]), Farkas::Contradiction);
/// ```
#[derive(Debug, Clone, PartialEq, Eq, Hash)]
pub struct Row {
    pub terms: Vec<(u32, i128)>,
    pub constant: i128,
}

impl Drop for Row {
    fn drop(self) {
        let Self {
            terms: _,
            constant: _,
        } = self;
    }
}

impl Row {
    /// The same row.
    pub fn copy(&self, alloc: Global) -> Result<Row, AllocError>
        ensures { IfOk result (λ row. form_of row ≡ form_of self.now) }
    {
        Ok(Row {
            terms: Vec::from_slice(alloc, &self.terms)?,
            constant: self.constant,
        })
    }

    /// The row of the negation over whole numbers: for the sum L of the row it has the sum 1 - L.
    pub fn negated(&self, alloc: Global) -> Result<Row, AllocError>
        requires { IsSmall (form_of self.now) }
        ensures { IfOk result (λ row. form_of row ≡ negated_form (form_of self.now)) }
    {
        let mut terms = Vec::new(alloc);
        for (variable, coefficient) in &self.terms {
            terms.push((*variable, -*coefficient))?;
        }
        Ok(Row {
            terms,
            constant: 1 - self.constant,
        })
    }
}

/// Judges Farkas multipliers: whether each row times its multiplier, summed over the rows, leaves no variable and a
/// constant above 0, with no multiplier below 0. No fractions meet the rows then, nor do whole numbers.
///
/// The answer is `Wide` if, for the constants or for some variable, a product or a sum from the first row on
/// passes 2^126 in absolute value, whatever the multipliers' signs.
pub fn farkas(rows: &[Row], multipliers: &[i64]) -> Farkas
    requires lengths { length rows.now ≡ length multipliers.now }
    requires ascending { All IsAscending (forms rows.now) }
    ensures wide { (result ≡ Farkas.Wide) ↔ AreWide (forms rows.now) multipliers.now }
    ensures contradiction { (result ≡ Farkas.Contradiction) ↔
        (AreNarrow (forms rows.now) multipliers.now × IsCertificate (forms rows.now) multipliers.now) }
    ensures refutes { result ≡ Farkas.Contradiction →
        (den : ℕ) → 0 < den → (nums : ℕ → ℤ) → All (IsMet den nums) (forms rows.now) → ⊥ }
{
    let Some(constant) = column_sum(rows, multipliers, Column::Constant) else {
        return Farkas::Wide;
    };
    let Some(balanced) = variables_cancel(rows, multipliers) else {
        return Farkas::Wide;
    };
    if !balanced {
        return Farkas::Other;
    }
    if constant <= 0 {
        return Farkas::Other;
    }
    if !none_is_negative(multipliers) {
        return Farkas::Other;
    }
    Farkas::Contradiction
}

/// A law: if multipliers are a certificate, no fractions meet all rows. A variable v has the fraction `nums v` over
/// `den`; whole numbers are the fractions over 1.
pub fn certificates_refute()
    ensures { (rows : List Form) (multipliers : List ℤ) → IsCertificate rows multipliers →
        (den : ℕ) → 0 < den → (nums : ℕ → ℤ) → All (IsMet den nums) rows → ⊥ }
{}

/// A law: whole numbers meet a row's negation if and only if they do not meet the row.
pub fn negations_oppose()
    ensures one { (row : Form) (values : ℕ → ℤ) → IsMet 1 values row ⊎ IsMet 1 values (negated_form row) }
    ensures not_both { (row : Form) (values : ℕ → ℤ) → IsMet 1 values row → IsMet 1 values (negated_form row) → ⊥ }
{}

// What a sum over the rows is taken of.
#[derive(Debug, Clone, Copy, PartialEq, Eq)]
enum Column {
    Constant,
    Variable(u32),
}

// The greatest absolute value of a product or a sum.
const LIMIT: u128 = 1 << 126;

// Whether no multiplier is below 0.
fn none_is_negative(multipliers: &[i64]) -> bool
    ensures { IsTrue result ↔ All (λ m. pos 0 ≤ℤ m) multipliers.now }
{
    multipliers.iter().all(|m| *m >= 0)
}

// Whether each variable's sum is 0, or none if some variable's products or sums go wide.
fn variables_cancel(rows: &[Row], multipliers: &[i64]) -> Option<bool>
    requires lengths { length rows.now ≡ length multipliers.now }
    requires ascending { All IsAscending (forms rows.now) }
    ensures { IsBalance (forms rows.now) multipliers.now result }
{
    let mut from = 0;
    let mut balanced = true;
    while let Some(variable) = next_variable(rows, from) {
        let Some(sum) = column_sum(rows, multipliers, Column::Variable(variable)) else {
            return None;
        };
        if sum != 0 {
            balanced = false;
        }
        from = u64::from(variable) + 1;
    }
    Some(balanced)
}

// The least variable of the rows from `from` on.
fn next_variable(rows: &[Row], from: u64) -> Option<u32>
    requires { from ≤ 2 ^ 32 }
    ensures { IsNext (forms rows.now) from result }
{
    let mut least = PAST_VARIABLES;
    for row in rows {
        least = least_variable(&row.terms, from, least);
    }
    if least == PAST_VARIABLES {
        None
    } else {
        Some(least as u32)
    }
}

// One past the greatest number that a variable can have.
const PAST_VARIABLES: u64 = 1 << 32;

// The least variable of the terms from `from` on if it is below `best`, and else `best`.
fn least_variable(terms: &[(u32, i128)], from: u64, best: u64) -> u64
    ensures at_most { result ≤ best }
    ensures onward { from ≤ best → from ≤ result }
    ensures none { (v : ℕ) → from ≤ v → v < result → coefficient_in terms.now v ≡ pos 0 }
    ensures past { (v : ℕ) → 2 ^ 32 ≤ v → coefficient_in terms.now v ≡ pos 0 }
{
    let mut least = best;
    for (variable, _) in terms {
        let variable = u64::from(*variable);
        if from <= variable && variable < least {
            least = variable;
        }
    }
    least
}

// The sum of multiplier times number over the rows, or none if it goes wide.
fn column_sum(rows: &[Row], multipliers: &[i64], column: Column) -> Option<i128>
    requires lengths { length rows.now ≡ length multipliers.now }
    requires ascending { All IsAscending (forms rows.now) }
    ensures { IsColumnSum (products (number_in column) (forms rows.now) multipliers.now) result }
{
    let mut sum = 0;
    for (i, row) in rows.iter().enumerate() {
        let Some(product) = weighted(row, multipliers[i], column) else {
            return None;
        };
        let Some(next) = narrow_sum(sum, product) else {
            return None;
        };
        sum = next;
    }
    Some(sum)
}

// The multiplier times the row's number, or none if that is wide.
fn weighted(row: &Row, multiplier: i64, column: Column) -> Option<i128>
    requires { IsAscending (form_of row.now) }
    ensures { MatchOption result (IsWide (multiplier *ℤ number_in column (form_of row.now)))
        (λ p. (p ≡ multiplier *ℤ number_in column (form_of row.now)) × IsNarrow p) }
{
    if multiplier == 0 {
        return Some(0);
    }
    narrow_product(i128::from(multiplier), number(row, column))
}

// The product, or none if it is wide.
fn narrow_product(a: i128, b: i128) -> Option<i128>
    ensures { MatchOption result (IsWide (a *ℤ b)) (λ p. (p ≡ a *ℤ b) × IsNarrow p) }
{
    match a.checked_mul(b) {
        Some(product) if product.unsigned_abs() <= LIMIT => Some(product),
        _ => None,
    }
}

// The sum, or none if it is wide.
fn narrow_sum(a: i128, b: i128) -> Option<i128>
    ensures { MatchOption result (IsWide (a +ℤ b)) (λ s. (s ≡ a +ℤ b) × IsNarrow s) }
{
    match a.checked_add(b) {
        Some(sum) if sum.unsigned_abs() <= LIMIT => Some(sum),
        _ => None,
    }
}

// The row's number in a column.
fn number(row: &Row, column: Column) -> i128
    requires { IsAscending (form_of row.now) }
    ensures { result ≡ number_in column (form_of row.now) }
{
    match column {
        Column::Constant => row.constant,
        Column::Variable(v) => coefficient(&row.terms, v),
    }
}

/// The coefficient of a variable in ascending terms, 0 if no term has it.
pub fn coefficient(terms: &[(u32, i128)], variable: u32) -> i128
    requires { AreAscending terms.now }
    ensures { result ≡ coefficient_in terms.now variable }
{
    for (v, c) in terms {
        if *v == variable {
            return *c;
        }
    }
    0
}
