//! The sum of a row at a point, within 2^126.
ghost use Rattle.std.specs.Prelude.{◌≡◌, ◌+ℤ◌, ◌*ℤ◌, ◌<ℤ◌, MatchOption, ◌||◌, false, pos, true, unsigned_abs};
ghost use Rattle.kat_linear.specs.Rows.{form_of, scaled_value, term_sum};
ghost use Rattle.kat_points.specs.Points.{factors, goes_past, is_wide, number_at, term_factors};

use kat_linear::Row;

/// The greatest absolute value of a number.
pub(crate) const LIMIT: u128 = 1 << 126;

/// The row's sum at a point, times the denominator, if no product and no sum so far passes 2^126: term by term, and then
/// the constant.
pub(crate) fn row_sum(row: &Row, den: i128, nums: &[i128]) -> Option<i128>
    requires { pos 0 <ℤ den }
    ensures { MatchOption result (goes_past (pos 0) (factors den nums.now (form_of row.now)) ≡ true) (λ sum.
        (goes_past (pos 0) (factors den nums.now (form_of row.now)) ≡ false)
        × (sum ≡ scaled_value (unsigned_abs den) (number_at nums.now) (form_of row.now))) }
{
    match terms_sum(&row.terms, nums) {
        Some(sum) => with_product(sum, row.constant, den),
        None => None,
    }
}

/// The sum of the terms.
fn terms_sum(terms: &[(u32, i128)], nums: &[i128]) -> Option<i128>
    ensures { MatchOption result (goes_past (pos 0) (term_factors nums.now terms.now) ≡ true) (λ total.
        (goes_past (pos 0) (term_factors nums.now terms.now) ≡ false) × (total ≡ term_sum (number_at nums.now) terms.now)) }
{
    let mut total = 0;
    for term in terms {
        let Some(next) = with_product(total, term.1, number(nums, term.0)) else {
            return None;
        };
        total = next;
    }
    Some(total)
}

/// The sum with a product, if neither passes 2^126.
fn with_product(sum: i128, a: i128, b: i128) -> Option<i128>
    ensures { MatchOption result ((is_wide (a *ℤ b) || is_wide (sum +ℤ a *ℤ b)) ≡ true) (λ total.
        ((is_wide (a *ℤ b) || is_wide (sum +ℤ a *ℤ b)) ≡ false) × (total ≡ sum +ℤ a *ℤ b)) }
{
    match narrow_product(a, b) {
        Some(product) => narrow_sum(sum, product),
        None => None,
    }
}

fn narrow_product(a: i128, b: i128) -> Option<i128>
    ensures { MatchOption result (is_wide (a *ℤ b) ≡ true) (λ p. (is_wide (a *ℤ b) ≡ false) × (p ≡ a *ℤ b)) }
{
    match a.checked_mul(b) {
        Some(product) if product.unsigned_abs() <= LIMIT => Some(product),
        _ => None,
    }
}

fn narrow_sum(a: i128, b: i128) -> Option<i128>
    ensures { MatchOption result (is_wide (a +ℤ b) ≡ true) (λ s. (is_wide (a +ℤ b) ≡ false) × (s ≡ a +ℤ b)) }
{
    match a.checked_add(b) {
        Some(sum) if sum.unsigned_abs() <= LIMIT => Some(sum),
        _ => None,
    }
}

/// The numerator of a variable, and 0 if it has none.
fn number(nums: &[i128], variable: u32) -> i128
    ensures { result ≡ number_at nums.now variable }
{
    match nums.get(variable as usize) {
        Some(number) => *number,
        None => 0,
    }
}
