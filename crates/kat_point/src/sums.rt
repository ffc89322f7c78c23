//! Sums of rows at whole numbers.
ghost use Rattle.std.specs.Prelude.{◌≡◌, ◌+ℤ◌, ◌*ℤ◌, MatchOption, pos, slice_index_or};
ghost use Rattle.kat_linear.specs.Rows.{form_of, scaled_value, term_sum};
ghost use Rattle.kat_point.specs.Values.{number_at};

use kat_linear::Row;

/// The row's sum at whole numbers, if 128 bits hold it.
pub(crate) fn value_of(row: &Row, nums: &[i128]) -> Option<i128>
    ensures { MatchOption result (Unit {0}) (λ sum. sum ≡ scaled_value 1 (number_at nums.now) (form_of row.now)) }
{
    match sum_of(&row.terms, nums) {
        Some(sum) => sum.checked_add(row.constant),
        None => None,
    }
}

fn sum_of(terms: &[(u32, i128)], nums: &[i128]) -> Option<i128>
    ensures { MatchOption result (Unit {0}) (λ sum. sum ≡ term_sum (number_at nums.now) terms.now) }
{
    match terms {
        [] => Some(0),
        [term, terms @ ..] => match sum_of(terms, nums) {
            Some(sum) => with_product(term.1, number(nums, term.0), sum),
            None => None,
        },
    }
}

fn with_product(a: i128, b: i128, sum: i128) -> Option<i128>
    ensures { MatchOption result (Unit {0}) (λ total. total ≡ a *ℤ b +ℤ sum) }
{
    match a.checked_mul(b) {
        Some(product) => product.checked_add(sum),
        None => None,
    }
}

/// The number of a variable, and 0 if it has none.
fn number(nums: &[i128], variable: u32) -> i128
    ensures { result ≡ number_at nums.now variable }
{
    match nums.get(variable as usize) {
        Some(number) => *number,
        None => 0,
    }
}
