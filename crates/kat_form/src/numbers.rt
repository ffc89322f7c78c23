//! How many number variables an encoding needs.
ghost use Rattle.std.specs.Prelude.{◌≡◌, max, map, ◌<◌, ◌^◌, suc};
ghost use Rattle.std.specs.List.{All};
ghost use Rattle.kat_form.specs.Readings.{numbers_in, numbers_of};
ghost use Rattle.kat_form.specs.Facts.{AreSized};
ghost use Rattle.kat_form.specs.Folds.{reading_of, rows_of, rows_of_all};

use crate::Formula;
use crate::fold::constant;

// One more than the greatest number variable of what doesn't fold away in the formula, or 0.
#[cycle(numbers)]
fn numbers(formula: &Formula) -> u32
    requires sized { AreSized (rows_of formula.now) }
    ensures { result ≡ (reading_of formula.now).numbers }
{
    match formula {
        Formula::True => 0,
        Formula::False => 0,
        Formula::Lit { .. } => 0,
        Formula::AtMost(row) => numbers_in(&row.terms),
        Formula::Above(row) => numbers_in(&row.terms),
        Formula::And(parts) | Formula::Or(parts) => {
            if constant(formula).is_some() {
                0
            } else {
                numbers_of(parts)
            }
        }
    }
}

// The same of several formulas.
#[cycle(numbers)]
pub fn numbers_of(formulas: &[Formula]) -> u32
    requires sized { AreSized (rows_of_all formulas.now) }
    ensures { result ≡ numbers_of (map reading_of formulas.now) }
{
    let mut most = 0;
    for formula in formulas {
        most = greater(most, numbers(formula));
    }
    most
}

// One more than the greatest variable of the terms, or 0.
fn numbers_in(terms: &[(u32, i128)]) -> u32
    requires { All (λ t. suc t.0 < 2 ^ 32) terms.now }
    ensures { result ≡ numbers_in terms.now }
{
    let mut most = 0;
    for (variable, _) in terms {
        most = greater(most, *variable + 1);
    }
    most
}

fn greater(a: u32, b: u32) -> u32
    ensures { result ≡ max a b }
{
    if a < b { b } else { a }
}
