//! Formulas that fold to true or false.
ghost use Rattle.std.specs.Prelude.{◌≡◌, map};
ghost use Rattle.kat_linear.specs.Rows.{form_of};
ghost use Rattle.kat_form.specs.Facts.{fact_of};
ghost use Rattle.kat_form.specs.Readings.{constant_form, value_of_all, value_of_any, both, either, folded_value};
ghost use Rattle.kat_form.specs.Folds.{reading_of};

use crate::Formula;
use kat_linear::Row;

impl Formula {
    /// The value of the formula if it folds to one, that is, if true, false and rows without variables decide it.
    pub fn constant(&self) -> Option<bool>
        ensures { result ≡ folded_value (fact_of self.now) }
    {
        constant(self)
    }
}

/// The value that a formula folds to.
#[cycle(fold)]
pub(crate) fn constant(formula: &Formula) -> Option<bool>
    ensures { result ≡ (reading_of formula.now).constant }
{
    match formula {
        Formula::True => Some(true),
        Formula::False => Some(false),
        Formula::Lit { .. } => None,
        Formula::AtMost(row) => constant_row(row),
        Formula::Above(row) => constant_row(row).map(|value| !value),
        Formula::And(parts) => value_of_all(parts),
        Formula::Or(parts) => value_of_any(parts),
    }
}

#[cycle(fold)]
fn value_of_all(parts: &[Formula]) -> Option<bool>
    ensures { result ≡ value_of_all (map reading_of parts.now) }
{
    let mut value = Some(true);
    for part in parts {
        value = both(value, constant(part));
    }
    value
}

#[cycle(fold)]
fn value_of_any(parts: &[Formula]) -> Option<bool>
    ensures { result ≡ value_of_any (map reading_of parts.now) }
{
    let mut value = Some(false);
    for part in parts {
        value = either(value, constant(part));
    }
    value
}

// The value of "and" if the parts' values tell it.
fn both(a: Option<bool>, b: Option<bool>) -> Option<bool>
    ensures { result ≡ both a b }
{
    match (a, b) {
        (Some(false), _) => Some(false),
        (Some(true), b) => b,
        (None, Some(false)) => Some(false),
        (None, _) => None,
    }
}

// The value of "or" if the parts' values tell it.
fn either(a: Option<bool>, b: Option<bool>) -> Option<bool>
    ensures { result ≡ either a b }
{
    match (a, b) {
        (Some(true), _) => Some(true),
        (Some(false), b) => b,
        (None, Some(true)) => Some(true),
        (None, _) => None,
    }
}

// Whether a row without variables is met.
fn constant_row(row: &Row) -> Option<bool>
    ensures { result ≡ constant_form (form_of row.now) }
{
    if row.terms.is_empty() {
        Some(row.constant <= 0)
    } else {
        None
    }
}
