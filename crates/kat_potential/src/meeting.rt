//! Whether values meet a row.
ghost use Rattle.std.specs.Prelude.{◌≡◌, true};
ghost use Rattle.kat_linear.specs.Rows.{form_of, negated_form};
ghost use Rattle.kat_fm.specs.Answers.{HasVariablesBelow};
ghost use Rattle.kat_potential.specs.Differences.{IsMetApart};

use crate::differences::Difference;
use kat_linear::Row;

/// Whether the row is a difference that the values meet: by variable, and at `nought` that of 0. False if its constant is too
/// great.
pub fn is_met(row: &Row, values: &[i64], nought: u32) -> bool
    requires { HasVariablesBelow nought (form_of row.now) }
    ensures { result ≡ true → IsMetApart nought values.now (form_of row.now) }
{
    let Some(difference) = Difference::of(row, nought) else {
        return false;
    };
    difference.is_met(values)
}

/// The same of the row's negation.
pub fn is_negation_met(row: &Row, values: &[i64], nought: u32) -> bool
    requires { HasVariablesBelow nought (form_of row.now) }
    ensures { result ≡ true → IsMetApart nought values.now (negated_form (form_of row.now)) }
{
    let Some(difference) = Difference::of(row, nought) else {
        return false;
    };
    let Some(opposite) = difference.opposite() else {
        return false;
    };
    opposite.is_met(values)
}
