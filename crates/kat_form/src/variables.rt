//! The literals of truth variables and of rows.
ghost use Rattle.std.specs.Prelude.{◌≡◌, IfOk};
ghost use Rattle.kat_linear.specs.Rows.{form_of};
ghost use Rattle.kat_form.specs.Readings.{leads_negative, atom_literal, variable_literal, opposite};
ghost use Rattle.kat_form.specs.Facts.{IsSized};
ghost use Rattle.kat_form.specs.Steps.{Gives, IsShort};

use crate::draft::{Draft, Key};
use kat_linear::Row;
use std::alloc::{AllocError, Global};

/// The literal of a truth variable, or its opposite.
pub fn variable_literal(var: u32, positive: bool, draft: &mut Draft) -> Result<i32, AllocError>
    ensures { Gives (variable_literal var positive draft.old) result draft.new }
{
    let literal = draft.numbered(Key::Truth(var))?;
    if positive { Ok(literal) } else { Ok(-literal) }
}

/// The literal of "the row is met".
pub fn atom_literal(alloc: Global, row: &Row, draft: &mut Draft) -> Result<i32, AllocError>
    requires { IsSized (form_of row.now) }
    ensures gives { Gives (atom_literal (form_of row.now) draft.old) result draft.new }
    ensures short { IfOk result IsShort }
{
    if leads_negative(&row.terms) {
        let negated = row.negated(alloc)?;
        let literal = draft.numbered(Key::Atom(negated))?;
        return Ok(-literal);
    }
    let row = row.copy(alloc)?;
    draft.numbered(Key::Atom(row))
}

/// The literal of "the row's sum is above 0".
pub fn above_literal(alloc: Global, row: &Row, draft: &mut Draft) -> Result<i32, AllocError>
    requires { IsSized (form_of row.now) }
    ensures { Gives (opposite (atom_literal (form_of row.now) draft.old)) result draft.new }
{
    let literal = atom_literal(alloc, row, draft)?;
    Ok(-literal)
}

// Whether the coefficient of the lowest variable is below 0.
fn leads_negative(terms: &[(u32, i128)]) -> bool
    ensures { result ≡ leads_negative terms.now }
{
    match terms {
        [] => false,
        [t, ..] => t.1 < 0,
    }
}
