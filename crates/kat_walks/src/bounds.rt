//! The known literals of atoms and their rows, and what a solution of the rows says of them.
ghost use Rattle.std.specs.Prelude.{◌≡◌, ℕ, ◌+◌, ◌<◌, ◌≤◌, ◌^◌, ℤ, pos, unsigned_abs, List, ◌++◌, length, map, IfOk, OnOk, Option, Some, None};
ghost use Rattle.std.specs.List.{All};
ghost use Rattle.kat_linear.specs.Rows.{Form, form_of, forms};
ghost use Rattle.kat_clause.specs.Literals.{has_of};
ghost use Rattle.kat_form.specs.Encodings.{senses_of, sense_of, form_in, AreFitAtoms, IsFitForm, IsFitSense};
ghost use Rattle.kat_walks.specs.Walks.{blamed, bound_of, bounds_from, literals_in, rows_in};

use crate::marks::{has, opposite, variable_at};
use kat_form::Meaning;
use kat_linear::Row;
use std::alloc::{AllocError, Global};

/// Known literals of atoms, by variable, and their rows.
#[derive(Debug, Drop)]
pub(crate) struct Bounds {
    pub literals: Vec<i32>,
    pub rows: Vec<Row>,
}

impl Bounds {
    // Adds the known literal of the variable at a place, if it is an atom and has one.
    fn add(
        &mut self,
        alloc: Global,
        marks: &[bool],
        place: usize,
        meaning: &Meaning,
    ) -> Result<(), AllocError>
        requires fit { IsFitSense (sense_of meaning.now) }
        requires place { place < 2 ^ 28 }
        ensures literals { OnOk result (self.new.literals.items ≡ self.old.literals.items
            ++ literals_in (bound_of (has_of marks.now) (place + 1) (form_in (sense_of meaning.now)))) }
        ensures rows { OnOk result (forms self.new.rows.items ≡ forms self.old.rows.items
            ++ rows_in (bound_of (has_of marks.now) (place + 1) (form_in (sense_of meaning.now)))) }
    {
        match meaning {
            Meaning::Atom(row) => self.add_atom(alloc, marks, variable_at(place), row),
            _ => Ok(()),
        }
    }

    // Adds the known literal of an atom, if it has one.
    fn add_atom(
        &mut self,
        alloc: Global,
        marks: &[bool],
        variable: i32,
        row: &Row,
    ) -> Result<(), AllocError>
        requires fit { IsFitForm (form_of row.now) }
        requires small { unsigned_abs variable ≤ 2 ^ 28 }
        requires positive { variable ≡ pos (unsigned_abs variable) }
        ensures literals { OnOk result (self.new.literals.items ≡ self.old.literals.items
            ++ literals_in (bound_of (has_of marks.now) (unsigned_abs variable) (Some (form_of row.now)))) }
        ensures rows { OnOk result (forms self.new.rows.items ≡ forms self.old.rows.items
            ++ rows_in (bound_of (has_of marks.now) (unsigned_abs variable) (Some (form_of row.now)))) }
    {
        if has(marks, variable) {
            self.literals.push(variable)?;
            self.rows.push(row.copy(alloc)?)?;
            return Ok(());
        }
        let other = opposite(variable);
        if !has(marks, other) {
            return Ok(());
        }
        self.literals.push(other)?;
        self.rows.push(row.negated(alloc)?)?;
        Ok(())
    }
}

/// The known literals of atoms, by variable, and their rows.
pub(crate) fn held_bounds(
    alloc: Global,
    meanings: &[Meaning],
    marks: &[bool],
) -> Result<Bounds, AllocError>
    requires fit { AreFitAtoms (senses_of meanings.now) }
    requires variables { length meanings.now ≤ 2 ^ 28 }
    ensures literals { IfOk result (λ h. h.literals.items ≡ literals_in (bounds_from (has_of marks.now) 1 (senses_of meanings.now))) }
    ensures rows { IfOk result (λ h. forms h.rows.items ≡ rows_in (bounds_from (has_of marks.now) 1 (senses_of meanings.now))) }
{
    let mut held = Bounds {
        literals: Vec::new(alloc),
        rows: Vec::new(alloc),
    };
    for (i, meaning) in meanings.iter().enumerate() {
        held.add(alloc, marks, i, meaning)?;
    }
    Ok(held)
}

/// The opposites of the literals whose multiplier is above 0.
pub(crate) fn blame(
    alloc: Global,
    held: &[i32],
    multipliers: &[i64],
) -> Result<Vec<i32>, AllocError>
    requires sizes { length held.now ≡ length multipliers.now }
    requires small { All (λ k. unsigned_abs k ≤ 2 ^ 28) held.now }
    ensures { IfOk result (λ lits. lits.items ≡ blamed held.now multipliers.now) }
{
    let mut lits = Vec::new(alloc);
    for (i, multiplier) in multipliers.iter().enumerate() {
        if *multiplier <= 0 {
            continue;
        }
        lits.push(opposite(held[i]))?;
    }
    Ok(lits)
}
