//! The known literals of atoms and their rows, and what a solution of the rows says of them.
ghost use Rattle.std.specs.Prelude.{◌≡◌, ◌+◌, ◌<◌, ◌≤◌, ◌^◌, pos, unsigned_abs, ◌++◌, length, IfOk, OnOk, Some};
ghost use Rattle.std.specs.List.{All};
ghost use Rattle.kat_linear.specs.Rows.{Form, form_of, forms};
ghost use Rattle.kat_clause.specs.Literals.{has_of};
ghost use Rattle.kat_form.specs.Encodings.{senses_of, sense_of, form_in, AreFitAtoms, IsFitForm, IsFitSense};
ghost use Rattle.kat_refute.specs.Lines.{line_of};
ghost use Rattle.kat_refute.specs.Lines.Line.{linear};
ghost use Rattle.kat_cases.specs.Nodes.{held_of, held_from, literals, rows, used_literals, used_multipliers, truths_from, is_truth_sense};

use kat_form::Meaning;
use kat_linear::Row;
use kat_refute::ProofLine;
use kat_resolution::{has, opposite, variable_at};
use std::alloc::{AllocError, Global};

/// Known literals of atoms, by variable, and their rows.
#[derive(Drop)]
pub(crate) struct Held {
    pub literals: Vec<i32>,
    pub rows: Vec<Row>,
}

impl Held {
    // Adds the known literal of the variable at a place, if it is an atom and has one.
    fn add(
        &mut self,
        alloc: Global,
        marks: &[bool],
        place: usize,
        meaning: &Meaning,
    ) -> Result<(), AllocError>
        requires fit { IsFitSense (sense_of meaning.now) }
        requires place { place < 2 ^ 28 }
        ensures literals { OnOk result (self.new.literals.items ≡ self.old.literals.items
            ++ literals (held_of (has_of marks.now) (place + 1) (form_in (sense_of meaning.now)))) }
        ensures rows { OnOk result (forms self.new.rows.items ≡ forms self.old.rows.items
            ++ rows (held_of (has_of marks.now) (place + 1) (form_in (sense_of meaning.now)))) }
    {
        match meaning {
            Meaning::Atom(row) => self.add_atom(alloc, marks, variable_at(place), row),
            _ => Ok(()),
        }
    }

    // Adds the known literal of an atom, if it has one.
    fn add_atom(
        &mut self,
        alloc: Global,
        marks: &[bool],
        variable: i32,
        row: &Row,
    ) -> Result<(), AllocError>
        requires fit { IsFitForm (form_of row.now) }
        requires small { unsigned_abs variable ≤ 2 ^ 28 }
        requires positive { variable ≡ pos (unsigned_abs variable) }
        ensures literals { OnOk result (self.new.literals.items ≡ self.old.literals.items
            ++ literals (held_of (has_of marks.now) (unsigned_abs variable) (Some (form_of row.now)))) }
        ensures rows { OnOk result (forms self.new.rows.items ≡ forms self.old.rows.items
            ++ rows (held_of (has_of marks.now) (unsigned_abs variable) (Some (form_of row.now)))) }
    {
        if has(marks, variable) {
            self.literals.push(variable)?;
            self.rows.push(row.copy(alloc)?)?;
            return Ok(());
        }
        let other = opposite(variable);
        if !has(marks, other) {
            return Ok(());
        }
        self.literals.push(other)?;
        self.rows.push(row.negated(alloc)?)?;
        Ok(())
    }
}

/// The known literals of atoms, by variable, and their rows.
pub(crate) fn held_atoms(
    alloc: Global,
    meanings: &[Meaning],
    marks: &[bool],
) -> Result<Held, AllocError>
    requires fit { AreFitAtoms (senses_of meanings.now) }
    requires variables { length meanings.now ≤ 2 ^ 28 }
    ensures literals { IfOk result (λ h. h.literals.items ≡ literals (held_from (has_of marks.now) 1 (senses_of meanings.now))) }
    ensures rows { IfOk result (λ h. forms h.rows.items ≡ rows (held_from (has_of marks.now) 1 (senses_of meanings.now))) }
{
    let mut held = Held {
        literals: Vec::new(alloc),
        rows: Vec::new(alloc),
    };
    for (i, meaning) in meanings.iter().enumerate() {
        held.add(alloc, marks, i, meaning)?;
    }
    Ok(held)
}

/// The known literals of atoms alone, by variable.
pub(crate) fn held_literals(
    alloc: Global,
    meanings: &[Meaning],
    marks: &[bool],
) -> Result<Vec<i32>, AllocError>
    requires { length meanings.now ≤ 2 ^ 28 }
    ensures { IfOk result (λ held. held.items ≡ literals (held_from (has_of marks.now) 1 (senses_of meanings.now))) }
{
    let mut held = Vec::new(alloc);
    for (i, meaning) in meanings.iter().enumerate() {
        add_literal(&mut held, marks, i, meaning)?;
    }
    Ok(held)
}

// Adds the known literal of the variable at a place, if it is an atom and has one.
fn add_literal(
    held: &mut Vec<i32>,
    marks: &[bool],
    place: usize,
    meaning: &Meaning,
) -> Result<(), AllocError>
    requires { place < 2 ^ 28 }
    ensures { OnOk result (held.new.items ≡ held.old.items ++ literals
        (held_of (has_of marks.now) (place + 1) (form_in (sense_of meaning.now)))) }
{
    match meaning {
        Meaning::Atom(_) => add_known(held, marks, variable_at(place)),
        _ => Ok(()),
    }
}

// Adds the known literal of a variable, if it has one.
fn add_known(held: &mut Vec<i32>, marks: &[bool], variable: i32) -> Result<(), AllocError>
    requires small { unsigned_abs variable ≤ 2 ^ 28 }
    requires positive { variable ≡ pos (unsigned_abs variable) }
    ensures { OnOk result ((form : Form) → held.new.items ≡ held.old.items
        ++ literals (held_of (has_of marks.now) (unsigned_abs variable) (Some form))) }
{
    if has(marks, variable) {
        held.push(variable)?;
        return Ok(());
    }
    let other = opposite(variable);
    if !has(marks, other) {
        return Ok(());
    }
    held.push(other)?;
    Ok(())
}

/// The line of the opposites of the literals whose multiplier is above 0, with these multipliers.
pub(crate) fn used_line(
    alloc: Global,
    held: &[i32],
    multipliers: &[i64],
) -> Result<ProofLine, AllocError>
    requires sizes { length held.now ≡ length multipliers.now }
    requires small { All (λ k. unsigned_abs k ≤ 2 ^ 28) held.now }
    ensures { IfOk result (λ line. line_of line ≡ linear (used_literals held.now multipliers.now) (used_multipliers multipliers.now)) }
{
    let mut lits = Vec::new(alloc);
    let mut used = Vec::new(alloc);
    for (i, multiplier) in multipliers.iter().enumerate() {
        if *multiplier <= 0 {
            continue;
        }
        lits.push(opposite(held[i]))?;
        used.push(*multiplier)?;
    }
    Ok(ProofLine::Linear {
        lits,
        multipliers: used,
    })
}

/// The values of the truth variables that stand for propositional variables, in the order of these.
pub(crate) fn truths(
    alloc: Global,
    meanings: &[Meaning],
    marks: &[bool],
) -> Result<Vec<bool>, AllocError>
    requires { length meanings.now ≤ 2 ^ 28 }
    ensures { IfOk result (λ truths. truths.items ≡ truths_from (has_of marks.now) 1 (senses_of meanings.now)) }
{
    let mut truths = Vec::new(alloc);
    for (i, meaning) in meanings.iter().enumerate() {
        if !is_truth(meaning) {
            continue;
        }
        truths.push(has(marks, variable_at(i)))?;
    }
    Ok(truths)
}

// Whether the variable stands for a truth variable.
fn is_truth(meaning: &Meaning) -> bool
    ensures { result ≡ is_truth_sense (sense_of meaning.now) }
{
    matches!(meaning, Meaning::Truth(_))
}
