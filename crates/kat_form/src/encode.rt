//! Formulas become literals and clauses.
ghost use Rattle.std.specs.Prelude.{◌≡◌, pos, neg_ℤ, [], ◌∷◌, ◌++◌, length, map, OnOk, None};
ghost use Rattle.kat_form.specs.Readings.{kept, literals_of, gated, all_clauses, any_clauses, unit_clause, with_clauses, state_each, state_any};
ghost use Rattle.kat_form.specs.Facts.{AreSized};
ghost use Rattle.kat_form.specs.Folds.{reading_of, rows_of, rows_of_all};
ghost use Rattle.kat_form.specs.Steps.{Gives, GivesAll, IsShort};

use crate::Formula;
use crate::draft::Draft;
use crate::fold::constant;
use crate::variables::{above_literal, atom_literal, variable_literal};
use std::alloc::{AllocError, Global};

// States the formula: what the clauses then say makes it true.
#[cycle(state)]
pub fn state(alloc: Global, formula: &Formula, draft: &mut Draft) -> Result<(), AllocError>
    requires sized { AreSized (rows_of formula.now) }
    ensures { OnOk result (draft.new ≡ (reading_of formula.now).stated draft.old) }
{
    match constant(formula) {
        Some(true) => Ok(()),
        Some(false) => draft.add_clause(Vec::new(alloc)),
        None => state_open(alloc, formula, draft),
    }
}

// States a formula that doesn't fold to a value.
#[cycle(state)]
fn state_open(alloc: Global, formula: &Formula, draft: &mut Draft) -> Result<(), AllocError>
    requires open { (reading_of formula.now).constant ≡ None }
    requires sized { AreSized (rows_of formula.now) }
    ensures { OnOk result (draft.new ≡ (reading_of formula.now).stated draft.old) }
{
    match formula {
        Formula::And(parts) => state_each(alloc, parts, draft),
        Formula::Or(parts) => state_any(alloc, parts, draft),
        _ => state_literal(alloc, formula, draft),
    }
}

// States each part that doesn't fold to a value.
#[cycle(state)]
fn state_each(alloc: Global, parts: &[Formula], draft: &mut Draft) -> Result<(), AllocError>
    requires sized { AreSized (rows_of_all parts.now) }
    ensures { OnOk result (draft.new ≡ state_each (kept (map reading_of parts.now)) draft.old) }
{
    for part in parts {
        if constant(part).is_some() {
            continue;
        }
        state(alloc, part, draft)?;
    }
    Ok(())
}

// States that some part is true.
#[cycle(state)]
fn state_any(alloc: Global, parts: &[Formula], draft: &mut Draft) -> Result<(), AllocError>
    requires sized { AreSized (rows_of_all parts.now) }
    ensures { OnOk result (draft.new ≡ state_any (kept (map reading_of parts.now)) draft.old) }
{
    if count_open(parts) == 1 {
        return state_each(alloc, parts, draft);
    }
    let literals = literals(alloc, parts, draft)?;
    draft.add_clause(literals)
}

// How many parts don't fold to a value.
fn count_open(parts: &[Formula]) -> usize
    ensures { result ≡ length (kept (map reading_of parts.now)) }
{
    let mut count = 0;
    for part in parts {
        if constant(part).is_some() {
            continue;
        }
        count += 1;
    }
    count
}

// Adds the clause of a formula's literal.
fn state_literal(alloc: Global, formula: &Formula, draft: &mut Draft) -> Result<(), AllocError>
    requires sized { AreSized (rows_of formula.now) }
    ensures { OnOk result (draft.new ≡ unit_clause ((reading_of formula.now).literal draft.old)) }
{
    let literal = literal(alloc, formula, draft)?;
    draft.add_clause(vec![in alloc; literal]?)
}

// The literal of a formula that doesn't fold to a value, with the clauses that give it its meaning.
#[cycle(encode)]
fn literal(alloc: Global, formula: &Formula, draft: &mut Draft) -> Result<i32, AllocError>
    requires sized { AreSized (rows_of formula.now) }
    ensures { Gives ((reading_of formula.now).literal draft.old) result draft.new }
{
    match formula {
        Formula::True => Ok(0),
        Formula::False => Ok(0),
        Formula::Lit { var, positive } => variable_literal(*var, *positive, draft),
        Formula::AtMost(row) => atom_literal(alloc, row, draft),
        Formula::Above(row) => above_literal(alloc, row, draft),
        Formula::And(parts) => {
            let literals = literals(alloc, parts, draft)?;
            gate_all(alloc, literals, draft)
        }
        Formula::Or(parts) => {
            let literals = literals(alloc, parts, draft)?;
            gate_any(alloc, literals, draft)
        }
    }
}

// The literals of the parts that don't fold to a value, in order.
#[cycle(encode)]
fn literals(alloc: Global, parts: &[Formula], draft: &mut Draft) -> Result<Vec<i32>, AllocError>
    requires sized { AreSized (rows_of_all parts.now) }
    ensures { GivesAll (literals_of (kept (map reading_of parts.now)) draft.old) result draft.new }
{
    let mut literals = Vec::new(alloc);
    for part in parts {
        if constant(part).is_some() {
            continue;
        }
        let literal = literal(alloc, part, draft)?;
        literals.push(literal)?;
    }
    Ok(literals)
}

// The literal of an "and" of literals: the only one, or a new gate that implies each of them.
fn gate_all(alloc: Global, literals: Vec<i32>, draft: &mut Draft) -> Result<i32, AllocError>
    ensures { Gives (gated all_clauses (literals.items, draft.old)) result draft.new }
{
    match literals.as_slice() {
        [] => Ok(0),
        [literal] => Ok(*literal),
        several => {
            let gate = draft.new_gate()?;
            let denied = opposite(gate);
            add_each(alloc, denied, several, draft)?;
            Ok(gate)
        }
    }
}

// The literal of an "or" of literals: the only one, or a new gate that implies one of them.
fn gate_any(alloc: Global, literals: Vec<i32>, draft: &mut Draft) -> Result<i32, AllocError>
    ensures { Gives (gated any_clauses (literals.items, draft.old)) result draft.new }
{
    match literals.as_slice() {
        [] => Ok(0),
        [literal] => Ok(*literal),
        several => {
            let gate = draft.new_gate()?;
            let mut clause = vec![in alloc; -gate]?;
            clause.extend_from_slice(several)?;
            draft.add_clause(clause)?;
            Ok(gate)
        }
    }
}

// The literal's opposite.
fn opposite(literal: i32) -> i32
    requires { IsShort literal }
    ensures { result ≡ neg_ℤ literal }
{
    -literal
}

// Adds a clause of two for each literal: the first one, and it.
fn add_each(
    alloc: Global,
    first: i32,
    literals: &[i32],
    draft: &mut Draft,
) -> Result<(), AllocError>
    ensures { OnOk result (draft.new ≡ with_clauses (map (λ l. first ∷ l ∷ []) literals.now) draft.old) }
{
    for literal in literals {
        draft.add_clause(vec![in alloc; first, *literal]?)?;
    }
    Ok(())
}
