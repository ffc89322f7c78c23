//! The table that has, for each literal, the clauses with it.
ghost use Rattle.std.specs.Prelude.{◌≡◌, ◌≢◌, ℕ, ◌<◌, ◌↔◌, ℤ, List, [], length, IfOk, OnOk, IsTrue, true, slice_index_or};
ghost use Rattle.std.specs.List.{Contains};
ghost use Rattle.kat_clause.specs.Clauses.{SameMembers};
ghost use Rattle.kat_clause.specs.Literals.{code_of};
ghost use Rattle.kat_clause.specs.Tables.{rows, KeepsRows, KeepsBut, IsNoted};

use crate::literals::code;
use std::alloc::{AllocError, Global};

/// A table of so many rows that have nothing yet.
pub fn empty_rows(alloc: Global, size: usize) -> Result<Vec<Vec<usize>>, AllocError>
    ensures { IfOk result (λ table. length (rows table.items) ≡ size) }
{
    let mut table = Vec::with_capacity(alloc, size)?;
    for _ in 0..size {
        table.push(Vec::new(alloc))?;
    }
    Ok(table)
}

/// Puts the clause's number under each of its literals.
pub fn note_literals(
    table: &mut Vec<Vec<usize>>,
    clause: &[i32],
    number: usize,
) -> Result<(), AllocError>
    requires { (k : ℤ) → Contains clause.now k → code_of k < length (rows table.old.items) }
    ensures keeps { KeepsRows (rows table.old.items) (rows table.new.items) }
    ensures noted { OnOk result (IsNoted (rows table.new.items) clause.now number) }
{
    for literal in clause {
        table[code(*literal)].push(number)?;
    }
    Ok(())
}

/// Takes the clause's number, if it is the last, from under each of its literals.
pub fn forget_literals(table: &mut Vec<Vec<usize>>, clause: &[i32], number: usize)
    requires { (k : ℤ) → Contains clause.now k → code_of k < length (rows table.old.items) }
    ensures { KeepsBut number (rows table.old.items) (rows table.new.items) }
{
    for literal in clause {
        forget_last(&mut table[code(*literal)], number);
    }
}

// Takes the number from the end of a row.
fn forget_last(row: &mut Vec<usize>, number: usize)
    ensures { (i : ℕ) → i ≢ number → Contains row.old.items i → Contains row.new.items i }
{
    if row.last() != Some(&number) {
        return;
    }
    row.pop();
}

/// The literals of a clause, each once.
pub fn literals_once(alloc: Global, clause: &[i32]) -> Result<Vec<i32>, AllocError>
    ensures { IfOk result (λ once. SameMembers once.items clause.now) }
{
    let mut literals = Vec::from_slice(alloc, clause)?;
    literals.sort()?;
    let mut once = Vec::new(alloc);
    for literal in &literals {
        if ends_with(&once, *literal) {
            continue;
        }
        once.push(*literal)?;
    }
    Ok(once)
}

// Whether the last of the literals is this one.
fn ends_with(literals: &[i32], literal: i32) -> bool
    ensures { result ≡ true → Contains literals.now literal }
{
    match literals {
        [] => false,
        [.., last] => *last == literal,
    }
}
