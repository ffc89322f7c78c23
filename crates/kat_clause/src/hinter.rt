//! Clauses by number, for finding hints.
ghost use Rattle.std.specs.Prelude.{◌≡◌, ℕ, ◌+◌, ◌*◌, ◌<◌, ◌≤◌, ◌⊎◌, ◌≢◌, ℤ, pos, List, [], ◌∷◌, ◌++◌, length, IfOk, OnOk, OnErr, Bool, true, false, slice_index_or};
ghost use Rattle.std.specs.List.{Contains};
ghost use Rattle.kat_clause.specs.Clauses.{lists};
ghost use Rattle.kat_clause.specs.Known.{AreUpTo};
ghost use Rattle.kat_clause.specs.Literals.{code_of};
ghost use Rattle.kat_clause.specs.Tables.{rows, clause_at, AreSetsOf, KeepsRows, IsNoted};
ghost use Rattle.kat_clause.specs.Findings.{HasTwo, IsHintsOf};
ghost use Rattle.kat_clause.specs.Numberings.{Numbering, IsNumbering, Covers, IsNotedClause};

use crate::finding::find_hints;
use crate::index::{empty_rows, literals_once, note_literals};
use crate::known::MOST_VARIABLES;
use std::alloc::{AllocError, Global};
use std::collections::BTreeMap;
use std::marker::Model;

/// Clauses in the order of their numbers, for finding the hints of lines. Contracts see the greatest variable and the clauses.
///
/// ```
/// let mut hinter = Hinter::new(alloc, 2)?;
/// hinter.add(alloc, &[1, 2])?;
/// hinter.add(alloc, &[-1, 2])?;
/// let hints = hinter.hints(alloc, &[2])?;
/// ```
pub struct Hinter {
    greatest: u32,
    clauses: Vec<Vec<i32>>,
    // of each clause its literals once, in order: a search looks at these
    sets: Vec<Vec<i32>>,
    // by a literal's code, the sets that have it and that no earlier one covers
    table: Vec<Vec<usize>>,
    // of these the sets that don't have two literals
    short: Vec<usize>,
    // of these each by its literals
    numbers: BTreeMap<Vec<i32>, usize>,
}

impl Drop for Hinter {
    fn drop(self) {
        let Self {
            greatest: _,
            clauses: _,
            sets: _,
            table: _,
            short: _,
            numbers: _,
        } = self;
    }
}

impl Model for Hinter {
    ghost Value = { Numbering };

    ghost view = { λ h. record { greatest = h.greatest; clauses = lists h.clauses.items } };

    ghost invariant = { λ h.
        IsNumbering h.greatest (lists h.clauses.items) (lists h.sets.items) (rows h.table.items) h.short.items };
}

impl Hinter {
    /// No clauses, over the variables up to the greatest. More than 2^28 variables are answered as out of memory.
    pub fn new(alloc: Global, greatest: u32) -> Result<Hinter, AllocError>
        ensures { IfOk result (λ hinter. hinter ≡ record { greatest = greatest; clauses = [] }) }
    {
        if greatest > MOST_VARIABLES {
            return Err(AllocError);
        }
        let table = empty_rows(alloc, 2 * greatest as usize + 2)?;
        Ok(Hinter {
            greatest,
            clauses: Vec::new(alloc),
            sets: Vec::new(alloc),
            table,
            short: Vec::new(alloc),
            numbers: BTreeMap::new(alloc),
        })
    }

    /// Adds a clause after the others. More than 2^32 - 1 clauses are answered as out of memory.
    pub fn add(&mut self, alloc: Global, clause: &[i32]) -> Result<(), AllocError>
        requires { AreUpTo self.old.greatest clause.now }
        ensures ok { OnOk result (self.new ≡ record self.old { clauses = self.old.clauses ++ clause.now ∷ [] }) }
        ensures err { OnErr result (self.new ≡ self.old) }
    {
        self.add_line(alloc, clause, &[])
    }

    /// Adds a line after the clauses, with the hints that show it, if there are any. If a single clause shows it, that clause
    /// covers the line, and no search needs to look at the line.
    pub fn add_line(&mut self, alloc: Global, line: &[i32], hints: &[u32]) -> Result<(), AllocError>
        requires { AreUpTo self.old.greatest line.now }
        ensures ok { OnOk result (self.new ≡ record self.old { clauses = self.old.clauses ++ line.now ∷ [] }) }
        ensures err { OnErr result (self.new ≡ self.old) }
    {
        if self.sets.len() >= MOST_CLAUSES {
            return Err(AllocError);
        }
        let copy = Vec::from_slice(alloc, line)?;
        let set = literals_once(alloc, line)?;
        note_set(
            alloc,
            &mut self.table,
            &mut self.short,
            &mut self.numbers,
            &self.sets,
            &set,
            hints,
        )?;
        push_both(&mut self.clauses, &mut self.sets, copy, set)?;
        Ok(())
    }

    /// The literals of each clause, each once.
    pub fn sets(&self) -> &[Vec<i32>]
        ensures { AreSetsOf self.now.clauses (lists result.now) }
    {
        &self.sets
    }

    /// The hints that are found for a line, if it follows from the clauses.
    pub fn hints(&self, alloc: Global, line: &[i32]) -> Result<Option<Vec<u32>>, AllocError>
        requires { AreUpTo self.now.greatest line.now }
        ensures { IfOk result (IsHintsOf self.now.clauses line.now) }
    {
        find_hints(alloc, &self.sets, &self.table, &self.short, line)
    }
}

// As many clauses as there may be.
const MOST_CLAUSES: usize = (1 << 32) - 1;

// Notes the next set, unless an earlier one covers it.
fn note_set(
    alloc: Global,
    table: &mut Vec<Vec<usize>>,
    short: &mut Vec<usize>,
    numbers: &mut BTreeMap<Vec<i32>, usize>,
    sets: &[Vec<i32>],
    set: &[i32],
    hints: &[u32],
) -> Result<(), AllocError>
    requires { (k : ℤ) → Contains set.now k → code_of k < length (rows table.old.items) }
    ensures keeps { KeepsRows (rows table.old.items) (rows table.new.items) }
    ensures kept { (i : ℕ) → Contains short.old.items i → Contains short.new.items i }
    ensures noted { OnOk result (Covers (lists sets.now) set.now
        ⊎ IsNotedClause (rows table.new.items) short.new.items set.now (length (lists sets.now))) }
{
    if is_covered(numbers, sets, set, hints) {
        return Ok(());
    }
    let number = sets.len();
    note_literals(table, set, number)?;
    note_short(short, set, number)?;
    numbers.insert(Vec::from_slice(alloc, set)?, number)?;
    Ok(())
}

// Whether an earlier set covers this one: the one of the single hint, or the same set.
fn is_covered(
    numbers: &BTreeMap<Vec<i32>, usize>,
    sets: &[Vec<i32>],
    set: &[i32],
    hints: &[u32],
) -> bool
    ensures { result ≡ true → Covers (lists sets.now) set.now }
{
    if let [hint] = hints
        && *hint > 0
    {
        return covers(sets, *hint as usize - 1, set);
    }
    match numbers.get(set) {
        Some(number) => covers(sets, *number, set),
        None => false,
    }
}

// Whether the set of a number has no other literals than this one.
fn covers(sets: &[Vec<i32>], number: usize, set: &[i32]) -> bool
    ensures { result ≡ true → Covers (lists sets.now) set.now }
{
    match sets.get(number) {
        Some(few) => is_within(few, set),
        None => false,
    }
}

// Whether each of the literals is among others. Both are in order.
fn is_within(few: &[i32], set: &[i32]) -> bool
    ensures { result ≡ true → (k : ℤ) → Contains few.now k → Contains set.now k }
{
    let mut place = 0;
    for literal in few {
        place = place_from(set, *literal, place);
        if place >= set.len() {
            return false;
        }
    }
    true
}

// The place of a literal, from a place on; the number of literals if it isn't there.
fn place_from(set: &[i32], literal: i32, from: usize) -> usize
    ensures { result < length set.now → slice_index_or set.now result (pos 0) ≡ literal }
{
    for i in from..set.len() {
        if set[i] == literal {
            return i;
        }
    }
    set.len()
}

// Puts a clause and its set after the others, or neither.
fn push_both(
    clauses: &mut Vec<Vec<i32>>,
    sets: &mut Vec<Vec<i32>>,
    clause: Vec<i32>,
    set: Vec<i32>,
) -> Result<(), AllocError>
    ensures clauses { OnOk result (lists clauses.new.items ≡ lists clauses.old.items ++ clause.items ∷ []) }
    ensures sets { OnOk result (lists sets.new.items ≡ lists sets.old.items ++ set.items ∷ []) }
    ensures neither { OnErr result ((clauses.new.items ≡ clauses.old.items) × (sets.new.items ≡ sets.old.items)) }
{
    sets.push(set)?;
    if clauses.push(clause).is_err() {
        sets.pop();
        return Err(AllocError);
    }
    Ok(())
}

// Puts the set's number under the short ones, unless two of its literals are different.
fn note_short(short: &mut Vec<usize>, set: &[i32], number: usize) -> Result<(), AllocError>
    ensures kept { (i : ℕ) → Contains short.old.items i → Contains short.new.items i }
    ensures noted { OnOk result (Contains short.new.items number ⊎ HasTwo set.now) }
{
    if has_two(set) {
        return Ok(());
    }
    short.push(number)?;
    Ok(())
}

// Whether two literals of the set are different.
fn has_two(set: &[i32]) -> bool
    ensures { result ≡ true → HasTwo set.now }
{
    for literal in set {
        if *literal != set[0] {
            return true;
        }
    }
    false
}
