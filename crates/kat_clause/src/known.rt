//! Clauses with an index and an assignment.
ghost use Rattle.std.specs.Prelude.{◌≡◌, ℕ, ◌+◌, ◌-◌, ◌*◌, ◌<◌, ◌≤◌, ◌^◌, ◌↔◌, ℤ, neg_ℤ, List, [], ◌∷◌, ◌++◌, length, take, map, Bool, true, false, not, IfOk, OnOk, OnErr, IsTrue, unsigned_abs};
ghost use Rattle.std.specs.List.{All, Contains};
ghost use Rattle.kat_clause.specs.Clauses.{Derived, Follows, lists, opposites};
ghost use Rattle.kat_clause.specs.Literals.{IsUpTo, has_of};
ghost use Rattle.kat_clause.specs.Known.{Known, AreUpTo, Adds};
ghost use Rattle.kat_clause.specs.Tables.{rows};
ghost use Rattle.kat_clause.specs.Levels.{assumed_in, IsConsistent};

use crate::index::{empty_rows, forget_literals, literals_once, note_literals};
use crate::literals::{code, opposite};
use crate::propagation::Propagation;
use std::alloc::{AllocError, Global};
use std::marker::Model;

// A literal that is assumed, and how far the propagation was before.
#[derive(Clone, Copy)]
struct Level {
    literal: i32,
    trail: usize,
    looked: usize,
    seen: usize,
}

/// Clauses, and literals that are assumed for a while: lines are checked against the clauses, and a search that splits
/// cases asks what its literals give. Contracts see the greatest variable, the clauses in the order in which
/// they came, the assumed literals in order, and whether the assignment is settled.
///
/// What the clauses give by themselves is found once and kept.
///
/// ```
/// let mut known = Clauses::new(alloc, 2)?;
/// known.add(alloc, &[1, 2])?;
/// known.add(alloc, &[-1, 2])?;
/// assert!(known.follows(&[2])?);
/// known.assume(-2)?;
/// assert!(known.propagate()?);
/// known.undo(0);
/// ```
pub struct Clauses {
    greatest: u32,
    // each clause with its literals once
    clauses: Vec<Vec<i32>>,
    // by a literal's code, the clauses that have it
    table: Vec<Vec<usize>>,
    set: Propagation,
    levels: Vec<Level>,
    settled: bool,
}

impl Drop for Clauses {
    fn drop(self) {
        let Self {
            greatest: _,
            clauses: _,
            table: _,
            set: _,
            levels: _,
            settled: _,
        } = self;
    }
}

impl Model for Clauses {
    ghost Value = { Known };

    ghost view = { λ c. record {
      greatest = c.greatest;
      clauses = lists c.clauses.items;
      assumed = assumed_in c.levels.items;
      settled = c.settled;
    } };

    ghost invariant = { λ c.
        IsConsistent c.greatest (lists c.clauses.items) (rows c.table.items) c.set c.levels.items c.settled };
}

impl Clauses {
    /// No clauses, over the variables up to the greatest. More than 2^28 variables are answered as out of memory.
    pub fn new(alloc: Global, greatest: u32) -> Result<Clauses, AllocError>
        ensures { IfOk result (λ known. known ≡ record { greatest = greatest; clauses = []; assumed = []; settled = false }) }
    {
        if greatest > MOST_VARIABLES {
            return Err(AllocError);
        }
        let size = 2 * greatest as usize + 2;
        Ok(Clauses {
            greatest,
            clauses: Vec::new(alloc),
            table: empty_rows(alloc, size)?,
            set: Propagation::new(alloc, size)?,
            levels: Vec::new(alloc),
            settled: false,
        })
    }

    /// Adds a clause after the others, as the set of its literals.
    pub fn add(&mut self, alloc: Global, clause: &[i32]) -> Result<(), AllocError>
        requires { AreUpTo self.old.greatest clause.now }
        ensures ok { OnOk result (Adds clause.now self.old self.new) }
        ensures err { OnErr result (self.new ≡ self.old) }
    {
        let number = self.clauses.len();
        let literals = literals_once(alloc, clause)?;
        note_literals(&mut self.table, &literals, number)?;
        self.clauses.push(literals)?;
        self.settled = false;
        Ok(())
    }

    /// The clauses, each with its literals once.
    pub fn clauses(&self) -> &[Vec<i32>]
        ensures { lists result.now ≡ self.now.clauses }
    {
        &self.clauses
    }

    /// Takes the last clause back. No literal may be assumed.
    pub fn take_back(&mut self)
        requires none { self.old.assumed ≡ [] }
        requires some { 0 < length self.old.clauses }
        ensures { self.new ≡ record self.old { clauses = take (length self.old.clauses - 1) self.old.clauses; settled = false } }
    {
        self.settled = false;
        let number = self.clauses.len() - 1;
        self.set.unsee(number);
        let Some(clause) = self.clauses.pop() else {
            return;
        };
        forget_literals(&mut self.table, &clause, number);
    }

    /// Assumes a literal, after those that are assumed.
    pub fn assume(&mut self, literal: i32) -> Result<(), AllocError>
        requires { IsUpTo self.old.greatest literal }
        ensures ok { OnOk result (self.new ≡ record self.old { assumed = self.old.assumed ++ literal ∷ []; settled = false }) }
        ensures err { OnErr result (self.new ≡ self.old) }
    {
        let level = Level {
            literal,
            trail: self.set.trail.len(),
            looked: self.set.looked,
            seen: self.set.seen,
        };
        self.levels.push(level)?;
        if self.set.enter(literal).is_err() {
            self.levels.pop();
            return Err(AllocError);
        }
        self.settled = false;
        Ok(())
    }

    /// Takes assumed literals back, all but the first `kept`.
    pub fn undo(&mut self, kept: usize)
        requires { kept ≤ length self.old.assumed }
        ensures { self.new ≡ record self.old { assumed = take kept self.old.assumed; settled = false } }
    {
        self.settled = false;
        if self.levels.len() <= kept {
            return;
        }
        let level = self.levels[kept];
        self.set.leave(level.trail);
        self.set.looked = level.looked;
        self.set.seen = level.seen;
        self.levels.truncate(kept);
    }

    /// Propagates: finds what the clauses give under the assumed literals, and answers whether a clause is falsified. If none
    /// is, the assignment is settled: [`Clauses::has`] tells of each literal whether it is derived.
    pub fn propagate(&mut self) -> Result<bool, AllocError>
        ensures falsified { IfOk result (λ falsified. IsTrue falsified ↔ Follows self.old.clauses (opposites self.old.assumed)) }
        ensures ok { IfOk result (λ falsified. self.new ≡ record self.old { settled = not falsified }) }
        ensures err { OnErr result (self.new ≡ record self.old { settled = false }) }
    {
        self.settled = false;
        if self.set.look_at_new(&self.clauses)? {
            return Ok(true);
        }
        if self.set.look_up(&self.clauses, &self.table)? {
            return Ok(true);
        }
        self.settled = true;
        Ok(false)
    }

    /// Whether the literal is derived from the clauses and the assumed literals.
    pub fn has(&self, literal: i32) -> bool
        requires up_to { IsUpTo self.now.greatest literal }
        requires settled { self.now.settled ≡ true }
        ensures { IsTrue result ↔ Derived self.now.clauses (opposites self.now.assumed) literal }
    {
        self.set.marks[code(literal)]
    }

    /// The marks of the literals that are derived from the clauses and the assumed literals, by their codes.
    pub fn marks(&self) -> &[bool]
        requires settled { self.now.settled ≡ true }
        ensures { (k : ℤ) → IsTrue (has_of result.now k) ↔ Derived self.now.clauses (opposites self.now.assumed) k }
    {
        &self.set.marks
    }

    /// The literals that are derived from the clauses and the assumed literals.
    pub fn derived(&self) -> &[i32]
        requires settled { self.now.settled ≡ true }
        ensures { (k : ℤ) → Contains result.now k ↔ Derived self.now.clauses (opposites self.now.assumed) k }
    {
        &self.set.trail
    }

    /// Whether unit propagation with the assumed literals, and with every literal of the line false, falsifies a clause.
    pub fn follows(&mut self, line: &[i32]) -> Result<bool, AllocError>
        requires { AreUpTo self.old.greatest line.now }
        ensures follows { IfOk result (λ follows. IsTrue follows ↔ Follows self.old.clauses (opposites self.old.assumed ++ line.now)) }
        ensures state { self.new ≡ record self.old { settled = false } }
    {
        let kept = self.levels.len();
        let follows = self.deny(line);
        self.undo(kept);
        follows
    }

    // Assumes the opposites of the line's literals, and propagates before and after.
    fn deny(&mut self, line: &[i32]) -> Result<bool, AllocError>
        requires { AreUpTo self.old.greatest line.now }
        ensures follows { IfOk result (λ follows. IsTrue follows ↔ Follows self.old.clauses (opposites self.old.assumed ++ line.now)) }
        ensures kept { take (length self.old.assumed) self.new.assumed ≡ self.old.assumed }
        ensures clauses { self.new.clauses ≡ self.old.clauses }
        ensures greatest { self.new.greatest ≡ self.old.greatest }
    {
        let _greatest = self.greatest;
        if self.propagate()? {
            return Ok(true);
        }
        for literal in line {
            self.assume(opposite(*literal))?;
        }
        self.propagate()
    }
}

// As many variables as there may be.
pub(crate) const MOST_VARIABLES: u32 = 1 << 28;
