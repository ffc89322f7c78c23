//! Clauses, literals that are assigned level by level, and the order in which variables are decided.
ghost use Rattle.std.specs.Prelude.{◌≡◌, ◌≤◌, ◌^◌, neg_ℤ, unsigned_abs, true, false, IfOk};
ghost use Rattle.std.specs.List.{All};
ghost use Rattle.kat_clause.specs.Literals.{has_of};
ghost use Rattle.kat_watch.specs.Watched.{IsLiteral};

use crate::assumptions::literals_once;
use kat_links::Links;
use kat_resolution::{first_open, has, is_denied, move_up, opposite, queue_of};
use kat_watch::{Propagation, Watches};
use std::alloc::{AllocError, Global};
use std::marker::Model;

/// What a search that learns clauses works on. A level begins with a literal that was decided. Contracts see the greatest
/// variable.
pub(crate) struct Engine {
    greatest: u32,
    watches: Watches,
    // the clauses, by their numbers under watch
    clauses: Vec<Vec<i32>>,
    // one list of the variables, each less one: those that occurred in the last learned clauses come first
    queue: Links,
    // the trail's length before each level
    levels: Vec<u32>,
}

impl Drop for Engine {
    fn drop(self) {
        let Self {
            greatest: _,
            watches: _,
            clauses: _,
            queue: _,
            levels: _,
        } = self;
    }
}

impl Model for Engine {
    ghost use Rattle.std.specs.Prelude.{ℕ};

    ghost Value = { ℕ };

    ghost use Rattle.kat_cases.specs.Engines.{IsEngine};

    ghost view = { λ e. e.greatest };

    ghost invariant = { λ e. IsEngine e.greatest e.watches e.queue };
}

impl Engine {
    /// No clauses, over the variables from 1 to the greatest.
    pub(crate) fn new(alloc: Global, greatest: u32) -> Result<Engine, AllocError>
        ensures { IfOk result (λ e. e ≡ greatest) }
    {
        let watches = Watches::new(alloc, greatest)?;
        watches.tells_supported();
        let queue = queue_of(alloc, greatest)?;
        Ok(Engine {
            greatest,
            watches,
            clauses: Vec::new(alloc),
            queue,
            levels: Vec::new(alloc),
        })
    }

    /// The greatest variable.
    pub(crate) fn greatest(&self) -> u32
        ensures { result ≡ self.now }
    {
        self.greatest
    }

    /// Adds a clause after the others. False if it has a literal of no variable, and then it isn't added.
    pub(crate) fn add(&mut self, alloc: Global, clause: &[i32]) -> Result<bool, AllocError>
        ensures { self.new ≡ self.old }
    {
        let once = literals_once(alloc, clause)?;
        if !are_literals(&once, self.greatest) {
            return Ok(false);
        }
        self.watches.add(alloc, &once)?;
        self.clauses.push(once)?;
        Ok(true)
    }

    /// Assigns what the clauses force, as far as none is falsified.
    pub(crate) fn propagate(&mut self) -> Propagation
        ensures { self.new ≡ self.old }
    {
        self.watches.propagate()
    }

    /// The clause of a number.
    pub(crate) fn clause(&self, number: u32) -> Option<&[i32]> {
        match self.clauses.get(number as usize) {
            Some(clause) => Some(clause),
            None => None,
        }
    }

    /// The marks of the assigned literals, by their codes.
    pub(crate) fn marks(&self) -> &[bool] {
        self.watches.marks()
    }

    /// The assigned literals, in order.
    pub(crate) fn trail(&self) -> &[i32] {
        self.watches.trail()
    }

    /// The clause by which the literal at a place of the trail was assigned; none if it was decided.
    pub(crate) fn reason(&self, place: usize) -> Option<&[i32]> {
        let trail = self.watches.trail();
        if place >= trail.len() {
            return None;
        }
        match self.watches.reason(trail[place]) {
            Some(number) => self.clause(number),
            None => None,
        }
    }

    /// The level of a place of the trail: 0 before the first one, and if there is no place.
    pub(crate) fn level(&self, place: Option<usize>) -> usize {
        let Some(place) = place else {
            return 0;
        };
        self.levels
            .iter()
            .filter(|start| **start as usize <= place)
            .count()
    }

    /// Where a level begins on the trail.
    pub(crate) fn start(&self, level: usize) -> usize {
        if level == 0 || level > self.levels.len() {
            return 0;
        }
        self.levels[level - 1] as usize
    }

    /// Takes back what was assigned after a level.
    pub(crate) fn back(&mut self, level: usize)
        ensures { self.new ≡ self.old }
    {
        if level >= self.levels.len() {
            return;
        }
        let kept = self.levels[level];
        if (kept as usize) < self.watches.trail().len() {
            self.watches.undo(kept);
        }
        self.levels.truncate(level);
    }

    /// The first open variable of the queue, as false.
    pub(crate) fn next(&self) -> Option<i32> {
        self.watches.tells_supported();
        match first_open(&self.queue, self.watches.marks(), self.greatest) {
            Some(variable) => Some(opposite(variable)),
            None => None,
        }
    }

    /// Begins a level with an open literal. False if it is of no variable, or of one that is assigned.
    pub(crate) fn decide(&mut self, literal: i32) -> Result<bool, AllocError>
        ensures { self.new ≡ self.old }
    {
        if !is_literal(literal, self.greatest) {
            return Ok(false);
        }
        self.watches.tells_supported();
        if !is_unmarked(self.watches.marks(), literal) {
            return Ok(false);
        }
        let start = self.watches.trail().len() as u32;
        self.levels.push(start)?;
        self.watches.assume(literal);
        Ok(true)
    }

    /// Moves the clause's variables to the start of the queue.
    pub(crate) fn prefer(&mut self, clause: &[i32])
        ensures { self.new ≡ self.old }
    {
        for literal in clause {
            move_up(&mut self.queue, literal.unsigned_abs(), self.greatest);
        }
    }
}

// Whether neither the literal nor its opposite is marked.
fn is_unmarked(marks: &[bool], literal: i32) -> bool
    requires { unsigned_abs literal ≤ 2 ^ 28 }
    ensures { result ≡ true → (has_of marks.now literal ≡ false) × (has_of marks.now (neg_ℤ literal) ≡ false) }
{
    !has(marks, literal) && !is_denied(marks, literal)
}

// Whether the literals are of the variables from 1 to the greatest.
pub(crate) fn are_literals(literals: &[i32], greatest: u32) -> bool
    ensures { result ≡ true → All (IsLiteral greatest) literals.now }
{
    literals.iter().all(|k| is_literal(*k, greatest))
}

// Whether the literal is of a variable from 1 to the greatest.
fn is_literal(literal: i32, greatest: u32) -> bool
    ensures { result ≡ true → IsLiteral greatest literal }
{
    0 < literal.unsigned_abs() && literal.unsigned_abs() <= greatest
}
