//! The literals that are assigned.
ghost use Rattle.std.specs.Prelude.{◌≡◌, ℕ, ◌+◌, ◌*◌, ◌-◌, ◌<◌, ◌≤◌, ◌^◌, ◌⊎◌, unsigned_abs, length, take, Option, [], List, replicate, false, None, IfOk, slice_index_or};
ghost use Rattle.std.specs.Vec.{vec_capacity};
ghost use Rattle.kat_clause.specs.Literals.{code_of};
ghost use Rattle.kat_watch.specs.States.{Enters, IsSet, TakesBack, Forgets, IsAssignment};
ghost use Rattle.kat_watch.specs.Watched.{AreLiterals};

use kat_clause::code;
use std::alloc::{AllocError, Global};

/// The literals that are assigned, and how far their consequences have been sought.
pub(crate) struct Assignment {
    pub greatest: u32,
    // by a literal's code, whether it is assigned
    pub marks: Vec<bool>,
    // by variable, the number of the clause by which its literal was assigned
    pub reasons: Vec<Option<u32>>,
    // the literals in the order in which they were assigned
    pub trail: Vec<i32>,
    // how many of the trail's literals have had the lists of their opposites walked
    pub looked: usize,
    // of each of these, how long the trail was after the walk
    pub reach: Vec<usize>,
    // how many of the clauses of fewer than two literals have been looked at
    pub seen: usize,
    // how long the trail was after the last of these
    pub base: usize,
}

impl Drop for Assignment {
    fn drop(self) {
        let Self {
            greatest: _,
            marks: _,
            reasons: _,
            trail: _,
            looked: _,
            reach: _,
            seen: _,
            base: _,
        } = self;
    }
}

impl Assignment {
    /// Nothing is assigned. There is room for all literals.
    pub(crate) fn new(alloc: Global, greatest: u32) -> Result<Assignment, AllocError>
        requires { greatest ≤ 2 ^ 28 }
        ensures assigned { IfOk result (IsAssignment []) }
        ensures greatest { IfOk result (λ a. a.greatest ≡ greatest) }
        ensures trail { IfOk result (λ a. a.trail.items ≡ []) }
        ensures looked { IfOk result (λ a. a.looked ≡ 0) }
        ensures seen { IfOk result (λ a. a.seen ≡ 0) }
    {
        let size = 2 * greatest as usize + 2;
        let marks = vec![in alloc; false; size]?;
        let reasons = vec![in alloc; None; greatest as usize + 1]?;
        let trail = Vec::with_capacity(alloc, size)?;
        let reach = vec![in alloc; 0; size]?;
        Ok(Assignment {
            greatest,
            marks,
            reasons,
            trail,
            looked: 0,
            reach,
            seen: 0,
            base: 0,
        })
    }

    /// Assigns a literal. There is room for it.
    pub(crate) fn enter(&mut self, literal: i32, reason: Option<u32>)
        requires mark { code_of literal < length self.old.marks.items }
        requires variable { unsigned_abs literal < length self.old.reasons.items }
        requires room { length self.old.trail.items < vec_capacity self.old.trail }
        ensures { Enters self.old self.new literal reason }
    {
        match self.trail.push(literal) {
            Err(_) => unreachable!(),
            Ok(()) => {}
        }
        self.marks[code(literal)] = true;
        self.reasons[literal.unsigned_abs() as usize] = reason;
    }

    /// Takes back the last literals, all but the first `kept`. Of the others, those must be walked again whose walk has
    /// seen a literal that is taken back.
    pub(crate) fn leave(&mut self, kept: usize)
        requires set { IsSet self.old.marks.items self.old.trail.items }
        requires literals { AreLiterals self.old.greatest self.old.trail.items }
        requires marks { length self.old.marks.items ≡ 2 * self.old.greatest + 2 }
        requires kept { kept ≤ length self.old.trail.items }
        requires looked { self.old.looked ≤ length self.old.reach.items }
        ensures { Forgets self.old self.new kept }
    {
        self.take_back(kept);
        self.looked = walked_within(&self.reach, self.looked, kept);
        self.seen = passed_within(self.seen, self.base, kept);
    }

    /// Takes back the last literals, and nothing else.
    fn take_back(&mut self, kept: usize)
        requires set { IsSet self.old.marks.items self.old.trail.items }
        requires literals { AreLiterals self.old.greatest self.old.trail.items }
        requires marks { length self.old.marks.items ≡ 2 * self.old.greatest + 2 }
        requires kept { kept ≤ length self.old.trail.items }
        ensures { TakesBack self.old self.new kept }
    {
        while self.trail.len() > kept {
            let Some(literal) = self.trail.pop() else {
                return;
            };
            self.marks[code(literal)] = false;
        }
    }
}

/// How many walks, of those before `looked`, have seen nothing after the first `kept` literals.
fn walked_within(reach: &[usize], looked: usize, kept: usize) -> usize
    requires { looked ≤ length reach.now }
    ensures less { result ≤ looked }
    ensures within { result ≤ kept }
    ensures near { (result ≡ 0) ⊎ (slice_index_or reach.now (result - 1) 0 ≤ kept) }
{
    let mut walked = looked.min(kept);
    'back: while walked > 0 {
        if reach[walked - 1] <= kept {
            return walked;
        }
        walked -= 1;
    }
    0
}

/// How many short clauses are true by the first `kept` literals: those before `seen` are by the first `base`.
fn passed_within(seen: usize, base: usize, kept: usize) -> usize
    ensures { (result ≡ 0) ⊎ ((result ≡ seen) × (base ≤ kept)) }
{
    if base <= kept { seen } else { 0 }
}
