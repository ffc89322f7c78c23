//! One propagation over indexed clauses. A literal that enters the set is looked up once in the table, and each clause
//! that has its opposite is looked at: from its first literal to the second one that is still open.
ghost use Rattle.std.specs.Prelude.{◌≡◌, ◌≢◌, ℕ, ◌+◌, ◌*◌, ◌<◌, ◌≤◌, ◌^◌, ◌↔◌, ◌⊎◌, ℤ, pos, neg_ℤ, List, [], ◌∷◌, ◌++◌, length, MatchOption, IfOk, OnOk, OnErr, map, IsTrue, Bool, slice_index_or, take};
ghost use Rattle.std.specs.List.{All, Contains};
ghost use Rattle.kat_clause.specs.Clauses.{lists};
ghost use Rattle.kat_clause.specs.Literals.{code_of};
ghost use Rattle.kat_clause.specs.Tables.{IsBelow, IsMarked, IsIndex, rows, AreBelow};
ghost use Rattle.kat_clause.specs.Propagations.{IsSet, SameSet, Enters, Visits, VisitsAll, LooksAtNew, LooksUp, Leaves, Unsees, IsFresh};

use crate::literals::{code, opposite_code};
use crate::opens::{first_open, is_only_open};
use std::alloc::{AllocError, Global};

/// The set of literals so far, and how far its consequences have been sought.
pub struct Propagation {
    // by a literal's code, whether the set has it
    pub marks: Vec<bool>,
    // the literals of the set, in the order in which they entered
    pub trail: Vec<i32>,
    // how many of the trail's literals have been looked up
    pub looked: usize,
    // how many of the clauses have been looked at since they were added
    pub seen: usize,
}

impl Drop for Propagation {
    fn drop(self) {
        let Self {
            marks: _,
            trail: _,
            looked: _,
            seen: _,
        } = self;
    }
}

impl Propagation {
    /// The empty set, if literals have codes below `size`.
    pub fn new(alloc: Global, size: usize) -> Result<Propagation, AllocError>
        ensures { IfOk result (IsFresh size) }
    {
        Ok(Propagation {
            marks: vec![in alloc; false; size]?,
            trail: Vec::new(alloc),
            looked: 0,
            seen: 0,
        })
    }

    /// Puts a literal into the set.
    pub fn enter(&mut self, literal: i32) -> Result<(), AllocError>
        requires { code_of literal < length self.old.marks.items }
        ensures ok { OnOk result (Enters self.old self.new literal) }
        ensures err { OnErr result (SameSet self.old self.new) }
    {
        let place = code(literal);
        if self.marks[place] {
            return Ok(());
        }
        self.trail.push(literal)?;
        self.marks[place] = true;
        Ok(())
    }

    /// Takes out the last literals, all but the first `kept`.
    pub fn leave(&mut self, kept: usize)
        requires set { IsSet self.old }
        requires kept { kept ≤ length self.old.trail.items }
        ensures { Leaves self.old self.new kept }
    {
        while self.trail.len() > kept {
            let Some(literal) = self.trail.pop() else {
                return;
            };
            self.marks[code(literal)] = false;
        }
    }

    /// Starts anew if more than the first `count` clauses have been looked at.
    pub fn unsee(&mut self, count: usize)
        requires { IsSet self.old }
        ensures { Unsees self.old self.new count }
    {
        if self.seen <= count {
            return;
        }
        self.leave(0);
        self.looked = 0;
        self.seen = 0;
    }

    /// Looks at the clauses that have not been looked at since they were added, up to the first that the set falsifies, and
    /// answers whether there is one.
    pub fn look_at_new(&mut self, clauses: &[Vec<i32>]) -> Result<bool, AllocError>
        requires { AreBelow (length self.old.marks.items) (lists clauses.now) }
        ensures { LooksAtNew (lists clauses.now) self.old self.new result }
    {
        while self.seen < clauses.len() {
            if self.visit(&clauses[self.seen])? {
                return Ok(true);
            }
            self.seen += 1;
        }
        Ok(false)
    }

    /// Looks up the literals of the trail that have not been looked up, up to the first clause that the set falsifies, and
    /// answers whether there is one.
    pub fn look_up(
        &mut self,
        clauses: &[Vec<i32>],
        table: &[Vec<usize>],
    ) -> Result<bool, AllocError>
        requires index { IsIndex (lists clauses.now) (rows table.now) }
        requires size { length self.old.marks.items ≡ length (rows table.now) }
        ensures { LooksUp (lists clauses.now) self.old self.new result }
    {
        while self.looked < self.trail.len() {
            let place = opposite_code(self.trail[self.looked]);
            if self.visit_all(clauses, row(table, place))? {
                return Ok(true);
            }
            self.looked += 1;
        }
        Ok(false)
    }

    // Looks at a clause, and answers whether the set falsifies it. If one literal alone is open, that one enters.
    fn visit(&mut self, clause: &[i32]) -> Result<bool, AllocError>
        requires { (k : ℤ) → Contains clause.now k → IsBelow (length self.old.marks.items) k }
        ensures { Visits clause.now self.old self.new result }
    {
        let Some(first) = first_open(clause, &self.marks) else {
            return Ok(true);
        };
        if !is_only_open(clause, &self.marks, first) {
            return Ok(false);
        }
        self.enter(clause[first])?;
        Ok(false)
    }

    // Looks at the clauses of these numbers, up to the first that the set falsifies, and answers whether there is one.
    fn visit_all(&mut self, clauses: &[Vec<i32>], numbers: &[usize]) -> Result<bool, AllocError>
        requires { AreBelow (length self.old.marks.items) (lists clauses.now) }
        ensures { VisitsAll (lists clauses.now) numbers.now self.old self.new result }
    {
        for number in numbers {
            let Some(clause) = clauses.get(*number) else {
                continue;
            };
            if self.visit(clause)? {
                return Ok(true);
            }
        }
        Ok(false)
    }
}

// The numbers that the table has at a code.
pub(crate) fn row(table: &[Vec<usize>], code: usize) -> &[usize]
    ensures { result.now ≡ slice_index_or (rows table.now) code [] }
{
    match table.get(code) {
        Some(row) => row,
        None => &[],
    }
}
