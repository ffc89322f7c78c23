//! The search for hints. Literals enter the set one after the other; each clause that has the opposite of one is looked at
//! again, from where the last look at it ended; a clause of few literals is passed from its start each time, so that nothing is
//! kept of it. A clause with one literal to give waits in a queue, by number.
ghost use Rattle.std.specs.Prelude.{◌≡◌, ◌≢◌, ℕ, ◌+◌, ◌-◌, ◌*◌, ◌<◌, ◌≤◌, ◌^◌, ◌⊎◌, ℤ, pos, neg_ℤ, List, [], ◌∷◌, ◌++◌, length, MatchOption, IfOk, OnOk, slice_index_or, replicate, false};
ghost use Rattle.std.specs.List.{Contains};
ghost use Rattle.kat_clause.specs.Clauses.{lists, SameMembers, opposites};
ghost use Rattle.kat_clause.specs.Literals.{code_of};
ghost use Rattle.kat_clause.specs.Tables.{IsBelow, AreBelow, IsMarked, IsIndexOnce, rows, clause_at};
ghost use Rattle.kat_clause.specs.Propagations.{IsSet, SameSet, unmarked};
ghost use Rattle.kat_clause.specs.Choices.{IsUnit, Gives, IsNone, IsFirst};
ghost use Rattle.kat_clause.specs.Findings.{IsOpposed, literal_at, start, place_of, PutsPlace, IsPlace, IsLook, least_of, Notes, IsWalk, AreNoticed, AreGiving, AreShortAmong, restored, AreSteps, IsNeeded, IsHintsOf};

use crate::literals::{code, opposite, opposite_code};
use crate::marks::{mark_literals, no_marks};
use crate::opens::{first_open, is_only_open};
use crate::propagation::{Propagation, row};
use crate::queue::Queue;
use std::alloc::{AllocError, Global};
use std::collections::HashMap;

/// How far a clause's literals have been passed.
#[derive(Clone, Copy)]
pub struct Place {
    // the opposites of all literals before it are in the set
    pub first: usize,
    // those of all before it, except for the literal at the first
    pub second: usize,
}

/// How many different literals of a clause are open.
#[derive(Clone, Copy)]
pub enum Look {
    Falsified,
    Single,
    Several,
}

/// A hint that was taken, by its clause's place, and the literal that it gave.
#[derive(Clone, Copy)]
pub struct Step {
    pub number: usize,
    pub literal: i32,
}

/// A search for hints.
pub struct Walk {
    pub set: Propagation,
    // by a clause's number, unless it is its start
    pub places: HashMap<usize, Place>,
    // the clauses that may give a literal
    pub queue: Queue,
    // the first falsified clause
    pub falsified: Option<usize>,
}

impl Drop for Walk {
    fn drop(self) {
        let Self {
            set: _,
            places: _,
            queue: _,
            falsified: _,
        } = self;
    }
}

impl Walk {
    /// No literal is in the set.
    pub fn new(alloc: Global, size: usize) -> Result<Walk, AllocError>
        ensures size { IfOk result (λ walk. length walk.set.marks.items ≡ size) }
        ensures set { IfOk result (λ walk. IsSet walk.set) }
        ensures trail { IfOk result (λ walk. walk.set.trail.items ≡ []) }
        ensures places { IfOk result (λ walk. (i : ℕ) → place_of walk.places i ≡ start) }
        ensures falsified { IfOk result (λ walk. walk.falsified ≡ None) }
    {
        let set = Propagation::new(alloc, size)?;
        Ok(Walk {
            set,
            places: HashMap::new(alloc),
            queue: Queue::new(alloc),
            falsified: None,
        })
    }

    /// Looks at the clauses of these numbers.
    pub fn look_all(&mut self, clauses: &[Vec<i32>], numbers: &[usize]) -> Result<(), AllocError>
        requires below { AreBelow (length self.old.set.marks.items) (lists clauses.now) }
        requires walk { IsWalk (lists clauses.now) self.old }
        ensures set { SameSet self.old.set self.new.set }
        ensures walk { OnOk result (IsWalk (lists clauses.now) self.new) }
        ensures noticed { OnOk result (AreNoticed (lists clauses.now) numbers.now self.old → AreNoticed (lists clauses.now) [] self.new) }
    {
        for number in numbers {
            self.look(clauses, *number)?;
        }
        Ok(())
    }

    /// A literal enters, and the clauses with its opposite are looked at.
    pub fn enter(
        &mut self,
        clauses: &[Vec<i32>],
        table: &[Vec<usize>],
        literal: i32,
    ) -> Result<(), AllocError>
        requires index { IsIndexOnce (lists clauses.now) (rows table.now) }
        requires size { length self.old.set.marks.items ≡ length (rows table.now) }
        requires literal { code_of literal < length self.old.set.marks.items }
        requires walk { IsWalk (lists clauses.now) self.old }
        ensures size { length self.new.set.marks.items ≡ length self.old.set.marks.items }
        ensures walk { OnOk result (IsWalk (lists clauses.now) self.new) }
        ensures entered { OnOk result (SameMembers self.new.set.trail.items (self.old.set.trail.items ++ literal ∷ [])) }
        ensures fresh { OnOk result ((Contains self.old.set.trail.items literal → ⊥)
            → unmarked self.new.set.marks.items + 1 ≡ unmarked self.old.set.marks.items) }
        ensures noticed { OnOk result ((pending : List ℕ) → AreGiving (lists clauses.now) pending self.old.set.trail.items literal
            → AreNoticed (lists clauses.now) pending self.old → AreNoticed (lists clauses.now) [] self.new) }
    {
        self.set.enter(literal)?;
        self.look_all(clauses, row(table, opposite_code(literal)))?;
        Ok(())
    }

    /// The opposites of the line's literals enter.
    pub fn deny(
        &mut self,
        clauses: &[Vec<i32>],
        table: &[Vec<usize>],
        line: &[i32],
    ) -> Result<(), AllocError>
        requires index { IsIndexOnce (lists clauses.now) (rows table.now) }
        requires size { length self.old.set.marks.items ≡ length (rows table.now) }
        requires limit { length (rows table.now) ≤ 2 ^ 30 }
        requires line { (k : ℤ) → Contains line.now k → IsBelow (length (rows table.now)) k }
        requires walk { IsWalk (lists clauses.now) self.old }
        ensures size { length self.new.set.marks.items ≡ length self.old.set.marks.items }
        ensures walk { OnOk result (IsWalk (lists clauses.now) self.new) }
        ensures entered { OnOk result (SameMembers self.new.set.trail.items (self.old.set.trail.items ++ opposites line.now)) }
        ensures noticed { OnOk result (AreNoticed (lists clauses.now) [] self.old → AreNoticed (lists clauses.now) [] self.new) }
    {
        for literal in line {
            let denial = opposite(*literal);
            if self.set.marks[code(denial)] {
                continue;
            }
            self.enter(clauses, table, denial)?;
        }
        Ok(())
    }

    /// The first clause with a literal to give, and that literal.
    pub fn next(&mut self, clauses: &[Vec<i32>]) -> Option<Step>
        requires below { AreBelow (length self.old.set.marks.items) (lists clauses.now) }
        requires walk { IsWalk (lists clauses.now) self.old }
        ensures set { SameSet self.old.set self.new.set }
        ensures falsified { self.new.falsified ≡ self.old.falsified }
        ensures walk { IsWalk (lists clauses.now) self.new }
        ensures none { AreNoticed (lists clauses.now) [] self.old → self.old.falsified ≡ None
            → MatchOption result (IsNone (Gives self.old.set.trail.items) (lists clauses.now)) (λ step.
            IsFirst (Gives self.old.set.trail.items) (lists clauses.now) step.number) }
        ensures step { MatchOption result (Unit {0}) (λ step. (step.number < length (lists clauses.now))
            × IsUnit self.old.set.trail.items (clause_at (lists clauses.now) step.number) step.literal) }
        ensures noticed { AreNoticed (lists clauses.now) [] self.old
            → MatchOption result (Unit {0}) (λ step. AreNoticed (lists clauses.now) (step.number ∷ []) self.new) }
    {
        while let Some(number) = self.queue.pop() {
            if let Some(literal) = given(clauses, &self.set, number) {
                return Some(Step { number, literal });
            }
        }
        None
    }

    // Looks at the clause of a number.
    fn look(&mut self, clauses: &[Vec<i32>], number: usize) -> Result<(), AllocError>
        requires below { AreBelow (length self.old.set.marks.items) (lists clauses.now) }
        requires walk { IsWalk (lists clauses.now) self.old }
        ensures set { SameSet self.old.set self.new.set }
        ensures walk { OnOk result (IsWalk (lists clauses.now) self.new) }
        ensures noticed { OnOk result ((pending : List ℕ) → AreNoticed (lists clauses.now) (number ∷ pending) self.old
            → AreNoticed (lists clauses.now) pending self.new) }
    {
        let Some(clause) = clauses.get(number) else {
            return Ok(());
        };
        let from = passed(&self.places, clause.len(), number);
        let (look, place) = scan(clause, &self.set.marks, from);
        keep_place(&mut self.places, clause.len(), number, place)?;
        note(&mut self.falsified, &mut self.queue, look, number)?;
        Ok(())
    }
}

// As many literals as are passed from their start each time.
const FEW: usize = 8;

// How far the literals of a clause have been passed.
fn passed(places: &HashMap<usize, Place>, size: usize, number: usize) -> Place
    ensures { (result ≡ place_of places.now number) ⊎ (result ≡ start) }
{
    if size > FEW
        && let Some(place) = places.get(&number)
    {
        return *place;
    }
    Place {
        first: 0,
        second: 0,
    }
}

// Keeps how far the literals of a clause have been passed, if there are many.
fn keep_place(
    places: &mut HashMap<usize, Place>,
    size: usize,
    number: usize,
    place: Place,
) -> Result<(), AllocError>
    ensures { OnOk result (PutsPlace number place places.old places.new) }
{
    if size <= FEW {
        return Ok(());
    }
    places.insert(number, place)?;
    Ok(())
}

// Notes what a look at the clause of a number has found.
fn note(
    falsified: &mut Option<usize>,
    queue: &mut Queue,
    look: Look,
    number: usize,
) -> Result<(), AllocError>
    ensures { OnOk result (Notes look number falsified.old queue.old falsified.new queue.new) }
{
    match look {
        Look::Falsified => {
            *falsified = Some(lesser(*falsified, number));
            Ok(())
        }
        Look::Single => {
            queue.push(number)?;
            Ok(())
        }
        Look::Several => Ok(()),
    }
}

// The lesser of a number and one that may be there.
fn lesser(other: Option<usize>, number: usize) -> usize
    ensures { result ≡ least_of other number }
{
    match other {
        Some(other) => other.min(number),
        None => number,
    }
}

// Goes on from where a clause's literals have been passed.
fn scan(clause: &[i32], marks: &[bool], place: Place) -> (Look, Place)
    requires below { (k : ℤ) → Contains clause.now k → IsBelow (length marks.now) k }
    requires place { IsPlace marks.now clause.now place }
    ensures place { IsPlace marks.now clause.now result.1 }
    ensures look { IsLook marks.now clause.now result.0 }
{
    let first = next_open(clause, marks, place.first);
    let second = next_other(clause, marks, first, place.second);
    (
        look_of(clause.len(), first, second),
        Place { first, second },
    )
}

// What is open, once this many literals have been passed.
fn look_of(count: usize, first: usize, second: usize) -> Look
    ensures falsified { count ≤ first → result ≡ Look.Falsified }
    ensures single { first < count → count ≤ second → result ≡ Look.Single }
    ensures several { first < count → second < count → result ≡ Look.Several }
{
    if count <= first {
        return Look::Falsified;
    }
    if count <= second {
        return Look::Single;
    }
    Look::Several
}

// The place of the first open literal from a place on.
fn next_open(clause: &[i32], marks: &[bool], from: usize) -> usize
    requires { (k : ℤ) → Contains clause.now k → IsBelow (length marks.now) k }
    ensures passed { (j : ℕ) → from ≤ j → j < result → j < length clause.now → IsOpposed marks.now (literal_at clause.now j) }
    ensures stops { result < length clause.now → IsOpposed marks.now (literal_at clause.now result) → ⊥ }
{
    for i in from..clause.len() {
        if !marks[opposite_code(clause[i])] {
            return i;
        }
    }
    clause.len()
}

// The place of the next open literal that isn't the first open one, from a place on.
fn next_other(clause: &[i32], marks: &[bool], first: usize, from: usize) -> usize
    requires { (k : ℤ) → Contains clause.now k → IsBelow (length marks.now) k }
    ensures passed { (j : ℕ) → from ≤ j → j < result → j < length clause.now → IsOpposed marks.now (literal_at clause.now j)
        ⊎ (literal_at clause.now j ≡ literal_at clause.now first) }
    ensures stops { first < length clause.now → result < length clause.now → IsOpposed marks.now (literal_at clause.now result) → ⊥ }
    ensures other { first < length clause.now → result < length clause.now → literal_at clause.now result ≢ literal_at clause.now first }
{
    if first >= clause.len() {
        return from;
    }
    let open = clause[first];
    for i in from..clause.len() {
        let literal = clause[i];
        if literal != open && !marks[opposite_code(literal)] {
            return i;
        }
    }
    clause.len()
}

// The literal that the clause of a number has to give.
fn given(clauses: &[Vec<i32>], set: &Propagation, number: usize) -> Option<i32>
    requires below { AreBelow (length set.now.marks.items) (lists clauses.now) }
    requires set { IsSet set.now }
    ensures { MatchOption result
        (number < length (lists clauses.now) → Gives set.now.trail.items (clause_at (lists clauses.now) number) → ⊥)
        (λ m. (number < length (lists clauses.now)) × IsUnit set.now.trail.items (clause_at (lists clauses.now) number) m) }
{
    match clauses.get(number) {
        Some(clause) => given_by(clause, set),
        None => None,
    }
}

// The literal that a clause has to give.
fn given_by(clause: &[i32], set: &Propagation) -> Option<i32>
    requires below { (k : ℤ) → Contains clause.now k → IsBelow (length set.now.marks.items) k }
    requires set { IsSet set.now }
    ensures { MatchOption result (Gives set.now.trail.items clause.now → ⊥) (IsUnit set.now.trail.items clause.now) }
{
    let Some(first) = first_open(clause, &set.marks) else {
        return None;
    };
    if !is_only_open(clause, &set.marks, first) {
        return None;
    }
    let literal = clause[first];
    if set.marks[code(literal)] {
        return None;
    }
    Some(literal)
}

/// The hints of a line, if it follows. The table has the numbers of the clauses with each literal, and the short clauses are
/// those that don't have two different literals. Clauses that earlier ones cover may be left out of both.
pub fn find_hints(
    alloc: Global,
    clauses: &[Vec<i32>],
    table: &[Vec<usize>],
    short: &[usize],
    line: &[i32],
) -> Result<Option<Vec<u32>>, AllocError>
    requires index { IsIndexOnce (lists clauses.now) (rows table.now) }
    requires limit { length (rows table.now) ≤ 2 ^ 30 }
    requires count { length (lists clauses.now) < 2 ^ 32 }
    requires short { AreShortAmong (lists clauses.now) short.now }
    requires line { (k : ℤ) → Contains line.now k → IsBelow (length (rows table.now)) k }
    ensures { IfOk result (IsHintsOf (lists clauses.now) line.now) }
{
    let mut walk = Walk::new(alloc, table.len())?;
    walk.look_all(clauses, short)?;
    walk.deny(clauses, table, line)?;
    let mut steps = Vec::new(alloc);
    'turns: loop {
        if let Some(last) = walk.falsified {
            return shortened(alloc, clauses, table.len(), &steps, last);
        }
        let Some(step) = walk.next(clauses) else {
            return Ok(None);
        };
        steps.push(step)?;
        walk.enter(clauses, table, step.literal)?;
    }
}

// The hints of steps and of the clause that was falsified in the end, without those that gave a literal in vain.
fn shortened(
    alloc: Global,
    clauses: &[Vec<i32>],
    size: usize,
    steps: &[Step],
    last: usize,
) -> Result<Option<Vec<u32>>, AllocError>
    requires below { AreBelow size (lists clauses.now) }
    requires count { length (lists clauses.now) < 2 ^ 32 }
    requires last { last < length (lists clauses.now) }
    requires steps { AreSteps (length (lists clauses.now)) steps.now }
    requires literals { (i : ℕ) (d : Step) → i < length steps.now → code_of (neg_ℤ ((slice_index_or steps.now i d).literal)) < size }
    ensures { IfOk result (λ o. MatchOption o ⊥ (λ hints. hints.items ≡ restored (lists clauses.now) steps.now ((last + 1) ∷ []))) }
{
    let mut needed = no_marks(alloc, size)?;
    let mut kept = Vec::new(alloc);
    keep(&mut kept, &mut needed, clauses, last)?;
    for done in 0..steps.len() {
        let step = step_before(steps, done);
        if !needed[opposite_code(step.literal)] {
            continue;
        }
        keep(&mut kept, &mut needed, clauses, step.number)?;
    }
    kept.reverse();
    Ok(Some(kept))
}

// The step before this many at the end.
fn step_before(steps: &[Step], done: usize) -> Step
    requires { done < length steps.now }
    ensures { result ≡ slice_index_or steps.now (length steps.now - 1 - done) result }
{
    steps[steps.len() - 1 - done]
}

// Keeps the hint of a clause: the literals of its clause are needed.
fn keep(
    kept: &mut Vec<u32>,
    needed: &mut Vec<bool>,
    clauses: &[Vec<i32>],
    number: usize,
) -> Result<(), AllocError>
    requires below { AreBelow (length needed.old.items) (lists clauses.now) }
    requires count { length (lists clauses.now) < 2 ^ 32 }
    requires number { number < length (lists clauses.now) }
    ensures kept { OnOk result (kept.new.items ≡ kept.old.items ++ (number + 1) ∷ []) }
    ensures size { length needed.new.items ≡ length needed.old.items }
    ensures needed { OnOk result ((hints : List ℕ) → IsNeeded (lists clauses.now) needed.old.items hints
        → IsNeeded (lists clauses.now) needed.new.items ((number + 1) ∷ hints)) }
{
    kept.push(number as u32 + 1)?;
    mark_literals(needed, &clauses[number]);
    Ok(())
}
