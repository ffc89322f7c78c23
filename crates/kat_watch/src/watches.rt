//! Clauses under watch.
ghost use Rattle.std.specs.Prelude.{◌≡◌, ℕ, ◌+◌, ◌*◌, ◌<◌, ◌≤◌, ◌^◌, ◌↔◌, ℤ, neg_ℤ, List, [], ◌∷◌, ◌++◌, length, take, map, Option, None, IfOk, OnOk, OnErr, IfSome, IsTrue};
ghost use Rattle.std.specs.List.{Contains};
ghost use Rattle.kat_clause.specs.Clauses.{lists};
ghost use Rattle.kat_clause.specs.Literals.{code_of, has_of};
ghost use Rattle.kat_watch.specs.Watched.{Watched, Step, literals, IsLiteral, AreLiterals, IsPlain, IsOpen, step_at, AreSupported, Propagates, IsReason};
ghost use Rattle.kat_watch.specs.Answers.{IsAnswer};
ghost use Rattle.kat_watch.specs.States.{IsNoted, StartsWatch};
ghost use Rattle.kat_links.specs.Lists.{list_at};
ghost use Rattle.std.specs.Vec.{vec_capacity};

use crate::assignment::Assignment;
use crate::walking::{pass_shorts, walk_all};
use kat_clause::code;
use kat_links::Links;
use std::alloc::{AllocError, Global};
use std::marker::Model;

/// The result of propagation: no clause is falsified or unit, or the clause of this number is falsified.
///
/// ```
/// match watches.propagate() {
///     Propagation::Quiet => println!("{:?}", watches.trail()),
///     Propagation::Conflict(number) => println!("clause {number} is falsified"),
/// }
/// ```
#[derive(Clone, Copy, Debug, PartialEq, Eq)]
pub enum Propagation {
    Quiet,
    Conflict(u32),
}

/// Clauses, and literals that are assigned one after the other: assumed by the caller, or by propagation. Contracts see the
/// greatest variable, the clauses in order, and the assigned literals in order, each with the clause by which it was assigned.
///
/// ```
/// let mut watches = Watches::new(alloc, 3)?;
/// watches.add(alloc, &[1, 2])?;
/// watches.add(alloc, &[-2, 3])?;
/// watches.assume(-1);
/// assert!(watches.propagate() == Propagation::Quiet);
/// assert!(watches.trail() == [-1, 2, 3].as_slice());
/// assert!(watches.reason(3) == Some(1));
/// watches.undo(0);
/// ```
pub struct Watches {
    clauses: Vec<Vec<i32>>,
    // the clauses of fewer than two literals
    shorts: Vec<u32>,
    // by a literal's code, the items of the clauses that watch it
    links: Links,
    set: Assignment,
}

impl Drop for Watches {
    fn drop(self) {
        let Self {
            clauses: _,
            shorts: _,
            links: _,
            set: _,
        } = self;
    }
}

impl Model for Watches {
    ghost use Rattle.kat_watch.specs.Watched.{Watched};

    ghost Value = { Watched };

    ghost use Rattle.kat_clause.specs.Clauses.{lists};
    ghost use Rattle.kat_watch.specs.States.{steps, IsState};

    ghost view = { λ w. record { greatest = w.set.greatest; clauses = lists w.clauses.items; trail = steps w.set } };

    ghost invariant = { λ w. IsState (lists w.clauses.items) w.shorts.items w.links w.set };
}

impl Watches {
    /// No clauses, over the variables from 1 to the greatest. More than 2^28 variables are answered as out of memory.
    pub fn new(alloc: Global, greatest: u32) -> Result<Watches, AllocError>
        ensures { IfOk result (λ w. w ≡ record { greatest = greatest; clauses = []; trail = [] }) }
    {
        if greatest > MOST {
            return Err(AllocError);
        }
        let links = Links::new(alloc, 2 * greatest + 2, 0)?;
        let set = Assignment::new(alloc, greatest)?;
        Ok(Watches {
            clauses: Vec::new(alloc),
            shorts: Vec::new(alloc),
            links,
            set,
        })
    }

    /// Adds a clause after the others, and gives its number. More than 2^28 clauses are answered as out of memory.
    pub fn add(&mut self, alloc: Global, clause: &[i32]) -> Result<u32, AllocError>
        requires literals { AreLiterals self.old.greatest clause.now }
        requires plain { IsPlain clause.now }
        ensures number { IfOk result (λ number. number ≡ length self.old.clauses) }
        ensures ok { IfOk result (λ number. self.new ≡ record self.old { clauses = self.old.clauses ++ clause.now ∷ [] }) }
        ensures err { OnErr result (self.new ≡ self.old) }
    {
        let count = self.clauses.len();
        if count >= MOST as usize {
            return Err(AllocError);
        }
        let number = count as u32;
        self.links.tells_arranged();
        let copy = prepare(
            alloc,
            &mut self.clauses,
            &mut self.shorts,
            &mut self.links,
            clause,
        )?;
        put(&mut self.clauses, copy);
        watch(
            &mut self.shorts,
            &mut self.links,
            &mut self.set,
            clause,
            number,
        );
        Ok(number)
    }

    /// Assigns a literal, whose variable is unassigned.
    pub fn assume(&mut self, literal: i32)
        requires literal { IsLiteral self.old.greatest literal }
        requires open { IsOpen (literals self.old.trail) literal }
        ensures { self.new ≡ record self.old { trail = self.old.trail ++ record { literal = literal; reason = None } ∷ [] } }
    {
        self.set.enter(literal, None);
    }

    /// Takes back all but the first assigned literals.
    pub fn undo(&mut self, kept: u32)
        requires { kept ≤ length self.old.trail }
        ensures { self.new ≡ record self.old { trail = take kept self.old.trail } }
    {
        self.set.leave(kept as usize);
    }

    /// The assigned literals, in order.
    pub fn trail(&self) -> &[i32]
        ensures { result.now ≡ literals self.now.trail }
    {
        &self.set.trail
    }

    /// Whether a literal is assigned.
    pub fn has(&self, literal: i32) -> bool
        requires { IsLiteral self.now.greatest literal }
        ensures { IsTrue result ↔ Contains (literals self.now.trail) literal }
    {
        self.set.marks[code(literal)]
    }

    /// By a literal's code, whether it is assigned.
    pub fn marks(&self) -> &[bool]
        ensures { (k : ℤ) → IsTrue (has_of result.now k) ↔ Contains (literals self.now.trail) k }
    {
        &self.set.marks
    }

    /// The number of the clause by which an assigned literal was assigned: it has the literal, and its other literals were
    /// made false before it. None if and only if the literal was assumed.
    pub fn reason(&self, literal: i32) -> Option<u32>
        requires { Contains (literals self.now.trail) literal }
        ensures step { (i : ℕ) → i < length self.now.trail → (step_at self.now.trail i).literal ≡ literal
            → result ≡ (step_at self.now.trail i).reason }
        ensures forces { (i : ℕ) → i < length self.now.trail → (step_at self.now.trail i).literal ≡ literal
            → IfSome result (IsReason self.now.clauses (take i (literals self.now.trail)) literal) }
    {
        self.set.reasons[literal.unsigned_abs() as usize]
    }

    /// Assigns what the clauses force, until nothing is forced or a clause is falsified. What is forced is the last open literal of
    /// a clause, which is its reason.
    pub fn propagate(&mut self) -> Propagation
        ensures { Propagates self.old self.new (IsAnswer result) }
    {
        if let Some(short) = pass_shorts(&self.clauses, &self.shorts, &self.links, &mut self.set) {
            return Propagation::Conflict(short);
        }
        if let Some(number) = walk_all(&self.clauses, &mut self.links, &mut self.set) {
            return Propagation::Conflict(number);
        }
        self.links.tells_arranged();
        Propagation::Quiet
    }

    /// A law: no literal is assigned twice, or together with its opposite, so each was open when it was assigned; and each was
    /// assumed or is forced by its reason's clause.
    pub fn tells_supported(&self)
        ensures limit { self.now.greatest ≤ 2 ^ 28 }
        ensures few { length self.now.trail < 2 ^ 30 }
        ensures supported { AreSupported self.now.clauses self.now.trail }
        ensures apart { (k : ℤ) → Contains (literals self.now.trail) k → Contains (literals self.now.trail) (neg_ℤ k) → ⊥ }
        ensures once { IsPlain (literals self.now.trail) }
        ensures open { (i : ℕ) → i < length self.now.trail → IsOpen (take i (literals self.now.trail)) (step_at self.now.trail i).literal }
    {
        let _set = &self.set;
    }
}

/// As many variables, and as many clauses, as there may be.
const MOST: u32 = 1 << 28;

/// Takes the memory for a clause before anything is changed: its copy, room for it, and its items.
fn prepare(
    alloc: Global,
    clauses: &mut Vec<Vec<i32>>,
    shorts: &mut Vec<u32>,
    links: &mut Links,
    clause: &[i32],
) -> Result<Vec<i32>, AllocError>
    requires lists { length links.old.lists < 2 ^ 30 }
    requires items { links.old.items < 2 ^ 30 }
    ensures copy { IfOk result (λ copy. copy.items ≡ clause.now) }
    ensures clauses { clauses.new.items ≡ clauses.old.items }
    ensures clauses_room { OnOk result (length clauses.new.items < vec_capacity clauses.new) }
    ensures shorts { shorts.new.items ≡ shorts.old.items }
    ensures shorts_room { OnOk result (length shorts.new.items < vec_capacity shorts.new) }
    ensures items { OnOk result (links.new ≡ record links.old { items = links.old.items + 2 }) }
    ensures links { OnErr result (links.new ≡ links.old) }
{
    let copy = Vec::from_slice(alloc, clause)?;
    make_room(clauses)?;
    make_room(shorts)?;
    links.reserve(alloc, 0, 2)?;
    Ok(copy)
}

/// Makes room for one more.
fn make_room<T>(items: &mut Vec<T>) -> Result<(), AllocError>
    ensures items { items.new.items ≡ items.old.items }
    ensures room { OnOk result (length items.new.items < vec_capacity items.new) }
{
    items.reserve(1)
}

/// Appends an item, for which there is room.
fn put<T: Drop>(items: &mut Vec<T>, item: T)
    requires { length items.old.items < vec_capacity items.old }
    ensures { items.new.items ≡ items.old.items ++ item ∷ [] }
{
    match items.push(item) {
        Err(_) => unreachable!(),
        Ok(()) => {}
    }
}

/// Watches a new clause's first two literals, and lets all lists be walked again; or notes that it is short.
fn watch(
    shorts: &mut Vec<u32>,
    links: &mut Links,
    set: &mut Assignment,
    clause: &[i32],
    number: u32,
)
    requires room { length shorts.old.items < vec_capacity shorts.old }
    requires number { number < 2 ^ 28 }
    requires items { links.old.items ≡ 2 * number + 2 }
    requires lists { length links.old.lists < 2 ^ 30 }
    requires codes { (k : ℤ) → Contains clause.now k → code_of k < length links.old.lists }
    requires free { (l x : ℕ) → Contains (list_at links.old.lists l) x → x < 2 * number }
    ensures short { length clause.now < 2 → IsNoted number shorts.old.items shorts.new.items links.old links.new set.old set.new }
    ensures long { 2 ≤ length clause.now → StartsWatch number clause.now shorts.old.items shorts.new.items links.old links.new set.old
        set.new }
{
    match clause {
        [first, second, ..] => {
            links.push_front(code(*first) as u32, 2 * number);
            links.push_front(code(*second) as u32, 2 * number + 1);
            set.looked = 0;
        }
        _ => put(shorts, number),
    }
}
