//! Literals that are assumed one after the other, over clauses under watch.
ghost use Rattle.std.specs.Prelude.{◌≡◌, ℕ, ◌+◌, ◌<◌, ◌≤◌, ◌^◌, ◌↔◌, ℤ, neg_ℤ, [], ◌∷◌, ◌++◌, length, take, true, false, not, Option, Some, None, option_map, IfSome, IfOk, OnOk, OnErr, IsTrue, vec_len};
ghost use Rattle.std.specs.List.{Contains};
ghost use Rattle.kat_clause.specs.Clauses.{Derived, Follows, SameMembers, opposites};
ghost use Rattle.kat_clause.specs.Known.{Known, Adds};
ghost use Rattle.kat_clause.specs.Literals.{has_of};
ghost use Rattle.kat_form.specs.Encodings.{encoding, IsFit};
ghost use Rattle.kat_watch.specs.Watched.{IsLiteral, AreLiterals, IsPlain};
ghost use Rattle.kat_cases.specs.Entering.{Entered};
ghost use Rattle.kat_cases.specs.Guests.{AreApart, with_guest};
ghost use Rattle.kat_cases.specs.Levels.{IsBefore};
ghost use Rattle.kat_cases.specs.Stacks.{Keeps};

use crate::cores::uses;
use crate::guests::{Guest, look_at};
use kat_form::Encoded;
use kat_resolution::opposite;
use kat_watch::{Propagation, Watches};
use std::alloc::{AllocError, Global};
use std::marker::Model;

/// A literal that is assumed, and the length of the trail before it.
#[derive(Clone, Copy)]
struct Level {
    literal: i32,
    kept: u32,
}

/// Clauses, and literals that are assumed for a while. Contracts see the greatest variable, the clauses, each as a set, the
/// assumed literals in order, and whether the assignment is settled.
pub struct Assumptions {
    watches: Watches,
    levels: Vec<Level>,
    // the place of the first assumed literal whose opposite was assigned before it
    clash: Option<usize>,
    settled: bool,
}

impl Drop for Assumptions {
    fn drop(self) {
        let Self {
            watches: _,
            levels: _,
            clash: _,
            settled: _,
        } = self;
    }
}

impl Model for Assumptions {
    ghost use Rattle.kat_clause.specs.Known.{Known};

    ghost Value = { Known };

    ghost use Rattle.kat_cases.specs.Assuming.{assumed_in, kept_in, IsAssuming};

    ghost view = { λ a. record { greatest = a.watches.greatest; clauses = a.watches.clauses; assumed = assumed_in a.levels.items; settled = a.settled } };

    ghost invariant = { λ a. IsAssuming a.watches (assumed_in a.levels.items) (kept_in a.levels.items) a.clash a.settled };
}

impl Assumptions {
    /// No clauses, over the variables from 1 to the greatest.
    pub(crate) fn new(alloc: Global, greatest: u32) -> Result<Assumptions, AllocError>
        ensures { IfOk result (λ known. known ≡ record { greatest = greatest; clauses = []; assumed = []; settled = false }) }
    {
        let watches = Watches::new(alloc, greatest)?;
        Ok(Assumptions {
            watches,
            levels: Vec::new(alloc),
            clash: None,
            settled: false,
        })
    }

    /// Adds a clause after the others, as the set of its literals.
    pub(crate) fn add(&mut self, alloc: Global, clause: &[i32]) -> Result<(), AllocError>
        requires literals { AreLiterals self.old.greatest clause.now }
        ensures ok { OnOk result (Adds clause.now self.old self.new) }
        ensures err { OnErr result (self.new ≡ self.old) }
    {
        let once = literals_once(alloc, clause)?;
        self.watches.add(alloc, &once)?;
        self.settled = false;
        Ok(())
    }

    /// Assumes a literal, after those that are assumed, none of which is its opposite.
    pub(crate) fn assume(&mut self, literal: i32) -> Result<(), AllocError>
        requires literal { IsLiteral self.old.greatest literal }
        requires apart { Contains self.old.assumed (neg_ℤ literal) → ⊥ }
        ensures ok { OnOk result (self.new ≡ record self.old { assumed = self.old.assumed ++ literal ∷ []; settled = false }) }
        ensures err { OnErr result (self.new ≡ self.old) }
    {
        self.watches.tells_supported();
        let number = self.levels.len();
        let kept = self.watches.trail().len() as u32;
        self.levels.push(Level { literal, kept })?;
        self.settled = false;
        enter(&mut self.watches, &mut self.clash, literal, number);
        Ok(())
    }

    /// Takes assumed literals back, all but the first `kept`.
    pub(crate) fn undo(&mut self, kept: usize)
        requires { kept ≤ length self.old.assumed }
        ensures { self.new ≡ record self.old { assumed = take kept self.old.assumed; settled = false } }
    {
        self.settled = false;
        if self.levels.len() <= kept {
            return;
        }
        if is_behind(self.clash, kept) {
            self.levels.truncate(kept);
            return;
        }
        let level = self.levels[kept];
        self.watches.undo(level.kept);
        self.clash = None;
        self.levels.truncate(kept);
    }

    /// Propagates, and answers whether a clause is falsified. If none is, the assignment is settled.
    pub(crate) fn propagate(&mut self) -> bool
        ensures falsified { IsTrue result ↔ Follows self.old.clauses (opposites self.old.assumed) }
        ensures state { self.new ≡ record self.old { settled = not result } }
    {
        self.settled = false;
        self.watches.tells_supported();
        if self.clash.is_some() {
            return true;
        }
        if let Propagation::Conflict(_) = self.watches.propagate() {
            self.watches.tells_supported();
            return true;
        }
        self.watches.tells_supported();
        self.settled = true;
        false
    }

    /// Propagates, and answers whether a clause is falsified if the guest, if there is one, is a clause too.
    pub(crate) fn propagate_with(&mut self, guest: Option<&[i32]>) -> Result<bool, AllocError>
        requires { IfSome guest (λ g. AreLiterals self.old.greatest g.now) }
        ensures falsified { IfOk result (λ b. IsTrue b ↔ Follows (with_guest self.old.clauses (option_map (λ g. g.now) guest.entry))
            (opposites self.old.assumed)) }
        ensures assumed { IfOk result (λ b. self.new.assumed ≡ self.old.assumed) }
        ensures clauses { self.new.clauses ≡ self.old.clauses }
        ensures greatest { self.new.greatest ≡ self.old.greatest }
    {
        if self.propagate() {
            return Ok(true);
        }
        match guest {
            Some(guest) => self.look_at_guest(guest),
            None => Ok(false),
        }
    }

    /// Whether a clause is falsified if the guest is a clause too, and none is without it.
    fn look_at_guest(&mut self, guest: &[i32]) -> Result<bool, AllocError>
        requires settled { self.old.settled ≡ true }
        requires literals { AreLiterals self.old.greatest guest.now }
        requires unfollowed { Follows self.old.clauses (opposites self.old.assumed) → ⊥ }
        ensures falsified { IfOk result (λ b. IsTrue b ↔ Follows (self.old.clauses ++ guest.now ∷ []) (opposites self.old.assumed)) }
        ensures assumed { IfOk result (λ b. self.new.assumed ≡ self.old.assumed) }
        ensures clauses { self.new.clauses ≡ self.old.clauses }
        ensures greatest { self.new.greatest ≡ self.old.greatest }
    {
        self.tells_apart();
        match look_at(self.marks(), guest) {
            Guest::Falsified => Ok(true),
            Guest::Idle => Ok(false),
            Guest::Unit(literal) => self.propagates_under(literal),
        }
    }

    /// Whether a clause is falsified with one literal more assumed, which is taken back.
    fn propagates_under(&mut self, literal: i32) -> Result<bool, AllocError>
        requires literal { IsLiteral self.old.greatest literal }
        requires apart { Contains self.old.assumed (neg_ℤ literal) → ⊥ }
        ensures falsified { IfOk result (λ b. IsTrue b ↔ Follows self.old.clauses (opposites (self.old.assumed ++ literal ∷ []))) }
        ensures apart { IfOk result (λ b. b ≡ false → AreApart self.old.clauses (self.old.assumed ++ literal ∷ [])) }
        ensures assumed { IfOk result (λ b. self.new.assumed ≡ self.old.assumed) }
        ensures clauses { self.new.clauses ≡ self.old.clauses }
        ensures greatest { self.new.greatest ≡ self.old.greatest }
    {
        let kept = self.levels.len();
        self.assume(literal)?;
        let falsified = self.propagate_apart();
        self.undo(kept);
        Ok(falsified)
    }

    /// Propagates, as [`Assumptions::propagate`], and tells that no literal is derived with its opposite if none is falsified.
    fn propagate_apart(&mut self) -> bool
        ensures falsified { IsTrue result ↔ Follows self.old.clauses (opposites self.old.assumed) }
        ensures apart { result ≡ false → AreApart self.old.clauses self.old.assumed }
        ensures state { self.new ≡ record self.old { settled = not result } }
    {
        if self.propagate() {
            return true;
        }
        self.tells_apart();
        false
    }

    /// A law: if the assignment is settled, no literal is derived with its opposite; and there are few variables.
    fn tells_apart(&self)
        requires { self.now.settled ≡ true }
        ensures limit { self.now.greatest ≤ 2 ^ 28 }
        ensures apart { AreApart self.now.clauses self.now.assumed }
    {
        self.watches.tells_supported();
    }

    /// The marks of the literals that are derived from the clauses and the assumed literals, by their codes.
    pub(crate) fn marks(&self) -> &[bool]
        requires settled { self.now.settled ≡ true }
        ensures { (k : ℤ) → IsTrue (has_of result.now k) ↔ Derived self.now.clauses (opposites self.now.assumed) k }
    {
        self.watches.tells_supported();
        self.watches.marks()
    }
}

/// An encoding's clauses, with nothing assumed.
pub fn clauses_in(alloc: Global, encoded: &Encoded) -> Result<Assumptions, AllocError>
    requires fit { IsFit (encoding encoded.now) }
    requires variables { vec_len encoded.now.meanings ≤ 2 ^ 28 }
    ensures keeps { IfOk result (λ known. Keeps (encoding encoded.now) known) }
    ensures assumed { IfOk result (λ known. known.assumed ≡ []) }
{
    let mut known = Assumptions::new(alloc, encoded.meanings.len() as u32)?;
    for clause in &encoded.clauses {
        known.add(alloc, clause)?;
    }
    Ok(known)
}

/// The literals of a clause, each once.
pub(crate) fn literals_once(alloc: Global, clause: &[i32]) -> Result<Vec<i32>, AllocError>
    ensures same { IfOk result (λ once. SameMembers once.items clause.now) }
    ensures plain { IfOk result (λ once. IsPlain once.items) }
{
    let mut once = Vec::new(alloc);
    for literal in clause {
        if uses(&once, *literal) {
            continue;
        }
        once.push(*literal)?;
    }
    Ok(once)
}

/// Assigns a literal, unless it is assigned already or an assumed literal has clashed; notes a clash with its opposite.
fn enter(watches: &mut Watches, clash: &mut Option<usize>, literal: i32, number: usize)
    requires literal { IsLiteral watches.old.greatest literal }
    requires limit { watches.old.greatest ≤ 2 ^ 28 }
    ensures { Entered watches.old watches.new clash.old clash.new literal number }
{
    if clash.is_some() {
        return;
    }
    if watches.has(literal) {
        return;
    }
    if watches.has(opposite(literal)) {
        *clash = Some(number);
        return;
    }
    watches.assume(literal);
}

/// Whether so many assumed literals reach past the clash, if there is one.
fn is_behind(clash: Option<usize>, kept: usize) -> bool
    ensures behind { IsTrue result → (c : ℕ) × (clash ≡ Some c) × (c < kept) }
    ensures before { result ≡ false → IsBefore kept clash }
{
    match clash {
        Some(place) => place < kept,
        None => false,
    }
}
