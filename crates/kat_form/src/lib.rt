//! Formulas over linear arithmetic, and what they are encoded into.
#![tactic(auto)]

ghost use Rattle.std.specs.Prelude.{◌≡◌, ℕ, IfOk, ◌<◌, ◌≤◌, ◌↔◌, ◌^◌, ℤ, List, length, IsTrue, unsigned_abs};
ghost use Rattle.std.specs.List.{All, Contains};
ghost use Rattle.kat_linear.specs.Rows.{AreAscending, IsAscending, form_of};
ghost use Rattle.kat_clause.specs.Clauses.{lists};
ghost use Rattle.kat_form.specs.Encodings.{encoding, senses_of, sense_of, IsLiteral, HasLiterals, IsFitForm, IsFitSense, AreFitAtoms, IsFit, IsBelow, StandOnce};
ghost use Rattle.kat_form.specs.Facts.{facts_of, forms_among, AreSized};
ghost use Rattle.kat_form.specs.Readings.{encoding_of, numbers_of_facts};

use kat_linear::Row;
use std::alloc::{AllocError, Global};

/// A formula in negation normal form. Contracts see what it says, as a `Fact` (`fact_of formula`).
#[derive(Debug)]
pub enum Formula {
    True,
    False,
    /// A truth variable, or its negation.
    Lit { var: u32, positive: bool },
    /// The row is met: its sum is at most 0.
    AtMost(Row),
    /// The row's sum is above 0.
    Above(Row),
    And(Vec<Formula>),
    Or(Vec<Formula>),
}

impl Drop for Formula {
    fn drop(self) {
        match self {
            Self::True => {}
            Self::False => {}
            Self::Lit {
                var: _,
                positive: _,
            } => {}
            Self::AtMost(_) => {}
            Self::Above(_) => {}
            Self::And(_) => {}
            Self::Or(_) => {}
        }
    }
}

/// What a propositional variable stands for.
#[derive(Debug)]
pub enum Meaning {
    /// A truth variable.
    Truth(u32),
    /// That the row's sum is at most 0.
    Atom(Row),
    /// A part of a formula.
    Gate,
}

impl Drop for Meaning {
    fn drop(self) {
        match self {
            Self::Truth(_) => {}
            Self::Atom(_) => {}
            Self::Gate => {}
        }
    }
}

/// Clauses over propositional variables. The variables are numbered from 1 in the order of `meanings`, and a literal is
/// a variable's number or its negative. The number variables of the atoms are below `numbers`.
#[derive(Debug)]
pub struct Encoded {
    pub clauses: Vec<Vec<i32>>,
    pub meanings: Vec<Meaning>,
    pub numbers: u32,
}

impl Drop for Encoded {
    fn drop(self) {
        let Self {
            clauses: _,
            meanings: _,
            numbers: _,
        } = self;
    }
}

impl Encoded {
    /// Whether the clauses have literals of the encoding's variables alone, and each atom's row has ascending variables and
    /// no number past 2^126 in absolute value. A check of lines asks this of an encoding, and that it has at most 2^28
    /// variables; what [`clauses_of`] makes of sized formulas has both.
    pub fn is_fit(&self) -> bool
        ensures { IsTrue result ↔ IsFit (encoding self.now) }
    {
        have_literals(&self.clauses, self.meanings.len()) && are_fit(&self.meanings)
    }
}

/// Encodes facts into clauses (the way of Plaisted and Greenbaum 1986, one direction of each gate): each fact is stated
/// in order, with true, false and rows without variables folded away.
///
/// The propositional variables are truth variables, atoms and gates, numbered in the order in which they first come up,
/// a gate after its parts. `numbers` is one more than the greatest number variable that is left, or 0.
///
/// No number of a row may pass 2^125 in absolute value, and each number variable is below 2^32 - 1: [`are_sized`] tells.
/// More than 2^28 propositional variables are answered as out of memory.
///
/// ```
/// let fact = Formula::Or(vec![in alloc; on, Formula::AtMost(row)]?);
/// let encoded = clauses_of(alloc, &vec![in alloc; fact]?)?;
/// assert!(encoded.is_fit());
/// ```
pub fn clauses_of(alloc: Global, facts: &[Formula]) -> Result<Encoded, AllocError>
    requires { AreSized (forms_among (facts_of facts.now)) }
    ensures clauses { IfOk result (λ encoded. encoding encoded ≡ encoding_of (facts_of facts.now)) }
    ensures numbers { IfOk result (λ encoded. encoded.numbers ≡ numbers_of_facts (facts_of facts.now)) }
    ensures few { IfOk result (λ encoded. length (encoding encoded).senses ≤ 2 ^ 28) }
    ensures fit { All IsAscending (forms_among (facts_of facts.now)) → IfOk result (λ encoded. IsFit (encoding encoded)) }
    ensures below { IfOk result (λ encoded. All (IsBelow encoded.numbers) (encoding encoded).senses) }
    ensures once { IfOk result (λ encoded. StandOnce (encoding encoded).senses) }
{
    let mut draft = Draft::new(alloc);
    for fact in facts {
        state(alloc, fact, &mut draft)?;
    }
    draft.finish(alloc, numbers_of(facts))
}

// Whether all literals of the clauses are of this many variables.
fn have_literals(clauses: &[Vec<i32>], count: usize) -> bool
    ensures { IsTrue result ↔ All (HasLiterals count) (lists clauses.now) }
{
    for clause in clauses {
        if !are_literals(clause, count) {
            return false;
        }
    }
    true
}

// Whether each literal is one of this many variables, or the negative of one.
fn are_literals(literals: &[i32], count: usize) -> bool
    ensures { IsTrue result ↔ All (IsLiteral count) literals.now }
{
    literals
        .iter()
        .all(|k| *k != 0 && k.unsigned_abs() as usize <= count)
}

// Whether the rows of all atoms are fit.
fn are_fit(meanings: &[Meaning]) -> bool
    ensures { IsTrue result ↔ All IsFitSense (senses_of meanings.now) }
{
    for meaning in meanings {
        if !is_fit_meaning(meaning) {
            return false;
        }
    }
    true
}

// Whether the row is fit, if the meaning is an atom.
fn is_fit_meaning(meaning: &Meaning) -> bool
    ensures { IsTrue result ↔ IsFitSense (sense_of meaning.now) }
{
    match meaning {
        Meaning::Atom(row) => is_fit_row(row),
        _ => true,
    }
}

// Whether the row's variables ascend and its numbers are within the limit.
fn is_fit_row(row: &Row) -> bool
    ensures { IsTrue result ↔ IsFitForm (form_of row.now) }
{
    is_ascending(&row.terms) && are_narrow(&row.terms) && is_narrow(row.constant)
}

// The greatest absolute value of a row's number.
const LIMIT: u128 = 1 << 126;

fn is_narrow(number: i128) -> bool
    ensures { IsTrue result ↔ (unsigned_abs number ≤ 2 ^ 126) }
{
    number.unsigned_abs() <= LIMIT
}

fn are_narrow(terms: &[(u32, i128)]) -> bool
    ensures { IsTrue result ↔ All (λ t. unsigned_abs t.1 ≤ 2 ^ 126) terms.now }
{
    terms.iter().all(|t| t.1.unsigned_abs() <= LIMIT)
}

// Whether the variables of the terms strictly ascend.
fn is_ascending(terms: &[(u32, i128)]) -> bool
    ensures { IsTrue result ↔ AreAscending terms.now }
{
    for i in 1..terms.len() {
        if terms[i].0 <= terms[i - 1].0 {
            return false;
        }
    }
    true
}

mod draft;
mod encode;
mod fold;
mod laws;
mod numbers;
mod sizes;
mod variables;

use draft::Draft;
use encode::state;
pub use laws::{clauses_say_what_facts_say, encodings_are_fit, found_atoms_are_the_form};
use numbers::numbers_of;
pub use sizes::are_sized;
