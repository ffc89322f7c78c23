//! An encoding in the making: its clauses, and its propositional variables in a table that finds them again.
ghost use Rattle.std.specs.Prelude.{◌≡◌, ◌≢◌, ◌≤◌, ◌^◌, pos, suc, length, IfOk, OnOk};
ghost use Rattle.kat_clause.specs.Clauses.{lists};
ghost use Rattle.kat_form.specs.Encodings.{Encoding, encoding, sense_of};
ghost use Rattle.kat_form.specs.Encodings.Sense.{gate};
ghost use Rattle.kat_form.specs.Readings.{added, nothing, numbered, with_clause};
ghost use Rattle.kat_form.specs.Drafts.{sense_in, senses_in, AreNumbered};
ghost use Rattle.kat_form.specs.Steps.{Gives, IsShort};

use crate::{Encoded, Meaning};
use indexmap::IndexSet;
use kat_linear::Row;
use std::alloc::{AllocError, Global};
use std::marker::Model;

/// What a propositional variable stands for, as it is found again: a gate is a variable of its own, and has its place.
#[derive(Debug, PartialEq, Eq, Hash, Drop)]
pub(crate) enum Key {
    Truth(u32),
    Atom(Row),
    Gate(u32),
}

/// An encoding in the making.
#[derive(Drop)]
pub(crate) struct Draft {
    clauses: Vec<Vec<i32>>,
    keys: IndexSet<Key>,
}

impl Model for Draft {
    ghost Value = { Encoding };

    ghost view = { λ d. record { clauses = lists d.clauses.items; senses = senses_in d.keys.keys } };

    ghost invariant = { λ d. AreNumbered d.keys.keys };
}

impl Draft {
    /// Nothing yet.
    pub(crate) fn new(alloc: Global) -> Draft
        ensures { result ≡ nothing }
    {
        Draft {
            clauses: Vec::new(alloc),
            keys: IndexSet::new(alloc),
        }
    }

    /// Adds a clause.
    pub(crate) fn add_clause(&mut self, clause: Vec<i32>) -> Result<(), AllocError>
        ensures { OnOk result (self.new ≡ with_clause clause.items self.old) }
    {
        self.clauses.push(clause)?;
        Ok(())
    }

    /// The variable with a meaning, which is added if there is none.
    pub(crate) fn numbered(&mut self, key: Key) -> Result<i32, AllocError>
        requires { sense_in key ≢ gate }
        ensures gives { Gives (numbered (sense_in key) self.old) result self.new }
        ensures short { IfOk result IsShort }
    {
        let (place, _added) = self.keys.insert_full(key)?;
        variable(place)
    }

    /// A new gate.
    pub(crate) fn new_gate(&mut self) -> Result<i32, AllocError>
        ensures gives { Gives (added gate self.old) result self.new }
        ensures short { IfOk result IsShort }
    {
        let number = self.keys.len();
        if number >= MOST_VARIABLES {
            return Err(AllocError);
        }
        let (place, _added) = self.keys.insert_full(Key::Gate(number as u32))?;
        variable(place)
    }

    /// The whole encoding. More than 2^28 variables count as out of memory.
    pub(crate) fn finish(self, alloc: Global, numbers: u32) -> Result<Encoded, AllocError>
        ensures encoding { IfOk result (λ encoded. encoding encoded ≡ self) }
        ensures numbers { IfOk result (λ encoded. encoded.numbers ≡ numbers) }
        ensures few { IfOk result (λ encoded. length (encoding encoded).senses ≤ 2 ^ 28) }
    {
        if self.keys.len() > MOST_VARIABLES {
            return Err(AllocError);
        }
        let mut meanings = Vec::new(alloc);
        for key in self.keys {
            meanings.push(meaning(key))?;
        }
        Ok(Encoded {
            clauses: self.clauses,
            meanings,
            numbers,
        })
    }
}

// As many propositional variables as there may be.
const MOST_VARIABLES: usize = 1 << 28;

// The literal of the variable at a place, from 0.
fn variable(place: usize) -> Result<i32, AllocError>
    ensures is { IfOk result (λ literal. literal ≡ pos (suc place)) }
    ensures short { IfOk result IsShort }
{
    if place < MOST_VARIABLES {
        Ok(place as i32 + 1)
    } else {
        Err(AllocError)
    }
}

// What the key stands for.
fn meaning(key: Key) -> Meaning
    ensures { sense_of result ≡ sense_in key }
{
    match key {
        Key::Truth(v) => Meaning::Truth(v),
        Key::Atom(row) => Meaning::Atom(row),
        Key::Gate(_) => Meaning::Gate,
    }
}
