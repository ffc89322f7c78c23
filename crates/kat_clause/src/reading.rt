//! Reads hints one after the other, and keeps the literals that they gave.
ghost use Rattle.std.specs.Prelude.{◌≡◌, ℕ, ◌+◌, ◌*◌, ◌<◌, ◌≤◌, ◌^◌, ℤ, List, [], ◌++◌, length, IfOk, OnOk};
ghost use Rattle.std.specs.List.{Contains};
ghost use Rattle.kat_clause.specs.Clauses.{SameMembers, opposites};
ghost use Rattle.kat_clause.specs.Known.{AreUpTo};
ghost use Rattle.kat_clause.specs.Tables.{IsBelow};
ghost use Rattle.kat_clause.specs.Propagations.{IsSet};
ghost use Rattle.kat_clause.specs.Readings.{Given, Reads, IsReading};

use crate::known::MOST_VARIABLES;
use crate::literals::opposite;
use crate::opens::{Open, open_of};
use crate::propagation::Propagation;
use std::alloc::{AllocError, Global};
use std::marker::Model;

/// What the clause of a hint is to the literals that are known.
#[derive(Debug, Clone, Copy, PartialEq, Eq)]
pub enum HintStep {
    /// The opposites of all its literals are known.
    Falsified,
    /// The opposites of all its literals but one are known: that one is known from now on.
    Gives,
    /// Two literals are open, or more.
    Useless,
}

/// The literals that hints have given so far. Contracts see the greatest variable and the literals.
///
/// ```
/// let mut reader = HintReader::new(alloc, 2)?;
/// reader.deny(&[2])?;
/// assert_eq!(reader.read(&[1, 2])?, HintStep::Gives);
/// assert_eq!(reader.read(&[-1, 2])?, HintStep::Falsified);
/// ```
pub struct HintReader {
    greatest: u32,
    set: Propagation,
}

impl Drop for HintReader {
    fn drop(self) {
        let Self {
            greatest: _,
            set: _,
        } = self;
    }
}

impl Model for HintReader {
    ghost Value = { Given };

    ghost view = { λ r. record { greatest = r.greatest; known = r.set.trail.items } };

    ghost invariant = { λ r. IsReading r.greatest r.set };
}

impl HintReader {
    /// No literals, over the variables up to the greatest. More than 2^28 variables are answered as out of memory.
    pub fn new(alloc: Global, greatest: u32) -> Result<HintReader, AllocError>
        ensures { IfOk result (λ reader. reader ≡ record { greatest = greatest; known = [] }) }
    {
        if greatest > MOST_VARIABLES {
            return Err(AllocError);
        }
        let size = 2 * greatest as usize + 2;
        let set = Propagation::new(alloc, size)?;
        Ok(HintReader { greatest, set })
    }

    /// The opposites of the line's literals are known from now on.
    pub fn deny(&mut self, line: &[i32]) -> Result<(), AllocError>
        requires { AreUpTo self.old.greatest line.now }
        ensures ok { OnOk result (SameMembers self.new.known (self.old.known ++ opposites line.now)) }
        ensures greatest { self.new.greatest ≡ self.old.greatest }
    {
        deny_all(&mut self.set, line)
    }

    /// Reads the clause of a hint.
    pub fn read(&mut self, clause: &[i32]) -> Result<HintStep, AllocError>
        requires { AreUpTo self.old.greatest clause.now }
        ensures step { IfOk result (Reads clause.now self.old.known self.new.known) }
        ensures greatest { self.new.greatest ≡ self.old.greatest }
    {
        read_clause(&mut self.set, clause)
    }

    /// Forgets all literals.
    pub fn clear(&mut self)
        ensures { self.new ≡ record self.old { known = [] } }
    {
        self.set.leave(0);
    }
}

// Puts the opposites of the line's literals into the set.
fn deny_all(set: &mut Propagation, line: &[i32]) -> Result<(), AllocError>
    requires set { IsSet set.old }
    requires below { (k : ℤ) → Contains line.now k → IsBelow (length set.old.marks.items) k }
    requires limit { length set.old.marks.items ≤ 2 ^ 30 }
    ensures set { IsSet set.new }
    ensures size { length set.new.marks.items ≡ length set.old.marks.items }
    ensures ok { OnOk result (SameMembers set.new.trail.items (set.old.trail.items ++ opposites line.now)) }
{
    for literal in line {
        set.enter(opposite(*literal))?;
    }
    Ok(())
}

// Reads a clause: its one open literal enters.
fn read_clause(set: &mut Propagation, clause: &[i32]) -> Result<HintStep, AllocError>
    requires set { IsSet set.old }
    requires below { (k : ℤ) → Contains clause.now k → IsBelow (length set.old.marks.items) k }
    ensures set { IsSet set.new }
    ensures size { length set.new.marks.items ≡ length set.old.marks.items }
    ensures step { IfOk result (Reads clause.now set.old.trail.items set.new.trail.items) }
{
    match open_of(clause, &set.marks) {
        Open::Nothing => Ok(HintStep::Falsified),
        Open::One(first) => {
            set.enter(clause[first])?;
            Ok(HintStep::Gives)
        }
        Open::Several => Ok(HintStep::Useless),
    }
}
