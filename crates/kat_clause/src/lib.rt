//! Clauses, and what follows from them by unit propagation.
//!
//! A literal is a variable's number or the negative of one, and a clause is read as the set of its literals. A
//! literal's code is its place in a table that has one for each literal; what is known of a literal is kept there.
#![tactic(auto)]

ghost use Rattle.std.specs.Prelude.{◌≡◌, ℕ, ◌≤◌, List, [], ◌++◌, IfOk, IsTrue, ◌↔◌, length};
ghost use Rattle.std.specs.List.{All, Contains};
ghost use Rattle.kat_clause.specs.Clauses.{Follows, lists};
ghost use Rattle.kat_clause.specs.Known.{AreUpTo};
ghost use Rattle.kat_clause.specs.Laws.{DerivedIsLeast, FollowingIsSound, FollowsSets, FollowsMore, DerivedMore};
ghost use Rattle.kat_clause.specs.Hints.{AreNumbers, IsHinted, numbered};
ghost use Rattle.kat_clause.specs.HintLaws.{HintedFollows, HintsAreHinted, UnfollowedHasNone};

mod finding;
mod hinter;
mod index;
mod known;
mod literals;
mod marks;
mod opens;
mod propagation;
mod queue;
mod reading;

pub use hinter::Hinter;
pub use known::Clauses;
pub use literals::code;
pub use reading::{HintReader, HintStep};
use std::alloc::{AllocError, Global};

/// Whether a line follows from clauses by reverse unit propagation (Goldberg and Novikov 2003): unit propagation with
/// every literal of the line false meets a falsified clause. The line is then true wherever the clauses are.
///
/// A literal is a variable's number or the negative of one. To check many lines against the same clauses, keep them in
/// a [`Clauses`]. More than 2^28 variables are answered as out of memory.
pub fn rup(alloc: Global, clauses: &[Vec<i32>], line: &[i32]) -> Result<bool, AllocError>
    ensures { IfOk result (λ follows. IsTrue follows ↔ Follows (lists clauses.now) line.now) }
{
    let mut known = Clauses::new(alloc, greatest_of(clauses, line))?;
    for clause in clauses {
        known.add(alloc, clause)?;
    }
    known.follows(line)
}

/// Whether the hints show that the line follows. A hint is the number of a clause, from 1: the clause of each but the last has
/// just one literal whose opposite isn't known, which is known from then on, and the last one's clause has none; the
/// opposites of the line's literals are known at first.
///
/// It looks at the clauses that are named alone. More than 2^28 variables are answered as out of memory.
pub fn hinted(
    alloc: Global,
    clauses: &[Vec<i32>],
    line: &[i32],
    hints: &[u32],
) -> Result<bool, AllocError>
    requires { AreNumbers (length clauses.now) hints.now }
    ensures { IfOk result (λ hinted. IsTrue hinted ↔ IsHinted (lists clauses.now) line.now hints.now) }
{
    let greatest = greatest_named(clauses, line, hints);
    let mut reader = HintReader::new(alloc, greatest)?;
    reader.deny(line)?;
    for (i, hint) in hints.iter().enumerate() {
        let clause = &clauses[*hint as usize - 1];
        match reader.read(clause)? {
            HintStep::Falsified => return Ok(i + 1 == hints.len()),
            HintStep::Gives => {}
            HintStep::Useless => return Ok(false),
        }
    }
    Ok(false)
}

/// A law: the derived literals are the least set that has the opposites of the line's literals and is closed under
/// unit propagation.
pub fn derived_is_least()
    ensures { DerivedIsLeast }
{}

/// A law: a line that follows is true under every valuation that makes the clauses true. No literal is 0.
pub fn following_is_sound()
    ensures { FollowingIsSound }
{}

/// Laws: what follows depends on the sets of literals alone, of the clauses and of the line, and not on the clauses'
/// order; and what follows from clauses follows from more of them, and so does a line with more literals; so it is with
/// the derived literals.
pub fn following_is_of_sets()
    ensures sets { FollowsSets }
    ensures more { FollowsMore }
    ensures derived { DerivedMore }
{}

/// Laws: a line with hints follows; and the hints that are found for a line show that it follows, and are none if it
/// doesn't.
pub fn hints_are_hinted()
    ensures follows { HintedFollows }
    ensures hinted { HintsAreHinted }
    ensures none { UnfollowedHasNone }
{}

// The greatest variable of the clauses and the line.
fn greatest_of(clauses: &[Vec<i32>], line: &[i32]) -> u32
    ensures line { AreUpTo result line.now }
    ensures clauses { All (AreUpTo result) (lists clauses.now) }
{
    let mut greatest = greatest_in(line, 0);
    for clause in clauses {
        greatest = greatest_in(clause, greatest);
    }
    greatest
}

// The greatest variable of the line and of the clauses that are named.
fn greatest_named(clauses: &[Vec<i32>], line: &[i32], hints: &[u32]) -> u32
    requires { AreNumbers (length clauses.now) hints.now }
    ensures line { AreUpTo result line.now }
    ensures clauses { All (λ hint. AreUpTo result (numbered (lists clauses.now) hint)) hints.now }
{
    let mut greatest = greatest_in(line, 0);
    for hint in hints {
        greatest = greatest_in(&clauses[*hint as usize - 1], greatest);
    }
    greatest
}

// The greater of a number and the clause's greatest variable.
fn greatest_in(clause: &[i32], least: u32) -> u32
    ensures at_least { least ≤ result }
    ensures up_to { AreUpTo result clause.now }
{
    let mut greatest = least;
    for literal in clause {
        greatest = greatest.max(literal.unsigned_abs());
    }
    greatest
}
