//! What is open of a clause: the literals whose opposites aren't marked.
ghost use Rattle.std.specs.Prelude.{◌≢◌, ℕ, ◌<◌, ◌↔◌, ℤ, pos, neg_ℤ, length, MatchOption, IsTrue, slice_index_or};
ghost use Rattle.std.specs.List.{Contains};
ghost use Rattle.kat_clause.specs.Literals.{code_of};
ghost use Rattle.kat_clause.specs.Tables.{IsBelow, IsMarked};
ghost use Rattle.kat_clause.specs.Opens.{Opens};

use crate::literals::opposite_code;

/// How many different literals of a clause are open.
#[derive(Clone, Copy)]
pub enum Open {
    Nothing,
    /// One, by its place.
    One(usize),
    Several,
}

/// What is open of a clause: nothing, one literal, however often it occurs, or several. There must be marks for its
/// literals and their opposites.
pub fn open_of(clause: &[i32], marks: &[bool]) -> Open
    requires { (k : ℤ) → Contains clause.now k → IsBelow (length marks.now) k }
    ensures { Opens clause.now marks.now result }
{
    let Some(first) = first_open(clause, marks) else {
        return Open::Nothing;
    };
    if !is_only_open(clause, marks, first) {
        return Open::Several;
    }
    Open::One(first)
}

/// The place of the clause's first literal whose opposite isn't marked; none if all opposites are.
pub fn first_open(clause: &[i32], marks: &[bool]) -> Option<usize>
    requires { (k : ℤ) → Contains clause.now k → IsBelow (length marks.now) k }
    ensures { MatchOption result
        ((j : ℕ) → j < length clause.now → IsMarked marks.now (code_of (neg_ℤ (slice_index_or clause.now j (pos 0)))))
        (λ i. (i < length clause.now)
        × (IsMarked marks.now (code_of (neg_ℤ (slice_index_or clause.now i (pos 0)))) → ⊥)
        × ((j : ℕ) → j < i → IsMarked marks.now (code_of (neg_ℤ (slice_index_or clause.now j (pos 0)))))) }
{
    for (i, literal) in clause.iter().enumerate() {
        if !marks[opposite_code(*literal)] {
            return Some(i);
        }
    }
    None
}

/// Whether the opposites of all literals after a place are marked, except for the literal that is there.
pub fn is_only_open(clause: &[i32], marks: &[bool], first: usize) -> bool
    requires below { (k : ℤ) → Contains clause.now k → IsBelow (length marks.now) k }
    requires first { first < length clause.now }
    ensures { IsTrue result ↔
        ((j : ℕ) → first < j → j < length clause.now →
        slice_index_or clause.now j (pos 0) ≢ slice_index_or clause.now first (pos 0) →
        IsMarked marks.now (code_of (neg_ℤ (slice_index_or clause.now j (pos 0))))) }
{
    let open = clause[first];
    for i in first + 1..clause.len() {
        let literal = clause[i];
        if literal != open && !marks[opposite_code(literal)] {
            return false;
        }
    }
    true
}
