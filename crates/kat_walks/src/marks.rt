//! What marked literals say of clauses and variables.
ghost use Rattle.std.specs.Prelude.{◌≡◌, ℕ, ◌+◌, ◌<◌, ◌≤◌, ◌^◌, ◌↔◌, ℤ, pos, neg_ℤ, unsigned_abs, List, length, map, IsTrue, Option, Some, None, if◌then◌else◌, ◌||◌};
ghost use Rattle.std.specs.List.{Contains, All};
ghost use Rattle.kat_clause.specs.Clauses.{lists};
ghost use Rattle.kat_clause.specs.Literals.{has_of};
ghost use Rattle.kat_form.specs.Encodings.{senses_of};
ghost use Rattle.kat_walks.specs.Walks.{is_bare, first_free, last_bare, first_unset};

use kat_clause::code;
use kat_form::Meaning;

/// The opposite literal.
pub(crate) fn opposite(literal: i32) -> i32
    requires { unsigned_abs literal ≤ 2 ^ 28 }
    ensures { result ≡ neg_ℤ literal }
{
    -literal
}

/// Whether the literal is marked.
pub(crate) fn has(marks: &[bool], literal: i32) -> bool
    ensures { result ≡ has_of marks.now literal }
{
    let place = code(literal);
    place < marks.len() && marks[place]
}

// Whether the literal's opposite is marked.
fn is_denied(marks: &[bool], literal: i32) -> bool
    requires { unsigned_abs literal ≤ 2 ^ 28 }
    ensures { result ≡ has_of marks.now (neg_ℤ literal) }
{
    has(marks, -literal)
}

// Whether no literal of the clause is marked.
fn is_bare_by(marks: &[bool], clause: &[i32]) -> bool
    ensures { result ≡ is_bare (has_of marks.now) clause.now }
{
    clause.iter().all(|k| !has(marks, *k))
}

// The first literal of the clause whose opposite isn't marked.
fn first(marks: &[bool], clause: &[i32]) -> Option<i32>
    requires { All (λ k. unsigned_abs k ≤ 2 ^ 28) clause.now }
    ensures { result ≡ first_free (has_of marks.now) clause.now }
{
    for k in clause {
        if !is_denied(marks, *k) {
            return Some(*k);
        }
    }
    None
}

// The first open literal of the clause, if none of its literals is marked.
fn chosen(marks: &[bool], clause: &[i32]) -> Option<i32>
    requires { All (λ k. unsigned_abs k ≤ 2 ^ 28) clause.now }
    ensures { result ≡ (if is_bare (has_of marks.now) clause.now then first_free (has_of marks.now) clause.now else None) }
{
    if is_bare_by(marks, clause) {
        return first(marks, clause);
    }
    None
}

/// The first open literal of the last clause that has none marked.
pub(crate) fn choose(marks: &[bool], clauses: &[Vec<i32>]) -> Option<i32>
    requires { All (λ c. All (λ k. unsigned_abs k ≤ 2 ^ 28) c.items) clauses.now }
    ensures { result ≡ last_bare (has_of marks.now) (lists clauses.now) }
{
    let mut i = clauses.len();
    'back: while i > 0 {
        i -= 1;
        if let Some(literal) = chosen(marks, &clauses[i]) {
            return Some(literal);
        }
    }
    None
}

/// The literal of the variable at a place, which is its number less one.
pub(crate) fn variable_at(place: usize) -> i32
    requires { place < 2 ^ 28 }
    ensures { result ≡ pos (place + 1) }
{
    place as i32 + 1
}

// Whether a literal of the variable at a place is marked.
fn is_known(marks: &[bool], place: usize) -> bool
    requires { place < 2 ^ 28 }
    ensures { result ≡ (has_of marks.now (pos (place + 1)) || has_of marks.now (neg_ℤ (pos (place + 1)))) }
{
    let variable = variable_at(place);
    has(marks, variable) || has(marks, opposite(variable))
}

/// The lowest variable neither of whose literals is marked.
pub(crate) fn lowest(marks: &[bool], meanings: &[Meaning]) -> Option<i32>
    requires { length meanings.now ≤ 2 ^ 28 }
    ensures { result ≡ first_unset (has_of marks.now) 1 (senses_of meanings.now) }
{
    for i in 0..meanings.len() {
        if !is_known(marks, i) {
            return Some(variable_at(i));
        }
    }
    None
}
