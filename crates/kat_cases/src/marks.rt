//! What marked literals say of clauses and variables.
ghost use Rattle.std.specs.Prelude.{◌≡◌, ◌<◌, ◌≤◌, ◌^◌, unsigned_abs, length, Option, Some, None, if◌then◌else◌};
ghost use Rattle.std.specs.List.{All};
ghost use Rattle.kat_clause.specs.Clauses.{lists};
ghost use Rattle.kat_clause.specs.Literals.{has_of};
ghost use Rattle.kat_form.specs.Encodings.{senses_of};
ghost use Rattle.kat_cases.specs.Nodes.{is_unmet, first_open, last_unmet, lowest_open};

use kat_form::Meaning;
use kat_resolution::{has, is_denied, is_known, variable_at};

// Whether no literal of the clause is marked.
fn is_unmet_by(marks: &[bool], clause: &[i32]) -> bool
    ensures { result ≡ is_unmet (has_of marks.now) clause.now }
{
    clause.iter().all(|k| !has(marks, *k))
}

// The first literal of the clause whose opposite isn't marked.
fn first(marks: &[bool], clause: &[i32]) -> Option<i32>
    requires { All (λ k. unsigned_abs k ≤ 2 ^ 28) clause.now }
    ensures { result ≡ first_open (has_of marks.now) clause.now }
{
    for k in clause {
        if !is_denied(marks, *k) {
            return Some(*k);
        }
    }
    None
}

// The first open literal of the clause, if none of its literals is marked.
fn chosen(marks: &[bool], clause: &[i32]) -> Option<i32>
    requires { All (λ k. unsigned_abs k ≤ 2 ^ 28) clause.now }
    ensures { result ≡ (if is_unmet (has_of marks.now) clause.now then first_open (has_of marks.now) clause.now else None) }
{
    if is_unmet_by(marks, clause) {
        return first(marks, clause);
    }
    None
}

/// The first open literal of the last clause that has none marked.
pub(crate) fn choose(marks: &[bool], clauses: &[Vec<i32>]) -> Option<i32>
    requires { All (λ c. All (λ k. unsigned_abs k ≤ 2 ^ 28) c.items) clauses.now }
    ensures { result ≡ last_unmet (has_of marks.now) (lists clauses.now) }
{
    let mut i = clauses.len();
    'back: while i > 0 {
        i -= 1;
        if let Some(literal) = chosen(marks, &clauses[i]) {
            return Some(literal);
        }
    }
    None
}

/// The lowest variable neither of whose literals is marked.
pub(crate) fn lowest(marks: &[bool], meanings: &[Meaning]) -> Option<i32>
    requires { length meanings.now ≤ 2 ^ 28 }
    ensures { result ≡ lowest_open (has_of marks.now) 1 (senses_of meanings.now) }
{
    for i in 0..meanings.len() {
        if !is_known(marks, i) {
            return Some(variable_at(i));
        }
    }
    None
}
