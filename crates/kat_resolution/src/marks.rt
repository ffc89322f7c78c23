//! Which literals and variables are marked.
ghost use Rattle.std.specs.Prelude.{◌≡◌, ◌+◌, ◌<◌, ◌≤◌, ◌^◌, pos, neg_ℤ, unsigned_abs, ◌||◌};
ghost use Rattle.kat_clause.specs.Literals.{has_of};

use kat_clause::code;

/// The opposite literal.
pub fn opposite(literal: i32) -> i32
    requires { unsigned_abs literal ≤ 2 ^ 28 }
    ensures { result ≡ neg_ℤ literal }
{
    -literal
}

/// Whether the literal is marked. Marks are by the literals' codes.
pub fn has(marks: &[bool], literal: i32) -> bool
    ensures { result ≡ has_of marks.now literal }
{
    let place = code(literal);
    place < marks.len() && marks[place]
}

/// Whether the literal's opposite is marked.
pub fn is_denied(marks: &[bool], literal: i32) -> bool
    requires { unsigned_abs literal ≤ 2 ^ 28 }
    ensures { result ≡ has_of marks.now (neg_ℤ literal) }
{
    has(marks, -literal)
}

/// The literal of the variable at a place, which is its number less one.
pub fn variable_at(place: usize) -> i32
    requires { place < 2 ^ 28 }
    ensures { result ≡ pos (place + 1) }
{
    place as i32 + 1
}

/// Whether a literal of the variable at a place is marked.
pub fn is_known(marks: &[bool], place: usize) -> bool
    requires { place < 2 ^ 28 }
    ensures { result ≡ (has_of marks.now (pos (place + 1)) || has_of marks.now (neg_ℤ (pos (place + 1)))) }
{
    let variable = variable_at(place);
    has(marks, variable) || has(marks, opposite(variable))
}
