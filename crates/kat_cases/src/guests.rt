//! A clause that is only looked at, under marks.
ghost use Rattle.std.specs.Prelude.{◌≡◌, ◌≢◌, ◌≤◌, ◌^◌, ℤ, neg_ℤ, unsigned_abs, true, false, Option, MatchOption};
ghost use Rattle.std.specs.List.{All, Contains};
ghost use Rattle.kat_clause.specs.Literals.{has_of};
ghost use Rattle.kat_cases.specs.Guests.{LooksAt};

use kat_resolution::{has, is_denied};

/// What a clause is under marked literals: all of its literals are denied; one of them is marked, or two aren't denied; or one
/// isn't denied, nor marked, and all others are.
pub(crate) enum Guest {
    Falsified,
    Idle,
    Unit(i32),
}

/// What a clause is under marked literals.
pub(crate) fn look_at(marks: &[bool], clause: &[i32]) -> Guest
    requires { All (λ k. unsigned_abs k ≤ 2 ^ 28) clause.now }
    ensures { LooksAt (has_of marks.now) clause.now result }
{
    let Some(open) = undenied(marks, clause) else {
        return Guest::Falsified;
    };
    if has(marks, open) {
        return Guest::Idle;
    }
    match other_undenied(marks, clause, open) {
        Some(_) => Guest::Idle,
        None => Guest::Unit(open),
    }
}

/// A literal that isn't denied.
fn undenied(marks: &[bool], clause: &[i32]) -> Option<i32>
    requires { All (λ k. unsigned_abs k ≤ 2 ^ 28) clause.now }
    ensures { MatchOption result
        ((k : ℤ) → Contains clause.now k → has_of marks.now (neg_ℤ k) ≡ true)
        (λ k. Contains clause.now k × (has_of marks.now (neg_ℤ k) ≡ false)) }
{
    for literal in clause {
        if !is_denied(marks, *literal) {
            return Some(*literal);
        }
    }
    None
}

/// A literal that isn't denied, other than this one.
fn other_undenied(marks: &[bool], clause: &[i32], one: i32) -> Option<i32>
    requires { All (λ k. unsigned_abs k ≤ 2 ^ 28) clause.now }
    ensures { MatchOption result
        ((k : ℤ) → Contains clause.now k → k ≢ one → has_of marks.now (neg_ℤ k) ≡ true)
        (λ k. Contains clause.now k × (k ≢ one) × (has_of marks.now (neg_ℤ k) ≡ false)) }
{
    for literal in clause {
        if *literal != one && !is_denied(marks, *literal) {
            return Some(*literal);
        }
    }
    None
}
