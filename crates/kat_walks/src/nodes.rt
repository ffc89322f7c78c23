//! How a node of the walk is judged.
ghost use Rattle.std.specs.Prelude.{◌≡◌, ◌≤◌, ◌^◌, IfOk, length, unsigned_abs, vec_len};
ghost use Rattle.std.specs.List.{All};
ghost use Rattle.kat_linear.specs.Rows.{IsAscending, forms};
ghost use Rattle.kat_linear.specs.Widths.{widths};
ghost use Rattle.kat_clause.specs.Literals.{has_of};
ghost use Rattle.kat_form.specs.Encodings.{IsFit, encoding};
ghost use Rattle.kat_walks.specs.Stands.{HasLiteral, IsNodeAt, StandsAt, judgement_of};
ghost use Rattle.kat_walks.specs.Walkable.{IsWalkable};
ghost use Rattle.kat_walks.specs.Walks.{by_open, by_widths, first_unset, last_bare, opened};

use crate::bounds::{Bounds, blame, held_bounds};
use crate::marks::{choose, lowest};
use crate::walking::{Judged, WalkEnd};
use kat_clause::Clauses;
use kat_fm::{Solved, solve};
use kat_form::Encoded;
use kat_linear::wide_numbers;
use std::alloc::{AllocError, Global};

/// Judges the node of the assumed path.
pub(crate) fn judge(
    alloc: Global,
    encoded: &Encoded,
    known: &mut Clauses,
    path: &[i32],
) -> Result<Judged, AllocError>
    requires { StandsAt (encoding encoded.now) encoded.now.numbers known.old path.now }
    ensures node { IfOk result (λ j. IsNodeAt (encoding encoded.now) encoded.now.numbers path.now (judgement_of j)) }
    ensures literal { IfOk result (λ j. HasLiteral (length (encoding encoded.now).senses) j) }
    ensures stands { IfOk result (λ j. StandsAt (encoding encoded.now) encoded.now.numbers known.new path.now) }
{
    let _path = path.len();
    if known.propagate()? {
        return Ok(Judged::Closes(None));
    }
    judge_open(alloc, encoded, known.marks())
}

/// Judges a node that isn't closed, with these literals in force.
fn judge_open(alloc: Global, encoded: &Encoded, marks: &[bool]) -> Result<Judged, AllocError>
    requires walkable { IsWalkable encoded.now.numbers (encoding encoded.now) }
    requires variables { vec_len encoded.now.meanings ≤ 2 ^ 28 }
    ensures { IfOk result (λ j. judgement_of j ≡ opened (encoding encoded.now) encoded.now.numbers (has_of marks.now)) }
{
    let held = held_bounds(alloc, &encoded.meanings, marks)?;
    match solve(alloc, &held.rows, encoded.numbers)? {
        Solved::Point { .. } => Ok(judge_point(encoded, marks)),
        Solved::Multipliers(multipliers) => judge_line(alloc, held, &multipliers),
        Solved::Rows { plus, minus, rest } => Ok(Judged::Stops(WalkEnd::TooMany {
            lits: held.literals,
            plus,
            minus,
            rest,
        })),
        Solved::Wide { left, right } => Ok(Judged::Stops(WalkEnd::TooWide {
            lits: held.literals,
            left,
            right,
        })),
    }
}

/// Judges a node whose rows have a solution: a split, or the walk ends at a point.
fn judge_point(encoded: &Encoded, marks: &[bool]) -> Judged
    requires fit { IsFit (encoding encoded.now) }
    requires variables { vec_len encoded.now.meanings ≤ 2 ^ 28 }
    ensures { judgement_of result ≡ by_open (last_bare (has_of marks.now) (encoding encoded.now).clauses)
        (first_unset (has_of marks.now) 1 (encoding encoded.now).senses) }
{
    let Some(variable) = lowest(marks, &encoded.meanings) else {
        return Judged::Stops(WalkEnd::MetPoint);
    };
    match choose(marks, &encoded.clauses) {
        Some(literal) => Judged::Branches(literal),
        None => Judged::Branches(variable),
    }
}

/// Judges a node whose rows contradict each other: a leaf, unless the multipliers go wide.
fn judge_line(alloc: Global, held: Bounds, multipliers: &[i64]) -> Result<Judged, AllocError>
    requires sizes { length held.literals.items ≡ length multipliers.now }
    requires rows { length (forms held.rows.items) ≡ length multipliers.now }
    requires ascending { All IsAscending (forms held.rows.items) }
    requires small { All (λ k. unsigned_abs k ≤ 2 ^ 28) held.literals.items }
    ensures { IfOk result (λ j. judgement_of j ≡ by_widths held.literals.items multipliers.now
        (widths (forms held.rows.items) multipliers.now)) }
{
    match wide_numbers(&held.rows, multipliers) {
        Some((left, right)) => Ok(Judged::Stops(WalkEnd::TooWide {
            lits: held.literals,
            left,
            right,
        })),
        None => Ok(Judged::Closes(Some(blame(alloc, &held.literals, multipliers)?))),
    }
}
