//! Resolution: one step of how a clause is learned.
ghost use Rattle.std.specs.Prelude.{◌≡◌, ◌↔◌, ℤ, [], ◌∷◌, filter, IfOk};
ghost use Rattle.std.specs.List.{Contains};
ghost use Rattle.kat_clause.specs.Clauses.{Follows};
ghost use Rattle.kat_resolution.specs.Resolutions.{Ascends, Clashes, IsResolved, is_of_other};

use std::alloc::{AllocError, Global};

/// The resolvent of two clauses on a variable: the literals of both but the variable and its negative, ascending, each once.
///
/// If the first clause has the variable and the second its negative, and neither has both, the resolvent follows from the
/// two by unit propagation.
///
/// ```
/// assert!(resolve(alloc, &[1, 2], &[-2, 3], 2)?.as_slice() == [1, 3].as_slice());
/// ```
pub fn resolve(
    alloc: Global,
    first: &[i32],
    second: &[i32],
    var: i32,
) -> Result<Vec<i32>, AllocError>
    ensures ascends { IfOk result (λ r. Ascends r.items) }
    ensures literals { IfOk result (λ r. (k : ℤ) → Contains r.items k ↔ IsResolved first.now second.now var k) }
    ensures follows { IfOk result (λ r. Clashes first.now second.now var → Follows (first.now ∷ second.now ∷ []) r.items) }
{
    let mut literals = others(alloc, first, var)?;
    literals.extend_from_slice(&others(alloc, second, var)?)?;
    literals.sort_unstable();
    literals.dedup();
    Ok(literals)
}

// The literals of a clause that are of other variables.
fn others(alloc: Global, clause: &[i32], var: i32) -> Result<Vec<i32>, AllocError>
    ensures { IfOk result (λ r. r.items ≡ filter (is_of_other var) clause.now) }
{
    clause
        .iter()
        .copied()
        .filter(|k| k.unsigned_abs() != var.unsigned_abs())
        .collect(alloc)
}
