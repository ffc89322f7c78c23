//! Opposite literals, and their places in a table.
ghost use Rattle.std.specs.Prelude.{◌≡◌, ◌<◌, ◌^◌, neg_ℤ, unsigned_abs};
ghost use Rattle.kat_clause.specs.Literals.{code_of};

/// The literal's opposite.
pub(crate) fn opposite(literal: i32) -> i32
    requires { unsigned_abs literal < 2 ^ 31 }
    ensures { result ≡ neg_ℤ literal }
{
    -literal
}

/// The place of the literal's opposite in a table that has one for each literal.
pub(crate) fn opposite_code(literal: i32) -> usize
    ensures { result ≡ code_of (neg_ℤ literal) }
{
    let variable = literal.unsigned_abs() as usize;
    if literal > 0 {
        2 * variable + 1
    } else {
        2 * variable
    }
}
