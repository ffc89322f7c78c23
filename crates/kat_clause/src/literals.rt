//! Literals as places in a table.
ghost use Rattle.std.specs.Prelude.{◌≡◌, ◌<◌, ◌^◌, neg_ℤ, unsigned_abs};
ghost use Rattle.kat_clause.specs.Literals.{code_of};

/// The literal's place in a table that has one for each literal: 2 v for the variable v, 2 v + 1 for its negative.
pub fn code(literal: i32) -> usize
    ensures { result ≡ code_of literal }
{
    let variable = literal.unsigned_abs() as usize;
    if literal < 0 {
        2 * variable + 1
    } else {
        2 * variable
    }
}

/// The place of the literal's opposite.
pub fn opposite_code(literal: i32) -> usize
    ensures { result ≡ code_of (neg_ℤ literal) }
{
    let variable = literal.unsigned_abs() as usize;
    if literal > 0 {
        2 * variable + 1
    } else {
        2 * variable
    }
}

/// The literal's opposite. Each has one but the least number of 32 bits, which no call may have.
pub fn opposite(literal: i32) -> i32
    requires { unsigned_abs literal < 2 ^ 31 }
    ensures { result ≡ neg_ℤ literal }
{
    -literal
}
