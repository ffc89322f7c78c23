//! Bounds of a variable, as fractions.
ghost use Rattle.std.specs.Prelude.{◌≡◌, ◌<◌, int_lt, if◌then◌else◌};
ghost use Rattle.kat_fm.specs.Points.{better_bound};
ghost use Rattle.kat_fm.specs.EntryViews.{bound, bound_in};

use crate::arithmetic::{LIMIT, Passed, product};

/// A bound: a numerator over the factor times the denominator.
#[derive(Clone, Copy)]
pub struct Bound {
    pub numerator: i128,
    pub factor: i128,
}

/// The new bound if it is better than the kept one: greater, of lower bounds, or less, of upper bounds. Otherwise the kept one; or the two
/// numbers of the first product that passes [`LIMIT`].
pub fn better_of(lower: bool, new: Bound, kept: Bound) -> Result<Bound, Passed>
    ensures { bound result ≡ better_bound lower (bound_in new) (bound_in kept) }
{
    let left = product(LIMIT, new.numerator, kept.factor)?;
    let right = product(LIMIT, kept.numerator, new.factor)?;
    if is_better(lower, left, right) {
        Ok(new)
    } else {
        Ok(kept)
    }
}

/// Whether a bound is better than another, by their numbers over one factor.
fn is_better(lower: bool, left: i128, right: i128) -> bool
    ensures { result ≡ (if lower then int_lt right left else int_lt left right) }
{
    if lower { right < left } else { left < right }
}
