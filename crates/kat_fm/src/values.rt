//! Values of variables, as numerators over one denominator.
ghost use Rattle.std.specs.Prelude.{◌≡◌, ◌<◌, pos, map, set, IfOk, int_div};
ghost use Rattle.kat_fm.specs.Points.{valued, lowest};
ghost use Rattle.kat_fm.specs.EntryViews.{bound_in, values, values_in};

use crate::arithmetic::{LIMIT, Passed, greatest_divisor_of_all, product, quotient, scale};
use crate::bounds::Bound;
use std::alloc::{AllocError, Global};

/// Numerators over one denominator.
#[derive(Drop)]
pub struct Values {
    pub den: i128,
    pub nums: Vec<i128>,
}

/// The values with this bound as the variable's, in lowest terms, or the two numbers of the first product that passes [`LIMIT`]. The
/// bound is a numerator over its factor times the denominator of the old values.
pub fn with_value(
    alloc: Global,
    old: &Values,
    variable: usize,
    bound: Bound,
) -> Result<Result<Values, Passed>, AllocError>
    ensures { IfOk result (λ r. values r ≡ valued variable (values_in old.now) (bound_in bound)) }
{
    let mut nums = match scale(alloc, &old.nums, bound.factor)? {
        Ok(nums) => nums,
        Err(passed) => return Ok(Err(passed)),
    };
    let den = match product(LIMIT, old.den, bound.factor) {
        Ok(den) => den,
        Err(passed) => return Ok(Err(passed)),
    };
    put(&mut nums, variable, bound.numerator);
    Ok(Ok(in_lowest_terms(Values { den, nums })))
}

/// Writes a number at a place, if there is one.
fn put(nums: &mut Vec<i128>, place: usize, n: i128)
    ensures { nums.new.items ≡ set nums.old.items place n }
{
    if place < nums.len() {
        nums[place] = n;
    }
}

/// All numbers divided by their greatest common divisor.
fn in_lowest_terms(old: Values) -> Values
    ensures { values_in result ≡ lowest (values_in old) }
{
    let g = greatest_divisor_of_all(old.den.unsigned_abs(), &old.nums);
    if g <= 1 {
        return old;
    }
    let Values { den, mut nums } = old;
    divide_all(&mut nums, g);
    Values {
        den: quotient(den, g),
        nums,
    }
}

/// Divides all numbers by one above 1.
fn divide_all(nums: &mut Vec<i128>, g: u128)
    requires { 1 < g }
    ensures { nums.new.items ≡ map (λ n. int_div n (pos g)) nums.old.items }
{
    for n in nums.iter_mut() {
        *n = quotient(*n, g);
    }
}
