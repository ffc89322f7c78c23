//! Numbers that are weighed: two products and their sum.
ghost use Rattle.std.specs.Prelude.{◌≡◌, ◌^◌, ◌<◌, ◌≤◌, true, IfOk, unsigned_abs};
ghost use Rattle.kat_fm.specs.Limits.{weighed};
ghost use Rattle.kat_fm.specs.Limits.Checked.{fits};
ghost use Rattle.kat_fm.specs.EntryViews.{number};

use crate::arithmetic::{LIMIT, Passed, product, sum};

// The greatest absolute value of a product or a sum that is computed for a multiplier.
const MULTIPLIER_LIMIT: u128 = 1 << 62;

/// What a row with a positive coefficient and one with a negative one are multiplied by.
#[derive(Clone, Copy)]
pub struct Weights {
    pub plus: i128,
    pub minus: i128,
    /// Whether both are known to be small, so that most products and sums need no test.
    small: bool,
    ghost is_small: { small ≡ true → (unsigned_abs plus ≤ 2 ^ 31) × (unsigned_abs minus ≤ 2 ^ 31) },
}

impl Weights {
    /// Both weights.
    pub fn new(plus: i128, minus: i128) -> Weights
        ensures plus { result.plus ≡ plus }
        ensures minus { result.minus ≡ minus }
    {
        Weights {
            plus,
            minus,
            small: plus.unsigned_abs() <= SMALL && minus.unsigned_abs() <= SMALL,
        }
    }

    /// Whether both are known to be small.
    pub fn are_small(&self) -> bool
        ensures { result ≡ true → (unsigned_abs self.now.plus ≤ 2 ^ 31) × (unsigned_abs self.now.minus ≤ 2 ^ 31) }
    {
        self.small
    }
}

// The greatest absolute value of a small weight.
const SMALL: u128 = 1 << 31;

/// Two numbers, each times its weight: the products in turn, then their sum.
#[inline(always)]
pub fn weigh(weights: &Weights, p: i128, n: i128) -> Result<i128, Passed>
    ensures value { number result ≡ weighed (2 ^ 126) weights.now.plus p weights.now.minus n }
    ensures small { IfOk result (λ z. unsigned_abs z ≤ 2 ^ 126) }
{
    match (weights.small, i64::try_from(p), i64::try_from(n)) {
        (true, Ok(p), Ok(n)) => Ok(weigh_small(weights, p, n)),
        _ => weigh_wide(LIMIT, weights, p, n),
    }
}

// Two numbers of 64 bits, each times its weight.
#[inline(always)]
fn weigh_small(weights: &Weights, p: i64, n: i64) -> i128
    requires { weights.now.small ≡ true }
    ensures value { fits result ≡ weighed (2 ^ 126) weights.now.plus p weights.now.minus n }
    ensures small { unsigned_abs result ≤ 2 ^ 126 }
{
    let first = weights.plus as i64 as i128 * p as i128;
    let second = weights.minus as i64 as i128 * n as i128;
    first + second
}

// The same with each product and the sum tested.
fn weigh_wide(limit: u128, weights: &Weights, p: i128, n: i128) -> Result<i128, Passed>
    requires { limit ≤ 2 ^ 126 }
    ensures value { number result ≡ weighed limit weights.now.plus p weights.now.minus n }
    ensures small { IfOk result (λ z. unsigned_abs z ≤ limit) }
{
    let first = product(limit, weights.plus, p)?;
    let second = product(limit, weights.minus, n)?;
    sum(limit, first, second)
}

/// Two multipliers, each times its weight.
#[inline(always)]
pub fn weigh_multiplier(weights: &Weights, p: i64, n: i64) -> Result<i64, Passed>
    ensures value { number result ≡ weighed (2 ^ 62) weights.now.plus p weights.now.minus n }
    ensures small { IfOk result (λ z. unsigned_abs z ≤ 2 ^ 62) }
{
    if weights.small && is_low(p) && is_low(n) {
        return Ok(weigh_low(weights, p, n));
    }
    weigh_high(weights, p, n)
}

// The same with each product and the sum tested.
fn weigh_high(weights: &Weights, p: i64, n: i64) -> Result<i64, Passed>
    ensures value { number result ≡ weighed (2 ^ 62) weights.now.plus p weights.now.minus n }
    ensures small { IfOk result (λ z. unsigned_abs z ≤ 2 ^ 62) }
{
    let z = weigh_wide(MULTIPLIER_LIMIT, weights, i128::from(p), i128::from(n))?;
    Ok(z as i64)
}

// Whether small weights can't take the multiplier past its limit.
#[inline(always)]
pub(crate) fn is_low(n: i64) -> bool
    ensures { result ≡ true → unsigned_abs n ≤ 2 ^ 30 }
{
    -LOW <= n && n <= LOW
}

// The greatest absolute value of a low multiplier.
const LOW: i64 = 1 << 30;

// Two low multipliers, each times its weight.
#[inline(always)]
fn weigh_low(weights: &Weights, p: i64, n: i64) -> i64
    requires small { weights.now.small ≡ true }
    requires low { (unsigned_abs p ≤ 2 ^ 30) × (unsigned_abs n ≤ 2 ^ 30) }
    ensures value { fits result ≡ weighed (2 ^ 62) weights.now.plus p weights.now.minus n }
    ensures small { unsigned_abs result ≤ 2 ^ 62 }
{
    let first = weights.plus as i64 * p;
    let second = weights.minus as i64 * n;
    first + second
}
