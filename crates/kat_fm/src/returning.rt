//! Going back: the values of the variables, the one that was taken last first.
ghost use Rattle.std.specs.Prelude.{◌≡◌, ◌<◌, ◌≤◌, ◌^◌, IfOk, unsigned_abs, if◌then◌else◌};
ghost use Rattle.kat_fm.specs.Limits.{and_then};
ghost use Rattle.kat_fm.specs.Points.{sum_at, bound_at, better_bound, best_of, bound_of, point_of};
ghost use Rattle.kat_fm.specs.Eliminations.{answer_point};
ghost use Rattle.kat_fm.specs.Answers.{solution_of};
ghost use Rattle.kat_fm.specs.EntryViews.{number, combination_in, bound, bound_in, values, values_in};
ghost use Rattle.kat_fm.specs.Views.{combinations, stack_of};

use crate::answer::Solved;
use crate::arithmetic::{LIMIT, Passed, product, sum};
use crate::bounds::{Bound, better_of};
use crate::numbers::dot;
use crate::values::{Values, with_value};
use crate::working::Combination;
use std::alloc::{AllocError, Global};

/// A variable that was taken, with the rows that had it.
pub struct Taken {
    pub variable: usize,
    pub minus: Vec<Combination>,
    pub plus: Vec<Combination>,
}

impl Drop for Taken {
    fn drop(self) {
        let Self {
            variable: _,
            minus: _,
            plus: _,
        } = self;
    }
}

#[tactic(auto, using(crate::proofs::Stacks::stacked))]
/// The point that the rows of the variables taken give, or the first numbers that pass a limit on the way.
pub fn point(alloc: Global, vars: u32, mut taken: Vec<Taken>) -> Result<Solved, AllocError>
    ensures { IfOk result (λ s. solution_of s ≡ answer_point (point_of vars (stack_of taken.items))) }
{
    let mut values = Values {
        den: 1,
        nums: vec![in alloc; 0; vars as usize]?,
    };
    while let Some(rows) = taken.pop() {
        let bound = match bound_of(&values, &rows) {
            Ok(bound) => bound,
            Err(passed) => return Ok(Solved::wide(passed)),
        };
        values = match with_value(alloc, &values, rows.variable, bound)? {
            Ok(values) => values,
            Err(passed) => return Ok(Solved::wide(passed)),
        };
    }
    Ok(Solved::Point {
        den: values.den,
        nums: values.nums,
    })
}

/// The greatest lower bound of a variable, or, if there is none, the least upper bound.
fn bound_of(values: &Values, rows: &Taken) -> Result<Bound, Passed>
    ensures { bound result ≡ bound_of rows.now.variable (values_in values.now) (combinations rows.now.minus.items)
        (combinations rows.now.plus.items) }
{
    if rows.minus.is_empty() {
        best_of(false, rows.variable, values, &rows.plus)
    } else {
        best_of(true, rows.variable, values, &rows.minus)
    }
}

/// The best bound of rows, 0 if there are none.
fn best_of(
    lower: bool,
    variable: usize,
    values: &Values,
    rows: &[Combination],
) -> Result<Bound, Passed>
    ensures { bound result ≡ best_of lower variable (values_in values.now) (combinations rows.now) }
{
    let [first, others @ ..] = rows else {
        return Ok(Bound {
            numerator: 0,
            factor: 1,
        });
    };
    let mut kept = bound_at(lower, variable, values, first)?;
    for row in others {
        kept = better(lower, variable, values, row, kept)?;
    }
    Ok(kept)
}

/// A row's bound if it is better than the kept one.
fn better(
    lower: bool,
    variable: usize,
    values: &Values,
    row: &Combination,
    kept: Bound,
) -> Result<Bound, Passed>
    ensures { bound result ≡ and_then (bound_at lower variable (values_in values.now) (combination_in row.now)) (λ new.
        better_bound lower new (bound_in kept)) }
{
    let new = bound_at(lower, variable, values, row)?;
    better_of(lower, new, kept)
}

/// A minus row's lower bound, or a plus row's upper bound.
fn bound_at(
    lower: bool,
    variable: usize,
    values: &Values,
    row: &Combination,
) -> Result<Bound, Passed>
    ensures { bound result ≡ bound_at lower variable (values_in values.now) (combination_in row.now) }
{
    let total = sum_at(values, row)?;
    let factor = row.at(variable).abs();
    if lower {
        Ok(Bound {
            numerator: total,
            factor,
        })
    } else {
        Ok(Bound {
            numerator: -total,
            factor,
        })
    }
}

/// The row's sum over the variables that have values, and then the constant times the denominator.
fn sum_at(values: &Values, row: &Combination) -> Result<i128, Passed>
    ensures value { number result ≡ sum_at (values_in values.now) (combination_in row.now) }
    ensures small { IfOk result (λ z. unsigned_abs z ≤ 2 ^ 126) }
{
    let total = dot(&row.coefficients, &values.nums)?;
    let last = product(LIMIT, row.constant, values.den)?;
    sum(LIMIT, total, last)
}
