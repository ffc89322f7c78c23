//! The rows with a variable, and what they make together.
ghost use Rattle.std.specs.Prelude.{◌≡◌, ℤ, pos, ◌<ℤ◌, List, [], ◌∷◌, ◌++◌, filter, option_map, IfOk, OnOk};
ghost use Rattle.std.specs.List.{All, cons_option};
ghost use Rattle.kat_fm.specs.Combinations.{Combination as Row, at, combination_of};
ghost use Rattle.kat_fm.specs.Eliminations.{is_plus, is_minus, is_rest, couples};
ghost use Rattle.kat_fm.specs.EntryViews.{combination_in, behind};
ghost use Rattle.kat_fm.specs.Leaving.{GoAlike};
ghost use Rattle.kat_fm.specs.Views.{combinations, appended};

use crate::arithmetic::Passed;
use crate::combining::combine;
use crate::places::Places;
use crate::working::Combination;
use std::alloc::{AllocError, Global};

/// The rows with a positive coefficient of a variable, with a negative one, and without it.
#[derive(Drop)]
pub struct Sides {
    pub plus: Vec<Combination>,
    pub minus: Vec<Combination>,
    pub rest: Vec<Combination>,
}

impl Sides {
    /// Puts a row to its side.
    fn put(&mut self, variable: usize, row: Combination) -> Result<(), AllocError>
        ensures plus { OnOk result (combinations self.new.plus.items ≡
            combinations self.old.plus.items ++ filter (is_plus variable) (combination_in row ∷ [])) }
        ensures minus { OnOk result (combinations self.new.minus.items ≡
            combinations self.old.minus.items ++ filter (is_minus variable) (combination_in row ∷ [])) }
        ensures rest { OnOk result (combinations self.new.rest.items ≡
            combinations self.old.rest.items ++ filter (is_rest variable) (combination_in row ∷ [])) }
    {
        let coefficient = row.at(variable);
        if coefficient > 0 {
            self.plus.push(row)?;
        } else if coefficient < 0 {
            self.minus.push(row)?;
        } else {
            self.rest.push(row)?;
        }
        Ok(())
    }
}

/// The rows by the sign of a variable's coefficient, each side in order.
pub fn split(alloc: Global, variable: usize, rows: Vec<Combination>) -> Result<Sides, AllocError>
    ensures plus { IfOk result (λ sides. combinations sides.plus.items ≡ filter (is_plus variable) (combinations rows.items)) }
    ensures minus { IfOk result (λ sides. combinations sides.minus.items ≡ filter (is_minus variable) (combinations rows.items)) }
    ensures rest { IfOk result (λ sides. combinations sides.rest.items ≡ filter (is_rest variable) (combinations rows.items)) }
{
    let mut sides = Sides {
        plus: Vec::new(alloc),
        minus: Vec::new(alloc),
        rest: Vec::new(alloc),
    };
    for row in rows {
        sides.put(variable, row)?;
    }
    Ok(sides)
}

/// Puts the combination of each plus row with each minus row after the rows, except for some that the next round doesn't keep.
pub fn combine_all(
    alloc: Global,
    variable: usize,
    plus: &[Combination],
    minus: &[Combination],
    rows: &mut Vec<Combination>,
) -> Result<Result<(), Passed>, AllocError>
    requires { All (λ p. pos 0 <ℤ at variable p) (combinations plus.now) }
    ensures { IfOk result (λ r. GoAlike (appended (combinations rows.new.items) r)
        (behind (λ (x : Row × Row). combination_of variable x.0 x.1) (couples (combinations plus.now) (combinations minus.now))
        (combinations rows.old.items))) }
{
    let mut places = Places::new(alloc, rows, plus.len().saturating_mul(minus.len()))?;
    for row in plus {
        match combine_each(alloc, variable, row, minus, rows, &mut places)? {
            Ok(()) => {}
            Err(passed) => return Ok(Err(passed)),
        }
    }
    Ok(Ok(()))
}

/// Puts the combination of one plus row with each minus row after the rows, except for some that the next round doesn't keep.
fn combine_each(
    alloc: Global,
    variable: usize,
    plus: &Combination,
    minus: &[Combination],
    rows: &mut Vec<Combination>,
    places: &mut Places,
) -> Result<Result<(), Passed>, AllocError>
    requires { pos 0 <ℤ at variable (combination_in plus.now) }
    ensures { IfOk result (λ r. GoAlike (appended (combinations rows.new.items) r)
        (behind (λ n. combination_of variable (combination_in plus.now) n) (combinations minus.now) (combinations rows.old.items))) }
{
    for row in minus {
        match combine(alloc, variable, plus, row, rows, places)? {
            Ok(made) => add(made, rows, places)?,
            Err(passed) => return Ok(Err(passed)),
        }
    }
    Ok(Ok(()))
}

/// Puts a row, if one is made, after the others, and notes its place.
fn add(
    made: Option<Combination>,
    rows: &mut Vec<Combination>,
    places: &mut Places,
) -> Result<(), AllocError>
    ensures { OnOk result (combinations rows.new.items ≡ combinations rows.old.items ++ cons_option (option_map combination_in made) []) }
{
    match made {
        Some(row) => {
            places.note(&row.coefficients, rows.len());
            rows.push(row)?;
            Ok(())
        }
        None => Ok(()),
    }
}
