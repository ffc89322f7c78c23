//! Elimination after Fourier and Motzkin: a point that meets rows of linear arithmetic, or multipliers that show that
//! none does.
//!
//! [`solve`] works on combinations of rows, the bounds that they give and the values of variables, in arithmetic that stops
//! at a limit.
#![tactic(auto)]

ghost use Rattle.std.specs.Prelude.{◌≡◌, ◌+◌, ◌*◌, nat_lt, pos, ◌<ℤ◌, List, [], ◌∷◌, length, true, None, IfOk};
ghost use Rattle.std.specs.List.{All};
ghost use Rattle.kat_linear.specs.Rows.{IsAscending, IsSmall, forms};
ghost use Rattle.kat_fm.specs.Combinations.{Combination as RowOf, at, counted};
ghost use Rattle.kat_fm.specs.Points.{Taken as TakenOf};
ghost use Rattle.kat_fm.specs.Eliminations.{Solution, begin, step, choice_from, couples, contradiction, elim_of};
ghost use Rattle.kat_fm.specs.Answers.{solution_of, HasVariablesBelow};
ghost use Rattle.kat_fm.specs.Laws.{MultipliersRefute, PointsMeet, RowsAreTooMany, SidesAreTold, WideNumbersAreNarrow, WideNumbersPass};
ghost use Rattle.kat_fm.specs.Leaving.{IsSteady};
ghost use Rattle.kat_fm.specs.Views.{combinations, stack_of, comes_to, taken_with, AreTidy, KeepsTidy};

mod answer;
mod arithmetic;
mod bounds;
mod choosing;
mod combination;
mod combining;
mod multiplier_lists;
mod multipliers;
mod number_lists;
mod numbers;
mod places;
mod returning;
mod splitting;
mod tidying;
mod values;
mod weighing;
mod working;

pub use answer::Solved;
use choosing::choose;
use combining::given_rows;
use kat_linear::Row;
use returning::{Taken, point};
use splitting::{Sides, combine_all, split};
use std::alloc::{AllocError, Global};
use tidying::{find_contradiction, tidy};
use working::Combination;

/// Eliminates the variables of rows, which are below `vars`, one after the other, each time the one that makes the fewest
/// rows.
pub fn solve(alloc: Global, rows: &[Row], vars: u32) -> Result<Solved, AllocError>
    requires ascending { All IsAscending (forms rows.now) }
    requires small { All IsSmall (forms rows.now) }
    requires below { All (HasVariablesBelow vars) (forms rows.now) }
    ensures { IfOk result (λ s. solution_of s ≡ elim_of (forms rows.now) vars) }
{
    let mut state = State {
        rows: given_rows(alloc, vars, rows)?,
        taken: Vec::new(alloc),
        tidy: false,
    };
    for _done in 0..u64::from(vars) + 1 {
        match play_round(alloc, vars, state)? {
            Round::Ends(solved) => return Ok(solved),
            Round::GoesOn(next) => state = next,
        }
    }
    Ok(Solved::Rows {
        plus: 0,
        minus: 0,
        rest: 0,
    })
}

/// A law: multipliers that elimination gives are as many as the rows, at most 2^62 in absolute value, and a certificate
/// that no point meets the rows.
pub fn multipliers_refute()
    ensures { MultipliersRefute }
{}

/// A law: a point that elimination gives has a denominator above 0 and a numerator for each variable, meets all rows, and
/// has no number above 2^126.
pub fn points_meet()
    ensures { PointsMeet }
{}

/// Laws of `Rows`: plus rows times minus rows, with the rest, are more than 20,000; and there are no minus rows if the given
/// rows have no coefficient below 0, and no plus rows if they have none above 0.
pub fn rows_are_too_many()
    ensures many { RowsAreTooMany }
    ensures sides { SidesAreTold }
{}

/// A law: the two numbers of `Wide` have a product or a sum that passes 2^126 in absolute value, or 2^62 if the second of
/// them is at most 2^62, as the numbers for multipliers are. The numbers themselves are at most 2^126, if the rows' are.
pub fn wide_numbers_pass()
    ensures passes { WideNumbersPass }
    ensures narrow { WideNumbersAreNarrow }
{}

/// The rows that are left, and the variables that were taken.
#[derive(Drop)]
struct State {
    rows: Vec<Combination>,
    taken: Vec<Taken>,
    /// Whether the rows are known to be tidy, as those are that a variable leaves which is on one side alone.
    tidy: bool,
}

/// The result of a round: the answer, or what the next round begins with.
#[derive(Drop)]
enum Round {
    Ends(Solved),
    GoesOn(State),
}

/// The most rows that a step may make.
const MOST_ROWS: u128 = 20_000;

/// One round: looks for a contradiction, tidies the rows, and takes a variable.
fn play_round(alloc: Global, vars: u32, state: State) -> Result<Round, AllocError>
    requires { state.tidy ≡ true → AreTidy (combinations state.rows.items) }
    ensures comes { (onward : List TakenOf → List RowOf → Solution) → IsSteady onward → IfOk result (λ r. comes_to onward r ≡
        begin vars (stack_of state.taken.items) (combinations state.rows.items) onward (contradiction (combinations state.rows.items))) }
    ensures tidy { IfOk result KeepsTidy }
{
    if state.tidy {
        return play_tidy(alloc, vars, state.rows, state.taken);
    }
    if let Some(multipliers) = find_contradiction(alloc, &state.rows)? {
        return Ok(Round::Ends(Solved::Multipliers(multipliers)));
    }
    let State { rows, taken, .. } = state;
    let rows = tidy(alloc, rows)?;
    play_tidy(alloc, vars, rows, taken)
}

/// Takes a variable of tidy rows, or ends if they have none.
fn play_tidy(
    alloc: Global,
    vars: u32,
    rows: Vec<Combination>,
    taken: Vec<Taken>,
) -> Result<Round, AllocError>
    requires { AreTidy (combinations rows.items) }
    ensures comes { (onward : List TakenOf → List RowOf → Solution) → IsSteady onward → IfOk result (λ r. comes_to onward r ≡
        step vars (stack_of taken.items) (combinations rows.items) onward (choice_from (combinations rows.items) None (counted 0 vars))) }
    ensures tidy { IfOk result KeepsTidy }
{
    match choose(alloc, &rows, vars)? {
        Some(variable) => take(alloc, variable, split(alloc, variable, rows)?, taken),
        None => Ok(Round::Ends(point(alloc, vars, taken)?)),
    }
}

/// Takes a variable, whose rows are on both sides.
fn take(
    alloc: Global,
    variable: usize,
    mut sides: Sides,
    taken: Vec<Taken>,
) -> Result<Round, AllocError>
    requires above { All (λ p. pos 0 <ℤ at variable p) (combinations sides.plus.items) }
    requires tidy { AreTidy (combinations sides.rest.items) }
    ensures comes { (onward : List TakenOf → List RowOf → Solution) → IsSteady onward → IfOk result (λ r. comes_to onward r ≡
        taken_with onward variable (stack_of taken.items) (combinations sides.plus.items) (combinations sides.minus.items)
        (combinations sides.rest.items)) }
    ensures tidy { IfOk result KeepsTidy }
{
    if is_crowded(&sides) {
        return Ok(Round::Ends(Solved::Rows {
            plus: sides.plus.len() as u64,
            minus: sides.minus.len() as u64,
            rest: sides.rest.len() as u64,
        }));
    }
    if makes_none(&sides) {
        return go_on(variable, sides, taken, true);
    }
    match combine_all(alloc, variable, &sides.plus, &sides.minus, &mut sides.rest)? {
        Ok(()) => go_on(variable, sides, taken, false),
        Err(passed) => Ok(Round::Ends(Solved::wide(passed))),
    }
}

/// Goes on with a next round after a variable is taken; `sides.rest` are the rows that are left, with those that were made.
fn go_on(
    variable: usize,
    sides: Sides,
    mut taken: Vec<Taken>,
    tidy: bool,
) -> Result<Round, AllocError>
    requires { tidy ≡ true → AreTidy (combinations sides.rest.items) }
    ensures comes { (onward : List TakenOf → List RowOf → Solution) → IfOk result (λ r. comes_to onward r ≡
        onward (record { variable = variable; minus = combinations sides.minus.items; plus = combinations sides.plus.items }
        ∷ stack_of taken.items) (combinations sides.rest.items)) }
    ensures tidy { IfOk result KeepsTidy }
{
    let Sides { plus, minus, rest } = sides;
    taken.push(Taken {
        variable,
        minus,
        plus,
    })?;
    Ok(Round::GoesOn(State {
        rows: rest,
        taken,
        tidy,
    }))
}

/// Whether the sides make no row.
fn makes_none(sides: &Sides) -> bool
    ensures { result ≡ true → couples (combinations sides.now.plus.items) (combinations sides.now.minus.items) ≡ [] }
{
    sides.plus.is_empty() || sides.minus.is_empty()
}

/// Whether the sides make too many rows.
fn is_crowded(sides: &Sides) -> bool
    ensures { result ≡ nat_lt 20_000 (length sides.now.plus.items * length sides.now.minus.items + length sides.now.rest.items) }
{
    let pairs = sides.plus.len() as u128 * sides.minus.len() as u128;
    pairs + sides.rest.len() as u128 > MOST_ROWS
}
