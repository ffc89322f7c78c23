//! The variable that a step takes.
ghost use Rattle.std.specs.Prelude.{◌≡◌, ◌<◌, ◌↔◌, ℕ, List, count_by, length, set, slice_index_or, None, IfOk, IsTrue, if◌then◌else◌};
ghost use Rattle.std.specs.List.{All, list_all};
ghost use Rattle.kat_fm.specs.Combinations.{Combination as Row, counted};
ghost use Rattle.kat_fm.specs.Eliminations.{is_rest, better, choice_from};
ghost use Rattle.kat_fm.specs.EntryViews.{combination_in};
ghost use Rattle.kat_fm.specs.Views.{combinations, chosen, IsCounted, IsCount, AreCounts, IsRoom, with_number, no_counts, AddsRow};

use crate::working::Combination;
use std::alloc::{AllocError, Global};

/// A variable, and how many rows it would make.
#[derive(Clone, Copy)]
struct Choice {
    variable: usize,
    pairs: u128,
}

/// How many rows have a positive coefficient of a variable, and how many a negative one.
#[derive(Clone, Copy)]
struct Counts {
    plus: usize,
    minus: usize,
}

/// Of the variables that a row has, the one that makes the fewest rows, the lowest on a tie.
pub fn choose(alloc: Global, rows: &[Combination], vars: u32) -> Result<Option<usize>, AllocError>
    ensures { IfOk result (λ choice. choice ≡ choice_from (combinations rows.now) None (counted 0 vars)) }
{
    let all = counts_of(alloc, rows, vars)?;
    let mut best = None;
    for (variable, counts) in all.iter().enumerate() {
        best = better(best, variable, counts);
    }
    match best {
        Some(choice) => Ok(Some(choice.variable)),
        None => Ok(None),
    }
}

// The better of the variable so far and another.
fn better(best: Option<Choice>, variable: usize, counts: &Counts) -> Option<Choice>
    ensures better { (rows : List Row) → IsCounted rows best → IsCount rows variable counts.now → chosen result ≡
        (if list_all (is_rest variable) rows then chosen best else better rows (chosen best) variable) }
    ensures counted { (rows : List Row) → IsCounted rows best → IsCount rows variable counts.now → IsCounted rows result }
{
    if are_none(counts) {
        return best;
    }
    let pairs = counts.plus as u128 * counts.minus as u128;
    match best {
        Some(kept) if kept.pairs <= pairs => Some(kept),
        _ => Some(Choice { variable, pairs }),
    }
}

// Whether no row was counted.
fn are_none(counts: &Counts) -> bool
    ensures { IsTrue result ↔ ((counts.now.plus ≡ 0) × (counts.now.minus ≡ 0)) }
{
    counts.plus == 0 && counts.minus == 0
}

// The counts of each variable.
fn counts_of(alloc: Global, rows: &[Combination], vars: u32) -> Result<Vec<Counts>, AllocError>
    ensures count { IfOk result (λ all. length all.items ≡ vars) }
    ensures counts { IfOk result (λ all. AreCounts (combinations rows.now) all.items) }
{
    let mut all = vec![in alloc; Counts { plus: 0, minus: 0 }; vars as usize]?;
    for row in rows {
        add_row(&mut all, row);
    }
    Ok(all)
}

// Counts a row too.
fn add_row(all: &mut Vec<Counts>, row: &Combination)
    requires { All IsRoom all.old.items }
    ensures count { length all.new.items ≡ length all.old.items }
    ensures added { AddsRow (combination_in row.now) all.old.items all.new.items }
{
    for (variable, coefficient) in &row.coefficients.entries {
        add(all, *variable, *coefficient);
    }
}

// Counts a coefficient of a variable too.
fn add(all: &mut Vec<Counts>, variable: usize, coefficient: i128)
    requires { variable < length all.old.items → IsRoom (slice_index_or all.old.items variable no_counts) }
    ensures { all.new.items ≡ set all.old.items variable (with_number coefficient (slice_index_or all.old.items variable no_counts)) }
{
    if variable < all.len() {
        all[variable] = counted(all[variable], coefficient);
    }
}

// Counts with one coefficient more.
fn counted(counts: Counts, coefficient: i128) -> Counts
    requires { IsRoom counts }
    ensures { result ≡ with_number coefficient counts }
{
    Counts {
        plus: counts.plus + usize::from(coefficient > 0),
        minus: counts.minus + usize::from(coefficient < 0),
    }
}
