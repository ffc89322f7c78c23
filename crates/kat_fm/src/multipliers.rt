//! Lists of multipliers most of which are 0: a unit, and two that are weighed.
ghost use Rattle.std.specs.Prelude.{◌≡◌, ◌+◌, ◌^◌, ◌≤◌, ◌<◌, ℤ, List, [], ◌∷◌, drop, length, true, IfOk, OnOk, MatchOption};
ghost use Rattle.kat_linear.specs.Rows.{AreAscending};
ghost use Rattle.kat_fm.specs.Limits.{weighed_all};
ghost use Rattle.kat_fm.specs.Limits.Checked.{fits};
ghost use Rattle.kat_fm.specs.Combinations.{unit_at};
ghost use Rattle.kat_fm.specs.Entries.{AreWithin, IsNextPlace, with_entry};
ghost use Rattle.kat_fm.specs.EntryViews.{multipliers_of};
ghost use Rattle.kat_fm.specs.Views.{spread_multipliers};

use crate::arithmetic::Passed;
use crate::weighing::{Weights, is_low, weigh_multiplier};
use crate::working::Multipliers;
use std::alloc::{AllocError, Global};

/// Whether it is known that no multiplier passes the limit if two lists are weighed.
pub fn are_low(weights: &Weights, ps: &Multipliers, ns: &Multipliers) -> bool
    ensures { result ≡ true → (ms : List ℤ) × (fits ms ≡ weighed_all (2 ^ 62) weights.now.plus (multipliers_of ps.now) weights.now.minus
        (multipliers_of ns.now)) }
{
    if !weights.are_small() || !has_low(&ps.entries) {
        return false;
    }
    has_low(&ns.entries)
}

// Whether small weights can't take any of the multipliers past their limit.
fn has_low(entries: &[(usize, i64)]) -> bool
    ensures { result ≡ true → AreWithin (2 ^ 30) entries.now }
{
    for (_, multiplier) in entries {
        if !is_low(*multiplier) {
            return false;
        }
    }
    true
}

/// This many multipliers: 1 at a place, and 0 elsewhere.
pub fn unit(alloc: Global, place: usize, count: usize) -> Result<Multipliers, AllocError>
    requires { place < count }
    ensures { IfOk result (λ v. multipliers_of v ≡ unit_at place count) }
{
    let mut entries = Vec::with_capacity(alloc, 1)?;
    entries.push((place, 1))?;
    Ok(Multipliers { entries, count })
}

/// The next place at which one of two lists has a multiplier, the multipliers of both, and where what is left of both begins.
#[derive(Clone, Copy)]
struct Next {
    place: usize,
    plus: i64,
    minus: i64,
    i: usize,
    j: usize,
}

// The entry at an index, if there is one.
#[inline(always)]
fn entry_at(entries: &[(usize, i64)], i: usize) -> Option<(usize, i64)>
    ensures { MatchOption result (drop i entries.now ≡ []) (λ e. (drop i entries.now ≡ e ∷ drop (i + 1) entries.now)
        × (i < length entries.now)) }
{
    if i < entries.len() {
        Some(entries[i])
    } else {
        None
    }
}

// The next place of what is left of two lists.
#[inline(always)]
fn next_place(ps: &[(usize, i64)], ns: &[(usize, i64)], i: usize, j: usize) -> Option<Next>
    requires within { (i ≤ length ps.now) × (j ≤ length ns.now) }
    requires plus { AreAscending (drop i ps.now) }
    requires minus { AreAscending (drop j ns.now) }
    ensures next { MatchOption result ((drop i ps.now ≡ []) × (drop j ns.now ≡ []))
        (λ next. IsNextPlace (drop i ps.now) (drop j ns.now) (drop next.i ps.now) (drop next.j ns.now) next.place next.plus next.minus) }
    ensures onward { MatchOption result (Unit {0}) (λ next. (next.i ≤ length ps.now) × (next.j ≤ length ns.now)
        × (i + j < next.i + next.j)) }
{
    let Some((place, plus)) = entry_at(ps, i) else {
        let Some((place, minus)) = entry_at(ns, j) else {
            return None;
        };
        return Some(Next {
            place,
            plus: 0,
            minus,
            i,
            j: j + 1,
        });
    };
    let Some((other, minus)) = entry_at(ns, j) else {
        return Some(Next {
            place,
            plus,
            minus: 0,
            i: i + 1,
            j,
        });
    };
    if other < place {
        return Some(Next {
            place: other,
            plus: 0,
            minus,
            i,
            j: j + 1,
        });
    }
    if place < other {
        return Some(Next {
            place,
            plus,
            minus: 0,
            i: i + 1,
            j,
        });
    }
    Some(Next {
        place,
        plus,
        minus,
        i: i + 1,
        j: j + 1,
    })
}

/// The multipliers of two lists weighed side by side, as far as both go.
pub fn weigh_multipliers(
    alloc: Global,
    weights: &Weights,
    ps: &Multipliers,
    ns: &Multipliers,
) -> Result<Result<Multipliers, Passed>, AllocError>
    ensures { IfOk result (λ r. spread_multipliers r ≡ weighed_all (2 ^ 62) weights.now.plus (multipliers_of ps.now) weights.now.minus
        (multipliers_of ns.now)) }
{
    let count = ps.count.min(ns.count);
    let mut entries = Vec::with_capacity(alloc, ps.entries.len().saturating_add(ns.entries.len()))?;
    let plus = ps.entries.as_slice();
    let minus = ns.entries.as_slice();
    let mut i = 0;
    let mut j = 0;
    while let Some(next) = next_place(plus, minus, i, j) {
        if count <= next.place {
            return Ok(Ok(Multipliers { entries, count }));
        }
        match weigh_multiplier(weights, next.plus, next.minus) {
            Ok(z) => put(&mut entries, next.place, z)?,
            Err(passed) => return Ok(Err(passed)),
        }
        i = next.i;
        j = next.j;
    }
    Ok(Ok(Multipliers { entries, count }))
}

// Puts a number that isn't 0 after the others.
#[inline(always)]
fn put(entries: &mut Vec<(usize, i64)>, place: usize, number: i64) -> Result<(), AllocError>
    ensures { OnOk result (entries.new.items ≡ with_entry entries.old.items place number) }
{
    if number != 0 {
        entries.push((place, number))?;
    }
    Ok(())
}
