//! Lists of numbers most of which are 0: those of a row, two that are weighed, and sums of products.
ghost use Rattle.std.specs.Prelude.{◌≡◌, ◌+◌, ◌^◌, ◌≤◌, ◌<◌, pos, [], ◌∷◌, drop, length, IfOk, OnOk, MatchOption, unsigned_abs};
ghost use Rattle.std.specs.List.{All};
ghost use Rattle.kat_linear.specs.Rows.{Term, AreAscending};
ghost use Rattle.kat_fm.specs.Limits.{weighed_all, checked_dot};
ghost use Rattle.kat_fm.specs.Entries.{AreWithin, IsNextPlace, numbers_at, with_entry};
ghost use Rattle.kat_fm.specs.EntryViews.{number, numbers_in};
ghost use Rattle.kat_fm.specs.Views.{spread_numbers};

use crate::arithmetic::{Passed, add_product};
use crate::weighing::{Weights, weigh};
use crate::working::Numbers;
use std::alloc::{AllocError, Global};

/// The coefficient of each of this many variables.
pub fn coefficients(alloc: Global, count: u32, terms: &[(u32, i128)]) -> Result<Numbers, AllocError>
    requires ascending { AreAscending terms.now }
    requires below { All (λ (t : Term). t.0 < count) terms.now }
    requires small { All (λ (t : Term). unsigned_abs t.1 ≤ 2 ^ 126) terms.now }
    ensures value { IfOk result (λ v. numbers_in v ≡ numbers_at count terms.now) }
    ensures small { IfOk result (λ v. AreWithin (2 ^ 126) v.entries.items) }
{
    let mut entries = Vec::with_capacity(alloc, terms.len())?;
    for (variable, coefficient) in terms {
        put(&mut entries, *variable as usize, *coefficient)?;
    }
    Ok(Numbers {
        entries,
        count: count as usize,
    })
}

/// The next place at which one of two lists has a number, the numbers of both, and where what is left of both begins.
#[derive(Clone, Copy)]
struct Next {
    place: usize,
    plus: i128,
    minus: i128,
    i: usize,
    j: usize,
}

// The entry at an index, if there is one.
#[inline(always)]
fn entry_at(entries: &[(usize, i128)], i: usize) -> Option<(usize, i128)>
    ensures { MatchOption result (drop i entries.now ≡ []) (λ e. (drop i entries.now ≡ e ∷ drop (i + 1) entries.now)
        × (i < length entries.now)) }
{
    if i < entries.len() {
        Some(entries[i])
    } else {
        None
    }
}

// The next place of what is left of two lists.
#[inline(always)]
fn next_place(ps: &[(usize, i128)], ns: &[(usize, i128)], i: usize, j: usize) -> Option<Next>
    requires within { (i ≤ length ps.now) × (j ≤ length ns.now) }
    requires plus { AreAscending (drop i ps.now) }
    requires minus { AreAscending (drop j ns.now) }
    ensures next { MatchOption result ((drop i ps.now ≡ []) × (drop j ns.now ≡ []))
        (λ next. IsNextPlace (drop i ps.now) (drop j ns.now) (drop next.i ps.now) (drop next.j ns.now) next.place next.plus next.minus) }
    ensures onward { MatchOption result (Unit {0}) (λ next. (next.i ≤ length ps.now) × (next.j ≤ length ns.now)
        × (i + j < next.i + next.j)) }
{
    let Some((place, plus)) = entry_at(ps, i) else {
        let Some((place, minus)) = entry_at(ns, j) else {
            return None;
        };
        return Some(Next {
            place,
            plus: 0,
            minus,
            i,
            j: j + 1,
        });
    };
    let Some((other, minus)) = entry_at(ns, j) else {
        return Some(Next {
            place,
            plus,
            minus: 0,
            i: i + 1,
            j,
        });
    };
    if other < place {
        return Some(Next {
            place: other,
            plus: 0,
            minus,
            i,
            j: j + 1,
        });
    }
    if place < other {
        return Some(Next {
            place,
            plus,
            minus: 0,
            i: i + 1,
            j,
        });
    }
    Some(Next {
        place,
        plus,
        minus,
        i: i + 1,
        j: j + 1,
    })
}

/// The numbers of two lists weighed side by side, as far as both go.
pub fn weigh_all(
    alloc: Global,
    weights: &Weights,
    ps: &Numbers,
    ns: &Numbers,
) -> Result<Result<Numbers, Passed>, AllocError>
    ensures value { IfOk result (λ r. spread_numbers r ≡ weighed_all (2 ^ 126) weights.now.plus (numbers_in ps.now) weights.now.minus
        (numbers_in ns.now)) }
    ensures small { IfOk result (λ r. IfOk r (λ v. AreWithin (2 ^ 126) v.entries.items)) }
{
    let count = ps.count.min(ns.count);
    let mut entries = Vec::with_capacity(alloc, ps.entries.len().saturating_add(ns.entries.len()))?;
    let plus = ps.entries.as_slice();
    let minus = ns.entries.as_slice();
    let mut i = 0;
    let mut j = 0;
    while let Some(next) = next_place(plus, minus, i, j) {
        if count <= next.place {
            return Ok(Ok(Numbers { entries, count }));
        }
        match weigh(weights, next.plus, next.minus) {
            Ok(z) => put(&mut entries, next.place, z)?,
            Err(passed) => return Ok(Err(passed)),
        }
        i = next.i;
        j = next.j;
    }
    Ok(Ok(Numbers { entries, count }))
}

// Puts a number that isn't 0 after the others.
#[inline(always)]
fn put(entries: &mut Vec<(usize, i128)>, place: usize, number: i128) -> Result<(), AllocError>
    ensures { OnOk result (entries.new.items ≡ with_entry entries.old.items place number) }
{
    if number != 0 {
        entries.push((place, number))?;
    }
    Ok(())
}

/// The sum of coefficient times number, as far as both lists go.
pub fn dot(cs: &Numbers, ns: &[i128]) -> Result<i128, Passed>
    ensures { number result ≡ checked_dot (2 ^ 126) (pos 0) (numbers_in cs.now) ns.now }
{
    let mut total = 0;
    for (place, c) in &cs.entries {
        let Some(n) = ns.get(*place) else {
            return Ok(total);
        };
        total = add_product(total, *c, *n)?;
    }
    Ok(total)
}
