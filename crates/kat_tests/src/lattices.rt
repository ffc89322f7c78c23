//! Joins of pairs, sets, maps and tallies, and of several values.

ghost use Rattle.std.specs.Prelude.{◌≡◌, ◌≤◌, ◌^◌, IfOk, pos};

use kat_lattice::{
    GrowMap, GrowSet, Lattice, Lex, Max, Or, Pair, Tally, join_all, tells_numbers_apart,
};
use std::alloc::{AllocError, Global};
use std::test::Fail;

/// The join of two values, and whether the first is at or below the second.
fn both<L: Lattice>(alloc: Global, a: &L, b: &L) -> Result<(L, bool), AllocError>
    requires { L.kin a.now b.now }
{
    let mut joined = a.copy(alloc)?;
    joined.join(alloc, b)?;
    Ok((joined, a.leq(b)))
}

/// Whether two values have this join, and whether the first is at or below the second.
fn joins_to<L: Lattice + PartialEq>(
    alloc: Global,
    a: &L,
    b: &L,
    join: &L,
) -> Result<(bool, bool), AllocError>
    requires { L.kin a.now b.now }
{
    let (joined, is_below) = both(alloc, a, b)?;
    Ok((joined == *join, is_below))
}

/// A value under a time.
fn timed<B>(time: i128, second: B) -> Lex<Max, B> {
    Lex {
        first: Max(time),
        second,
    }
}

#[test]
fn the_greater_first_part_wins(rt: HostRuntime) -> Result<(), Fail> {
    let a = timed(1, timed(1, Max(5)));
    let b = timed(1, timed(2, Max(7)));
    assert!(rt; joins_to(rt.alloc(), &a, &b, &b)? == (true, true));
    assert!(rt; joins_to(rt.alloc(), &b, &a, &b)? == (true, false));
    let up = timed(1, Or(true));
    let down = timed(1, Or(false));
    let later = timed(2, Or(false));
    assert!(rt; joins_to(rt.alloc(), &up, &down, &up)? == (true, false));
    assert!(rt; joins_to(rt.alloc(), &up, &later, &later)? == (true, true));
    Ok(())
}

/// A number and a flag.
fn pair(number: i128, flag: bool) -> Pair<Max, Or> {
    Pair {
        first: Max(number),
        second: Or(flag),
    }
}

#[test]
fn both_parts_of_pairs_are_joined(rt: HostRuntime) -> Result<(), Fail> {
    let (one, other, join) = (pair(5, false), pair(3, true), pair(5, true));
    assert!(rt; joins_to(rt.alloc(), &one, &other, &join)? == (true, false));
    assert!(rt; joins_to(rt.alloc(), &one, &join, &join)? == (true, true));
    Ok(())
}

#[test]
fn order_makes_no_difference(rt: HostRuntime) -> Result<(), Fail> {
    let one = join_all(rt.alloc(), &Max(1), &[Max(4), Max(2), Max(9)])?;
    let other = join_all(rt.alloc(), &Max(1), &[Max(9), Max(4), Max(2)])?;
    assert!(rt; [one, other] == [Max(9), Max(9)]);
    Ok(())
}

/// The set to which these keys were added.
fn set_of(alloc: Global, keys: &[u8]) -> Result<GrowSet<u8>, AllocError> {
    let mut set = GrowSet::new(alloc);
    for key in keys {
        set.insert(alloc, *key)?;
    }
    Ok(set)
}

/// Whether the join of two sets has these keys, and whether the first is at or below the second.
fn has_keys(
    alloc: Global,
    a: &GrowSet<u8>,
    b: &GrowSet<u8>,
    keys: &[u8],
) -> Result<(bool, bool), AllocError> {
    tells_numbers_apart();
    a.goes_with(b);
    let (whole, is_below) = both(alloc, a, b)?;
    Ok((whole.keys() == keys, is_below))
}

/// The same of sets to which these keys were added.
fn joins_of_keys(
    alloc: Global,
    a: &[u8],
    b: &[u8],
    keys: &[u8],
) -> Result<(bool, bool), AllocError> {
    let a = set_of(alloc, a)?;
    let b = set_of(alloc, b)?;
    has_keys(alloc, &a, &b, keys)
}

#[test]
fn sets_have_the_keys_of_both(rt: HostRuntime) -> Result<(), Fail> {
    let rows: &[(&[u8], &[u8], &[u8], bool)] = &[
        (&[], &[], &[], true),
        (&[7], &[], &[7], false),
        (&[], &[7], &[7], true),
        (&[3, 1], &[3, 2], &[1, 2, 3], false),
        (&[2, 2], &[1, 2, 9], &[1, 2, 9], true),
        (&[4, 5], &[5, 4, 4], &[4, 5], true),
    ];
    for (a, b, joined, below) in rows {
        assert!(rt; joins_of_keys(rt.alloc(), a, b, joined)? == (true, *below));
    }
    Ok(())
}

/// The map into which these entries were joined, and which has 0 at each other key.
fn map_of(alloc: Global, entries: &[(u8, i128)]) -> Result<GrowMap<u8, Max>, AllocError>
    ensures { IfOk result (λ map. map.start ≡ record { 0 = pos 0 }) }
{
    let mut map = GrowMap::new(alloc, Max(0));
    for entry in entries {
        map.join_at(alloc, entry.0, &Max(entry.1))?;
    }
    Ok(map)
}

/// Whether the join of two maps has these entries, and whether the first is at or below the second.
fn has_entries(
    alloc: Global,
    a: &GrowMap<u8, Max>,
    b: &GrowMap<u8, Max>,
    entries: &[(u8, Max)],
) -> Result<(bool, bool), AllocError>
    requires { a.now.start ≡ b.now.start }
{
    tells_numbers_apart();
    a.goes_with(b);
    let (whole, is_below) = both(alloc, a, b)?;
    Ok((whole.entries() == entries, is_below))
}

/// The same of maps into which these entries were joined.
fn joins_of_entries(
    alloc: Global,
    a: &[(u8, i128)],
    b: &[(u8, i128)],
    entries: &[(u8, Max)],
) -> Result<(bool, bool), AllocError> {
    let a = map_of(alloc, a)?;
    let b = map_of(alloc, b)?;
    has_entries(alloc, &a, &b, entries)
}

#[test]
fn maps_have_the_entries_of_both(rt: HostRuntime) -> Result<(), Fail> {
    let rows: &[(&[(u8, i128)], &[(u8, i128)], &[(u8, Max)])] = &[
        (
            &[(2, 5), (1, 3), (2, 4), (9, 0)],
            &[],
            &[(1, Max(3)), (2, Max(5))],
        ),
        (
            &[(2, 5), (1, 3)],
            &[(3, 1), (2, 7)],
            &[(1, Max(3)), (2, Max(7)), (3, Max(1))],
        ),
    ];
    for (a, b, joined) in rows {
        assert!(rt; joins_of_entries(rt.alloc(), a, b, joined)? == (true, false));
    }
    Ok(())
}

/// A tally with one sum.
fn tally_of(alloc: Global, replica: u32, sum: u128) -> Result<Tally, AllocError>
    requires { sum ≤ 2 ^ 100 }
{
    let mut tally = Tally::new(alloc);
    tally.bump(alloc, replica, sum)?;
    Ok(tally)
}

/// Whether the join of two tallies has these sums, and whether the first is at or below the second.
fn has_sums(
    alloc: Global,
    a: &Tally,
    b: &Tally,
    sums: &[(u32, u128)],
) -> Result<(bool, bool), AllocError> {
    a.goes_with(b);
    let (whole, is_below) = both(alloc, a, b)?;
    Ok((whole.sums() == sums, is_below))
}

/// The same of two tallies with one sum each.
fn joins_of_sums(
    alloc: Global,
    a: (u32, u8),
    b: (u32, u8),
    sums: &[(u32, u128)],
) -> Result<(bool, bool), AllocError> {
    let a = tally_of(alloc, a.0, u128::from(a.1))?;
    let b = tally_of(alloc, b.0, u128::from(b.1))?;
    has_sums(alloc, &a, &b, sums)
}

#[test]
fn tallies_take_the_greater_sum(rt: HostRuntime) -> Result<(), Fail> {
    let rows: &[((u32, u8), (u32, u8), &[(u32, u128)], bool)] = &[
        ((1, 2), (1, 2), &[(1, 2)], true),
        ((1, 5), (2, 3), &[(1, 5), (2, 3)], false),
        ((2, 0), (2, 4), &[(2, 4)], true),
    ];
    for (a, b, sums, below) in rows {
        assert!(rt; joins_of_sums(rt.alloc(), *a, *b, sums)? == (true, *below));
    }
    Ok(())
}
