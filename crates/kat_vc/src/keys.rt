//! What keys have in common: if two keys are the same, what is kept there is the same.
ghost use Rattle.std.specs.Prelude.{◌≡◌, IfOk};
ghost use Rattle.kat_claims.specs.Groups.{each_two, keys_stated, same_at, same_at_both, same_keys_read, sort_stated, with_each};
ghost use Rattle.kat_form.specs.Facts.{facts_of};
ghost use Rattle.kat_symbols.specs.Views.{behind, reader_of, GivesFact};

use kat_claims::{Spot, equal_read, instances_of, places_by};
use kat_form::Formula;
use kat_num::Sort;
use kat_symbols::{Instance, Name, Place, ReadSide, Reader, all, denied, either, symbol_same};
use std::alloc::{AllocError, Global};

/// Two keys of a condition.
#[derive(Clone, Copy)]
struct Keys {
    one: Instance,
    other: Instance,
}

/// A side has the same at two keys of a place.
fn same_at<S: ReadSide>(
    alloc: Global,
    reader: &mut Reader,
    side: &S,
    keys: Keys,
    place: Place,
) -> Result<Formula, AllocError>
    ensures { GivesFact (same_at (S.side side.now) keys.one keys.other place (reader_of reader.old)) result (reader_of reader.new) }
{
    let x = side.value(alloc, reader, place, Some(keys.one))?;
    let y = side.value(alloc, reader, place, Some(keys.other))?;
    symbol_same(alloc, &x, &y)
}

/// A side has the same at two keys.
fn push_same_at_both<S: ReadSide>(
    alloc: Global,
    reader: &mut Reader,
    side: &S,
    keys: Keys,
    places: &[Place],
    parts: &mut Vec<Formula>,
) -> Result<(), AllocError>
    ensures { IfOk result (λ u. behind (facts_of parts.old.items)
        (same_at_both (S.side side.now) keys.one keys.other places.now (reader_of reader.old))
        ≡ (facts_of parts.new.items, reader_of reader.new)) }
{
    match places {
        [] => Ok(()),
        [place, more @ ..] => {
            let same = same_at(alloc, reader, side, keys, *place)?;
            parts.push(same)?;
            push_same_at_both(alloc, reader, side, keys, more, parts)
        }
    }
}

/// The same keys: two keys differ, or what is kept there is the same.
fn same_keys_read<S: ReadSide>(
    alloc: Global,
    reader: &mut Reader,
    side: &S,
    places: &[Place],
    keys: Keys,
) -> Result<Formula, AllocError>
    ensures { GivesFact (same_keys_read (S.side side.now) places.now keys.one keys.other (reader_of reader.old)) result
        (reader_of reader.new) }
{
    let same = equal_read(alloc, reader, Name::Key(keys.one), Name::Key(keys.other))?;
    let mut parts = Vec::new(alloc);
    push_same_at_both(alloc, reader, side, keys, places, &mut parts)?;
    let differ = denied(alloc, &same)?;
    either(alloc, differ, all(parts))
}

/// A key with each of others.
fn state_with_each<S: ReadSide>(
    alloc: Global,
    reader: &mut Reader,
    side: &S,
    places: &[Place],
    one: Instance,
    others: &[Instance],
) -> Result<(), AllocError>
    ensures { IfOk result (λ u. reader_of reader.new ≡ with_each (S.side side.now) places.now one others.now (reader_of reader.old)) }
{
    for other in others {
        let keys = Keys { one, other: *other };
        let fact = same_keys_read(alloc, reader, side, places, keys)?;
        reader.state(fact)?;
    }
    Ok(())
}

/// Each two of some keys in order.
fn state_each_two<S: ReadSide>(
    alloc: Global,
    reader: &mut Reader,
    side: &S,
    places: &[Place],
    instances: &[Instance],
) -> Result<(), AllocError>
    ensures { IfOk result (λ u. reader_of reader.new ≡ each_two (S.side side.now) places.now instances.now (reader_of reader.old)) }
{
    match instances {
        [] => Ok(()),
        [one, others @ ..] => {
            state_with_each(alloc, reader, side, places, *one, others)?;
            state_each_two(alloc, reader, side, places, others)
        }
    }
}

/// The keys of one sort, two by two.
fn state_keys_of<S: ReadSide>(
    alloc: Global,
    reader: &mut Reader,
    side: &S,
    spots: &[Spot],
    keys: &[(Sort, Instance)],
    sort: Sort,
) -> Result<(), AllocError>
    ensures { IfOk result (λ u. reader_of reader.new ≡ sort_stated (S.side side.now) spots.now keys.now sort (reader_of reader.old)) }
{
    let places = places_by(alloc, Some(sort), spots)?;
    let instances = instances_of(alloc, sort, keys)?;
    state_each_two(alloc, reader, side, &places, &instances)
}

/// The keys of each sort, two by two.
pub(crate) fn state_keys<S: ReadSide>(
    alloc: Global,
    reader: &mut Reader,
    side: &S,
    spots: &[Spot],
    keys: &[(Sort, Instance)],
) -> Result<(), AllocError>
    ensures { IfOk result (λ u. reader_of reader.new ≡ keys_stated (S.side side.now) spots.now keys.now (reader_of reader.old)) }
{
    state_keys_of(alloc, reader, side, spots, keys, Sort::Int)?;
    state_keys_of(alloc, reader, side, spots, keys, Sort::Nat)?;
    state_keys_of(alloc, reader, side, spots, keys, Sort::Name)
}
