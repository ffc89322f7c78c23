//! The keys at which a state has something that a known one lacks.
ghost use Rattle.std.specs.Prelude.{◌≡◌, None, Some, IfOk, MatchOption, OnOk, slice_get};
ghost use Rattle.kat_design.specs.Meanings.{are_kin};
ghost use Rattle.kat_design.specs.Parts.{PartsKin};
ghost use Rattle.kat_difference.specs.Picking.{Grows, Picks};
ghost use Rattle.kat_difference.specs.Sets.{key_told};
ghost use Rattle.kat_lattice.specs.Maps.{MapsKin};
ghost use Rattle.kat_num.specs.Orders.{value_order};
ghost use Rattle.kat_embed.specs.KeyLists.{AreNewIn, AreNewKeys, entry_key_told, entry_keys};
ghost use Rattle.kat_embed.specs.Keys.{AreKeys, HasNewKey};

use crate::keys::{entry_keys, with_keys};
use kat_design::Part;
use kat_lattice::{GrowMap, GrowSet, Lattice};
use kat_num::Value;
use std::alloc::{AllocError, Global};

/// The keys at which one of these components has something that it lacks in the known state.
pub(crate) fn new_keys_in(
    alloc: Global,
    known: &[Part],
    parts: &[Part],
    components: &[u32],
) -> Result<GrowSet<Value>, AllocError>
    requires { are_kin PartsKin parts.now known.now }
    ensures { IfOk result (AreKeys (HasNewKey known.now parts.now components.now)) }
{
    match components {
        [] => Ok(GrowSet::new(alloc)),
        [first, rest @ ..] => {
            let keys = new_keys_in(alloc, known, parts, rest)?;
            let more = new_keys_at(alloc, known, parts, *first)?;
            with_keys(alloc, keys, &more)
        }
    }
}

/// The keys at which a component has something that it lacks in the known state.
fn new_keys_at(
    alloc: Global,
    known: &[Part],
    parts: &[Part],
    component: u32,
) -> Result<GrowSet<Value>, AllocError>
    requires { are_kin PartsKin parts.now known.now }
    ensures { IfOk result (AreNewKeys (slice_get known.now component) (slice_get parts.now component)) }
{
    let Some(known) = part_at(known, component) else {
        return Ok(GrowSet::new(alloc));
    };
    let Some(part) = part_at(parts, component) else {
        return Ok(GrowSet::new(alloc));
    };
    new_part_keys(alloc, known, part)
}

/// The part of a component.
fn part_at(parts: &[Part], component: u32) -> Option<&Part>
    ensures { MatchOption result (slice_get parts.now component ≡ None) (λ part. slice_get parts.now component ≡ Some part.now) }
{
    match parts.get(component as usize) {
        Some(part) => Some(part),
        None => None,
    }
}

/// The keys at which a part has something that the known one lacks.
fn new_part_keys(alloc: Global, known: &Part, part: &Part) -> Result<GrowSet<Value>, AllocError>
    requires { PartsKin part.now known.now }
    ensures { IfOk result (AreNewIn known.now part.now) }
{
    match (known, part) {
        (Part::Table(known), Part::Table(table)) => new_table_keys(alloc, known, table),
        (Part::Set(known), Part::Set(keys)) => new_set_keys(alloc, known, keys),
        (Part::Tallies(known), Part::Tallies(table)) => new_table_keys(alloc, known, table),
        _ => Ok(GrowSet::new(alloc)),
    }
}

/// The keys at which a table has something that the known one lacks.
fn new_table_keys<V: Lattice>(
    alloc: Global,
    known: &GrowMap<Value, V>,
    table: &GrowMap<Value, V>,
) -> Result<GrowSet<Value>, AllocError>
    requires { MapsKin value_order V.kin V.joined table.now known.now }
    ensures { IfOk result (Picks (entry_key_told value_order V.joined known.now table.now) (entry_keys table.now.entries)) }
{
    let keys = entry_keys(alloc, table.entries())?;
    let told = entry_keys_told(alloc, known, table, &keys)?;
    Ok(GrowSet::from_keys(told))
}

/// Those of the keys at which a table has something that the known one lacks.
fn entry_keys_told<K: Ord + Copy, V: Lattice>(
    alloc: Global,
    known: &GrowMap<K, V>,
    table: &GrowMap<K, V>,
    keys: &[K],
) -> Result<Vec<K>, AllocError>
    requires { MapsKin K.cmp V.kin V.joined table.now known.now }
    ensures { IfOk result (λ told. Picks (entry_key_told K.cmp V.joined known.now table.now) keys.now told.items) }
{
    let mut told = Vec::new(alloc);
    for key in keys {
        tell_entry_key(alloc, known, table, key, &mut told)?;
    }
    Ok(told)
}

/// Adds a key at the end of a list, unless what a table has there is in the known one.
fn tell_entry_key<K: Ord + Copy, V: Lattice>(
    _alloc: Global,
    known: &GrowMap<K, V>,
    table: &GrowMap<K, V>,
    key: &K,
    into: &mut Vec<K>,
) -> Result<(), AllocError>
    requires { MapsKin K.cmp V.kin V.joined table.now known.now }
    ensures { OnOk result (Grows (entry_key_told K.cmp V.joined known.now table.now key.now) into.old.items into.new.items) }
{
    if table.get(key).leq(known.get(key)) {
        return Ok(());
    }
    into.push(*key)?;
    Ok(())
}

/// The keys that the known set lacks.
fn new_set_keys(
    alloc: Global,
    known: &GrowSet<Value>,
    keys: &GrowSet<Value>,
) -> Result<GrowSet<Value>, AllocError>
    ensures { IfOk result (Picks (key_told value_order known.now) keys.now) }
{
    let told = set_keys_told(alloc, known, keys.keys())?;
    Ok(GrowSet::from_keys(told))
}

/// Those of the keys that the known set lacks.
fn set_keys_told<K: Ord + Copy>(
    alloc: Global,
    known: &GrowSet<K>,
    keys: &[K],
) -> Result<Vec<K>, AllocError>
    ensures { IfOk result (λ told. Picks (key_told K.cmp known.now) keys.now told.items) }
{
    let mut told = Vec::new(alloc);
    for key in keys {
        tell_set_key(alloc, known, key, &mut told)?;
    }
    Ok(told)
}

/// Adds a key at the end of a list, unless the known set has it.
fn tell_set_key<K: Ord + Copy>(
    _alloc: Global,
    known: &GrowSet<K>,
    key: &K,
    into: &mut Vec<K>,
) -> Result<(), AllocError>
    ensures { OnOk result (Grows (key_told K.cmp known.now key.now) into.old.items into.new.items) }
{
    if known.contains(key) {
        return Ok(());
    }
    into.push(*key)?;
    Ok(())
}
