//! Joins of maps in place: the values of keys that both have are joined where they are, and only new keys take memory.

ghost use Rattle.std.specs.Prelude.{◌≡◌, ◌+◌, ◌≤◌, Ok, None, [], IfOk, IsOk, length, reverse};
ghost use Rattle.std.specs.List.{filter};
ghost use Rattle.kat_lattice.specs.InPlace.{has_entry, new_entries, IsReady};
ghost use Rattle.kat_join.specs.Keyed.{IsAscending, by_key, on_value, union};
ghost use Rattle.kat_lattice.specs.Maps.{MapsKin, maps_joined};
ghost use Rattle.kat_join.specs.Merging.{Mergeable, values_kin};
ghost use Rattle.kat_lattice.specs.Moving.{Fits, Pops, heads_compared, with_taken};
ghost use Rattle.kat_lattice.specs.Sets.{first_one};

use super::grow_map::{GrowMap, ValueEntries};
use super::{Flat, Lattice};
use kat_join::place_of;
use std::alloc::{AllocError, Global};
use std::cmp::Ordering;
use std::marker::Model;
use std::mem;

/// What a join of maps in place takes before it changes anything: copies of the entries whose keys are new, and room for
/// all entries.
///
/// ```
/// tells_numbers_apart();
/// mine.goes_with(&theirs);
/// let staged = mine.stage_in_place(alloc, &theirs)?;
/// // what else needs memory comes here; then nothing fails any more
/// mine.join_in_place(&theirs, staged);
/// ```
#[derive(Debug, Drop)]
pub struct Room<K, L> {
    fresh: Vec<(K, L)>,
    list: Vec<(K, L)>,
}

impl<K, L> Model for Room<K, L> {
    ghost use Rattle.std.specs.Prelude.{◌≡◌, []};
    ghost use Rattle.std.specs.Vec.{vec_capacity};
    ghost use Rattle.kat_lattice.specs.InPlace.{Taken};

    ghost Value = { Taken K L };

    ghost view = { λ r. record { entries = r.fresh.items; room = vec_capacity r.list } };

    ghost invariant = { λ r. r.list.items ≡ [] };
}

impl<K: Ord + Copy, L: Flat> GrowMap<K, L> {
    /// Takes the memory for joining `other` in place: `None` if this map has each key of `other`, and then no memory is
    /// taken.
    pub fn stage_in_place(
        &self,
        alloc: Global,
        other: &Self,
    ) -> Result<Option<Room<K, L>>, AllocError>
        requires { MapsKin K.cmp L.kin L.joined self.now other.now }
        ensures ready { IfOk result (λ staged. IsReady K.cmp staged self.now.entries other.now.entries) }
        ensures present { new_entries K.cmp self.now.entries other.now.entries ≡ [] → result ≡ Ok None }
    {
        let fresh = new_of(alloc, &self.entries, &other.entries)?;
        if fresh.is_empty() {
            return Ok(None);
        }
        let Some(count) = self.entries.len().checked_add(fresh.len()) else {
            return Err(AllocError);
        };
        let list = Vec::with_capacity(alloc, count)?;
        Ok(Some(Room { fresh, list }))
    }

    /// Joins `other` into this map, with the memory that was taken for it.
    pub fn join_in_place(&mut self, other: &Self, staged: Option<Room<K, L>>)
        requires kin { MapsKin K.cmp L.kin L.joined self.old other.now }
        requires ready { IsReady K.cmp staged self.old.entries other.now.entries }
        ensures { self.new ≡ maps_joined K.cmp L.joined self.old other.now }
    {
        join_entries(&mut self.entries, &other.entries, staged);
    }
}

/// Copies of the entries of theirs whose keys are new to mine.
fn new_of<K: Ord + Copy, L: Lattice>(
    alloc: Global,
    mine: &[(K, L)],
    theirs: &[(K, L)],
) -> Result<Vec<(K, L)>, AllocError>
    requires { IsAscending (by_key K.cmp) mine.now }
    ensures new { IfOk result (λ fresh. fresh.items ≡ new_entries K.cmp mine.now theirs.now) }
    ensures present { new_entries K.cmp mine.now theirs.now ≡ [] → IsOk result }
{
    let mut fresh = Vec::new(alloc);
    for entry in theirs {
        if has_key(mine, entry) {
            continue;
        }
        let value = entry.1.copy(alloc)?;
        fresh.push((entry.0, value))?;
    }
    Ok(fresh)
}

/// Whether one of the entries has the key of another.
fn has_key<K: Ord + Copy, L: Lattice>(entries: &[(K, L)], other: &(K, L)) -> bool
    requires { IsAscending (by_key K.cmp) entries.now }
    ensures { result ≡ has_entry K.cmp entries.now other.now }
{
    place_of::<ValueEntries<K, L>>(entries, &other.0).is_ok()
}

/// Joins theirs into the entries, with the room that was taken for those that are new.
fn join_entries<K: Ord + Copy, L: Flat>(
    entries: &mut Vec<(K, L)>,
    theirs: &[(K, L)],
    staged: Option<Room<K, L>>,
)
    requires kin { Mergeable (by_key K.cmp) (values_kin K.cmp L.kin) entries.old.items theirs.now }
    requires own { Mergeable (by_key K.cmp) (values_kin K.cmp L.kin) theirs.now theirs.now }
    requires ready { IsReady K.cmp staged entries.old.items theirs.now }
    ensures { entries.new.items ≡ union (by_key K.cmp) (on_value L.joined) entries.old.items theirs.now }
{
    take_in(entries, staged);
    join_present(entries, theirs);
}

/// Puts in the entries that were taken.
fn take_in<K: Ord + Copy, L: Drop>(entries: &mut Vec<(K, L)>, staged: Option<Room<K, L>>)
    requires mine { IsAscending (by_key K.cmp) entries.old.items }
    requires fits { Fits K.cmp staged entries.old.items }
    ensures { entries.new.items ≡ with_taken K.cmp staged entries.old.items }
{
    match staged {
        None => {}
        Some(room) => move_in(entries, room),
    }
}

/// Moves the entries and those of the room into the room, the least first.
fn move_in<K: Ord + Copy, L: Drop>(entries: &mut Vec<(K, L)>, room: Room<K, L>)
    requires mine { IsAscending (by_key K.cmp) entries.old.items }
    requires fresh { IsAscending (by_key K.cmp) room.entries }
    requires fits { length entries.old.items + length room.entries ≤ room.room }
    ensures { entries.new.items ≡ union (by_key K.cmp) first_one entries.old.items room.entries }
{
    let Room { fresh, list } = room;
    let mut mine = mem::replace(entries, list);
    let mut fresh = fresh;
    mine.reverse();
    fresh.reverse();
    while let Some(entry) = pop_first(&mut mine, &mut fresh) {
        match entries.push(entry) {
            Ok(()) => {}
            Err(_) => unreachable!(),
        }
    }
}

/// Takes out the least entry of two lists that descend; of two entries of one key the second list's is dropped.
fn pop_first<K: Ord + Copy, L: Drop>(
    mine: &mut Vec<(K, L)>,
    fresh: &mut Vec<(K, L)>,
) -> Option<(K, L)>
    requires mine { IsAscending (by_key K.cmp) (reverse mine.old.items) }
    requires fresh { IsAscending (by_key K.cmp) (reverse fresh.old.items) }
    ensures { Pops (by_key K.cmp) (reverse mine.old.items) (reverse fresh.old.items) result (reverse mine.new.items)
        (reverse fresh.new.items) }
{
    match compare_last(mine, fresh) {
        Ordering::Less => mine.pop(),
        Ordering::Equal => {
            let _same = fresh.pop();
            mine.pop()
        }
        Ordering::Greater => fresh.pop(),
    }
}

/// How the last entries of two lists compare.
fn compare_last<K: Ord + Copy, L: Drop>(mine: &[(K, L)], fresh: &[(K, L)]) -> Ordering
    ensures { result ≡ heads_compared (by_key K.cmp) (reverse mine.now) (reverse fresh.now) }
{
    match (mine, fresh) {
        ([.., x], [.., y]) => x.0.cmp(&y.0),
        ([], [.., _]) => Ordering::Greater,
        _ => Ordering::Less,
    }
}

/// Joins theirs into the entries, which have all their keys.
fn join_present<K: Ord + Copy, L: Flat>(mine: &mut Vec<(K, L)>, theirs: &[(K, L)])
    requires kin { Mergeable (by_key K.cmp) (values_kin K.cmp L.kin) mine.old.items theirs.now }
    requires present { length (union (by_key K.cmp) (on_value L.joined) mine.old.items theirs.now) ≡ length mine.old.items }
    ensures { mine.new.items ≡ union (by_key K.cmp) (on_value L.joined) mine.old.items theirs.now }
{
    let mut i = 0;
    let mut j = 0;
    while j < theirs.len() {
        let y = &theirs[j];
        let x = &mut mine[i];
        match x.0.cmp(&y.0) {
            Ordering::Less => {
                i += 1;
            }
            Ordering::Equal => {
                x.1.join_flat(&y.1);
                i += 1;
                j += 1;
            }
            Ordering::Greater => unreachable!(),
        }
    }
}
