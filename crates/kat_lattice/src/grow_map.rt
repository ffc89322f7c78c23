//! Maps whose values grow.

ghost use Rattle.std.specs.Prelude.{◌≡◌, [], IfOk, OnOk, OnErr};
ghost use Rattle.kat_join.specs.Merging.{TellsApart};
ghost use Rattle.kat_lattice.specs.Maps.{at_key, IsMap, JoinsAt, MapsKin};
ghost use Rattle.kat_lattice.specs.Undos.{UndoesAt, IsInside, taken_back};

use super::Lattice;
use super::undo::{Undo, take_back};
use kat_join::{Entries, is_part, place_of, union_of};
use std::alloc::{AllocError, Global};
use std::marker::{Model, PhantomData};
use std::mem;

/// A map whose values only grow: the join joins the values at each key.
///
/// The map is total: a key without an entry has the start.
///
/// ```
/// let mut mine = GrowMap::new(alloc, Max(0));
/// mine.join_at(alloc, 2u64, &Max(5))?;
/// let mut theirs = GrowMap::new(alloc, Max(0));
/// theirs.join_at(alloc, 2, &Max(7))?;
/// tells_numbers_apart();
/// mine.goes_with(&theirs);
/// mine.join(alloc, &theirs)?;
/// // *mine.get(&2) is Max(7), and at each other key it is Max(0)
/// ```
#[derive(Debug)]
pub struct GrowMap<K: Ord + Copy, L: Lattice> {
    pub(crate) start: L,
    pub(crate) entries: Vec<(K, L)>,
}

impl<K: Ord + Copy, L: Lattice> Drop for GrowMap<K, L> {
    fn drop(self) {
        let Self {
            start: _,
            entries: _,
        } = self;
    }
}

impl<K: Ord + Copy, L: Lattice> Model for GrowMap<K, L> {
    ghost use Rattle.kat_lattice.specs.Maps.{Table, IsMap};

    ghost Value = { Table K L };

    ghost view = { λ m. record { start = m.start; entries = m.entries.items } };

    ghost invariant = { λ m. IsMap K.cmp L.kin L.joined (record { start = m.start; entries = m.entries.items }) };
}

impl<K: Ord + Copy, L: Lattice> GrowMap<K, L> {
    /// The map that has the start at each key.
    pub fn new(alloc: Global, start: L) -> GrowMap<K, L>
        ensures start { result.start ≡ start }
        ensures entries { result.entries ≡ [] }
    {
        GrowMap {
            start,
            entries: Vec::new(alloc),
        }
    }

    /// The map of entries whose keys ascend and whose values a map with this start keeps.
    pub fn from_entries(start: L, entries: Vec<(K, L)>) -> GrowMap<K, L>
        requires { IsMap K.cmp L.kin L.joined (record { start = start; entries = entries.items }) }
        ensures start { result.start ≡ start }
        ensures entries { result.entries ≡ entries.items }
    {
        GrowMap { start, entries }
    }

    /// The value of each key without an entry.
    pub fn start_value(&self) -> &L
        ensures { result.now ≡ self.now.start }
    {
        &self.start
    }

    /// The keys whose value isn't the start, ascending, each with its value.
    pub fn entries(&self) -> &[(K, L)]
        ensures all { result.now ≡ self.now.entries }
        ensures canonical { IsMap K.cmp L.kin L.joined self.now }
    {
        &self.entries
    }

    /// The value at a key.
    pub fn get(&self, key: &K) -> &L
        ensures { result.now ≡ at_key K.cmp self.now key.now }
    {
        match place_of::<ValueEntries<K, L>>(&self.entries, key) {
            Ok(at) => &self.entries[at].1,
            Err(_) => &self.start,
        }
    }

    /// Joins `other` into the value at a key. After an error the map is as it was.
    pub fn join_at(&mut self, alloc: Global, key: K, other: &L) -> Result<(), AllocError>
        requires { L.kin (at_key K.cmp self.old key) other.now }
        ensures ok { OnOk result (JoinsAt K.cmp L.joined self.old key other.now self.new) }
        ensures err { OnErr result (self.new ≡ self.old) }
        ensures canonical { IsMap K.cmp L.kin L.joined self.new }
    {
        match place_of::<ValueEntries<K, L>>(&self.entries, &key) {
            Ok(at) => self.entries[at].1.join(alloc, other),
            Err(at) => {
                let mut value = self.start.copy(alloc)?;
                value.join(alloc, other)?;
                if !value.leq(&self.start) {
                    self.entries.insert(at, (key, value))?;
                }
                Ok(())
            }
        }
    }

    /// Joins `other` into the value at a key, and gives what takes the step back. After an error the map is as it was.
    pub fn join_at_step(
        &mut self,
        alloc: Global,
        key: K,
        other: &L,
    ) -> Result<Undo<(K, L)>, AllocError>
        requires { L.kin (at_key K.cmp self.old key) other.now }
        ensures ok { OnOk result (JoinsAt K.cmp L.joined self.old key other.now self.new) }
        ensures back { IfOk result (λ undo. UndoesAt (IsMap K.cmp L.kin L.joined) undo self.old self.new) }
        ensures err { OnErr result (self.new ≡ self.old) }
        ensures canonical { IsMap K.cmp L.kin L.joined self.new }
    {
        match place_of::<ValueEntries<K, L>>(&self.entries, &key) {
            Ok(at) => {
                let mut value = self.entries[at].1.copy(alloc)?;
                value.join(alloc, other)?;
                let entry = &mut self.entries[at];
                let place = entry.0;
                let was = mem::replace(entry, (place, value));
                Ok(Undo::Changed(at, was))
            }
            Err(at) => {
                let mut value = self.start.copy(alloc)?;
                value.join(alloc, other)?;
                if value.leq(&self.start) {
                    return Ok(Undo::Same);
                }
                self.entries.insert(at, (key, value))?;
                Ok(Undo::Added(at))
            }
        }
    }

    /// Takes a step back, without memory.
    pub fn take_back(&mut self, undo: Undo<(K, L)>)
        requires inside { IsInside undo self.old.entries }
        requires kept { IsMap K.cmp L.kin L.joined (record { start = self.old.start; entries = taken_back undo self.old.entries }) }
        ensures start { self.new.start ≡ self.old.start }
        ensures entries { self.new.entries ≡ taken_back undo self.old.entries }
    {
        take_back(&mut self.entries, undo);
    }

    /// A value that goes with the start goes with the value at each key.
    pub fn goes_at(&self, key: &K, other: &L)
        requires { L.kin self.now.start other.now }
        ensures { L.kin (at_key K.cmp self.now key.now) other.now }
    {
        let _mine = &self.entries;
        let _key = key;
        let _other = other;
    }

    /// Two maps of one start go together, if keys that compare equal are one key.
    pub fn goes_with(&self, other: &Self)
        requires apart { TellsApart K.cmp }
        requires starts { self.now.start ≡ other.now.start }
        requires itself { L.kin self.now.start self.now.start }
        ensures { MapsKin K.cmp L.kin L.joined self.now other.now }
    {
        let _mine = &self.entries;
        let _theirs = &other.entries;
    }
}

impl<K: Ord + Copy, L: Lattice> Lattice for GrowMap<K, L> {
    ghost use Rattle.kat_lattice.specs.Maps.{MapsKin, maps_joined};
    ghost use Rattle.kat_lattice.specs.MapLaws.{map_laws};

    ghost kin = { MapsKin K.cmp L.kin L.joined };

    ghost joined = { maps_joined K.cmp L.joined };

    fn join(&mut self, alloc: Global, other: &Self) -> Result<(), AllocError> {
        if let Some(next) = self.stage(alloc, other)? {
            *self = next;
        }
        Ok(())
    }

    fn leq(&self, other: &Self) -> bool {
        is_part::<ValueEntries<K, L>>(&self.entries, &other.entries)
    }

    fn copy(&self, alloc: Global) -> Result<Self, AllocError> {
        let start = self.start.copy(alloc)?;
        let mut entries = Vec::with_capacity(alloc, self.entries.len())?;
        ValueEntries::<K, L>::push_copies(alloc, &mut entries, &self.entries)?;
        Ok(GrowMap { start, entries })
    }

    fn stage(&self, alloc: Global, other: &Self) -> Result<Option<Self>, AllocError> {
        if other.leq(self) {
            return Ok(None);
        }
        let start = self.start.copy(alloc)?;
        let entries = union_of::<ValueEntries<K, L>>(alloc, &self.entries, &other.entries)?;
        Ok(Some(GrowMap { start, entries }))
    }

    ghost laws = { map_laws K.total L.laws };
}

/// The entries of a map: keys and their values.
pub(crate) struct ValueEntries<K, L>(PhantomData<(K, L)>);

impl<K: Ord + Copy, L: Lattice> Entries for ValueEntries<K, L> {
    ghost use Rattle.std.specs.Prelude.{refl};
    ghost use Rattle.kat_join.specs.Keyed.{on_value};
    ghost use Rattle.kat_join.specs.Merging.{values_kin};

    type Key = K;

    type Entry = (K, L);

    ghost key = { λ e. e.0 };

    ghost onto = { on_value L.joined };

    ghost kin = { values_kin K.cmp L.kin };

    #[inline(always)]
    fn key_of(entry: &(K, L)) -> K {
        entry.0
    }

    #[inline(always)]
    fn push_copy(alloc: Global, into: &mut Vec<(K, L)>, entry: &(K, L)) -> Result<(), AllocError> {
        let value = entry.1.copy(alloc)?;
        into.push((entry.0, value))?;
        Ok(())
    }

    fn push_copies(
        alloc: Global,
        into: &mut Vec<(K, L)>,
        entries: &[(K, L)],
    ) -> Result<(), AllocError> {
        for entry in entries {
            Self::push_copy(alloc, into, entry)?;
        }
        Ok(())
    }

    #[inline(always)]
    fn push_merged(
        alloc: Global,
        into: &mut Vec<(K, L)>,
        mine: &(K, L),
        theirs: &(K, L),
    ) -> Result<(), AllocError> {
        let mut value = mine.1.copy(alloc)?;
        value.join(alloc, &theirs.1)?;
        into.push((mine.0, value))?;
        Ok(())
    }

    #[inline(always)]
    fn is_absorbed(mine: &(K, L), theirs: &(K, L)) -> bool {
        mine.1.leq(&theirs.1)
    }

    ghost keeps = { λ x y. refl };
}
