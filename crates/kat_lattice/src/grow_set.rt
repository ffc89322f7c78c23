//! Sets that grow.

ghost use Rattle.std.specs.Prelude.{◌≡◌, [], IfOk, OnOk, OnErr};
ghost use Rattle.kat_join.specs.Keyed.{IsAscending};
ghost use Rattle.kat_lattice.specs.Sets.{AddsKey, SetsKin, has_key, with_key};
ghost use Rattle.kat_join.specs.Merging.{TellsApart};
ghost use Rattle.kat_lattice.specs.Undos.{Undoes, IsInside, taken_back};

use super::Lattice;
use super::undo::{Undo, take_back};
use kat_join::{Entries, is_part, place_of, union_of};
use std::alloc::{AllocError, Global};
use std::marker::{Model, PhantomData};

/// A set to which keys are only added: the join is the union.
///
/// ```
/// let mut mine = GrowSet::new(alloc);
/// mine.insert(alloc, 3u64)?;
/// let mut theirs = GrowSet::new(alloc);
/// theirs.insert(alloc, 1)?;
/// tells_numbers_apart();
/// mine.goes_with(&theirs);
/// mine.join(alloc, &theirs)?;
/// // mine.keys() is 1, 3
/// ```
#[derive(Debug)]
pub struct GrowSet<K: Ord + Copy> {
    keys: Vec<K>,
}

impl<K: Ord + Copy> Drop for GrowSet<K> {
    fn drop(self) {
        let Self { keys: _ } = self;
    }
}

impl<K: Ord + Copy> Model for GrowSet<K> {
    ghost use Rattle.std.specs.Prelude.{List};
    ghost use Rattle.kat_join.specs.Keyed.{IsAscending};

    ghost Value = { List K };

    ghost view = { λ s. s.keys.items };

    ghost invariant = { λ s. IsAscending K.cmp s.keys.items };
}

impl<K: Ord + Copy> GrowSet<K> {
    /// The set without a key.
    pub fn new(alloc: Global) -> GrowSet<K>
        ensures { result ≡ [] }
    {
        GrowSet {
            keys: Vec::new(alloc),
        }
    }

    /// The set of keys that ascend.
    pub fn from_keys(keys: Vec<K>) -> GrowSet<K>
        requires { IsAscending K.cmp keys.items }
        ensures { result ≡ keys.items }
    {
        GrowSet { keys }
    }

    /// The keys, ascending.
    pub fn keys(&self) -> &[K]
        ensures all { result.now ≡ self.now }
        ensures ascending { IsAscending K.cmp self.now }
    {
        &self.keys
    }

    /// Adds a key. After an error the set is as it was.
    pub fn insert(&mut self, alloc: Global, key: K) -> Result<(), AllocError>
        ensures adds { OnOk result (AddsKey K.cmp self.old key self.new) }
        ensures ok { OnOk result (self.new ≡ with_key K.cmp key self.old) }
        ensures err { OnErr result (self.new ≡ self.old) }
        ensures ascending { IsAscending K.cmp self.new }
    {
        self.insert_step(alloc, key)?;
        Ok(())
    }

    /// Adds a key, and gives what takes the step back. After an error the set is as it was.
    pub fn insert_step(&mut self, _alloc: Global, key: K) -> Result<Undo<K>, AllocError>
        ensures adds { OnOk result (AddsKey K.cmp self.old key self.new) }
        ensures ok { OnOk result (self.new ≡ with_key K.cmp key self.old) }
        ensures back { IfOk result (λ undo. Undoes (IsAscending K.cmp) undo self.old self.new) }
        ensures err { OnErr result (self.new ≡ self.old) }
        ensures ascending { IsAscending K.cmp self.new }
    {
        match place_of::<KeyEntries<K>>(&self.keys, &key) {
            Ok(_) => Ok(Undo::Same),
            Err(at) => {
                self.keys.insert(at, key)?;
                Ok(Undo::Added(at))
            }
        }
    }

    /// Takes a step back, without memory.
    pub fn take_back(&mut self, undo: Undo<K>)
        requires inside { IsInside undo self.old }
        requires kept { IsAscending K.cmp (taken_back undo self.old) }
        ensures { self.new ≡ taken_back undo self.old }
    {
        take_back(&mut self.keys, undo);
    }

    /// Whether the set has the key.
    pub fn contains(&self, key: &K) -> bool
        ensures { result ≡ has_key K.cmp key.now self.now }
    {
        place_of::<KeyEntries<K>>(&self.keys, key).is_ok()
    }

    /// Any two sets go together, if keys that compare equal are one key.
    pub fn goes_with(&self, other: &Self)
        requires { TellsApart K.cmp }
        ensures { SetsKin K.cmp self.now other.now }
    {
        let _mine = &self.keys;
        let _theirs = &other.keys;
    }
}

impl<K: Ord + Copy> Lattice for GrowSet<K> {
    ghost use Rattle.kat_lattice.specs.Sets.{SetsKin, sets_joined, set_laws};

    ghost kin = { SetsKin K.cmp };

    ghost joined = { sets_joined K.cmp };

    fn join(&mut self, alloc: Global, other: &Self) -> Result<(), AllocError> {
        if let Some(next) = self.stage(alloc, other)? {
            *self = next;
        }
        Ok(())
    }

    fn leq(&self, other: &Self) -> bool {
        is_part::<KeyEntries<K>>(&self.keys, &other.keys)
    }

    fn copy(&self, alloc: Global) -> Result<Self, AllocError> {
        Ok(GrowSet {
            keys: Vec::from_slice(alloc, &self.keys)?,
        })
    }

    fn stage(&self, alloc: Global, other: &Self) -> Result<Option<Self>, AllocError> {
        if other.leq(self) {
            return Ok(None);
        }
        let keys = union_of::<KeyEntries<K>>(alloc, &self.keys, &other.keys)?;
        Ok(Some(GrowSet { keys }))
    }

    ghost laws = { set_laws K.total };
}

/// The entries of a set: its keys.
struct KeyEntries<K>(PhantomData<K>);

impl<K: Ord + Copy> Entries for KeyEntries<K> {
    ghost use Rattle.std.specs.Prelude.{refl};
    ghost use Rattle.kat_lattice.specs.Sets.{first_one};
    ghost use Rattle.kat_join.specs.Merging.{keys_kin};

    type Key = K;

    type Entry = K;

    ghost key = { λ x. x };

    ghost onto = { first_one };

    ghost kin = { keys_kin K.cmp };

    #[inline(always)]
    fn key_of(entry: &K) -> K {
        *entry
    }

    #[inline(always)]
    fn push_copy(_alloc: Global, into: &mut Vec<K>, entry: &K) -> Result<(), AllocError> {
        into.push(*entry)?;
        Ok(())
    }

    fn push_copies(_alloc: Global, into: &mut Vec<K>, entries: &[K]) -> Result<(), AllocError> {
        into.extend_from_slice(entries)
    }

    #[inline(always)]
    fn push_merged(
        _alloc: Global,
        into: &mut Vec<K>,
        mine: &K,
        _theirs: &K,
    ) -> Result<(), AllocError> {
        into.push(*mine)?;
        Ok(())
    }

    #[inline(always)]
    fn is_absorbed(_mine: &K, _theirs: &K) -> bool {
        true
    }

    ghost keeps = { λ x y. refl };
}
