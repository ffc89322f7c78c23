//! Ascending lists with one entry for each key: the one form in which sets, maps and tallies are kept. Here are the search
//! for a key, the merge of two lists and the test whether it would add anything, for all three at once.

ghost use Rattle.std.specs.Prelude.{◌≡◌, ◌↔◌, [], ◌∷◌, ◌++◌, IsTrue, IfOk, IfErr, OnOk};
ghost use Rattle.std.specs.declared.cmp.Ordering.TheVariants.{Equal};
ghost use Rattle.std.specs.Ordering.{on};
ghost use Rattle.kat_join.specs.Keyed.{IsAscending, union};
ghost use Rattle.kat_join.specs.Merging.{Mergeable};
ghost use Rattle.kat_join.specs.Places.{IsAt, IsGap};

use std::alloc::{AllocError, Global};
use std::cmp::Ordering;

/// What the entries of a kind of list are, and how two entries of one key become one.
pub trait Entries {
    type Key: Ord + Copy;

    type Entry: Drop;

    // the key of an entry
    ghost key: { Self.Entry → Self.Key };

    // two entries of one key, as one
    ghost onto: { Self.Entry → Self.Entry → Self.Entry };

    // the two may be merged
    ghost kin: { Self.Entry → Self.Entry → Type 0 };

    /// The key of an entry.
    fn key_of(entry: &Self::Entry) -> Self::Key
        ensures { result ≡ key entry.now };

    /// Adds an equal entry at the end of a list.
    fn push_copy(
        alloc: Global,
        into: &mut Vec<Self::Entry>,
        entry: &Self::Entry,
    ) -> Result<(), AllocError>
        ensures { OnOk result (into.new.items ≡ into.old.items ++ entry.now ∷ []) };

    /// Adds equal entries at the end of a list.
    fn push_copies(
        alloc: Global,
        into: &mut Vec<Self::Entry>,
        entries: &[Self::Entry],
    ) -> Result<(), AllocError>
        ensures { OnOk result (into.new.items ≡ into.old.items ++ entries.now) };

    /// Adds two entries of one key, as one, at the end of a list.
    fn push_merged(
        alloc: Global,
        into: &mut Vec<Self::Entry>,
        mine: &Self::Entry,
        theirs: &Self::Entry,
    ) -> Result<(), AllocError>
        requires { kin mine.now theirs.now }
        ensures { OnOk result (into.new.items ≡ into.old.items ++ onto mine.now theirs.now ∷ []) };

    /// Whether putting the first entry and the second of one key together gives the second.
    fn is_absorbed(mine: &Self::Entry, theirs: &Self::Entry) -> bool
        requires kin { kin mine.now theirs.now }
        requires same { Self.Key.cmp (key mine.now) (key theirs.now) ≡ Equal }
        ensures { IsTrue result ↔ (onto mine.now theirs.now ≡ theirs.now) };

    // two entries as one have the key of the first
    ghost keeps: { (x y : Self.Entry) → key (onto x y) ≡ key x };
}

/// The place of the key's entry, or else, as the error, the place where it would go. The keys have to ascend.
pub fn place_of<M: Entries>(entries: &[M::Entry], key: &M::Key) -> Result<usize, usize>
    requires { IsAscending (on M.key M.Key.cmp) entries.now }
    ensures at { IfOk result (IsAt (λ e. M.Key.cmp (M.key e) key.now) entries.now) }
    ensures gap { IfErr result (IsGap (λ e. M.Key.cmp (M.key e) key.now) entries.now) }
{
    entries.binary_search_by_key(key, |entry| M::key_of(entry))
}

/// How two entries compare by their keys.
#[inline(always)]
fn compare<M: Entries>(x: &M::Entry, y: &M::Entry) -> Ordering
    ensures { result ≡ on M.key M.Key.cmp x.now y.now }
{
    M::key_of(x).cmp(&M::key_of(y))
}

/// The entries of both lists, as one if both have one of a key, in one pass. The keys of both have to ascend. The only error is out of
/// memory.
pub fn union_of<M: Entries>(
    alloc: Global,
    mine: &[M::Entry],
    theirs: &[M::Entry],
) -> Result<Vec<M::Entry>, AllocError>
    requires { Mergeable (on M.key M.Key.cmp) M.kin mine.now theirs.now }
    ensures { IfOk result (λ v. v.items ≡ union (on M.key M.Key.cmp) M.onto mine.now theirs.now) }
{
    let mut entries = Vec::with_capacity(alloc, mine.len().saturating_add(theirs.len()))?;
    let mut i = 0;
    let mut j = 0;
    while i < mine.len() && j < theirs.len() {
        let x = &mine[i];
        let y = &theirs[j];
        match compare::<M>(x, y) {
            Ordering::Less => {
                M::push_copy(alloc, &mut entries, x)?;
                i += 1;
            }
            Ordering::Equal => {
                M::push_merged(alloc, &mut entries, x, y)?;
                i += 1;
                j += 1;
            }
            Ordering::Greater => {
                M::push_copy(alloc, &mut entries, y)?;
                j += 1;
            }
        }
    }
    M::push_copies(alloc, &mut entries, &mine[i..])?;
    M::push_copies(alloc, &mut entries, &theirs[j..])?;
    Ok(entries)
}

/// Whether merging the first list into the second changes nothing, in one pass. The keys of both have to ascend.
pub fn is_part<M: Entries>(mine: &[M::Entry], theirs: &[M::Entry]) -> bool
    requires { Mergeable (on M.key M.Key.cmp) M.kin mine.now theirs.now }
    ensures { IsTrue result ↔ (union (on M.key M.Key.cmp) M.onto mine.now theirs.now ≡ theirs.now) }
{
    let mut i = 0;
    let mut j = 0;
    while i < mine.len() {
        if j >= theirs.len() {
            return false;
        }
        let x = &mine[i];
        let y = &theirs[j];
        match compare::<M>(x, y) {
            Ordering::Less => return false,
            Ordering::Equal => {
                if !M::is_absorbed(x, y) {
                    return false;
                }
                i += 1;
                j += 1;
            }
            Ordering::Greater => {
                j += 1;
            }
        }
    }
    true
}
