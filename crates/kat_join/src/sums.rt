//! The entries of tallies.

use super::merge::Entries;
use std::alloc::{AllocError, Global};

/// The entries of a tally: replicas and their sums.
pub struct SumEntries;

impl Entries for SumEntries {
    ghost use Rattle.std.specs.Prelude.{max, refl};
    ghost use Rattle.kat_join.specs.Keyed.{on_value};
    ghost use Rattle.kat_join.specs.Merging.{any_two};

    type Key = u32;

    type Entry = (u32, u128);

    ghost key = { λ e. e.0 };

    ghost onto = { on_value max };

    ghost kin = { any_two };

    #[inline(always)]
    fn key_of(entry: &(u32, u128)) -> u32 {
        entry.0
    }

    #[inline(always)]
    fn push_copy(
        _alloc: Global,
        into: &mut Vec<(u32, u128)>,
        entry: &(u32, u128),
    ) -> Result<(), AllocError> {
        into.push(*entry)?;
        Ok(())
    }

    fn push_copies(
        _alloc: Global,
        into: &mut Vec<(u32, u128)>,
        entries: &[(u32, u128)],
    ) -> Result<(), AllocError> {
        into.extend_from_slice(entries)
    }

    #[inline(always)]
    fn push_merged(
        _alloc: Global,
        into: &mut Vec<(u32, u128)>,
        mine: &(u32, u128),
        theirs: &(u32, u128),
    ) -> Result<(), AllocError> {
        into.push((mine.0, mine.1.max(theirs.1)))?;
        Ok(())
    }

    #[inline(always)]
    fn is_absorbed(mine: &(u32, u128), theirs: &(u32, u128)) -> bool {
        mine.1 <= theirs.1
    }

    ghost keeps = { λ x y. refl };
}
