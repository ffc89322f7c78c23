//! Where and when operations are done.
ghost use Rattle.std.specs.Prelude.{◌≡◌, IfOk};
ghost use Rattle.kat_histories.specs.Histories.{stamp, stamp_lists, stamps};

use crate::choices::push_some_of;
use kat_num::Items;
use std::alloc::{AllocError, Global};

/// A replica (from 1) and a time, which together name an operation.
#[derive(Clone, Copy, Debug, PartialEq, Eq)]
pub struct Stamp {
    pub replica: u32,
    pub time: u64,
}

/// The lists of none to three stamps, ascending: by their number, and then lexicographically.
#[tactic(auto, unfolding(crate::specs::Histories::stamp_lists))]
pub(crate) fn stamp_lists(alloc: Global) -> Result<Vec<Items<Stamp>>, AllocError>
    ensures { IfOk result (λ lists. lists.items ≡ stamp_lists) }
{
    let stamps = all_stamps();
    let mut lists = Vec::new(alloc);
    push_some_of(alloc, 0, &stamps, &mut lists)?;
    push_some_of(alloc, 1, &stamps, &mut lists)?;
    push_some_of(alloc, 2, &stamps, &mut lists)?;
    push_some_of(alloc, 3, &stamps, &mut lists)?;
    Ok(lists)
}

/// All stamps, in their order.
#[tactic(auto, unfolding(crate::specs::Histories::stamps))]
fn all_stamps() -> [Stamp; 6]
    ensures { result ≡ stamps }
{
    [
        stamp_at(1, 1),
        stamp_at(2, 1),
        stamp_at(1, 2),
        stamp_at(2, 2),
        stamp_at(1, 3),
        stamp_at(2, 3),
    ]
}

fn stamp_at(replica: u32, time: u64) -> Stamp
    ensures { result ≡ stamp replica time }
{
    Stamp { replica, time }
}
