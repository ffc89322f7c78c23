//! A replica at a pointer that C holds.
ghost use Rattle.std.specs.Prelude.{◌≡◌, Option, None, Some, MatchOption};
ghost use Rattle.std.specs.Coded.{coded_option};
ghost use Rattle.kat_embed.specs.contracts.contents.Contents as contents;
ghost use Rattle.kat_embed.specs.declared.contents.Contents.{Contents};
ghost use Rattle.katara_c.specs.Holding.{holds};

use crate::loose::Loose;
use kat_embed::Embedded;
use std::alloc::Global;
use std::marker::Model;
use std::mem;

/// Null, or a pointer that `Handle::of` gave. `replica` is what lies there.
#[repr(C)]
#[derive(Drop)]
pub struct Handle {
    at: *mut u8,
    pub ghost replica: { Option Contents } by { coded_option contents.the_row.coded },
}

impl Model for Handle {
    ghost also_owns = { λ h. holds h.at h.replica };
}

impl Handle {
    /// A handle that has none.
    pub fn none() -> Handle
        ensures { result.replica ≡ None }
    {
        Handle {
            at: std::ptr::null_mut(),
        }
    }

    pub(crate) fn of(loose: Loose<Embedded, Global>) -> Handle
        ensures { result.replica ≡ Some loose.value }
    {
        let Loose { at, alloc: _ } = loose;
        Handle { at: at as *mut u8 }
    }

    pub(crate) fn into_loose(self, alloc: Global) -> Option<Loose<Embedded, Global>>
        ensures { MatchOption result (self.replica ≡ None) (λ loose. self.replica ≡ Some loose.value) }
    {
        let Handle { at } = self;
        if at.is_null() {
            None
        } else {
            Some(Loose {
                at: at as *mut Embedded,
                alloc,
            })
        }
    }

    /// The replica itself, until `put` puts it back.
    pub fn take(&mut self, alloc: Global) -> Option<Box<Embedded>>
        ensures taken { MatchOption result (self.old.replica ≡ None) (λ replica. self.old.replica ≡ Some replica.value) }
        ensures empty { self.new.replica ≡ None }
    {
        match mem::replace(self, Handle::none()).into_loose(alloc) {
            Some(loose) => Some(loose.into_box()),
            None => None,
        }
    }

    /// Puts a replica into a handle that has none.
    pub fn put(&mut self, replica: Box<Embedded>)
        requires { self.old.replica ≡ None }
        ensures { self.new.replica ≡ Some replica.value }
    {
        *self = Handle::of(Loose::of(replica));
    }
}
