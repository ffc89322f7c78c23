//! Histories, and the list of all of them.
ghost use Rattle.std.specs.Prelude.{◌≡◌, ◌<◌, length, Some, IfOk, slice_get};
ghost use Rattle.kat_histories.specs.Histories.{histories};
ghost use Rattle.kat_type.specs.Fits as types;
ghost use Rattle.kat_type.specs.Signatures.{signature_of};
ghost use Rattle.kat_type.specs.Types.{type_form};

use crate::calls::{Call, calls_of};
use crate::groups::{Group, groups_of, history_among, total_of};
use kat_num::Items;
use kat_type::{Done, SeqType, signature, signatures_are_small};
use std::alloc::{AllocError, Global};
use std::marker::Model;

/// The greatest number of histories that are looked at for one design.
pub const HISTORY_LIMIT: u64 = 50_000;

/// What was done at two replicas, in the order of the stamps.
#[derive(Debug, Drop, PartialEq)]
pub struct History {
    pub ops: Items<Done>,
}

impl History {
    /// An equal history.
    pub fn copy(&self, alloc: Global) -> Result<History, AllocError>
        ensures { IfOk result (λ copy. copy ≡ self.now) }
    {
        let mut ops = Vec::with_capacity(alloc, self.ops.as_slice().len())?;
        for op in self.ops.as_slice() {
            ops.push(op.copy(alloc)?)?;
        }
        Ok(History {
            ops: Items::from_vec(ops),
        })
    }
}

/// The histories of a type, in order: by the number of their operations, then by their stamps, then by the calls. They are
/// made one by one, and not kept.
pub struct Histories {
    groups: Vec<Group>,
    calls: Vec<Call>,
    len: u64,
}

impl Drop for Histories {
    fn drop(self) {
        let Self {
            groups: _,
            calls: _,
            len: _,
        } = self;
    }
}

impl Model for Histories {
    ghost use Rattle.std.specs.Prelude.{◌≡◌, List, length, take};
    ghost use Rattle.kat_histories.specs.Groups.{groups_of};
    ghost use Rattle.kat_histories.specs.Histories.{all_histories};
    ghost use Rattle.kat_histories.specs.declared.histories.History as history;
    ghost use Rattle.kat_histories.specs.declared.histories.TheConstants.{HISTORY_LIMIT};

    ghost Value = { List history.History };

    ghost view = { λ h. take HISTORY_LIMIT (all_histories h.calls.items) };

    ghost invariant = { λ h. (h.groups.items ≡ groups_of (length h.calls.items)) × (h.len ≡ length (take HISTORY_LIMIT (all_histories h.calls.items))) };
}

impl Histories {
    /// The histories of a type.
    pub fn new(alloc: Global, ty: &SeqType) -> Result<Histories, AllocError>
        requires sorted { types.IsWellSorted (type_form ty.now) }
        ensures { IfOk result (λ whole. whole ≡ histories (signature_of (type_form ty.now))) }
    {
        signatures_are_small();
        let sig = signature(alloc, ty)?;
        let calls = calls_of(alloc, &sig)?;
        let groups = groups_of(alloc, calls.len())?;
        let len = total_of(&groups);
        Ok(Histories { groups, calls, len })
    }

    /// How many there are.
    pub fn len(&self) -> u64
        ensures { result ≡ length self.now }
    {
        self.len
    }

    /// The history with this number, from 0. The number is below `len`.
    pub fn get(&self, alloc: Global, i: u64) -> Result<History, AllocError>
        requires { i < length self.now }
        ensures { IfOk result (λ found. slice_get self.now i ≡ Some found) }
    {
        history_among(alloc, &self.groups, &self.calls, i)
    }
}
