//! Operations that were done.
ghost use Rattle.std.specs.Prelude.{◌≡◌, IfOk};

use crate::copying::copied;
use kat_num::{Items, Value};
use std::alloc::{AllocError, Global};

/// An operation done: at which replica (from 1) and time, which operation of the signature (from 0),
/// with which arguments. Time and replica name it: no other operation of a script has both.
#[derive(Debug, PartialEq)]
pub struct Done {
    pub replica: u32,
    pub time: u64,
    pub op: u32,
    pub args: Items<Value>,
}

impl Drop for Done {
    fn drop(self) {
        let Self {
            replica: _,
            time: _,
            op: _,
            args: _,
        } = self;
    }
}

impl Done {
    /// An equal operation.
    pub fn copy(&self, alloc: Global) -> Result<Done, AllocError>
        ensures { IfOk result (λ copy. copy ≡ self.now) }
    {
        let args = copied(alloc, self.args.as_slice())?;
        Ok(Done {
            replica: self.replica,
            time: self.time,
            op: self.op,
            args,
        })
    }
}
