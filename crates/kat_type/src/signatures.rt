//! What may be called: the operations and queries of a type, by name and sorts.
ghost use Rattle.std.specs.Prelude.{◌≡◌, IfOk};

use crate::copying::copied;
use kat_num::{Items, Sort};
use std::alloc::{AllocError, Global};

/// An operation: its name, by its code, and the sorts of its arguments.
#[derive(Debug, PartialEq)]
pub struct OpSig {
    pub name: u128,
    pub sorts: Items<Sort>,
}

impl Drop for OpSig {
    fn drop(self) {
        let Self { name: _, sorts: _ } = self;
    }
}

/// A query: its name, by its code, the sorts of its arguments, and the sort of its answer.
#[derive(Debug, PartialEq)]
pub struct QuerySig {
    pub name: u128,
    pub sorts: Items<Sort>,
    pub sort: Sort,
}

impl Drop for QuerySig {
    fn drop(self) {
        let Self {
            name: _,
            sorts: _,
            sort: _,
        } = self;
    }
}

/// The operations and queries of a type, at most 12 of each, with names that all differ.
#[derive(Debug, PartialEq)]
pub struct Signature {
    pub ops: Items<OpSig>,
    pub queries: Items<QuerySig>,
}

impl Drop for Signature {
    fn drop(self) {
        let Self { ops: _, queries: _ } = self;
    }
}

impl OpSig {
    /// An equal operation.
    pub fn copy(&self, alloc: Global) -> Result<OpSig, AllocError>
        ensures { IfOk result (λ copy. copy ≡ self.now) }
    {
        Ok(OpSig {
            name: self.name,
            sorts: copied(alloc, self.sorts.as_slice())?,
        })
    }
}

impl QuerySig {
    /// An equal query.
    pub fn copy(&self, alloc: Global) -> Result<QuerySig, AllocError>
        ensures { IfOk result (λ copy. copy ≡ self.now) }
    {
        Ok(QuerySig {
            name: self.name,
            sorts: copied(alloc, self.sorts.as_slice())?,
            sort: self.sort,
        })
    }
}

impl Signature {
    /// An equal signature.
    pub fn copy(&self, alloc: Global) -> Result<Signature, AllocError>
        ensures { IfOk result (λ copy. copy ≡ self.now) }
    {
        let ops = copied_ops(alloc, self.ops.as_slice())?;
        let queries = copied_queries(alloc, self.queries.as_slice())?;
        Ok(Signature {
            ops: Items::from_vec(ops),
            queries: Items::from_vec(queries),
        })
    }
}

/// Equal operations, in their order.
fn copied_ops(alloc: Global, ops: &[OpSig]) -> Result<Vec<OpSig>, AllocError>
    ensures { IfOk result (λ copies. copies.items ≡ ops.now) }
{
    let mut copies = Vec::new(alloc);
    for op in ops {
        copies.push(op.copy(alloc)?)?;
    }
    Ok(copies)
}

/// Equal queries, in their order.
fn copied_queries(alloc: Global, queries: &[QuerySig]) -> Result<Vec<QuerySig>, AllocError>
    ensures { IfOk result (λ copies. copies.items ≡ queries.now) }
{
    let mut copies = Vec::new(alloc);
    for query in queries {
        copies.push(query.copy(alloc)?)?;
    }
    Ok(copies)
}
