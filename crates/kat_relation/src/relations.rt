//! Conjuncts, and relations made of them.
ghost use Rattle.std.specs.Prelude.{◌≡◌, IfOk};

use kat_num::Items;
use std::alloc::{AllocError, Global};

/// A leaf of a component, both numbered from 0.
#[derive(Clone, Copy, PartialEq, Eq, Debug)]
pub struct LeafRef {
    pub component: u32,
    pub leaf: u32,
}

/// A claim about a state of a type, a state of a design, and the rank of the last operation. A conjunct on what is kept
/// by key says its claim at every key.
pub enum Conjunct {
    /// The query has the same answer on both sides, at every key if it has a parameter.
    Query(u32),
    /// The field is the leaf.
    Equal {
        field: u32,
        leaf: LeafRef,
    },
    /// If there is a last operation, the list of the leaves is at most that of its rank's elements from the position
    /// on, as many as there are leaves.
    Bounded {
        leaves: Items<LeafRef>,
        position: u32,
    },
    /// If the leaf is true, there is a last operation, and the element of its rank at the position is at least the
    /// digit.
    AtLeast {
        leaf: LeafRef,
        position: u32,
        digit: u32,
    },
    /// If the first leaf is the last rank's element at the position, and the second leaf is true, the element at the
    /// later position is at least the digit.
    Matched {
        first: LeafRef,
        position: u32,
        second: LeafRef,
        later: u32,
        digit: u32,
    },
    /// The sum of the tally is at least 0.
    Total(u32),
}

impl Drop for Conjunct {
    fn drop(self) {
        match self {
            Self::Query(_) => {}
            Self::Equal { field: _, leaf: _ } => {}
            Self::Bounded {
                leaves: _,
                position: _,
            } => {}
            Self::AtLeast {
                leaf: _,
                position: _,
                digit: _,
            } => {}
            Self::Matched {
                first: _,
                position: _,
                second: _,
                later: _,
                digit: _,
            } => {}
            Self::Total(_) => {}
        }
    }
}

/// A relation holds if all of its conjuncts do.
#[derive(Drop)]
pub struct Relation {
    pub conjuncts: Items<Conjunct>,
}

impl Conjunct {
    /// An equal conjunct.
    pub fn copy(&self, alloc: Global) -> Result<Conjunct, AllocError>
        ensures { IfOk result (λ copy. copy ≡ self.now) }
    {
        match self {
            Conjunct::Query(query) => Ok(Conjunct::Query(*query)),
            Conjunct::Equal { field, leaf } => Ok(Conjunct::Equal {
                field: *field,
                leaf: *leaf,
            }),
            Conjunct::Bounded { leaves, position } => Ok(Conjunct::Bounded {
                leaves: copied(alloc, leaves.as_slice())?,
                position: *position,
            }),
            Conjunct::AtLeast {
                leaf,
                position,
                digit,
            } => Ok(Conjunct::AtLeast {
                leaf: *leaf,
                position: *position,
                digit: *digit,
            }),
            Conjunct::Matched {
                first,
                position,
                second,
                later,
                digit,
            } => Ok(Conjunct::Matched {
                first: *first,
                position: *position,
                second: *second,
                later: *later,
                digit: *digit,
            }),
            Conjunct::Total(component) => Ok(Conjunct::Total(*component)),
        }
    }
}

/// Equal leaves.
fn copied(alloc: Global, leaves: &[LeafRef]) -> Result<Items<LeafRef>, AllocError>
    ensures { IfOk result (λ copy. copy ≡ leaves.now) }
{
    Ok(Items::from_vec(Vec::from_slice(alloc, leaves)?))
}

impl Relation {
    /// An equal relation.
    pub fn copy(&self, alloc: Global) -> Result<Relation, AllocError>
        ensures { IfOk result (λ copy. copy ≡ self.now) }
    {
        let conjuncts = copied_conjuncts(alloc, self.conjuncts.as_slice())?;
        Ok(Relation {
            conjuncts: Items::from_vec(conjuncts),
        })
    }
}

/// Equal conjuncts.
fn copied_conjuncts(alloc: Global, conjuncts: &[Conjunct]) -> Result<Vec<Conjunct>, AllocError>
    ensures { IfOk result (λ copies. copies.items ≡ conjuncts.now) }
{
    let mut copies = Vec::new(alloc);
    for conjunct in conjuncts {
        let copy = conjunct.copy(alloc)?;
        copies.push(copy)?;
    }
    Ok(copies)
}
