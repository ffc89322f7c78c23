//! What a formula may read: leaves of a design, and the arguments of a query.

use crate::combinations::{Atom, Linear};
use kat_design::Ask;
use kat_num::Sort;
use kat_reading::LeafAt;

/// A leaf that is kept: a formula that reads it means a multiple of the leaf.
#[derive(Clone, Copy, Debug)]
pub struct Stored {
    pub at: LeafAt,
    /// A number, whatever its sign, has the sort `Int`.
    pub sort: Sort,
    pub factor: i128,
    /// Bounds of the leaf, if any are known.
    pub least: Option<i128>,
    pub most: Option<i128>,
}

/// What is read: the leaves from the number `first` on, and the sorts of the arguments.
#[derive(Drop)]
pub struct Scope {
    pub first: u32,
    pub stored: Vec<Stored>,
    pub sorts: Vec<Sort>,
}

/// The leaf that has a number.
pub(crate) fn stored_at(scope: &Scope, field: u32) -> Option<Stored> {
    match field.checked_sub(scope.first) {
        None => None,
        Some(place) => match scope.stored.get(place as usize) {
            Some(stored) => Some(*stored),
            None => None,
        },
    }
}

/// The sort of an argument.
pub(crate) fn sort_of(scope: &Scope, place: u32) -> Option<Sort> {
    match scope.sorts.get(place as usize) {
        Some(sort) => Some(*sort),
        None => None,
    }
}

/// Bounds of an atom, if any are known.
fn bounds(scope: &Scope, atom: Atom) -> (Option<i128>, Option<i128>) {
    match atom {
        Atom::Arg(place) => match sort_of(scope, place) {
            Some(Sort::Nat) => (Some(0), None),
            _ => (None, None),
        },
        Atom::Read { field, .. } => match stored_at(scope, field) {
            Some(stored) => (stored.least, stored.most),
            None => (None, None),
        },
    }
}

/// The least value of a linear combination of leaves and arguments, if one is known.
pub(crate) fn least(scope: &Scope, linear: &Linear) -> Option<i128> {
    let mut sum = Some(linear.constant);
    for term in &linear.terms {
        let (low, high) = bounds(scope, term.atom);
        let bound = if term.factor < 0 { high } else { low };
        sum = raised(sum, bound, term.factor);
    }
    sum
}

/// The greatest value of a linear combination of leaves and arguments, if one is known.
pub(crate) fn most(scope: &Scope, linear: &Linear) -> Option<i128> {
    let mut sum = Some(linear.constant);
    for term in &linear.terms {
        let (low, high) = bounds(scope, term.atom);
        let bound = if term.factor < 0 { low } else { high };
        sum = raised(sum, bound, term.factor);
    }
    sum
}

/// A sum plus a multiple of a bound, if there are both.
fn raised(sum: Option<i128>, bound: Option<i128>, factor: i128) -> Option<i128> {
    match (sum, bound) {
        (Some(sum), Some(bound)) => match bound.checked_mul(factor) {
            Some(product) => sum.checked_add(product),
            None => None,
        },
        _ => None,
    }
}

/// The ask of a leaf.
pub(crate) fn leaf_ask(at: LeafAt, key: Option<u32>) -> Ask {
    Ask::Leaf {
        component: at.component,
        leaf: at.leaf,
        key: if at.keyed { key } else { None },
    }
}
