//! How the value of a field is read from components.

use crate::asks::{both, chosen, either, known, less, minus, negated, plus, truth};
use kat_design::Ask;
use kat_num::Value;
use std::alloc::{AllocError, Global};

/// A leaf of a component, which may have keys.
#[derive(Clone, Copy, Debug)]
pub struct LeafAt {
    pub component: u32,
    pub leaf: u32,
    pub keyed: bool,
}

/// A condition on components.
#[derive(Clone, Copy)]
pub enum Guard {
    Leaf(LeafAt),
    /// The table was cleared after its last write: by the first leaves of both components, which are ranks. If `ties`,
    /// the clear counts at equal ranks.
    Cleared {
        clear: u32,
        table: u32,
        ranks: u32,
        ties: bool,
    },
}

/// How the value of a field is read.
#[derive(Drop)]
pub enum Reading {
    /// It has a value that never changes.
    Start(Value),
    Leaf(LeafAt),
    /// It is the leaf, denied.
    Turned(LeafAt),
    /// It is the start, with what was added and without what was taken away.
    Sum {
        start: Value,
        added: Option<LeafAt>,
        taken: Option<LeafAt>,
    },
    /// It is a value if a condition holds, and otherwise what another reading gives.
    Choice {
        when: Guard,
        then: Value,
        other: Box<Reading>,
    },
}

/// What an expression means: an ask; or a number or a name that no ask gives, but that asks can compare.
#[derive(Drop)]
pub(crate) enum Meaning {
    Plain(Ask),
    Greater(Box<Meaning>, Box<Meaning>),
    Lesser(Box<Meaning>, Box<Meaning>),
    Choice {
        when: Ask,
        then: Box<Meaning>,
        other: Box<Meaning>,
    },
}

/// What a field means, at the key that is the query's argument with that number.
pub(crate) fn read(
    alloc: Global,
    reading: &Reading,
    key: Option<u32>,
) -> Result<Meaning, AllocError> {
    match reading {
        Reading::Start(value) => Ok(Meaning::Plain(Ask::Const(*value))),
        Reading::Leaf(at) => Ok(Meaning::Plain(leaf(*at, key))),
        Reading::Turned(at) => Ok(Meaning::Plain(negated(alloc, leaf(*at, key))?)),
        Reading::Sum {
            start,
            added,
            taken,
        } => Ok(Meaning::Plain(sum(alloc, *start, *added, *taken, key)?)),
        Reading::Choice { when, then, other } => {
            let other = read(alloc, other, key)?;
            let when = guard_ask(alloc, *when, key)?;
            choice(alloc, when, *then, other)
        }
    }
}

/// A leaf, at the key if the component has keys.
fn leaf(at: LeafAt, key: Option<u32>) -> Ask {
    Ask::Leaf {
        component: at.component,
        leaf: at.leaf,
        key: if at.keyed { key } else { None },
    }
}

/// A start with what was added, and without what was taken away.
fn sum(
    alloc: Global,
    start: Value,
    added: Option<LeafAt>,
    taken: Option<LeafAt>,
    key: Option<u32>,
) -> Result<Ask, AllocError> {
    let more = match added {
        None => Ask::Const(start),
        Some(at) => raised(alloc, start, leaf(at, key))?,
    };
    match taken {
        None => Ok(more),
        Some(at) => minus(alloc, more, leaf(at, key)),
    }
}

/// A sum with a start, which isn't added if it is 0.
fn raised(alloc: Global, start: Value, sum: Ask) -> Result<Ask, AllocError> {
    match start {
        Value::Num(0) => Ok(sum),
        other => plus(alloc, Ask::Const(other), sum),
    }
}

/// What a choice means: of truth values an ask.
fn choice(alloc: Global, when: Ask, then: Value, other: Meaning) -> Result<Meaning, AllocError> {
    match (then, other) {
        (Value::Bool(true), Meaning::Plain(other)) => {
            Ok(Meaning::Plain(either(alloc, other, when)?))
        }
        (Value::Bool(false), Meaning::Plain(other)) => {
            let unless = negated(alloc, when)?;
            Ok(Meaning::Plain(both(alloc, other, unless)?))
        }
        (then, other) => {
            let then = Box::new(alloc, Meaning::Plain(Ask::Const(then)))?;
            let other = Box::new(alloc, other)?;
            Ok(Meaning::Choice { when, then, other })
        }
    }
}

/// The ask of a condition.
fn guard_ask(alloc: Global, guard: Guard, key: Option<u32>) -> Result<Ask, AllocError> {
    match guard {
        Guard::Leaf(at) => Ok(leaf(at, key)),
        Guard::Cleared {
            clear,
            table,
            ranks,
            ties,
        } => {
            let mut ask = truth(ties);
            for place in (0..ranks).rev() {
                let at = LeafAt {
                    component: table,
                    leaf: place,
                    keyed: true,
                };
                let cleared = LeafAt {
                    component: clear,
                    leaf: place,
                    keyed: false,
                };
                ask = before(alloc, &leaf(at, key), &leaf(cleared, key), ask)?;
            }
            Ok(ask)
        }
    }
}

/// Whether the first comes before the second; if they are equal, it is what else is asked.
fn before(alloc: Global, first: &Ask, second: &Ask, equal: Ask) -> Result<Ask, AllocError> {
    match known(&equal) {
        Some(false) => less(alloc, first, second),
        Some(true) => {
            let behind = less(alloc, second, first)?;
            negated(alloc, behind)
        }
        None => {
            let behind = less(alloc, second, first)?;
            let not_behind = negated(alloc, behind)?;
            let equal = both(alloc, not_behind, equal)?;
            let ahead = less(alloc, first, second)?;
            either(alloc, ahead, equal)
        }
    }
}

/// Whether the first of two numbers or names is less.
pub(crate) fn below(alloc: Global, left: &Meaning, right: &Meaning) -> Result<Ask, AllocError> {
    match left {
        Meaning::Plain(ask) => above(alloc, right, ask),
        Meaning::Greater(one, other) => {
            let one = below(alloc, one, right)?;
            let other = below(alloc, other, right)?;
            both(alloc, one, other)
        }
        Meaning::Lesser(one, other) => {
            let one = below(alloc, one, right)?;
            let other = below(alloc, other, right)?;
            either(alloc, one, other)
        }
        Meaning::Choice { when, then, other } => {
            let then = below(alloc, then, right)?;
            let other = below(alloc, other, right)?;
            chosen(alloc, when, then, other)
        }
    }
}

/// Whether what is asked is less than the first.
fn above(alloc: Global, meaning: &Meaning, ask: &Ask) -> Result<Ask, AllocError> {
    match meaning {
        Meaning::Plain(other) => less(alloc, ask, other),
        Meaning::Greater(one, other) => {
            let one = above(alloc, one, ask)?;
            let other = above(alloc, other, ask)?;
            either(alloc, one, other)
        }
        Meaning::Lesser(one, other) => {
            let one = above(alloc, one, ask)?;
            let other = above(alloc, other, ask)?;
            both(alloc, one, other)
        }
        Meaning::Choice { when, then, other } => {
            let then = above(alloc, then, ask)?;
            let other = above(alloc, other, ask)?;
            chosen(alloc, when, then, other)
        }
    }
}
