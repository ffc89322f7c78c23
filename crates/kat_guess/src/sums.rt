//! The rule of sums: what is added is kept in one tally, and what is taken away in another.

use kat_design::{Component, Leaf};
use kat_num::{Sort, Value};
use kat_reading::{
    Doing, Given, Kept, LeafAt, Made, Miss, Reading, Weight, number_of, push, tally,
};
use std::alloc::Global;

/// What an operation adds to the two tallies of a sum.
#[derive(Clone, Copy)]
struct Weights {
    added: Option<Weight>,
    taken: Option<Weight>,
}

/// A field that operations only add to and take from: a tally of what was added, one of what was taken away, and their
/// difference. Of a signed argument the one has what is above 0, and the other what is below. A field that no operation
/// changes has no tally at all.
pub(crate) fn sums(alloc: Global, kept: &Kept, base: u32) -> Result<Made, Miss> {
    let mut added = Vec::new(alloc);
    let mut taken = Vec::new(alloc);
    for doing in &kept.doings {
        let weights = weights_of(*doing)?;
        push(&mut added, weights.added)?;
        push(&mut taken, weights.taken)?;
    }
    let mut components = Vec::new(alloc);
    let added = counted(alloc, kept.key, base, &added, &mut components)?;
    let taken = counted(alloc, kept.key, base, &taken, &mut components)?;
    let reading = Reading::Sum {
        start: kept.start,
        added,
        taken,
    };
    Ok(Made {
        components,
        reading,
    })
}

/// Appends a tally of the weights to the components, if there are any.
fn counted(
    alloc: Global,
    key: Option<Sort>,
    base: u32,
    weights: &[Option<Weight>],
    components: &mut Vec<Component>,
) -> Result<Option<LeafAt>, Miss> {
    if weights.iter().all(|weight| weight.is_none()) {
        return Ok(None);
    }
    let component = base.saturating_add(number_of(components.len()));
    push(components, tally(alloc, key, weights)?)?;
    Ok(Some(LeafAt {
        component,
        leaf: 0,
        keyed: key.is_some(),
    }))
}

/// What an operation adds to the two tallies.
fn weights_of(doing: Doing) -> Result<Weights, Miss> {
    match doing {
        Doing::Nothing => Ok(Weights {
            added: None,
            taken: None,
        }),
        Doing::Adds { key, given, away } => {
            let weights = given_weights(key, given)?;
            Ok(if away { turned(weights) } else { weights })
        }
        _ => Err(Miss::NoRule),
    }
}

/// The same, with what was added taken away.
fn turned(weights: Weights) -> Weights {
    Weights {
        added: weights.taken,
        taken: weights.added,
    }
}

/// What adding a constant or an argument adds to the two tallies.
fn given_weights(key: Option<u32>, given: Given) -> Result<Weights, Miss> {
    match given {
        Given::Const(Value::Num(0)) => Ok(only(key, Leaf::Zero)),
        Given::Const(Value::Num(1)) => Ok(only(key, Leaf::One)),
        Given::Const(Value::Num(-1)) => Ok(turned(only(key, Leaf::One))),
        Given::Arg {
            place,
            sort: Sort::Nat,
        } => Ok(only(key, Leaf::Arg(place))),
        Given::Arg {
            place,
            sort: Sort::Int,
        } => Ok(Weights {
            added: Some(Weight {
                key,
                leaf: Leaf::Pos(place),
            }),
            taken: Some(Weight {
                key,
                leaf: Leaf::Neg(place),
            }),
        }),
        _ => Err(Miss::NoRule),
    }
}

/// A weight that is only added.
fn only(key: Option<u32>, leaf: Leaf) -> Weights {
    Weights {
        added: Some(Weight { key, leaf }),
        taken: None,
    }
}
