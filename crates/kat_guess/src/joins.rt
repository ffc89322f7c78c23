//! The rule of joins: greatest values, and truth values that stay as they became.

use kat_design::Leaf;
use kat_num::{Sort, Value};
use kat_reading::{
    Doing, Gift, Given, Join, Kept, LeafAt, Made, Miss, Reading, cell_or_table, push,
};
use kat_shape::Shape;
use std::alloc::Global;

/// A field of which operations keep the greater, `or` or `and`: a cell or a table that joins so, for `and` turned. Of what
/// keeps the lesser the proof would have to know that it is never below 0 with the other sign, which no relation says.
pub(crate) fn joins(alloc: Global, kept: &Kept, base: u32) -> Result<Made, Miss> {
    let by = join_of(&kept.doings)?;
    let mut gifts = Vec::new(alloc);
    for doing in &kept.doings {
        push(&mut gifts, gift(alloc, by, *doing)?)?;
    }
    let mut starts = Vec::new(alloc);
    push(&mut starts, start_of(by, kept.start)?)?;
    let shape = shape_of(by, kept.sort);
    let mut components = Vec::new(alloc);
    push(
        &mut components,
        cell_or_table(alloc, kept.key, shape, starts, gifts)?,
    )?;
    let at = LeafAt {
        component: base,
        leaf: 0,
        keyed: kept.key.is_some(),
    };
    Ok(Made {
        components,
        reading: reading_of(by, at),
    })
}

/// The join of the first operation that joins.
fn join_of(doings: &[Doing]) -> Result<Join, Miss> {
    for doing in doings {
        if let Doing::Joins { by, .. } = doing {
            return Ok(*by);
        }
    }
    Err(Miss::NoRule)
}

/// What an operation joins, if all join alike.
fn gift(alloc: Global, by: Join, doing: Doing) -> Result<Option<Gift>, Miss> {
    match doing {
        Doing::Nothing => Ok(None),
        Doing::Joins {
            key,
            given,
            by: own,
        } => {
            if own != by {
                return Err(Miss::NoRule);
            }
            let mut leaves = Vec::new(alloc);
            push(&mut leaves, joined_leaf(by, given)?)?;
            Ok(Some(Gift { key, leaves }))
        }
        _ => Err(Miss::NoRule),
    }
}

/// The leaf that is joined.
fn joined_leaf(by: Join, given: Given) -> Result<Leaf, Miss> {
    match by {
        Join::Greater | Join::Or => leaf_of(given),
        Join::And => match given {
            Given::Const(Value::Bool(truth)) => Ok(if truth { Leaf::False } else { Leaf::True }),
            _ => Err(Miss::NoRule),
        },
    }
}

/// The leaf for a constant or an argument.
pub(crate) fn leaf_of(given: Given) -> Result<Leaf, Miss> {
    match given {
        Given::Arg { place, .. } => Ok(Leaf::Arg(place)),
        Given::Const(Value::Num(0)) => Ok(Leaf::Zero),
        Given::Const(Value::Num(1)) => Ok(Leaf::One),
        Given::Const(Value::Bool(false)) => Ok(Leaf::False),
        Given::Const(Value::Bool(true)) => Ok(Leaf::True),
        Given::Const(_) => Err(Miss::NoRule),
    }
}

/// The shape of what is joined.
fn shape_of(by: Join, sort: Sort) -> Shape {
    match (by, sort) {
        (Join::Greater, Sort::Name) => Shape::Name,
        (Join::Greater, _) => Shape::Max,
        (Join::Or | Join::And, _) => Shape::Or,
    }
}

/// The start of what is joined.
fn start_of(by: Join, start: Value) -> Result<Value, Miss> {
    match (by, start) {
        (Join::Greater | Join::Or, start) => Ok(start),
        (Join::And, Value::Bool(truth)) => Ok(Value::Bool(!truth)),
        _ => Err(Miss::NoRule),
    }
}

/// How the field is read.
fn reading_of(by: Join, at: LeafAt) -> Reading {
    match by {
        Join::Greater | Join::Or => Reading::Leaf(at),
        Join::And => Reading::Turned(at),
    }
}
