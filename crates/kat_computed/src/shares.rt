//! Sums of several shares, also with a cap.

use crate::chains::{LAYERS, chained, counted};
use kat_expr::Expr;
use kat_formulas::{Atom, Stored, constant, greater_of, lesser_of, linear_of, sum_of};
use kat_keeping::{
    Change, Piece, Share, Store, Subject, add_leaf, add_piece, factors_of, leaf_with, shares_of,
};
use kat_num::{Sort, Value};
use kat_reading::{LeafAt, Miss, Weight, push, tally};
use kat_type::{Operation, Param};
use std::alloc::Global;

/// Where a sum is cut.
#[derive(Clone, Copy, PartialEq, Eq, Debug)]
enum Cut {
    Not,
    Above(i128),
    Below(i128),
}

/// A field to which operations add several constants and arguments, each as often as a factor says: tallies of what is added,
/// one for each factor, with constants in steps if a query counts fewer then. A cap is asked if all that is added is above 0, and
/// likewise a floor.
pub(crate) fn shares(
    alloc: Global,
    ops: &[Operation],
    subject: &Subject,
    store: &mut Store,
) -> Result<Expr, Miss> {
    if subject.sort == Sort::Name || subject.sort == Sort::Bool {
        return Err(Miss::NoRule);
    }
    let cut = cut_of(subject)?;
    let mut all = Vec::new(alloc);
    for (op, change) in ops.iter().zip(subject.changes.iter()) {
        push(
            &mut all,
            shares_in(alloc, op.params.as_slice(), subject, change, cut)?,
        )?;
    }
    let steps = chained(alloc, &all)?;
    let fewer = counted(alloc, &steps)? < counted(alloc, &all)?;
    let sum = tallied(alloc, subject, if fewer { &steps } else { &all }, store)?;
    match cut {
        Cut::Not => Ok(sum),
        Cut::Above(bound) => Ok(lesser_of(alloc, sum, Expr::Const(Value::Num(bound)))?),
        Cut::Below(bound) => Ok(greater_of(alloc, sum, Expr::Const(Value::Num(bound)))?),
    }
}

/// Where the field is cut by all operations that change it; no rule fits if they differ, or if the start is cut.
fn cut_of(subject: &Subject) -> Result<Cut, Miss> {
    let mut found = None;
    for change in &subject.changes {
        match change {
            Change::Nothing => {}
            Change::Clears => return Err(Miss::NoRule),
            Change::Gives { right, .. } => {
                let (cut, _) = uncut(right);
                if found.is_some() && found != Some(cut) {
                    return Err(Miss::NoRule);
                }
                found = Some(cut);
            }
        }
    }
    match (found, subject.start) {
        (None | Some(Cut::Not), _) => Ok(Cut::Not),
        (Some(Cut::Above(bound)), Value::Num(start)) if start <= bound => Ok(Cut::Above(bound)),
        (Some(Cut::Below(bound)), Value::Num(start)) if start >= bound => Ok(Cut::Below(bound)),
        _ => Err(Miss::NoRule),
    }
}

/// Where a right side is cut, and what of it is cut.
fn uncut(right: &Expr) -> (Cut, &Expr) {
    match right {
        Expr::Min(one, other) => match (constant(one), constant(other)) {
            (Some(Value::Num(bound)), _) => (Cut::Above(bound), other),
            (_, Some(Value::Num(bound))) => (Cut::Above(bound), one),
            _ => (Cut::Not, right),
        },
        Expr::Max(one, other) => match (constant(one), constant(other)) {
            (Some(Value::Num(bound)), _) => (Cut::Below(bound), other),
            (_, Some(Value::Num(bound))) => (Cut::Below(bound), one),
            _ => (Cut::Not, right),
        },
        _ => (Cut::Not, right),
    }
}

/// The shares that an operation adds.
fn shares_in(
    alloc: Global,
    params: &[Param],
    subject: &Subject,
    change: &Change,
    cut: Cut,
) -> Result<Vec<Share>, Miss> {
    match change {
        Change::Nothing => Ok(Vec::new(alloc)),
        Change::Clears => Err(Miss::NoRule),
        Change::Gives { key, right } => {
            let own = Atom::Read {
                field: subject.field,
                key: *key,
            };
            let (_, inner) = uncut(right);
            let linear = linear_of(alloc, inner)?;
            if linear.factor(own) != 1 {
                return Err(Miss::NoRule);
            }
            let shares = shares_of(alloc, params, &linear.without(alloc, own)?, true)?;
            if !shares.iter().all(|share| goes_with(cut, share.factor)) {
                return Err(Miss::NoRule);
            }
            Ok(shares)
        }
    }
}

/// Whether a sum with such a cut may have shares with a factor.
fn goes_with(cut: Cut, factor: i128) -> bool {
    match cut {
        Cut::Not => true,
        Cut::Above(_) => factor > 0,
        Cut::Below(_) => factor < 0,
    }
}

/// The start and what is in the tallies of all shares, as often as their factors say.
fn tallied(
    alloc: Global,
    subject: &Subject,
    all: &[Vec<Share>],
    store: &mut Store,
) -> Result<Expr, Miss> {
    let mut sum = Expr::Const(subject.start);
    let factors = factors_of(alloc, all)?;
    for factor in &factors {
        for layer in 0..LAYERS {
            let mut weights = Vec::new(alloc);
            for (shares, change) in all.iter().zip(subject.changes.iter()) {
                push(&mut weights, weight_of(shares, change, *factor, layer))?;
            }
            if weights.iter().any(|weight| weight.is_some()) {
                let read = tally_read(alloc, subject, *factor, &weights, store)?;
                sum = sum_of(alloc, sum, read)?;
            }
        }
    }
    Ok(sum)
}

/// What an operation adds to the tally of a factor.
fn weight_of(shares: &[Share], change: &Change, factor: i128, layer: u32) -> Option<Weight> {
    match (change, leaf_with(shares, factor, layer)) {
        (Change::Gives { key, .. }, Some(leaf)) => Some(Weight { key: *key, leaf }),
        _ => None,
    }
}

/// Keeps a tally, and gives what reads a multiple of it.
fn tally_read(
    alloc: Global,
    subject: &Subject,
    factor: i128,
    weights: &[Option<Weight>],
    store: &mut Store,
) -> Result<Expr, Miss> {
    let component = add_piece(store, Piece::Ready(tally(alloc, subject.key, weights)?))?;
    let stored = Stored {
        at: LeafAt {
            component,
            leaf: 0,
            keyed: subject.key.is_some(),
        },
        sort: Sort::Int,
        factor,
        least: Some(0),
        most: None,
    };
    Ok(add_leaf(store, stored)?)
}
