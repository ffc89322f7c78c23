//! Fields that keep what another field told, if that only grows.

use crate::derived::{agreed, is_start, told_by};
use crate::flattening::{Joint, joint_of, push_members};
use crate::subjects::{Change, Subject, is_own, subject_of};
use crate::weights::shares_of;
use kat_expr::Expr;
use kat_formulas::{Atom, difference, folded, linear_of};
use kat_reading::{Miss, number_of};
use kat_type::{Operation, Param, SeqType};
use std::alloc::{AllocError, Global};

/// Which way something goes.
#[derive(Clone, Copy, PartialEq, Eq, Debug)]
enum Way {
    Up,
    Down,
}

/// A field that joins to itself a formula over what another field is then, which only goes the way of the join: so it is that
/// formula at any time.
pub fn grown_reading(alloc: Global, ty: &SeqType, subject: &Subject) -> Result<Expr, Miss> {
    let joint = joint_of(subject)?;
    for (base, _) in ty.fields.as_slice().iter().enumerate() {
        let base = number_of(base);
        if base != subject.field {
            match over_base(alloc, ty, subject, joint, base) {
                Err(Miss::NoRule) => {}
                found => return found,
            }
        }
    }
    Err(Miss::NoRule)
}

/// The formula over a field, which goes the way of the join.
fn over_base(
    alloc: Global,
    ty: &SeqType,
    subject: &Subject,
    joint: Joint,
    base: u32,
) -> Result<Expr, Miss> {
    let other = subject_of(alloc, ty, base)?;
    if other.key != subject.key {
        return Err(Miss::NoRule);
    }
    let mut formula = None;
    for (own, moved) in subject.changes.iter().zip(other.changes.iter()) {
        let joined = without_own(alloc, subject, own, joint)?;
        if let Some(told) = told_by(alloc, &other, &joined, moved)? {
            formula = Some(agreed(formula, told)?);
        }
    }
    let Some(formula) = formula else {
        return Err(Miss::NoRule);
    };
    let moves = way_of_field(alloc, ty.ops.as_slice(), &other)?;
    let tells = way_of_formula(alloc, &formula, &other)?;
    if goes_up(joint) == (moves == tells) && is_start(alloc, subject, &other, &formula)? {
        return Ok(formula);
    }
    Err(Miss::NoRule)
}

/// Whether a join keeps what goes up.
fn goes_up(joint: Joint) -> bool {
    match joint {
        Joint::Any | Joint::Greatest => true,
        Joint::All | Joint::Least => false,
    }
}

/// What an operation joins to the field.
fn without_own(
    alloc: Global,
    subject: &Subject,
    change: &Change,
    joint: Joint,
) -> Result<Change, Miss> {
    let (key, right) = match change {
        Change::Nothing => return Ok(Change::Nothing),
        Change::Clears => return Err(Miss::NoRule),
        Change::Gives { key, right } => (*key, right),
    };
    let mut members = Vec::new(alloc);
    push_members(alloc, joint, right, &mut members)?;
    let mut rest = None;
    let mut any = false;
    for member in members {
        if is_own(subject, key, &member) {
            any = true;
        } else {
            rest = Some(joined_to(alloc, right, rest, member)?);
        }
    }
    let Some(rest) = rest else {
        return Err(Miss::NoRule);
    };
    if !any {
        return Err(Miss::NoRule);
    }
    Ok(Change::Gives { key, right: rest })
}

/// A member, joined to those before it as the sides of an expression are.
fn joined_to(
    alloc: Global,
    as_in: &Expr,
    before: Option<Expr>,
    member: Expr,
) -> Result<Expr, AllocError> {
    match before {
        None => Ok(member),
        Some(found) => folded(alloc, as_in, found, member),
    }
}

/// Which way a field goes, by what all operations add to it.
fn way_of_field(alloc: Global, ops: &[Operation], other: &Subject) -> Result<Way, Miss> {
    let mut way = None;
    for (op, change) in ops.iter().zip(other.changes.iter()) {
        if let Change::Gives { key, right } = change {
            let atom = Atom::Read {
                field: other.field,
                key: *key,
            };
            let own = match way_of_join(other, *key, right) {
                Some(way) => way,
                None => way_of_step(alloc, op.params.as_slice(), atom, right)?,
            };
            if way.is_some() && way != Some(own) {
                return Err(Miss::NoRule);
            }
            way = Some(own);
        }
    }
    match way {
        Some(way) => Ok(way),
        None => Err(Miss::NoRule),
    }
}

/// Which way an operation moves a field to which it joins something.
fn way_of_join(other: &Subject, key: Option<u32>, right: &Expr) -> Option<Way> {
    match right {
        Expr::Max(one, rest) if is_own(other, key, one) || is_own(other, key, rest) => {
            Some(Way::Up)
        }
        Expr::Min(one, rest) if is_own(other, key, one) || is_own(other, key, rest) => {
            Some(Way::Down)
        }
        _ => None,
    }
}

/// Which way an operation moves a field.
fn way_of_step(alloc: Global, params: &[Param], atom: Atom, right: &Expr) -> Result<Way, Miss> {
    let linear = linear_of(alloc, right)?;
    if linear.factor(atom) != 1 {
        return Err(Miss::NoRule);
    }
    let shares = shares_of(alloc, params, &linear.without(alloc, atom)?, true)?;
    if shares.iter().all(|share| share.factor > 0) {
        return Ok(Way::Up);
    }
    if shares.iter().all(|share| share.factor < 0) {
        return Ok(Way::Down);
    }
    Err(Miss::NoRule)
}

/// Which way a formula goes when the field goes up.
fn way_of_formula(alloc: Global, formula: &Expr, other: &Subject) -> Result<Way, Miss> {
    match formula {
        Expr::Less(left, right) | Expr::AtMost(left, right) => {
            sign_apart(alloc, right, left, other)
        }
        Expr::Not(inner) => Ok(turned(way_of_formula(alloc, inner, other)?)),
        Expr::Plus(..) | Expr::Minus(..) | Expr::Plain(_) | Expr::Keyed { .. } => {
            sign(alloc, formula, other)
        }
        _ => Err(Miss::NoRule),
    }
}

/// The other way.
fn turned(way: Way) -> Way {
    match way {
        Way::Up => Way::Down,
        Way::Down => Way::Up,
    }
}

/// Which way a linear combination with the field goes.
fn sign(alloc: Global, expr: &Expr, other: &Subject) -> Result<Way, Miss> {
    way_of_factor(linear_of(alloc, expr)?.factor(home_of(other)))
}

/// Which way the first of two linear combinations goes, without the second.
fn sign_apart(alloc: Global, one: &Expr, rest: &Expr, other: &Subject) -> Result<Way, Miss> {
    let one = linear_of(alloc, one)?;
    let rest = linear_of(alloc, rest)?;
    way_of_factor(difference(alloc, &one, &rest)?.factor(home_of(other)))
}

/// The field, read at the key 0 if it is a table.
fn home_of(other: &Subject) -> Atom {
    Atom::Read {
        field: other.field,
        key: match other.key {
            None => None,
            Some(_) => Some(0),
        },
    }
}

/// Which way a multiple of the field goes.
fn way_of_factor(factor: i128) -> Result<Way, Miss> {
    if factor == 0 {
        return Err(Miss::NoRule);
    }
    Ok(if factor > 0 { Way::Up } else { Way::Down })
}
