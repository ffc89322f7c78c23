//! How fields are joined, and the members of what is joined.

use crate::subjects::{Change, Subject};
use kat_expr::Expr;
use kat_formulas::{copied, folded, greater_of, lesser_of};
use kat_num::Value;
use kat_reading::{Miss, boxed, push};
use std::alloc::{AllocError, Global};

/// How expressions are joined.
#[derive(Clone, Copy, PartialEq, Eq, Debug)]
pub enum Joint {
    Greatest,
    Least,
    Any,
    All,
}

/// How the first operation that changes a field joins: one that makes it true does as `or`, and one that makes it false as `and`.
pub fn joint_of(subject: &Subject) -> Result<Joint, Miss> {
    for change in &subject.changes {
        if let Change::Gives { right, .. } = change {
            return match right {
                Expr::Max(..) => Ok(Joint::Greatest),
                Expr::Min(..) => Ok(Joint::Least),
                Expr::Or(..) | Expr::Const(Value::Bool(true)) => Ok(Joint::Any),
                Expr::And(..) | Expr::Const(Value::Bool(false)) => Ok(Joint::All),
                _ => Err(Miss::NoRule),
            };
        }
    }
    Err(Miss::NoRule)
}

/// Two expressions, joined.
pub fn joined_by(alloc: Global, joint: Joint, left: Expr, right: Expr) -> Result<Expr, AllocError> {
    let as_in = match joint {
        Joint::Greatest => return greater_of(alloc, left, right),
        Joint::Least => return lesser_of(alloc, left, right),
        Joint::Any => Expr::Or(boxed(alloc, Expr::Arg(0))?, boxed(alloc, Expr::Arg(0))?),
        Joint::All => Expr::And(boxed(alloc, Expr::Arg(0))?, boxed(alloc, Expr::Arg(0))?),
    };
    folded(alloc, &as_in, left, right)
}

/// Appends the members of a join: of `max(a, max(b, c))` these are `a`, `b` and `c`.
pub fn push_members(
    alloc: Global,
    joint: Joint,
    expr: &Expr,
    into: &mut Vec<Expr>,
) -> Result<(), AllocError> {
    match (joint, expr) {
        (Joint::Greatest, Expr::Max(left, right))
        | (Joint::Least, Expr::Min(left, right))
        | (Joint::Any, Expr::Or(left, right))
        | (Joint::All, Expr::And(left, right)) => {
            push_members(alloc, joint, left, into)?;
            push_members(alloc, joint, right, into)
        }
        _ => {
            let member = copied(alloc, expr)?;
            push(into, member)
        }
    }
}
