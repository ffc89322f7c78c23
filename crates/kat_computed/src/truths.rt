//! Truth values that stay as they became.

use kat_design::Leaf;
use kat_expr::Expr;
use kat_formulas::{Atom, Linear, denied, difference, linear_of};
use kat_keeping::{
    Change, Joint, Store, Subject, is_own, joined, joined_by, joint_of, marked, push_members,
    touched,
};
use kat_num::{Sort, Value};
use kat_reading::{Miss, boxed, push};
use kat_type::{Operation, Param};
use std::alloc::{AllocError, Global};

/// How many clues of one kind an operation has at most.
const LAYERS: u32 = 3;

/// What makes the truth value turn.
#[derive(Clone, Copy, PartialEq, Eq, Debug)]
enum Clue {
    Never,
    Always,
    /// If an argument is true.
    Told(Leaf),
    /// If a leaf is above a bound.
    Beyond { bound: i128, leaf: Leaf },
}

/// A field that becomes true for good, or false for good: by operations that say so, by arguments that are truth values, and by
/// arguments above or below bounds, of which the greatest is kept.
pub(crate) fn truths(
    alloc: Global,
    ops: &[Operation],
    subject: &Subject,
    store: &mut Store,
) -> Result<Expr, Miss> {
    if subject.sort != Sort::Bool {
        return Err(Miss::NoRule);
    }
    let joint = joint_of(subject)?;
    let mut all = Vec::new(alloc);
    for (op, change) in ops.iter().zip(subject.changes.iter()) {
        push(
            &mut all,
            clues_in(alloc, op.params.as_slice(), subject, change, joint)?,
        )?;
    }
    let turned = turned_truth(alloc, subject, &all, store)?;
    let start = Expr::Const(subject.start);
    match joint {
        Joint::Any => Ok(joined_by(alloc, Joint::Any, start, turned)?),
        _ => {
            let kept = denied(alloc, turned)?;
            Ok(joined_by(alloc, Joint::All, start, kept)?)
        }
    }
}

/// What makes an operation turn the field.
fn clues_in(
    alloc: Global,
    params: &[Param],
    subject: &Subject,
    change: &Change,
    joint: Joint,
) -> Result<Vec<Clue>, Miss> {
    let mut clues = Vec::new(alloc);
    match change {
        Change::Nothing => {}
        Change::Clears => return Err(Miss::NoRule),
        Change::Gives { key, right } => {
            let mut members = Vec::new(alloc);
            push_members(alloc, joint, right, &mut members)?;
            let mut any = false;
            for member in &members {
                if is_own(subject, *key, member) {
                    any = true;
                } else {
                    let clue = clue_of(alloc, params, member, joint == Joint::All)?;
                    any = any || clue == Clue::Always;
                    push(&mut clues, clue)?;
                }
            }
            if !any {
                return Err(Miss::NoRule);
            }
        }
    }
    Ok(clues)
}

/// What makes a condition over arguments true, or if it is denied false.
fn clue_of(alloc: Global, params: &[Param], expr: &Expr, is_denied: bool) -> Result<Clue, Miss> {
    match expr {
        Expr::Const(Value::Bool(truth)) => Ok(if *truth == is_denied {
            Clue::Never
        } else {
            Clue::Always
        }),
        Expr::Arg(place) if !is_denied => Ok(Clue::Told(Leaf::Arg(*place))),
        Expr::Not(inner) => clue_of(alloc, params, inner, !is_denied),
        Expr::Less(left, right) => {
            let left = linear_of(alloc, left)?;
            let right = linear_of(alloc, right)?;
            if is_denied {
                return beyond(params, &difference(alloc, &right, &left)?, 1);
            }
            beyond(params, &difference(alloc, &left, &right)?, 0)
        }
        Expr::AtMost(left, right) => {
            let left = linear_of(alloc, left)?;
            let right = linear_of(alloc, right)?;
            if is_denied {
                return beyond(params, &difference(alloc, &right, &left)?, 0);
            }
            beyond(params, &difference(alloc, &left, &right)?, 1)
        }
        _ => Err(Miss::NoRule),
    }
}

/// The clue that a combination with one argument is below a bound of 0 or 1.
fn beyond(params: &[Param], linear: &Linear, bound: i128) -> Result<Clue, Miss> {
    let [term] = linear.terms.as_slice() else {
        return Err(Miss::NoRule);
    };
    let Atom::Arg(place) = term.atom else {
        return Err(Miss::NoRule);
    };
    let Some(own) = linear.constant.checked_sub(bound) else {
        return Err(Miss::NoRule);
    };
    let is_int = match params.get(place as usize) {
        Some(param) => param.sort == Sort::Int,
        None => return Err(Miss::NoRule),
    };
    if term.factor == -1 {
        return Ok(Clue::Beyond {
            bound: own,
            leaf: Leaf::Arg(place),
        });
    }
    if term.factor == 1 && is_int && own >= 0 {
        return Ok(Clue::Beyond {
            bound: own,
            leaf: Leaf::Neg(place),
        });
    }
    Err(Miss::NoRule)
}

/// Whether something has turned the field.
fn turned_truth(
    alloc: Global,
    subject: &Subject,
    all: &[Vec<Clue>],
    store: &mut Store,
) -> Result<Expr, Miss> {
    let mut expr = turned_always(alloc, subject, all, store)?;
    let bounds = bounds_of(alloc, all)?;
    for bound in &bounds {
        for layer in 0..LAYERS {
            if let Some(own) = told(alloc, subject, all, *bound, layer, store)? {
                expr = joined_by(alloc, Joint::Any, expr, own)?;
            }
        }
    }
    Ok(expr)
}

/// Whether an operation was done that turns the field in any case.
fn turned_always(
    alloc: Global,
    subject: &Subject,
    all: &[Vec<Clue>],
    store: &mut Store,
) -> Result<Expr, Miss> {
    if !all.iter().any(|clues| turns(clues)) {
        return Ok(Expr::Const(Value::Bool(false)));
    }
    let mut touches = Vec::new(alloc);
    for (clues, change) in all.iter().zip(subject.changes.iter()) {
        push(&mut touches, touched(change, turns(clues)))?;
    }
    marked(alloc, store, subject.key, touches)
}

/// Whether an operation with such clues turns the field in any case.
fn turns(clues: &[Clue]) -> bool {
    clues.iter().any(|clue| *clue == Clue::Always)
}

/// The bounds of clues, each once, and none for arguments that are truth values.
fn bounds_of(alloc: Global, all: &[Vec<Clue>]) -> Result<Vec<Option<i128>>, AllocError> {
    let mut bounds = Vec::new(alloc);
    push(&mut bounds, None)?;
    for clues in all {
        for clue in clues {
            if let Clue::Beyond { bound, .. } = clue {
                let own = Some(*bound);
                if !bounds.iter().any(|found| *found == own) {
                    push(&mut bounds, own)?;
                }
            }
        }
    }
    Ok(bounds)
}

/// The leaf of a clue with a bound, or of one that is a truth value, so many being passed over.
fn leaf_in(clues: &[Clue], wanted: Option<i128>, passed: u32) -> Option<Leaf> {
    let mut left = passed;
    for clue in clues {
        let found = match clue {
            Clue::Told(leaf) if wanted.is_none() => Some(*leaf),
            Clue::Beyond { bound, leaf } if wanted == Some(*bound) => Some(*leaf),
            _ => None,
        };
        if found.is_some() {
            if left == 0 {
                return found;
            }
            left = left.saturating_sub(1);
        }
    }
    None
}

/// Whether a clue with a bound has come, by the greatest of what operations gave; or one that is a truth value.
fn told(
    alloc: Global,
    subject: &Subject,
    all: &[Vec<Clue>],
    bound: Option<i128>,
    layer: u32,
    store: &mut Store,
) -> Result<Option<Expr>, Miss> {
    let mut given = Vec::new(alloc);
    for clues in all {
        push(&mut given, leaf_in(clues, bound, layer))?;
    }
    let Some(bound) = bound else {
        return joined(alloc, store, subject, Value::Bool(false), &given);
    };
    let start = Value::Num(if bound < 0 { bound } else { 0 });
    match joined(alloc, store, subject, start, &given)? {
        None => Ok(None),
        Some(read) => {
            let bound = boxed(alloc, Expr::Const(Value::Num(bound)))?;
            Ok(Some(Expr::Less(bound, boxed(alloc, read)?)))
        }
    }
}
