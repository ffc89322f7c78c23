//! Greatest and least values: of arguments with constants added, and of constants.

use crate::chains::{is_beyond, next_beyond};
use kat_design::Leaf;
use kat_expr::Expr;
use kat_formulas::{Atom, Linear, choice_of, constant, copied, denied, linear_of, sum_of};
use kat_keeping::{
    Change, Joint, Step, Store, Subject, add_step, is_own, joined, joined_by, joint_of, marked,
    push_members, touched,
};
use kat_num::{Sort, Value};
use kat_reading::{Miss, boxed, push};
use kat_type::{Operation, Param};
use std::alloc::{AllocError, Global};

/// How many members of one kind an operation has at most.
const LAYERS: u32 = 3;

/// What an operation joins: a constant; or a leaf, or a leaf taken away, and a constant added.
#[derive(Clone, Copy, PartialEq, Eq, Debug)]
enum Member {
    Fixed(i128),
    Moved { turned: bool, by: i128, leaf: Leaf },
    Word(Leaf),
}

/// A kind of members that share a cell.
#[derive(Clone, Copy, PartialEq, Eq, Debug)]
struct Family {
    turned: bool,
    by: i128,
}

/// A field of which operations keep the greatest, or all of them the least, of itself and of arguments with constants added, or of
/// constants: a cell for each constant that is added, and a mark for each constant.
pub(crate) fn extremes(
    alloc: Global,
    ops: &[Operation],
    subject: &Subject,
    store: &mut Store,
) -> Result<Expr, Miss> {
    let joint = joint_of(subject)?;
    let all = members_of(alloc, ops, subject, joint)?;
    if subject.sort == Sort::Name {
        return words(alloc, subject, &all, joint, store);
    }
    let Value::Num(start) = subject.start else {
        return Err(Miss::NoRule);
    };
    let families = families_of(alloc, &all)?;
    let mut expr = staged(
        alloc,
        subject,
        &all,
        joint,
        start,
        families.is_empty(),
        store,
    )?;
    for family in &families {
        for layer in 0..LAYERS {
            if let Some(own) = moved(alloc, subject, &all, *family, layer, start, store)? {
                expr = Some(match expr {
                    Some(found) => joined_by(alloc, joint, own, found)?,
                    None => own,
                });
            }
        }
    }
    match expr {
        Some(expr) => Ok(expr),
        None => Err(Miss::NoRule),
    }
}

/// What each operation joins to the field.
fn members_of(
    alloc: Global,
    ops: &[Operation],
    subject: &Subject,
    joint: Joint,
) -> Result<Vec<Vec<Member>>, Miss> {
    let mut all = Vec::new(alloc);
    for (op, change) in ops.iter().zip(subject.changes.iter()) {
        push(
            &mut all,
            members_in(alloc, op.params.as_slice(), subject, change, joint)?,
        )?;
    }
    Ok(all)
}

/// What an operation joins to the field.
fn members_in(
    alloc: Global,
    params: &[Param],
    subject: &Subject,
    change: &Change,
    joint: Joint,
) -> Result<Vec<Member>, Miss> {
    let mut found = Vec::new(alloc);
    match change {
        Change::Nothing => {}
        Change::Clears => return Err(Miss::NoRule),
        Change::Gives { key, right } => {
            let mut members = Vec::new(alloc);
            push_members(alloc, joint, right, &mut members)?;
            if !members.iter().any(|member| is_own(subject, *key, member)) {
                return Err(Miss::NoRule);
            }
            for member in &members {
                if !is_own(subject, *key, member) {
                    push(
                        &mut found,
                        member_of(alloc, params, subject, member, joint)?,
                    )?;
                }
            }
        }
    }
    Ok(found)
}

/// What one member of a join is.
fn member_of(
    alloc: Global,
    params: &[Param],
    subject: &Subject,
    member: &Expr,
    joint: Joint,
) -> Result<Member, Miss> {
    if let Some(Value::Num(number)) = constant(member) {
        return Ok(Member::Fixed(number));
    }
    if subject.sort == Sort::Name {
        return match member {
            Expr::Arg(place) => Ok(Member::Word(Leaf::Arg(*place))),
            _ => Err(Miss::NoRule),
        };
    }
    let Value::Num(start) = subject.start else {
        return Err(Miss::NoRule);
    };
    moved_member(params, &linear_of(alloc, member)?, start, joint)
}

/// An argument, or what it is taken away from, with a constant. What is kept must be greatest: of an argument that is taken away
/// from the greatest, or of the least of arguments, that is how far each is below 0, if the start is on that side.
fn moved_member(
    params: &[Param],
    linear: &Linear,
    start: i128,
    joint: Joint,
) -> Result<Member, Miss> {
    let [term] = linear.terms.as_slice() else {
        return Err(Miss::NoRule);
    };
    let Atom::Arg(place) = term.atom else {
        return Err(Miss::NoRule);
    };
    let by = linear.constant;
    let turned = joint == Joint::Least;
    let is_int = match params.get(place as usize) {
        Some(param) => param.sort == Sort::Int,
        None => return Err(Miss::NoRule),
    };
    let fits = if turned { start <= by } else { by <= start };
    let straight = if turned { -1 } else { 1 };
    if term.factor == straight {
        let leaf = Leaf::Arg(place);
        return Ok(Member::Moved { turned, by, leaf });
    }
    if (term.factor == 1 || term.factor == -1) && is_int && fits {
        let leaf = Leaf::Neg(place);
        return Ok(Member::Moved { turned, by, leaf });
    }
    Err(Miss::NoRule)
}

/// The kinds of members, each once.
fn families_of(alloc: Global, all: &[Vec<Member>]) -> Result<Vec<Family>, AllocError> {
    let mut families = Vec::new(alloc);
    for members in all {
        for member in members {
            if let Member::Moved { turned, by, .. } = member {
                let family = Family {
                    turned: *turned,
                    by: *by,
                };
                if !families.iter().any(|own| *own == family) {
                    push(&mut families, family)?;
                }
            }
        }
    }
    Ok(families)
}

/// The leaf that an operation gives to a kind, so many being passed over.
fn leaf_in(members: &[Member], family: Family, passed: u32) -> Option<Leaf> {
    let mut left = passed;
    for member in members {
        if let Member::Moved { turned, by, leaf } = member {
            if *turned == family.turned && *by == family.by {
                if left == 0 {
                    return Some(*leaf);
                }
                left = left.saturating_sub(1);
            }
        }
    }
    None
}

/// The greatest of the members of a kind, with its constant.
fn moved(
    alloc: Global,
    subject: &Subject,
    all: &[Vec<Member>],
    family: Family,
    layer: u32,
    start: i128,
    store: &mut Store,
) -> Result<Option<Expr>, Miss> {
    let mut given = Vec::new(alloc);
    for members in all {
        push(&mut given, leaf_in(members, family, layer))?;
    }
    let Some(own) = begun(family, start) else {
        return Err(Miss::NoRule);
    };
    let Some(read) = joined(alloc, store, subject, Value::Num(own), &given)? else {
        return Ok(None);
    };
    let by = Expr::Const(Value::Num(family.by));
    if family.turned {
        let by = boxed(alloc, by)?;
        return Ok(Some(Expr::Minus(by, boxed(alloc, read)?)));
    }
    if family.by == 0 {
        return Ok(Some(read));
    }
    Ok(Some(sum_of(alloc, read, by)?))
}

/// The start of the cell of a kind.
fn begun(family: Family, start: i128) -> Option<i128> {
    if family.turned {
        family.by.checked_sub(start)
    } else {
        start.checked_sub(family.by)
    }
}

/// The greatest of names.
fn words(
    alloc: Global,
    subject: &Subject,
    all: &[Vec<Member>],
    joint: Joint,
    store: &mut Store,
) -> Result<Expr, Miss> {
    if joint != Joint::Greatest {
        return Err(Miss::NoRule);
    }
    let mut given = Vec::new(alloc);
    for members in all {
        match members.as_slice() {
            [] => push(&mut given, None)?,
            [Member::Word(leaf)] => push(&mut given, Some(*leaf))?,
            _ => return Err(Miss::NoRule),
        }
    }
    match joined(alloc, store, subject, subject.start, &given)? {
        Some(read) => Ok(read),
        None => Err(Miss::NoRule),
    }
}

/// The constants that matter: for the greatest those above the start, from the least on, and the other way round.
fn stages_of(
    alloc: Global,
    all: &[Vec<Member>],
    joint: Joint,
    start: i128,
) -> Result<Vec<i128>, AllocError> {
    let constants = constants_of(alloc, all)?;
    let mut stages = Vec::new(alloc);
    let mut last = start;
    for _ in 0..12 {
        if let Some(next) = next_beyond(&constants, joint, last) {
            push(&mut stages, next)?;
            last = next;
        }
    }
    Ok(stages)
}

/// The constants that operations join.
fn constants_of(alloc: Global, all: &[Vec<Member>]) -> Result<Vec<i128>, AllocError> {
    let mut constants = Vec::new(alloc);
    for members in all {
        for member in members {
            if let Member::Fixed(number) = member {
                push(&mut constants, *number)?;
            }
        }
    }
    Ok(constants)
}

/// The greatest of the constants that were joined, or the start: by marks of each, or if truth values are kept as numbers by the
/// steps that were reached. If the field is `alone` told by constants, these steps are noted.
fn staged(
    alloc: Global,
    subject: &Subject,
    all: &[Vec<Member>],
    joint: Joint,
    start: i128,
    alone: bool,
    store: &mut Store,
) -> Result<Option<Expr>, Miss> {
    let stages = stages_of(alloc, all, joint, start)?;
    if stages.is_empty() {
        return Ok(None);
    }
    let mut expr = Expr::Const(Value::Num(start));
    let mut last = start;
    for stage in &stages {
        let when = reached(alloc, subject, all, joint, *stage, store)?;
        if store.as_numbers {
            let Some(step) = stage.checked_sub(last) else {
                return Err(Miss::NoRule);
            };
            if alone {
                note_stage(alloc, subject, joint, last, *stage, &when, store)?;
            }
            let zero = Expr::Const(Value::Num(0));
            let own = choice_of(alloc, when, Expr::Const(Value::Num(step)), zero)?;
            expr = sum_of(alloc, expr, own)?;
        } else {
            expr = choice_of(alloc, when, Expr::Const(Value::Num(*stage)), expr)?;
        }
        last = *stage;
    }
    if store.as_numbers && alone {
        let bound = last.min(start);
        note_step(subject, bound, Expr::Const(Value::Bool(true)), store)?;
    }
    Ok(Some(expr))
}

/// Keeps whether a stage was reached: truth values as they are tell that one alone, and as numbers those beyond it too.
fn reached(
    alloc: Global,
    subject: &Subject,
    all: &[Vec<Member>],
    joint: Joint,
    stage: i128,
    store: &mut Store,
) -> Result<Expr, Miss> {
    let mut touches = Vec::new(alloc);
    for (members, change) in all.iter().zip(subject.changes.iter()) {
        let gives = reaches(members, joint, stage, store.as_numbers);
        push(&mut touches, touched(change, gives))?;
    }
    marked(alloc, store, subject.key, touches)
}

/// Notes that a stage was reached from the one before if a condition holds.
fn note_stage(
    alloc: Global,
    subject: &Subject,
    joint: Joint,
    last: i128,
    stage: i128,
    when: &Expr,
    store: &mut Store,
) -> Result<(), AllocError> {
    let when = copied(alloc, when)?;
    match joint {
        Joint::Greatest => note_step(subject, stage, when, store),
        _ => {
            let unless = denied(alloc, when)?;
            note_step(subject, last, unless, store)
        }
    }
}

/// Notes when the field is at least a bound.
fn note_step(
    subject: &Subject,
    bound: i128,
    when: Expr,
    store: &mut Store,
) -> Result<(), AllocError> {
    let field = subject.field;
    add_step(store, Step { field, bound, when })
}

/// Whether an operation joins a stage, or if `or_beyond` one beyond it.
fn reaches(members: &[Member], joint: Joint, stage: i128, or_beyond: bool) -> bool {
    members.iter().any(|member| match member {
        Member::Fixed(number) => {
            *number == stage || (or_beyond && is_beyond(joint, *number, stage))
        }
        _ => false,
    })
}
