//! Two histories after which every design keeps the same, though the type answers otherwise: so no design is right.
//!
//! Both have the same operations, except for some. For each that they don't share both have a later one of the same kind, whose
//! arguments are all at least as great: so it adds nothing to what a component joins. Of each kind both have the same number, the same sum of
//! times, and the same sum of each argument: so tallies are the same too. All are done at one replica, with no argument below 0; the
//! keys of tables are the same everywhere, and no other argument is equal to them.
ghost use Rattle.kat_type.specs.Types.{type_form};
ghost use Rattle.kat_type.specs.Within.{IsWithinLimits};

use crate::long_runs::answers_of_type;
use crate::pools::{Pools, pools_of};
use kat_formulas::reads_argument;
use kat_hist::{push_args, push_number};
use kat_num::{Sort, Value, bytes_of};
use kat_type::{Assign, Operation, Query, SeqType};
use std::alloc::{AllocError, Global};

/// The scripts of two such histories, and what the type answers after each.
#[derive(Drop)]
pub(crate) struct Twins {
    pub(crate) one: Told,
    pub(crate) other: Told,
}

/// A script, and what the type answers.
#[derive(Drop)]
pub(crate) struct Told {
    pub(crate) script: Vec<u8>,
    pub(crate) answers: Vec<u8>,
}

/// An operation that is done: the first of two or the second one, how great its first argument and the others are, and when.
#[derive(Clone, Copy)]
struct Done {
    is_first: bool,
    first: u32,
    rest: u32,
    time: u64,
}

/// What the values are: three numbers with equal steps between them, and a name.
#[derive(Clone, Copy)]
struct Scale {
    centre: i128,
    step: i128,
    name: u128,
}

/// How many pairs of histories are tried at most.
const PAIRS: u32 = 1_500;

/// How many kinds of pairs there are.
const KINDS: u32 = 5;

/// How many numbers of the type are taken as a centre.
const CENTRES: usize = 8;

/// The greatest centre.
const GREATEST: i128 = 1_000_000_000;

/// The key, as a number and as a name.
const KEY: i128 = 999_999_999_937;

const KEY_NAME: u128 = 0x61 << 112;

/// The names `c`, `d` and `e`, and the greatest name of letters.
const LOW_NAME: u128 = 0x63 << 112;

const MID_NAME: u128 = 0x64 << 112;

const HIGH_NAME: u128 = 0x65 << 112;

const GREATEST_NAME: u128 = 0x7a_7a7a_7a7a_7a7a_7a7a_7a7a_7a7a_7a7a;

/// Two such histories, if there are any among those that are tried.
pub(crate) fn twins_of(alloc: Global, ty: &SeqType) -> Result<Option<Twins>, AllocError>
    requires limits { IsWithinLimits (type_form ty.now) }
{
    let mut left = PAIRS;
    let scales = scales_of(alloc, ty)?;
    'scales: for scale in &scales {
        for first in ty.ops.as_slice() {
            for second in ty.ops.as_slice() {
                if left == 0 {
                    return Ok(None);
                }
                left = left.saturating_sub(KINDS);
                if let Some(twins) = with_operations(alloc, ty, first, second, *scale)? {
                    return Ok(Some(twins));
                }
            }
        }
    }
    Ok(None)
}

/// Scales around a small number, and around the numbers of the type.
fn scales_of(alloc: Global, ty: &SeqType) -> Result<Vec<Scale>, AllocError> {
    let pools = pools_of(alloc, ty)?;
    let name = name_in(&pools);
    let mut scales = Vec::new(alloc);
    scales.push(Scale {
        centre: 2,
        step: 1,
        name,
    })?;
    for (place, centre) in pools.numbers.iter().enumerate() {
        if place < CENTRES && 0 < *centre && *centre <= GREATEST {
            for step in [1, *centre / 2, *centre] {
                if 0 < step {
                    let centre = *centre;
                    scales.push(Scale { centre, step, name })?;
                }
            }
        }
    }
    Ok(scales)
}

/// A name of the type that isn't the key.
fn name_in(pools: &Pools) -> u128 {
    let mut found = MID_NAME;
    for name in &pools.names {
        if *name != KEY_NAME {
            found = *name;
        }
    }
    found
}

/// Two such histories with these operations.
fn with_operations(
    alloc: Global,
    ty: &SeqType,
    first: &Operation,
    second: &Operation,
    scale: Scale,
) -> Result<Option<Twins>, AllocError>
    requires limits { IsWithinLimits (type_form ty.now) }
{
    'kinds: for kind in 0..KINDS {
        let history = history_of(alloc, kind, false)?;
        let one = told_by(alloc, ty, first, second, scale, &history)?;
        let history = history_of(alloc, kind, true)?;
        let other = told_by(alloc, ty, first, second, scale, &history)?;
        if let (Some(one), Some(other)) = (one, other) {
            if one.answers.as_slice() != other.answers.as_slice() {
                return Ok(Some(Twins { one, other }));
            }
        }
    }
    Ok(None)
}

/// The first history of a kind of pairs, or the other one.
fn history_of(alloc: Global, kind: u32, is_other: bool) -> Result<Vec<Done>, AllocError> {
    match (kind, is_other) {
        (0, false) => Vec::from_slice(alloc, &[mine(0, 1), theirs(2), mine(2, 3), mine(2, 4)]),
        (0, true) => Vec::from_slice(alloc, &[mine(2, 1), theirs(2), mine(0, 3), mine(2, 4)]),
        (1, false) => Vec::from_slice(
            alloc,
            &[
                mine(2, 1),
                theirs(2),
                theirs(3),
                mine(2, 4),
                theirs(5),
                mine(2, 6),
            ],
        ),
        (1, true) => Vec::from_slice(
            alloc,
            &[
                theirs(1),
                mine(2, 2),
                mine(2, 3),
                theirs(4),
                theirs(5),
                mine(2, 6),
            ],
        ),
        (2, false) => Vec::from_slice(
            alloc,
            &[mine(1, 1), mine(1, 2), theirs(4), mine(1, 9), mine(1, 10)],
        ),
        (2, true) => Vec::from_slice(
            alloc,
            &[mine(1, 1), theirs(4), mine(1, 5), mine(1, 6), mine(1, 10)],
        ),
        (3, false) => Vec::from_slice(alloc, &[mine(0, 1), mine(2, 2), mine(3, 3)]),
        (3, true) => Vec::from_slice(alloc, &[mine(1, 1), mine(1, 2), mine(3, 3)]),
        (_, false) => Vec::from_slice(alloc, &[crossed(0, 2, 1), crossed(2, 0, 2), mine(3, 3)]),
        (_, true) => Vec::from_slice(alloc, &[crossed(0, 0, 1), crossed(2, 2, 2), mine(3, 3)]),
    }
}

/// The first operation, with arguments that are all so great.
fn mine(level: u32, time: u64) -> Done {
    crossed(level, level, time)
}

/// The first operation, with a first argument that is so great, and others.
fn crossed(first: u32, rest: u32, time: u64) -> Done {
    Done {
        is_first: true,
        first,
        rest,
        time,
    }
}

/// The second operation.
fn theirs(time: u64) -> Done {
    Done {
        is_first: false,
        first: 1,
        rest: 1,
        time,
    }
}

/// The script of a history, and what the type answers.
fn told_by(
    alloc: Global,
    ty: &SeqType,
    first: &Operation,
    second: &Operation,
    scale: Scale,
    history: &[Done],
) -> Result<Option<Told>, AllocError>
    requires limits { IsWithinLimits (type_form ty.now) }
{
    let mut script = Vec::new(alloc);
    script.extend_from_slice(b"replicas 2\n")?;
    for done in history {
        let op = if done.is_first { first } else { second };
        push_done(alloc, op, *done, scale, &mut script)?;
    }
    for query in ty.queries.as_slice() {
        push_ask(alloc, query, &mut script)?;
    }
    match answers_of_type(alloc, ty, &script)? {
        Some(answers) => Ok(Some(Told { script, answers })),
        None => Ok(None),
    }
}

/// Appends that an operation is done.
fn push_done(
    alloc: Global,
    op: &Operation,
    done: Done,
    scale: Scale,
    into: &mut Vec<u8>,
) -> Result<(), AllocError> {
    into.extend_from_slice(b"do 1 ")?;
    into.extend_from_slice(&bytes_of(alloc, op.name)?)?;
    let mut level = done.first;
    let mut args = Vec::new(alloc);
    for (place, param) in op.params.as_slice().iter().enumerate() {
        if is_key(op, place) {
            args.push(key_of(param.sort))?;
        } else {
            args.push(value_at(scale, param.sort, level))?;
            level = done.rest;
        }
    }
    push_args(alloc, &args, into)?;
    push_number(b" at ", done.time, b"\n", into)
}

/// Whether an argument is the key of a table that the operation assigns.
fn is_key(op: &Operation, place: usize) -> bool {
    op.assigns.as_slice().iter().any(|assign| match assign {
        Assign::Keyed { key, .. } => *key as usize == place,
        _ => false,
    })
}

/// The key of a sort.
fn key_of(sort: Sort) -> Value {
    match sort {
        Sort::Bool => Value::Bool(true),
        Sort::Int | Sort::Nat => Value::Num(KEY),
        Sort::Name => Value::Name(KEY_NAME),
    }
}

/// How great an argument is: of four values.
fn value_at(scale: Scale, sort: Sort, level: u32) -> Value {
    match (sort, level) {
        (Sort::Bool, level) => Value::Bool(level % 2 == 1),
        (Sort::Name, 0) => Value::Name(LOW_NAME),
        (Sort::Name, 1) => Value::Name(scale.name),
        (Sort::Name, 2) => Value::Name(HIGH_NAME),
        (Sort::Name, _) => Value::Name(GREATEST_NAME),
        (_, 0) => Value::Num(scale.centre.saturating_sub(scale.step)),
        (_, 1) => Value::Num(scale.centre),
        (_, 2) => Value::Num(scale.centre.saturating_add(scale.step)),
        (_, _) => Value::Num(
            scale
                .centre
                .saturating_add(scale.step)
                .saturating_add(1_000),
        ),
    }
}

/// Appends that a query is asked, if it has no parameter but the key of what it reads.
fn push_ask(alloc: Global, query: &Query, into: &mut Vec<u8>) -> Result<(), AllocError> {
    let params = query.params.as_slice();
    if params.len() > 1 || reads_argument(&query.right) {
        return Ok(());
    }
    into.extend_from_slice(b"ask 1 ")?;
    into.extend_from_slice(&bytes_of(alloc, query.name)?)?;
    let mut args = Vec::new(alloc);
    for param in params {
        args.push(key_of(param.sort))?;
    }
    push_args(alloc, &args, into)?;
    into.extend_from_slice(b"\n")
}
