//! Scripts of longer histories: runs of one operation, and operations drawn at two replicas that tell each other of theirs.

use crate::draws::Draws;
use crate::pools::{Pools, value_of};
use kat_hist::{push_args, push_number};
use kat_num::{Value, bytes_of};
use kat_type::{Operation, Param, SeqType};
use std::alloc::{AllocError, Global};

/// The most operations of a run.
const LONGEST: u32 = 20;

/// The fewest.
const SHORTEST: u32 = 4;

/// How many operations are drawn.
const DRAWN: u32 = 12;

/// How often a query with parameters is asked.
const ASKS: u32 = 4;

/// A script in which one replica does an operation again and again, with the same arguments or others, beyond the greatest
/// constant if that is small, and is asked after each.
pub(crate) fn run_text(
    alloc: Global,
    ty: &SeqType,
    pools: &Pools,
    op: &Operation,
    seed: u32,
) -> Result<Vec<u8>, AllocError> {
    let mut text = Vec::new(alloc);
    text.extend_from_slice(b"replicas 2\n")?;
    let steps = steps_of(pools);
    let mut draws = Draws { state: seed };
    let mut time = 0_u64;
    for _ in 0..steps {
        time = time.saturating_add(1);
        if seed == 0 {
            draws.state = 0;
        }
        push_done(alloc, pools, op, 1, time, &mut draws, &mut text)?;
        push_asks(alloc, ty, pools, 1, &mut draws, &mut text)?;
    }
    Ok(text)
}

/// How many operations a run has: two more than the greatest constant, within limits.
fn steps_of(pools: &Pools) -> u32 {
    let most = pools.greatest.saturating_add(2);
    match u32::try_from(most) {
        Ok(steps) => steps.max(SHORTEST).min(LONGEST),
        Err(_) => LONGEST,
    }
}

/// A script in which two replicas do what is drawn, tell each other of it from time to time, and are asked at the end.
pub(crate) fn drawn_text(
    alloc: Global,
    ty: &SeqType,
    pools: &Pools,
    seed: u32,
) -> Result<Vec<u8>, AllocError> {
    let mut text = Vec::new(alloc);
    text.extend_from_slice(b"replicas 2\n")?;
    let mut draws = Draws { state: seed };
    for step in 0..DRAWN {
        let replica = u64::from(step % 2).saturating_add(1);
        let time = u64::from(step / 2).saturating_add(1);
        if let Some(op) = drawn_operation(ty, draws.draw()) {
            push_done(alloc, pools, op, replica, time, &mut draws, &mut text)?;
        }
        if draws.draw() % 3 == 0 {
            push_told(replica, u64::from(step), &mut text)?;
        }
    }
    push_told(1, 100, &mut text)?;
    push_told(2, 101, &mut text)?;
    push_asks(alloc, ty, pools, 1, &mut draws, &mut text)?;
    push_asks(alloc, ty, pools, 2, &mut draws, &mut text)?;
    Ok(text)
}

/// The operation that is drawn with a number.
fn drawn_operation(ty: &SeqType, drawn: u32) -> Option<&Operation> {
    let ops = ty.ops.as_slice();
    match u32::try_from(ops.len()) {
        Ok(count) if count > 0 => ops.get((drawn % count) as usize),
        _ => None,
    }
}

/// Appends that a replica does an operation at a time, with arguments that are drawn.
fn push_done(
    alloc: Global,
    pools: &Pools,
    op: &Operation,
    replica: u64,
    time: u64,
    draws: &mut Draws,
    into: &mut Vec<u8>,
) -> Result<(), AllocError> {
    push_number(b"do ", replica, b" ", into)?;
    push_word(alloc, op.name, into)?;
    let args = drawn_arguments(alloc, pools, op.params.as_slice(), draws)?;
    push_args(alloc, &args, into)?;
    push_number(b" at ", time, b"\n", into)
}

/// Appends that a replica is told of all that the other one did, in a packet with a number.
fn push_told(replica: u64, packet: u64, into: &mut Vec<u8>) -> Result<(), AllocError> {
    let other = if replica == 1 { 2 } else { 1 };
    push_number(b"ship ", other, b" p", into)?;
    push_number(b"", packet, b"\n", into)?;
    push_number(b"deliver p", packet, b" ", into)?;
    push_number(b"", replica, b"\n", into)
}

/// Appends that a replica is asked each query, with arguments that are drawn.
fn push_asks(
    alloc: Global,
    ty: &SeqType,
    pools: &Pools,
    replica: u64,
    draws: &mut Draws,
    into: &mut Vec<u8>,
) -> Result<(), AllocError> {
    for query in ty.queries.as_slice() {
        let params = query.params.as_slice();
        let asks = if params.is_empty() { 1 } else { ASKS };
        for _ in 0..asks {
            push_number(b"ask ", replica, b" ", into)?;
            push_word(alloc, query.name, into)?;
            let args = drawn_arguments(alloc, pools, params, draws)?;
            push_args(alloc, &args, into)?;
            into.extend_from_slice(b"\n")?;
        }
    }
    Ok(())
}

/// Arguments of the parameters' sorts.
fn drawn_arguments(
    alloc: Global,
    pools: &Pools,
    params: &[Param],
    draws: &mut Draws,
) -> Result<Vec<Value>, AllocError> {
    let mut args = Vec::new(alloc);
    for param in params {
        args.push(value_of(pools, param.sort, draws.draw()))?;
    }
    Ok(args)
}

/// Appends a word by its code.
pub(crate) fn push_word(alloc: Global, code: u128, into: &mut Vec<u8>) -> Result<(), AllocError> {
    let bytes = bytes_of(alloc, code)?;
    into.extend_from_slice(&bytes)
}
