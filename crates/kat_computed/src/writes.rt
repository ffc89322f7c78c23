//! Last writes of computed values: the arguments are kept, and the query computes.

use crate::chains::{LAYERS, chained, counted};
use crate::combining::formed;
use kat_design::Leaf;
use kat_expr::Expr;
use kat_formulas::{Linear, constant, linear_of, reads_field, sum_of};
use kat_keeping::{
    Change, Holds, Share, Slot, Store, Subject, above_0, add_leaf, add_register, factors_of,
    is_change, leaf_of, leaf_with, next_piece, register_of, shares_of,
};
use kat_num::{Sort, Value};
use kat_reading::{Miss, number_of, push};
use kat_type::{Operation, SeqType};
use std::alloc::{AllocError, Global};

/// The greatest sum of the factors that a query may have room for.
const ROOM: i128 = 30;

/// A field that operations set to what they compute of their arguments: what they are given is kept under their rank.
///
/// A number is a sum of slots, each with a factor: an operation fills those of its arguments, and one for a constant with 1, and
/// the others with 0. Otherwise the slots have arguments, and truth values say which operation's formula to compute from them.
pub(crate) fn writes(
    alloc: Global,
    ty: &SeqType,
    subject: &Subject,
    store: &mut Store,
) -> Result<Expr, Miss> {
    for change in &subject.changes {
        if let Change::Gives { right, .. } = change {
            if reads_field(right, 0, u32::MAX) {
                return Err(Miss::NoRule);
            }
        }
    }
    match summed(alloc, ty, subject, store) {
        Err(Miss::NoRule) => formed(alloc, ty, subject, store),
        found => found,
    }
}

/// A number as a sum of slots; also a truth value, if those are kept as numbers and operations set it to constants.
fn summed(alloc: Global, ty: &SeqType, subject: &Subject, store: &mut Store) -> Result<Expr, Miss> {
    if subject.sort == Sort::Name || (subject.sort == Sort::Bool && !store.as_numbers) {
        return Err(Miss::NoRule);
    }
    let begin = begin_of(alloc, ty.ops.as_slice(), subject)?;
    let mut all = shares_less(alloc, ty.ops.as_slice(), subject, begin.offset)?;
    push(&mut all, begin.shares(alloc)?)?;
    let steps = chained(alloc, &all)?;
    if counted(alloc, &steps)? > ROOM {
        return Err(Miss::NoRule);
    }
    let summands = summands_of(alloc, &steps, begin.in_slot)?;
    if summands.is_empty() {
        return Err(Miss::NoRule);
    }
    let sum = summed_up(alloc, ty, subject, summands, begin.offset, store)?;
    if subject.sort == Sort::Bool {
        return Ok(above_0(alloc, sum)?);
    }
    Ok(sum)
}

/// How a sum of slots begins: with a constant that all have, and what is in the first slot of an argument, or else in steps.
#[derive(Clone, Copy)]
struct Begin {
    offset: i128,
    in_slot: i128,
    in_steps: i128,
}

impl Begin {
    /// What the start has in steps, as what an operation brings.
    fn shares(&self, alloc: Global) -> Result<Vec<Share>, AllocError> {
        let mut shares = Vec::new(alloc);
        if self.in_steps != 0 {
            push(
                &mut shares,
                Share {
                    factor: self.in_steps,
                    leaf: Leaf::One,
                },
            )?;
        }
        Ok(shares)
    }
}

/// How the sum of a field begins: without the constant that is nearest to 0 of those that operations set, so that little is left
/// to count.
fn begin_of(alloc: Global, ops: &[Operation], subject: &Subject) -> Result<Begin, Miss> {
    let start = number_of_value(subject.start)?;
    let all = shares_less(alloc, ops, subject, 0)?;
    let has_slot = all.iter().any(|shares| has_unit(shares));
    let mut range = None;
    for (shares, change) in all.iter().zip(subject.changes.iter()) {
        if is_change(change) {
            range = Some(widened(range, constant_in(shares)));
        }
    }
    if !has_slot {
        range = Some(widened(range, start));
    }
    let offset = match range {
        Some((least, _)) if least > 0 => least,
        Some((_, most)) if most < 0 => most,
        _ => 0,
    };
    let Some(rest) = start.checked_sub(offset) else {
        return Err(Miss::NoRule);
    };
    Ok(Begin {
        offset,
        in_slot: if has_slot { rest } else { 0 },
        in_steps: if has_slot { 0 } else { rest },
    })
}

/// A range, with one more number in it.
fn widened(range: Option<(i128, i128)>, number: i128) -> (i128, i128) {
    match range {
        None => (number, number),
        Some((least, most)) => (least.min(number), most.max(number)),
    }
}

/// The constant of shares.
fn constant_in(shares: &[Share]) -> i128 {
    for share in shares {
        if share.leaf == Leaf::One {
            return share.factor;
        }
    }
    0
}

/// Whether some share is an argument, or what is taken away from one.
fn has_unit(shares: &[Share]) -> bool {
    shares
        .iter()
        .any(|share| share.leaf != Leaf::One && is_unit(share.factor))
}

/// The number that a value is: of a truth value 0 or 1.
fn number_of_value(value: Value) -> Result<i128, Miss> {
    match value {
        Value::Num(number) => Ok(number),
        Value::Bool(truth) => Ok(if truth { 1 } else { 0 }),
        Value::Name(_) => Err(Miss::NoRule),
    }
}

/// The shares of what each operation sets, less a constant.
fn shares_less(
    alloc: Global,
    ops: &[Operation],
    subject: &Subject,
    offset: i128,
) -> Result<Vec<Vec<Share>>, Miss> {
    let mut all = Vec::new(alloc);
    for (op, change) in ops.iter().zip(subject.changes.iter()) {
        match change {
            Change::Nothing => push(&mut all, Vec::new(alloc))?,
            Change::Clears => return Err(Miss::NoRule),
            Change::Gives { right, .. } => {
                let linear = given(alloc, subject, right, offset)?;
                push(
                    &mut all,
                    shares_of(alloc, op.params.as_slice(), &linear, false)?,
                )?;
            }
        }
    }
    Ok(all)
}

/// What is set, as a linear combination of arguments, less a constant.
fn given(alloc: Global, subject: &Subject, right: &Expr, offset: i128) -> Result<Linear, Miss> {
    let mut linear = match (subject.sort, constant(right)) {
        (Sort::Bool, Some(value)) => {
            linear_of(alloc, &Expr::Const(Value::Num(number_of_value(value)?)))?
        }
        (Sort::Bool, None) => return Err(Miss::NoRule),
        _ => linear_of(alloc, right)?,
    };
    match linear.constant.checked_sub(offset) {
        None => Err(Miss::NoRule),
        Some(less) => {
            linear.constant = less;
            Ok(linear)
        }
    }
}

/// Whether a factor is 1 or -1.
fn is_unit(factor: i128) -> bool {
    factor == 1 || factor == -1
}

/// A slot of a sum, so many times which counts; and whether it is only 0 or 1.
#[derive(Drop)]
struct Summand {
    factor: i128,
    is_digit: bool,
    slot: Slot,
}

/// The slots of all shares, the last of which are those of the start: they are there at first. The first slot of factor 1 or -1
/// also has `in_slot`.
fn summands_of(alloc: Global, all: &[Vec<Share>], in_slot: i128) -> Result<Vec<Summand>, Miss> {
    let mut summands = Vec::new(alloc);
    let mut left = in_slot;
    let factors = factors_of(alloc, all)?;
    for factor in &factors {
        for layer in 0..LAYERS {
            let mut given = Vec::new(alloc);
            for shares in all {
                push(&mut given, leaf_with(shares, *factor, layer))?;
            }
            if given.iter().any(|leaf| leaf.is_some()) {
                let mut start = match given.pop() {
                    Some(Some(_)) => 1,
                    _ => 0,
                };
                if is_unit(*factor) && left != 0 {
                    start = left.saturating_mul(*factor);
                    left = 0;
                }
                push(&mut summands, summand_for(alloc, *factor, &given, start)?)?;
            }
        }
    }
    Ok(summands)
}

/// The slot of a factor with a start.
fn summand_for(
    alloc: Global,
    factor: i128,
    given: &[Option<Leaf>],
    start: i128,
) -> Result<Summand, Miss> {
    Ok(Summand {
        factor,
        is_digit: is_digit(given) && (start == 0 || start == 1),
        slot: number_slot(alloc, given, start)?,
    })
}

/// Keeps the slots under the rank of the field, and gives their sum with a constant.
fn summed_up(
    alloc: Global,
    ty: &SeqType,
    subject: &Subject,
    summands: Vec<Summand>,
    offset: i128,
    store: &mut Store,
) -> Result<Expr, Miss> {
    let mut register = register_of(alloc, ty, subject)?;
    let mut leaf = number_of(register.ranks);
    let piece = next_piece(store);
    let mut sum = Expr::Const(Value::Num(offset));
    for summand in summands {
        let Summand {
            factor,
            is_digit,
            slot,
        } = summand;
        push(&mut register.slots, slot)?;
        let mut stored = leaf_of(piece, leaf, subject.key.is_some(), Holds::Number);
        stored.factor = factor;
        if is_digit {
            stored.least = Some(0);
            stored.most = Some(1);
        }
        let read = add_leaf(store, stored)?;
        sum = if constant(&sum) == Some(Value::Num(0)) {
            read
        } else {
            sum_of(alloc, sum, read)?
        };
        leaf = leaf.saturating_add(1);
    }
    add_register(store, register)?;
    Ok(sum)
}

/// Whether all that is given to a slot is 0 or 1.
fn is_digit(leaves: &[Option<Leaf>]) -> bool {
    leaves.iter().all(|leaf| match leaf {
        None => true,
        Some(leaf) => *leaf == Leaf::One,
    })
}

/// A slot of numbers, 0 if nothing is given.
fn number_slot(alloc: Global, given: &[Option<Leaf>], start: i128) -> Result<Slot, Miss> {
    let mut leaves = Vec::new(alloc);
    for leaf in given {
        push(&mut leaves, leaf.unwrap_or(Leaf::Zero))?;
    }
    Ok(Slot {
        holds: Holds::Number,
        start: Value::Num(start),
        leaves,
    })
}
