//! Constants in steps: what the greater ones have in common with the lesser ones is kept once.

use kat_design::Leaf;
use kat_keeping::{Joint, Share, factors_of, leaf_with};
use kat_reading::push;
use std::alloc::{AllocError, Global};

/// How many steps there are at most: one for each operation, and one for the start.
const STEPS: u32 = 13;

/// How many shares of one factor an operation has at most.
pub(crate) const LAYERS: u32 = 16;

/// The shares of each operation, with constants of a sign in steps: from 0 to the one that is nearest to it, from there to the
/// next, and so on. So what is counted is the greatest of them at most, and not their sum.
pub(crate) fn chained(alloc: Global, all: &[Vec<Share>]) -> Result<Vec<Vec<Share>>, AllocError> {
    let constants = constants_of(alloc, all)?;
    let mut steps = Vec::new(alloc);
    for shares in all {
        let mut own = Vec::new(alloc);
        for share in shares {
            if share.leaf == Leaf::One {
                push_steps(&constants, share.factor, &mut own)?;
            } else {
                push(&mut own, *share)?;
            }
        }
        push(&mut steps, own)?;
    }
    Ok(steps)
}

/// The constants of all shares.
fn constants_of(alloc: Global, all: &[Vec<Share>]) -> Result<Vec<i128>, AllocError> {
    let mut constants = Vec::new(alloc);
    for shares in all {
        for share in shares {
            if share.leaf == Leaf::One {
                push(&mut constants, share.factor)?;
            }
        }
    }
    Ok(constants)
}

/// Appends the steps from 0 to one of the constants.
fn push_steps(constants: &[i128], end: i128, into: &mut Vec<Share>) -> Result<(), AllocError> {
    let joint = if end > 0 {
        Joint::Greatest
    } else {
        Joint::Least
    };
    let mut last: i128 = 0;
    for _ in 0..STEPS {
        if last != end {
            if let Some(next) = next_beyond(constants, joint, last) {
                let factor = next.saturating_sub(last);
                let leaf = Leaf::One;
                push(into, Share { factor, leaf })?;
                last = next;
            }
        }
    }
    Ok(())
}

/// The number that is next to another one, on the side of a join.
pub(crate) fn next_beyond(numbers: &[i128], joint: Joint, last: i128) -> Option<i128> {
    let mut next = None;
    for number in numbers {
        if is_beyond(joint, *number, last) && is_nearer(joint, *number, next) {
            next = Some(*number);
        }
    }
    next
}

/// Whether a number is beyond another, on the side of a join.
pub(crate) fn is_beyond(joint: Joint, number: i128, last: i128) -> bool {
    match joint {
        Joint::Greatest => last < number,
        _ => number < last,
    }
}

/// Whether a number is nearer than the one found so far.
fn is_nearer(joint: Joint, number: i128, found: Option<i128>) -> bool {
    match found {
        None => true,
        Some(found) => is_beyond(joint, found, number),
    }
}

/// How many leaves a query counts for shares.
pub(crate) fn counted(alloc: Global, all: &[Vec<Share>]) -> Result<i128, AllocError> {
    let mut sum: i128 = 0;
    let factors = factors_of(alloc, all)?;
    for factor in &factors {
        for layer in 0..LAYERS {
            if all
                .iter()
                .any(|shares| leaf_with(shares, *factor, layer).is_some())
            {
                sum = sum.saturating_add(factor.saturating_abs());
            }
        }
    }
    Ok(sum)
}
