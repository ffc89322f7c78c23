//! The rule of levels: what is done for good, since one truth value alone is set, or by ranks that are digits alone.

use crate::joins::joins;
use crate::sums::sums;
use kat_design::{Component, Leaf};
use kat_num::Value;
use kat_reading::{
    Doing, Gift, Given, Guard, Kept, LeafAt, Made, Miss, Reading, acts, boxed, mark, number_of,
    push,
};
use kat_type::{Operation, Rank};
use std::alloc::{AllocError, Global};

/// Past the greatest level, of three digits.
const LEVELS: u32 = 1_000;

/// A step of the walk through the levels.
#[derive(Clone, Copy)]
struct Step {
    /// The number of the first component.
    base: u32,
    level: u32,
    /// The value that the operations of this level set.
    value: Value,
}

/// A field that operations whose ranks are digits alone set to constants, of one rank to one constant; below these others may
/// add or join. Whether an operation of a rank was done is kept in a cell or a set, and the highest rank of which one was
/// tells the value. If all set one truth value, whatever their ranks are, they have one level.
pub(crate) fn levels(
    alloc: Global,
    ops: &[Operation],
    kept: &Kept,
    base: u32,
) -> Result<Made, Miss> {
    if let Some(truth) = only_truth(kept) {
        return set_for_good(alloc, kept, base, truth);
    }
    let lowest = lowest_level(ops, kept)?;
    let mut made = below_levels(alloc, ops, kept, base, lowest)?;
    for level in lowest..LEVELS {
        if let Some(value) = value_at(ops, kept, level)? {
            let step = Step { base, level, value };
            made = risen(alloc, ops, kept, step, made)?;
        }
    }
    Ok(made)
}

/// The truth value that all operations which change the field set.
fn only_truth(kept: &Kept) -> Option<bool> {
    let mut only = None;
    for doing in &kept.doings {
        match doing {
            Doing::Nothing => {}
            Doing::Sets {
                given: Given::Const(Value::Bool(truth)),
                ..
            } => {
                if only == Some(!*truth) {
                    return None;
                }
                only = Some(*truth);
            }
            _ => return None,
        }
    }
    only
}

/// A mark of the operations that set the field to a truth value, if that isn't its start.
fn set_for_good(alloc: Global, kept: &Kept, base: u32, truth: bool) -> Result<Made, Miss> {
    let mut components = Vec::new(alloc);
    let start = Reading::Start(kept.start);
    if kept.start == Value::Bool(truth) {
        return Ok(Made {
            components,
            reading: start,
        });
    }
    let mut gifts = Vec::new(alloc);
    for doing in &kept.doings {
        push(&mut gifts, gift_for_good(alloc, *doing)?)?;
    }
    push(&mut components, mark(alloc, kept.key, gifts)?)?;
    let at = LeafAt {
        component: base,
        leaf: 0,
        keyed: kept.key.is_some(),
    };
    Ok(Made {
        components,
        reading: Reading::Choice {
            when: Guard::Leaf(at),
            then: Value::Bool(truth),
            other: boxed(alloc, start)?,
        },
    })
}

/// What an operation gives to the mark of those that set the field.
fn gift_for_good(alloc: Global, doing: Doing) -> Result<Option<Gift>, AllocError> {
    match doing {
        Doing::Sets { key, .. } => marked_at(alloc, key),
        _ => Ok(None),
    }
}

/// What marks that an operation was done.
fn marked_at(alloc: Global, key: Option<u32>) -> Result<Option<Gift>, AllocError> {
    let mut leaves = Vec::new(alloc);
    leaves.push(Leaf::True)?;
    Ok(Some(Gift { key, leaves }))
}

/// The digits of a rank as one number, if it is digits alone.
fn level_of(op: &Operation) -> Option<u32> {
    let mut level: u32 = 0;
    for rank in op.ranks.as_slice() {
        match rank {
            Rank::Digit(digit) => {
                level = level.saturating_mul(10).saturating_add(u32::from(*digit));
            }
            _ => return None,
        }
    }
    Some(level)
}

/// Whether an operation sets the field to a value, or clears it.
fn sets(doing: Doing) -> bool {
    match doing {
        Doing::Sets { .. } | Doing::Clears => true,
        _ => false,
    }
}

/// The lowest level of which an operation sets the field.
fn lowest_level(ops: &[Operation], kept: &Kept) -> Result<u32, Miss> {
    let mut lowest = LEVELS;
    for (op, doing) in ops.iter().zip(kept.doings.iter()) {
        if sets(*doing) {
            match level_of(op) {
                Some(level) => lowest = lowest.min(level),
                None => return Err(Miss::NoRule),
            }
        }
    }
    if lowest == LEVELS {
        return Err(Miss::NoRule);
    }
    Ok(lowest)
}

/// The field without what the levels set: its start, or what is added or joined below them.
fn below_levels(
    alloc: Global,
    ops: &[Operation],
    kept: &Kept,
    base: u32,
    lowest: u32,
) -> Result<Made, Miss> {
    let mut doings = Vec::new(alloc);
    let mut moves = false;
    for (op, doing) in ops.iter().zip(kept.doings.iter()) {
        let below = doing_below(op, *doing, lowest)?;
        moves = moves || acts(below);
        push(&mut doings, below)?;
    }
    let below = Kept {
        key: kept.key,
        sort: kept.sort,
        start: kept.start,
        doings,
    };
    if !moves {
        return Ok(Made {
            components: Vec::new(alloc),
            reading: Reading::Start(kept.start),
        });
    }
    match sums(alloc, &below, base) {
        Err(Miss::NoRule) => joins(alloc, &below, base),
        made => made,
    }
}

/// What an operation does below the levels.
fn doing_below(op: &Operation, doing: Doing, lowest: u32) -> Result<Doing, Miss> {
    match doing {
        Doing::Nothing | Doing::Clears | Doing::Sets { .. } => Ok(Doing::Nothing),
        other => match level_of(op) {
            Some(level) if level < lowest => Ok(other),
            _ => Err(Miss::NoRule),
        },
    }
}

/// The value that operations set at a level; no rule fits if two set different ones.
fn value_at(ops: &[Operation], kept: &Kept, level: u32) -> Result<Option<Value>, Miss> {
    let mut value = None;
    for (op, doing) in ops.iter().zip(kept.doings.iter()) {
        if sets(*doing) && level_of(op) == Some(level) {
            let own = value_set(kept.start, *doing)?;
            if value.is_some() && value != Some(own) {
                return Err(Miss::NoRule);
            }
            value = Some(own);
        }
    }
    Ok(value)
}

/// The constant that an operation sets.
fn value_set(start: Value, doing: Doing) -> Result<Value, Miss> {
    match doing {
        Doing::Clears => Ok(start),
        Doing::Sets {
            given: Given::Const(value),
            ..
        } => Ok(value),
        _ => Err(Miss::NoRule),
    }
}

/// What was made, and above it what a level sets. A level that sets the start right above the start is left out.
fn risen(
    alloc: Global,
    ops: &[Operation],
    kept: &Kept,
    step: Step,
    made: Made,
) -> Result<Made, Miss> {
    let Made {
        mut components,
        reading,
    } = made;
    if is_start(&reading, step.value) {
        return Ok(Made {
            components,
            reading,
        });
    }
    let reading = marked(alloc, ops, kept, step, false, &mut components, reading)?;
    let reading = marked(alloc, ops, kept, step, true, &mut components, reading)?;
    Ok(Made {
        components,
        reading,
    })
}

/// Whether the reading is the value, whatever was done.
fn is_start(reading: &Reading, value: Value) -> bool {
    match reading {
        Reading::Start(start) => *start == value,
        _ => false,
    }
}

/// The reading under a mark of the level's operations that clear, or of those that set.
fn marked(
    alloc: Global,
    ops: &[Operation],
    kept: &Kept,
    step: Step,
    clears: bool,
    components: &mut Vec<Component>,
    reading: Reading,
) -> Result<Reading, Miss> {
    let mut gifts = Vec::new(alloc);
    let mut any = false;
    for (op, doing) in ops.iter().zip(kept.doings.iter()) {
        let gift = gift_at(alloc, op, *doing, step.level, clears)?;
        any = any || gift.is_some();
        push(&mut gifts, gift)?;
    }
    if !any {
        return Ok(reading);
    }
    let key = if clears { None } else { kept.key };
    let at = LeafAt {
        component: step.base.saturating_add(number_of(components.len())),
        leaf: 0,
        keyed: key.is_some(),
    };
    push(components, mark(alloc, key, gifts)?)?;
    Ok(Reading::Choice {
        when: Guard::Leaf(at),
        then: step.value,
        other: boxed(alloc, reading)?,
    })
}

/// What an operation of the level gives to its mark.
fn gift_at(
    alloc: Global,
    op: &Operation,
    doing: Doing,
    level: u32,
    clears: bool,
) -> Result<Option<Gift>, AllocError> {
    let key = match doing {
        Doing::Clears if clears => None,
        Doing::Sets { key, .. } if !clears => key,
        _ => return Ok(None),
    };
    if level_of(op) != Some(level) {
        return Ok(None);
    }
    marked_at(alloc, key)
}
