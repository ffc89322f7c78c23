//! Ranks as slots.

use crate::marks::touches_of;
use crate::pieces::{Holds, Register, Slot};
use crate::subjects::{Change, Subject};
use kat_design::Leaf;
use kat_num::{Sort, Value};
use kat_reading::{
    Doing, Given, Held, Kept, Miss, are_above_starts, full_columns_of, push, start_held,
};
use kat_type::{Operation, SeqType};
use std::alloc::{AllocError, Global};

/// A register of the last write of a field, with the slots of its rank: a truth value first, if a rank may be as low as the start.
pub fn register_of(alloc: Global, ty: &SeqType, subject: &Subject) -> Result<Register, Miss> {
    let kept = kept_of(alloc, subject)?;
    let columns = full_columns_of(alloc, ty.ops.as_slice(), &kept)?;
    let mut slots = Vec::new(alloc);
    if !are_above_starts(&columns) {
        push(&mut slots, written(alloc, ty.ops.as_slice())?)?;
    }
    for column in columns {
        let start = start_held(column.held);
        let holds = holds_of(column.held);
        let leaves = Vec::from_slice(alloc, &column.leaves)?;
        push(
            &mut slots,
            Slot {
                holds,
                start,
                leaves,
            },
        )?;
    }
    Ok(Register {
        key: subject.key,
        ranks: slots.len(),
        touches: touches_of(alloc, subject)?,
        slots,
    })
}

/// The field, as one that the same operations set.
fn kept_of(alloc: Global, subject: &Subject) -> Result<Kept, Miss> {
    let mut doings = Vec::new(alloc);
    for change in &subject.changes {
        match change {
            Change::Nothing => push(&mut doings, Doing::Nothing)?,
            Change::Clears => return Err(Miss::NoRule),
            Change::Gives { key, .. } => {
                let given = Given::Const(subject.start);
                push(&mut doings, Doing::Sets { key: *key, given })?;
            }
        }
    }
    Ok(Kept {
        key: subject.key,
        sort: subject.sort,
        start: subject.start,
        doings,
    })
}

/// The slot that says that something was written.
fn written(alloc: Global, ops: &[Operation]) -> Result<Slot, AllocError> {
    let mut leaves = Vec::new(alloc);
    for _ in ops {
        push(&mut leaves, Leaf::True)?;
    }
    Ok(Slot {
        holds: Holds::Truth,
        start: Value::Bool(false),
        leaves,
    })
}

/// What the slot of a column holds.
fn holds_of(held: Held) -> Holds {
    match held {
        Held::Digit => Holds::Truth,
        Held::Name => Holds::Name,
        Held::Later | Held::Number | Held::Signed => Holds::Number,
    }
}

/// What the slot of a sort holds.
pub fn holds_sort(sort: Sort) -> Holds {
    match sort {
        Sort::Bool => Holds::Truth,
        Sort::Name => Holds::Name,
        Sort::Int | Sort::Nat => Holds::Number,
    }
}
