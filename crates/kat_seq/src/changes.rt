//! What an operation assigns, and how a state takes it, so that it can be taken back without memory.
ghost use Rattle.std.specs.Prelude.{◌≡◌, ◌^◌, All, IfOk, MatchOption, OnErr, OnOk, map};
ghost use Rattle.kat_expr.specs.Slots.{slot_at};
ghost use Rattle.kat_expr.specs.Limits.{IsAtMost, IsSlotAtMost};
ghost use Rattle.kat_seq.specs.States.{change_of, changed, changed_by, with_keyed, with_plain, with_start};
ghost use Rattle.kat_seq.specs.Undone.{IsUndoable, keyed_back, plain_back, table_back, with_entries, with_undone};
ghost use Rattle.kat_type.specs.Types.{Assigned, assigned_by};
ghost use Rattle.kat_type.specs.Within.{IsLimited, right_of};

use kat_expr::{Entries, Slot, Undo, argument, eval};
use kat_num::Value;
use kat_type::Assign;
use std::alloc::{AllocError, Global};
use std::mem;

/// A value for a field, or for a table at a key; or a table that is cleared.
#[derive(Clone, Copy, PartialEq, Eq, Debug)]
pub(crate) enum Change {
    Plain {
        place: u32,
        value: Value,
    },
    Keyed {
        place: u32,
        key: Value,
        value: Value,
    },
    Cleared {
        place: u32,
    },
}

/// What is assigned in a state.
pub(crate) fn changes_of(
    alloc: Global,
    assigns: &[Assign],
    state: &[Slot],
    args: &[Value],
) -> Result<Vec<Change>, AllocError>
    requires rights { All (λ (a : Assigned). IsLimited (right_of a)) (map assigned_by assigns.now) }
    requires state { All (IsSlotAtMost (2 ^ 100)) state.now }
    requires args { All (IsAtMost (2 ^ 100)) args.now }
    ensures { IfOk result (λ changes. changes.items ≡ map (change_of state.now args.now) (map assigned_by assigns.now)) }
{
    let mut changes = Vec::new(alloc);
    for assign in assigns {
        changes.push(change_of(assign, state, args))?;
    }
    Ok(changes)
}

/// What one assignment gives in a state.
pub(crate) fn change_of(assign: &Assign, state: &[Slot], args: &[Value]) -> Change
    requires right { IsLimited (right_of (assigned_by assign.now)) }
    requires state { All (IsSlotAtMost (2 ^ 100)) state.now }
    requires args { All (IsAtMost (2 ^ 100)) args.now }
    ensures { result ≡ change_of state.now args.now (assigned_by assign.now) }
{
    match assign {
        Assign::Plain { field, right } => Change::Plain {
            place: *field,
            value: eval(right, state, args),
        },
        Assign::Keyed { field, key, right } => Change::Keyed {
            place: *field,
            key: argument(args, *key),
            value: eval(right, state, args),
        },
        Assign::Clear { field } => Change::Cleared { place: *field },
    }
}

/// Makes a change. If memory runs out, the state is as it was.
pub(crate) fn make_change(
    alloc: Global,
    state: &mut Vec<Slot>,
    change: Change,
) -> Result<(), AllocError>
    ensures ok { OnOk result (state.new.items ≡ changed state.old.items change) }
    ensures err { OnErr result (state.new.items ≡ state.old.items) }
{
    match change {
        Change::Plain { place, value } => {
            let _ = set_plain(state, place as usize, value);
            Ok(())
        }
        Change::Keyed { place, key, value } => {
            let _ = set_keyed(alloc, state, place as usize, key, value)?;
            Ok(())
        }
        Change::Cleared { place } => {
            let _ = clear_table(alloc, state, place as usize);
            Ok(())
        }
    }
}

/// Makes all changes, one after the other. If memory runs out, the state is as it was.
pub(crate) fn change_all(
    alloc: Global,
    state: &mut Vec<Slot>,
    changes: &[Change],
) -> Result<(), AllocError>
    ensures ok { OnOk result (state.new.items ≡ changed_by state.old.items changes.now) }
    ensures err { OnErr result (state.new.items ≡ state.old.items) }
{
    match changes {
        [] => Ok(()),
        [Change::Plain { place, value }, rest @ ..] => {
            let old = set_plain(state, *place as usize, *value);
            match change_all(alloc, state, rest) {
                Ok(()) => Ok(()),
                Err(error) => {
                    restore_plain(state, *place as usize, old);
                    Err(error)
                }
            }
        }
        [Change::Keyed { place, key, value }, rest @ ..] => {
            let undo = set_keyed(alloc, state, *place as usize, *key, *value)?;
            match change_all(alloc, state, rest) {
                Ok(()) => Ok(()),
                Err(error) => {
                    restore_keyed(state, *place as usize, undo);
                    Err(error)
                }
            }
        }
        [Change::Cleared { place }, rest @ ..] => {
            let old = clear_table(alloc, state, *place as usize);
            match change_all(alloc, state, rest) {
                Ok(()) => Ok(()),
                Err(error) => {
                    restore_table(state, *place as usize, old);
                    Err(error)
                }
            }
        }
    }
}

/// Gives a field another value, and gives the one before.
fn set_plain(state: &mut Vec<Slot>, place: usize, value: Value) -> Option<Value>
    ensures set { state.new.items ≡ changed state.old.items (Change.Plain place value) }
    ensures back { plain_back place result state.new.items ≡ state.old.items }
{
    if place >= state.len() {
        return None;
    }
    replace_value(&mut state[place], value)
}

/// Gives a table another value at a key, and what takes that back.
fn set_keyed(
    alloc: Global,
    state: &mut Vec<Slot>,
    place: usize,
    key: Value,
    value: Value,
) -> Result<Undo, AllocError>
    ensures set { OnOk result (state.new.items ≡ changed state.old.items (Change.Keyed place key value)) }
    ensures back { IfOk result (λ undo. IsUndoable undo (slot_at state.new.items place)
        × (keyed_back place undo state.new.items ≡ state.old.items)) }
    ensures err { OnErr result (state.new.items ≡ state.old.items) }
{
    if place >= state.len() {
        return Ok(Undo::Nothing);
    }
    put_value(alloc, &mut state[place], key, value)
}

/// Clears a table, and gives the entries before.
fn clear_table(alloc: Global, state: &mut Vec<Slot>, place: usize) -> Option<Entries>
    ensures set { state.new.items ≡ changed state.old.items (Change.Cleared place) }
    ensures back { table_back place result state.new.items ≡ state.old.items }
{
    if place >= state.len() {
        return None;
    }
    take_entries(alloc, &mut state[place])
}

/// Gives a field the value back that it had.
fn restore_plain(state: &mut Vec<Slot>, place: usize, old: Option<Value>)
    ensures { state.new.items ≡ plain_back place old state.old.items }
{
    if let Some(value) = old {
        let _ = set_plain(state, place, value);
    }
}

/// Takes a step on a table back.
fn restore_keyed(state: &mut Vec<Slot>, place: usize, undo: Undo)
    requires { IsUndoable undo (slot_at state.old.items place) }
    ensures { state.new.items ≡ keyed_back place undo state.old.items }
{
    if place < state.len() {
        take_back(&mut state[place], undo);
    }
}

/// Gives a table the entries back that it had.
fn restore_table(state: &mut Vec<Slot>, place: usize, old: Option<Entries>)
    ensures { state.new.items ≡ table_back place old state.old.items }
{
    if let Some(entries) = old {
        if place < state.len() {
            put_entries(&mut state[place], entries);
        }
    }
}

/// Replaces the value of a field, and gives the one before.
fn replace_value(slot: &mut Slot, value: Value) -> Option<Value>
    ensures set { slot.new ≡ with_plain value slot.old }
    ensures back { MatchOption result (slot.new ≡ slot.old) (λ old. with_plain old slot.new ≡ slot.old) }
{
    match slot {
        Slot::Plain(old) => Some(mem::replace(old, value)),
        Slot::Keyed { .. } => None,
    }
}

/// Puts a value at a key of a table.
fn put_value(alloc: Global, slot: &mut Slot, key: Value, value: Value) -> Result<Undo, AllocError>
    ensures set { OnOk result (slot.new ≡ with_keyed key value slot.old) }
    ensures back { IfOk result (λ undo. IsUndoable undo slot.new × (with_undone undo slot.new ≡ slot.old)) }
    ensures err { OnErr result (slot.new ≡ slot.old) }
{
    match slot {
        Slot::Keyed { entries, .. } => entries.put(alloc, key, value),
        Slot::Plain(_) => Ok(Undo::Nothing),
    }
}

/// Takes a step on the entries of a table back.
fn take_back(slot: &mut Slot, undo: Undo)
    requires { IsUndoable undo slot.old }
    ensures { slot.new ≡ with_undone undo slot.old }
{
    match slot {
        Slot::Keyed { entries, .. } => entries.take_back(undo),
        Slot::Plain(_) => {}
    }
}

/// Takes the entries out of a table.
fn take_entries(alloc: Global, slot: &mut Slot) -> Option<Entries>
    ensures set { slot.new ≡ with_start slot.old }
    ensures back { MatchOption result (slot.new ≡ slot.old) (λ old. with_entries old slot.new ≡ slot.old) }
{
    match slot {
        Slot::Keyed { entries, .. } => Some(mem::replace(entries, Entries::new(alloc))),
        Slot::Plain(_) => None,
    }
}

/// Puts entries into a table, in place of those that it has.
fn put_entries(slot: &mut Slot, old: Entries)
    ensures { slot.new ≡ with_entries old slot.old }
{
    match slot {
        Slot::Keyed { entries, .. } => *entries = old,
        Slot::Plain(_) => {}
    }
}
