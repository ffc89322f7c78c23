//! The state of a sequential type at the start, after an operation, and its answers.
ghost use Rattle.std.specs.Prelude.{◌≡◌, ◌^◌, All, IfOk, OnErr, OnOk, map};
ghost use Rattle.kat_expr.specs.Limits.{IsAtMost, IsSlotAtMost};
ghost use Rattle.kat_seq.specs.States.{answer_of, change_of, changed_by, start_slot, started, stepped};
ghost use Rattle.kat_type.specs.Types.{Assigned, assigned_by, type_form};
ghost use Rattle.kat_type.specs.Within.{IsLimited, IsWithinLimits, right_of};

use crate::changes::{change_all, change_of, changes_of, make_change};
use kat_expr::{Entries, Slot, eval};
use kat_num::Value;
use kat_type::{Assign, Done, Field, SeqType};
use std::alloc::{AllocError, Global};

/// What a type keeps at first: each field its start, each table its start at every key.
pub fn start(alloc: Global, ty: &SeqType) -> Result<Vec<Slot>, AllocError>
    ensures { IfOk result (λ state. state.items ≡ started (type_form ty.now)) }
{
    start_all(alloc, ty.fields.as_slice())
}

/// What is kept of fields at first.
fn start_all(alloc: Global, fields: &[Field]) -> Result<Vec<Slot>, AllocError>
    ensures { IfOk result (λ state. state.items ≡ map start_slot fields.now) }
{
    let mut state = Vec::new(alloc);
    for field in fields {
        state.push(start_slot(alloc, *field))?;
    }
    Ok(state)
}

/// What is kept of a field at first.
fn start_slot(alloc: Global, field: Field) -> Slot
    ensures { result ≡ start_slot field }
{
    match field {
        Field::Plain { start, .. } => Slot::Plain(start),
        Field::Keyed { start, .. } => Slot::Keyed {
            start,
            entries: Entries::new(alloc),
        },
    }
}

/// Does an operation: all its right sides are taken in the state as it is, and then assigned.
///
/// The state is one of the type's, and no number of it or of the arguments is greater than 2^100. If memory runs out, the state is as it
/// was.
pub fn step(
    alloc: Global,
    ty: &SeqType,
    state: &mut Vec<Slot>,
    done: &Done,
) -> Result<(), AllocError>
    requires limits { IsWithinLimits (type_form ty.now) }
    requires state { All (IsSlotAtMost (2 ^ 100)) state.old.items }
    requires args { All (IsAtMost (2 ^ 100)) done.now.args }
    ensures ok { OnOk result (state.new.items ≡ stepped (type_form ty.now) state.old.items done.now) }
    ensures err { OnErr result (state.new.items ≡ state.old.items) }
{
    match ty.ops.as_slice().get(done.op as usize) {
        Some(operation) => assign(
            alloc,
            operation.assigns.as_slice(),
            state,
            done.args.as_slice(),
        ),
        None => Ok(()),
    }
}

/// Takes all right sides in the state as it is, and then assigns them. Most operations assign once, which needs no list.
fn assign(
    alloc: Global,
    assigns: &[Assign],
    state: &mut Vec<Slot>,
    args: &[Value],
) -> Result<(), AllocError>
    requires rights { All (λ (a : Assigned). IsLimited (right_of a)) (map assigned_by assigns.now) }
    requires state { All (IsSlotAtMost (2 ^ 100)) state.old.items }
    requires args { All (IsAtMost (2 ^ 100)) args.now }
    ensures ok { OnOk result (state.new.items ≡ changed_by state.old.items
        (map (change_of state.old.items args.now) (map assigned_by assigns.now))) }
    ensures err { OnErr result (state.new.items ≡ state.old.items) }
{
    match assigns {
        [only] => {
            let change = change_of(only, state, args);
            make_change(alloc, state, change)
        }
        _ => {
            let changes = changes_of(alloc, assigns, state, args)?;
            change_all(alloc, state, &changes)
        }
    }
}

/// The answer of a query, by its number, in a state with these arguments.
///
/// The state is one of the type's, and no number of it or of the arguments is greater than 2^100.
pub fn answer(ty: &SeqType, state: &[Slot], query: u32, args: &[Value]) -> Value
    requires limits { IsWithinLimits (type_form ty.now) }
    requires state { All (IsSlotAtMost (2 ^ 100)) state.now }
    requires args { All (IsAtMost (2 ^ 100)) args.now }
    ensures { result ≡ answer_of (type_form ty.now) state.now query args.now }
{
    match ty.queries.as_slice().get(query as usize) {
        Some(query) => eval(&query.right, state, args),
        None => Value::Bool(false),
    }
}
