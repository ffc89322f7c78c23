//! The script that shows a history.
ghost use Rattle.std.specs.Prelude.{◌≡◌, ◌++◌, IfOk, OnOk};
ghost use Rattle.std.specs.List.{flat_map};
ghost use Rattle.kat_histories.specs.Laws.{IsHistory};
ghost use Rattle.kat_hist.specs.Scripts.{args_text, ask_text, do_text, number_text, op_name, query_name, script_text};
ghost use Rattle.kat_hist.specs.Words.{HasWords};
ghost use Rattle.kat_script.specs.Script.{IsScriptText};
ghost use Rattle.kat_script.specs.declared.script.Script.{Script};
ghost use Rattle.kat_type.specs.Fits as types;
ghost use Rattle.kat_type.specs.Signatures.{signature_of};
ghost use Rattle.kat_type.specs.Types.{type_form};

use itoa::Buffer;
use kat_histories::{Call, History, asks_of};
use kat_num::{Value, bytes_of, print};
use kat_type::{Done, SeqType, Signature, signature, signatures_are_small};
use std::alloc::{AllocError, Global};

/// The text of a script of two replicas that do what the history says; then the first is told of what the second did, and is
/// asked each query with each list of arguments of the pools. For a type that a file says, and a history of all of its
/// histories, `read_script` takes it.
///
/// For the history of `set -1` by replica 1 and `set 0` by replica 2, both at time 1:
///
/// ```text
/// replicas 2
/// do 1 set -1 at 1
/// do 2 set 0 at 1
/// ship 2 p
/// deliver p 1
/// ask 1 get
/// ```
pub fn script_of(alloc: Global, ty: &SeqType, history: &History) -> Result<Vec<u8>, AllocError>
    requires sorted { types.IsWellSorted (type_form ty.now) }
    ensures text { IfOk result (λ text. text.items ≡ script_text (signature_of (type_form ty.now)) history.now) }
    ensures judged { HasWords (signature_of (type_form ty.now)) → IsHistory (signature_of (type_form ty.now)) history.now
        → IfOk result (λ text. (script : Script) × IsScriptText (signature_of (type_form ty.now)) text.items script) }
{
    signatures_are_small();
    let sig = signature(alloc, ty)?;
    let asks = asks_of(alloc, &sig)?;
    let mut text = Vec::new(alloc);
    text.extend_from_slice(b"replicas 2\n")?;
    push_dones(alloc, &sig, history.ops.as_slice(), &mut text)?;
    text.extend_from_slice(b"ship 2 p\ndeliver p 1\n")?;
    push_asks(alloc, &sig, &asks, &mut text)?;
    Ok(text)
}

/// Appends the lines of operations.
fn push_dones(
    alloc: Global,
    sig: &Signature,
    ones: &[Done],
    into: &mut Vec<u8>,
) -> Result<(), AllocError>
    ensures { OnOk result (into.new.items ≡ into.old.items ++ flat_map (do_text sig.now) ones.now) }
{
    for one in ones {
        push_do(alloc, sig, one, into)?;
    }
    Ok(())
}

/// Appends the lines of asks.
fn push_asks(
    alloc: Global,
    sig: &Signature,
    asks: &[Call],
    into: &mut Vec<u8>,
) -> Result<(), AllocError>
    ensures { OnOk result (into.new.items ≡ into.old.items ++ flat_map (ask_text sig.now) asks.now) }
{
    for ask in asks {
        push_ask(alloc, sig, ask, into)?;
    }
    Ok(())
}

/// Appends `do R OP ARGS at T` and a newline.
fn push_do(
    alloc: Global,
    sig: &Signature,
    done: &Done,
    into: &mut Vec<u8>,
) -> Result<(), AllocError>
    ensures { OnOk result (into.new.items ≡ into.old.items ++ do_text sig.now done.now) }
{
    push_number(b"do ", u64::from(done.replica), b" ", into)?;
    push_op_name(alloc, sig, done.op, into)?;
    push_args(alloc, done.args.as_slice(), into)?;
    push_number(b" at ", done.time, b"\n", into)
}

/// Appends a number between two texts.
pub fn push_number(
    before: &[u8],
    number: u64,
    behind: &[u8],
    into: &mut Vec<u8>,
) -> Result<(), AllocError>
    ensures { OnOk result (into.new.items ≡ into.old.items ++ number_text before.now number behind.now) }
{
    into.extend_from_slice(before)?;
    into.extend_from_slice(Buffer::new().format(number).as_bytes())?;
    into.extend_from_slice(behind)
}

/// Appends `ask 1 QUERY ARGS` and a newline.
fn push_ask(
    alloc: Global,
    sig: &Signature,
    ask: &Call,
    into: &mut Vec<u8>,
) -> Result<(), AllocError>
    ensures { OnOk result (into.new.items ≡ into.old.items ++ ask_text sig.now ask.now) }
{
    into.extend_from_slice(b"ask 1 ")?;
    push_query_name(alloc, sig, ask.number, into)?;
    push_args(alloc, ask.args.as_slice(), into)?;
    into.extend_from_slice(b"\n")
}

/// Appends the name of the operation with a number; of one that the signature doesn't have, the name that the code 0 has.
pub fn push_op_name(
    alloc: Global,
    sig: &Signature,
    op: u32,
    into: &mut Vec<u8>,
) -> Result<(), AllocError>
    ensures { OnOk result (into.new.items ≡ into.old.items ++ op_name sig.now op) }
{
    let code = match sig.ops.as_slice().get(op as usize) {
        Some(op) => op.name,
        None => 0,
    };
    into.extend_from_slice(&bytes_of(alloc, code)?)
}

/// Appends the name of a query.
fn push_query_name(
    alloc: Global,
    sig: &Signature,
    query: u32,
    into: &mut Vec<u8>,
) -> Result<(), AllocError>
    ensures { OnOk result (into.new.items ≡ into.old.items ++ query_name sig.now query) }
{
    let code = match sig.queries.as_slice().get(query as usize) {
        Some(query) => query.name,
        None => 0,
    };
    into.extend_from_slice(&bytes_of(alloc, code)?)
}

/// Appends arguments, each after a blank.
pub fn push_args(alloc: Global, args: &[Value], into: &mut Vec<u8>) -> Result<(), AllocError>
    ensures { OnOk result (into.new.items ≡ into.old.items ++ args_text args.now) }
{
    for arg in args {
        into.extend_from_slice(b" ")?;
        print(alloc, arg, into)?;
    }
    Ok(())
}
