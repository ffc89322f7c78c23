//! The texts beside the marks.
ghost use Rattle.std.specs.Prelude.{◌≡◌, ◌++◌, IfOk, OnOk};
ghost use Rattle.kat_picture.specs.Labels.{answer_text, args_text, asked_text, did_text, op_name, query_name, word_text};

use itoa::Buffer;
use kat_num::{Value, bytes_of, print};
use kat_type::{Done, Signature};
use std::alloc::{AllocError, Global};

/// `OP ARGS at T`
pub(crate) fn did_text(alloc: Global, sig: &Signature, done: &Done) -> Result<Vec<u8>, AllocError>
    ensures { IfOk result (λ text. text.items ≡ did_text sig.now done.now) }
{
    let mut text = op_name(alloc, sig, done.op)?;
    push_args(alloc, done.args.as_slice(), &mut text)?;
    text.extend_from_slice(b" at ")?;
    text.extend_from_slice(Buffer::new().format(done.time).as_bytes())?;
    Ok(text)
}

/// `QUERY ARGS`, and after it `= VALUE` if there is an answer, the first of these.
pub(crate) fn asked_text(
    alloc: Global,
    sig: &Signature,
    query: u32,
    args: &[Value],
    answers: &[Value],
) -> Result<Vec<u8>, AllocError>
    ensures { IfOk result (λ text. text.items ≡ asked_text sig.now query args.now answers.now) }
{
    let mut text = query_name(alloc, sig, query)?;
    push_args(alloc, args, &mut text)?;
    push_answer(alloc, answers, &mut text)?;
    Ok(text)
}

/// The word of a packet by its number.
pub(crate) fn word_text(alloc: Global, words: &[u128], packet: u32) -> Result<Vec<u8>, AllocError>
    ensures { IfOk result (λ text. text.items ≡ word_text words.now packet) }
{
    let code = match words.get(packet as usize) {
        Some(word) => *word,
        None => 0,
    };
    bytes_of(alloc, code)
}

/// The name of an operation by its number.
fn op_name(alloc: Global, sig: &Signature, op: u32) -> Result<Vec<u8>, AllocError>
    ensures { IfOk result (λ name. name.items ≡ op_name sig.now op) }
{
    let code = match sig.ops.as_slice().get(op as usize) {
        Some(op) => op.name,
        None => 0,
    };
    bytes_of(alloc, code)
}

/// The name of a query by its number.
fn query_name(alloc: Global, sig: &Signature, query: u32) -> Result<Vec<u8>, AllocError>
    ensures { IfOk result (λ name. name.items ≡ query_name sig.now query) }
{
    let code = match sig.queries.as_slice().get(query as usize) {
        Some(query) => query.name,
        None => 0,
    };
    bytes_of(alloc, code)
}

/// Appends arguments, each after a blank.
fn push_args(alloc: Global, args: &[Value], into: &mut Vec<u8>) -> Result<(), AllocError>
    ensures { OnOk result (into.new.items ≡ into.old.items ++ args_text args.now) }
{
    for arg in args {
        into.extend_from_slice(b" ")?;
        print(alloc, arg, into)?;
    }
    Ok(())
}

/// Appends the first of the answers, if there is one.
fn push_answer(alloc: Global, answers: &[Value], into: &mut Vec<u8>) -> Result<(), AllocError>
    ensures { OnOk result (into.new.items ≡ into.old.items ++ answer_text answers.now) }
{
    match answers {
        [answer, ..] => {
            into.extend_from_slice(b" = ")?;
            print(alloc, answer, into)
        }
        [] => Ok(()),
    }
}
