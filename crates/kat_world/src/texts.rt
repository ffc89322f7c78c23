//! The lines of asks and shows.
ghost use Rattle.std.specs.Prelude.{◌≡◌, ◌++◌, ◌∷◌, [], codes, IfOk, OnErr, OnOk};
ghost use Rattle.kat_replica.specs.Texts.{state_text};
ghost use Rattle.kat_world.specs.Lines.{show_text};
ghost use Rattle.kat_world.specs.Texts.{args_text, ask_text, query_name};

use itoa::Buffer;
use kat_num::{Value, bytes_of, print};
use kat_replica::Replica;
use kat_type::Signature;
use std::alloc::{AllocError, Global};

/// Appends `R QUERY ARGS = VALUE` and a newline. After an error the text is as it was.
pub fn push_ask(
    alloc: Global,
    sig: &Signature,
    replica: u32,
    query: u32,
    args: &[Value],
    answer: &Value,
    into: &mut Vec<u8>,
) -> Result<(), AllocError>
    ensures ok { OnOk result (into.new.items ≡ into.old.items ++ ask_text sig.now replica query args.now answer.now) }
    ensures err { OnErr result (into.new.items ≡ into.old.items) }
{
    let line = ask_line(alloc, sig, replica, query, args, answer)?;
    into.extend_from_slice(&line)
}

/// The line of an ask.
fn ask_line(
    alloc: Global,
    sig: &Signature,
    replica: u32,
    query: u32,
    args: &[Value],
    answer: &Value,
) -> Result<Vec<u8>, AllocError>
    ensures { IfOk result (λ line. line.items ≡ ask_text sig.now replica query args.now answer.now) }
{
    let mut line = Vec::new(alloc);
    line.extend_from_slice(Buffer::new().format(replica).as_bytes())?;
    line.extend_from_slice(b" ")?;
    push_name(alloc, sig, query, &mut line)?;
    push_args(alloc, args, &mut line)?;
    line.extend_from_slice(b" = ")?;
    print(alloc, answer, &mut line)?;
    line.extend_from_slice(b"\n")?;
    Ok(line)
}

/// Appends the name of a query.
fn push_name(
    alloc: Global,
    sig: &Signature,
    query: u32,
    into: &mut Vec<u8>,
) -> Result<(), AllocError>
    ensures { OnOk result (into.new.items ≡ into.old.items ++ query_name sig.now query) }
{
    let code = match sig.queries.as_slice().get(query as usize) {
        Some(query) => query.name,
        None => 0,
    };
    into.extend_from_slice(&bytes_of(alloc, code)?)
}

/// Appends arguments, each after a blank.
fn push_args(alloc: Global, args: &[Value], into: &mut Vec<u8>) -> Result<(), AllocError>
    ensures { OnOk result (into.new.items ≡ into.old.items ++ args_text args.now) }
{
    for arg in args {
        into.extend_from_slice(b" ")?;
        print(alloc, arg, into)?;
    }
    Ok(())
}

/// Appends `R clock C STATE` and a newline. After an error the text is as it was.
pub fn push_show(
    alloc: Global,
    number: u32,
    replica: &Replica,
    into: &mut Vec<u8>,
) -> Result<(), AllocError>
    ensures ok { OnOk result (into.new.items ≡ into.old.items ++ show_text number replica.now.clock (state_text replica.now.state.parts)) }
    ensures err { OnErr result (into.new.items ≡ into.old.items) }
{
    let line = show_line(alloc, number, replica)?;
    into.extend_from_slice(&line)
}

/// The line of a show.
fn show_line(alloc: Global, number: u32, replica: &Replica) -> Result<Vec<u8>, AllocError>
    ensures { IfOk result (λ line. line.items ≡ show_text number replica.now.clock (state_text replica.now.state.parts)) }
{
    let mut line = Vec::new(alloc);
    line.extend_from_slice(Buffer::new().format(number).as_bytes())?;
    line.extend_from_slice(b" clock ")?;
    line.extend_from_slice(Buffer::new().format(replica.clock).as_bytes())?;
    line.extend_from_slice(b" ")?;
    replica.show(alloc, &mut line)?;
    line.extend_from_slice(b"\n")?;
    Ok(line)
}
