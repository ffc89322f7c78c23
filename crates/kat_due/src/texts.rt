//! Writing the lines of a report.
ghost use Rattle.std.specs.List.{flat_map};
ghost use Rattle.std.specs.Prelude.{◌≡◌, ◌++◌, [], OnOk};
ghost use Rattle.kat_design.specs.Designs.{design_form};
ghost use Rattle.kat_design.specs.Faults.{faults_of};
ghost use Rattle.kat_due.specs.Texts.{begin_line, design_end, differs_line, done_text, dones_text, further_text, history_line};

use kat_design::Design;
use kat_design_json::design_text;
use kat_hist::{History, push_args, push_number, push_op_name};
use kat_type::{Done, Signature};
use std::alloc::{AllocError, Global};

/// Appends the line of a history with its number.
pub fn push_history(
    alloc: Global,
    sig: &Signature,
    number: u64,
    history: &History,
    into: &mut Vec<u8>,
) -> Result<(), AllocError>
    ensures { OnOk result (into.new.items ≡ into.old.items ++ history_line sig.now number history.now) }
{
    push_number(b"history ", number, b":", into)?;
    push_dones(alloc, sig, history.ops.as_slice(), into)?;
    into.extend_from_slice(b"\n")
}

/// Appends operations after a blank, with `; ` between each two.
fn push_dones(
    alloc: Global,
    sig: &Signature,
    ones: &[Done],
    into: &mut Vec<u8>,
) -> Result<(), AllocError>
    ensures { OnOk result (into.new.items ≡ into.old.items ++ dones_text sig.now ones.now) }
{
    match ones {
        [] => Ok(()),
        [first, more @ ..] => {
            into.extend_from_slice(b" ")?;
            push_done(alloc, sig, first, into)?;
            push_further(alloc, sig, more, into)
        }
    }
}

/// Appends further operations.
fn push_further(
    alloc: Global,
    sig: &Signature,
    ones: &[Done],
    into: &mut Vec<u8>,
) -> Result<(), AllocError>
    ensures { OnOk result (into.new.items ≡ into.old.items ++ flat_map (further_text sig.now) ones.now) }
{
    for one in ones {
        into.extend_from_slice(b"; ")?;
        push_done(alloc, sig, one, into)?;
    }
    Ok(())
}

/// Appends `do R OP ARGS at T`.
fn push_done(
    alloc: Global,
    sig: &Signature,
    done: &Done,
    into: &mut Vec<u8>,
) -> Result<(), AllocError>
    ensures { OnOk result (into.new.items ≡ into.old.items ++ done_text sig.now done.now) }
{
    push_number(b"do ", u64::from(done.replica), b" ", into)?;
    push_op_name(alloc, sig, done.op, into)?;
    push_args(alloc, done.args.as_slice(), into)?;
    push_number(b" at ", done.time, b"", into)
}

/// Appends the line of a refuted design: its number, that of the history that it cites, and its text.
pub fn push_differs(
    alloc: Global,
    number: u64,
    history: u64,
    design: &Design,
    into: &mut Vec<u8>,
) -> Result<(), AllocError>
    requires { faults_of (design_form design.now) ≡ [] }
    ensures { OnOk result (into.new.items ≡ into.old.items ++ differs_line number history (design_form design.now)) }
{
    push_number(b"design ", number, b" differs ", into)?;
    push_number(b"", history, b" ", into)?;
    push_design(alloc, design, into)
}

/// Appends the first line of the block of an undecided design.
pub fn push_begin(
    alloc: Global,
    number: u64,
    design: &Design,
    into: &mut Vec<u8>,
) -> Result<(), AllocError>
    requires { faults_of (design_form design.now) ≡ [] }
    ensures { OnOk result (into.new.items ≡ into.old.items ++ begin_line number (design_form design.now)) }
{
    push_number(b"design ", number, b" undecided ", into)?;
    push_design(alloc, design, into)
}

/// Appends the text of a design and a newline.
fn push_design(alloc: Global, design: &Design, into: &mut Vec<u8>) -> Result<(), AllocError>
    requires { faults_of (design_form design.now) ≡ [] }
    ensures { OnOk result (into.new.items ≡ into.old.items ++ design_end (design_form design.now)) }
{
    into.extend_from_slice(&design_text(alloc, design)?)?;
    into.extend_from_slice(b"\n")
}
