//! What a sequential type answers on a script.
ghost use Rattle.std.specs.Prelude.{◌≡◌, ◌≤◌, ◌++◌, length, IsErrOf, OnErr, OnOk};
ghost use Rattle.kat_io.specs.Outside.{Rose, grown};
ghost use Rattle.kat_script.specs.Judged.{IsJudged};
ghost use Rattle.kat_seq.specs.Sizes.{HaveSmallArguments};
ghost use Rattle.kat_type.specs.Signatures.{signature_of};
ghost use Rattle.kat_type.specs.Types.{type_form};
ghost use Rattle.kat_type.specs.Within.{IsWithinLimits};
ghost use Rattle.kat_world.specs.Checkpoints.{AreReached};
ghost use Rattle.kat_world.specs.Model.{model_lines};
ghost use Rattle.kat_world.specs.Seen.{seen};
ghost use Rattle.kat_world.specs.Tracked.{AsksLittle, followed, printed};
ghost use Rattle.kat_world.specs.Written.{IsCutShort};

use crate::checkpoints::{Checkpoint, answer_at, no_checkpoints};
use crate::order::operations_of;
use crate::places::place_of;
use crate::texts::push_ask;
use crate::times::Holders;
use crate::writing::{WorldError, emit};
use kat_io::Sink;
use kat_script::{Line, Script};
use kat_type::{Done, SeqType, Signature, signature};
use std::alloc::{AllocError, Global};

/// Writes, for each ask of a script, a line with the answer of the sequential type after the operations that the
/// asked replica absorbed, arranged by rank, then time, then replica. Each line is written by a call of its own.
///
/// The script is judged good for the type's signature. After an error a prefix of the lines was written.
pub fn model<K: Sink>(
    alloc: Global,
    ty: &SeqType,
    script: &Script,
    out: &mut K,
) -> Result<(), WorldError>
    requires limits { IsWithinLimits (type_form ty.now) }
    requires judged { IsJudged (signature_of (type_form ty.now)) script.now }
    ensures ok { OnOk result (K.written out.new ≡ grown (K.written out.old) (model_lines (type_form ty.now) script.now)) }
    ensures err { OnErr result (IsCutShort (K.written out.old) (K.written out.new) (model_lines (type_form ty.now) script.now)) }
    ensures fault { IsErrOf result WorldError.WriteFault → Rose (K.faults out.old) (K.faults out.new) }
    ensures later { K.faults out.old ≤ K.faults out.new }
{
    let sig = signature(alloc, ty)?;
    let lines = script.lines.as_slice();
    let order = operations_of(alloc, ty, lines)?;
    let mut holders = Holders::new(alloc, script.replicas)?;
    let mut points = no_checkpoints(alloc, script.replicas)?;
    let mut text = Vec::new(alloc);
    for line in lines {
        run_line(
            alloc,
            ty,
            &sig,
            &order,
            line,
            &mut holders,
            &mut points,
            &mut text,
            out,
        )?;
    }
    Ok(())
}

/// Prints what a line prints, and does what it says. The text is a buffer.
fn run_line<K: Sink>(
    alloc: Global,
    ty: &SeqType,
    sig: &Signature,
    order: &[Done],
    line: &Line,
    holders: &mut Holders,
    points: &mut Vec<Option<Checkpoint>>,
    text: &mut Vec<u8>,
    out: &mut K,
) -> Result<(), WorldError>
    requires limits { IsWithinLimits (type_form ty.now) }
    requires order { HaveSmallArguments order.now }
    requires few { length order.now ≤ 100_000 }
    requires points { AreReached (type_form ty.now) order.now points.old.items }
    requires line { AsksLittle line.now }
    ensures points { OnOk result (AreReached (type_form ty.now) order.now points.new.items) }
    ensures followed { OnOk result (seen holders.new ≡ followed (seen holders.old) line.now) }
    ensures ok { OnOk result (K.written out.new ≡ grown (K.written out.old)
        (printed (type_form ty.now) sig.now order.now (seen holders.old) line.now)) }
    ensures err { OnErr result (IsCutShort (K.written out.old) (K.written out.new)
        (printed (type_form ty.now) sig.now order.now (seen holders.old) line.now)) }
    ensures later { K.faults out.old ≤ K.faults out.new }
    ensures fault { IsErrOf result WorldError.WriteFault → Rose (K.faults out.old) (K.faults out.new) }
{
    text.clear();
    print(alloc, ty, sig, order, line, holders, points, text)?;
    emit(alloc, text, out)?;
    holders.follow(alloc, line)?;
    Ok(())
}

/// Appends what a line prints. A replica that is asked has a checkpoint from then on.
fn print(
    alloc: Global,
    ty: &SeqType,
    sig: &Signature,
    order: &[Done],
    line: &Line,
    holders: &Holders,
    points: &mut Vec<Option<Checkpoint>>,
    into: &mut Vec<u8>,
) -> Result<(), AllocError>
    requires limits { IsWithinLimits (type_form ty.now) }
    requires order { HaveSmallArguments order.now }
    requires few { length order.now ≤ 100_000 }
    requires points { AreReached (type_form ty.now) order.now points.old.items }
    requires line { AsksLittle line.now }
    ensures text { OnOk result (into.new.items ≡ into.old.items
        ++ printed (type_form ty.now) sig.now order.now (seen holders.now) line.now) }
    ensures points { OnOk result (AreReached (type_form ty.now) order.now points.new.items) }
{
    match line {
        Line::Ask {
            replica,
            query,
            args,
        } => {
            let args = args.as_slice();
            let place = place_of(*replica);
            let answer = answer_at(
                alloc,
                ty,
                order,
                &holders.replicas,
                points,
                place,
                *query,
                args,
            )?;
            push_ask(alloc, sig, *replica, *query, args, &answer, into)?;
            Ok(())
        }
        Line::Do(_) | Line::Ship { .. } | Line::Deliver { .. } | Line::Show { .. } => Ok(()),
    }
}
