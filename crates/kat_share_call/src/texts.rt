//! What is written for the texts of files.
ghost use Rattle.std.specs.Prelude.{◌≡◌, ◌≤◌, IfErr, IfOk, None, OnOk, length};
ghost use Rattle.std.specs.List.{AllByRecursion};
ghost use Rattle.kat_actions.specs.Texts.{FitsSignature};
ghost use Rattle.kat_actions.specs.declared.calls.Verb.TheVariants as Verb;
ghost use Rattle.kat_design.specs.Designs.{design_form};
ghost use Rattle.kat_design.specs.Sorted.{AreMatched, EachHas, IsWellSorted};
ghost use Rattle.kat_io.specs.Outside.{grown};
ghost use Rattle.kat_share_call.specs.Codes.{Ends, IsPlain, NoGap};
ghost use Rattle.kat_share_call.specs.Inside.{EndsStep, TellsBeyond, inputs_of};
ghost use Rattle.kat_share_call.specs.Written.{AreInputs, HasGap, Took, WroteDifference, WroteNew, contents};
ghost use Rattle.kat_share_step.specs.Shares.{IsPacket, IsShare, SaysPacket, SaysShare, first_share};
ghost use Rattle.kat_share_step.specs.Steps as steps;
ghost use Rattle.kat_step.specs.Limits.{first_refusal};

use crate::status::{
    At, Status, refused_actions, refused_at, refused_design, refused_packet, refused_share,
};
use kat_actions::{Call, read_actions};
use kat_design::Design;
use kat_io::{Sink, WriteError};
use kat_share::{Share, SharePacket, read_packet, read_share};
use kat_share_step::{
    PACKETS_LIMIT, ShareStepError, known_share, new_share, packet_beyond, packet_text, share_text,
    stepped_share, steps_keep_shares,
};
use kat_wire::{DesignFile, read_file};
use std::alloc::{AllocError, Global};

/// What the files of a step say.
#[derive(Drop)]
pub(crate) struct StepInputs {
    pub(crate) file: DesignFile,
    pub(crate) share: Share,
    pub(crate) actions: Vec<Call>,
    pub(crate) packets: Vec<SharePacket>,
}

/// Judges the design, and writes the share file of a new replica.
pub(crate) fn write_new<K: Sink>(alloc: Global, design: &[u8], number: u32, out: &mut K) -> Status
    requires least { 1 ≤ number }
    requires most { number ≤ 32 }
    ensures { Ends (WroteNew design.now number (K.written out.old) (K.written out.new)) NoGap (K.written out.old) (K.written out.new) result }
{
    let file = match read_file(alloc, design) {
        Ok(file) => file,
        Err(error) => return refused_design(alloc, 0, error),
    };
    match new_text(alloc, &file.design, number) {
        Ok(text) => print(alloc, &text, out),
        Err(_) => Status::Memory,
    }
}

/// The share file of a new replica.
fn new_text(alloc: Global, design: &Design, number: u32) -> Result<Vec<u8>, AllocError>
    requires sorted { IsWellSorted (design_form design.now) }
    requires least { 1 ≤ number }
    requires most { number ≤ 32 }
    ensures { IfOk result (λ text. SaysShare (design_form design.now) text.items (first_share (design_form design.now) number)) }
{
    let share = new_share(alloc, design, number)?;
    let text = share_text(alloc, design, &share)?;
    Ok(text)
}

/// Judges the design, the share and what is known, and writes the packet of what the share has beyond it.
pub(crate) fn write_difference<K: Sink>(
    alloc: Global,
    design: &[u8],
    share: &[u8],
    known: &[u8],
    out: &mut K,
) -> Status
    ensures { Ends (WroteDifference design.now share.now known.now (K.written out.old) (K.written out.new)) NoGap
        (K.written out.old) (K.written out.new) result }
{
    let file = match read_file(alloc, design) {
        Ok(file) => file,
        Err(error) => return refused_design(alloc, 0, error),
    };
    let whole = match read_share(alloc, share, &file.design) {
        Ok(whole) => whole,
        Err(error) => return refused_share(alloc, 1, error),
    };
    let before = match known_share(alloc, &file.design, whole.node.number, known) {
        Ok(before) => before,
        Err(error) => return refused_share(alloc, 2, error),
    };
    match difference_text(alloc, &file.design, &before, &whole) {
        Ok(text) => print(alloc, &text, out),
        Err(_) => Status::Memory,
    }
}

/// The packet of what a share has beyond a known one.
fn difference_text(
    alloc: Global,
    design: &Design,
    known: &Share,
    whole: &Share,
) -> Result<Vec<u8>, AllocError>
    requires sorted { IsWellSorted (design_form design.now) }
    requires known { IsShare (design_form design.now) known.now }
    requires whole { IsShare (design_form design.now) whole.now }
    ensures { IfOk result (λ text. TellsBeyond (design_form design.now) known.now whole.now text.items) }
{
    let packet = packet_beyond(alloc, design, known, whole)?;
    let text = packet_text(alloc, design, &packet)?;
    Ok(text)
}

/// Judges the design, the share, the actions and the packets in their order; merges the packets, does the actions, and only then writes
/// the share file.
pub(crate) fn write_step<K: Sink>(
    alloc: Global,
    design: &[u8],
    share: &[u8],
    actions: &[u8],
    packets: &[Vec<u8>],
    out: &mut K,
) -> Status
    requires few { length packets.now ≤ PACKETS_LIMIT }
    ensures { Ends (Took design.now share.now actions.now (contents packets.now) (K.written out.old) (K.written out.new))
        (HasGap design.now share.now actions.now (contents packets.now)) (K.written out.old) (K.written out.new) result }
{
    let inputs = match read_inputs(alloc, design, share, actions, packets) {
        Ok(inputs) => inputs,
        Err(status) => return status,
    };
    let StepInputs {
        file,
        share,
        actions,
        packets,
    } = inputs;
    steps_keep_shares();
    match step_text(alloc, &file.design, share, &packets, &actions) {
        Ok(text) => print(alloc, &text, out),
        Err(error) => refused_step(error),
    }
}

/// What the files of a step say, or how the call ends if one is refused.
fn read_inputs(
    alloc: Global,
    design: &[u8],
    share: &[u8],
    actions: &[u8],
    packets: &[Vec<u8>],
) -> Result<StepInputs, Status>
    requires few { length packets.now ≤ PACKETS_LIMIT }
    ensures read { IfOk result (λ inputs. AreInputs design.now share.now actions.now (contents packets.now) (inputs_of inputs)) }
    ensures plain { IfErr result IsPlain }
{
    let file = match read_file(alloc, design) {
        Ok(file) => file,
        Err(error) => return Err(refused_design(alloc, 0, error)),
    };
    let share = match read_share(alloc, share, &file.design) {
        Ok(share) => share,
        Err(error) => return Err(refused_share(alloc, 1, error)),
    };
    let actions = match read_actions(alloc, actions, &file.design.sig) {
        Ok(actions) => actions,
        Err(error) => return Err(refused_actions(2, error)),
    };
    match read_packets(alloc, &file.design, 3, packets) {
        Ok(packets) => Ok(StepInputs {
            file,
            share,
            actions,
            packets,
        }),
        Err(status) => Err(status),
    }
}

/// The packets of some texts, of which the first is the file of this number.
fn read_packets(
    alloc: Global,
    design: &Design,
    first: u32,
    packets: &[Vec<u8>],
) -> Result<Vec<SharePacket>, Status>
    requires sorted { IsWellSorted (design_form design.now) }
    ensures read { IfOk result (λ read. AreMatched (SaysPacket (design_form design.now)) (contents packets.now) read.items) }
    ensures plain { IfErr result IsPlain }
{
    let Some((packet, rest)) = packets.split_first() else {
        return Ok(Vec::new(alloc));
    };
    let read = match read_packet(alloc, packet, design) {
        Ok(read) => read,
        Err(error) => return Err(refused_packet(alloc, first, error)),
    };
    let mut others = match read_packets(alloc, design, first.saturating_add(1), rest) {
        Ok(others) => others,
        Err(status) => return Err(status),
    };
    match others.insert(0, read) {
        Ok(()) => Ok(others),
        Err(_) => Err(Status::Memory),
    }
}

/// The share file of a share after packets and actions.
fn step_text(
    alloc: Global,
    design: &Design,
    share: Share,
    packets: &[SharePacket],
    actions: &[Call],
) -> Result<Vec<u8>, ShareStepError>
    requires sorted { IsWellSorted (design_form design.now) }
    requires share { IsShare (design_form design.now) share }
    requires packets { EachHas (IsPacket (design_form design.now)) packets.now }
    requires few { length packets.now ≤ PACKETS_LIMIT }
    requires fit { AllByRecursion (FitsSignature Verb.Do design.now.sig) actions.now }
    ensures text { IfOk result (λ text. SaysShare (design_form design.now) text.items
        (steps.stepped_share (design_form design.now) share packets.now actions.now)) }
    ensures covered { OnOk result (steps.CoversEach share packets.now) }
    ensures passed { OnOk result (first_refusal (design_form design.now) (steps.with_share_packets share packets.now).node actions.now ≡ None) }
    ensures refused { IfErr result (steps.IsNotStepped (design_form design.now) share packets.now actions.now) }
{
    let after = stepped_share(alloc, design, share, packets, actions)?;
    let text = share_text(alloc, design, &after)?;
    Ok(text)
}

/// How a call ends if a step isn't done.
fn refused_step(error: ShareStepError) -> Status
    ensures { EndsStep error result }
{
    match error {
        ShareStepError::Gap { packet } => Status::Gap { packet },
        ShareStepError::TooLarge { line } => refused_at(2, 15, At::Line(line)),
        ShareStepError::FullState { line } => refused_at(2, 29, At::Line(line)),
        ShareStepError::Memory => Status::Memory,
    }
}

/// Writes a text, and says how that ended.
fn print<K: Sink>(alloc: Global, text: &[u8], out: &mut K) -> Status
    ensures { Ends (K.written out.new ≡ grown (K.written out.old) text.now) NoGap (K.written out.old) (K.written out.new) result }
{
    match out.write(alloc, text) {
        Ok(()) => Status::Done,
        Err(WriteError::Failed) => Status::WriteFault,
        Err(WriteError::Memory) => Status::Memory,
    }
}
