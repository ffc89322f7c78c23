//! New shares, and shares after packets and actions.
ghost use Rattle.std.specs.Prelude.{◌≡◌, ◌≤◌, IfErr, IfOk, None, OnOk, length};
ghost use Rattle.std.specs.List.{AllByRecursion};
ghost use Rattle.kat_actions.specs.Texts.{FitsSignature};
ghost use Rattle.kat_design.specs.Designs.{design_form};
ghost use Rattle.kat_design.specs.Sorted.{EachHas, IsWellSorted};
ghost use Rattle.kat_share_step.specs.Shares.{IsPacket, IsShare, first_share};
ghost use Rattle.kat_share_step.specs.Steps.{CoversEach, IsActionRefused, IsNotStepped, stepped_share, with_share_actions, with_share_packets};
ghost use Rattle.kat_step.specs.Limits.{first_refusal};

use crate::error::ShareStepError;
use crate::marks::with_mark;
use crate::packets::with_share_packets;
use kat_actions::{Call, Verb};
use kat_design::Design;
use kat_lattice::{Lattice, Tally};
use kat_share::{Share, SharePacket};
use kat_step::{StepError, actions_are_operations, new_node, stepped};
use std::alloc::{AllocError, Global};

/// How many packets a step takes at most.
pub const PACKETS_LIMIT: usize = 30;

const _: () = prove!(PACKETS_LIMIT == 30);

/// A share of this number that did nothing. The only error is that memory ran out.
pub fn new_share(alloc: Global, design: &Design, number: u32) -> Result<Share, AllocError>
    requires sorted { IsWellSorted (design_form design.now) }
    requires least { 1 ≤ number }
    requires most { number ≤ 32 }
    ensures share { IfOk result (λ share. share ≡ first_share (design_form design.now) number) }
    ensures kept { IfOk result (IsShare (design_form design.now)) }
{
    let node = new_node(alloc, design, number)?;
    let marks = Tally::new(alloc);
    Ok(Share { node, marks })
}

/// The share after these packets and then these actions, in their order: of a packet the greater clock, the join of both states, and the
/// greater mark of each replica; each action is an operation at the share's number, at one past the clock before it, and after the
/// actions the replica's own mark is its clock.
///
/// The first packet fails that tells from later on than what is there by then; or else the first action whose time would pass 10^9, or
/// that would make a sum pass 10^18.
pub fn stepped_share(
    alloc: Global,
    design: &Design,
    share: Share,
    packets: &[SharePacket],
    actions: &[Call],
) -> Result<Share, ShareStepError>
    requires sorted { IsWellSorted (design_form design.now) }
    requires share { IsShare (design_form design.now) share }
    requires packets { EachHas (IsPacket (design_form design.now)) packets.now }
    requires few { length packets.now ≤ PACKETS_LIMIT }
    requires fit { AllByRecursion (FitsSignature Verb.Do design.now.sig) actions.now }
    ensures steps { IfOk result (λ after. after ≡ stepped_share (design_form design.now) share packets.now actions.now) }
    ensures covered { OnOk result (CoversEach share packets.now) }
    ensures passed { OnOk result (first_refusal (design_form design.now) (with_share_packets share packets.now).node actions.now ≡ None) }
    ensures kept { IfOk result (IsShare (design_form design.now)) }
    ensures refused { IfErr result (IsNotStepped (design_form design.now) share packets.now actions.now) }
{
    let merged = match with_share_packets(alloc, design, share, packets, 0) {
        Ok(merged) => merged,
        Err(error) => return Err(error),
    };
    with_share_actions(alloc, design, merged, actions)
}

/// The share after these actions.
fn with_share_actions(
    alloc: Global,
    design: &Design,
    share: Share,
    actions: &[Call],
) -> Result<Share, ShareStepError>
    requires sorted { IsWellSorted (design_form design.now) }
    requires share { IsShare (design_form design.now) share }
    requires fit { AllByRecursion (FitsSignature Verb.Do design.now.sig) actions.now }
    ensures steps { IfOk result (λ after. after ≡ with_share_actions (design_form design.now) share actions.now) }
    ensures passed { OnOk result (first_refusal (design_form design.now) share.node actions.now ≡ None) }
    ensures kept { IfOk result (IsShare (design_form design.now)) }
    ensures refused { IfErr result (IsActionRefused (design_form design.now) share actions.now) }
{
    let node = match stepped(alloc, design, &share.node, actions) {
        Ok(node) => node,
        Err(StepError::TooLarge { line }) => return Err(ShareStepError::TooLarge { line }),
        Err(StepError::FullState { line }) => return Err(ShareStepError::FullState { line }),
        Err(StepError::Memory) => return Err(ShareStepError::Memory),
    };
    actions_are_operations();
    let marks = match actions {
        [] => share.marks.copy(alloc)?,
        [_, ..] => with_mark(alloc, &share.marks, node.number, node.replica.clock)?,
    };
    Ok(Share { node, marks })
}
