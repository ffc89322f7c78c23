//! Shares and packets as texts.
ghost use Rattle.std.specs.Prelude.{◌≤◌, IfErr, IfOk};
ghost use Rattle.kat_design.specs.Designs.{design_form};
ghost use Rattle.kat_design.specs.Sorted.{IsWellSorted};
ghost use Rattle.kat_share.specs.ShareTexts.{IsShareRefusal};
ghost use Rattle.kat_share_step.specs.Shares.{IsPacket, IsShare, SaysKnown, SaysPacket, SaysShare};

use crate::steps::new_share;
use kat_design::Design;
use kat_node::NodeError;
use kat_share::{Share, ShareError, SharePacket, read_share, write_packet, write_share};
use std::alloc::{AllocError, Global};

/// The share file of a share. The only error is that memory ran out.
pub fn share_text(alloc: Global, design: &Design, share: &Share) -> Result<Vec<u8>, AllocError>
    requires { IsShare (design_form design.now) share.now }
    ensures { IfOk result (λ text. SaysShare (design_form design.now) text.items share.now) }
{
    write_share(alloc, design, &share.node, &share.marks)
}

/// The text of a packet. The only error is that memory ran out.
pub fn packet_text(
    alloc: Global,
    design: &Design,
    packet: &SharePacket,
) -> Result<Vec<u8>, AllocError>
    requires { IsPacket (design_form design.now) packet.now }
    ensures { IfOk result (λ text. SaysPacket (design_form design.now) text.items packet.now) }
{
    write_packet(alloc, design, packet)
}

/// What is known: the share of a share file, or a share of this number that did nothing if there are no bytes.
pub fn known_share(
    alloc: Global,
    design: &Design,
    number: u32,
    bytes: &[u8],
) -> Result<Share, ShareError>
    requires sorted { IsWellSorted (design_form design.now) }
    requires least { 1 ≤ number }
    requires most { number ≤ 32 }
    ensures says { IfOk result (SaysKnown (design_form design.now) number bytes.now) }
    ensures kept { IfOk result (IsShare (design_form design.now)) }
    ensures refused { IfErr result (IsShareRefusal (design_form design.now) bytes.now) }
{
    if !bytes.is_empty() {
        return read_share(alloc, bytes, design);
    }
    match new_share(alloc, design, number) {
        Ok(share) => Ok(share),
        Err(_) => Err(ShareError::BadMarks(NodeError::Memory)),
    }
}
