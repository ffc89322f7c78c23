//! What a share has beyond a known one, and shares with the packets of others.
ghost use Rattle.std.specs.Prelude.{◌≡◌, ◌≤◌, ◌+◌, IfErr, IfOk, OnOk, length};
ghost use Rattle.kat_design.specs.Designs.{design_form};
ghost use Rattle.kat_design.specs.Sorted.{EachHas, IsWellSorted};
ghost use Rattle.kat_node.specs.Nodes.{IsNode};
ghost use Rattle.kat_node.specs.Packets.{with_packet};
ghost use Rattle.kat_share_step.specs.Shares.{IsBeyond, IsPacket, IsShare};
ghost use Rattle.kat_share_step.specs.Steps.{CoversEach, IsGapOf, with_share_packet, with_share_packets};

use crate::error::ShareStepError;
use crate::marks::greater_marks;
use kat_design::{Design, states_go_together};
use kat_lattice::Lattice;
use kat_node::{Node, nodes_go_with_designs, packets_leave_nodes};
use kat_share::{Share, SharePacket, node_difference};
use std::alloc::{AllocError, Global};

/// What a share has beyond a known one: the marks of the known one as the base, the difference of the nodes, and the marks of the share.
/// The only error is that memory ran out.
pub fn packet_beyond(
    alloc: Global,
    design: &Design,
    known: &Share,
    whole: &Share,
) -> Result<SharePacket, AllocError>
    requires sorted { IsWellSorted (design_form design.now) }
    requires known { IsShare (design_form design.now) known.now }
    requires whole { IsShare (design_form design.now) whole.now }
    ensures made { IfOk result (IsBeyond (design_form design.now) known.now whole.now) }
    ensures packet { IfOk result (IsPacket (design_form design.now)) }
{
    nodes_go_with_designs();
    states_go_together();
    let node = node_difference(alloc, design, &known.node, &whole.node)?;
    let base = known.marks.copy(alloc)?;
    let marks = whole.marks.copy(alloc)?;
    Ok(SharePacket {
        base,
        told: Share { node, marks },
    })
}

/// The share with the packets merged, in their order, or the first one that tells from later on than what is there; packets are counted
/// from `first` on.
pub(crate) fn with_share_packets(
    alloc: Global,
    design: &Design,
    share: Share,
    packets: &[SharePacket],
    first: u32,
) -> Result<Share, ShareStepError>
    requires sorted { IsWellSorted (design_form design.now) }
    requires share { IsShare (design_form design.now) share }
    requires packets { EachHas (IsPacket (design_form design.now)) packets.now }
    requires few { first + length packets.now ≤ 30 }
    ensures merged { IfOk result (λ after. after ≡ with_share_packets share packets.now) }
    ensures covered { OnOk result (CoversEach share packets.now) }
    ensures kept { IfOk result (IsShare (design_form design.now)) }
    ensures refused { IfErr result (IsGapOf first share packets.now) }
{
    let Some((packet, rest)) = packets.split_first() else {
        return Ok(share);
    };
    packet.base.goes_with(&share.marks);
    if !packet.base.leq(&share.marks) {
        return Err(ShareStepError::Gap { packet: first });
    }
    let next = with_share_packet(alloc, design, share, packet)?;
    with_share_packets(alloc, design, next, rest, first + 1)
}

/// The share with a packet merged.
fn with_share_packet(
    alloc: Global,
    design: &Design,
    share: Share,
    packet: &SharePacket,
) -> Result<Share, AllocError>
    requires sorted { IsWellSorted (design_form design.now) }
    requires share { IsShare (design_form design.now) share }
    requires packet { IsPacket (design_form design.now) packet.now }
    ensures merged { IfOk result (λ after. after ≡ with_share_packet share packet.now) }
    ensures kept { IfOk result (IsShare (design_form design.now)) }
{
    let Share { node, marks } = share;
    let greater = greater_marks(alloc, &marks, &packet.told.marks)?;
    let node = with_node(alloc, design, node, &packet.told.node)?;
    Ok(Share {
        node,
        marks: greater,
    })
}

/// The node with another one's state merged.
fn with_node(alloc: Global, design: &Design, node: Node, packet: &Node) -> Result<Node, AllocError>
    requires sorted { IsWellSorted (design_form design.now) }
    requires node { IsNode (design_form design.now) node }
    requires packet { IsNode (design_form design.now) packet.now }
    ensures merged { IfOk result (λ after. after ≡ with_packet node packet.now) }
    ensures kept { IfOk result (IsNode (design_form design.now)) }
{
    packets_leave_nodes();
    let _design = &design.sig;
    let mut after = node;
    after
        .replica
        .take_in(alloc, packet.replica.clock, &packet.replica.state)?;
    Ok(after)
}
