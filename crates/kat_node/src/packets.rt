//! Taking in the state files of others.
ghost use Rattle.std.specs.Prelude.{◌≡◌, IfOk};
ghost use Rattle.kat_design.specs.Meanings.{are_kin};
ghost use Rattle.kat_design.specs.Parts.{PartsKin};
ghost use Rattle.kat_node.specs.Packets.{EachGoes, with_packet, with_packets};

use crate::nodes::Node;
use std::alloc::{AllocError, Global};

/// The node with the packets merged, in their order: the greatest clock, and the join of all states. Each goes with what
/// those before it leave, as nodes of one design do.
pub fn united(alloc: Global, node: Node, packets: &[Node]) -> Result<Node, AllocError>
    requires { EachGoes node packets.now }
    ensures { IfOk result (λ united. united ≡ with_packets node packets.now) }
{
    let Some((packet, rest)) = packets.split_first() else {
        return Ok(node);
    };
    let node = with_packet(alloc, node, packet)?;
    united(alloc, node, rest)
}

/// The node with a packet taken in.
fn with_packet(alloc: Global, node: Node, packet: &Node) -> Result<Node, AllocError>
    requires { are_kin PartsKin node.replica.state.parts packet.now.replica.state.parts }
    ensures { IfOk result (λ united. united ≡ with_packet node packet.now) }
{
    let mut node = node;
    node.replica
        .take_in(alloc, packet.replica.clock, &packet.replica.state)?;
    Ok(node)
}
