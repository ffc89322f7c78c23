//! The difference of two nodes.
ghost use Rattle.std.specs.Prelude.{IfOk};
ghost use Rattle.kat_design.specs.Designs.{design_form};
ghost use Rattle.kat_design.specs.Sorted.{IsWellSorted};
ghost use Rattle.kat_node.specs.Nodes.{IsNode};
ghost use Rattle.kat_share.specs.NodeDifferences.{IsNodeDifference};

use crate::laws::differences_are_nodes;
use kat_design::{Design, states_go_together};
use kat_difference::state_difference;
use kat_node::{Node, nodes_go_with_designs};
use kat_replica::Replica;
use std::alloc::{AllocError, Global};

/// What a node has that a known node lacks, with the node's number and clock. Both are of the design, and so is the difference. The
/// only error is that memory ran out.
pub fn node_difference(
    alloc: Global,
    design: &Design,
    known: &Node,
    whole: &Node,
) -> Result<Node, AllocError>
    requires sorted { IsWellSorted (design_form design.now) }
    requires known { IsNode (design_form design.now) known.now }
    requires whole { IsNode (design_form design.now) whole.now }
    ensures made { IfOk result (IsNodeDifference (design_form design.now) known.now whole.now) }
    ensures node { IfOk result (IsNode (design_form design.now)) }
{
    nodes_go_with_designs();
    states_go_together();
    differences_are_nodes();
    let state = state_difference(alloc, design, &known.replica.state, &whole.replica.state)?;
    Ok(Node {
        number: whole.number,
        replica: Replica {
            clock: whole.replica.clock,
            state,
        },
    })
}
