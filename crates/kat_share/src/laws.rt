//! What differences of nodes are, what they do, and that their texts say one thing: each law is a call that does nothing, whose clause says it.
ghost use Rattle.kat_share.specs.NodeDifferences.{DifferencesAreNodes, DifferencesMergeAsWholes};
ghost use Rattle.kat_share.specs.ShareTexts.{PacketsAreOne, SharesAreOne};

use kat_design::states_go_together;
use kat_node::{at_most_one_judgement, nodes_go_with_designs};

/// The difference of two nodes of a design is one of the design: so it can be written, and is read back.
pub fn differences_are_nodes()
    ensures { DifferencesAreNodes }
{}

/// A node to whose state the known one adds nothing may merge the difference in place of the whole node: both leave the same.
pub fn differences_merge_as_wholes()
    ensures { DifferencesMergeAsWholes }
{
    nodes_go_with_designs();
    states_go_together();
}

/// A text is at most one share file, and at most one packet.
pub fn texts_say_one()
    ensures shares { SharesAreOne }
    ensures packets { PacketsAreOne }
{
    at_most_one_judgement();
}
