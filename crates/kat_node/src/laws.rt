//! What holds of all state files, and of states that are joined: each law is a call that does nothing, whose clause says it.
ghost use Rattle.std.specs.Prelude.{◌≡◌, [], ℕ, All, List, map, true};
ghost use Rattle.std.specs.List.{list_all};
ghost use Rattle.kat_design.specs.Denotations.{denotation_of};
ghost use Rattle.kat_design.specs.Designs.{DesignForm};
ghost use Rattle.kat_design.specs.Meanings.{are_kin};
ghost use Rattle.kat_design.specs.Parts.{PartsKin};
ghost use Rattle.kat_design.specs.Small.{IsSmallPart, is_roomy_part};
ghost use Rattle.kat_design.specs.Sorted.{EachHas, IsWellSorted};
ghost use Rattle.kat_type.specs.Lists.{IsOnce};
ghost use Rattle.kat_type.specs.declared.done.Done.{Done};
ghost use Rattle.kat_node.specs.Judgements.{IsJudged, IsRefusal};
ghost use Rattle.kat_node.specs.NodeFiles.{IsNodeText};
ghost use Rattle.kat_node.specs.Nodes.{IsNode};
ghost use Rattle.kat_node.specs.Packets.{AreAllNested, EachGoes, all_united, parts_of, with_packets};
ghost use Rattle.kat_node.specs.StateData.{node_text};
ghost use Rattle.kat_node.specs.Written.{IsWrittenPart};
ghost use Rattle.kat_node.specs.declared.errors.NodeError.{NodeError};
ghost use Rattle.kat_node.specs.declared.nodes.Node as nodes;

use kat_design::designs_mean;
use kat_shape::tells_values_apart;

/// Of each text there is at most one node of a design, or refusal.
pub fn at_most_one_judgement()
    ensures one_node { (d : DesignForm) (bytes : List ℕ) (some other : nodes.Node) → IsNodeText d bytes some → IsNodeText d bytes other
        → some ≡ other }
    ensures one_refusal { (d : DesignForm) (bytes : List ℕ) (some other : NodeError) → IsRefusal d bytes some → IsRefusal d bytes other
        → some ≡ other }
    ensures never_both { (d : DesignForm) (bytes : List ℕ) (node : nodes.Node) (error : NodeError) → IsNodeText d bytes node
        → IsRefusal d bytes error → ⊥ }
{}

/// Of each text there is a node of a well-sorted design, or a refusal.
pub fn every_text_is_judged()
    ensures { (d : DesignForm) (bytes : List ℕ) → IsWellSorted d → IsJudged d bytes }
{}

/// The text of a node of a design is that node's, so `read_node` gives it back.
pub fn written_nodes_are_read()
    ensures { (d : DesignForm) (node : nodes.Node) → IsNode d node → IsNodeText d (node_text node) node }
{}

/// A node of a design can be written; its state is one of the design's, with small numbers, and with room in each sum.
pub fn nodes_go_with_designs()
    ensures written { (d : DesignForm) (node : nodes.Node) → IsNode d node → EachHas IsWrittenPart node.replica.state.parts }
    ensures goes { (d : DesignForm) (node : nodes.Node) → IsWellSorted d → IsNode d node
        → are_kin PartsKin node.replica.state.parts (denotation_of d []) }
    ensures small { (d : DesignForm) (node : nodes.Node) → IsWellSorted d → IsNode d node → All IsSmallPart node.replica.state.parts }
    ensures room { (d : DesignForm) (node : nodes.Node) → IsNode d node → list_all is_roomy_part node.replica.state.parts ≡ true }
{
    tells_values_apart();
}

/// Packets of one design can be taken in by a node of it, which is one of the design then too.
pub fn packets_leave_nodes()
    ensures go { (d : DesignForm) (node : nodes.Node) (packets : List nodes.Node) → IsWellSorted d → IsNode d node
        → EachHas (IsNode d) packets
        → EachGoes node packets }
    ensures kept { (d : DesignForm) (node : nodes.Node) (packets : List nodes.Node) → IsWellSorted d → IsNode d node
        → EachHas (IsNode d) packets
        → IsNode d (with_packets node packets) }
{
    tells_values_apart();
}

/// If the state of a node is what some operations give, and that of each packet what others give, and of each origin the operations of
/// one list are among those of another, for any two of the lists: the node has what all operations give after it has merged the
/// packets.
pub fn packets_unite()
    ensures { (d : DesignForm) (xs : List Done) (lists : List (List Done)) (node : nodes.Node) (packets : List nodes.Node) → IsWellSorted d
        → IsOnce xs → AreAllNested xs lists
        → parts_of node ≡ denotation_of d xs → map parts_of packets ≡ map (denotation_of d) lists
        → parts_of (with_packets node packets) ≡ denotation_of d (all_united xs lists) }
{
    designs_mean();
}
