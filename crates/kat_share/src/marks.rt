//! Marks as texts: state files of a fixed design, which keeps one tally.
ghost use Rattle.std.specs.Prelude.{◌≡◌, ◌∷◌, [], IfErr, IfOk};
ghost use Rattle.kat_design.specs.Designs.{design_form};
ghost use Rattle.kat_design.specs.Sorted.{AreMatched};
ghost use Rattle.kat_design.specs.declared.states.Part.TheVariants as Parts;
ghost use Rattle.kat_node.specs.NodeFiles.{IsNodeRefusal};
ghost use Rattle.kat_node.specs.Nodes.{IsNode, IsPart};
ghost use Rattle.kat_node.specs.StateData.{node_text};
ghost use Rattle.kat_share.specs.MarksTexts.{IsMarksText, marks_design, marks_node};

use kat_design::{Component, Design, Part, State};
use kat_lattice::{Lattice, Tally};
use kat_node::{Node, NodeError, nodes_go_with_designs, read_node, write_node};
use kat_num::Items;
use kat_replica::Replica;
use kat_type::Signature;
use std::alloc::{AllocError, Global};

/// The text of a replica's marks, with its number, from 1 to 32, and its clock, to 10^9: what it tells others of what it has. The only
/// error is that memory ran out.
pub fn write_marks(
    alloc: Global,
    number: u32,
    clock: u64,
    marks: &Tally,
) -> Result<Vec<u8>, AllocError>
    requires { IsNode marks_design (marks_node number clock marks.now) }
    ensures text { IfOk result (λ text. text.items ≡ node_text (marks_node number clock marks.now)) }
    ensures read { IfOk result (λ text. IsMarksText text.items marks.now) }
{
    nodes_go_with_designs();
    let node = marks_node(alloc, number, clock, marks)?;
    let text = write_node(alloc, &node)?;
    Ok(text)
}

/// The marks that a text says. It is refused as the state file of the design of marks.
pub fn read_marks(alloc: Global, bytes: &[u8]) -> Result<Tally, NodeError>
    ensures read { IfOk result (IsMarksText bytes.now) }
    ensures refused { IfErr result (IsNodeRefusal marks_design bytes.now) }
{
    let design = marks_design(alloc)?;
    match read_node(alloc, bytes, &design) {
        Ok(node) => {
            let marks = only_tally(alloc, node.replica.state.parts.as_slice())?;
            Ok(marks)
        }
        Err(error) => Err(error),
    }
}

/// The number and the clock of a replica with its marks, as a node.
fn marks_node(alloc: Global, number: u32, clock: u64, marks: &Tally) -> Result<Node, AllocError>
    ensures { IfOk result (λ node. node ≡ marks_node number clock marks.now) }
{
    let copy = marks.copy(alloc)?;
    let mut parts = Vec::new(alloc);
    parts.push(Part::Tally(copy))?;
    Ok(Node {
        number,
        replica: Replica {
            clock,
            state: State {
                parts: Items::from_vec(parts),
            },
        },
    })
}

/// The design of marks.
fn marks_design(alloc: Global) -> Result<Design, AllocError>
    ensures { IfOk result (λ design. design_form design ≡ marks_design) }
{
    let effects = Items::from_vec(Vec::new(alloc));
    let mut components = Vec::new(alloc);
    components.push(Component::Tally { effects })?;
    let ops = Items::from_vec(Vec::new(alloc));
    let queries = Items::from_vec(Vec::new(alloc));
    let asks = Items::from_vec(Vec::new(alloc));
    Ok(Design {
        sig: Signature { ops, queries },
        components: Items::from_vec(components),
        asks,
    })
}

/// The tally of a state that keeps one tally.
fn only_tally(alloc: Global, parts: &[Part]) -> Result<Tally, AllocError>
    requires { AreMatched IsPart marks_design.components parts.now }
    ensures { IfOk result (λ tally. parts.now ≡ Parts.Tally tally ∷ []) }
{
    match parts.first() {
        Some(Part::Tally(marks)) => marks.copy(alloc),
        _ => Ok(Tally::new(alloc)),
    }
}
