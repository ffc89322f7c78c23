//! The files of a step, after their design.
ghost use Rattle.std.specs.Prelude.{◌≡◌, ◌≤◌, ◌+◌, ◌∷◌, IfErr, IfOk, length};
ghost use Rattle.kat_design.specs.Designs.{design_form};
ghost use Rattle.kat_design.specs.Sorted.{AreMatched, IsWellSorted};
ghost use Rattle.kat_node.specs.NodeFiles.{IsNodeText};
ghost use Rattle.kat_script.specs.Rules.{HasFewCalls};
ghost use Rattle.kat_node_texts.specs.Files.{AreStepFiles, TellsPacket, TellsRefused, contents};

use kat_actions::{Call, read_actions};
use kat_design::Design;
use kat_node::{Node, NodeError, read_node};
use kat_num::Items;
use kat_script::ScriptError;
use std::alloc::{AllocError, AllocFailed, Global};

/// How many packets a step takes at most.
pub const PACKETS_LIMIT: usize = 30;

/// What the files of a step say: the node, what it is to do, and the states of others.
#[derive(Drop)]
pub struct StepFiles {
    pub node: Node,
    pub actions: Items<Call>,
    pub packets: Items<Node>,
}

/// Why a file after a design is refused.
#[derive(Debug, Drop)]
pub enum FileError {
    State(NodeError),
    Calls(ScriptError),
}

/// The first file that is refused, counted from 0 after the design, and why; or out of memory, which says nothing.
#[derive(Debug, Drop)]
pub struct FileRefused {
    pub file: u32,
    pub error: FileError,
}

/// Judges the files of a step in their order: the state file, the actions, and the packets.
pub fn read_step(
    alloc: Global,
    design: &Design,
    state: &[u8],
    actions: &[u8],
    packets: &[Vec<u8>],
) -> Result<StepFiles, FileRefused>
    requires sorted { IsWellSorted (design_form design.now) }
    requires few { HasFewCalls design.now.sig }
    requires few_packets { length packets.now ≤ PACKETS_LIMIT }
    ensures files { IfOk result (AreStepFiles (design_form design.now) state.now actions.now (contents packets.now)) }
    ensures refused { IfErr result (TellsRefused (design_form design.now) (state.now ∷ actions.now ∷ contents packets.now)) }
{
    let node = match read_node(alloc, state, design) {
        Ok(node) => node,
        Err(error) => return Err(refused_state(0, error)),
    };
    let actions = match read_actions(alloc, actions, &design.sig) {
        Ok(actions) => actions,
        Err(error) => {
            return Err(FileRefused {
                file: 1,
                error: FileError::Calls(error),
            });
        }
    };
    let packets = read_packets(alloc, design, 2, packets)?;
    Ok(StepFiles {
        node,
        actions: Items::from_vec(actions),
        packets: Items::from_vec(packets),
    })
}

/// The states of the packets, of which the first is the file of this number.
fn read_packets(
    alloc: Global,
    design: &Design,
    first: u32,
    packets: &[Vec<u8>],
) -> Result<Vec<Node>, FileRefused>
    requires sorted { IsWellSorted (design_form design.now) }
    requires few { first + length packets.now ≤ 32 }
    ensures files { IfOk result (λ nodes. AreMatched (IsNodeText (design_form design.now)) (contents packets.now) nodes.items) }
    ensures refused { IfErr result (TellsPacket (design_form design.now) first (contents packets.now)) }
{
    let Some((packet, rest)) = packets.split_first() else {
        return Ok(Vec::new(alloc));
    };
    let node = match read_node(alloc, packet, design) {
        Ok(node) => node,
        Err(error) => return Err(refused_state(first, error)),
    };
    let mut nodes = read_packets(alloc, design, first + 1, rest)?;
    match nodes.insert(0, node) {
        Ok(()) => Ok(nodes),
        Err(_) => Err(no_memory()),
    }
}

/// A state file that is refused.
fn refused_state(file: u32, error: NodeError) -> FileRefused
    ensures file { result.file ≡ file }
    ensures error { result.error ≡ FileError.State error }
{
    FileRefused {
        file,
        error: FileError::State(error),
    }
}

/// Out of memory.
fn no_memory() -> FileRefused
    ensures { result.error ≡ FileError.State NodeError.Memory }
{
    FileRefused {
        file: 0,
        error: FileError::State(NodeError::Memory),
    }
}
