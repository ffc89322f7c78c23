//! Share files: a node with its marks, as a text.
ghost use Rattle.std.specs.Prelude.{◌≡◌, ◌++◌, ◌<◌, ◌==◌, IfErr, IfOk, IfSome, length, position};
ghost use Rattle.kat_design.specs.Designs.{DesignForm, design_form};
ghost use Rattle.kat_design.specs.Sorted.{IsWellSorted};
ghost use Rattle.kat_node.specs.Nodes.{IsNode};
ghost use Rattle.kat_node.specs.StateData.{node_text};
ghost use Rattle.kat_share.specs.MarksTexts.{marks_design, marks_node};
ghost use Rattle.kat_share.specs.ShareTexts.{IsShareRefusal, IsShareText, after_line, first_line};

use crate::marks::{read_marks, write_marks};
use kat_design::Design;
use kat_lattice::Tally;
use kat_node::{Node, NodeError, nodes_go_with_designs, read_node, write_node};
use std::alloc::{AllocError, Global};

/// A node with its marks: what somebody has.
#[derive(Drop)]
pub struct Share {
    pub node: Node,
    pub marks: Tally,
}

/// Why a share file is refused: by its first line, or else by what follows it, each as a state file is.
#[derive(Drop)]
pub enum ShareError {
    /// The first line says no marks.
    BadMarks(NodeError),
    /// What follows is no state file of the design.
    BadState(NodeError),
}

/// The text of a share file: a line with the marks, and the state file. The only error is that memory ran out.
pub fn write_share(
    alloc: Global,
    design: &Design,
    node: &Node,
    marks: &Tally,
) -> Result<Vec<u8>, AllocError>
    requires node { IsNode (design_form design.now) node.now }
    requires marks { IsNode marks_design (marks_node node.now.number node.now.replica.clock marks.now) }
    ensures text { IfOk result (λ text. text.items
        ≡ node_text (marks_node node.now.number node.now.replica.clock marks.now) ++ node_text node.now) }
    ensures read { IfOk result (λ text. IsShareText (design_form design.now) text.items node.now marks.now) }
{
    nodes_go_with_designs();
    let _design = &design.sig;
    let marks = write_marks(alloc, node.number, node.replica.clock, marks)?;
    let state = write_node(alloc, node)?;
    let text = followed_by(marks, state.as_slice())?;
    Ok(text)
}

/// A text with another one after it.
pub(crate) fn followed_by(text: Vec<u8>, more: &[u8]) -> Result<Vec<u8>, AllocError>
    ensures { IfOk result (λ both. both.items ≡ text.items ++ more.now) }
{
    let mut both = text;
    both.extend_from_slice(more)?;
    Ok(both)
}

/// The share of a share file.
pub fn read_share(alloc: Global, bytes: &[u8], design: &Design) -> Result<Share, ShareError>
    requires { IsWellSorted (design_form design.now) }
    ensures read { IfOk result (λ share. IsShareText (design_form design.now) bytes.now share.node share.marks) }
    ensures refused { IfErr result (IsShareRefusal (design_form design.now) bytes.now) }
{
    match read_marks(alloc, first_line(bytes)) {
        Ok(marks) => match read_node(alloc, after_line(bytes), design) {
            Ok(node) => Ok(Share { node, marks }),
            Err(error) => Err(ShareError::BadState(error)),
        },
        Err(error) => Err(ShareError::BadMarks(error)),
    }
}

/// The bytes up to the first newline, with it.
pub(crate) fn first_line(bytes: &[u8]) -> &[u8]
    ensures { result.now ≡ first_line bytes.now }
{
    match newline(bytes) {
        Some(place) => &bytes[..place + 1],
        None => bytes,
    }
}

/// The bytes after the first newline.
pub(crate) fn after_line(bytes: &[u8]) -> &[u8]
    ensures { result.now ≡ after_line bytes.now }
{
    match newline(bytes) {
        Some(place) => &bytes[place + 1..],
        None => &bytes[bytes.len()..],
    }
}

/// The place of the first newline.
fn newline(bytes: &[u8]) -> Option<usize>
    ensures place { result ≡ position (λ byte. byte == 10) bytes.now }
    ensures within { IfSome result (λ place. place < length bytes.now) }
{
    bytes.iter().position(|byte| *byte == b'\n')
}
