//! Packets: what a share has beyond a known one, as a text.
ghost use Rattle.std.specs.Prelude.{IfErr, IfOk};
ghost use Rattle.kat_design.specs.Designs.{design_form};
ghost use Rattle.kat_design.specs.Sorted.{IsWellSorted};
ghost use Rattle.kat_node.specs.Nodes.{IsNode};
ghost use Rattle.kat_share.specs.MarksTexts.{marks_design, marks_node};
ghost use Rattle.kat_share.specs.ShareTexts.{IsPacketRefusal, IsPacketText};

use crate::marks::{read_marks, write_marks};
use crate::shares::{
    Share, ShareError, after_line, first_line, followed_by, read_share, write_share,
};
use kat_design::Design;
use kat_lattice::Tally;
use kat_node::{NodeError, nodes_go_with_designs};
use std::alloc::{AllocError, Global};

/// What a share has beyond a known one: the marks of the known one, the difference of the nodes, and the marks of the share.
#[derive(Drop)]
pub struct SharePacket {
    pub base: Tally,
    pub told: Share,
}

/// Why a packet is refused: by its first line, or else by what follows it, as a share file is.
#[derive(Drop)]
pub enum PacketError {
    /// The first line says no marks.
    BadBase(NodeError),
    /// What follows is no share file of the design.
    BadShare(ShareError),
}

/// The text of a packet: a line with the marks of what is known, and then a share file. The only error is that memory ran out.
pub fn write_packet(
    alloc: Global,
    design: &Design,
    packet: &SharePacket,
) -> Result<Vec<u8>, AllocError>
    requires node { IsNode (design_form design.now) packet.now.told.node }
    requires base { IsNode marks_design
        (marks_node packet.now.told.node.number packet.now.told.node.replica.clock packet.now.base) }
    requires marks { IsNode marks_design
        (marks_node packet.now.told.node.number packet.now.told.node.replica.clock packet.now.told.marks) }
    ensures { IfOk result (λ text.
        IsPacketText (design_form design.now) text.items packet.now.base packet.now.told.node packet.now.told.marks) }
{
    nodes_go_with_designs();
    let node = &packet.told.node;
    let base = write_marks(alloc, node.number, node.replica.clock, &packet.base)?;
    let told = write_share(alloc, design, node, &packet.told.marks)?;
    let text = followed_by(base, told.as_slice())?;
    Ok(text)
}

/// The packet of a text.
pub fn read_packet(alloc: Global, bytes: &[u8], design: &Design) -> Result<SharePacket, PacketError>
    requires { IsWellSorted (design_form design.now) }
    ensures read { IfOk result (λ packet.
        IsPacketText (design_form design.now) bytes.now packet.base packet.told.node packet.told.marks) }
    ensures refused { IfErr result (IsPacketRefusal (design_form design.now) bytes.now) }
{
    match read_marks(alloc, first_line(bytes)) {
        Ok(base) => match read_share(alloc, after_line(bytes), design) {
            Ok(told) => Ok(SharePacket { base, told }),
            Err(error) => Err(PacketError::BadShare(error)),
        },
        Err(error) => Err(PacketError::BadBase(error)),
    }
}
