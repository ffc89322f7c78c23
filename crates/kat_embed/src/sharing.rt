//! What nodes with marks ship, and what they merge.
ghost use Rattle.std.specs.Prelude.{◌≡◌, ◌≤◌, ◌+◌, ◌^◌, ◌∷◌, ◌↔◌, [], false, IfErr, IfOk, OnErr, OnOk};
ghost use Rattle.kat_design.specs.Designs.{design_form};
ghost use Rattle.kat_design.specs.Sorted.{IsWellSorted};
ghost use Rattle.kat_lattice.specs.Tallies.{tallies_joined};
ghost use Rattle.kat_node.specs.Nodes.{AreSums, IsNode};
ghost use Rattle.kat_embed.specs.Contents.{AreMarkSums, raised};
ghost use Rattle.kat_embed.specs.Sharing.{CatchesNotUp, CatchesUp, HasNoMarks, IsKnown, IsNotKnown, TellsDifference, TellsMarks, TellsNoDifference, TellsShare};

use crate::errors::SharingError;
use crate::steps::take_in;
use kat_design::{Design, states_go_together};
use kat_lattice::{Lattice, Tally};
use kat_node::{Node, nodes_go_with_designs, packets_leave_nodes};
use kat_share::{
    Share, SharePacket, node_difference, read_packet, read_share, write_marks, write_packet,
    write_share,
};
use kat_step::new_node;
use std::alloc::{AllocError, Global};

/// The marks with one past a clock as a replica's, if they are known.
pub(crate) fn raised(
    alloc: Global,
    marks: &Option<Tally>,
    number: u32,
    clock: u64,
) -> Result<Option<Tally>, AllocError>
    requires least { 1 ≤ number }
    requires most { number ≤ 32 }
    requires early { clock ≤ 10 ^ 9 }
    requires marks { AreMarkSums marks.now }
    ensures raised { IfOk result (λ next. next ≡ raised marks.now number (clock + 1)) }
    ensures sums { IfOk result AreMarkSums }
{
    match marks {
        None => Ok(None),
        Some(known) => {
            let next = with_mark(alloc, known, number, clock)?;
            Ok(Some(next))
        }
    }
}

/// Marks with one past a clock as a replica's.
fn with_mark(alloc: Global, marks: &Tally, number: u32, clock: u64) -> Result<Tally, AllocError>
    requires least { 1 ≤ number }
    requires most { number ≤ 32 }
    requires early { clock ≤ 10 ^ 9 }
    requires sums { AreSums marks.now }
    ensures joined { IfOk result (λ next. next ≡ tallies_joined marks.now ((number, clock + 1) ∷ [])) }
    ensures sums { IfOk result AreSums }
{
    let mut entries = Vec::new(alloc);
    entries.push((number, u128::from(clock) + 1))?;
    let mark = Tally::from_sums(entries);
    let next = greater_marks(alloc, marks, &mark)?;
    Ok(next)
}

/// The greater mark of each replica.
fn greater_marks(alloc: Global, marks: &Tally, others: &Tally) -> Result<Tally, AllocError>
    requires mine { AreSums marks.now }
    requires theirs { AreSums others.now }
    ensures joined { IfOk result (λ both. both ≡ tallies_joined marks.now others.now) }
    ensures sums { IfOk result AreSums }
{
    packets_leave_nodes();
    let mut both = marks.copy(alloc)?;
    both.goes_with(others);
    both.join(alloc, others)?;
    Ok(both)
}

/// The text of a replica's marks, with its number and clock.
pub(crate) fn marks_text(
    alloc: Global,
    node: &Node,
    marks: &Option<Tally>,
) -> Result<Vec<u8>, SharingError>
    requires least { 1 ≤ node.now.number }
    requires most { node.now.number ≤ 32 }
    requires early { node.now.replica.clock ≤ 10 ^ 9 }
    requires marks { AreMarkSums marks.now }
    ensures tells { IfOk result (λ text. TellsMarks marks.now text.items) }
    ensures refused { IfErr result (HasNoMarks marks.now) }
{
    match marks {
        None => Err(SharingError::NoMarks),
        Some(known) => {
            let text = write_marks(alloc, node.number, node.replica.clock, known)?;
            Ok(text)
        }
    }
}

/// The share file of a node of a design with its marks.
pub(crate) fn share_text(
    alloc: Global,
    design: &Design,
    node: &Node,
    marks: &Option<Tally>,
) -> Result<Vec<u8>, SharingError>
    requires node { IsNode (design_form design.now) node.now }
    requires marks { AreMarkSums marks.now }
    ensures tells { IfOk result (λ text. TellsShare (design_form design.now) node.now marks.now text.items) }
    ensures refused { IfErr result (HasNoMarks marks.now) }
{
    match marks {
        None => Err(SharingError::NoMarks),
        Some(known) => {
            let text = write_share(alloc, design, node, known)?;
            Ok(text)
        }
    }
}

/// The packet of what a node of a design has beyond what is known: beyond a share file, or beyond nothing if there are no bytes.
pub(crate) fn difference_text(
    alloc: Global,
    design: &Design,
    node: &Node,
    marks: &Option<Tally>,
    known: &[u8],
) -> Result<Vec<u8>, SharingError>
    requires sorted { IsWellSorted (design_form design.now) }
    requires node { IsNode (design_form design.now) node.now }
    requires marks { AreMarkSums marks.now }
    ensures tells { IfOk result (λ text. TellsDifference (design_form design.now) node.now marks.now known.now text.items) }
    ensures refused { IfErr result (TellsNoDifference (design_form design.now) marks.now known.now) }
{
    let Some(whole) = marks else {
        return Err(SharingError::NoMarks);
    };
    nodes_go_with_designs();
    states_go_together();
    let before = known_share(alloc, design, node.number, known)?;
    let told = node_difference(alloc, design, &before.node, node)?;
    let marks = whole.copy(alloc)?;
    let packet = SharePacket {
        base: before.marks,
        told: Share { node: told, marks },
    };
    let text = write_packet(alloc, design, &packet)?;
    Ok(text)
}

/// What is known: what a share file has, or a replica that did nothing if there are no bytes.
fn known_share(
    alloc: Global,
    design: &Design,
    number: u32,
    bytes: &[u8],
) -> Result<Share, SharingError>
    requires sorted { IsWellSorted (design_form design.now) }
    requires least { 1 ≤ number }
    requires most { number ≤ 32 }
    ensures known { IfOk result (λ share. IsKnown (design_form design.now) number bytes.now share.node share.marks) }
    ensures node { IfOk result (λ share. IsNode (design_form design.now) share.node) }
    ensures marks { IfOk result (λ share. AreSums share.marks) }
    ensures refused { IfErr result (IsNotKnown (design_form design.now) bytes.now) }
{
    if bytes.is_empty() {
        let node = new_node(alloc, design, number)?;
        let marks = Tally::new(alloc);
        return Ok(Share { node, marks });
    }
    match read_share(alloc, bytes, design) {
        Ok(share) => Ok(share),
        Err(error) => Err(SharingError::BadShare(error)),
    }
}

/// Whether merging a packet changed anything, and the marks then.
#[derive(Drop)]
pub(crate) struct CaughtUp {
    pub changed: bool,
    pub marks: Tally,
}

/// Merges a packet if all operations are there from which on it tells. After an error the node is as it was.
pub(crate) fn catch_up(
    alloc: Global,
    design: &Design,
    node: &mut Node,
    marks: &Option<Tally>,
    bytes: &[u8],
) -> Result<CaughtUp, SharingError>
    requires sorted { IsWellSorted (design_form design.now) }
    requires node { IsNode (design_form design.now) node.old }
    requires marks { AreMarkSums marks.now }
    ensures merged { IfOk result (λ caught. CatchesUp (design_form design.now) bytes.now node.old marks.now node.new caught.marks) }
    ensures kept { OnOk result (IsNode (design_form design.now) node.new) }
    ensures sums { IfOk result (λ caught. AreSums caught.marks) }
    ensures told { IfOk result (λ caught. (caught.changed ≡ false) ↔ (node.new ≡ node.old)) }
    ensures refused { IfErr result (CatchesNotUp (design_form design.now) bytes.now marks.now) }
    ensures err { OnErr result (node.new ≡ node.old) }
{
    let Some(known) = marks else {
        return Err(SharingError::NoMarks);
    };
    let packet = match read_packet(alloc, bytes, design) {
        Ok(packet) => packet,
        Err(error) => return Err(SharingError::BadPacket(error)),
    };
    packet.base.goes_with(known);
    if !packet.base.leq(known) {
        return Err(SharingError::Gap);
    }
    let marks = greater_marks(alloc, known, &packet.told.marks)?;
    let changed = take_in(alloc, design, node, &packet.told.node)?;
    Ok(CaughtUp { changed, marks })
}
