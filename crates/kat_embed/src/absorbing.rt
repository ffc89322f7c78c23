//! Whether a packet adds anything to a node.
ghost use Rattle.std.specs.Prelude.{◌≡◌, ◌↔◌, IsTrue};
ghost use Rattle.kat_design.specs.Meanings.{are_kin};
ghost use Rattle.kat_design.specs.Parts.{PartsKin, part_joined, parts_joined};
ghost use Rattle.kat_node.specs.Packets.{parts_of};
ghost use Rattle.kat_embed.specs.Absorbing.{IsAbsorbed};

use kat_design::Part;
use kat_lattice::Lattice;
use kat_node::Node;

/// Whether a packet adds nothing to a node: its clock is no later, and its state is at or below the node's.
pub(crate) fn is_absorbed(node: &Node, packet: &Node) -> bool
    requires { are_kin PartsKin (parts_of packet.now) (parts_of node.now) }
    ensures { IsTrue result ↔ IsAbsorbed node.now packet.now }
{
    if packet.replica.clock > node.replica.clock {
        return false;
    }
    are_at_most(
        packet.replica.state.parts.as_slice(),
        node.replica.state.parts.as_slice(),
    )
}

/// Whether each part is at or below the other one.
fn are_at_most(parts: &[Part], others: &[Part]) -> bool
    requires { are_kin PartsKin parts.now others.now }
    ensures { IsTrue result ↔ (parts_joined parts.now others.now ≡ others.now) }
{
    let Some((part, rest)) = parts.split_first() else {
        return true;
    };
    let Some((other, more)) = others.split_first() else {
        return true;
    };
    if !is_at_most(part, other) {
        return false;
    }
    are_at_most(rest, more)
}

/// Whether a part is at or below another one.
fn is_at_most(part: &Part, other: &Part) -> bool
    requires { PartsKin part.now other.now }
    ensures { IsTrue result ↔ (part_joined part.now other.now ≡ other.now) }
{
    match (part, other) {
        (Part::Cell(part), Part::Cell(other)) => part.leq(other),
        (Part::Table(part), Part::Table(other)) => part.leq(other),
        (Part::Set(part), Part::Set(other)) => part.leq(other),
        (Part::Tally(part), Part::Tally(other)) => part.leq(other),
        (Part::Tallies(part), Part::Tallies(other)) => part.leq(other),
        _ => false,
    }
}
