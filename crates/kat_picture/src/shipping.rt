//! Where packets were shipped, and whether they are delivered.
ghost use Rattle.std.specs.Prelude.{◌≡◌, OnOk};
ghost use Rattle.kat_picture.specs.Packets.{fate, is_delivered, shipping_of, ships_behind, ships_but};

use kat_script::Line;
use std::alloc::AllocError;

/// Where a packet was shipped: the number of its word, the row of the picture, from 0, and the replica.
#[derive(Clone, Copy)]
pub struct Shipping {
    pub packet: u32,
    pub row: u64,
    pub replica: u32,
}

/// Where the packet was shipped last, of what was shipped, the latest first; row 0 and replica 0 if it wasn't.
pub(crate) fn shipping_of(ships: &[Shipping], packet: u32) -> Shipping
    ensures { result ≡ shipping_of packet ships.now }
{
    let mut rest = ships;
    'ships: while let [ship, behind @ ..] = rest {
        if ship.packet == packet {
            return *ship;
        }
        rest = behind;
    }
    Shipping {
        packet,
        row: 0,
        replica: 0,
    }
}

/// What was shipped after a line, the latest first, and each packet once: a script has few packets, and may ship each often.
pub(crate) fn note_ship(ships: &mut Vec<Shipping>, row: u64, line: &Line) -> Result<(), AllocError>
    ensures { OnOk result (ships.new.items ≡ ships_behind row line.now ships.old.items) }
{
    if let Line::Ship { replica, packet } = line {
        forget(ships, *packet);
        ships.insert(
            0,
            Shipping {
                packet: *packet,
                row,
                replica: *replica,
            },
        )?;
    }
    Ok(())
}

/// Leaves out what was shipped of a packet.
fn forget(ships: &mut Vec<Shipping>, packet: u32)
    ensures { ships.new.items ≡ ships_but packet ships.old.items }
{
    ships.retain(|ship| ship.packet != packet);
}

/// Whether the first of the lines that names the packet delivers it.
pub(crate) fn is_delivered(lines: &[Line], packet: u32) -> bool
    ensures { result ≡ is_delivered packet lines.now }
{
    let mut rest = lines;
    'lines: while let [line, behind @ ..] = rest {
        if let Some(delivered) = fate(line, packet) {
            return delivered;
        }
        rest = behind;
    }
    false
}

/// Whether the line delivers the packet, if it names it.
fn fate(line: &Line, packet: u32) -> Option<bool>
    ensures { result ≡ fate packet line.now }
{
    match line {
        Line::Ship { packet: other, .. } if *other == packet => Some(false),
        Line::Deliver { packet: other, .. } if *other == packet => Some(true),
        _ => None,
    }
}
