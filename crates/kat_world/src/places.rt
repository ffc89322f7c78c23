//! Places in the lists of replicas and packets.
ghost use Rattle.std.specs.Prelude.{◌≡◌, ◌-◌, OnErr, OnOk};
ghost use Rattle.kat_script.specs.World.{put};

use std::alloc::AllocError;

/// The place of a replica in the list of all: replicas are numbered from 1.
pub fn place_of(replica: u32) -> usize
    ensures { result ≡ replica - 1 }
{
    replica.saturating_sub(1) as usize
}

/// Puts a packet in place of what its word had, or after the others if the word is new, as `ship` does: `packet` is the
/// number of the word, from 0. The only error is out of memory, which leaves the packets as they were.
pub fn put<T: Drop>(packets: &mut Vec<T>, packet: usize, new: T) -> Result<(), AllocError>
    ensures ok { OnOk result (packets.new.items ≡ put packets.old.items packet new) }
    ensures err { OnErr result (packets.new.items ≡ packets.old.items) }
{
    if packet < packets.len() {
        packets[packet] = new;
        return Ok(());
    }
    packets.push(new)?;
    Ok(())
}
