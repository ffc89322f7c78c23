//! Texts that are written to a room of the host's.
ghost use Rattle.std.specs.Prelude.{◌≡◌, ◌≤◌, length, take};

/// Writes a text to the start of a room that is long enough.
pub fn put(text: &[u8], room: &mut [u8])
    requires { length text.now ≤ length room.old }
    ensures { take (length text.now) room.new ≡ text.now }
{
    room[..text.len()].copy_from_slice(text);
}
