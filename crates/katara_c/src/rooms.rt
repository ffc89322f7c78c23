//! Texts that are written to a room of the caller's.
ghost use Rattle.std.specs.Prelude.{◌≡◌, ◌<◌, ◌≤◌, ◌⊎◌, length, take};

use crate::codes::{DONE, ROOM};

/// Writes a text to the start of a room if it fits there, and otherwise nothing; and how long the text is, in either case.
pub(crate) fn write_out(text: &[u8], out: &mut [u8], count: &mut usize) -> u32
    ensures count { count.new ≡ length text.now }
    ensures done { result ≡ DONE → take count.new out.new ≡ text.now }
    ensures within { result ≡ DONE → count.new ≤ length out.old }
    ensures short { result ≡ ROOM → (length out.old < length text.now) × (out.new ≡ out.old) }
    ensures either { (result ≡ DONE) ⊎ (result ≡ ROOM) }
{
    *count = text.len();
    if text.len() > out.len() {
        return ROOM;
    }
    out[..text.len()].copy_from_slice(text);
    DONE
}
