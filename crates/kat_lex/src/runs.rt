//! The longest run of bytes of a set.
ghost use Rattle.std.specs.Prelude.{◌≡◌, ◌==◌, ℕ, ◌≤◌, Bool, length, not};
ghost use Rattle.kat_num.specs.Bytes.{is_name_byte};
ghost use Rattle.kat_lex.specs.Pieces.{IsRun};

/// A set of bytes.
pub trait ByteSet {
    ghost passes: { ℕ → Bool };

    /// Whether the byte is in the set.
    fn has(byte: u8) -> bool
        ensures { result ≡ passes byte };
}

/// The bytes of names.
pub struct NameBytes {}

impl ByteSet for NameBytes {
    ghost passes = { is_name_byte };

    #[inline(always)]
    fn has(byte: u8) -> bool {
        kat_num::is_name_byte(byte)
    }
}

/// The bytes of one line.
pub struct LineBytes {}

impl ByteSet for LineBytes {
    ghost passes = { λ byte. not (byte == 10) };

    #[inline(always)]
    fn has(byte: u8) -> bool {
        byte != b'\n'
    }
}

/// The end of the longest run of bytes of the set that begins at the place.
pub fn run_end<S: ByteSet>(bytes: &[u8], from: usize) -> usize
    requires { from ≤ length bytes.now }
    ensures { IsRun S.passes bytes.now from result }
{
    for to in from..bytes.len() {
        if !S::has(bytes[to]) {
            return to;
        }
    }
    bytes.len()
}
