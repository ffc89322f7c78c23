//! Lines of a text, and what is reported of them.
ghost use Rattle.std.specs.Prelude.{◌≡◌, ◌<◌, ◌≤◌, ◌∷◌, drop, length, take};
ghost use Rattle.kat_said.specs.Judging.{lines_of};

/// The outcome of a text that is judged line by line.
#[derive(Debug, Clone, Copy, PartialEq, Eq)]
pub enum Audit {
    /// Each line is due, and nothing is hidden.
    Confirmed,
    /// The number of the first line that isn't due, or is missing.
    Bad(u64),
    /// The number of the first line for which the text has no evidence.
    NotShown(u64),
    /// The number of the first line whose point is too wide.
    WidePoint(u64),
}

/// What is reported of a line.
#[derive(Debug, Clone, Copy, PartialEq, Eq)]
pub enum Step {
    /// It is due.
    Due,
    /// It isn't.
    Fault,
    /// Its point is too wide.
    Wide,
}

/// How many bytes the first line has, with its newline.
pub fn line_end(bytes: &[u8]) -> usize
    requires { 0 < length bytes.now }
    ensures some { 0 < result }
    ensures within { result ≤ length bytes.now }
    ensures first { lines_of bytes.now ≡ take result bytes.now ∷ lines_of (drop result bytes.now) }
{
    for (i, byte) in bytes.iter().enumerate() {
        if *byte == b'\n' {
            return i + 1;
        }
    }
    bytes.len()
}
