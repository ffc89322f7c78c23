//! The outside as traits: files and a sink.
ghost use Rattle.std.specs.Prelude.{◌≡◌, ℕ, ◌≤◌, Bool, true, List, Option, IsErrOf};
ghost use Rattle.kat_io.specs.Outside.{Rose, Reads, IsSame, Writes};

use std::alloc::Global;

/// How a read ended that didn't fail.
#[derive(Clone, Copy, Debug, PartialEq, Eq)]
pub enum ReadEnd {
    /// The file's bytes are at the end of the buffer.
    Whole,
    /// The file has more bytes than the limit, and the buffer is as it was.
    Longer,
}

/// Why a read gave nothing. The buffer is as it was.
#[derive(Clone, Copy, Debug, PartialEq, Eq)]
pub enum ReadError {
    /// The outside failed, and counted it.
    Failed,
    Memory,
}

/// Why a write stopped.
#[derive(Clone, Copy, Debug, PartialEq, Eq)]
pub enum WriteError {
    /// The outside failed, and counted it. A prefix of the bytes was written.
    Failed,
    /// Nothing was written.
    Memory,
}

/// Files that are read by path.
pub trait Files {
    /// The bytes of the file at a path, if the object tells them.
    ghost holds: { Self → List ℕ → Option (List ℕ) };

    /// Whether a read of this path never fails.
    ghost sure: { Self → List ℕ → Bool };

    /// How many faults were met, up to 2^64 - 1.
    ghost faults: { Self → ℕ };

    /// Appends the file's bytes to `into`, if there are at most `limit` of them.
    fn read(
        &mut self,
        alloc: Global,
        path: &str,
        limit: usize,
        into: &mut Vec<u8>,
    ) -> Result<ReadEnd, ReadError>
        ensures content { Reads (holds self.old path.now) limit into.old.items into.new.items result }
        ensures same { IsSame (holds self.old) (holds self.new) (sure self.old) (sure self.new) }
        ensures later { faults self.old ≤ faults self.new }

        // It fails only by a fault that it counts, and never at a sure path.
        ensures failed { IsErrOf result ReadError.Failed → Rose (faults self.old) (faults self.new) }
        ensures unsure { IsErrOf result ReadError.Failed → sure self.old path.now ≡ true → ⊥ };
}

/// A place for output.
pub trait Sink {
    /// All bytes written so far, if the object tells them.
    ghost written: { Self → Option (List ℕ) };

    /// How many faults were met, up to 2^64 - 1.
    ghost faults: { Self → ℕ };

    /// Appends the bytes.
    fn write(&mut self, alloc: Global, bytes: &[u8]) -> Result<(), WriteError>
        ensures content { Writes (written self.old) (written self.new) bytes.now result }
        ensures later { faults self.old ≤ faults self.new }

        // It fails only by a fault that it counts.
        ensures failed { IsErrOf result WriteError.Failed → Rose (faults self.old) (faults self.new) };
}
