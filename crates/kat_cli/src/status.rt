//! How a call of the program ends.
ghost use Rattle.std.specs.Prelude.{◌≡◌};
ghost use Rattle.kat_cli.specs.Codes.{code_of};

use kat_num::Items;

/// How a call ended. A `file` counts the command's paths from 0.
pub enum Status {
    Done,
    /// The words are those of no command.
    Usage,
    /// A file couldn't be read.
    ReadFault { file: u32 },
    /// A file isn't what it has to be.
    Refused { file: u32, refusal: Refusal },
    NoDesign,
    Undecided,
    Stopped,
    Memory,
    /// The output couldn't be written.
    WriteFault,
    ProofRefused { condition: u32, line: u32 },
}

impl Drop for Status {
    fn drop(self) {
        match self {
            Self::Done => {}
            Self::Usage => {}
            Self::ReadFault { file: _ } => {}
            Self::Refused {
                file: _,
                refusal: _,
            } => {}
            Self::NoDesign => {}
            Self::Undecided => {}
            Self::Stopped => {}
            Self::Memory => {}
            Self::WriteFault => {}
            Self::ProofRefused {
                condition: _,
                line: _,
            } => {}
        }
    }
}

/// Why a file is refused: by which rule, and where.
pub struct Refusal {
    pub number: u8,
    pub at: At,
}

impl Drop for Refusal {
    fn drop(self) {
        let Self { number: _, at: _ } = self;
    }
}

/// Where a file is refused: at a byte, at a line (counted from 1) and for lateness with the replica's
/// clock, at a line where a delta of replica `origin` is delivered to one that has `have` of its operations and needs `need`, at a
/// place in nested lists (by indices from 0, none for the top), or for its length.
pub enum At {
    Byte(usize),
    Line(u64),
    Late {
        line: u64,
        clock: u64,
    },
    Gap {
        line: u64,
        origin: u32,
        have: u64,
        need: u64,
    },
    Place(Items<u32>),
    Length,
}

impl Drop for At {
    fn drop(self) {
        match self {
            Self::Byte(_) => {}
            Self::Line(_) => {}
            Self::Late { line: _, clock: _ } => {}
            Self::Gap {
                line: _,
                origin: _,
                have: _,
                need: _,
            } => {}
            Self::Place(_) => {}
            Self::Length => {}
        }
    }
}

impl Status {
    /// The status with which the process ends.
    pub fn code(&self) -> u8
        ensures { result ≡ code_of self.now }
    {
        match self {
            Status::Done => 0,
            Status::Usage => 1,
            Status::ReadFault { .. } => 2,
            Status::Refused { .. } => 3,
            Status::NoDesign => 4,
            Status::Undecided => 5,
            Status::Stopped => 6,
            Status::Memory => 7,
            Status::WriteFault => 8,
            Status::ProofRefused { .. } => 9,
        }
    }
}
