//! How a call ends.
ghost use Rattle.std.specs.Prelude.{◌≡◌};
ghost use Rattle.kat_people_call.specs.Codes.{code_of};

use kat_json::WireError;
use kat_num::Items;
use kat_script::ScriptError;
use kat_type::TypeError;

/// How a call ended. A `file` counts the paths from 0.
pub enum Status {
    /// The picture or the explanation was written.
    Done,
    /// The words are those of no command.
    Usage,
    /// A file couldn't be read.
    ReadFault { file: u32 },
    /// A file isn't what it has to be: the rule that it breaks, and where.
    Refused { file: u32, number: u8, at: At },
    /// A report cites no history of the number that is asked.
    NoHistory { file: u32 },
    /// The proof in the design file isn't accepted: its first fault, as `check` tells it.
    ProofRefused { condition: u32, line: u32 },
    Memory,
    /// The output couldn't be written.
    WriteFault,
}

impl Drop for Status {
    fn drop(self) {
        match self {
            Self::Done => {}
            Self::Usage => {}
            Self::ReadFault { file: _ } => {}
            Self::Refused {
                file: _,
                number: _,
                at: _,
            } => {}
            Self::NoHistory { file: _ } => {}
            Self::ProofRefused {
                condition: _,
                line: _,
            } => {}
            Self::Memory => {}
            Self::WriteFault => {}
        }
    }
}

/// Where a file is refused: at a byte, at a line, at a time that isn't later than the clock, at a place in nested lists, or for its
/// length.
pub enum At {
    Byte(usize),
    Line(u64),
    Late { line: u64, clock: u64 },
    Place(Items<u32>),
    Top,
    Signature,
    Length,
}

impl Drop for At {
    fn drop(self) {
        match self {
            Self::Byte(_) => {}
            Self::Line(_) => {}
            Self::Late { line: _, clock: _ } => {}
            Self::Place(_) => {}
            Self::Top => {}
            Self::Signature => {}
            Self::Length => {}
        }
    }
}

impl Status {
    /// The status with which the process ends, that of `katara` for the same end.
    pub fn code(&self) -> u8
        ensures { result ≡ code_of self.now }
    {
        match self {
            Status::Done => 0,
            Status::Usage => 1,
            Status::ReadFault { .. } => 2,
            Status::Refused { .. } | Status::NoHistory { .. } => 3,
            Status::Memory => 7,
            Status::WriteFault => 8,
            Status::ProofRefused { .. } => 9,
        }
    }
}

/// How a call ends if a type file isn't read.
pub(crate) fn refused_type(file: u32, error: TypeError) -> Status
    ensures { result ≡ Status.Done → ⊥ }
{
    match error {
        TypeError::Refused { number, at } => Status::Refused {
            file,
            number,
            at: At::Byte(at),
        },
        TypeError::Memory => Status::Memory,
    }
}

/// How a call ends if a design file isn't read.
pub(crate) fn refused_design(file: u32, error: WireError) -> Status
    ensures { result ≡ Status.Done → ⊥ }
{
    match error {
        WireError::BadDesign(place) => refused_at(file, 16, At::Place(place)),
        WireError::Json => refused_at(file, 17, At::Top),
        WireError::Form(place) => refused_at(file, 18, At::Place(place)),
        WireError::Version => refused_at(file, 19, At::Top),
        WireError::Memory => Status::Memory,
    }
}

/// How a call ends if a script isn't read.
pub(crate) fn refused_script(file: u32, error: ScriptError) -> Status
    ensures { result ≡ Status.Done → ⊥ }
{
    match error {
        ScriptError::Refused { number, at } => refused_at(file, number, At::Byte(at)),
        ScriptError::Line { number, line } => refused_at(file, number, At::Line(line)),
        ScriptError::Late { line, clock } => refused_at(file, 13, At::Late { line, clock }),
        ScriptError::Memory => Status::Memory,
    }
}

/// A file is refused by a rule, at a place.
pub(crate) fn refused_at(file: u32, number: u8, at: At) -> Status
    ensures { result ≡ Status.Done → ⊥ }
{
    Status::Refused { file, number, at }
}
