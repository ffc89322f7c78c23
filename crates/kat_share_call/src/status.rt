//! How a call ends.
ghost use Rattle.std.specs.Prelude.{◌≡◌};
ghost use Rattle.kat_share_call.specs.Codes.{IsPlain, code_of};

use kat_json::WireError;
use kat_node::NodeError;
use kat_num::Items;
use kat_script::ScriptError;
use kat_share::{PacketError, ShareError};
use std::alloc::Global;

/// How a call ended. A `file` counts the paths from 0.
pub enum Status {
    /// The share file or the packet was written.
    Done,
    /// The words are those of no command.
    Usage,
    /// A file couldn't be read.
    ReadFault { file: u32 },
    /// A file isn't what it has to be: the rule that it breaks, and where.
    Refused { file: u32, number: u8, at: At },
    /// A packet leaves out operations that are missing here; packets are counted from 0.
    Gap { packet: u32 },
    Memory,
    /// The output couldn't be written.
    WriteFault,
}

impl Drop for Status {
    fn drop(self) {
        match self {
            Self::Done => {}
            Self::Usage => {}
            Self::ReadFault { file: _ } => {}
            Self::Refused {
                file: _,
                number: _,
                at: _,
            } => {}
            Self::Gap { packet: _ } => {}
            Self::Memory => {}
            Self::WriteFault => {}
        }
    }
}

/// Where a file is refused: at a byte, at a line, at a place in nested lists, of a share file or a packet in the text that begins with
/// a line, or for its length.
pub enum At {
    Byte(usize),
    Line(u64),
    Place(Items<u32>),
    Within { line: u64, place: Items<u32> },
    Length,
}

impl Drop for At {
    fn drop(self) {
        match self {
            Self::Byte(_) => {}
            Self::Line(_) => {}
            Self::Place(_) => {}
            Self::Within { line: _, place: _ } => {}
            Self::Length => {}
        }
    }
}

impl Status {
    /// The status with which the process ends, that of `katara` for the same end, and 4 for a gap.
    pub fn code(&self) -> u8
        ensures { result ≡ code_of self.now }
    {
        match self {
            Status::Done => 0,
            Status::Usage => 1,
            Status::ReadFault { .. } => 2,
            Status::Refused { .. } => 3,
            Status::Gap { .. } => 4,
            Status::Memory => 7,
            Status::WriteFault => 8,
        }
    }
}

/// How a call ends if a design file isn't read.
pub(crate) fn refused_design(alloc: Global, file: u32, error: WireError) -> Status
    ensures { IsPlain result }
{
    match error {
        WireError::BadDesign(place) => refused_at(file, 16, At::Place(place)),
        WireError::Json => refused_at(file, 17, top(alloc)),
        WireError::Form(place) => refused_at(file, 18, At::Place(place)),
        WireError::Version => refused_at(file, 19, top(alloc)),
        WireError::Memory => Status::Memory,
    }
}

/// How a call ends if a share file isn't read.
pub(crate) fn refused_share(alloc: Global, file: u32, error: ShareError) -> Status
    ensures { IsPlain result }
{
    match error {
        ShareError::BadMarks(error) => refused_state(alloc, file, 1, error),
        ShareError::BadState(error) => refused_state(alloc, file, 2, error),
    }
}

/// How a call ends if a packet isn't read.
pub(crate) fn refused_packet(alloc: Global, file: u32, error: PacketError) -> Status
    ensures { IsPlain result }
{
    match error {
        PacketError::BadBase(error) => refused_state(alloc, file, 1, error),
        PacketError::BadShare(ShareError::BadMarks(error)) => refused_state(alloc, file, 2, error),
        PacketError::BadShare(ShareError::BadState(error)) => refused_state(alloc, file, 3, error),
    }
}

/// How a call ends if the marks or the state file from a line on aren't read.
fn refused_state(alloc: Global, file: u32, line: u64, error: NodeError) -> Status
    ensures { IsPlain result }
{
    match error {
        NodeError::Json => refused_within(file, 17, line, nowhere(alloc)),
        NodeError::Form(place) => refused_within(file, 18, line, place),
        NodeError::Version => refused_within(file, 19, line, nowhere(alloc)),
        NodeError::BadState(place) => refused_within(file, 28, line, place),
        NodeError::Memory => Status::Memory,
    }
}

/// How a call ends if actions aren't read.
pub(crate) fn refused_actions(file: u32, error: ScriptError) -> Status
    ensures { IsPlain result }
{
    match error {
        ScriptError::Refused { number, at } => refused_at(file, number, At::Byte(at)),
        ScriptError::Line { number, line } => refused_at(file, number, At::Line(line)),
        ScriptError::Late { line, .. } => refused_at(file, 13, At::Line(line)),
        ScriptError::Memory => Status::Memory,
    }
}

/// No indices: the whole text.
fn nowhere(alloc: Global) -> Items<u32> {
    Items::from_vec(Vec::new(alloc))
}

/// The whole file.
fn top(alloc: Global) -> At {
    At::Place(nowhere(alloc))
}

/// A file is refused by a rule, at a place in the text that begins with a line.
fn refused_within(file: u32, number: u8, line: u64, place: Items<u32>) -> Status
    ensures { IsPlain result }
{
    refused_at(file, number, At::Within { line, place })
}

/// A file is refused by a rule, at a place.
pub(crate) fn refused_at(file: u32, number: u8, at: At) -> Status
    ensures { IsPlain result }
{
    Status::Refused { file, number, at }
}
