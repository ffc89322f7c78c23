//! What the calls answer.
ghost use Rattle.std.specs.Prelude.{◌≡◌};
ghost use Rattle.katara_c.specs.Codes.{accept_code, call_code, keys_code, line_code, merge_code, node_code, packet_code, run_code, share_code, sharing_code, step_code};

use kat_embed::{AcceptError, CallError, KeysError, MergeError, RunError, SharingError};
use kat_node::NodeError;
use kat_share::{PacketError, ShareError};
use kat_step::StepError;

/// The call did what it is to do.
pub(crate) const DONE: u32 = 0;

/// Out of memory.
pub(crate) const NO_MEMORY: u32 = 1;

/// The answer is longer than the room for it.
pub(crate) const ROOM: u32 = 2;

/// The handle has no replica, or has one already when it is opened.
pub(crate) const HANDLE: u32 = 3;

/// The type file is refused.
pub(crate) const BAD_TYPE: u32 = 4;

/// The design file is refused.
pub(crate) const BAD_DESIGN: u32 = 5;

/// The design file has another signature than the type.
pub(crate) const OTHER_SIGNATURE: u32 = 6;

/// The proof isn't accepted.
pub(crate) const BAD_PROOF: u32 = 7;

/// The call names no operation, or no query, of the design, or gives it other arguments.
pub(crate) const NO_CALL: u32 = 8;

/// A number is past its limit: a replica's number isn't from 1 to 32, a time would pass 10^9, or a sum 10^18.
pub(crate) const LIMIT: u32 = 9;

/// The text is no state file of the design.
pub(crate) const BAD_STATE: u32 = 10;

/// The script is refused.
pub(crate) const BAD_SCRIPT: u32 = 11;

/// The other replica has another design.
pub(crate) const OTHER_DESIGN: u32 = 12;

/// Operations are missing that come before those of a packet.
pub(crate) const GAP: u32 = 13;

/// The replica's marks aren't known.
pub(crate) const NO_MARKS: u32 = 14;

/// The text is no share file, or no packet, of the design.
pub(crate) const BAD_SHARE: u32 = 15;

/// The code of an error of `open`.
pub(crate) fn accept_code(error: &AcceptError) -> u32
    ensures { result ≡ accept_code error.now }
{
    match error {
        AcceptError::BadType { .. } => BAD_TYPE,
        AcceptError::BadDesign(_) => BAD_DESIGN,
        AcceptError::OtherSignature => OTHER_SIGNATURE,
        AcceptError::BadProof { .. } => BAD_PROOF,
        AcceptError::Memory => NO_MEMORY,
    }
}

/// The code of an error of `call_of`.
pub(crate) fn call_code(error: CallError) -> u32
    ensures { result ≡ call_code error }
{
    match error {
        CallError::NoCall => NO_CALL,
        CallError::Memory => NO_MEMORY,
    }
}

/// The code of an error of `act`.
pub(crate) fn step_code(error: &StepError) -> u32
    ensures { result ≡ step_code error.now }
{
    match error {
        StepError::TooLarge { .. } | StepError::FullState { .. } => LIMIT,
        StepError::Memory => NO_MEMORY,
    }
}

/// The code of an error of `merge` and `restore`.
pub(crate) fn node_code(error: &NodeError) -> u32
    ensures { result ≡ node_code error.now }
{
    match error {
        NodeError::Memory => NO_MEMORY,
        _ => BAD_STATE,
    }
}

/// The code of an error of `merge_from`.
pub(crate) fn merge_code(error: MergeError) -> u32
    ensures { result ≡ merge_code error }
{
    match error {
        MergeError::OtherDesign => OTHER_DESIGN,
        MergeError::Memory => NO_MEMORY,
    }
}

/// The code of an error of `run`.
pub(crate) fn run_code(error: &RunError) -> u32
    ensures { result ≡ run_code error.now }
{
    match error {
        RunError::Unaccepted(error) => accept_code(error),
        RunError::BadScript(_) => BAD_SCRIPT,
        RunError::Memory => NO_MEMORY,
    }
}

/// The code of an error of `keys_beyond`.
pub(crate) fn keys_code(error: &KeysError) -> u32
    ensures { result ≡ keys_code error.now }
{
    match error {
        KeysError::NoQuery => NO_CALL,
        KeysError::BadState(error) => node_code(error),
        KeysError::Memory => NO_MEMORY,
    }
}

/// The code of an error of what ships or merges differences.
pub(crate) fn sharing_code(error: &SharingError) -> u32
    ensures { result ≡ sharing_code error.now }
{
    match error {
        SharingError::NoMarks => NO_MARKS,
        SharingError::BadShare(error) => share_code(error),
        SharingError::BadPacket(error) => packet_code(error),
        SharingError::Gap => GAP,
        SharingError::Memory => NO_MEMORY,
    }
}

/// The code of a packet that is refused.
fn packet_code(error: &PacketError) -> u32
    ensures { result ≡ packet_code error.now }
{
    match error {
        PacketError::BadBase(error) => line_code(error),
        PacketError::BadShare(error) => share_code(error),
    }
}

/// The code of a share file that is refused.
pub(crate) fn share_code(error: &ShareError) -> u32
    ensures { result ≡ share_code error.now }
{
    match error {
        ShareError::BadMarks(error) => line_code(error),
        ShareError::BadState(error) => line_code(error),
    }
}

/// The code of a line of these that is refused.
fn line_code(error: &NodeError) -> u32
    ensures { result ≡ line_code error.now }
{
    match error {
        NodeError::Memory => NO_MEMORY,
        _ => BAD_SHARE,
    }
}
