//! Why texts are refused.
use kat_node::NodeError;
use kat_script::ScriptError;
use kat_share::{PacketError, ShareError};
use kat_wire::WireError;
use std::alloc::AllocError;

/// Why a design isn't accepted for a type: the first of these, in this order; or out of memory, which tells nothing of the texts.
#[derive(Drop)]
pub enum AcceptError {
    /// The type file is refused, by a rule and at a byte.
    BadType { number: u8, at: usize },
    /// The design file is refused.
    BadDesign(WireError),
    /// The design file has another signature than the type.
    OtherSignature,
    /// The first fault of the proof: a conjunct that doesn't fit, as condition 0, or a condition and a line, from 1.
    BadProof { condition: u32, line: u32 },
    /// Out of memory.
    Memory,
}

impl From<AllocError> for AcceptError {
    ghost use Rattle.std.specs.Prelude.{◌≡◌};
    ghost use Rattle.kat_embed.specs.declared.errors.AcceptError.TheVariants.{Memory};

    ghost from_gives = { λ _ error. error ≡ Memory };

    fn from(_: AllocError) -> Self {
        AcceptError::Memory
    }
}

/// Why a text isn't one call of an operation or query.
#[derive(Clone, Copy, PartialEq, Eq)]
pub enum CallError {
    /// It is none of the signature.
    NoCall,
    /// Out of memory, which tells nothing of the text.
    Memory,
}

impl From<AllocError> for CallError {
    ghost use Rattle.std.specs.Prelude.{◌≡◌};
    ghost use Rattle.kat_embed.specs.declared.errors.CallError.TheVariants.{Memory};

    ghost from_gives = { λ _ error. error ≡ Memory };

    fn from(_: AllocError) -> Self {
        CallError::Memory
    }
}

/// Why keys aren't listed.
#[derive(Drop)]
pub enum KeysError {
    /// The design has no query of this number.
    NoQuery,
    /// The known text is no state file of the design.
    BadState(NodeError),
    /// Out of memory, which tells nothing of the text.
    Memory,
}

impl From<AllocError> for KeysError {
    ghost use Rattle.std.specs.Prelude.{◌≡◌};
    ghost use Rattle.kat_embed.specs.declared.errors.KeysError.TheVariants.{Memory};

    ghost from_gives = { λ _ error. error ≡ Memory };

    fn from(_: AllocError) -> Self {
        KeysError::Memory
    }
}

/// Why a replica doesn't take in another one.
#[derive(Clone, Copy)]
pub enum MergeError {
    /// They have different designs.
    OtherDesign,
    /// Out of memory, which tells nothing of the designs.
    Memory,
}

impl From<AllocError> for MergeError {
    ghost use Rattle.std.specs.Prelude.{◌≡◌};
    ghost use Rattle.kat_embed.specs.declared.errors.MergeError.TheVariants.{Memory};

    ghost from_gives = { λ _ error. error ≡ Memory };

    fn from(_: AllocError) -> Self {
        MergeError::Memory
    }
}

/// Why a replica tells no share, difference or marks, or merges no packet.
#[derive(Drop)]
pub enum SharingError {
    /// Its marks aren't known: it merged or restored a state that came without any.
    NoMarks,
    /// The known text is no share file of the design.
    BadShare(ShareError),
    /// The text is no packet of the design.
    BadPacket(PacketError),
    /// Operations are missing that come before those of the packet.
    Gap,
    /// Out of memory, which tells nothing of the text.
    Memory,
}

impl From<AllocError> for SharingError {
    ghost use Rattle.std.specs.Prelude.{◌≡◌};
    ghost use Rattle.kat_embed.specs.declared.errors.SharingError.TheVariants.{Memory};

    ghost from_gives = { λ _ error. error ≡ Memory };

    fn from(_: AllocError) -> Self {
        SharingError::Memory
    }
}

/// Why a script isn't run.
#[derive(Drop)]
pub enum RunError {
    /// The design isn't accepted for the type.
    Unaccepted(AcceptError),
    /// The script is refused.
    BadScript(ScriptError),
    /// Out of memory, which tells nothing of the texts.
    Memory,
}

impl From<AllocError> for RunError {
    ghost use Rattle.std.specs.Prelude.{◌≡◌};
    ghost use Rattle.kat_embed.specs.declared.errors.RunError.TheVariants.{Memory};

    ghost from_gives = { λ _ error. error ≡ Memory };

    fn from(_: AllocError) -> Self {
        RunError::Memory
    }
}
