//! What a replica in a share file does: it ships what others lack, merges their packets, and does the operations of a list of actions.
//!
//! A new replica is a [`new_share`]. [`packet_beyond`] is what a share has beyond a known one. [`stepped_share`] is a share after packets
//! and then actions, or says which packet leaves out what is missing. [`steps_keep_shares`] says which operations a share has after a step.
#![tactic(auto)]

mod error;
mod laws;
mod marks;
mod packets;
mod steps;
mod texts;

pub use error::ShareStepError;
pub use laws::steps_keep_shares;
pub use packets::packet_beyond;
pub use steps::{PACKETS_LIMIT, new_share, stepped_share};
pub use texts::{known_share, packet_text, share_text};
