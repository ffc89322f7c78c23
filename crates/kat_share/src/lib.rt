//! What replicas in files ship if they know what others have.
//!
//! [`node_difference`] is what a node has that a known node of the design lacks, as a node: it is written and read as a state file is.
//! Merged by a node to whose state the known one adds nothing, it leaves what the whole node would leave.
//!
//! The texts are lines. Marks are the state file of a fixed design, which keeps one tally ([`write_marks`], [`read_marks`]): what a
//! replica tells others of what it has. A share file is such a line and a state file ([`write_share`], [`read_share`]): what somebody
//! has. A packet is the line with the marks of what is known, and a share file ([`write_packet`], [`read_packet`]).
#![tactic(auto)]

mod laws;
mod marks;
mod nodes;
mod packets;
mod shares;

pub use laws::{differences_are_nodes, differences_merge_as_wholes, texts_say_one};
pub use marks::{read_marks, write_marks};
pub use nodes::node_difference;
pub use packets::{PacketError, SharePacket, read_packet, write_packet};
pub use shares::{Share, ShareError, read_share, write_share};
