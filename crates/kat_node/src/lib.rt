//! State files: one replica, its state in a file.
//!
//! A [`Node`] is a replica with its number. [`write_node`] gives the text of its state file, `["state", 1, NUMBER, CLOCK, STATE]`,
//! and [`read_node`] the node of a text, or the first refusal with its place. Another replica's state file is a packet.
#![tactic(auto)]

mod errors;
mod extra;
mod forms;
mod judging;
mod laws;
mod making;
mod nodes;
mod packets;
mod reading;
mod rules;
mod stated;
mod states;
mod tables;
mod writing;
mod written;

pub use errors::NodeError;
pub use laws::{
    at_most_one_judgement, every_text_is_judged, nodes_go_with_designs, packets_leave_nodes,
    packets_unite, written_nodes_are_read,
};
pub use nodes::{Node, read_node};
pub use packets::united;
pub use writing::write_node;
