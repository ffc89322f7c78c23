//! What a replica in a file does: the operations of a list of actions.
//!
//! A new replica is a [`new_node`]. [`stepped`] is a node after its actions; the states of others are merged before, by
//! [`kat_node::united`]. The laws say what a file has after one step, and what files have that only these calls wrote.
#![tactic(auto)]

mod error;
mod laws;
mod steps;
mod sums;

pub use error::StepError;
pub use laws::{
    actions_are_operations, full_states_have_great_sums, steps_keep_states,
    written_files_are_states,
};
pub use steps::{SUM_LIMIT, new_node, stepped};
pub use sums::passes_limit;
