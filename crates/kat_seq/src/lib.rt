//! Sequential types run: what they keep at first, how an operation changes that, and what a query answers.
#![tactic(auto)]

mod changes;
mod laws;
mod running;

pub use laws::{runs_go_on, states_grow_slowly, states_keep_their_sorts};
pub use running::{answer, start, step};
