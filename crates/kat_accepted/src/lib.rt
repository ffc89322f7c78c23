//! What is done with a design file whose proof is accepted, and with no other.
//!
//! Each call checks the proof first. If it isn't accepted, nothing is written.
#![tactic(auto)]

mod checking;
mod deltas;
mod running;

pub use checking::write_accepted;
pub use deltas::deltas_accepted;
pub use running::run_accepted;
