//! Replicas that ship deltas: their own operations after the first so many, in place of the whole state.
//!
//! A [`DeltaReplica`] keeps, besides its state, how many operations of each replica it absorbed, and a log of its own
//! operations. [`DeltaReplica::delta`] joins what those from a count on give. A replica absorbs a delta if it
//! has the operations before it; otherwise [`DeltaReplica::deliver_delta`] refuses it with [`DeltaError::Gap`].
#![tactic(auto)]

mod entry;
mod errors;
mod laws;
mod printing;
mod replicas;
mod running;
mod script;
mod writing;

pub use errors::DeltaError;
pub use laws::{
    deltas_answer_sequentially, deltas_come_again, deltas_come_in_any_order, deltas_follow,
    deltas_go_together, deltas_join, deltas_may_be_taken, deltas_tell_whole_sums,
    wholes_may_be_taken, worlds_of_deltas_hold_fronts,
};
pub use replicas::{DeltaPacket, DeltaReplica};
pub use running::{Running, Sent};
pub use script::{DeltaLine, DeltaScript};
pub use writing::deltas;
