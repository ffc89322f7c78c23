//! Replicas of a design: what each keeps, and how it changes.
//!
//! A [`Replica`] has a clock and a state. [`Replica::apply`] does an operation, [`Replica::packet`] is what is shipped, and
//! [`Replica::deliver`] takes a packet in: the greater clock and the join of both states. So the state is what the operations
//! absorbed there give, in whatever order and however often they came, and replicas that absorbed the same operations answer
//! alike. [`Replica::ask`] answers a query, and [`Replica::show`] prints the state.
//!
//! # What the caller sees to
//!
//! - Two replicas never share a number, and a replica does all its own operations itself: a sum of a tally is raised by one
//!   replica alone, so the greater of two sums of one replica is the later one.
//! - Each operation of a replica has a time past its clock. So a time and a replica's number name one operation.
//! - A replica never goes on from an older state of its own.
//! - The design is accepted (`sort_check`), and the operation is one of its signature's, with arguments of its sorts.
//!
//! Packets may be late, lost, or delivered again. Nothing here says that one ever arrives.
//!
//! # Memory
//!
//! If memory runs out, the replica is as it was. An operation takes memory for its own values, and a table, a set or a tally for a new
//! entry; a delivery for new keys, and a new list for a set or a tally that grows. If all components are cells, [`Replica::deliver_flat`]
//! takes none.
#![tactic(auto)]

mod applying;
mod delivering;
mod effects;
mod replicas;
mod staged;
mod starts;
mod texts;
mod undo;

pub use replicas::{Packet, Replica};
pub use texts::push_state;
