//! What one replica has that another one lacks: the least that has to be told there.
//!
//! [`Difference::difference`] is what a value of a lattice has beyond a known one, and [`state_difference`] the same of a whole
//! state: the keys of a set that are new, of tables and tallies what is new at each key, a cell if it is new. Joined to what is
//! known, or to anything above it, the difference gives what the whole gives. It needs no log, and it tells what came from others
//! too.
//!
//! A [`Sharer`] is a replica with its marks: for each replica the time of its latest operation that the state has. A [`Packet`]
//! says by marks what it leaves out. It is merged if all that came before is there; otherwise it is refused, as a gap.
//!
//! # What the caller sees to
//!
//! - What kat_replica asks: no two replicas share a number, and none goes on from a state that is older than one of its own that
//!   others took in.
//! - A sharer merges packets alone. A state that comes without marks would bring operations that its marks don't tell, and a later
//!   difference would be too small. A whole state is merged too: as a packet whose base is empty, with its marks.
#![tactic(auto)]

mod cells;
mod difference;
mod laws;
mod leaves;
mod maps;
mod pairs;
mod parts;
mod sets;
mod sharers;
mod states;
mod tallies;

pub use difference::{
    Difference, difference_or_start, differences_serve_above, differences_tell_what_is_new,
};
pub use laws::{
    differences_unite, marks_tell_operations, marks_unite, sharers_act, sharers_begin,
    sharers_deliver,
};
pub use sharers::{DeliverError, Packet, Sharer};
pub use states::state_difference;
