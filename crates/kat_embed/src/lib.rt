//! Replicas of accepted designs, inside other programs.
//!
//! [`Embedded::open`] reads a type and a design file, checks the file's proof, and gives a replica of the design that did
//! nothing; [`Embedded::another`] gives further ones of the same design. [`Embedded::act`] does an operation there and [`Embedded::ask`] answers a query; [`Embedded::state`] is the text of a
//! state file, which another replica takes in by [`Embedded::merge`], and from which a replica is set up again by
//! [`Embedded::restore`]. An operation or a query is named by a text ([`Embedded::call_of`]), or by a number and values
//! ([`Embedded::call_numbered`]). [`Embedded::keys`] lists the keys at which a query may find something, and
//! [`Embedded::keys_beyond`] those at which there is something that an earlier state lacks. [`run`] runs a design on a script, with
//! many replicas.
//!
//! A replica also ships what a peer lacks. [`Embedded::share`] is what it has, with its marks: for each replica the time of its latest
//! operation in the state. [`Embedded::difference`] is a packet of what it has beyond a share that a peer is known to have, and the
//! peer takes it in by [`Embedded::merge_difference`], or refuses it as a gap if it lacks what comes before. A state as `state` writes
//! it has no marks: whoever merges one doesn't know its own any more, and ships whole states from then on.
#![tactic(auto)]

mod absorbing;
mod accepting;
mod alike;
mod calls;
mod contents;
mod copies;
mod embedded;
mod errors;
mod keys;
mod laws;
mod news;
mod numbered;
mod passing;
mod running;
mod sharing;
mod steps;

pub use contents::Contents;
pub use embedded::Embedded;
pub use errors::{AcceptError, CallError, KeysError, MergeError, RunError, SharingError};
pub use laws::{calls_keep_marks, calls_keep_states, texts_are_judged};
pub use passing::TaggedValue;
pub use running::run;
