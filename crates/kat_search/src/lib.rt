//! The search for a design that is proved to answer as a type does.
//!
//! [`synth`] goes through the listing of a type's designs. A design is refuted by the first history on which it differs, of
//! those that refuted designs before it and then of all. One that no history refutes is proved, or passed over with the
//! evidence why it isn't. The first proved design is written as a file; a report tells of the designs that were tried.
#![tactic(auto)]

mod files;
mod findings;
mod laws;
mod options;
mod outcome;
mod search;
mod trying;

pub use laws::{files_have_signatures, none_is_answered_exactly};
pub use options::Options;
pub use outcome::Outcome;
pub use search::synth;
