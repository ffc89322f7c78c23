//! Designs that people wrote: proved, or what is in the way.
//!
//! [`prove_design`] proves a design and gives its file, which `check` accepts; [`prove_by_hand`] gives a report if it isn't
//! proved. [`relate`] searches the relation. Nothing is promised of proving.
#![tactic(auto)]

mod answers;
mod files;
mod passes;
mod prove;
mod proving;
mod relating;
mod report;

pub use answers::Answer;
pub use files::TEXT_LIMIT;
pub use prove::prove_by_hand;
pub use proving::{Proof, prove_design};
pub use relating::{Blocked, Related, relate};
pub use report::push_reason;
