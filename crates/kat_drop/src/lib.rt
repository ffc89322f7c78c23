//! Candidates that are dropped at points where their conditions fail, and the evidence that a design is open: definitions
//! over plain data.
#![tactic(auto)]

mod drops;

pub use drops::Drop1;
