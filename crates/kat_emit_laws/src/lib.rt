//! The law of emitted operations: what the statements of kat_emit for an operation mean is the step of kat_step.
#![tactic(auto)]

mod laws;

pub use laws::statements_mean_steps;
