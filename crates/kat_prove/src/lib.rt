//! Proofs of designs: candidates for a relation are dropped if they fail, and what is left is proved.
#![tactic(auto)]

mod proving;
mod provings;
mod seen;
mod skims;
mod surveys;
mod trials;

pub use proving::prove;
pub use provings::Proving;
