//! A design for a type by trial: guesses by rules, and then designs of the listing.
//!
//! [`try_designs`] refutes designs by histories, and gives the first that none refutes and that is proved; otherwise a report tells what
//! was tried. Nothing is promised of what is given: whoever takes a design has it judged and proved.
#![tactic(auto)]

mod draws;
mod judging;
mod long_runs;
mod long_scripts;
mod notes;
mod pools;
mod report;
mod searching;
mod ties;
mod trying;
mod twins;

pub use judging::{guessed, judged};
pub use searching::{Tried, try_designs, try_rules};
