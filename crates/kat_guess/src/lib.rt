//! Designs for a type, guessed by rules.
//!
//! [`guess_for`] puts a design together: for each field that a query reads a rule gives the components that keep it and how its
//! value is read from them, and each query is asked of these readings. Nothing is promised of a guess: whoever takes one has it
//! judged and proved.
#![tactic(auto)]

mod formulas;
mod guarded;
mod guesses;
mod joins;
mod ladders;
mod last_writes;
mod levels;
mod marking;
mod plain;
mod steps;
mod sums;

pub use guesses::{guess_count, guess_for};
pub use kat_reading::Miss;
pub use plain::{Guess, Rule, first_unruled, is_read, rule_of};
