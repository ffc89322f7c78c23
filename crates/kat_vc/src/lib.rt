//! The conditions of a type, a design and a relation between their states.
//!
//! A relation holds at the start, is kept by each operation, and gives the same answers, if the facts of each
//! condition hold nowhere. [`condition_count`] says how many conditions there are, [`facts`] gives those of one, and
//! [`condition`] their encoding, of which lines may show that it can't be met.
#![tactic(auto)]

mod by_number;
mod conditions;
mod keys;
mod statements;
mod steps;

pub use conditions::{condition, condition_count, facts};
