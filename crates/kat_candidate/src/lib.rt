//! The candidates of a type and a design: the conjuncts from which a relation between their states is tried.
//!
//! [`candidates`] lists them, form by form, from lists of what conjuncts are made of: numbers, leaves, and constants with
//! their positions. A condition of a candidate has a place, as the condition of a query has one.
#![tactic(auto)]

mod choosing;
mod forms;
mod laws;
mod parts;
mod places;

pub use choosing::candidates;
pub use laws::candidates_are_determined;
pub use places::Place1;
