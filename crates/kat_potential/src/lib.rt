//! Values that meet rows each of which is a difference of two variables, and what elimination answers of such rows.
//!
//! A row that is a difference says that one variable and a gap are at most another one. Values that meet such rows are found as
//! shortest paths are ([`Values`]), without elimination, and tried ([`is_met`]); and a law says what elimination would answer.
#![tactic(auto)]

mod differences;
mod laws;
mod meeting;
mod values;

pub use laws::differences_end_at_points;
pub use meeting::{is_met, is_negation_met};
pub use values::Values;
