//! Points of a condition, judged against its facts.
#![tactic(auto)]

mod laws;
mod points;
mod saying;
mod sums;

pub use laws::held_points_are_alike;
pub use points::{Found, Point, judge_point};
