//! The block of an undecided design, line by line: which candidates may be dropped, and how the block may end.
//!
//! A [`Block`] has the candidates of a type and a design, and those that aren't dropped yet. [`judge_said`] says whether what a
//! line says is due.
#![tactic(auto)]

mod closing;
mod judging;
mod laws;
mod left;
mod numbers;

pub use judging::judge_said;
pub use laws::held_lines_are_alike;
pub use left::Block;
