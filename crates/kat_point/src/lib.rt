//! Points that are carried over from one encoded condition to another.
//!
//! Conditions of one operation begin with the same facts, and so with the same variables. If a walk has found a point of
//! one of them, [`carried`] tries the point's values on another: that is far less work than a walk.
#![tactic(auto)]

mod carrying;
mod checking;
mod sketches;
mod sums;

pub use carrying::carried;
