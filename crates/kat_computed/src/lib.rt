//! Rules for fields by what operations compute.
//!
//! [`reading_for`] gives the reading of a field by the first rule that fits: sums of several shares, also with a cap; greatest and
//! least values with constants; truth values that stay; ranks by digits; conditions that are decided before; and last writes of
//! computed values, whose arguments are kept. Nothing is promised of what is made but that it ends.
#![tactic(auto)]

mod chains;
mod combining;
mod conditions;
mod extremes;
mod firsts;
mod flat;
mod good;
mod ranked;
mod rules;
mod shares;
mod truths;
mod writes;

pub use rules::{Fitting, reading_for};
