//! Designs for the types that people bring: guessed or listed, part by part, and proved as a whole.
//!
//! [`find_design`] gives the file of the first design that is proved, which `check` accepts. Otherwise a report tells for each part of the
//! type what was tried. Nothing is promised of finding.
#![tactic(auto)]

mod alone;
mod finding;
mod further;
mod helping;
mod obstacles;
mod report;
mod ruling;

pub use finding::{Bounds, find_design};
