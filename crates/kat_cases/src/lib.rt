//! What a case split over the propositional variables of an encoded condition is built on.
//!
//! A node of the walk is the literals that are assumed at it ([`Assumptions`]), and is judged ([`judge`]): a leaf, an end or a
//! split. A walk keeps the branches that are being walked, with the core of each first one ([`Walk`]). A search that learns
//! clauses ([`learn`]) goes its own way.
#![tactic(auto)]

mod analysis;
mod assumptions;
mod cores;
mod decision;
mod engine;
mod guests;
mod held;
mod judging;
mod laws;
mod learning;
mod marks;
mod meeting;
mod plain;
mod readiness;
mod stack;
mod trying;

pub use assumptions::{Assumptions, clauses_in};
pub use decision::{Decision, Ending, Point};
pub use judging::{Judged, Kept, judge};
pub use kat_potential::Values;
pub use laws::{decisive_points_stay_open, encodings_are_walkable, walks_are_determined};
pub use learning::{Found, learn};
pub use plain::are_plain;
pub use readiness::is_walkable;
pub use stack::Walk;
pub use trying::try_literals;
