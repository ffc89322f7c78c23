//! The sort check of designs.
//!
//! [`sort_check`] accepts a [`kat_design::Design`] or gives its first wrong place ([`DesignError`]). An accepted design is
//! well-sorted, and small enough for its answers: the laws say so.
#![tactic(auto)]

mod asks;
mod checking;
mod components;
mod effects;
mod errors;
mod faults;
mod kinds;
mod laws;
mod written;

pub use checking::sort_check;
pub use effects::{gives_kind, has_sort, is_weight};
pub use errors::DesignError;
pub use laws::{accepted_designs_are_small, accepted_designs_are_well_sorted};
pub use written::{is_written, starts_fault};
