//! How the case split over an encoded condition ends, stated and taken apart from the search that uses it.
#![tactic(auto)]

mod bounds;
mod cores;
mod laws;
mod marks;
mod nodes;
mod readiness;
mod walking;

pub use laws::walks_end_in_one_way;
pub use readiness::is_walkable;
pub use walking::{WalkEnd, walk_end};
