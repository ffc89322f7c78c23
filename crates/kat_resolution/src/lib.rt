//! What a search that learns clauses needs: which literals are marked, the resolvent of two clauses, and the order in which variables are
//! decided.
#![tactic(auto)]

mod marks;
mod queue;
mod resolution;

pub use marks::{has, is_denied, is_known, opposite, variable_at};
pub use queue::{first_open, move_up, queue_of};
pub use resolution::resolve;
