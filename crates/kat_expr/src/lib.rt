//! Expressions over a state and arguments, and their value.
#![tactic(auto)]

mod entries;
mod evaluation;
mod expressions;
mod laws;
mod slots;

pub use entries::{Entries, Undo, is_before};
pub use evaluation::eval;
pub use expressions::{Expr, Slot};
pub use laws::{
    kept_values_are_read, limits_may_grow, values_grow_slowly, values_have_their_sorts,
};
pub use slots::argument;
