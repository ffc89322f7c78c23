//! Formulas: expressions over arguments and over what a design keeps, and the asks that answer them.
//!
//! An expression reads what is kept as it reads fields: the numbers from a [`Scope`]'s first one on are those of leaves. So the
//! reading of a field is an expression, and the right side of a query becomes one over leaves alone ([`replaced`]).
//! [`formula_ask`] asks it: sums with factors become additions, and what no ask gives, as the greater of two numbers, can still be
//! compared. Nothing is promised of what is made but that it ends.
#![tactic(auto)]

mod asking;
mod combinations;
mod comparing;
mod copies;
mod folding;
mod meanings;
mod replacing;
mod scopes;
mod sides;
mod sums;
mod values;
mod writing;

pub use asking::formula_ask;
pub use combinations::{Atom, Linear, Term, difference, linear_of, single, spelled};
pub use copies::{constant, copied, equal, greater_of, lesser_of, node_count, sum_of};
pub use folding::{choice_of, denied, folded};
pub use replacing::{assumed, at_key, replaced};
pub use scopes::{Scope, Stored};
pub use sides::{reads_argument, reads_field};
pub use values::value_of;
