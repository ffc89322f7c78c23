//! What the operations of a type do to a field, what a rule gives for it, and how queries read that.
//!
//! [`kept_of`] tells what each operation does to a field, and [`columns_of`] what their ranks are. A rule makes components of these
//! ([`cell_or_table`], [`mark`], [`tally`]) and says how the field is read from them ([`Reading`]). [`ask_of`] asks a query of the
//! readings of all fields. Nothing is promised of what is made but that it
//! ends, and that an ask has room in a design.
#![tactic(auto)]

mod asks;
mod columns;
mod effects;
mod expressions;
mod fields;
mod misses;
mod readings;

pub use asks::{
    both as asked_both, chosen as asked_choice, either as asked_either, less as asked_less,
    minus as asked_minus, negated as asked_not, plus as asked_plus,
};
pub use columns::{
    Column, Held, are_above_starts, before_digits, columns_of, full_columns_of, shape_held,
    start_held,
};
pub use effects::{Gift, Made, Weight, cell_or_table, mark, tally};
pub use expressions::{ask_nodes as asked_nodes, ask_of, reads};
pub use fields::{Doing, Given, Join, Kept, acts, doing_of, kept_of};
pub use misses::{Miss, boxed, number_of, push};
pub use readings::{Guard, LeafAt, Reading};
