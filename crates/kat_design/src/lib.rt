//! Designs of replicated data types.
//!
//! A [`Design`] has components, which keep what was done as values of lattices, and an ask for each query. [`size`] is
//! its size, and [`design_answer`] is what it answers in a [`State`]. Which designs are accepted is judged in kat_sort_check.
#![tactic(auto)]

mod answers;
mod copies;
mod designs;
mod kinds;
mod laws;
mod meanings;
mod sizes;
mod small;
mod states;

pub use answers::design_answer;
pub use designs::{Ask, Component, Design, Leaf};
pub use kinds::{
    Kind, Wanted, component_kinds, is_kind, is_sort, is_wanted, key_sort, kinds_of, leaf_kind,
    sort_kind, value_kind,
};
pub use laws::{denotations_are_small, starts_fit_shapes};
pub use meanings::{
    all_mean, cells_mean, designs_mean, joins_mean, keyed_mean, keyed_tallies_mean,
    keyed_tallies_sum, sets_have_added, sets_mean, states_go_together, states_join_by_parts,
    sums_unite, sums_within, tables_are_cells, tallies_mean, tallies_sum, wrapped_mean,
};
pub use sizes::{COMPONENT_LIMIT, SIZE_LIMIT, size};
pub use small::{is_small, roomy};
pub use states::{Part, State};
