//! Type files: the type that a text says, or its first refusal.
#![tactic(auto)]

mod expressions;
mod items;
mod laws;
mod limits;
mod ranks;
mod reading;
mod resolving;
mod typing;

pub use kat_judging::Fault;
pub use laws::{
    at_most_one_judgement, every_type_file_is_judged, ranks_are_alike, types_are_well_sorted,
    types_are_within_limits, types_that_keep_the_rules,
};
pub use reading::read_type;
pub use typing::type_of;
