//! How great the numbers of a condition's facts are: rows hold them, whatever the type, the design and the relation.
#![tactic(auto)]

mod laws;

pub use laws::{facts_are_sized, facts_are_small, type_files_are_named, what_is_read_is_accepted};
