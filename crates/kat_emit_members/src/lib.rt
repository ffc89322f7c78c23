//! What the members of a module do, in the forms of a language: operations, queries, merges, differences, copies.
//!
//! The languages have most of it in common. The types that they speak of are here too; what a file is around its members is in
//! kat_emit_text.
#![tactic(auto)]

mod asks;
mod changes;
mod effects;
mod leaves;
mod merging;
mod records;
mod values;

pub use asks::{is_checked, push_queries};
pub use changes::push_changes;
pub use effects::push_operations;
pub use leaves::{key_type, push_keys};
pub use merging::{push_copies, push_lacks, push_merges};
pub use records::push_records;
pub use values::{lacks_text, put_constant};
