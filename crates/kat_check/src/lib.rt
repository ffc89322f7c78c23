//! Acceptance: whether the proof of a design file proves each condition of its relation.
//!
//! [`check`] looks at the conjuncts of a relation and then at its conditions, one at a time. What the conditions say is
//! kat_vc's, and that lines which are accepted refute is kat_refute's.
#![tactic(auto)]

mod acceptance;
mod laws;
mod migration;

pub use acceptance::{Checked, check};
pub use laws::{
    accepted_files_have_no_fault, every_file_is_judged, migrated_files_are_accepted,
    migrated_files_are_of_version_two, migrated_files_keep_literals, one_first_fault,
};
pub use migration::{Migrated, migrate};
