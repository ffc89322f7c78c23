//! What lattices are and what their joins are made of: the traits with their laws, a value under a first part that grows, and
//! the merge of ascending lists, which sets, maps and tallies share. The crate `kat_lattice` has the types; it gives the traits
//! too.
#![tactic(auto)]

mod lattice;
mod lex;
mod merge;
mod sums;

pub use lattice::{Chain, Flat, Lattice, commit};
pub use lex::Lex;
pub use merge::{Entries, is_part, place_of, union_of};
pub use sums::SumEntries;
