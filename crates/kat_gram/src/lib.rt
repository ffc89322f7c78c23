//! The listing of all designs of a type up to a size, in the order of size and then of token list.
//!
//! Which designs a listing has, and what their token lists are, kat_rules says. Those of one size are found by the search of
//! kat_decoding. `enumerating` goes from one size to the next, and `listings` gives the designs that it finds, one after the
//! other. `courses` counts them and sets marks, from which a listing is gone through again.
#![tactic(auto)]

mod agreeing;
mod courses;
mod enumerating;
mod laws;
mod listings;

pub use kat_decoding::{designs_are_told_by_tokens, words_are_listed};
pub use kat_rules::Kinds;
pub use laws::{
    a_type_has_one_listing, each_type_has_a_listing, listed_designs_are_accepted,
    listings_go_on_alike,
};
pub use listings::Listing;
