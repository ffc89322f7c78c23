//! A design from its token list, and the search over the token lists of the designs of one size.
//!
//! Which designs a listing has, and what their token lists are, kat_rules says. The designs of one size are found by a walk
//! (kat_walk) over the token lists that a machine reads (kat_machine). `searching` adds to it what is left of the size, and
//! leaves tokens after which no design of the size can come. A list counts only if it passes a test at its end: `decoding`
//! makes a design of it again, by `asks`, `parts` and `groups`, and tests that by the rules. So the machine may read too much,
//! and only must not lose a design.
#![tactic(auto)]

mod asks;
mod decoding;
mod groups;
mod laws;
mod parts;
mod searching;

pub use decoding::decode;
pub use laws::{designs_are_told_by_tokens, words_are_listed};
pub use searching::{Point, Search};
