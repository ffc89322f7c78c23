//! Walks over the lists of tokens that a machine accepts, in their order, one at a time.
//!
//! A [`Grammar`] says which tokens may follow, what each leads to and where a list ends. A [`Walk`] goes over the lists of
//! at most so many tokens that it accepts, with a stack of its open places. What a walk still has to give is a list that a
//! contract can name: the next list is taken from its beginning. Where a walk is can be kept as its [`places`], a few bytes, from
//! which it is made again ([`walk_at`]).
#![tactic(auto)]

mod grammars;
mod laws;
mod marks;
mod turns;
mod walks;

pub use grammars::Grammar;
pub use laws::words_are_accepted;
pub use walks::{Walk, next_list, places, walk_at, walk_from};
