//! Relations between a sequential type's states and a design's: lists of conjuncts of six forms.
#![tactic(auto)]

mod fitting;
mod keys;
mod relations;

pub use fitting::fits;
pub use keys::conjunct_key;
pub use relations::{Conjunct, LeafRef, Relation};
