//! Designs in words: what each replica keeps, what each operation does to it, how two states are merged and how each query is
//! answered, in a few lines of pseudo-code with the type's own names; and the relation and the proof, as far as a reader wants to
//! know of them.
//!
//! [`push_explanation`] writes the text, [`passed_over`] reads the designs that a file names as passed over.
#![tactic(auto)]

mod claims;
mod earlier;
mod pages;
mod relating;
mod sections;

pub use earlier::passed_over;
pub use pages::push_explanation;
