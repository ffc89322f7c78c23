//! JSON values read by forms and printed.
//!
//! [`parsed`] gives the value of a JSON text. A [`forms::Form`] says which values have it and what they say;
//! [`forms::part`] reads the part of a list at a place. What doesn't have the form is refused with the first place, in the order
//! of the text. [`printing`] has the values that are printed.
#![tactic(auto)]

mod errors;
pub mod forms;
mod parsing;
pub mod printing;
pub mod seen;
pub mod values;
pub mod words;

pub use errors::WireError;
pub use parsing::{elements_of, parsed};
