//! Scripts with deltas: how they are read and judged.
//!
//! A script with deltas has, besides the lines of scripts, lines `delta R WORD from C`: replica R makes a packet of its own
//! operations after the first C of them, under the word. [`read_deltas`] judges a text whole: it gives the script, or the
//! first refusal. To the refusals of scripts come two: a delta from more operations than its replica did so far, and one that
//! is delivered while operations before it are missing.
#![tactic(auto)]

mod counts;
mod error;
mod laws;
mod reader;
mod statement;

pub use error::DeltaScriptError;
pub use laws::{at_most_one_judgement, every_text_is_judged, scripts_with_deltas_are_judged};
pub use reader::read_deltas;
pub use statement::Statement;
