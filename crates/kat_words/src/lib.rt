//! What the words of a call ask for: a command with its options, and the paths of its files.
//!
//! [`read_words`] reads the words with `clap`: one level of commands, no help among them.
#![tactic(auto)]

mod kinds;
mod numbers;
mod options;
mod program;
mod reading;
mod words;

pub use options::{ListOptions, NodeOptions, SampleOptions, SynthOptions};
pub use reading::read_words;
pub use words::{Command, Request};
