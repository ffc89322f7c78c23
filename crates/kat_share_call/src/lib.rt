//! What `node-share`, `node-difference` and `node-take` do, over any files and any place for output.
//!
//! [`share_nodes`] is the whole program except for its outside: a program makes the files, the place for output and the words, calls it,
//! and ends with the status. [`status_text`] is the line for standard error.
#![tactic(auto)]

mod calls;
mod report;
mod status;
mod texts;
mod words;

pub use calls::share_nodes;
pub use report::status_text;
pub use status::{At, Status};
pub use words::Command;
