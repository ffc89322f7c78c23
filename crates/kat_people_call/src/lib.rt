//! What `picture`, `explain` and `emit` do, over any files and any place for output.
//!
//! [`show`] is the whole program except for its outside: a program makes the files, the place for output and the words, calls it, and
//! ends with the status. [`status_text`] is the line for standard error.
#![tactic(auto)]

mod calls;
mod drawing;
mod emitting;
mod explaining;
mod report;
mod status;
mod words;

pub use calls::show;
pub use report::status_text;
pub use status::{At, Status};
pub use words::Command;
