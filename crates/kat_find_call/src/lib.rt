//! What `find` and `prove` do, over any files and any place for output.
//!
//! [`find_or_prove`] is the whole program except for its outside: a program makes the files, the place for output and the words, calls
//! it, and ends with the status. [`status_text`] is what standard error gets, and [`is_search`] says whether it may take long.
#![tactic(auto)]

mod calls;
mod report;
mod status;
mod usage;
mod words;

pub use calls::find_or_prove;
pub use report::status_text;
pub use status::{At, Status};
pub use words::is_search;
