//! Words, files and rooms as plain bytes, for a host that knows no strings and no files of ours.
//!
//! [`words_in`] reads the words of a call, [`files_in`] its files by name, and [`put`] writes a text to a room of the host's.
#![tactic(auto)]

mod files;
mod rooms;
mod splitting;
mod texts;
mod words;

pub use files::files_in;
pub use rooms::put;
pub use words::words_in;
