//! What is due at each line of a report, and what was read of one.
//!
//! A [`Reading`] is cut line by line. The lines that may be due are written with [`push_history`], [`push_differs`] and
//! [`push_begin`], and compared with the line that was read.
#![tactic(auto)]

mod limits;
mod reading;
mod texts;

pub use limits::UNDECIDED_LIMIT;
pub use reading::Reading;
pub use texts::{push_begin, push_differs, push_history};
