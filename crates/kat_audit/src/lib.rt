//! Reports of a search, confirmed apart from it.
//!
//! [`audit`] reads a report line by line. What is due at a line follows from the lines before it: a design of the listing is refuted
//! by the first history on which it differs, of those that were cited before and then of all; one that differs on none has a block
//! with the evidence why it is undecided, which kat_block judges. So a report is confirmed without the search that wrote it. The
//! verdict is an `Audit` of kat_said.
#![tactic(auto)]

mod auditing;
mod blocks;
mod designs;
mod last;
mod laws;
mod options;

pub use auditing::audit;
pub use laws::{
    confirmed_reports_are_read, due_lines_are_lines, lines_determine_states,
    reports_have_one_verdict,
};
pub use options::Options;
