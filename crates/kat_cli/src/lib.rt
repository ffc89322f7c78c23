//! The one public call of `katara`: what the words ask for, over any files and any place for output.
//!
//! [`katara`] is the whole program except for its outside: a program makes the files, the place for output and
//! the words, calls it, and ends with the status. [`status_text`] is the line for standard error.
#![tactic(auto)]

mod audit_command;
mod call;
mod check_command;
mod commands;
mod converge_command;
mod deltas_command;
mod laws;
mod limits;
mod list_command;
mod migrate_command;
mod model_command;
mod node_commands;
mod printing;
mod reading;
mod report;
mod run_command;
mod sample_command;
mod status;
mod synth_command;
mod typed_files;

pub use call::katara;
pub use kat_words::{Command, ListOptions, NodeOptions, SampleOptions, SynthOptions};
pub use laws::{
    accepted_files_are_inductive, every_call_is_judged, first_file_too_long,
    found_designs_are_accepted, migrated_files_are_accepted_again, no_design_is_answered_exactly,
    one_fault, one_refusal, reports_of_searches_are_confirmed, run_answers_sequentially,
};
pub use reading::FILE_LIMIT;
pub use report::status_text;
pub use status::{At, Refusal, Status};
