//! The texts of a replica in a file: which files a step takes, what it writes, and what questions are answered.
//!
//! [`read_step`] judges the files of a step after their design: a state file, actions, and packets. [`new_text`] is the state
//! file of a new replica, [`step_text`] that of a replica after a step, and [`answers_text`] the lines of answers.
#![tactic(auto)]

mod files;
mod laws;
mod writing;

pub use files::{FileError, FileRefused, PACKETS_LIMIT, StepFiles, read_step};
pub use laws::{
    answers_are_the_types, at_most_one_judgement, every_file_is_judged, steps_are_of_designs,
};
pub use writing::{answers_text, new_text, step_text};
