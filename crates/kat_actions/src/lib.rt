//! Lists of calls: operations that a replica is to do, and questions that it is asked.
//!
//! A file of actions has lines `do OP ARGS`, and a file of questions lines `ask QUERY ARGS`; there may be none. They are the lines
//! of scripts (kat_script) without a replica and without a time. [`read_actions`] and [`read_questions`] judge such a file whole:
//! they give the calls with the numbers of their lines, or the first refusal.
#![tactic(auto)]

mod calls;
mod laws;
mod reader;

pub use calls::{Call, Called, Verb};
pub use laws::{at_most_one_judgement, calls_fit_signatures, every_text_is_judged};
pub use reader::{read_actions, read_questions};
