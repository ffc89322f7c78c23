//! Texts that are judged line by line, and what a line of a block of a report says.
//!
//! A text is cut into lines ([`line_end`]), and [`Audit`] and [`Step`] are what is reported of it and of its lines.
//! [`read_said`] reads a line that tells of an undecided design.
#![tactic(auto)]

mod cutting;
mod forms;
mod guessing;
mod judging;
mod laws;
mod numerals;
mod printing;
mod reading;
mod said;

pub use judging::{Audit, Step, line_end};
pub use laws::lines_say_one_thing;
pub use reading::read_said;
pub use said::{Place, Said};
