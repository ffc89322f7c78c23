//! A module as a package of files: its code, tests with golden answers, and what the language's own tool wants.
//!
//! [`package`] is a text with all files. Scripts are drawn by the type's name; what the tests expect is what `run` of the design answers and
//! shows on them.
#![tactic(auto)]

mod declarations;
mod dice;
mod forms;
mod goldens;
mod marks;
mod packages;
mod refusals;
mod scripts;
mod steps;

pub use packages::package;
