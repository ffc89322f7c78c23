//! A module as source code of a language: TypeScript, JavaScript, Python, Rust or Go.
//!
//! [`emitted`] is the whole file. What the members do is in kat_emit_members; here is what is around them: the class, its texts of states
//! and how they are read, the types of its values, and fixed text.
#![tactic(auto)]

mod classes;
mod compiled;
mod files;
mod go_pieces;
mod pieces;
mod python_pieces;
mod reading;
mod rust_pieces;
mod sharing;
mod texts;
mod typescript_pieces;
mod writing;

pub use files::{emitted, file_name, file_text, package_name, push_head};
pub use kat_emit_words::{Language, language_of};
