//! Row files, which state worked values as data: what they say, whether a row passes, and the report of a program that tries
//! their rows.
#![tactic(auto)]

mod answers;
mod errors;
mod escapes;
mod numbers;
mod reading;
mod trying;

pub use answers::{Answer, Answers};
pub use errors::RowError;
pub use numbers::{leaves, number_of, numbers_of, push_number, push_numbers};
pub use reading::{Damage, Entry, Row, Table, read_table};
pub use trying::{Kinds, str_of, text_of, try_files};
