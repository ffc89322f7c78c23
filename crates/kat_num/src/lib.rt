//! The values of replicated data types (truth values, whole numbers and names), how they are
//! printed, and how one argument is read.
#![tactic(auto)]

mod bytes;
mod items;
mod laws;
mod names;
mod reads;
mod texts;
mod values;

pub use bytes::{is_digit, is_letter, is_name_byte, is_word_byte, is_word_start};
pub use items::Items;
pub use laws::{codes_and_names, printed_is_read};
pub use names::{NAME_LIMIT, bytes_of, code, code_of, name_of};
pub use reads::{number, read_value};
pub use texts::print;
pub use values::{NUMBER_LIMIT, Sort, Value};
