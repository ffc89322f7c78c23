//! The grammar of type files: from a text to its phrases, each with its place, or the first refusal.
//!
//! Each token has a mark, which says what it is to the grammar: a reserved word or a sign is a mark of its own, and so is
//! a number, a literal and a word that names something. The format, which the first line says, decides of the word `clear`
//! alone.
//!
//! Words are not looked up here, and no sort is judged: `kat_type_file` does that. What is refused here is a fault
//! of tokens, a token at which no line of the grammar goes on, and an expression that is too deep or too large.
#![tactic(auto)]

mod errors;
mod formats;
mod laws;
mod marks;
mod operands;
mod phrases;
mod reader;
mod stages;
mod text;
mod words;

pub use errors::GrammarError;
pub use laws::{at_most_one_judgement, every_text_is_judged};
pub use marks::{Extreme, Operator};
pub use phrases::{
    Act, Assignment, Constant, Format, Kept, Operation, Parameter, Phrase, Query, RankElement,
    RankPart, State, Target, TypeText, Word,
};
pub use text::read_text;
