//! Design files: a replicated data type as a JSON text.
//!
//! A file is the list `["katara", 1, SIGNATURE, DESIGN, RELATION, PROOF, EARLIER]`, or the text of a design that is built
//! in, as `builtin max`. [`read_file`] gives what it says, with a design that passes the sort check, or the first refusal
//! with its place. [`write_file`] prints a file, [`design_text`] its DESIGN alone. The conjuncts of a RELATION and the lines
//! of a PROOF begin with words; which words begin lines hangs on the version.
#![tactic(auto)]

mod agreeing;
mod builtin;
mod causes;
mod files;
mod laws;
mod lines;
mod lists;
mod relations;
mod tags;
mod words;
mod writing;

pub use agreeing::agrees;
pub use builtin::Builtin;
pub use causes::Cause;
pub use files::{DesignFile, read_file};
pub use kat_design_json::design_text;
pub use kat_json::WireError;
pub use laws::{at_most_one_judgement, every_text_is_judged, printed_files_are_read};
pub use writing::write_file;
