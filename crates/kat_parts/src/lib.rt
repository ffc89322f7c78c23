//! The parts of a type: fields that some right side or query reads together, with their operations and queries.
//!
//! [`parts_of`] splits a type, [`part_type`] makes a part a type of its own, and [`put_together`] makes a design for the whole of
//! one for each part. Nothing is promised of the parts but that each is a type that a file says.
#![tactic(auto)]

mod kinds;
mod parts;
mod shifts;
mod texts;
mod types;
mod whole;

pub use parts::{Part, parts_of};
pub use types::{extended_text, extended_type, part_type};
pub use whole::{Piece, put_together};
