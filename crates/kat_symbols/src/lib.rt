//! The symbolic reader: what expressions are over variables that stand for fields, leaves, keys and arguments.
//!
//! A [`Symbol`] is a value that isn't known: a linear form for a number or a name, a formula for a truth value. A
//! [`Reader`] gives each [`Name`] one variable, keeps what it has read once, and collects facts. [`number_read`] and
//! [`truth_read`] read an expression on a side ([`ReadSide`]), which says what is kept at a [`Place`].
//!
//! ```
//! let mut reader = Reader::new(alloc);
//! let x = reader.read_name(alloc, Name::Time)?;
//! let fact = less(alloc, &numeral(alloc, 0), &x)?;
//! reader.state(fact)?; // 0 < x, where x stands for the operation's time
//! ```
#![tactic(auto)]

mod connectives;
mod names;
mod readers;
mod sides;
mod sums;
mod symbols;
mod terms;

pub use connectives::{all, any, at_most, both, denied, either, less, same, truth_same};
pub use names::{Instance, Name, Place, Slot};
pub use readers::Reader;
pub use sides::{ReadSide, given};
pub use sums::{minus, numeral, plus};
pub use symbols::{Symbol, symbol_of, symbol_same, symbols_greater, symbols_less};
pub use terms::{greater, number_kept, number_read, truth_kept, truth_read};
