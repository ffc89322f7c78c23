//! A proved design as a module of source code, before any language: what the module keeps and offers, and what each of its members
//! does, as statements.
//!
//! [`module_of`] reads a type, a design and a relation into a [`Module`]: parts with names, the same as `explain` gives them, and with
//! what the lines of the type file say. [`operation_statements`] and [`lookups`] are what an operation and a query do.
#![tactic(auto)]

mod cases;
mod leaves;
mod lines;
mod modules;
mod parts;
mod reads;
mod remarks;
mod statements;

pub use cases::{Case, push_cased};
pub use leaves::push_name;
pub use lines::{Lines, read_lines};
pub use modules::{Module, module_of};
pub use parts::{Form, Part, is_chain};
pub use reads::{ask_reads, has_wide, is_wide, statement_reads};
pub use remarks::begins_markup;
pub use statements::{Lookup, Statement, lookups, operation_statements};
