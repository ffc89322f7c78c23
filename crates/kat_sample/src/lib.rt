//! A script of any length, made from a number, and the type that it is for: a cart, in which things are counted.
//!
//! [`sample`] makes the script: three replicas add to counts, ship, deliver and ask by the draws of a generator of numbers.
//! At its end each replica absorbs what all of them did, and is asked for every count. [`cart`] is the type.
#![tactic(auto)]

mod carts;
mod clocks;
mod commands;
mod draws;
mod laws;
mod scripts;

pub use carts::{CART, cart};
pub use commands::Command;
pub use laws::{carts_are_types, samples_are_judged};
pub use scripts::{SAMPLE_LIMIT, sample};
