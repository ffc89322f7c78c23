//! Sorts and values.

/// The greatest absolute value of a number literal or an argument.
pub const NUMBER_LIMIT: u64 = 1_000_000_000_000;

/// What a field, a parameter or an answer holds. A value of sort `Nat` fits `Int` too.
#[derive(Clone, Copy, PartialEq, Eq, PartialOrd, Ord, Hash, Debug)]
pub enum Sort {
    Bool,
    Int,
    Nat,
    Name,
}

/// A truth value, a whole number, or a name by its code.
#[derive(Clone, Copy, PartialEq, Eq, PartialOrd, Ord, Hash, Debug)]
pub enum Value {
    Bool(bool),
    Num(i128),
    Name(u128),
}
