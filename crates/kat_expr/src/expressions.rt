//! Expressions, and the state that they read.
use crate::entries::Entries;
use kat_num::Value;

/// An expression of a type: fields are numbered in the order of the type, and arguments in that of the
/// operation's or query's parameters. `Keyed` reads a table at the key that a parameter gives.
pub enum Expr {
    Const(Value),
    Plain(u32),
    Keyed { field: u32, key: u32 },
    Arg(u32),
    Not(Box<Expr>),
    And(Box<Expr>, Box<Expr>),
    Or(Box<Expr>, Box<Expr>),
    Less(Box<Expr>, Box<Expr>),
    AtMost(Box<Expr>, Box<Expr>),
    Same(Box<Expr>, Box<Expr>),
    Plus(Box<Expr>, Box<Expr>),
    Minus(Box<Expr>, Box<Expr>),
    Max(Box<Expr>, Box<Expr>),
    Min(Box<Expr>, Box<Expr>),
    If(Box<Expr>, Box<Expr>, Box<Expr>),
}

impl Drop for Expr {
    fn drop(self) {
        match self {
            Self::Const(_) => {}
            Self::Plain(_) => {}
            Self::Keyed { field: _, key: _ } => {}
            Self::Arg(_) => {}
            Self::Not(_) => {}
            Self::And(_, _) => {}
            Self::Or(_, _) => {}
            Self::Less(_, _) => {}
            Self::AtMost(_, _) => {}
            Self::Same(_, _) => {}
            Self::Plus(_, _) => {}
            Self::Minus(_, _) => {}
            Self::Max(_, _) => {}
            Self::Min(_, _) => {}
            Self::If(_, _, _) => {}
        }
    }
}

/// What a state keeps of one field: its value, or for a table the value that every key has at first,
/// and the entries of the other keys.
#[derive(Drop)]
pub enum Slot {
    Plain(Value),
    Keyed { start: Value, entries: Entries },
}
