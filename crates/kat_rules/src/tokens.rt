//! The tokens that stand for a design.

use kat_design::Leaf;
use kat_num::Sort;

/// A token of the list that stands for a design. Constants are named by their places among the constants of the type.
#[derive(Clone, Copy, Debug)]
pub enum Token {
    /// No further component follows.
    End,
    Cell,
    Table,
    Set,
    Tally,
    Tallies,
    /// The sort of a component's keys.
    Keys(Sort),
    // the nodes of a shape
    Max,
    Name,
    Or,
    Lex,
    Pair,
    /// The start of a leaf.
    Start(usize),
    /// An operation has no effect.
    Nothing,
    /// The key of an effect, which is an argument.
    At(u32),
    /// What an operation gives to a leaf, adds to a sum, or puts into a set.
    Effect(Leaf),
    // the nodes of an ask
    Read {
        component: usize,
        leaf: usize,
        key: Option<u32>,
    },
    Arg(u32),
    NumberConstant(usize),
    NameConstant(usize),
    Truth(bool),
    Not,
    And,
    Either,
    Less,
    Plus,
    Minus,
}
