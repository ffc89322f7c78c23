//! The words with which the lists of a design begin.

/// How a component begins.
#[derive(Clone, Copy, PartialEq, Eq, Debug)]
pub(crate) enum ComponentTag {
    Cell,
    Table,
    Set,
    Tally,
    Tallies,
}

/// How a shape of two parts begins.
#[derive(Clone, Copy, PartialEq, Eq, Debug)]
pub(crate) enum ShapeTag {
    Lex,
    Pair,
}

/// How an ask begins that is a list.
#[derive(Clone, Copy, PartialEq, Eq, Debug)]
pub(crate) enum AskTag {
    Leaf,
    Param,
    Not,
    And,
    Or,
    Less,
    Plus,
    Minus,
}
