//! The marks of tokens, and the operators among them.
use kat_num::Sort;

/// An operator between two operands, as `Less` in `n < 4`.
#[derive(Clone, Copy, PartialEq, Eq, Debug)]
pub enum Operator {
    Or,
    And,
    Less,
    AtMost,
    /// `=`, which also comes before a start value and before a query's expression.
    Same,
    Plus,
    /// `-`, which also comes before a number.
    Minus,
}

/// `max` or `min`, as in `min(n + 1, 4)`.
#[derive(Clone, Copy, PartialEq, Eq, Debug)]
pub enum Extreme {
    Greatest,
    Least,
}

/// What a token says: a word that names something, a number, a name literal, `true` or `false`, a word of a sort,
/// or one of the other reserved words and signs.
#[derive(Clone, Copy, PartialEq, Eq, Debug)]
pub enum Mark {
    Word(u128),
    Number(u64),
    Literal(u128),
    Truth(bool),
    Sort(Sort),
    Operator(Operator),
    Extreme(Extreme),
    /// The words that begin lines: `type`, `state`, `op`, `query`.
    TypeLine,
    StateLine,
    OpLine,
    QueryLine,
    Table,
    Rank,
    Time,
    Replica,
    If,
    Then,
    Else,
    Not,
    Open,
    Close,
    OpenBracket,
    CloseBracket,
    Comma,
    Colon,
    Semicolon,
    Assign,
    /// The word `clear`, in a type file of format 2.
    Clear,
    Arrow,
    Newline,
    /// A token that no type file has anywhere.
    Other,
}

/// A mark and the byte at which its token begins: in `type t`, `TypeLine` at 0 and `Word` at 5.
#[derive(Clone, Copy, PartialEq, Eq, Debug)]
pub struct Placed {
    pub mark: Mark,
    pub at: usize,
}
