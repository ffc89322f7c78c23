//! What a type file says, with the place of each of its tokens.
use crate::marks::{Extreme, Operator};
use kat_num::{Items, Sort};

/// A word that names something, by its code, as `n` in `n := 1`.
#[derive(Clone, Copy, PartialEq, Eq, Debug)]
pub struct Word {
    pub at: usize,
    pub code: u128,
}

/// A constant: a number, `-` and a number, a name literal, `true` or `false`, as `- 5` or `"milk"`.
#[derive(Clone, Copy, PartialEq, Eq, Debug)]
pub enum Constant {
    Natural {
        at: usize,
        number: u64,
    },
    Negative {
        at: usize,
        number_at: usize,
        number: u64,
    },
    Literal {
        at: usize,
        name: u128,
    },
    Truth {
        at: usize,
        truth: bool,
    },
}

/// An expression, as `if n < 4 then n + 1 else 4`, whose `If` has a `Binary` with `Less` as its condition.
#[derive(Drop)]
pub enum Phrase {
    Constant(Constant),
    Word(Word),
    /// `TABLE[KEY]`
    Entry {
        table: Word,
        open_at: usize,
        key: Word,
        close_at: usize,
    },
    Not {
        at: usize,
        operand: Box<Phrase>,
    },
    /// `LEFT OPERATOR RIGHT`
    Binary {
        operator: Operator,
        at: usize,
        left: Box<Phrase>,
        right: Box<Phrase>,
    },
    /// `max(LEFT, RIGHT)`
    Extreme {
        extreme: Extreme,
        at: usize,
        open_at: usize,
        left: Box<Phrase>,
        comma: usize,
        right: Box<Phrase>,
        close_at: usize,
    },
    /// `if CONDITION then LEFT else RIGHT`
    If {
        at: usize,
        condition: Box<Phrase>,
        then_at: usize,
        left: Box<Phrase>,
        else_at: usize,
        right: Box<Phrase>,
    },
    Parens {
        open_at: usize,
        inner: Box<Phrase>,
        close_at: usize,
    },
}

/// What a field keeps: one value, as `int`, or one for each key, as `table name -> bool`.
#[derive(Clone, Copy, PartialEq, Eq, Debug)]
pub enum Kept {
    One {
        sort_at: usize,
        sort: Sort,
    },
    Each {
        table: usize,
        key_at: usize,
        key: Sort,
        arrow: usize,
        sort_at: usize,
        sort: Sort,
    },
}

/// `state NAME : KEPT = START`, as `state n: int = 0`.
#[derive(Clone, Copy, PartialEq, Eq, Debug)]
pub struct State {
    pub at: usize,
    pub name: Word,
    pub colon: usize,
    pub kept: Kept,
    pub equal: usize,
    pub start: Constant,
}

/// `NAME : SORT`, after the `(` or the comma at `lead`, as `x: int`.
#[derive(Clone, Copy, PartialEq, Eq, Debug)]
pub struct Parameter {
    pub lead: usize,
    pub name: Word,
    pub colon: usize,
    pub sort_at: usize,
    pub sort: Sort,
}

/// What an operation's rank is made of, as each part of `time, replica`.
#[derive(Clone, Copy, PartialEq, Eq, Debug)]
pub enum RankElement {
    Digit { at: usize, digit: u64 },
    Time { at: usize },
    Replica { at: usize },
    Parameter(Word),
}

/// A rank element, after the word `rank` or the comma at `lead`, as `rank time`.
#[derive(Clone, Copy, PartialEq, Eq, Debug)]
pub struct RankPart {
    pub lead: usize,
    pub element: RankElement,
}

/// What is assigned: a field, as `n`, or a table at a key, as `c[x]`.
#[derive(Clone, Copy, PartialEq, Eq, Debug)]
pub enum Target {
    Field(Word),
    Entry {
        table: Word,
        open_at: usize,
        key: Word,
        close_at: usize,
    },
}

/// `TARGET := RIGHT`, as `n := n + 1`, or, in format 2, `clear TABLE`, as `clear c`.
#[derive(Drop)]
pub enum Act {
    Set {
        target: Target,
        assign: usize,
        right: Phrase,
    },
    Clear {
        at: usize,
        table: Word,
    },
}

/// What is assigned or cleared, after the colon or the semicolon at `lead`, as `: n := n + 1`.
pub struct Assignment {
    pub lead: usize,
    pub act: Act,
}

impl Drop for Assignment {
    fn drop(self) {
        let Self { lead: _, act: _ } = self;
    }
}

/// `op NAME(PARAMETERS) rank RANK : ASSIGNMENTS`, as `op add(x: int) rank 0: n := n + x`.
pub struct Operation {
    pub at: usize,
    pub name: Word,
    pub open_at: usize,
    pub params: Items<Parameter>,
    pub close_at: usize,
    pub rank: Items<RankPart>,
    pub assignments: Items<Assignment>,
}

impl Drop for Operation {
    fn drop(self) {
        let Self {
            at: _,
            name: _,
            open_at: _,
            params: _,
            close_at: _,
            rank: _,
            assignments: _,
        } = self;
    }
}

/// `query NAME(PARAMETERS) : SORT = RIGHT`, as `query get(): int = n`.
pub struct Query {
    pub at: usize,
    pub name: Word,
    pub open_at: usize,
    pub params: Items<Parameter>,
    pub close_at: usize,
    pub colon: usize,
    pub sort_at: usize,
    pub sort: Sort,
    pub equal: usize,
    pub right: Phrase,
}

impl Drop for Query {
    fn drop(self) {
        let Self {
            at: _,
            name: _,
            open_at: _,
            params: _,
            close_at: _,
            colon: _,
            sort_at: _,
            sort: _,
            equal: _,
            right: _,
        } = self;
    }
}

/// The format of a type file: that of `type t`, or that of `type t 2`, with the place of the `2`.
#[derive(Clone, Copy, PartialEq, Eq, Debug)]
pub enum Format {
    First,
    Second { at: usize },
}

/// A whole type file, as `type counter`, `state n: int = 0`, `op inc() rank 0: n := n + 1` and `query get(): int = n`,
/// each on a line.
pub struct TypeText {
    pub at: usize,
    pub name: Word,
    pub format: Format,
    pub states: Items<State>,
    pub operations: Items<Operation>,
    pub queries: Items<Query>,
}

impl Drop for TypeText {
    fn drop(self) {
        let Self {
            at: _,
            name: _,
            format: _,
            states: _,
            operations: _,
            queries: _,
        } = self;
    }
}
