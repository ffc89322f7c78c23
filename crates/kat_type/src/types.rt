//! A sequential type: what it keeps, what its operations assign and what its queries answer.
use kat_expr::Expr;
use kat_num::{Items, Sort, Value};

/// A parameter of an operation or a query.
#[derive(Clone, Copy, PartialEq, Eq, Debug)]
pub struct Param {
    pub name: u128,
    pub sort: Sort,
}

/// A field: one value, or a table with a value for each key, all of them at first the start.
#[derive(Clone, Copy, PartialEq, Eq, Debug)]
pub enum Field {
    Plain {
        name: u128,
        sort: Sort,
        start: Value,
    },
    Keyed {
        name: u128,
        key: Sort,
        sort: Sort,
        start: Value,
    },
}

/// An element of a rank: a digit, the time or the replica of the operation, or one of its arguments.
#[derive(Clone, Copy, PartialEq, Eq, Debug)]
pub enum Rank {
    Digit(u8),
    Time,
    Replica,
    Arg(u32),
}

/// What an operation assigns: a field, or a table at the key that is one of its arguments; or, in format 2, a table that
/// it clears, which then has its start at every key.
pub enum Assign {
    Plain { field: u32, right: Expr },
    Keyed { field: u32, key: u32, right: Expr },
    Clear { field: u32 },
}

impl Drop for Assign {
    fn drop(self) {
        match self {
            Self::Plain { field: _, right: _ } => {}
            Self::Keyed {
                field: _,
                key: _,
                right: _,
            } => {}
            Self::Clear { field: _ } => {}
        }
    }
}

/// An operation: all right sides are taken in the old state, and then assigned; a table that is
/// cleared gets its start.
pub struct Operation {
    pub name: u128,
    pub params: Items<Param>,
    pub ranks: Items<Rank>,
    pub assigns: Items<Assign>,
}

impl Drop for Operation {
    fn drop(self) {
        let Self {
            name: _,
            params: _,
            ranks: _,
            assigns: _,
        } = self;
    }
}

/// A query: the value of an expression.
pub struct Query {
    pub name: u128,
    pub params: Items<Param>,
    pub sort: Sort,
    pub right: Expr,
}

impl Drop for Query {
    fn drop(self) {
        let Self {
            name: _,
            params: _,
            sort: _,
            right: _,
        } = self;
    }
}

/// A sequential type.
///
/// ```text
/// type counter
/// state count: int = 0
/// op add(n: nat) rank 0: count := count + n
/// query now(): int = count
/// ```
///
/// has one `Field::Plain` with the start `Num(0)`, one operation that assigns `Plus(Plain(0), Arg(0))` to field 0 and
/// whose rank is `Digit(0)`, and one query whose right side is `Plain(0)`.
pub struct SeqType {
    pub name: u128,
    pub fields: Items<Field>,
    pub ops: Items<Operation>,
    pub queries: Items<Query>,
}

impl Drop for SeqType {
    fn drop(self) {
        let Self {
            name: _,
            fields: _,
            ops: _,
            queries: _,
        } = self;
    }
}
