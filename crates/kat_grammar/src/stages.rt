//! How far a line of a type file was read.
use crate::phrases::{Kept, State, Target, Word};
use kat_num::Sort;

/// How far a line of the text was read.
#[derive(Clone, Copy)]
pub(crate) enum Stage {
    /// Only blank lines were read.
    Empty,
    TypeBegun {
        at: usize,
    },
    TypeWhole {
        at: usize,
        name: Word,
    },
    /// After the `2` of `type t 2`.
    TypeSecond {
        at: usize,
        name: Word,
        format_at: usize,
    },
    LineStart,
    State {
        at: usize,
        stage: StateStage,
    },
    Head {
        item: Item,
        at: usize,
        stage: HeadStage,
    },
    Operation {
        signature: Signature,
        stage: OperationStage,
    },
    Query {
        signature: Signature,
        stage: QueryStage,
    },
}

/// What has parameters.
#[derive(Clone, Copy)]
pub(crate) enum Item {
    Operation,
    Query,
}

/// What comes before the rank of an operation, or before the sort of a query.
#[derive(Clone, Copy)]
pub(crate) struct Signature {
    pub(crate) at: usize,
    pub(crate) name: Word,
    pub(crate) open_at: usize,
    pub(crate) close_at: usize,
}

/// How far a line was read that begins with `state`.
#[derive(Clone, Copy)]
pub(crate) enum StateStage {
    Begun,
    Named {
        name: Word,
    },
    Colon {
        name: Word,
        colon: usize,
    },
    Table {
        name: Word,
        colon: usize,
        table: usize,
    },
    Key {
        name: Word,
        colon: usize,
        table: usize,
        key_at: usize,
        key: Sort,
    },
    Arrow {
        name: Word,
        colon: usize,
        table: usize,
        key_at: usize,
        key: Sort,
        arrow: usize,
    },
    Kept {
        name: Word,
        colon: usize,
        kept: Kept,
    },
    Equal {
        name: Word,
        colon: usize,
        kept: Kept,
        equal: usize,
    },
    Minus {
        name: Word,
        colon: usize,
        kept: Kept,
        equal: usize,
        minus: usize,
    },
    Whole {
        state: State,
    },
}

/// How far a line was read that begins with `op` or `query`, up to the `)` of its parameters.
#[derive(Clone, Copy)]
pub(crate) enum HeadStage {
    Begun,
    Named {
        name: Word,
    },
    Opened {
        name: Word,
        open_at: usize,
    },
    Lead {
        name: Word,
        open_at: usize,
        lead: usize,
    },
    Parameter {
        name: Word,
        open_at: usize,
        lead: usize,
        word: Word,
    },
    Colon {
        name: Word,
        open_at: usize,
        lead: usize,
        word: Word,
        colon: usize,
    },
    /// After a parameter.
    Listed {
        name: Word,
        open_at: usize,
    },
}

/// How far an operation was read after its parameters.
#[derive(Clone, Copy)]
pub(crate) enum OperationStage {
    Closed,
    RankLead {
        lead: usize,
    },
    Ranked,
    AssignmentLead {
        lead: usize,
    },
    TargetWord {
        lead: usize,
        word: Word,
    },
    ClearBegun {
        lead: usize,
        clear_at: usize,
    },
    ClearWhole {
        lead: usize,
        clear_at: usize,
        table: Word,
    },
    TargetOpen {
        lead: usize,
        table: Word,
        open_at: usize,
    },
    TargetKey {
        lead: usize,
        table: Word,
        open_at: usize,
        key: Word,
    },
    TargetWhole {
        lead: usize,
        target: Target,
    },
    Right {
        lead: usize,
        target: Target,
        assign: usize,
    },
}

/// How far a query was read after its parameters.
#[derive(Clone, Copy)]
pub(crate) enum QueryStage {
    Closed,
    Colon {
        colon: usize,
    },
    Sort {
        colon: usize,
        sort_at: usize,
        sort: Sort,
    },
    Right {
        colon: usize,
        sort_at: usize,
        sort: Sort,
        equal: usize,
    },
}
