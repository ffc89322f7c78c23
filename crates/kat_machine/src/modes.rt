//! What is read next of a token list, and what was read.

use crate::shared::Shared;
use kat_design::{Kind, Wanted};
use kat_num::{Items, Sort};

/// What a token of an effect must be: its key, an element of a set, what a leaf of this kind takes, or
/// a weight.
#[derive(Clone, Copy, Debug)]
pub enum Want {
    Key(Sort),
    Member(Sort),
    Leaf(Kind),
    Weight,
}

/// What a component keeps: the sort of its keys, the kinds of its leaves, and what an effect of it has.
pub struct Row {
    pub key: Option<Sort>,
    pub kinds: Items<Kind>,
    pub wants: Items<Want>,
}

impl Drop for Row {
    fn drop(self) {
        let Self {
            key: _,
            kinds: _,
            wants: _,
        } = self;
    }
}

/// What components keep.
pub type Rows = Shared<Items<Shared<Row>>>;

/// A kind of component with keys.
#[derive(Clone, Copy, Debug)]
pub enum Keyed {
    Table,
    Set,
    Tallies,
}

/// What is read next.
pub enum Mode {
    /// A component, or the end of them.
    Opening,
    /// The sort of keys.
    Keying {
        keyed: Keyed,
    },
    /// A node of a shape: of the shapes that are still to come, which must be chains, and the kinds of the leaves so far.
    Shaping {
        key: Option<Sort>,
        chains: Items<bool>,
        kinds: Items<Kind>,
    },
    /// The starts of leaves of these kinds.
    Starting {
        row: Shared<Row>,
        todo: Items<Kind>,
    },
    /// The effect of an operation: this many are left, this one among them.
    Effecting {
        row: Shared<Row>,
        left: usize,
    },
    /// Further parts of an effect.
    Filling {
        row: Shared<Row>,
        left: usize,
        todo: Items<Want>,
    },
    /// The ask of a query, of which these parts are expected: this many queries are left, this one among them.
    Asking {
        wants: Items<Wanted>,
        left: usize,
    },
    Finished,
    /// No token leads here.
    Nowhere,
}

impl Drop for Mode {
    fn drop(self) {
        match self {
            Self::Opening => {}
            Self::Keying { keyed: _ } => {}
            Self::Shaping {
                key: _,
                chains: _,
                kinds: _,
            } => {}
            Self::Starting { row: _, todo: _ } => {}
            Self::Effecting { row: _, left: _ } => {}
            Self::Filling {
                row: _,
                left: _,
                todo: _,
            } => {}
            Self::Asking { wants: _, left: _ } => {}
            Self::Finished => {}
            Self::Nowhere => {}
        }
    }
}

/// What is read next, and what the components so far keep.
pub struct Place {
    pub mode: Mode,
    pub rows: Rows,
}

impl Drop for Place {
    fn drop(self) {
        let Self { mode: _, rows: _ } = self;
    }
}
