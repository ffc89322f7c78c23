//! Designs: what a replica keeps, what each operation joins to it, and what its queries read.
ghost use Rattle.std.specs.Prelude.{◌≡◌};

use kat_num::{Items, Sort, Value};
use kat_shape::Shape;
use kat_type::Signature;

/// What an operation gives to a leaf, or adds to a tally: an argument, its time or replica, 0 or 1, how far an argument
/// is above or below 0, or a truth value.
#[derive(Clone, Copy, PartialEq, Eq, Debug)]
pub enum Leaf {
    Arg(u32),
    Time,
    Replica,
    Zero,
    One,
    /// The argument, or 0 if it is less.
    Pos(u32),
    /// The argument with the other sign, or 0 if that is less.
    Neg(u32),
    False,
    True,
}

/// A part of what a replica keeps, and what each operation does to it, in the order of the operations; `None` is
/// nothing. A key is the argument with that number.
pub enum Component {
    /// A value of a shape. An operation joins one value for each leaf.
    Cell {
        shape: Shape,
        starts: Items<Value>,
        effects: Items<Option<Items<Leaf>>>,
    },
    /// Such a value for each key, all of them at first the start.
    Table {
        key: Sort,
        shape: Shape,
        starts: Items<Value>,
        effects: Items<Option<(u32, Items<Leaf>)>>,
    },
    /// A set of keys. An operation adds one.
    Set {
        key: Sort,
        effects: Items<Option<u32>>,
    },
    /// A sum for each replica. An operation adds a weight to that of its own.
    Tally {
        effects: Items<Option<Leaf>>,
    },
    /// Such sums for each key.
    Tallies {
        key: Sort,
        effects: Items<Option<(u32, Leaf)>>,
    },
}

impl Drop for Component {
    fn drop(self) {
        match self {
            Self::Cell {
                shape: _,
                starts: _,
                effects: _,
            } => {}
            Self::Table {
                key: _,
                shape: _,
                starts: _,
                effects: _,
            } => {}
            Self::Set { key: _, effects: _ } => {}
            Self::Tally { effects: _ } => {}
            Self::Tallies { key: _, effects: _ } => {}
        }
    }
}

/// What a query asks. A leaf is that of a component, at the key that an argument gives if the component has keys: a set
/// says whether it has the key, a tally gives the sum over all replicas.
pub enum Ask {
    Leaf {
        component: u32,
        leaf: u32,
        key: Option<u32>,
    },
    Arg(u32),
    Const(Value),
    Not(Box<Ask>),
    And(Box<Ask>, Box<Ask>),
    Or(Box<Ask>, Box<Ask>),
    Less(Box<Ask>, Box<Ask>),
    Plus(Box<Ask>, Box<Ask>),
    Minus(Box<Ask>, Box<Ask>),
}

impl Drop for Ask {
    fn drop(self) {
        match self {
            Self::Leaf {
                component: _,
                leaf: _,
                key: _,
            } => {}
            Self::Arg(_) => {}
            Self::Const(_) => {}
            Self::Not(_) => {}
            Self::And(_, _) => {}
            Self::Or(_, _) => {}
            Self::Less(_, _) => {}
            Self::Plus(_, _) => {}
            Self::Minus(_, _) => {}
        }
    }
}

/// A replicated data type: its operations and queries, what it keeps, and an ask for each query.
///
/// A counter of which each replica adds to its own sum has one `Component::Tally` with the effect `Leaf::One`, and the
/// ask `Ask::Leaf { component: 0, leaf: 0, key: None }`.
pub struct Design {
    pub sig: Signature,
    pub components: Items<Component>,
    pub asks: Items<Ask>,
}

impl Drop for Design {
    fn drop(self) {
        let Self {
            sig: _,
            components: _,
            asks: _,
        } = self;
    }
}

impl Design {
    /// Its signature, components and asks.
    pub fn into_parts(self) -> (Signature, Items<Component>, Items<Ask>)
        ensures { result ≡ (self.sig, self.components, self.asks) }
    {
        let Self {
            sig,
            components,
            asks,
        } = self;
        (sig, components, asks)
    }
}
