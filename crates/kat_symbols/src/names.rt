//! What the variables of a condition stand for.

/// A key at which something is read: that of the claim, or an argument.
#[derive(Clone, Copy, PartialEq, Eq, Debug)]
pub enum Instance {
    Claim,
    Argument(u32),
}

/// What a side keeps: a field of the type, or a leaf of a component of the design.
#[derive(Clone, Copy, PartialEq, Eq, Debug)]
pub enum Place {
    Field(u32),
    Leaf(u32, u32),
}

/// What a variable, or a value that is read once, stands for.
#[derive(Clone, Copy, PartialEq, Eq, Debug)]
pub enum Name {
    /// A key. That of an argument is the argument itself.
    Key(Instance),
    /// What is kept at a place, at a key if it is kept by key.
    Kept(Place, Option<Instance>),
    /// What the operation gives to a leaf of a component.
    Effect(u32, u32),
    /// Whether there is a last operation.
    Begun,
    /// An element of the last operation's rank.
    Element(u32),
    LastTime,
    LastReplica,
    /// The time and the replica of the operation that is done.
    Time,
    Replica,
}

/// A number variable: it has a name, or stands for what an `if` gives.
#[derive(Clone, Copy, PartialEq, Eq, Debug)]
pub enum Slot {
    Named(Name),
    Chosen,
}
