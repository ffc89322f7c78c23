//! What a conjunct of a relation and a line of a proof can be.

/// How a conjunct begins.
#[derive(Clone, Copy, PartialEq, Eq, Debug)]
pub enum ConjunctTag {
    Query,
    Equal,
    Bounded,
    AtLeast,
    Matched,
    Total,
}

/// How a line of a proof begins.
#[derive(Clone, Copy, PartialEq, Eq, Debug)]
pub enum LineTag {
    Propagated,
    Hinted,
    Linear,
}
