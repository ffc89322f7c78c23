//! Sets of kinds of components.

/// Which kinds of components the designs of a listing may have.
#[derive(Clone, Copy, PartialEq, Eq, Debug)]
pub struct Kinds {
    pub cell: bool,
    pub table: bool,
    pub set: bool,
    pub tally: bool,
    pub tallies: bool,
}
