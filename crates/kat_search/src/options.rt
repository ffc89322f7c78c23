//! What a search is asked for.

use kat_gram::Kinds;

/// The bounds of a search.
#[derive(Clone, Copy)]
pub struct Options {
    /// The greatest size of a design, 1 to 24.
    pub size: u32,
    /// The leaves of the walk for each condition, 1 to 10,000.
    pub effort: u32,
    /// How many designs are tried at most, 1 to 1,000,000.
    pub designs: u64,
    /// The kinds that components may have.
    pub kinds: Kinds,
}
