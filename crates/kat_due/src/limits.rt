//! The limits of a search.

/// A search ends with this many undecided designs.
pub const UNDECIDED_LIMIT: u64 = 100;

const _: () = prove!(UNDECIDED_LIMIT == 100);
