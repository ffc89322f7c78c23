//! The limits of a search.
use kat_histories::HISTORY_LIMIT;

/// The greatest number of bytes of a file.
pub const TEXT_LIMIT: usize = 16_777_216;

const _: () = prove!(TEXT_LIMIT == 16_777_216);

/// The search ends after this many undecided designs.
pub const UNDECIDED_LIMIT: usize = 100;

const _: () = prove!(UNDECIDED_LIMIT == 100);

// this many histories are tried
const _: () = prove!(HISTORY_LIMIT == 50_000);
