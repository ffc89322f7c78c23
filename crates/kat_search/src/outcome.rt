//! What a search answers.

/// The answer of a search, with the bytes of a file or a report.
#[derive(Drop)]
pub enum Outcome {
    /// The first design that is proved: its number in the listing, from 1, and its file.
    Emitted { number: u64, file: Vec<u8> },
    /// Each design of the listing differs on a history that the report cites.
    NoDesign(Vec<u8>),
    /// No design of the listing is proved, and some aren't refuted either: the report has the evidence.
    Undecided(Vec<u8>),
    /// As many designs were tried as may be, none is proved, and the listing has more.
    Stopped(Vec<u8>),
}
