//! What is answered of a type.

/// A design file or a report, by its bytes.
#[derive(Debug, PartialEq, Eq, Drop)]
pub enum Answer {
    /// A design is proved, and this is its file.
    File(Vec<u8>),
    /// None is.
    Report(Vec<u8>),
}
