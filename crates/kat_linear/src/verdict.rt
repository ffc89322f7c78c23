//! What the check of multipliers answers.

/// What multipliers of rows come to.
#[derive(Debug, Clone, Copy, PartialEq, Eq)]
pub enum Farkas {
    /// The rows cannot all be met.
    Contradiction,
    /// The multipliers show nothing.
    Other,
    /// A product or a sum passes 2^126 in absolute value.
    Wide,
}
