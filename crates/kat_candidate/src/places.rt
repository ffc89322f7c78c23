//! Places of conditions.

/// The place of a condition. Candidates, operations and queries are numbered from 0.
#[derive(Clone, Copy, PartialEq, Eq, Debug)]
pub enum Place1 {
    /// The candidate holds at the start.
    Start { conjunct: u32 },
    /// The operation keeps the candidate.
    Step { op: u32, conjunct: u32 },
    /// The query has the same answers on both sides.
    Query(u32),
}
