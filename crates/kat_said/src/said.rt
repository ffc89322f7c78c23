//! What the lines of a block say.

use kat_points::Point;

/// The place of a condition. Candidates, operations and queries are numbered from 0.
#[derive(Clone, Copy, PartialEq, Eq, Debug)]
pub enum Place {
    /// The candidate holds at the start.
    Start(u128),
    /// The operation keeps the candidate.
    Step { op: u128, conjunct: u128 },
    /// The query has the same answers on both sides.
    Query(u128),
}

/// What a line of a block says after its first word. No number passes 2^126 in absolute value except those of a point, and if one of these
/// does, it may stand for any other that does and has the same sign.
#[derive(Debug)]
pub enum Said {
    /// `drop PLACE at POINT`: a candidate is dropped.
    Drop {
        at: Place,
        point: Point,
    },
    /// `fail query Q at POINT`: a query is answered otherwise.
    Fail {
        query: u128,
        point: Point,
    },
    /// `spent PLACE`: the walk of the condition has no leaves left.
    Spent(Place),
    /// `rows PLACE P M R LITS`: elimination has too many rows there.
    Rows {
        at: Place,
        plus: u128,
        minus: u128,
        rest: u128,
        lits: Vec<i128>,
    },
    /// `wide PLACE A B LITS`: two numbers are too wide there.
    Wide {
        at: Place,
        left: i128,
        right: i128,
        lits: Vec<i128>,
    },
    /// `long BYTES`: the file of the proof is too long.
    Long(u128),
}

impl Drop for Said {
    fn drop(self) {
        match self {
            Self::Drop { at: _, point: _ } => {}
            Self::Fail { query: _, point: _ } => {}
            Self::Spent(_) => {}
            Self::Rows {
                at: _,
                plus: _,
                minus: _,
                rest: _,
                lits: _,
            } => {}
            Self::Wide {
                at: _,
                left: _,
                right: _,
                lits: _,
            } => {}
            Self::Long(_) => {}
        }
    }
}
