//! Candidates that are dropped.

use kat_candidate::Place1;
use kat_cases::Point;

/// A candidate is dropped: the condition at a place fails at a point, under the relation of the candidates that weren't dropped
/// before.
#[derive(Debug, PartialEq, Eq)]
pub struct Drop1 {
    pub at: Place1,
    pub point: Point,
}

impl Drop for Drop1 {
    fn drop(self) {
        let Self { at: _, point: _ } = self;
    }
}
