//! What is answered of a design.

use kat_candidate::Place1;
use kat_drop::Drop1;
use kat_num::Items;
use kat_refute::ProofLine;
use kat_relation::Relation;
use kat_sat::{Decision, Point};

/// What is answered of a design. The drops are the candidates that fail, in the order in which they were dropped.
#[derive(Drop)]
pub enum Proving {
    /// The design is proved: the relation consists of the candidates that are left, and there is a list of lines for each
    /// of its conditions.
    Proved {
        drops: Vec<Drop1>,
        relation: Relation,
        proof: Items<Items<ProofLine>>,
    },
    /// The design is open: no relation of candidates has a proof. With the candidates that are left, the query's answers
    /// differ at the point.
    OpenCert {
        drops: Vec<Drop1>,
        query: u32,
        point: Point,
    },
    /// With the candidates that are left no condition fails at a point, and this is the first one that isn't refuted: the
    /// decision is that the walk is spent, or that elimination has too many rows or too great numbers.
    Stuck {
        drops: Vec<Drop1>,
        at: Place1,
        decision: Decision,
    },
}
