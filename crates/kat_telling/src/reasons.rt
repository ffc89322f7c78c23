//! Why a design isn't proved.
ghost use Rattle.std.specs.Prelude.{◌≡◌};
ghost use Rattle.kat_prove.specs.Provings.{GivesUp};
ghost use Rattle.kat_cases.specs.Answers.{answer_of};
ghost use Rattle.kat_cases.specs.Nodes.{End};
ghost use Rattle.kat_cases.specs.Walks.Answer.{stopped};
ghost use Rattle.kat_telling.specs.Evidence.{cause_of};
ghost use Rattle.kat_telling.specs.Reasons.{EndsAt, ending_of};

use kat_candidate::Place1;
use kat_cases::{Decision, Point};
use kat_wire::Cause;

/// How the search for a proof of a design ended.
#[derive(Drop)]
pub enum Reason {
    /// The query is answered otherwise at the point.
    Fails {
        query: u32,
        point: Point,
    },
    /// The walk has no more leaves at the place.
    Spent(Place1),
    /// Elimination has too many rows there.
    Crowded {
        at: Place1,
        plus: u64,
        minus: u64,
        rest: u64,
        lits: Vec<i32>,
    },
    /// A number is too great there.
    Wide {
        at: Place1,
        left: i128,
        right: i128,
        lits: Vec<i32>,
    },
    /// The design is proved, and its file has this many bytes.
    Long(u64),
}

impl Reason {
    /// The cause as a file tells it.
    pub fn cause(&self) -> Cause
        ensures { result ≡ cause_of (ending_of self.now) }
    {
        match self {
            Reason::Fails { .. } => Cause::OpenCert,
            Reason::Spent(_) => Cause::Spent,
            Reason::Crowded { .. } => Cause::Rows,
            Reason::Wide { .. } => Cause::Wide,
            Reason::Long(_) => Cause::Long,
        }
    }
}

/// The reason of a walk that gives up at a place.
pub fn reason_at(at: Place1, decision: Decision) -> Reason
    requires { (end : End) × (answer_of decision ≡ stopped end) × GivesUp end }
    ensures { (end : End) × (answer_of decision ≡ stopped end) × EndsAt at end (ending_of result) }
{
    match decision {
        Decision::Spent => Reason::Spent(at),
        Decision::Rows {
            lits,
            plus,
            minus,
            rest,
        } => Reason::Crowded {
            at,
            plus,
            minus,
            rest,
            lits,
        },
        Decision::Wide { lits, left, right } => Reason::Wide {
            at,
            left,
            right,
            lits,
        },
        Decision::Refutation(_) => unreachable!(),
        Decision::Point(_) => unreachable!(),
    }
}
