//! What a walk answers.

use kat_refute::ProofLine;

/// A point of an encoded condition: the fraction `nums[v]` over `den` for each number variable v, and a value for each truth
/// variable that stands for a propositional variable, in the order of these.
#[derive(Debug, PartialEq, Eq)]
pub struct Point {
    pub den: i128,
    pub nums: Vec<i128>,
    pub truths: Vec<bool>,
}

impl Drop for Point {
    fn drop(self) {
        let Self {
            den: _,
            nums: _,
            truths: _,
        } = self;
    }
}

/// What is decided of an encoded condition. Contracts see it as an `Answer` (`answer_of decision`).
#[derive(Debug, Drop)]
pub enum Decision {
    /// Lines that refute the condition: [`kat_refute::check_lines`] accepts them.
    Refutation(Vec<ProofLine>),
    /// A point that makes all clauses true.
    Point(Point),
    /// All leaves were used up.
    Spent,
    /// Elimination on the rows of these literals would make more than 20,000 rows, out of so many.
    Rows {
        lits: Vec<i32>,
        plus: u64,
        minus: u64,
        rest: u64,
    },
    /// The two numbers of the first product or sum that is wide, in elimination on the rows of these literals.
    Wide {
        lits: Vec<i32>,
        left: i128,
        right: i128,
    },
}

/// How a walk ends if it doesn't refute.
#[derive(Drop)]
pub enum Ending {
    Spent,
    Point(Point),
    Rows {
        lits: Vec<i32>,
        plus: u64,
        minus: u64,
        rest: u64,
    },
    Wide {
        lits: Vec<i32>,
        left: i128,
        right: i128,
    },
}
