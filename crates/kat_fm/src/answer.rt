//! What elimination answers.
ghost use Rattle.std.specs.Prelude.{◌≡◌};
ghost use Rattle.kat_fm.specs.Eliminations.Solution.{goes_wide};
ghost use Rattle.kat_fm.specs.Answers.{solution_of};

use crate::arithmetic::Passed;

/// The result of elimination on rows. Contracts see it as a `Solution` (`solution_of solved`).
#[derive(Debug, PartialEq, Eq, Drop)]
pub enum Solved {
    /// A point that meets all rows: for each variable a numerator, over one denominator, which is above 0.
    Point { den: i128, nums: Vec<i128> },
    /// A multiplier for each row: the rows cannot all be met.
    Multipliers(Vec<i64>),
    /// The next step would make more than 20,000 rows: the numbers of rows with a positive coefficient of its variable, of those with a
    /// negative one, and of the others.
    Rows { plus: u64, minus: u64, rest: u64 },
    /// The two numbers of the first product or sum that passes 2^126 in absolute value or, if it is for a multiplier,
    /// 2^62.
    Wide { left: i128, right: i128 },
}

impl Solved {
    /// The answer with the numbers that pass a limit.
    pub fn wide(passed: Passed) -> Solved
        ensures { solution_of result ≡ goes_wide passed.left passed.right }
    {
        Solved::Wide {
            left: passed.left,
            right: passed.right,
        }
    }
}
