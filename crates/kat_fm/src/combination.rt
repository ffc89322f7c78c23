//! The rows that elimination works on.
ghost use Rattle.std.specs.Prelude.{◌≡◌, ◌^◌, ◌≤◌, ℤ, pos, List, int_lt, not, ◌&&◌, unsigned_abs};
ghost use Rattle.kat_fm.specs.Combinations.{at};
ghost use Rattle.kat_fm.specs.Comparisons.{has_variables, covers, exceeds};
ghost use Rattle.kat_fm.specs.EntryViews.{combination_in, numbers_in};

use crate::working::{Combination, Numbers};

impl Combination {
    /// The coefficient of a variable.
    pub fn at(&self, variable: usize) -> i128
        ensures value { result ≡ at variable (combination_in self.now) }
        ensures small { unsigned_abs result ≤ 2 ^ 126 }
    {
        self.coefficients.at(variable)
    }

    /// Whether the row has a variable.
    pub fn has_variables(&self) -> bool
        ensures { result ≡ has_variables (combination_in self.now) }
    {
        !self.coefficients.are_zero()
    }

    /// Whether no point meets the row: it has no variable, and a constant above 0.
    pub fn is_contradiction(&self) -> bool
        ensures { result ≡ (not (has_variables (combination_in self.now)) && int_lt (pos 0) self.now.constant) }
    {
        !self.has_variables() && self.constant > 0
    }

    /// Whether the row has the other's coefficients and at least its constant.
    pub fn covers(&self, other: &Combination) -> bool
        ensures { result ≡ covers (combination_in self.now) (combination_in other.now) }
    {
        other.constant <= self.constant && self.coefficients.is_same(&other.coefficients)
    }

    /// Whether the row has these coefficients and at least this constant.
    pub fn has_most(&self, coefficients: &Numbers, constant: i128) -> bool
        ensures { (ms : List ℤ) → result ≡ covers (combination_in self.now)
            (record { coefficients = numbers_in coefficients.now; constant = constant; multipliers = ms }) }
    {
        constant <= self.constant && self.coefficients.is_same(coefficients)
    }

    /// Whether the row has the other's coefficients and a greater constant.
    pub fn exceeds(&self, other: &Combination) -> bool
        ensures { result ≡ exceeds (combination_in self.now) (combination_in other.now) }
    {
        other.constant < self.constant && self.coefficients.is_same(&other.coefficients)
    }
}
