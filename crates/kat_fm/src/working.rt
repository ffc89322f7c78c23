//! The rows that elimination works on.
ghost use Rattle.std.specs.Prelude.{◌≢◌, ◌<◌, ◌^◌, pos};
ghost use Rattle.std.specs.List.{All};
ghost use Rattle.kat_linear.specs.Rows.{Term, AreAscending};
ghost use Rattle.kat_fm.specs.Entries.{AreWithin, ascending-prop};

/// A list of numbers most of which are 0: the others, each with its place, in order.
pub struct Numbers {
    pub entries: Vec<(usize, i128)>,
    pub count: usize,
    ghost ascending: { AreAscending entries.items } by { ascending-prop entries.items },
    ghost below: { All (λ (e : Term). e.0 < count) entries.items },
    ghost not_zero: { All (λ (e : Term). e.1 ≢ pos 0) entries.items },
}

impl Drop for Numbers {
    fn drop(self) {
        let Self {
            entries: _,
            count: _,
        } = self;
    }
}

/// A list of multipliers most of which are 0, in the same form.
pub struct Multipliers {
    pub entries: Vec<(usize, i64)>,
    pub count: usize,
    ghost ascending: { AreAscending entries.items } by { ascending-prop entries.items },
    ghost below: { All (λ (e : Term). e.0 < count) entries.items },
    ghost not_zero: { All (λ (e : Term). e.1 ≢ pos 0) entries.items },
}

impl Drop for Multipliers {
    fn drop(self) {
        let Self {
            entries: _,
            count: _,
        } = self;
    }
}

/// A row: a sum of the given rows, each times its multiplier. It has a coefficient for each variable, and a multiplier for
/// each given row.
pub struct Combination {
    pub coefficients: Numbers,
    pub constant: i128,
    pub multipliers: Multipliers,
    ghost small: { AreWithin (2 ^ 126) coefficients.entries.items },
}

impl Drop for Combination {
    fn drop(self) {
        let Self {
            coefficients: _,
            constant: _,
            multipliers: _,
        } = self;
    }
}
