//! Lists of numbers most of which are 0: what is asked of one, and of two.
ghost use Rattle.std.specs.Prelude.{◌≡◌};
ghost use Rattle.std.specs.List.{list_all};
ghost use Rattle.kat_linear.specs.Rows.{coefficient_in};
ghost use Rattle.kat_fm.specs.Comparisons.{is_zero, are_same};
ghost use Rattle.kat_fm.specs.Entries.{same_entries};
ghost use Rattle.kat_fm.specs.EntryViews.{numbers_in};

use crate::working::Numbers;

impl Numbers {
    /// The number at a place, 0 if there is none.
    pub(crate) fn at(&self, place: usize) -> i128
        ensures { result ≡ coefficient_in self.now.entries.items place }
    {
        for (at, number) in &self.entries {
            if *at == place {
                return *number;
            }
        }
        0
    }

    /// Whether all numbers are 0.
    pub(crate) fn are_zero(&self) -> bool
        ensures { result ≡ list_all is_zero (numbers_in self.now) }
    {
        self.entries.is_empty()
    }

    /// Whether two lists are the same.
    pub(crate) fn is_same(&self, other: &Numbers) -> bool
        ensures { result ≡ are_same (numbers_in self.now) (numbers_in other.now) }
    {
        self.count == other.count && has_same(&self.entries, &other.entries)
    }
}

// Whether two lists of entries are the same.
fn has_same(a: &[(usize, i128)], b: &[(usize, i128)]) -> bool
    ensures { result ≡ same_entries a.now b.now }
{
    if a.len() != b.len() {
        return false;
    }
    for (i, (place, number)) in a.iter().enumerate() {
        let (at, other) = b[i];
        if *place != at || *number != other {
            return false;
        }
    }
    true
}
