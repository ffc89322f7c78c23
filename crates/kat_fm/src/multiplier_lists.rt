//! Lists of multipliers most of which are 0: all of them, one after the other.
ghost use Rattle.std.specs.Prelude.{◌≡◌, IfOk};
ghost use Rattle.kat_fm.specs.EntryViews.{multipliers_of};

use crate::working::Multipliers;
use std::alloc::{AllocError, Global};

impl Multipliers {
    /// All multipliers, one after the other, those that are 0 too.
    pub fn spread(&self, alloc: Global) -> Result<Vec<i64>, AllocError>
        ensures { IfOk result (λ v. v.items ≡ multipliers_of self.now) }
    {
        let mut all = vec![in alloc; 0i64; self.count]?;
        for (place, multiplier) in &self.entries {
            all[*place] = *multiplier;
        }
        Ok(all)
    }
}
