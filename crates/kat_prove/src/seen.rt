//! What was found of conditions since the last drop.
ghost use Rattle.std.specs.Prelude.{◌≡◌, ◌+◌, List, length, true, IfOk, IfSome};
ghost use Rattle.kat_relation.specs.declared.relations.Conjunct.{Conjunct};
ghost use Rattle.kat_prove.specs.Trials.{AreSeen, IsFound, TrialForm, condition_facts};

use crate::surveys::Found;
use std::alloc::{AllocError, Global};

/// What was found of conditions one after the other, from the one with a number on. Each is taken out once.
pub(crate) struct Seen {
    pub from: u32,
    pub found: Vec<Option<Found>>,
}

impl Drop for Seen {
    fn drop(self) {
        let Self { from: _, found: _ } = self;
    }
}

impl Seen {
    /// Of none.
    pub(crate) fn none(alloc: Global) -> Seen
        ensures { (trial : TrialForm) (relation : List Conjunct) → AreSeen trial relation result }
    {
        Seen {
            from: 0,
            found: Vec::new(alloc),
        }
    }

    /// With what is found of the condition with a number. If that isn't the next one, what was found before is gone.
    pub(crate) fn note(
        &mut self,
        alloc: Global,
        number: u32,
        found: Found,
    ) -> Result<(), AllocError>
        ensures { IfOk result (λ u. (trial : TrialForm) (relation : List Conjunct) → AreSeen trial relation self.old
            → IsFound (condition_facts trial relation number) trial.effort found → AreSeen trial relation self.new) }
    {
        if self.ends_before(number) {
            self.found.push(Some(found))?;
            return Ok(());
        }
        let mut only = Vec::new(alloc);
        only.push(Some(found))?;
        self.from = number;
        self.found = only;
        Ok(())
    }

    // Whether the condition with a number comes right after these.
    fn ends_before(&self, number: u32) -> bool
        ensures { result ≡ true → number ≡ self.now.from + length self.now.found.items }
    {
        self.from as usize + self.found.len() == number as usize
    }

    /// What was found of the condition with a number. It is no longer there.
    pub(crate) fn take(&mut self, number: u32) -> Option<Found>
        ensures found { (trial : TrialForm) (relation : List Conjunct) → AreSeen trial relation self.old
            → IfSome result (λ found. IsFound (condition_facts trial relation number) trial.effort found) }
        ensures others { (trial : TrialForm) (relation : List Conjunct) → AreSeen trial relation self.old → AreSeen trial relation self.new }
    {
        if number < self.from {
            return None;
        }
        let place = (number - self.from) as usize;
        if place >= self.found.len() {
            return None;
        }
        self.found[place].take()
    }
}
