//! What a search found of the designs that were tried.
ghost use Rattle.std.specs.Prelude.{◌≡◌, ◌<◌, ◌+◌, ◌^◌, [], IfOk, OnOk, Some, length, slice_get};
ghost use Rattle.kat_design.specs.Designs.{design_form};
ghost use Rattle.kat_design.specs.Faults.{faults_of};
ghost use Rattle.kat_histories.specs.Histories.{histories};
ghost use Rattle.kat_type.specs.Fits.{IsWellSorted};
ghost use Rattle.kat_type.specs.Types.{type_form};
ghost use Rattle.kat_telling.specs.Entries.Entry.{again, newly, undecided};
ghost use Rattle.kat_search.specs.Findings.{IsEmpty, IsFor, Tells, is_over};
ghost use Rattle.kat_telling.specs.Reasons.{evidence_of};

use kat_design::Design;
use kat_drop::Drop1;
use kat_hist::History;
use kat_telling::{Reason, UNDECIDED_LIMIT, push_differs, push_history, push_undecided};
use kat_type::{SeqType, Signature, signature};
use kat_wire::Cause;
use std::alloc::{AllocError, Global};

/// What a search knows of the designs that were tried: how many they are, the histories that refuted some of them, in the
/// order in which they did, those that are undecided, and the report. A history is kept as its number among all.
pub(crate) struct Findings {
    pub(crate) sig: Signature,
    pub(crate) count: u64,
    pub(crate) cited: Vec<u64>,
    pub(crate) passed: Vec<(u64, Cause)>,
    pub(crate) report: Vec<u8>,
}

impl Drop for Findings {
    fn drop(self) {
        let Self {
            sig: _,
            count: _,
            cited: _,
            passed: _,
            report: _,
        } = self;
    }
}

impl Findings {
    /// No design of the type was tried yet.
    pub(crate) fn new(alloc: Global, ty: &SeqType) -> Result<Findings, AllocError>
        requires sorted { IsWellSorted (type_form ty.now) }
        ensures empty { IfOk result IsEmpty }
        ensures is_for { IfOk result (IsFor (type_form ty.now)) }
    {
        let sig = signature(alloc, ty)?;
        Ok(Findings {
            sig,
            count: 0,
            cited: Vec::new(alloc),
            passed: Vec::new(alloc),
            report: Vec::new(alloc),
        })
    }

    /// Whether this many designs were tried, or as many are undecided as may be.
    pub(crate) fn is_over(&self, designs: u64) -> bool
        ensures { result ≡ is_over designs self.now.count (length self.now.passed.items) }
    {
        self.count == designs || self.passed.len() == UNDECIDED_LIMIT
    }

    /// The report so far.
    pub(crate) fn into_report(self) -> Vec<u8>
        ensures { result ≡ self.report }
    {
        let Self {
            sig: _,
            count: _,
            cited: _,
            passed: _,
            report,
        } = self;
        report
    }

    /// The design is refuted by a history that was cited before.
    pub(crate) fn cite_again(
        &mut self,
        alloc: Global,
        place: usize,
        design: &Design,
    ) -> Result<(), AllocError>
        requires accepted { faults_of (design_form design.now) ≡ [] }
        requires few { self.old.count < 2 ^ 63 }
        requires cited { place + 1 < 2 ^ 64 }
        ensures { OnOk result (Tells (again (design_form design.now) place) self.old self.new) }
    {
        self.count += 1;
        push_differs(
            alloc,
            self.count,
            place as u64 + 1,
            design,
            &mut self.report,
        )?;
        Ok(())
    }

    /// The design is refuted by the history with this number among all, which wasn't cited before.
    pub(crate) fn cite_newly(
        &mut self,
        alloc: Global,
        number: u64,
        history: &History,
        design: &Design,
    ) -> Result<(), AllocError>
        requires accepted { faults_of (design_form design.now) ≡ [] }
        requires few { self.old.count < 2 ^ 63 }
        requires numbered { slice_get (histories self.old.sig) number ≡ Some history.now }
        ensures { OnOk result (Tells (newly (design_form design.now) history.now) self.old self.new) }
    {
        let cited = self.cited.len() as u64 + 1;
        self.count += 1;
        push_history(alloc, &self.sig, cited, history, &mut self.report)?;
        push_differs(alloc, self.count, cited, design, &mut self.report)?;
        self.cited.push(number)?;
        Ok(())
    }

    /// The design is undecided.
    pub(crate) fn pass_over(
        &mut self,
        alloc: Global,
        design: &Design,
        drops: &[Drop1],
        reason: &Reason,
    ) -> Result<(), AllocError>
        requires accepted { faults_of (design_form design.now) ≡ [] }
        requires few { self.old.count < 2 ^ 63 }
        ensures { OnOk result (Tells (undecided (design_form design.now) (evidence_of drops.now reason.now)) self.old self.new) }
    {
        self.count += 1;
        push_undecided(alloc, self.count, design, drops, reason, &mut self.report)?;
        self.passed.push((self.count, reason.cause()))?;
        Ok(())
    }
}
