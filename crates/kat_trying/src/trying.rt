//! Trying one design.
ghost use Rattle.std.specs.Prelude.{◌≡◌, ◌≤◌, []};
ghost use Rattle.kat_design.specs.Designs.{design_form};
ghost use Rattle.kat_design.specs.Faults.{faults_of};
ghost use Rattle.kat_type.specs.Fits.{IsWellSorted};
ghost use Rattle.kat_type.specs.Signatures.{signature_of};
ghost use Rattle.kat_type.specs.Types.{type_form};
ghost use Rattle.kat_type.specs.Within.{IsWithinLimits};

use crate::long_runs::{differs_at_any, first_refuting, long_runs};
use crate::notes::Notes;
use crate::report::{difference_text, open_text};
use kat_by_hand::{Blocked, Related, relate};
use kat_design::Design;
use kat_hist::Trials;
use kat_sort_check::accepted_designs_are_well_sorted;
use kat_type::SeqType;
use std::alloc::{AllocError, Global};

/// A design, if no history refutes it and it is proved; otherwise it is noted.
///
/// The design passes the sort check, and its signature is the type's, whose histories these are.
pub(crate) fn proved(
    alloc: Global,
    ty: &SeqType,
    design: Design,
    effort: u32,
    trials: &mut Trials<'_>,
    notes: &mut Notes,
) -> Result<Option<Design>, AllocError>
    requires limits { IsWithinLimits (type_form ty.now) }
    requires sorted { IsWellSorted (type_form ty.now) }
    requires effort { (1 ≤ effort) × (effort ≤ 10_000) }
    requires accepted { faults_of (design_form design) ≡ [] }
    requires agrees { signature_of (type_form ty.now) ≡ design.sig }
    requires of_type { trials.old ≡ ty.now }
    ensures of_type { trials.new ≡ ty.now }
{
    notes.tried = notes.tried.saturating_add(1);
    if is_refuted(alloc, ty, &design, trials, notes)? {
        return Ok(None);
    }
    if is_refuted_late(alloc, ty, &design, notes)? {
        return Ok(None);
    }
    match relate(alloc, ty, &design, effort)? {
        Related::Proved { .. } => Ok(Some(design)),
        Related::Unproved(blocked) => {
            note_open(alloc, ty, &design, &blocked, notes)?;
            Ok(None)
        }
    }
}

/// Whether a longer history refutes a design, which is noted then. The longer histories are made once they are needed.
fn is_refuted_late(
    alloc: Global,
    ty: &SeqType,
    design: &Design,
    notes: &mut Notes,
) -> Result<bool, AllocError>
    requires limits { IsWithinLimits (type_form ty.now) }
    requires accepted { faults_of (design_form design.now) ≡ [] }
{
    if notes.long.is_none() {
        notes.long = Some(long_runs(alloc, ty)?);
    }
    let place = match &notes.long {
        Some(runs) => first_refuting(alloc, design, runs)?,
        None => None,
    };
    match place {
        Some(place) => {
            notes.cite_long(place)?;
            Ok(true)
        }
        None => Ok(false),
    }
}

/// Whether one of the longer histories that refuted designs before refutes this one, which is noted then.
fn is_cited_late(alloc: Global, design: &Design, notes: &mut Notes) -> Result<bool, AllocError>
    requires accepted { faults_of (design_form design.now) ≡ [] }
{
    let differs = match &notes.long {
        Some(runs) => differs_at_any(alloc, design, runs, &notes.cited_long)?,
        None => false,
    };
    if differs {
        notes.count_late();
    }
    Ok(differs)
}

/// Whether a history refutes a design, which is noted then.
fn is_refuted(
    alloc: Global,
    ty: &SeqType,
    design: &Design,
    trials: &mut Trials<'_>,
    notes: &mut Notes,
) -> Result<bool, AllocError>
    requires sorted { IsWellSorted (type_form ty.now) }
    requires accepted { faults_of (design_form design.now) ≡ [] }
    requires agrees { design.now.sig ≡ signature_of (type_form trials.old) }
    ensures same { trials.new ≡ trials.old }
{
    if is_cited(alloc, design, &notes.cited, trials)? {
        return Ok(true);
    }
    if is_cited_late(alloc, design, notes)? {
        return Ok(true);
    }
    match first_difference(alloc, design, trials)? {
        None => Ok(false),
        Some(number) => {
            note_difference(alloc, ty, design, number, trials, notes)?;
            Ok(true)
        }
    }
}

/// Whether one of the histories with these numbers refutes a design.
fn is_cited(
    alloc: Global,
    design: &Design,
    cited: &[u64],
    trials: &mut Trials<'_>,
) -> Result<bool, AllocError>
    requires accepted { faults_of (design_form design.now) ≡ [] }
    requires agrees { design.now.sig ≡ signature_of (type_form trials.old) }
    ensures same { trials.new ≡ trials.old }
{
    'citing: for number in cited {
        if differs_on(alloc, design, *number, trials)? {
            return Ok(true);
        }
    }
    Ok(false)
}

/// Whether the history with a number refutes a design; if there is no such history, none does.
fn differs_on(
    alloc: Global,
    design: &Design,
    number: u64,
    trials: &mut Trials<'_>,
) -> Result<bool, AllocError>
    requires accepted { faults_of (design_form design.now) ≡ [] }
    requires agrees { design.now.sig ≡ signature_of (type_form trials.old) }
    ensures same { trials.new ≡ trials.old }
{
    accepted_designs_are_well_sorted();
    if number >= trials.len() {
        return Ok(false);
    }
    trials.differs(alloc, design, number)
}

/// The number of the first history that refutes a design.
fn first_difference(
    alloc: Global,
    design: &Design,
    trials: &mut Trials<'_>,
) -> Result<Option<u64>, AllocError>
    requires accepted { faults_of (design_form design.now) ≡ [] }
    requires agrees { design.now.sig ≡ signature_of (type_form trials.old) }
    ensures same { trials.new ≡ trials.old }
{
    accepted_designs_are_well_sorted();
    trials.first_difference(alloc, design)
}

/// Notes a design that the history with a number refutes.
fn note_difference(
    alloc: Global,
    ty: &SeqType,
    design: &Design,
    number: u64,
    trials: &Trials<'_>,
    notes: &mut Notes,
) -> Result<(), AllocError>
    requires sorted { IsWellSorted (type_form ty.now) }
    requires accepted { faults_of (design_form design.now) ≡ [] }
{
    notes.cited.push(number)?;
    // the histories ascend by their operations
    let is_best = notes.best.is_empty() || notes.furthest < number;
    if is_best && number < trials.len() {
        let history = trials.history(alloc, number)?;
        let text = difference_text(alloc, ty, design, &history)?;
        notes.furthest = number;
        notes.best = text;
    }
    Ok(())
}

/// Notes a design that no history refutes, and that isn't proved, for what is in the way.
fn note_open(
    alloc: Global,
    ty: &SeqType,
    design: &Design,
    blocked: &Blocked,
    notes: &mut Notes,
) -> Result<(), AllocError>
    requires accepted { faults_of (design_form design.now) ≡ [] }
{
    notes.count_open();
    if notes.unproved.is_empty() {
        notes.unproved = open_text(alloc, ty, design, blocked)?;
    }
    Ok(())
}
