//! The search.
ghost use Rattle.std.specs.Prelude.{◌≡◌, IfOk};
ghost use Rattle.kat_gram.specs.Listings.{designs_of, to_come};
ghost use Rattle.kat_rules.specs.Listed.{IsListing};
ghost use Rattle.kat_type.specs.Fits.{IsWellSorted};
ghost use Rattle.kat_type.specs.Signatures.{signature_of};
ghost use Rattle.kat_type.specs.Types.{type_form};
ghost use Rattle.kat_type.specs.Within.{IsWithinLimits};
ghost use Rattle.kat_design_json.specs.Signatures.{IsSignature};
ghost use Rattle.kat_search.specs.NarrowVerdicts.{IsNarrowVerdict};
ghost use Rattle.kat_search.specs.Verdicts.{AreInRange, IsVerdict};
ghost use Rattle.kat_search.specs.Answers.{IsEndWith, IsStoppedWith};

use crate::findings::Findings;
use crate::options::Options;
use crate::outcome::Outcome;
use crate::trying::try_design;
use kat_gram::Listing;
use kat_hist::{Trials, push_number};
use kat_type::SeqType;
use std::alloc::{AllocError, Global};

/// Searches the listing of a type's designs for the first that is proved to answer as the type does.
///
/// The type is one that `read_type` gives, and the options are in their ranges. The designs are tried in the order of the
/// listing. One that answers otherwise than the type on a history is refuted by it. Each other one is proved, or is
/// undecided: the answer then carries the evidence. The file of the first proved design names those that were undecided
/// before it.
pub fn synth(alloc: Global, ty: &SeqType, options: &Options) -> Result<Outcome, AllocError>
    requires limits { IsWithinLimits (type_form ty.now) }
    requires sorted { IsWellSorted (type_form ty.now) }
    requires signature { IsSignature (signature_of (type_form ty.now)) }
    requires ranges { AreInRange options.now }
    ensures verdict { IfOk result (IsVerdict (type_form ty.now) options.now) }
    ensures narrow { IfOk result (IsNarrowVerdict (type_form ty.now) options.now) }
{
    let mut listing = Listing::new(alloc, ty, options.size, options.kinds)?;
    search_listing(alloc, ty, options, &mut listing)
}

/// Searches a listing of which no design was given. The listing, the trials and what is found are held by three functions, one
/// each, so that none of them drops more than one at a time.
fn search_listing(
    alloc: Global,
    ty: &SeqType,
    options: &Options,
    listing: &mut Listing,
) -> Result<Outcome, AllocError>
    requires limits { IsWithinLimits (type_form ty.now) }
    requires sorted { IsWellSorted (type_form ty.now) }
    requires signature { IsSignature (signature_of (type_form ty.now)) }
    requires ranges { AreInRange options.now }
    requires listed { IsListing (type_form ty.now) options.now.size options.now.kinds (designs_of listing.old) }
    requires first { to_come listing.old ≡ designs_of listing.old }
    ensures verdict { IfOk result (IsVerdict (type_form ty.now) options.now) }
    ensures narrow { IfOk result (IsNarrowVerdict (type_form ty.now) options.now) }
{
    let mut trials = Trials::new(alloc, ty)?;
    try_designs(alloc, ty, options, listing, &mut trials)
}

/// Tries the designs of a listing of which none was given, with nothing found yet.
fn try_designs(
    alloc: Global,
    ty: &SeqType,
    options: &Options,
    listing: &mut Listing,
    trials: &mut Trials<'_>,
) -> Result<Outcome, AllocError>
    requires sorted { IsWellSorted (type_form ty.now) }
    requires signature { IsSignature (signature_of (type_form ty.now)) }
    requires ranges { AreInRange options.now }
    requires listed { IsListing (type_form ty.now) options.now.size options.now.kinds (designs_of listing.old) }
    requires first { to_come listing.old ≡ designs_of listing.old }
    requires of_type { trials.old ≡ ty.now }
    ensures verdict { IfOk result (IsVerdict (type_form ty.now) options.now) }
    ensures narrow { IfOk result (IsNarrowVerdict (type_form ty.now) options.now) }
{
    let mut findings = Findings::new(alloc, ty)?;
    'designs: while let Some(design) = listing.next(alloc)? {
        if findings.is_over(options.designs) {
            return stopped(findings, options.size);
        }
        let number = findings.count + 1;
        if let Some(file) = try_design(alloc, ty, options.effort, design, trials, &mut findings)? {
            return Ok(Outcome::Emitted { number, file });
        }
    }
    at_end(findings, options.size)
}

/// The answer if the listing has more designs than were tried.
fn stopped(findings: Findings, size: u32) -> Result<Outcome, AllocError>
    ensures { IfOk result (IsStoppedWith findings size) }
{
    let count = findings.count;
    let mut report = findings.into_report();
    push_number(b"stopped after ", count, b" up to ", &mut report)?;
    push_number(b"", u64::from(size), b"\n", &mut report)?;
    Ok(Outcome::Stopped(report))
}

/// The answer if all designs of the listing were tried, and none is proved.
fn at_end(findings: Findings, size: u32) -> Result<Outcome, AllocError>
    ensures { IfOk result (IsEndWith findings size) }
{
    if findings.passed.is_empty() {
        let mut report = findings.into_report();
        push_number(b"none up to ", u64::from(size), b"\n", &mut report)?;
        return Ok(Outcome::NoDesign(report));
    }
    let mut report = findings.into_report();
    push_number(b"undecided up to ", u64::from(size), b"\n", &mut report)?;
    Ok(Outcome::Undecided(report))
}
