//! Auditing a report.
ghost use Rattle.std.specs.Prelude.{◌≡◌, ◌≢◌, ◌<◌, ◌-◌, ◌^◌, [], IfOk, Some, length};
ghost use Rattle.kat_design.specs.Designs.{design_form};
ghost use Rattle.kat_gram.specs.Listings.{IsLast, designs_of, given_of};
ghost use Rattle.kat_rules.specs.Listed.{IsListing};
ghost use Rattle.kat_type.specs.Fits.{IsWellSorted};
ghost use Rattle.kat_type.specs.Signatures.{signature_of};
ghost use Rattle.kat_type.specs.Types.{type_form};
ghost use Rattle.kat_type.specs.Within.{IsWithinLimits};
ghost use Rattle.kat_audit.specs.Audits.{AreInRange, IsAudited};
ghost use Rattle.kat_due.specs.Readings.{IsFirst};

use crate::designs::judge_design;
use crate::last::{judge_end, judge_stopped};
use crate::options::Options;
use kat_design::Design;
use kat_due::Reading;
use kat_gram::Listing;
use kat_hist::Trials;
use kat_type::{SeqType, Signature, signature};
use std::alloc::{AllocError, Global};

/// Judges the report of a search with these options.
pub fn audit(
    alloc: Global,
    ty: &SeqType,
    options: &Options,
    bytes: &[u8],
) -> Result<kat_said::Audit, AllocError>
    requires limits { IsWithinLimits (type_form ty.now) }
    requires sorted { IsWellSorted (type_form ty.now) }
    requires ranges { AreInRange options.now }
    ensures { IfOk result (IsAudited (type_form ty.now) options.now bytes.now) }
{
    let mut listing = Listing::new(alloc, ty, options.size, options.kinds)?;
    audit_listing(alloc, ty, options, &mut listing, bytes)
}

/// Judges a report over a listing of which no design was given. The listing, the trials and what is read are held by three
/// functions, so that none of them drops more than one of them at a time.
fn audit_listing(
    alloc: Global,
    ty: &SeqType,
    options: &Options,
    listing: &mut Listing,
    bytes: &[u8],
) -> Result<kat_said::Audit, AllocError>
    requires limits { IsWithinLimits (type_form ty.now) }
    requires sorted { IsWellSorted (type_form ty.now) }
    requires ranges { AreInRange options.now }
    requires listed { IsListing (type_form ty.now) options.now.size options.now.kinds (designs_of listing.old) }
    requires none { given_of listing.old ≡ [] }
    ensures { IfOk result (IsAudited (type_form ty.now) options.now bytes.now) }
{
    let mut trials = Trials::new(alloc, ty)?;
    audit_designs(alloc, ty, options, listing, &mut trials, bytes)
}

/// Judges a report by the designs of a listing of which none was given, and the trials of the type.
fn audit_designs(
    alloc: Global,
    ty: &SeqType,
    options: &Options,
    listing: &mut Listing,
    trials: &mut Trials<'_>,
    bytes: &[u8],
) -> Result<kat_said::Audit, AllocError>
    requires sorted { IsWellSorted (type_form ty.now) }
    requires ranges { AreInRange options.now }
    requires listed { IsListing (type_form ty.now) options.now.size options.now.kinds (designs_of listing.old) }
    requires none { given_of listing.old ≡ [] }
    requires of_type { trials.old ≡ ty.now }
    ensures { IfOk result (IsAudited (type_form ty.now) options.now bytes.now) }
{
    let sig = signature(alloc, ty)?;
    let mut reading = Reading::new(alloc, bytes);
    judge_report(alloc, ty, &sig, options, listing, trials, &mut reading)
}

/// Judges a report of which nothing was read yet, over a listing of which no design was given. What the search goes through is
/// held by the callers, so that each way out of the loop here drops one design and no more.
fn judge_report(
    alloc: Global,
    ty: &SeqType,
    sig: &Signature,
    options: &Options,
    listing: &mut Listing,
    trials: &mut Trials<'_>,
    reading: &mut Reading<'_>,
) -> Result<kat_said::Audit, AllocError>
    requires sorted { IsWellSorted (type_form ty.now) }
    requires sig { sig.now ≡ signature_of (type_form ty.now) }
    requires ranges { AreInRange options.now }
    requires listed { IsListing (type_form ty.now) options.now.size options.now.kinds (designs_of listing.old) }
    requires none { given_of listing.old ≡ [] }
    requires of_type { trials.old ≡ ty.now }
    requires first { IsFirst reading.old reading.old.left.now }
    requires room { length reading.old.left.now < 2 ^ 64 - 1 }
    ensures { IfOk result (IsAudited (type_form ty.now) options.now reading.old.left.now) }
{
    'designs: while listing.advance(alloc)? {
        if reading.is_over(options.designs) {
            return judge_stopped(alloc, options.size, reading);
        }
        if let Some(fault) = judge_design(
            alloc,
            ty,
            sig,
            options.effort,
            last_given(listing),
            trials,
            reading,
        )? {
            return Ok(fault);
        }
    }
    judge_end(alloc, options.size, reading)
}

/// The design that a listing gave last.
fn last_given(listing: &Listing) -> &Design
    requires { given_of listing.now ≢ [] }
    ensures { IsLast (Some (design_form result.now)) (given_of listing.now) }
{
    match listing.last() {
        Some(design) => design,
        None => unreachable!(),
    }
}
