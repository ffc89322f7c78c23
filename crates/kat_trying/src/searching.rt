//! Guesses, and then designs of the listing.
ghost use Rattle.std.specs.Prelude.{◌≡◌, ◌≤◌};
ghost use Rattle.kat_type.specs.Fits.{IsWellSorted};
ghost use Rattle.kat_type.specs.Types.{type_form};
ghost use Rattle.kat_type.specs.Within.{IsWithinLimits};

use crate::judging::{guessed, judged};
use crate::notes::Notes;
use crate::report::{NoDesign, report};
use crate::ties::first_tie;
use crate::trying::proved;
use crate::twins::twins_of;
use kat_design::Design;
use kat_design_json::design_text;
use kat_gram::{Kinds, Listing};
use kat_guess::guess_count;
use kat_hist::Trials;
use kat_type::SeqType;
use std::alloc::{AllocError, Global};

/// What comes of trying designs for a type.
#[derive(Drop)]
pub enum Tried {
    /// A design that no history refutes, and that is proved.
    Found(Design),
    /// None is found: how many guesses were tried, and a report of what was tried.
    Nothing { guesses: u64, report: Vec<u8> },
}

/// The greatest size of designs that are listed.
const SIZE: u32 = 12;

/// The greatest size of those of all kinds of components, which are tried first.
const FIRST_SIZE: u32 = 7;

/// How many listings there are: of small designs of all kinds, of those of few kinds apart, and of all kinds again.
const LISTINGS: u32 = 6;

/// The number after which no listing goes on.
const LAST: u64 = 1_000_000;

/// Tries designs for a type: the guesses by rules, and then some `designs` of the listing, those of few kinds of components
/// apart. Each is refuted by a history, or proved with at most `effort` leaves for each condition, or left open.
///
/// The type is one that `read_type` gives.
pub fn try_designs(
    alloc: Global,
    ty: &SeqType,
    effort: u32,
    designs: u32,
) -> Result<Tried, AllocError>
    requires limits { IsWithinLimits (type_form ty.now) }
    requires sorted { IsWellSorted (type_form ty.now) }
    requires effort { (1 ≤ effort) × (effort ≤ 10_000) }
{
    let mut trials = Trials::new(alloc, ty)?;
    let mut notes = Notes::new(alloc);
    if let Some(design) = try_guesses(alloc, ty, effort, &mut trials, &mut notes)? {
        return Ok(Tried::Found(design));
    }
    let guesses = notes.tried;
    let none = reason_for_none(alloc, ty)?;
    if none.is_none() {
        if let Some(design) = try_listings(alloc, ty, effort, designs, &mut trials, &mut notes)? {
            return Ok(Tried::Found(design));
        }
    }
    let report = report(alloc, ty, guesses, designs, &notes, &none)?;
    Ok(Tried::Nothing { guesses, report })
}

/// Why no design is right, if that is known.
fn reason_for_none(alloc: Global, ty: &SeqType) -> Result<Option<NoDesign>, AllocError>
    requires limits { IsWithinLimits (type_form ty.now) }
    requires sorted { IsWellSorted (type_form ty.now) }
{
    if let Some(tie) = first_tie(alloc, ty)? {
        return Ok(Some(NoDesign::Tie(tie)));
    }
    match twins_of(alloc, ty)? {
        Some(twins) => Ok(Some(NoDesign::Twins(twins))),
        None => Ok(None),
    }
}

/// Tries the guesses by rules alone. Each is refuted by a history, or proved with at most `effort` leaves for each condition, or left.
///
/// The type is one that `read_type` gives.
pub fn try_rules(alloc: Global, ty: &SeqType, effort: u32) -> Result<Option<Design>, AllocError>
    requires limits { IsWithinLimits (type_form ty.now) }
    requires sorted { IsWellSorted (type_form ty.now) }
    requires effort { (1 ≤ effort) × (effort ≤ 10_000) }
{
    let mut trials = Trials::new(alloc, ty)?;
    let mut notes = Notes::new(alloc);
    try_guesses(alloc, ty, effort, &mut trials, &mut notes)
}

/// The first guess that is proved.
fn try_guesses(
    alloc: Global,
    ty: &SeqType,
    effort: u32,
    trials: &mut Trials<'_>,
    notes: &mut Notes,
) -> Result<Option<Design>, AllocError>
    requires limits { IsWithinLimits (type_form ty.now) }
    requires sorted { IsWellSorted (type_form ty.now) }
    requires effort { (1 ≤ effort) × (effort ≤ 10_000) }
    requires of_type { trials.old ≡ ty.now }
    ensures of_type { trials.new ≡ ty.now }
{
    'guesses: for number in 0..guess_count(ty) {
        if let Some(design) = try_guess(alloc, ty, effort, number, trials, notes)? {
            return Ok(Some(design));
        }
    }
    Ok(None)
}

/// The guess with a number, if there is one, it wasn't tried before, and it is proved.
fn try_guess(
    alloc: Global,
    ty: &SeqType,
    effort: u32,
    number: u32,
    trials: &mut Trials<'_>,
    notes: &mut Notes,
) -> Result<Option<Design>, AllocError>
    requires limits { IsWithinLimits (type_form ty.now) }
    requires sorted { IsWellSorted (type_form ty.now) }
    requires effort { (1 ≤ effort) × (effort ≤ 10_000) }
    requires of_type { trials.old ≡ ty.now }
    ensures of_type { trials.new ≡ ty.now }
{
    match guessed(alloc, ty, number)? {
        None => Ok(None),
        Some(design) => {
            if notes.is_known(design_text(alloc, &design)?)? {
                return Ok(None);
            }
            proved(alloc, ty, design, effort, trials, notes)
        }
    }
}

/// The first proved design of the listings of each set of kinds, of which each has its share.
fn try_listings(
    alloc: Global,
    ty: &SeqType,
    effort: u32,
    designs: u32,
    trials: &mut Trials<'_>,
    notes: &mut Notes,
) -> Result<Option<Design>, AllocError>
    requires limits { IsWithinLimits (type_form ty.now) }
    requires sorted { IsWellSorted (type_form ty.now) }
    requires effort { (1 ≤ effort) × (effort ≤ 10_000) }
    requires of_type { trials.old ≡ ty.now }
    ensures of_type { trials.new ≡ ty.now }
{
    let mut left = designs;
    'sets: for turn in 0..LISTINGS {
        let before = notes.tried;
        let share = share_of(left, turn);
        if let Some(design) = try_listing(alloc, ty, effort, share, turn, trials, notes)? {
            return Ok(Some(design));
        }
        let tried = notes.tried.saturating_sub(before);
        left = left.saturating_sub(u32::try_from(tried).unwrap_or(u32::MAX));
    }
    Ok(None)
}

/// How many of the designs that are left are tried of the listing of a turn: of the first half of them, and then equal shares.
fn share_of(left: u32, turn: u32) -> u32 {
    match turn {
        0 => left.saturating_sub(left / 2),
        1 => left.saturating_sub((left / 5).saturating_mul(4)),
        2 => left.saturating_sub((left / 4).saturating_mul(3)),
        3 => left.saturating_sub((left / 3).saturating_mul(2)),
        4 => left.saturating_sub(left / 2),
        _ => left,
    }
}

/// The first proved design among so many of the listing of a turn.
fn try_listing(
    alloc: Global,
    ty: &SeqType,
    effort: u32,
    designs: u32,
    turn: u32,
    trials: &mut Trials<'_>,
    notes: &mut Notes,
) -> Result<Option<Design>, AllocError>
    requires limits { IsWithinLimits (type_form ty.now) }
    requires sorted { IsWellSorted (type_form ty.now) }
    requires effort { (1 ≤ effort) × (effort ≤ 10_000) }
    requires of_type { trials.old ≡ ty.now }
    ensures of_type { trials.new ≡ ty.now }
{
    notes.open_here = 0;
    let mut listing = Listing::new(alloc, ty, size_of(turn), kinds_of(turn))?;
    try_next(alloc, ty, effort, designs, &mut listing, trials, notes)
}

/// The first proved design among so many that a listing gives next. The listing is held by the caller, so that no way out of
/// the loop here drops it.
fn try_next(
    alloc: Global,
    ty: &SeqType,
    effort: u32,
    designs: u32,
    listing: &mut Listing,
    trials: &mut Trials<'_>,
    notes: &mut Notes,
) -> Result<Option<Design>, AllocError>
    requires limits { IsWithinLimits (type_form ty.now) }
    requires sorted { IsWellSorted (type_form ty.now) }
    requires effort { (1 ≤ effort) × (effort ≤ 10_000) }
    requires of_type { trials.old ≡ ty.now }
    ensures of_type { trials.new ≡ ty.now }
{
    'designs: for _ in 0..designs {
        if notes.is_over() {
            return Ok(None);
        }
        let Some(listed) = next_of(alloc, listing)? else {
            return Ok(None);
        };
        if let Some(design) = try_listed(alloc, ty, effort, listed, trials, notes)? {
            return Ok(Some(design));
        }
    }
    Ok(None)
}

/// The kinds of components of the listing of a turn: all, then sums, sets, cells and tables alone, and all again.
fn kinds_of(turn: u32) -> Kinds {
    let all = turn == 0 || turn >= 5;
    Kinds {
        tally: all || turn == 1,
        tallies: all || turn == 1,
        set: all || turn == 2,
        cell: all || turn == 3,
        table: all || turn == 4,
    }
}

/// The greatest size of the designs of the listing of a turn.
fn size_of(turn: u32) -> u32
    ensures some { 1 ≤ result }
    ensures small { result ≤ 24 }
{
    if turn == 0 { FIRST_SIZE } else { SIZE }
}

/// The next design of a listing, unless it has given very many.
fn next_of(alloc: Global, listing: &mut Listing) -> Result<Option<Design>, AllocError> {
    if listing.count() > LAST {
        return Ok(None);
    }
    listing.next(alloc)
}

/// A listed design, if it is proved.
fn try_listed(
    alloc: Global,
    ty: &SeqType,
    effort: u32,
    listed: Design,
    trials: &mut Trials<'_>,
    notes: &mut Notes,
) -> Result<Option<Design>, AllocError>
    requires limits { IsWithinLimits (type_form ty.now) }
    requires sorted { IsWellSorted (type_form ty.now) }
    requires effort { (1 ≤ effort) × (effort ≤ 10_000) }
    requires of_type { trials.old ≡ ty.now }
    ensures of_type { trials.new ≡ ty.now }
{
    let (_, components, asks) = listed.into_parts();
    match judged(alloc, ty, components, asks)? {
        None => Ok(None),
        Some(design) => proved(alloc, ty, design, effort, trials, notes),
    }
}
