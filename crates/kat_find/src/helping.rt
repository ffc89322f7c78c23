//! A design for a type with further queries, if there is none for the type as it is.
ghost use Rattle.std.specs.Prelude.{◌≡◌, ◌≤◌};
ghost use Rattle.kat_type.specs.Fits.{IsWellSorted};
ghost use Rattle.kat_type.specs.Types.{type_form};
ghost use Rattle.kat_type.specs.Within.{IsWithinLimits};

use crate::further::{Asks, lines_of};
use kat_by_hand::{Related, relate};
use kat_design::{Ask, Design};
use kat_guess::guess_count;
use kat_num::Items;
use kat_parts::extended_type;
use kat_trying::{guessed, judged, try_rules};
use kat_type::SeqType;
use std::alloc::{AllocError, Global};

/// How many queries a type has at most.
const QUERIES: usize = 12;

/// What further queries help to.
#[derive(Drop)]
pub(crate) enum Help {
    /// A design that is proved without them too.
    Design(Design),
    /// The lines of queries with which a design is proved.
    Lines(Vec<Vec<u8>>),
    None,
}

/// Kinds of further queries that are tried together, in turn.
const TURNS: [[Asks; 2]; 4] = [
    [Asks::Itself, Asks::Itself],
    [Asks::Bounds, Asks::Bounds],
    [Asks::Itself, Asks::Bounds],
    [Asks::Itself, Asks::Steps],
];

/// Tries a type with further queries. Of those with which a design is proved as few are given as suffice, and none if the design
/// is proved for the type as it is.
pub(crate) fn help_for(alloc: Global, ty: &SeqType, effort: u32) -> Result<Help, AllocError>
    requires effort { (1 ≤ effort) × (effort ≤ 10_000) }
{
    let mut before = Vec::new(alloc);
    'turns: for kinds in &TURNS {
        let lines = askable(alloc, ty, kinds)?;
        let text = together(alloc, &lines, lines.len())?;
        if text.as_slice() == before.as_slice() {
            continue 'turns;
        }
        before = text;
        if let Some(design) = helped(alloc, ty, &lines, effort)? {
            return match without(alloc, ty, &design, effort)? {
                Some(own) => Ok(Help::Design(own)),
                None => Ok(Help::Lines(fewest(alloc, ty, lines, effort)?)),
            };
        }
    }
    Ok(Help::None)
}

/// The lines of queries of two kinds that some guess can answer, as many as the type has room for.
fn askable(alloc: Global, ty: &SeqType, kinds: &[Asks; 2]) -> Result<Vec<Vec<u8>>, AllocError> {
    let [first, second] = kinds;
    let mut found = Vec::new(alloc);
    push_askable(alloc, ty, lines_of(alloc, ty, *first)?, &mut found)?;
    if *first != *second {
        push_askable(alloc, ty, lines_of(alloc, ty, *second)?, &mut found)?;
    }
    Ok(found)
}

/// Appends the lines of queries that some guess can answer.
fn push_askable(
    alloc: Global,
    ty: &SeqType,
    lines: Vec<Vec<u8>>,
    into: &mut Vec<Vec<u8>>,
) -> Result<(), AllocError> {
    let room = QUERIES.saturating_sub(ty.queries.as_slice().len());
    for line in lines {
        if into.len() < room && is_askable(alloc, ty, &line)? {
            into.push(line)?;
        }
    }
    Ok(())
}

/// Whether some guess answers a further query.
fn is_askable(alloc: Global, ty: &SeqType, line: &[u8]) -> Result<bool, AllocError> {
    let Some(more) = extended_type(alloc, ty, line)? else {
        return Ok(false);
    };
    for number in 0..guess_count(&more) {
        if guessed(alloc, &more, number)?.is_some() {
            return Ok(true);
        }
    }
    Ok(false)
}

/// The design that rules give for a type with further queries, if there are any and it is proved.
fn helped(
    alloc: Global,
    ty: &SeqType,
    lines: &[Vec<u8>],
    effort: u32,
) -> Result<Option<Design>, AllocError>
    requires effort { (1 ≤ effort) × (effort ≤ 10_000) }
{
    if lines.is_empty() {
        return Ok(None);
    }
    let text = together(alloc, lines, lines.len())?;
    match extended_type(alloc, ty, &text)? {
        Some(more) => try_rules(alloc, &more, effort),
        None => Ok(None),
    }
}

/// The lines but one as one text; all if there is none with that number.
pub(crate) fn together(
    alloc: Global,
    lines: &[Vec<u8>],
    but: usize,
) -> Result<Vec<u8>, AllocError> {
    let mut text = Vec::new(alloc);
    for (place, line) in lines.iter().enumerate() {
        if place != but {
            text.extend_from_slice(line)?;
        }
    }
    Ok(text)
}

/// The design for the type as it is, with the asks of its own queries, if it is proved.
fn without(
    alloc: Global,
    ty: &SeqType,
    design: &Design,
    effort: u32,
) -> Result<Option<Design>, AllocError>
    requires effort { (1 ≤ effort) × (effort ≤ 10_000) }
{
    let copy = design.copy(alloc)?;
    let (_, components, asks) = copy.into_parts();
    let own = first_asks(alloc, asks.as_slice(), ty.queries.as_slice().len())?;
    let Some(design) = judged(alloc, ty, components, Items::from_vec(own))? else {
        return Ok(None);
    };
    match relate(alloc, ty, &design, effort)? {
        Related::Proved { .. } => Ok(Some(design)),
        Related::Unproved(_) => Ok(None),
    }
}

/// The first asks, so many.
fn first_asks(alloc: Global, asks: &[Ask], count: usize) -> Result<Vec<Ask>, AllocError> {
    let mut first = Vec::new(alloc);
    for (place, ask) in asks.iter().enumerate() {
        if place < count {
            first.push(ask.copy(alloc)?)?;
        }
    }
    Ok(first)
}

/// The lines without those that aren't needed.
fn fewest(
    alloc: Global,
    ty: &SeqType,
    lines: Vec<Vec<u8>>,
    effort: u32,
) -> Result<Vec<Vec<u8>>, AllocError>
    requires effort { (1 ≤ effort) × (effort ≤ 10_000) }
{
    let mut left = lines;
    let mut place = 0_usize;
    'lines: for _ in 0..left.len() {
        if left.len() > 1 && is_spare(alloc, ty, &left, place, effort)? {
            left = all_but(alloc, left, place)?;
        } else {
            place = place.saturating_add(1);
        }
    }
    Ok(left)
}

/// The lines but the one at a place.
fn all_but(alloc: Global, lines: Vec<Vec<u8>>, but: usize) -> Result<Vec<Vec<u8>>, AllocError> {
    let mut others = Vec::new(alloc);
    let mut place = 0_usize;
    for line in lines {
        if place != but {
            others.push(line)?;
        }
        place = place.saturating_add(1);
    }
    Ok(others)
}

/// Whether a design is proved without the line at a place.
fn is_spare(
    alloc: Global,
    ty: &SeqType,
    lines: &[Vec<u8>],
    place: usize,
    effort: u32,
) -> Result<bool, AllocError>
    requires effort { (1 ≤ effort) × (effort ≤ 10_000) }
{
    let text = together(alloc, lines, place)?;
    match extended_type(alloc, ty, &text)? {
        Some(more) => Ok(try_rules(alloc, &more, effort)?.is_some()),
        None => Ok(false),
    }
}
