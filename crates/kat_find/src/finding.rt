//! The first guess for the whole type, and then its parts.
ghost use Rattle.std.specs.Prelude.{◌≡◌, ◌≤◌, [], IfOk, IfSome};
ghost use Rattle.kat_by_hand.specs.Answers.{IsAcceptedText, IsAnswer};
ghost use Rattle.kat_design.specs.Designs.{design_form};
ghost use Rattle.kat_design.specs.Faults.{faults_of};
ghost use Rattle.kat_design_json.specs.Signatures.{IsSignature};
ghost use Rattle.kat_type.specs.Fits.{IsWellSorted};
ghost use Rattle.kat_type.specs.Signatures.{signature_of};
ghost use Rattle.kat_type.specs.Types.{type_form};
ghost use Rattle.kat_type.specs.Within.{IsWithinLimits};

use crate::helping::{Help, help_for, together};
use crate::report::{
    begun, push_end, push_found, push_helped, push_part, push_refused, push_type, push_whole,
};
use crate::ruling::push_rules;
use kat_by_hand::{Answer, Proof, Related, prove_design, relate};
use kat_design::Design;
use kat_parts::{Part, Piece, extended_text, extended_type, part_type, parts_of, put_together};
use kat_trying::{Tried, guessed, judged, try_designs, try_rules};
use kat_type::SeqType;
use std::alloc::{AllocError, Global};

/// How far a search goes.
#[derive(Clone, Copy, PartialEq, Eq, Debug)]
pub struct Bounds {
    /// The leaves of the walk for each condition, 1 to 10,000.
    pub effort: u32,
    /// How many designs of the listing are tried for a part.
    pub designs: u32,
}

/// Finds a design for a type, and gives its file; otherwise a report says for each part of the type what was tried, on which history the
/// best design goes wrong, and what may help.
///
/// The first guess by rules for the whole type is tried. If that isn't proved, a design is sought for each part of the type,
/// and they are put together. For a part without one further queries are tried; if they help, the report has the type with them.
///
/// The type is one that `read_type` gives, and its signature can be written in a design file.
pub fn find_design(alloc: Global, ty: &SeqType, bounds: Bounds) -> Result<Answer, AllocError>
    requires limits { IsWithinLimits (type_form ty.now) }
    requires sorted { IsWellSorted (type_form ty.now) }
    requires signature { IsSignature (signature_of (type_form ty.now)) }
    requires effort { (1 ≤ bounds.effort) × (bounds.effort ≤ 10_000) }
    ensures answer { IfOk result (IsAnswer (type_form ty.now)) }
{
    if let Some(design) = guessed(alloc, ty, 0)? {
        if let Some(file) = proved(alloc, ty, design, bounds.effort)? {
            return Ok(Answer::File(file));
        }
    }
    let mut text = begun(alloc)?;
    let Pieces { pieces, further } = pieces_of(alloc, ty, bounds, &mut text)?;
    if let Some(design) = joined(alloc, ty, &pieces, &mut text)? {
        if let Some(file) = proved(alloc, ty, design, bounds.effort)? {
            return Ok(Answer::File(file));
        }
    }
    if !further.is_empty() && is_found_with(alloc, ty, &further, &pieces, bounds.effort)? {
        push_type(&extended_text(alloc, ty, &further)?, &mut text)?;
    }
    push_end(&mut text)?;
    Ok(Answer::Report(text))
}

/// The file of a design, if it is proved.
fn proved(
    alloc: Global,
    ty: &SeqType,
    design: Design,
    effort: u32,
) -> Result<Option<Vec<u8>>, AllocError>
    requires signature { IsSignature (signature_of (type_form ty.now)) }
    requires effort { (1 ≤ effort) × (effort ≤ 10_000) }
    requires accepted { faults_of (design_form design) ≡ [] }
    requires agrees { signature_of (type_form ty.now) ≡ design.sig }
    ensures file { IfOk result (λ found. IfSome found (λ file. IsAcceptedText (type_form ty.now) file.items)) }
{
    match prove_design(alloc, ty, design, effort)? {
        Proof::File(file) => Ok(Some(file)),
        _ => Ok(None),
    }
}

/// The parts of a type for which a design is found, and the lines of further queries that help to one for others.
#[derive(Drop)]
struct Pieces {
    pieces: Vec<Piece>,
    further: Vec<u8>,
}

/// The parts of a type for which a design is found, with the design; and what to say of each part.
fn pieces_of(
    alloc: Global,
    ty: &SeqType,
    bounds: Bounds,
    text: &mut Vec<u8>,
) -> Result<Pieces, AllocError>
    requires effort { (1 ≤ bounds.effort) × (bounds.effort ≤ 10_000) }
{
    let mut pieces = Vec::new(alloc);
    let mut further = Vec::new(alloc);
    'parts: for part in parts_of(alloc, ty)? {
        push_part(alloc, ty, &part, text)?;
        if let Some(design) = part_design(alloc, ty, &part, bounds, text, &mut further)? {
            pieces.push(Piece { part, design })?;
        }
    }
    Ok(Pieces { pieces, further })
}

/// A design for a part of a type, if one is found; and what to say of the part. Lines of further queries that help are appended.
fn part_design(
    alloc: Global,
    ty: &SeqType,
    part: &Part,
    bounds: Bounds,
    text: &mut Vec<u8>,
    further: &mut Vec<u8>,
) -> Result<Option<Design>, AllocError>
    requires effort { (1 ≤ bounds.effort) × (bounds.effort ≤ 10_000) }
{
    let Some(own) = part_type(alloc, ty, part)? else {
        push_refused(text)?;
        return Ok(None);
    };
    match try_designs(alloc, &own, bounds.effort, bounds.designs)? {
        Tried::Found(design) => {
            push_found(text)?;
            Ok(Some(design))
        }
        Tried::Nothing { guesses, report } => {
            push_rules(alloc, &own, guesses, text)?;
            text.extend_from_slice(&report)?;
            helped_design(alloc, &own, bounds.effort, text, further)
        }
    }
}

/// A design for the type of a part that is found with further queries and proved without them; otherwise the lines of queries that
/// help are appended, and said.
fn helped_design(
    alloc: Global,
    own: &SeqType,
    effort: u32,
    text: &mut Vec<u8>,
    further: &mut Vec<u8>,
) -> Result<Option<Design>, AllocError>
    requires effort { (1 ≤ effort) × (effort ≤ 10_000) }
{
    match help_for(alloc, own, effort)? {
        Help::Design(design) => Ok(Some(design)),
        Help::Lines(lines) => {
            push_helped(&lines, text)?;
            let all = together(alloc, &lines, lines.len())?;
            further.extend_from_slice(&all)?;
            Ok(None)
        }
        Help::None => Ok(None),
    }
}

/// Whether a design is proved for the whole type with further queries: of the parts' designs, and by rules for the others.
fn is_found_with(
    alloc: Global,
    ty: &SeqType,
    further: &[u8],
    pieces: &[Piece],
    effort: u32,
) -> Result<bool, AllocError>
    requires effort { (1 ≤ effort) × (effort ≤ 10_000) }
{
    let Some(whole) = extended_type(alloc, ty, further)? else {
        return Ok(false);
    };
    let mut all = Vec::new(alloc);
    'parts: for part in parts_of(alloc, &whole)? {
        match known_or_ruled(alloc, &whole, &part, pieces, effort)? {
            Some(design) => all.push(Piece { part, design })?,
            None => return Ok(false),
        }
    }
    let Some(together) = put_together(alloc, &whole, &all)? else {
        return Ok(false);
    };
    let (_, components, asks) = together.into_parts();
    match judged(alloc, &whole, components, asks)? {
        None => Ok(false),
        Some(design) => match relate(alloc, &whole, &design, effort)? {
            Related::Proved { .. } => Ok(true),
            Related::Unproved(_) => Ok(false),
        },
    }
}

/// The design of a part that has the same queries as one of these pieces, or one by rules.
fn known_or_ruled(
    alloc: Global,
    whole: &SeqType,
    part: &Part,
    pieces: &[Piece],
    effort: u32,
) -> Result<Option<Design>, AllocError>
    requires effort { (1 ≤ effort) × (effort ≤ 10_000) }
{
    for piece in pieces {
        if piece.part.queries.as_slice() == part.queries.as_slice() {
            return Ok(Some(piece.design.copy(alloc)?));
        }
    }
    match part_type(alloc, whole, part)? {
        Some(own) => try_rules(alloc, &own, effort),
        None => Ok(None),
    }
}

/// The design for the whole that is put together, if each part has one and it passes the sort check.
fn joined(
    alloc: Global,
    ty: &SeqType,
    pieces: &[Piece],
    text: &mut Vec<u8>,
) -> Result<Option<Design>, AllocError>
    ensures accepted { IfOk result (λ found. IfSome found (λ design. faults_of (design_form design) ≡ [])) }
    ensures agrees { IfOk result (λ found. IfSome found (λ design. signature_of (type_form ty.now) ≡ design.sig)) }
{
    match put_together(alloc, ty, pieces)? {
        None => Ok(None),
        Some(whole) => {
            let (_, components, asks) = whole.into_parts();
            push_whole(text)?;
            judged(alloc, ty, components, asks)
        }
    }
}
