//! Proofs of a design file: lists of lines.
ghost use Rattle.std.specs.Prelude.{IfErr, IfOk, Some, map};
ghost use Rattle.kat_refute.specs.Lines.{Line, lines_of, line_of};
ghost use Rattle.serde_json.specs.View.{view};
ghost use Rattle.kat_json.specs.FormFaults.{part_faults};
ghost use Rattle.kat_wire.specs.Words.{line_words};
ghost use Rattle.kat_wire.specs.FileFaults.{proof_faults, lines_faults, line_faults, line_parts_faults};
ghost use Rattle.kat_json.specs.Parts.{part_said};
ghost use Rattle.kat_wire.specs.FileParts.{proof_said, lines_said, line_said, line_parts_said};
ghost use Rattle.kat_json.specs.Refused.{IsRefused, IsSaid};
ghost use Rattle.kat_design.specs.Faults.{each_faults};
ghost use Rattle.kat_wire.specs.declared.tags.LineTag.TheVariants.{Hinted, Propagated, Linear};

use crate::tags::LineTag;
use crate::words::line_tag;
use kat_json::WireError;
use kat_json::forms::{Index, ListOf, Literal, Multiplier, here, part, past, within};
use kat_json::seen::{EachOf, SeenForm, seen_part};
use kat_json::values::{elements, tag};
use kat_num::Items;
use kat_refute::ProofLine;
use serde_json::Value;
use std::alloc::Global;

/// A line of a file of a version.
#[derive(Drop)]
pub(crate) struct AnyLine {
    pub(crate) version: u8,
}

impl SeenForm for AnyLine {
    type Item = ProofLine;

    ghost Said = { Line };

    ghost faults = { λ any. line_faults (line_words any.version) };

    ghost said = { λ any. line_said (line_words any.version) };

    ghost seen = { line_of };

    fn read(&self, alloc: Global, value: &Value) -> Result<ProofLine, WireError> {
        line(alloc, self.version, value)
    }
}

/// The part of a list at a place, as a proof: lists of lines.
pub(crate) fn proof_part(
    alloc: Global,
    version: u8,
    parts: &[Value],
    place: usize,
) -> Result<Items<Items<ProofLine>>, WireError>
    ensures said { IfOk result (λ proof. IsSaid (part_faults (proof_faults (line_words version)) place (map view parts.now))
        (part_said (proof_said (line_words version)) place (map view parts.now)) (map lines_of proof)) }
    ensures refused { IfErr result (IsRefused (part_faults (proof_faults (line_words version)) place (map view parts.now))) }
{
    let lines = EachOf {
        element: AnyLine { version },
    };
    seen_part(alloc, &EachOf { element: lines }, parts, place)
}

/// A line: its word and its parts.
fn line(alloc: Global, version: u8, value: &Value) -> Result<ProofLine, WireError>
    ensures said { IfOk result (λ line. IsSaid (line_faults (line_words version) (view value.now))
        (line_said (line_words version) (view value.now)) (line_of line)) }
    ensures refused { IfErr result (IsRefused (line_faults (line_words version) (view value.now))) }
{
    let Some(parts) = elements(value) else {
        return Err(here(alloc));
    };
    match line_tag(version, tag(parts)) {
        None => within(alloc, 0, Err(here(alloc))),
        Some(LineTag::Propagated) => propagated(alloc, parts),
        Some(LineTag::Hinted) => hinted(alloc, parts),
        Some(LineTag::Linear) => linear(alloc, parts),
    }
}

/// A line by propagation. With another number of parts it is a fault as a whole.
fn propagated(alloc: Global, parts: &[Value]) -> Result<ProofLine, WireError>
    ensures said { IfOk result (λ line. IsSaid (line_parts_faults (Some Propagated) (map view parts.now))
        (line_parts_said (Some Propagated) (map view parts.now)) (line_of line)) }
    ensures refused { IfErr result (IsRefused (line_parts_faults (Some Propagated) (map view parts.now))) }
{
    if parts.len() != 2 {
        return Err(here(alloc));
    }
    let literals = part::<ListOf<Literal>>(alloc, parts, 1)?;
    Ok(ProofLine::Rup(literals.into_vec()))
}

/// A line by propagation with hints. With another number of parts it is a fault as a whole.
fn hinted(alloc: Global, parts: &[Value]) -> Result<ProofLine, WireError>
    ensures said { IfOk result (λ line. IsSaid (line_parts_faults (Some Hinted) (map view parts.now))
        (line_parts_said (Some Hinted) (map view parts.now)) (line_of line)) }
    ensures refused { IfErr result (IsRefused (line_parts_faults (Some Hinted) (map view parts.now))) }
{
    if parts.len() != 3 {
        return Err(here(alloc));
    }
    let literals = part::<ListOf<Literal>>(alloc, parts, 1)?;
    let hints = part::<ListOf<Index>>(alloc, parts, 2)?;
    Ok(ProofLine::Hinted {
        lits: literals.into_vec(),
        hints: hints.into_vec(),
    })
}

/// A line by linear arithmetic.
fn linear(alloc: Global, parts: &[Value]) -> Result<ProofLine, WireError>
    ensures said { IfOk result (λ line. IsSaid (line_parts_faults (Some Linear) (map view parts.now))
        (line_parts_said (Some Linear) (map view parts.now)) (line_of line)) }
    ensures refused { IfErr result (IsRefused (line_parts_faults (Some Linear) (map view parts.now))) }
{
    let literals = part::<ListOf<Literal>>(alloc, parts, 1)?;
    let multipliers = part::<ListOf<Multiplier>>(alloc, parts, 2)?;
    past(alloc, parts, 3)?;
    Ok(ProofLine::Linear {
        lits: literals.into_vec(),
        multipliers: multipliers.into_vec(),
    })
}
