//! The lines of the replicas in one row of a picture in text.
ghost use Rattle.std.specs.Prelude.{◌≡◌, ◌+◌, ◌==◌, ◌++◌, replicate, if◌then◌else◌, OnOk};
ghost use Rattle.kat_picture.specs.Plain.{begins, blanks, cell, cells, gap_text, goes_left, goes_right, line_byte, mark_byte};

use crate::pictures::EventKind;
use std::alloc::{AllocError, Global};

/// Appends the lines of this many replicas in the row of an event at one of them.
pub(crate) fn push_cells(
    alloc: Global,
    gap: usize,
    kind: EventKind,
    at: u32,
    replicas: u32,
    into: &mut Vec<u8>,
) -> Result<(), AllocError>
    ensures { OnOk result (into.new.items ≡ into.old.items ++ cells gap kind at replicas) }
{
    for number in 0..replicas {
        push_cell(alloc, gap, kind, at, number + 1, into)?;
    }
    Ok(())
}

fn push_cell(
    alloc: Global,
    gap: usize,
    kind: EventKind,
    at: u32,
    lane: u32,
    into: &mut Vec<u8>,
) -> Result<(), AllocError>
    ensures { OnOk result (into.new.items ≡ into.old.items ++ cell gap kind at lane) }
{
    into.push(line_byte(kind, at, lane))?;
    push_gap(alloc, gap, kind, at, lane, into)
}

/// What the line of a replica shows.
fn line_byte(kind: EventKind, at: u32, lane: u32) -> u8
    ensures { result ≡ line_byte kind at lane }
{
    if lane == at {
        mark_byte(kind)
    } else if begins(kind, lane) {
        b'+'
    } else {
        b'|'
    }
}

fn mark_byte(kind: EventKind) -> u8
    ensures { result ≡ mark_byte kind }
{
    match kind {
        EventKind::Does => b'*',
        EventKind::Asks => b'?',
        EventKind::Shows => b'=',
        EventKind::Ships { lost: true } => b'x',
        EventKind::Ships { lost: false } | EventKind::Delivers { .. } => b'o',
    }
}

/// Whether the arrow of an event begins at the line of a replica.
fn begins(kind: EventKind, lane: u32) -> bool
    ensures { result ≡ begins kind lane }
{
    match kind {
        EventKind::Delivers { replica: from, .. } => lane == from,
        _ => false,
    }
}

/// Whether the arrow goes from this line to the next one on the right.
fn goes_right(kind: EventKind, to: u32, lane: u32) -> bool
    ensures { result ≡ goes_right kind to lane }
{
    match kind {
        EventKind::Delivers { replica: from, .. } => from <= lane && lane < to,
        _ => false,
    }
}

/// Whether the arrow comes to this line from the next one on the right.
fn goes_left(kind: EventKind, to: u32, lane: u32) -> bool
    ensures { result ≡ goes_left kind to lane }
{
    match kind {
        EventKind::Delivers { replica: from, .. } => to <= lane && lane < from,
        _ => false,
    }
}

/// Appends the columns after a line.
fn push_gap(
    alloc: Global,
    gap: usize,
    kind: EventKind,
    at: u32,
    lane: u32,
    into: &mut Vec<u8>,
) -> Result<(), AllocError>
    ensures { OnOk result (into.new.items ≡ into.old.items ++ gap_text gap kind at lane) }
{
    if goes_right(kind, at, lane) {
        push_many(alloc, b'-', gap.saturating_sub(1), into)?;
        into.push(right_tip(at, lane))?;
        return Ok(());
    }
    if goes_left(kind, at, lane) {
        into.push(if lane == at { b'<' } else { b'-' })?;
        return push_many(alloc, b'-', gap.saturating_sub(1), into);
    }
    push_many(alloc, b' ', gap, into)
}

/// The tip of an arrow if the next line is the receiver's, else more of it.
fn right_tip(at: u32, lane: u32) -> u8
    ensures { result ≡ (if lane + 1 == at then 62 else 45) }
{
    if u64::from(lane) + 1 == u64::from(at) {
        b'>'
    } else {
        b'-'
    }
}

/// Appends this many blanks.
pub(crate) fn push_blanks(alloc: Global, count: usize, into: &mut Vec<u8>) -> Result<(), AllocError>
    ensures { OnOk result (into.new.items ≡ into.old.items ++ blanks count) }
{
    push_many(alloc, b' ', count, into)
}

fn push_many(alloc: Global, byte: u8, count: usize, into: &mut Vec<u8>) -> Result<(), AllocError>
    ensures { OnOk result (into.new.items ≡ into.old.items ++ replicate count byte) }
{
    into.extend_from_slice(&vec![in alloc; byte; count]?)
}
