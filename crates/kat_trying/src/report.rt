//! What a report says. Nothing is promised of its words.
ghost use Rattle.std.specs.Prelude.{◌≡◌, []};
ghost use Rattle.kat_design.specs.Designs.{design_form};
ghost use Rattle.kat_design.specs.Faults.{faults_of};
ghost use Rattle.kat_type.specs.Fits.{IsWellSorted};
ghost use Rattle.kat_type.specs.Types.{type_form};

use crate::long_scripts::push_word;
use crate::notes::Notes;
use crate::ties::Tie;
use crate::twins::{Told, Twins};
use itoa::Buffer;
use kat_by_hand::{Blocked, push_reason};
use kat_design::Design;
use kat_design_json::design_text;
use kat_formulas::{reads_argument, reads_field};
use kat_hist::{History, script_of};
use kat_type::{Assign, Operation, Query, Rank, SeqType};
use std::alloc::{AllocError, Global};

/// Why no design is right.
#[derive(Drop)]
pub(crate) enum NoDesign {
    /// The type has two answers after one history.
    Tie(Tie),
    /// The type answers otherwise after two histories after which every design keeps the same.
    Twins(Twins),
}

/// What was tried for a type: how many guesses, and how many `designs` of the listing; one that no history refutes with what is in the
/// way of its proof, or else the one that came furthest; and what may help.
pub(crate) fn report(
    alloc: Global,
    ty: &SeqType,
    guesses: u64,
    designs: u32,
    notes: &Notes,
    none: &Option<NoDesign>,
) -> Result<Vec<u8>, AllocError> {
    let mut text = Vec::new(alloc);
    push_counts(guesses, designs, notes, &mut text)?;
    if !notes.unproved.is_empty() {
        text.extend_from_slice(
            b"One that differs on no history that was tried, but isn't proved, is\n\n",
        )?;
        text.extend_from_slice(&notes.unproved)?;
    } else if !notes.best.is_empty() {
        text.extend_from_slice(b"None of them is right. The one that came furthest is\n\n")?;
        text.extend_from_slice(&notes.best)?;
    }
    match none {
        Some(NoDesign::Tie(tie)) => push_tie(alloc, ty, tie, &mut text)?,
        Some(NoDesign::Twins(twins)) => push_twins(twins, &mut text)?,
        None => {}
    }
    Ok(text)
}

/// Appends that no design is right, with the two histories that show it.
fn push_twins(twins: &Twins, into: &mut Vec<u8>) -> Result<(), AllocError> {
    into.extend_from_slice(
        b"No design is right: after each of these two scripts every design keeps the same, and the type answers otherwise.\n\n",
    )?;
    push_told(&twins.one, into)?;
    push_told(&twins.other, into)
}

/// Appends a script, and what the type answers.
fn push_told(told: &Told, into: &mut Vec<u8>) -> Result<(), AllocError> {
    into.extend_from_slice(&told.script)?;
    into.extend_from_slice(b"\n")?;
    into.extend_from_slice(&told.answers)?;
    into.extend_from_slice(b"\n")
}

/// Of a design that a history refutes: the design, and the script that shows it.
pub(crate) fn difference_text(
    alloc: Global,
    ty: &SeqType,
    design: &Design,
    history: &History,
) -> Result<Vec<u8>, AllocError>
    requires sorted { IsWellSorted (type_form ty.now) }
    requires accepted { faults_of (design_form design.now) ≡ [] }
{
    let mut text = design_text(alloc, design)?;
    text.extend_from_slice(
        b"\n\nIt answers otherwise than the type on this script, in an order that the ranks allow:\n\n",
    )?;
    let script = script_of(alloc, ty, history)?;
    text.extend_from_slice(&script)?;
    text.extend_from_slice(b"\n")?;
    Ok(text)
}

/// Of a design that no history refutes: the design, and what is in the way of its proof.
pub(crate) fn open_text(
    alloc: Global,
    ty: &SeqType,
    design: &Design,
    blocked: &Blocked,
) -> Result<Vec<u8>, AllocError>
    requires accepted { faults_of (design_form design.now) ≡ [] }
{
    let mut text = design_text(alloc, design)?;
    text.extend_from_slice(b"\n\n")?;
    push_reason(alloc, ty, design, blocked, &mut text)?;
    push_hints(ty, blocked.query, &mut text)?;
    Ok(text)
}

/// Appends that a query has several parameters, and that operations of one time may set what it reads under equal ranks.
fn push_hints(ty: &SeqType, query: u32, into: &mut Vec<u8>) -> Result<(), AllocError> {
    let Some(query) = ty.queries.as_slice().get(query as usize) else {
        return Ok(());
    };
    if query.params.as_slice().len() > 1 {
        into.extend_from_slice(
            b"That query has several parameters. A relation says only of queries with one or none that both sides answer the same, so\nthe type has to ask with one or none what this query compares.\n",
        )?;
    }
    if ty.ops.as_slice().iter().any(|op| may_tie(op, query)) {
        into.extend_from_slice(
            b"Operations of one time may have equal ranks, and a relation doesn't say what was set by one of an equal rank: `replica`\nafter the time may help (`rank time, replica`).\n",
        )?;
    }
    Ok(())
}

/// Whether two calls of an operation at one time have equal ranks, and may set a field of a query to different values.
fn may_tie(op: &Operation, query: &Query) -> bool {
    let is_tied = has(op, Rank::Time) && !has(op, Rank::Replica);
    is_tied
        && op
            .assigns
            .as_slice()
            .iter()
            .any(|assign| sets_read(assign, query))
}

/// Whether a field that a query reads is set by arguments, and not added to or joined.
fn sets_read(assign: &Assign, query: &Query) -> bool {
    let (field, right) = match assign {
        Assign::Plain { field, right } => (*field, right),
        Assign::Keyed { field, right, .. } => (*field, right),
        Assign::Clear { .. } => return false,
    };
    let next = field.saturating_add(1);
    reads_field(&query.right, field, next)
        && reads_argument(right)
        && !reads_field(right, field, next)
}

/// Appends how many designs were tried, and whether the listing has more.
fn push_counts(
    guesses: u64,
    designs: u32,
    notes: &Notes,
    into: &mut Vec<u8>,
) -> Result<(), AllocError> {
    let listed = notes.tried.saturating_sub(guesses);
    into.extend_from_slice(b"Tried: ")?;
    push_number(guesses, into)?;
    into.extend_from_slice(b" by rules, ")?;
    push_number(listed, into)?;
    into.extend_from_slice(b" of the listing. Of these ")?;
    push_number(u64::from(notes.late), into)?;
    into.extend_from_slice(b" go wrong on longer histories, and ")?;
    push_number(u64::from(notes.open), into)?;
    into.extend_from_slice(b" on none that was tried.\n")?;
    if listed >= u64::from(designs) {
        into.extend_from_slice(b"With a greater --designs more of the listing is tried.\n")?;
    }
    Ok(())
}

/// Appends a number.
fn push_number(number: u64, into: &mut Vec<u8>) -> Result<(), AllocError> {
    into.extend_from_slice(Buffer::new().format(number).as_bytes())
}

/// Appends that the type has two answers, and what may help.
fn push_tie(alloc: Global, ty: &SeqType, tie: &Tie, into: &mut Vec<u8>) -> Result<(), AllocError> {
    into.extend_from_slice(b"The order within a rank matters: after ")?;
    for (place, done) in tie.history.ops.as_slice().iter().enumerate() {
        into.extend_from_slice(if place == 0 { b"" } else { b", " })?;
        push_operation(alloc, ty, done.op, into)?;
    }
    into.extend_from_slice(b" the query ")?;
    push_query(alloc, ty, tie.query, into)?;
    into.extend_from_slice(b" has two answers, so no design has the right one. Put `")?;
    into.extend_from_slice(if have(ty, Rank::Time) {
        b"replica"
    } else {
        b"time, replica"
    })?;
    into.extend_from_slice(b"` at the end of the ranks.\n")
}

/// Whether the ranks have an element.
fn have(ty: &SeqType, element: Rank) -> bool {
    ty.ops.as_slice().iter().any(|op| has(op, element))
}

/// Whether the rank of an operation has an element.
fn has(op: &Operation, element: Rank) -> bool {
    op.ranks.as_slice().iter().any(|rank| *rank == element)
}

/// Appends the name of an operation.
fn push_operation(
    alloc: Global,
    ty: &SeqType,
    op: u32,
    into: &mut Vec<u8>,
) -> Result<(), AllocError> {
    match ty.ops.as_slice().get(op as usize) {
        Some(op) => push_word(alloc, op.name, into),
        None => Ok(()),
    }
}

/// Appends the name of a query.
fn push_query(
    alloc: Global,
    ty: &SeqType,
    query: u32,
    into: &mut Vec<u8>,
) -> Result<(), AllocError> {
    match ty.queries.as_slice().get(query as usize) {
        Some(query) => push_word(alloc, query.name, into),
        None => Ok(()),
    }
}
