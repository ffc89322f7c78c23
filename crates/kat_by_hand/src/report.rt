//! What a report says. Nothing is promised of its words.
ghost use Rattle.std.specs.Prelude.{◌≡◌, []};
ghost use Rattle.kat_design.specs.Designs.{design_form};
ghost use Rattle.kat_design.specs.Faults.{faults_of};
ghost use Rattle.kat_type.specs.Fits.{IsWellSorted};
ghost use Rattle.kat_type.specs.Signatures.{signature_of};
ghost use Rattle.kat_type.specs.Types.{type_form};
ghost use Rattle.kat_type.specs.Within.{IsWithinLimits};

use crate::proving::Proof;
use crate::relating::Blocked;
use itoa::Buffer;
use kat_candidate::{Place1, candidates};
use kat_design::Design;
use kat_hist::{History, Trials, script_of};
use kat_num::bytes_of;
use kat_relation::{Conjunct, LeafRef, Relation};
use kat_sat::Decision;
use kat_sort_check::accepted_designs_are_well_sorted;
use kat_type::SeqType;
use std::alloc::{AllocError, Global};

/// Appends a number.
fn push_number(number: u32, into: &mut Vec<u8>) -> Result<(), AllocError> {
    into.extend_from_slice(Buffer::new().format(number).as_bytes())
}

/// Appends a word by its code.
fn push_word(alloc: Global, code: u128, into: &mut Vec<u8>) -> Result<(), AllocError> {
    let bytes = bytes_of(alloc, code)?;
    into.extend_from_slice(&bytes)
}

/// The first history on which a design differs from its type.
pub(crate) fn first_difference(
    alloc: Global,
    ty: &SeqType,
    design: &Design,
) -> Result<Option<History>, AllocError>
    requires limits { IsWithinLimits (type_form ty.now) }
    requires sorted { IsWellSorted (type_form ty.now) }
    requires accepted { faults_of (design_form design.now) ≡ [] }
    requires agrees { signature_of (type_form ty.now) ≡ design.now.sig }
{
    accepted_designs_are_well_sorted();
    let mut trials = Trials::new(alloc, ty)?;
    match trials.first_difference(alloc, design)? {
        Some(number) => Ok(Some(trials.history(alloc, number)?)),
        None => Ok(None),
    }
}

/// Appends that a design differs on a history, and the script that shows it.
pub(crate) fn push_difference(
    alloc: Global,
    ty: &SeqType,
    history: &History,
    into: &mut Vec<u8>,
) -> Result<(), AllocError>
    requires sorted { IsWellSorted (type_form ty.now) }
{
    into.extend_from_slice(
        b"It answers otherwise than the type on this script, in an order that the ranks allow:\n\n",
    )?;
    let script = script_of(alloc, ty, history)?;
    into.extend_from_slice(&script)
}

/// Appends why a design that differs on no history isn't proved.
pub(crate) fn push_unproved(
    alloc: Global,
    ty: &SeqType,
    design: &Design,
    proof: &Proof,
    into: &mut Vec<u8>,
) -> Result<(), AllocError> {
    into.extend_from_slice(b"It differs on no history that was tried.\n")?;
    match proof {
        Proof::Unproved(blocked) => push_blocked(alloc, ty, design, blocked, into),
        _ => into.extend_from_slice(b"Its file would be too long.\n"),
    }
}

/// Appends which candidates for a relation were dropped, and why those that are left don't do.
fn push_blocked(
    alloc: Global,
    ty: &SeqType,
    design: &Design,
    blocked: &Blocked,
    into: &mut Vec<u8>,
) -> Result<(), AllocError> {
    let all = candidates(alloc, ty, design)?;
    for drop in &blocked.drops {
        push_drop(alloc, ty, &all, drop.at, into)?;
    }
    push_reason(alloc, ty, design, blocked, into)
}

/// Appends why no relation of a design is proved: which candidates were left out, and the query whose answers aren't proved.
pub fn push_reason(
    alloc: Global,
    ty: &SeqType,
    design: &Design,
    blocked: &Blocked,
    into: &mut Vec<u8>,
) -> Result<(), AllocError> {
    let all = candidates(alloc, ty, design)?;
    for number in &blocked.left_out {
        into.extend_from_slice(b"left out, undecided: ")?;
        push_candidate(&all, *number, into)?;
        into.extend_from_slice(b"\n")?;
    }
    match &blocked.decision {
        Decision::Point(_) => {
            into.extend_from_slice(
                b"No relation says enough: with the candidates that hold the query ",
            )?;
            push_query(alloc, ty, blocked.query, into)?;
            into.extend_from_slice(b" may be answered otherwise.\n")
        }
        decision => {
            into.extend_from_slice(b"The search gave up: the answers of ")?;
            push_query(alloc, ty, blocked.query, into)?;
            push_cause(decision, into)
        }
    }
}

/// Appends why the search gave up at a condition, and whether more effort may help.
fn push_cause(decision: &Decision, into: &mut Vec<u8>) -> Result<(), AllocError> {
    match decision {
        Decision::Rows { .. } => into.extend_from_slice(
            b", whose rows became too many. A greater --effort won't help.\n",
        ),
        Decision::Wide { .. } => into.extend_from_slice(
            b", whose numbers became too great. A greater --effort won't help.\n",
        ),
        _ => into.extend_from_slice(b". A greater --effort may help.\n"),
    }
}

/// Appends that a candidate was dropped.
fn push_drop(
    alloc: Global,
    ty: &SeqType,
    all: &Relation,
    at: Place1,
    into: &mut Vec<u8>,
) -> Result<(), AllocError> {
    into.extend_from_slice(b"dropped: ")?;
    push_place(alloc, ty, all, at, into)?;
    into.extend_from_slice(b"\n")
}

/// Appends which condition fails.
fn push_place(
    alloc: Global,
    ty: &SeqType,
    all: &Relation,
    at: Place1,
    into: &mut Vec<u8>,
) -> Result<(), AllocError> {
    match at {
        Place1::Start { conjunct } => {
            push_candidate(all, conjunct, into)?;
            into.extend_from_slice(b" at the start")
        }
        Place1::Step { op, conjunct } => {
            push_candidate(all, conjunct, into)?;
            into.extend_from_slice(b" after ")?;
            push_operation(alloc, ty, op, into)
        }
        Place1::Query(query) => {
            into.extend_from_slice(b"the answers of ")?;
            push_query(alloc, ty, query, into)
        }
    }
}

/// Appends the name of an operation.
fn push_operation(
    alloc: Global,
    ty: &SeqType,
    op: u32,
    into: &mut Vec<u8>,
) -> Result<(), AllocError> {
    match ty.ops.as_slice().get(op as usize) {
        Some(op) => push_word(alloc, op.name, into),
        None => Ok(()),
    }
}

/// Appends the name of a query.
fn push_query(
    alloc: Global,
    ty: &SeqType,
    query: u32,
    into: &mut Vec<u8>,
) -> Result<(), AllocError> {
    match ty.queries.as_slice().get(query as usize) {
        Some(query) => push_word(alloc, query.name, into),
        None => Ok(()),
    }
}

/// Appends a candidate, as a file writes it.
fn push_candidate(all: &Relation, number: u32, into: &mut Vec<u8>) -> Result<(), AllocError> {
    match all.conjuncts.as_slice().get(number as usize) {
        Some(conjunct) => push_conjunct(conjunct, into),
        None => Ok(()),
    }
}

/// Appends a conjunct, as a file writes it.
fn push_conjunct(conjunct: &Conjunct, into: &mut Vec<u8>) -> Result<(), AllocError> {
    match conjunct {
        Conjunct::Query(query) => {
            into.extend_from_slice(b"[\"q\",")?;
            push_number(*query, into)?;
        }
        Conjunct::Equal { field, leaf } => {
            into.extend_from_slice(b"[\"e\",")?;
            push_number(*field, into)?;
            push_leaf(b",", *leaf, into)?;
        }
        Conjunct::Bounded { leaves, position } => {
            into.extend_from_slice(b"[\"k\",[")?;
            push_leaves(leaves.as_slice(), into)?;
            push_behind(b"],", *position, into)?;
        }
        Conjunct::AtLeast {
            leaf,
            position,
            digit,
        } => {
            push_leaf(b"[\"b\",", *leaf, into)?;
            push_behind(b",", *position, into)?;
            push_behind(b",", *digit, into)?;
        }
        Conjunct::Matched {
            first,
            position,
            second,
            later,
            digit,
        } => {
            push_leaf(b"[\"c\",", *first, into)?;
            push_behind(b",", *position, into)?;
            push_leaf(b",", *second, into)?;
            push_behind(b",", *later, into)?;
            push_behind(b",", *digit, into)?;
        }
        Conjunct::Total(component) => push_behind(b"[\"t\",", *component, into)?,
    }
    into.extend_from_slice(b"]")
}

/// Appends a text, and then a number.
fn push_behind(text: &[u8], number: u32, into: &mut Vec<u8>) -> Result<(), AllocError> {
    into.extend_from_slice(text)?;
    push_number(number, into)
}

/// Appends a text, and then a leaf.
fn push_leaf(text: &[u8], leaf: LeafRef, into: &mut Vec<u8>) -> Result<(), AllocError> {
    into.extend_from_slice(text)?;
    push_behind(b"[", leaf.component, into)?;
    push_behind(b",", leaf.leaf, into)?;
    into.extend_from_slice(b"]")
}

/// Appends leaves with commas between.
fn push_leaves(leaves: &[LeafRef], into: &mut Vec<u8>) -> Result<(), AllocError> {
    for (place, leaf) in leaves.iter().enumerate() {
        if place > 0 {
            push_leaf(b",", *leaf, into)?;
        } else {
            push_leaf(b"", *leaf, into)?;
        }
    }
    Ok(())
}
