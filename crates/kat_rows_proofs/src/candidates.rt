//! Rows of candidates.
use kat_candidate::candidates;
use kat_design::Design;
use kat_relation::{Conjunct, LeafRef, Relation};
use kat_table::{Answers, RowError, push_number};
use kat_type::SeqType;
use std::alloc::{AllocError, Global};

/// The candidates of a design, in short and each with a blank after it.
pub(crate) fn candidate_answers(
    alloc: Global,
    ty: &SeqType,
    design: &Design,
) -> Result<Answers, RowError> {
    let relation = candidates(alloc, ty, design)?;
    let text = candidates_text(alloc, &relation)?;
    Ok(Answers::one(alloc, "type design", text)?)
}

/// The conjuncts of a relation, in short and each with a blank after it.
fn candidates_text(alloc: Global, relation: &Relation) -> Result<Vec<u8>, AllocError> {
    let mut text = Vec::new(alloc);
    for conjunct in relation.conjuncts.as_slice() {
        push_conjunct(&mut text, conjunct)?;
        text.push(b' ')?;
    }
    Ok(text)
}

/// Appends leaves with commas between them.
fn push_leaves(text: &mut Vec<u8>, leaves: &[LeafRef]) -> Result<(), AllocError> {
    let mut comma = "";
    for leaf in leaves {
        push_leaf(text, comma, leaf)?;
        comma = ",";
    }
    Ok(())
}

/// Appends a leaf after a text.
fn push_leaf(text: &mut Vec<u8>, before: &str, leaf: &LeafRef) -> Result<(), AllocError> {
    push_number(text, before, leaf.component)?;
    push_number(text, "", leaf.leaf)
}

/// Appends a conjunct in short.
fn push_conjunct(text: &mut Vec<u8>, conjunct: &Conjunct) -> Result<(), AllocError> {
    match conjunct {
        Conjunct::Query(query) => push_number(text, "q", *query),
        Conjunct::Equal { field, leaf } => {
            push_number(text, "e", *field)?;
            push_leaf(text, ":", leaf)
        }
        Conjunct::Bounded { leaves, position } => {
            text.push(b'k')?;
            push_leaves(text, leaves.as_slice())?;
            push_number(text, ":", *position)
        }
        Conjunct::AtLeast {
            leaf,
            position,
            digit,
        } => {
            push_leaf(text, "b", leaf)?;
            push_pair(text, *position, *digit)
        }
        Conjunct::Matched {
            first,
            position,
            second,
            later,
            digit,
        } => {
            push_leaf(text, "c", first)?;
            push_number(text, ":", *position)?;
            push_leaf(text, ",", second)?;
            push_pair(text, *later, *digit)
        }
        Conjunct::Total(component) => push_number(text, "t", *component),
    }
}

/// Appends a position and the digit there.
fn push_pair(text: &mut Vec<u8>, position: u32, digit: u32) -> Result<(), AllocError> {
    push_number(text, ":", position)?;
    push_number(text, ".", digit)
}
