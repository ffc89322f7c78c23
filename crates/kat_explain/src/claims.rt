//! A sentence for each conjunct of a relation.
ghost use Rattle.std.specs.Prelude.{◌≡◌, ◌++◌, IfOk, OnOk, map};
ghost use Rattle.kat_design.specs.Designs.{component_form, design_form};
ghost use Rattle.kat_explain.specs.Relating.{at_least_claim, bounded_claim, claim_text, element_claim, equal_claim, matched_claim, query_claim, ref_text, then_claim, total_claim};
ghost use Rattle.kat_type.specs.Types.{operation_form, query_form, type_form};

use crate::relating::{push_asked, push_elements, push_field, push_keys, push_ref, push_refs};
use kat_design::Design;
use kat_num::Items;
use kat_pseudocode::{Phrase, Scene, push_number, push_reference, say};
use kat_relation::{Conjunct, LeafRef, conjunct_key};
use kat_type::{Field, Query, SeqType};
use std::alloc::{AllocError, Global};

/// Appends that a query answers as the type does.
fn push_query(
    alloc: Global,
    queries: &[Query],
    query: u32,
    into: &mut Vec<u8>,
) -> Result<(), AllocError>
    ensures { OnOk result (into.new.items ≡ into.old.items ++ query_claim (map query_form queries.now) query) }
{
    into.extend_from_slice(b"- `")?;
    push_asked(alloc, queries, query, into)?;
    into.extend_from_slice(say(Phrase::AnswersAlike))
}

/// Appends that a field is a leaf.
fn push_equal(
    alloc: Global,
    fields: &[Field],
    field: u32,
    leaf: &[u8],
    into: &mut Vec<u8>,
) -> Result<(), AllocError>
    ensures { OnOk result (into.new.items ≡ into.old.items ++ equal_claim fields.now field leaf.now) }
{
    into.extend_from_slice(say(Phrase::FieldOf))?;
    push_field(alloc, fields, field, into)?;
    into.extend_from_slice(b"` is `")?;
    into.extend_from_slice(leaf)?;
    into.extend_from_slice(b"`")
}

/// Appends that leaves are at most elements of the last rank.
fn push_bounded(
    text: &[u8],
    position: u32,
    leaves: &[LeafRef],
    into: &mut Vec<u8>,
) -> Result<(), AllocError>
    ensures { OnOk result (into.new.items ≡ into.old.items ++ bounded_claim text.now position leaves.now) }
{
    into.extend_from_slice(b"- `")?;
    into.extend_from_slice(text)?;
    into.extend_from_slice(say(Phrase::IsAtMost))?;
    push_elements(position, leaves, into)?;
    into.extend_from_slice(say(Phrase::OfLastRank))
}

/// Appends that, if a leaf is true, an element of the last rank is at least a digit.
fn push_at_least(
    leaf: &[u8],
    position: u32,
    digit: u32,
    into: &mut Vec<u8>,
) -> Result<(), AllocError>
    ensures { OnOk result (into.new.items ≡ into.old.items ++ at_least_claim leaf.now position digit) }
{
    into.extend_from_slice(b"- If `")?;
    into.extend_from_slice(leaf)?;
    into.extend_from_slice(say(Phrase::HasLastRank))?;
    push_number(u128::from(position) + 1, into)?;
    into.extend_from_slice(say(Phrase::IsAtLeast))?;
    push_number(u128::from(digit), into)
}

/// Appends the same, with the condition that another leaf is an element of the last rank.
fn push_matched(
    first: &[u8],
    position: u32,
    second: &[u8],
    later: u32,
    digit: u32,
    into: &mut Vec<u8>,
) -> Result<(), AllocError>
    ensures { OnOk result (into.new.items ≡ into.old.items ++ matched_claim first.now position second.now later digit) }
{
    push_element(first, position, into)?;
    push_then(second, later, digit, into)
}

/// Appends the condition that a leaf is an element of the last rank.
fn push_element(leaf: &[u8], position: u32, into: &mut Vec<u8>) -> Result<(), AllocError>
    ensures { OnOk result (into.new.items ≡ into.old.items ++ element_claim leaf.now position) }
{
    into.extend_from_slice(b"- If `")?;
    into.extend_from_slice(leaf)?;
    into.extend_from_slice(say(Phrase::IsElement))?;
    push_number(u128::from(position) + 1, into)
}

/// Appends that, if a further leaf is true, another element is at least a digit.
fn push_then(leaf: &[u8], position: u32, digit: u32, into: &mut Vec<u8>) -> Result<(), AllocError>
    ensures { OnOk result (into.new.items ≡ into.old.items ++ then_claim leaf.now position digit) }
{
    into.extend_from_slice(say(Phrase::OfLastRankAnd))?;
    into.extend_from_slice(leaf)?;
    into.extend_from_slice(say(Phrase::ItsElement))?;
    push_number(u128::from(position) + 1, into)?;
    into.extend_from_slice(say(Phrase::IsAtLeast))?;
    push_number(u128::from(digit), into)
}

/// Appends that a sum is at least 0.
fn push_total(sum: &[u8], into: &mut Vec<u8>) -> Result<(), AllocError>
    ensures { OnOk result (into.new.items ≡ into.old.items ++ total_claim sum.now) }
{
    into.extend_from_slice(b"- `")?;
    into.extend_from_slice(sum)?;
    into.extend_from_slice(say(Phrase::IsNotBelowZero))
}

/// A leaf.
fn ref_text(alloc: Global, scene: &Scene<'_>, leaf: &LeafRef) -> Result<Vec<u8>, AllocError>
    ensures { IfOk result (λ text. text.items ≡ ref_text (map operation_form scene.now.ops.now)
        (map component_form scene.now.components.now) scene.now.names.now leaf.now) }
{
    let mut text = Vec::new(alloc);
    push_ref(alloc, scene, leaf, &mut text)?;
    Ok(text)
}

/// Appends the sentence of a conjunct.
pub(crate) fn push_claim(
    alloc: Global,
    ty: &SeqType,
    design: &Design,
    names: &[Items<u8>],
    conjunct: &Conjunct,
    into: &mut Vec<u8>,
) -> Result<(), AllocError>
    ensures { OnOk result (into.new.items ≡ into.old.items ++ claim_text (type_form ty.now)
        (design_form design.now).components names.now conjunct.now) }
{
    let scene = Scene {
        ops: ty.ops.as_slice(),
        components: design.components.as_slice(),
        names,
    };
    let key = conjunct_key(ty, design, conjunct);
    match conjunct {
        Conjunct::Query(query) => push_query(alloc, ty.queries.as_slice(), *query, into),
        Conjunct::Equal { field, leaf } => {
            let text = ref_text(alloc, &scene, leaf)?;
            push_equal(alloc, ty.fields.as_slice(), *field, &text, into)?;
            push_keys(key, into)
        }
        Conjunct::Bounded { leaves, position } => {
            let mut text = Vec::new(alloc);
            push_refs(alloc, &scene, leaves.as_slice(), &mut text)?;
            push_bounded(&text, *position, leaves.as_slice(), into)?;
            push_keys(key, into)
        }
        Conjunct::AtLeast {
            leaf,
            position,
            digit,
        } => {
            let text = ref_text(alloc, &scene, leaf)?;
            push_at_least(&text, *position, *digit, into)?;
            push_keys(key, into)
        }
        Conjunct::Matched {
            first,
            position,
            second,
            later,
            digit,
        } => {
            let first = ref_text(alloc, &scene, first)?;
            let second = ref_text(alloc, &scene, second)?;
            push_matched(&first, *position, &second, *later, *digit, into)?;
            push_keys(key, into)
        }
        Conjunct::Total(component) => {
            let mut text = Vec::new(alloc);
            push_reference(alloc, &scene, *component, 0, b"k", &mut text)?;
            push_total(&text, into)?;
            push_keys(key, into)
        }
    }
}
