//! Ranks, and what the sentences on a relation are made of.
ghost use Rattle.std.specs.Prelude.{◌≡◌, ◌++◌, IfOk, OnOk, map, slice_get};
ghost use Rattle.kat_design.specs.Designs.{component_form};
ghost use Rattle.kat_explain.specs.Relating.{asked_text, elements_text, field_text, keys_text, rank_line, rank_text, ref_text, refs_text};
ghost use Rattle.kat_type.specs.Types.{operation_form, query_form};

use kat_num::{Items, Sort};
use kat_pseudocode::{
    Phrase, Scene, push_call, push_name, push_number, push_param, push_reference, push_sort,
    push_tuple, say,
};
use kat_relation::LeafRef;
use kat_type::{Field, Operation, Param, Query, Rank};
use std::alloc::{AllocError, Global};

/// Appends an element of a rank.
fn push_rank(
    alloc: Global,
    params: &[Param],
    rank: Rank,
    into: &mut Vec<u8>,
) -> Result<(), AllocError>
    ensures { OnOk result (into.new.items ≡ into.old.items ++ rank_text params.now rank) }
{
    match rank {
        Rank::Digit(digit) => push_number(u128::from(digit), into),
        Rank::Time => into.extend_from_slice(b"time"),
        Rank::Replica => into.extend_from_slice(b"replica"),
        Rank::Arg(place) => push_param(alloc, params, place, into),
    }
}

fn rank_texts(alloc: Global, params: &[Param], ranks: &[Rank]) -> Result<Vec<Items<u8>>, AllocError>
    ensures { IfOk result (λ texts. texts.items ≡ map (rank_text params.now) ranks.now) }
{
    let mut texts = Vec::new(alloc);
    for rank in ranks {
        let mut text = Vec::new(alloc);
        push_rank(alloc, params, *rank, &mut text)?;
        texts.push(Items::from_vec(text))?;
    }
    Ok(texts)
}

/// Appends the rank of an operation.
#[tactic(auto, unfolding(crate::specs::Relating::rank_line))]
pub(crate) fn push_rank_line(
    alloc: Global,
    op: &Operation,
    into: &mut Vec<u8>,
) -> Result<(), AllocError>
    ensures { OnOk result (into.new.items ≡ into.old.items ++ rank_line (operation_form op.now)) }
{
    let params = op.params.as_slice();
    into.extend_from_slice(b"    ")?;
    push_call(alloc, op.name, params, into)?;
    into.extend_from_slice(say(Phrase::HasRank))?;
    let texts = rank_texts(alloc, params, op.ranks.as_slice())?;
    push_tuple(&texts, into)?;
    into.extend_from_slice(b"\n")
}

/// Appends a leaf, at the key k if it has keys.
pub(crate) fn push_ref(
    alloc: Global,
    scene: &Scene<'_>,
    leaf: &LeafRef,
    into: &mut Vec<u8>,
) -> Result<(), AllocError>
    ensures { OnOk result (into.new.items ≡ into.old.items ++ ref_text (map operation_form scene.now.ops.now)
        (map component_form scene.now.components.now) scene.now.names.now leaf.now) }
{
    push_reference(alloc, scene, leaf.component, leaf.leaf, b"k", into)
}

fn ref_texts(
    alloc: Global,
    scene: &Scene<'_>,
    leaves: &[LeafRef],
) -> Result<Vec<Items<u8>>, AllocError>
    ensures { IfOk result (λ texts. texts.items ≡ map (ref_text (map operation_form scene.now.ops.now)
        (map component_form scene.now.components.now) scene.now.names.now) leaves.now) }
{
    let mut texts = Vec::new(alloc);
    for leaf in leaves {
        let mut text = Vec::new(alloc);
        push_ref(alloc, scene, leaf, &mut text)?;
        texts.push(Items::from_vec(text))?;
    }
    Ok(texts)
}

/// Appends several leaves.
pub(crate) fn push_refs(
    alloc: Global,
    scene: &Scene<'_>,
    leaves: &[LeafRef],
    into: &mut Vec<u8>,
) -> Result<(), AllocError>
    ensures { OnOk result (into.new.items ≡ into.old.items ++ refs_text (map operation_form scene.now.ops.now)
        (map component_form scene.now.components.now) scene.now.names.now leaves.now) }
{
    let texts = ref_texts(alloc, scene, leaves)?;
    push_tuple(&texts, into)
}

/// Appends the call of a query of the type.
#[tactic(auto, unfolding(crate::specs::Relating::asked_text))]
pub(crate) fn push_asked(
    alloc: Global,
    queries: &[Query],
    query: u32,
    into: &mut Vec<u8>,
) -> Result<(), AllocError>
    ensures { OnOk result (into.new.items ≡ into.old.items ++ asked_text (slice_get (map query_form queries.now) query)) }
{
    match queries.get(query as usize) {
        Some(query) => push_call(alloc, query.name, query.params.as_slice(), into),
        None => Ok(()),
    }
}

/// Appends a field of the type.
#[tactic(auto, unfolding(crate::specs::Relating::field_text))]
pub(crate) fn push_field(
    alloc: Global,
    fields: &[Field],
    field: u32,
    into: &mut Vec<u8>,
) -> Result<(), AllocError>
    ensures { OnOk result (into.new.items ≡ into.old.items ++ field_text (slice_get fields.now field)) }
{
    match fields.get(field as usize) {
        None => Ok(()),
        Some(Field::Plain { name, .. }) => push_name(alloc, *name, into),
        Some(Field::Keyed { name, .. }) => {
            push_name(alloc, *name, into)?;
            into.extend_from_slice(b"[k]")
        }
    }
}

/// Appends one element of a rank, or so many from a position on.
#[tactic(auto, unfolding(crate::specs::Relating::elements_text))]
pub(crate) fn push_elements(
    position: u32,
    leaves: &[LeafRef],
    into: &mut Vec<u8>,
) -> Result<(), AllocError>
    ensures { OnOk result (into.new.items ≡ into.old.items ++ elements_text position leaves.now) }
{
    let first = u128::from(position) + 1;
    match leaves {
        [] | [_] => {
            into.extend_from_slice(say(Phrase::OneElement))?;
            push_number(first, into)
        }
        [_, _, further @ ..] => {
            into.extend_from_slice(say(Phrase::Elements))?;
            push_number(first, into)?;
            into.extend_from_slice(b" to ")?;
            push_number(u128::from(position) + (further.len() as u128 + 2), into)
        }
    }
}

/// Appends at which keys a claim is made, and the end of a sentence.
#[tactic(auto, unfolding(crate::specs::Relating::keys_text))]
pub(crate) fn push_keys(key: Option<Sort>, into: &mut Vec<u8>) -> Result<(), AllocError>
    ensures { OnOk result (into.new.items ≡ into.old.items ++ keys_text key) }
{
    match key {
        None => into.extend_from_slice(b".\n"),
        Some(key) => {
            into.extend_from_slice(say(Phrase::AtEvery))?;
            push_sort(key, into)?;
            into.extend_from_slice(b" k.\n")
        }
    }
}
