//! What each replica keeps.
ghost use Rattle.std.specs.Prelude.{◌≡◌, ◌++◌, OnOk, codes, map};
ghost use Rattle.kat_design.specs.Designs.{component_form};
ghost use Rattle.kat_design.specs.Kinds.{is_chain};
ghost use Rattle.kat_pseudocode.specs.Keeping.{cell_text, fixed_text, greatest_text, is_or, keeps_text, kept_text, parts_text, set_text, shape_text, start_text, starts_true, sum_words, table_text, tallies_text, tally_text, under_text, values_text};
ghost use Rattle.kat_pseudocode.specs.Phrases.{say};
ghost use Rattle.kat_pseudocode.specs.Texts.{at_key, own, sort_word};
ghost use Rattle.kat_shape.specs.Forms.{form_of};
ghost use Rattle.kat_type.specs.Types.{operation_form};

use crate::leaves::{deciding, distinct, has_value, leaf_words, push_value_name};
use crate::naming::acts;
use crate::phrases::{Phrase, say};
use crate::texts::{push_key, push_own, push_own_at, push_sort, push_tuple, value_texts};
use kat_design::Component;
use kat_num::{Sort, Value};
use kat_shape::Shape;
use kat_type::Operation;
use std::alloc::{AllocError, Global};

/// Whether no part of a shape is a pair.
pub(crate) fn is_chain(shape: &Shape) -> bool
    ensures { result ≡ is_chain (form_of shape.now) }
{
    match shape {
        Shape::Max | Shape::Name | Shape::Or => true,
        Shape::Lex(first, second) => is_chain(first) && is_chain(second),
        Shape::Pair(..) => false,
    }
}

/// Whether a shape is a truth value alone.
pub(crate) fn is_or(shape: &Shape) -> bool
    ensures { result ≡ is_or (form_of shape.now) }
{
    match shape {
        Shape::Or => true,
        Shape::Max | Shape::Name | Shape::Lex(..) | Shape::Pair(..) => false,
    }
}

/// Whether a truth value is true at first.
fn starts_true(starts: &[Value]) -> bool
    ensures { result ≡ starts_true starts.now }
{
    match starts {
        [Value::Bool(start), ..] => *start,
        _ => false,
    }
}

/// Appends how a shape joins.
fn push_shape(shape: &Shape, into: &mut Vec<u8>) -> Result<(), AllocError>
    ensures { OnOk result (into.new.items ≡ into.old.items ++ shape_text (form_of shape.now)) }
{
    match shape {
        Shape::Max | Shape::Name => into.extend_from_slice(b"max"),
        Shape::Or => into.extend_from_slice(b"or"),
        Shape::Lex(first, second) => {
            into.extend_from_slice(b"lex(")?;
            push_shape(first, into)?;
            into.extend_from_slice(b", ")?;
            push_shape(second, into)?;
            into.extend_from_slice(b")")
        }
        Shape::Pair(first, second) => {
            into.extend_from_slice(b"pair(")?;
            push_shape(first, into)?;
            into.extend_from_slice(b", ")?;
            push_shape(second, into)?;
            into.extend_from_slice(b")")
        }
    }
}

/// Appends the value that is under what decides.
#[tactic(auto, unfolding(crate::specs::Keeping::under_text))]
fn push_under(alloc: Global, words: &[u128], into: &mut Vec<u8>) -> Result<(), AllocError>
    ensures { OnOk result (into.new.items ≡ into.old.items ++ under_text words.now) }
{
    if !has_value(words) {
        return Ok(());
    }
    into.extend_from_slice(say(Phrase::WithIts))?;
    push_value_name(alloc, words, into)?;
    into.extend_from_slice(say(Phrase::OfTwoAlike))?;
    push_value_name(alloc, words, into)?;
    into.extend_from_slice(b"`")
}

/// Appends which values of a chain are kept.
fn push_greatest(alloc: Global, words: &[u128], into: &mut Vec<u8>) -> Result<(), AllocError>
    ensures { OnOk result (into.new.items ≡ into.old.items ++ greatest_text words.now) }
{
    into.extend_from_slice(say(Phrase::TheGreatest))?;
    let names = deciding(alloc, words)?;
    push_tuple(&names, into)?;
    into.extend_from_slice(b"`")?;
    push_under(alloc, words, into)
}

/// Appends which values that are joined in parts are kept.
fn push_parts(
    alloc: Global,
    shape: &Shape,
    words: &[u128],
    into: &mut Vec<u8>,
) -> Result<(), AllocError>
    ensures { OnOk result (into.new.items ≡ into.old.items ++ parts_text (form_of shape.now) words.now) }
{
    into.extend_from_slice(b"`")?;
    let names = distinct(alloc, words)?;
    push_tuple(&names, into)?;
    into.extend_from_slice(say(Phrase::JoinedBy))?;
    push_shape(shape, into)?;
    into.extend_from_slice(say(Phrase::HowPartsJoin))
}

/// Appends which values are kept that no operation touches.
fn push_fixed(alloc: Global, words: &[u128], into: &mut Vec<u8>) -> Result<(), AllocError>
    ensures { OnOk result (into.new.items ≡ into.old.items ++ fixed_text words.now) }
{
    into.extend_from_slice(b"`")?;
    let names = distinct(alloc, words)?;
    push_tuple(&names, into)?;
    into.extend_from_slice(say(Phrase::AsAtFirst))
}

/// Appends what is kept of a shape, if some operation touches it or if none does.
#[tactic(auto, unfolding(crate::specs::Keeping::kept_text))]
fn push_kept(
    alloc: Global,
    is_touched: bool,
    shape: &Shape,
    words: &[u128],
    starts: &[Value],
    into: &mut Vec<u8>,
) -> Result<(), AllocError>
    ensures { OnOk result (into.new.items ≡ into.old.items ++ kept_text is_touched (form_of shape.now) words.now starts.now) }
{
    if is_or(shape) && starts_true(starts) {
        return into.extend_from_slice(say(Phrase::AlwaysTrue));
    }
    if !is_touched {
        return push_fixed(alloc, words, into);
    }
    if is_or(shape) {
        return into.extend_from_slice(say(Phrase::OnceTrue));
    }
    if is_chain(shape) {
        return push_greatest(alloc, words, into);
    }
    push_parts(alloc, shape, words, into)
}

/// Appends what is kept at first.
fn push_starts(alloc: Global, starts: &[Value], into: &mut Vec<u8>) -> Result<(), AllocError>
    ensures { OnOk result (into.new.items ≡ into.old.items ++ start_text starts.now) }
{
    into.extend_from_slice(say(Phrase::AtFirst))?;
    let texts = value_texts(alloc, starts)?;
    push_tuple(&texts, into)?;
    into.extend_from_slice(b"`.\n")
}

/// Appends which values of a shape are kept, and what they are at first.
fn push_values(
    alloc: Global,
    is_touched: bool,
    shape: &Shape,
    words: &[u128],
    starts: &[Value],
    into: &mut Vec<u8>,
) -> Result<(), AllocError>
    ensures { OnOk result (into.new.items ≡ into.old.items ++ values_text is_touched (form_of shape.now) words.now starts.now) }
{
    push_kept(alloc, is_touched, shape, words, starts, into)?;
    push_starts(alloc, starts, into)
}

/// Appends what a sum is.
fn push_sum(into: &mut Vec<u8>) -> Result<(), AllocError>
    ensures { OnOk result (into.new.items ≡ into.old.items ++ sum_words) }
{
    into.extend_from_slice(say(Phrase::AddedBy))
}

/// Appends what a component of this name keeps.
pub fn push_keeps(
    alloc: Global,
    ops: &[Operation],
    name: &[u8],
    component: &Component,
    into: &mut Vec<u8>,
) -> Result<(), AllocError>
    ensures { OnOk result (into.new.items ≡ into.old.items ++ keeps_text (map operation_form ops.now) name.now
        (component_form component.now)) }
{
    match component {
        Component::Cell {
            shape,
            starts,
            effects,
        } => {
            let words = leaf_words(alloc, ops, component)?;
            let is_touched = acts(effects.as_slice());
            let starts = starts.as_slice();
            push_cell_keeps(alloc, name, is_touched, shape, &words, starts, into)
        }
        Component::Table {
            key,
            shape,
            starts,
            effects,
        } => {
            let words = leaf_words(alloc, ops, component)?;
            let is_touched = acts(effects.as_slice());
            let starts = starts.as_slice();
            push_table_keeps(alloc, name, *key, is_touched, shape, &words, starts, into)
        }
        Component::Set { key, .. } => push_set(name, *key, into),
        Component::Tally { .. } => push_tally(name, into),
        Component::Tallies { key, .. } => push_tallies(name, *key, into),
    }
}

/// Appends what a cell of this name keeps.
fn push_cell_keeps(
    alloc: Global,
    name: &[u8],
    is_touched: bool,
    shape: &Shape,
    words: &[u128],
    starts: &[Value],
    into: &mut Vec<u8>,
) -> Result<(), AllocError>
    ensures { OnOk result (into.new.items ≡ into.old.items ++ cell_text (own name.now)
        (values_text is_touched (form_of shape.now) words.now starts.now)) }
{
    push_cell(name, into)?;
    push_values(alloc, is_touched, shape, words, starts, into)
}

/// Appends what a table of this name keeps at each key.
fn push_table_keeps(
    alloc: Global,
    name: &[u8],
    key: Sort,
    is_touched: bool,
    shape: &Shape,
    words: &[u128],
    starts: &[Value],
    into: &mut Vec<u8>,
) -> Result<(), AllocError>
    ensures { OnOk result (into.new.items ≡ into.old.items ++ table_text (own name.now) key
        (values_text is_touched (form_of shape.now) words.now starts.now)) }
{
    push_table(name, key, into)?;
    push_values(alloc, is_touched, shape, words, starts, into)
}

/// Appends what comes before the values of a cell.
fn push_cell(name: &[u8], into: &mut Vec<u8>) -> Result<(), AllocError>
    ensures { OnOk result (into.new.items ≡ into.old.items ++ codes "- `" ++ own name.now ++ codes "`: ") }
{
    into.extend_from_slice(b"- `")?;
    push_own(name, into)?;
    into.extend_from_slice(b"`: ")
}

/// Appends what comes before the values of a table.
fn push_table(name: &[u8], key: Sort, into: &mut Vec<u8>) -> Result<(), AllocError>
    ensures { OnOk result (into.new.items ≡ into.old.items ++ codes "- `" ++ at_key (own name.now) (codes "k") ++ say Phrase.ForEvery
        ++ sort_word key ++ codes " k: ") }
{
    into.extend_from_slice(b"- `")?;
    push_own_at(name, b"k", into)?;
    into.extend_from_slice(say(Phrase::ForEvery))?;
    push_sort(key, into)?;
    into.extend_from_slice(b" k: ")
}

/// Appends what a component of this name keeps, if it is a set.
fn push_set(name: &[u8], key: Sort, into: &mut Vec<u8>) -> Result<(), AllocError>
    ensures { OnOk result (into.new.items ≡ into.old.items ++ set_text (own name.now) key) }
{
    into.extend_from_slice(b"- `")?;
    push_own(name, into)?;
    into.extend_from_slice(say(Phrase::SetOf))?;
    push_sort(key, into)?;
    into.extend_from_slice(say(Phrase::EmptyAtFirst))
}

/// Appends what a component of this name keeps, if it is a sum for each replica.
fn push_tally(name: &[u8], into: &mut Vec<u8>) -> Result<(), AllocError>
    ensures { OnOk result (into.new.items ≡ into.old.items ++ tally_text (own name.now)) }
{
    into.extend_from_slice(b"- `")?;
    push_own_at(name, b"r", into)?;
    into.extend_from_slice(say(Phrase::ForEvery))?;
    push_sum(into)
}

/// Appends what a component of this name keeps, if it is a sum for each replica at each key.
fn push_tallies(name: &[u8], key: Sort, into: &mut Vec<u8>) -> Result<(), AllocError>
    ensures { OnOk result (into.new.items ≡ into.old.items ++ tallies_text (own name.now) key) }
{
    into.extend_from_slice(b"- `")?;
    push_own_at(name, b"k", into)?;
    push_key(b"r", into)?;
    into.extend_from_slice(say(Phrase::ForEvery))?;
    push_sort(key, into)?;
    into.extend_from_slice(b" k and ")?;
    push_sum(into)
}
