//! Reading by forms: what a value says if it has a form, and otherwise the first place that doesn't have it.
ghost use Rattle.std.specs.Prelude.{IfErr, IfOk, List, Result, ◌≡◌, [], ◌∷◌, map, option_map, slice_get, take, unwrap_or};
ghost use Rattle.kat_design.specs.Faults.{Path, within, each_faults};
ghost use Rattle.serde_json.specs.Data.{Data};
ghost use Rattle.serde_json.specs.View.{view};
ghost use Rattle.kat_json.specs.Refused.{IsRefused, IsSaid};
ghost use Rattle.kat_json.specs.declared.errors.WireError.{WireError};
ghost use Rattle.kat_json.specs.declared.errors.WireError.TheVariants.{Form as BadForm};
ghost use Rattle.kat_json.specs.FormFaults.{part_faults, optional_faults, past_faults, list_of_faults, effect_faults, pair_faults, keyed_faults, faults_unless, sort_faults, key_sort_faults, key_faults, value_faults, leaf_faults, number_faults, index_faults, literal_faults, multiplier_faults, any_value_faults};
ghost use Rattle.kat_json.specs.Parts.{part_said, list_said, effect_said, pair_said, key_said, sort_said, key_sort_said, value_said, leaf_said, number_said, index_said, literal_said, multiplier_said};

use crate::errors::WireError;
use crate::values::elements;
use crate::words;
use kat_design::Leaf;
use kat_num::{Items, Sort, Value as Constant};
use serde_json::Value;
use std::alloc::{AllocError, Global};
use std::marker::PhantomData;

/// A form of value.
pub trait Form {
    /// What a value of the form says.
    type Item: Drop;

    // the places of a value that don't have the form
    ghost faults: { Data → List Path };

    // what a value says
    ghost said: { Data → Self.Item };

    /// Reads a value. The error is the first place that doesn't have the form.
    fn read(alloc: Global, value: &Value) -> Result<Self::Item, WireError>
        ensures said { IfOk result (IsSaid (faults (view value.now)) (said (view value.now))) }
        ensures refused { IfErr result (IsRefused (faults (view value.now))) };
}

/// A fault at the very place.
pub fn here(alloc: Global) -> WireError
    ensures { result ≡ BadForm [] }
{
    WireError::Form(Items::from_vec(Vec::new(alloc)))
}

/// What was read at an index of a list: the place of a fault there begins with the index. A list that is too long for its index counts as
/// out of memory.
pub fn within<T: Drop>(
    alloc: Global,
    index: usize,
    read: Result<T, WireError>,
) -> Result<T, WireError>
    ensures ok { IfOk result (λ item. read ≡ Result.Ok item) }
    ensures err { (faults : List Path) → IfErr read (IsRefused faults) → IfErr result (IsRefused (within index faults)) }
{
    match read {
        Ok(item) => Ok(item),
        Err(WireError::Form(place)) => Err(behind(alloc, index, place)),
        Err(error) => Err(error),
    }
}

/// The fault at a place with one more index before it.
fn behind(alloc: Global, index: usize, place: Items<u32>) -> WireError
    ensures { (faults : List Path) → IsRefused faults (BadForm place) → IsRefused (within index faults) result }
{
    match longer(alloc, index, place) {
        Ok(place) => WireError::Form(place),
        Err(_) => WireError::Memory,
    }
}

/// The place with one more index before it.
fn longer(_alloc: Global, index: usize, place: Items<u32>) -> Result<Items<u32>, AllocError>
    ensures { IfOk result (λ longer. longer ≡ index ∷ place) }
{
    let index = narrow(index)?;
    let mut indices = place.into_vec();
    indices.insert(0, index)?;
    Ok(Items::from_vec(indices))
}

/// The index in 32 bits.
fn narrow(index: usize) -> Result<u32, AllocError>
    ensures { IfOk result (λ narrow. narrow ≡ index) }
{
    match u32::try_from(index) {
        Ok(narrow) => Ok(narrow),
        Err(_) => Err(AllocError),
    }
}

/// The part of a list at a place. One that is missing is a fault at its own place.
pub fn part<F: Form>(alloc: Global, parts: &[Value], place: usize) -> Result<F::Item, WireError>
    ensures said { IfOk result (IsSaid (part_faults F.faults place (map view parts.now)) (part_said F.said place (map view parts.now))) }
    ensures refused { IfErr result (IsRefused (part_faults F.faults place (map view parts.now))) }
{
    match parts.get(place) {
        Some(value) => within(alloc, place, F::read(alloc, value)),
        None => within(alloc, place, Err(here(alloc))),
    }
}

/// The part of a list at a place, if there is one.
pub fn optional<F: Form>(
    alloc: Global,
    parts: &[Value],
    place: usize,
) -> Result<Option<F::Item>, WireError>
    ensures said { IfOk result (IsSaid (optional_faults F.faults place (map view parts.now))
        (option_map F.said (slice_get (map view parts.now) place))) }
    ensures refused { IfErr result (IsRefused (optional_faults F.faults place (map view parts.now))) }
{
    match parts.get(place) {
        Some(value) => {
            let item = within(alloc, place, F::read(alloc, value))?;
            Ok(Some(item))
        }
        None => Ok(None),
    }
}

/// Refuses whatever comes after the last part of a list. The first value past it is a fault at its own place.
pub fn past(alloc: Global, parts: &[Value], count: usize) -> Result<(), WireError>
    ensures done { IfOk result (λ _. past_faults count (map view parts.now) ≡ []) }
    ensures refused { IfErr result (IsRefused (past_faults count (map view parts.now))) }
{
    if parts.len() > count {
        within(alloc, count, Err(here(alloc)))
    } else {
        Ok(())
    }
}

/// The elements of a list.
pub fn each<F: Form>(alloc: Global, values: &[Value]) -> Result<Items<F::Item>, WireError>
    ensures said { IfOk result (IsSaid (each_faults F.faults 0 (map view values.now)) (map F.said (map view values.now))) }
    ensures refused { IfErr result (IsRefused (each_faults F.faults 0 (map view values.now))) }
{
    let mut items = Vec::new(alloc);
    for i in 0..values.len() {
        let item = within(alloc, i, F::read(alloc, &values[i]))?;
        items.push(item)?;
    }
    Ok(Items::from_vec(items))
}

/// The first elements of a list, at most this many.
pub fn front(values: &[Value], limit: usize) -> &[Value]
    ensures { result.now ≡ take limit values.now }
{
    &values[..values.len().min(limit)]
}

/// A list whose elements have a form.
pub struct ListOf<F>(PhantomData<F>);

impl<F: Form> Form for ListOf<F> {
    type Item = Items<F::Item>;

    ghost faults = { list_of_faults F.Form.faults };

    ghost said = { list_said F.Form.said };

    fn read(alloc: Global, value: &Value) -> Result<Items<F::Item>, WireError> {
        match elements(value) {
            Some(values) => each::<F>(alloc, values),
            None => Err(here(alloc)),
        }
    }
}

/// An effect of a form, or none, which is written as `null`.
pub struct EffectOf<F>(PhantomData<F>);

impl<F: Form> Form for EffectOf<F> {
    type Item = Option<F::Item>;

    ghost faults = { effect_faults F.Form.faults };

    ghost said = { effect_said F.Form.said };

    fn read(alloc: Global, value: &Value) -> Result<Option<F::Item>, WireError> {
        if value.is_null() {
            return Ok(None);
        }
        let item = F::read(alloc, value)?;
        Ok(Some(item))
    }
}

/// A key, and what is given at it.
pub struct KeyedBy<F>(PhantomData<F>);

impl<F: Form> Form for KeyedBy<F> {
    type Item = (u32, F::Item);

    ghost faults = { pair_faults F.Form.faults };

    ghost said = { pair_said F.Form.said };

    fn read(alloc: Global, value: &Value) -> Result<(u32, F::Item), WireError> {
        match elements(value) {
            Some(parts) => keyed::<F>(alloc, parts),
            None => Err(here(alloc)),
        }
    }
}

/// The parts of a key and what is given at it.
fn keyed<F: Form>(alloc: Global, parts: &[Value]) -> Result<(u32, F::Item), WireError>
    ensures said { IfOk result (IsSaid (keyed_faults F.faults (map view parts.now))
        (part_said key_said 0 (map view parts.now), part_said F.said 1 (map view parts.now))) }
    ensures refused { IfErr result (IsRefused (keyed_faults F.faults (map view parts.now))) }
{
    let key = part::<Key>(alloc, parts, 0)?;
    let item = part::<F>(alloc, parts, 1)?;
    past(alloc, parts, 2)?;
    Ok((key, item))
}

/// What was found, or a fault at the very place.
pub fn found<T: Drop>(alloc: Global, found: Option<T>) -> Result<T, WireError>
    ensures some { (default : T) → IfOk result (IsSaid (faults_unless found) (unwrap_or found default)) }
    ensures none { IfErr result (IsRefused (faults_unless found)) }
{
    match found {
        Some(item) => Ok(item),
        None => Err(here(alloc)),
    }
}

/// A sort.
pub struct AnySort;

impl Form for AnySort {
    type Item = Sort;

    ghost faults = { sort_faults };

    ghost said = { sort_said };

    fn read(alloc: Global, value: &Value) -> Result<Sort, WireError> {
        found(alloc, words::sort(value))
    }
}

/// A sort that keys may have.
pub struct KeySort;

impl Form for KeySort {
    type Item = Sort;

    ghost faults = { key_sort_faults };

    ghost said = { key_sort_said };

    fn read(alloc: Global, value: &Value) -> Result<Sort, WireError> {
        found(alloc, words::key_sort(value))
    }
}

/// A key: one of four parameters.
pub struct Key;

impl Form for Key {
    type Item = u32;

    ghost faults = { key_faults };

    ghost said = { key_said };

    fn read(alloc: Global, value: &Value) -> Result<u32, WireError> {
        found(alloc, words::key(value))
    }
}

/// A start.
pub struct Start;

impl Form for Start {
    type Item = Constant;

    ghost faults = { value_faults };

    ghost said = { value_said };

    fn read(alloc: Global, value: &Value) -> Result<Constant, WireError> {
        found(alloc, words::constant(value))
    }
}

/// A leaf of an effect.
pub struct EffectLeaf;

impl Form for EffectLeaf {
    type Item = Leaf;

    ghost faults = { leaf_faults };

    ghost said = { leaf_said };

    fn read(alloc: Global, value: &Value) -> Result<Leaf, WireError> {
        found(alloc, words::leaf(value))
    }
}

/// The number of a component, a leaf or a parameter.
pub struct Number;

impl Form for Number {
    type Item = u32;

    ghost faults = { number_faults };

    ghost said = { number_said };

    fn read(alloc: Global, value: &Value) -> Result<u32, WireError> {
        found(alloc, words::number(value))
    }
}

/// An index of a relation.
pub struct Index;

impl Form for Index {
    type Item = u32;

    ghost faults = { index_faults };

    ghost said = { index_said };

    fn read(alloc: Global, value: &Value) -> Result<u32, WireError> {
        found(alloc, words::index(value))
    }
}

/// A literal of a proof.
pub struct Literal;

impl Form for Literal {
    type Item = i32;

    ghost faults = { literal_faults };

    ghost said = { literal_said };

    fn read(alloc: Global, value: &Value) -> Result<i32, WireError> {
        found(alloc, words::literal(value))
    }
}

/// A multiplier of a proof.
pub struct Multiplier;

impl Form for Multiplier {
    type Item = i64;

    ghost faults = { multiplier_faults };

    ghost said = { multiplier_said };

    fn read(alloc: Global, value: &Value) -> Result<i64, WireError> {
        found(alloc, words::multiplier(value))
    }
}

/// Any value.
pub struct AnyValue;

impl Form for AnyValue {
    type Item = ();

    ghost faults = { any_value_faults };

    ghost said = { λ d. tt };

    fn read(_alloc: Global, _value: &Value) -> Result<(), WireError> {
        Ok(())
    }
}
