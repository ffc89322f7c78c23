//! The signature of a design file.
ghost use Rattle.kat_design_json.specs.DesignFaults.{signature_faults, signature_parts_faults, item_name, few_items_faults, items_faults, operation_faults, operation_parts_faults, query_faults, query_parts_faults, name_faults, name_in, sorts_faults, few_sorts_faults};
ghost use Rattle.kat_design_json.specs.DesignParts.{signature_said, signature_parts_said, operation_said, operation_parts_said, query_said, query_parts_said};
ghost use Rattle.std.specs.Prelude.{IfErr, IfOk, map, ◌≡◌, ℕ, List, refl, unwrap_or};
ghost use Rattle.serde_json.specs.View.{view};
ghost use Rattle.kat_json.specs.Refused.{IsRefused, IsSaid};
ghost use Rattle.kat_type.specs.declared.signatures.OpSig.{OpSig};
ghost use Rattle.kat_design.specs.Faults.{Path};
ghost use Rattle.serde_json.specs.Data.{Data};
ghost use Rattle.kat_json.specs.FormFaults.{part_faults};
ghost use Rattle.kat_json.specs.Parts.{list_said, part_said, sort_said};
ghost use Rattle.kat_type.specs.Names.{is_among};
ghost use Rattle.kat_json.specs.Words.{word_of};

use kat_json::forms::{AnySort, Form, each, front, here, part, past, within};
use kat_json::values::elements;
use kat_json::{WireError, words};
use kat_num::{Items, Sort};
use kat_type::{OpSig, QuerySig, Signature};
use serde_json::Value;
use std::alloc::{AllocError, Global};

/// The greatest number of operations, and of queries.
const ITEM_LIMIT: usize = 12;

/// The greatest number of sorts of an operation or a query.
const SORT_LIMIT: usize = 4;

/// A signature: operations and queries.
pub struct FileSignature;

impl Form for FileSignature {
    type Item = Signature;

    ghost faults = { signature_faults };

    ghost said = { signature_said };

    fn read(alloc: Global, value: &Value) -> Result<Signature, WireError> {
        match elements(value) {
            Some(parts) => signature(alloc, parts),
            None => Err(here(alloc)),
        }
    }
}

fn signature(alloc: Global, parts: &[Value]) -> Result<Signature, WireError>
    ensures said { IfOk result (λ sig. IsSaid (signature_parts_faults (map view parts.now))
        (signature_parts_said (map view parts.now)) sig) }
    ensures refused { IfErr result (IsRefused (signature_parts_faults (map view parts.now))) }
{
    let ops = items_part::<Operation>(alloc, parts, 0, Vec::new(alloc))?;
    let used = names(alloc, ops.as_slice())?;
    let queries = items_part::<Query>(alloc, parts, 1, used)?;
    past(alloc, parts, 2)?;
    Ok(Signature { ops, queries })
}

/// The names of the operations.
fn names(alloc: Global, ops: &[OpSig]) -> Result<Vec<u128>, AllocError>
    ensures { IfOk result (λ names. names.items ≡ map (λ (op : OpSig). op.name) ops.now) }
{
    let mut names = Vec::with_capacity(alloc, ops.len())?;
    for op in ops {
        names.push(op.name)?;
    }
    Ok(names)
}

/// An operation or a query: what has a name that none before it has.
trait Named {
    type Item: Drop;

    // the places of a value that don't have the form, given the names that were used before
    ghost faults: { List ℕ → Data → List Path };

    // what a value says
    ghost said: { Data → Self.Item };

    ghost name: { Self.Item → ℕ };

    fn read(alloc: Global, value: &Value, used: &[u128]) -> Result<Self::Item, WireError>
        ensures said { IfOk result (IsSaid (faults used.now (view value.now)) (said (view value.now))) }
        ensures refused { IfErr result (IsRefused (faults used.now (view value.now))) };

    fn name(item: &Self::Item) -> u128
        ensures { result ≡ name item.now };

    // the name is the one that is said
    ghost is_name: { (d : Data) → name (said d) ≡ item_name d };
}

/// The part of a list at a place, as operations or queries.
fn items_part<N: Named>(
    alloc: Global,
    parts: &[Value],
    place: usize,
    used: Vec<u128>,
) -> Result<Items<N::Item>, WireError>
    ensures said { IfOk result (IsSaid (part_faults (few_items_faults N.faults used.items) place (map view parts.now))
        (part_said (list_said N.said) place (map view parts.now))) }
    ensures refused { IfErr result (IsRefused (part_faults (few_items_faults N.faults used.items) place (map view parts.now))) }
{
    match parts.get(place) {
        Some(value) => within(alloc, place, few_items::<N>(alloc, value, used)),
        None => within(alloc, place, Err(here(alloc))),
    }
}

/// A list of operations or queries, as many as there may be.
fn few_items<N: Named>(
    alloc: Global,
    value: &Value,
    used: Vec<u128>,
) -> Result<Items<N::Item>, WireError>
    ensures said { IfOk result (IsSaid (few_items_faults N.faults used.items (view value.now)) (list_said N.said (view value.now))) }
    ensures refused { IfErr result (IsRefused (few_items_faults N.faults used.items (view value.now))) }
{
    let Some(values) = elements(value) else {
        return Err(here(alloc));
    };
    let items = items::<N>(alloc, front(values, ITEM_LIMIT), used)?;
    past(alloc, values, ITEM_LIMIT)?;
    Ok(items)
}

/// Operations or queries one after the other, given the names that were used before.
fn items<N: Named>(
    alloc: Global,
    values: &[Value],
    mut used: Vec<u128>,
) -> Result<Items<N::Item>, WireError>
    ensures said { IfOk result (IsSaid (items_faults N.faults used.items 0 (map view values.now)) (map N.said (map view values.now))) }
    ensures refused { IfErr result (IsRefused (items_faults N.faults used.items 0 (map view values.now))) }
{
    let mut items = Vec::new(alloc);
    for i in 0..values.len() {
        let item = within(alloc, i, N::read(alloc, &values[i], &used))?;
        used.push(N::name(&item))?;
        items.push(item)?;
    }
    Ok(Items::from_vec(items))
}

struct Operation;

impl Named for Operation {
    type Item = OpSig;

    ghost faults = { operation_faults };

    ghost said = { operation_said };

    ghost name = { λ op. op.name };

    fn read(alloc: Global, value: &Value, used: &[u128]) -> Result<OpSig, WireError> {
        match elements(value) {
            Some(parts) => operation_of_parts(alloc, parts, used),
            None => Err(here(alloc)),
        }
    }

    fn name(item: &OpSig) -> u128 {
        item.name
    }

    ghost is_name = { λ d. refl };
}

fn operation_of_parts(alloc: Global, parts: &[Value], used: &[u128]) -> Result<OpSig, WireError>
    ensures said { IfOk result (λ op. IsSaid (operation_parts_faults used.now (map view parts.now))
        (operation_parts_said (map view parts.now)) op) }
    ensures refused { IfErr result (IsRefused (operation_parts_faults used.now (map view parts.now))) }
{
    let name = name_part(alloc, parts, used)?;
    let sorts = part::<Sorts>(alloc, parts, 1)?;
    past(alloc, parts, 2)?;
    Ok(OpSig { name, sorts })
}

struct Query;

impl Named for Query {
    type Item = QuerySig;

    ghost faults = { query_faults };

    ghost said = { query_said };

    ghost name = { λ query. query.name };

    fn read(alloc: Global, value: &Value, used: &[u128]) -> Result<QuerySig, WireError> {
        match elements(value) {
            Some(parts) => query_of_parts(alloc, parts, used),
            None => Err(here(alloc)),
        }
    }

    fn name(item: &QuerySig) -> u128 {
        item.name
    }

    ghost is_name = { λ d. refl };
}

fn query_of_parts(alloc: Global, parts: &[Value], used: &[u128]) -> Result<QuerySig, WireError>
    ensures said { IfOk result (λ query. IsSaid (query_parts_faults used.now (map view parts.now))
        (query_parts_said (map view parts.now)) query) }
    ensures refused { IfErr result (IsRefused (query_parts_faults used.now (map view parts.now))) }
{
    let name = name_part(alloc, parts, used)?;
    let sorts = part::<Sorts>(alloc, parts, 1)?;
    let sort = part::<AnySort>(alloc, parts, 2)?;
    past(alloc, parts, 3)?;
    Ok(QuerySig { name, sorts, sort })
}

/// The first part of a list, as a name that wasn't used before.
fn name_part(alloc: Global, parts: &[Value], used: &[u128]) -> Result<u128, WireError>
    ensures said { IfOk result (λ name. IsSaid (part_faults (name_faults used.now) 0 (map view parts.now))
        (name_in (map view parts.now)) name) }
    ensures refused { IfErr result (IsRefused (part_faults (name_faults used.now) 0 (map view parts.now))) }
{
    match parts.get(0) {
        Some(value) => within(alloc, 0, new_name(alloc, value, used)),
        None => within(alloc, 0, Err(here(alloc))),
    }
}

/// A name that wasn't used before.
fn new_name(alloc: Global, value: &Value, used: &[u128]) -> Result<u128, WireError>
    ensures said { IfOk result (λ name. IsSaid (name_faults used.now (view value.now)) (unwrap_or (word_of (view value.now)) 0) name) }
    ensures refused { IfErr result (IsRefused (name_faults used.now (view value.now))) }
{
    match words::word(value) {
        Some(name) => {
            if is_among(used, name) {
                Err(here(alloc))
            } else {
                Ok(name)
            }
        }
        None => Err(here(alloc)),
    }
}

/// Whether the name is one of those.
fn is_among(names: &[u128], name: u128) -> bool
    ensures { result ≡ is_among names.now name }
{
    names.iter().any(|other| *other == name)
}

/// The sorts of an operation or a query.
struct Sorts;

impl Form for Sorts {
    type Item = Items<Sort>;

    ghost faults = { sorts_faults };

    ghost said = { list_said sort_said };

    fn read(alloc: Global, value: &Value) -> Result<Items<Sort>, WireError> {
        match elements(value) {
            Some(values) => few_sorts(alloc, values),
            None => Err(here(alloc)),
        }
    }
}

fn few_sorts(alloc: Global, values: &[Value]) -> Result<Items<Sort>, WireError>
    ensures said { IfOk result (IsSaid (few_sorts_faults (map view values.now)) (map sort_said (map view values.now))) }
    ensures refused { IfErr result (IsRefused (few_sorts_faults (map view values.now))) }
{
    let sorts = each::<AnySort>(alloc, front(values, SORT_LIMIT))?;
    past(alloc, values, SORT_LIMIT)?;
    Ok(sorts)
}
