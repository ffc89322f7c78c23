//! Asks, judged: the kinds of their parts, and what they read.
ghost use Rattle.std.specs.Prelude.{◌≡◌, ◌&&◌, IfOk, Some, length, map, nat_lt, not, slice_get};
ghost use Rattle.kat_design.specs.Designs.{ask_form, component_form};
ghost use Rattle.kat_design.specs.Kinds.{is_wanted, value_kind};
ghost use Rattle.kat_sort_check.specs.Places.{earlier, placed};
ghost use Rattle.kat_design.specs.Faults.{ask_faults, first_of, gives_key, here_if, is_written, kind_faults, list_faults, query_faults, read_faults, read_key_faults};

use crate::effects::key_fault;
use crate::faults::{earlier, here_if, within};
use crate::kinds::{ask_kind, like};
use crate::written::is_written;
use kat_design::{
    Ask, Component, Kind, Wanted, component_kinds, is_wanted, key_sort, sort_kind, value_kind,
};
use kat_num::{Items, Sort, Value};
use kat_type::QuerySig;
use std::alloc::{AllocError, Global};

/// The first fault of asks, one for each query.
pub(crate) fn asks_fault(
    alloc: Global,
    components: &[Component],
    asks: &[Ask],
    queries: &[QuerySig],
) -> Result<Option<Items<u32>>, AllocError>
    ensures { IfOk result (λ fault. fault ≡ first_of (list_faults (query_faults (map component_form components.now))
        (map ask_form asks.now) queries.now)) }
{
    if asks.len() != queries.len() {
        return Ok(here_if(alloc, true));
    }
    for i in 0..asks.len() {
        let fault = query_fault(alloc, components, &asks[i], &queries[i])?;
        if fault.is_some() {
            return within(alloc, i, fault);
        }
    }
    Ok(None)
}

/// The first fault of the ask of a query.
fn query_fault(
    alloc: Global,
    components: &[Component],
    ask: &Ask,
    query: &QuerySig,
) -> Result<Option<Items<u32>>, AllocError>
    ensures { IfOk result (λ fault. fault ≡ first_of (query_faults (map component_form components.now) (ask_form ask.now) query.now)) }
{
    let wanted = Wanted::Exactly(sort_kind(query.sort));
    ask_fault(alloc, components, query.sorts.as_slice(), wanted, ask)
}

/// The first fault of an ask where some kinds are expected.
#[tactic(auto, using(crate::proofs::Firsts::first_append, crate::proofs::Firsts::first_within))]
fn ask_fault(
    alloc: Global,
    components: &[Component],
    sorts: &[Sort],
    wanted: Wanted,
    ask: &Ask,
) -> Result<Option<Items<u32>>, AllocError>
    ensures { IfOk result (λ fault. fault ≡ first_of (ask_faults (map component_form components.now) sorts.now wanted (ask_form ask.now))) }
{
    match ask {
        Ask::Leaf {
            component,
            leaf,
            key,
        } => {
            let own = kind_fault(alloc, wanted, ask_kind(alloc, components, sorts, ask)?);
            let inner = read_fault(alloc, components, sorts, *component, *leaf, *key)?;
            Ok(earlier(own, inner))
        }
        Ask::Arg(place) => {
            let own = kind_fault(alloc, wanted, ask_kind(alloc, components, sorts, ask)?);
            let inner = here_if(alloc, !is_inside(*place, sorts.len()));
            Ok(earlier(own, within(alloc, 1, inner)?))
        }
        Ask::Const(value) => constant_fault(alloc, wanted, *value),
        Ask::Not(inner) => {
            let own = here_if(alloc, !is_wanted(wanted, Kind::Truth));
            let wanted = Wanted::Exactly(Kind::Truth);
            let inner = ask_fault(alloc, components, sorts, wanted, inner)?;
            Ok(earlier(own, within(alloc, 1, inner)?))
        }
        Ask::And(left, right) | Ask::Or(left, right) => {
            let own = here_if(alloc, !is_wanted(wanted, Kind::Truth));
            let wanted = Wanted::Exactly(Kind::Truth);
            let first = ask_fault(alloc, components, sorts, wanted, left)?;
            let second = ask_fault(alloc, components, sorts, wanted, right)?;
            both_faults(alloc, own, first, second)
        }
        Ask::Less(left, right) => {
            let own = here_if(alloc, !is_wanted(wanted, Kind::Truth));
            let first = ask_fault(alloc, components, sorts, Wanted::Ordered, left)?;
            let wanted = like(ask_kind(alloc, components, sorts, left)?);
            let second = ask_fault(alloc, components, sorts, wanted, right)?;
            both_faults(alloc, own, first, second)
        }
        Ask::Plus(left, right) | Ask::Minus(left, right) => {
            let own = here_if(alloc, !is_wanted(wanted, Kind::Number));
            let wanted = Wanted::Exactly(Kind::Number);
            let first = ask_fault(alloc, components, sorts, wanted, left)?;
            let second = ask_fault(alloc, components, sorts, wanted, right)?;
            both_faults(alloc, own, first, second)
        }
    }
}

/// The first fault of an ask of two parts: its own, or one inside a part.
fn both_faults(
    alloc: Global,
    own: Option<Items<u32>>,
    first: Option<Items<u32>>,
    second: Option<Items<u32>>,
) -> Result<Option<Items<u32>>, AllocError>
    ensures { IfOk result (λ fault. fault ≡ earlier own (earlier (placed 1 first) (placed 2 second))) }
{
    let first = within(alloc, 1, first)?;
    let second = within(alloc, 2, second)?;
    Ok(earlier(own, earlier(first, second)))
}

/// The fault of an ask of another kind than the expected one.
fn kind_fault(alloc: Global, wanted: Wanted, kind: Option<Kind>) -> Option<Items<u32>>
    ensures { result ≡ first_of (kind_faults wanted kind) }
{
    match kind {
        None => None,
        Some(kind) => here_if(alloc, !is_wanted(wanted, kind)),
    }
}

/// The fault of a constant.
fn constant_fault(
    alloc: Global,
    wanted: Wanted,
    value: Value,
) -> Result<Option<Items<u32>>, AllocError>
    ensures { IfOk result (λ fault. fault ≡ first_of (here_if (not (is_wanted wanted (value_kind value) && is_written value)))) }
{
    let fits = is_wanted(wanted, value_kind(value)) && is_written(alloc, value)?;
    Ok(here_if(alloc, !fits))
}

/// The first fault of a leaf that is read, apart from its kind.
fn read_fault(
    alloc: Global,
    components: &[Component],
    sorts: &[Sort],
    component: u32,
    leaf: u32,
    key: Option<u32>,
) -> Result<Option<Items<u32>>, AllocError>
    ensures { IfOk result (λ fault. fault ≡ first_of (read_faults
        (slice_get (map component_form components.now) component) leaf key sorts.now)) }
{
    match components.get(component as usize) {
        None => within(alloc, 1, here_if(alloc, true)),
        Some(component) => component_read_fault(alloc, component, sorts, leaf, key),
    }
}

/// The same, of a component that there is: a key is given if it has keys, and the leaf and the key are right.
#[tactic(auto, using(crate::proofs::Firsts::first_append, crate::proofs::Firsts::first_within))]
fn component_read_fault(
    alloc: Global,
    component: &Component,
    sorts: &[Sort],
    leaf: u32,
    key: Option<u32>,
) -> Result<Option<Items<u32>>, AllocError>
    ensures { IfOk result (λ fault. fault ≡ first_of (read_faults (Some (component_form component.now)) leaf key sorts.now)) }
{
    let keys = key_sort(component);
    let kinds = component_kinds(alloc, component)?;
    let own = here_if(alloc, !gives_key(keys, key));
    let first = within(alloc, 2, leaf_place_fault(alloc, leaf, &kinds))?;
    let second = within(alloc, 3, read_key_fault(alloc, keys, key, sorts))?;
    Ok(earlier(earlier(own, first), second))
}

/// The fault of a leaf that isn't there.
fn leaf_place_fault(alloc: Global, leaf: u32, kinds: &[Kind]) -> Option<Items<u32>>
    ensures { result ≡ first_of (here_if (not (nat_lt leaf (length kinds.now)))) }
{
    here_if(alloc, !is_inside(leaf, kinds.len()))
}

/// Whether a key is given if and only if there are keys.
fn gives_key(keys: Option<Sort>, key: Option<u32>) -> bool
    ensures { result ≡ gives_key keys key }
{
    match (keys, key) {
        (None, None) => true,
        (Some(_), Some(_)) => true,
        _ => false,
    }
}

/// The fault of a key that is given if there are keys.
fn read_key_fault(
    alloc: Global,
    keys: Option<Sort>,
    key: Option<u32>,
    sorts: &[Sort],
) -> Option<Items<u32>>
    ensures { result ≡ first_of (read_key_faults keys key sorts.now) }
{
    match (keys, key) {
        (Some(sort), Some(place)) => key_fault(alloc, sort, sorts, place),
        _ => None,
    }
}

/// Whether a list of this length has a place.
fn is_inside(place: u32, length: usize) -> bool
    ensures { result ≡ nat_lt place length }
{
    (place as usize) < length
}
