//! The keys of a condition, and what it looks at there.
ghost use Rattle.std.specs.Prelude.{◌≡◌, ◌++◌, IfOk};
ghost use Rattle.kat_claims.specs.Places.{all_looked_at, argument_keys, at_each, at_key, at_sort, claim_keys, each_some, instances_of, keys_of, looked_at};

use crate::spots::{Spot, number, places_by};
use kat_design::is_sort;
use kat_num::Sort;
use kat_symbols::{Instance, Place};
use kat_type::Param;
use std::alloc::{AllocError, Global};

/// The arguments as keys.
pub(crate) fn push_argument_keys(
    params: &[Param],
    into: &mut Vec<(Sort, Instance)>,
) -> Result<(), AllocError>
    ensures { IfOk result (λ u. into.new.items ≡ into.old.items ++ argument_keys 0 params.now) }
{
    for (i, param) in params.iter().enumerate() {
        let place = number(i)?;
        into.push((param.sort, Instance::Argument(place)))?;
    }
    Ok(())
}

/// The key of a claim.
pub(crate) fn claim_keys(
    alloc: Global,
    claim: Option<Sort>,
) -> Result<Vec<(Sort, Instance)>, AllocError>
    ensures { IfOk result (λ keys. keys.items ≡ claim_keys claim) }
{
    match claim {
        None => Ok(Vec::new(alloc)),
        Some(sort) => Ok(vec![in alloc; (sort, Instance::Claim)]?),
    }
}

/// The keys of a condition: that of the claim, if it has one, and the arguments.
pub fn keys_of(
    alloc: Global,
    claim: Option<Sort>,
    params: &[Param],
) -> Result<Vec<(Sort, Instance)>, AllocError>
    ensures { IfOk result (λ keys. keys.items ≡ keys_of claim params.now) }
{
    let mut keys = claim_keys(alloc, claim)?;
    push_argument_keys(params, &mut keys)?;
    Ok(keys)
}

/// The keys of one sort.
pub fn instances_of(
    alloc: Global,
    sort: Sort,
    keys: &[(Sort, Instance)],
) -> Result<Vec<Instance>, AllocError>
    ensures { IfOk result (λ instances. instances.items ≡ instances_of sort keys.now) }
{
    let mut instances = Vec::new(alloc);
    for key in keys {
        if !is_sort(sort, key.0) {
            continue;
        }
        instances.push(key.1)?;
    }
    Ok(instances)
}

/// Each of some keys.
fn each_some(alloc: Global, instances: &[Instance]) -> Result<Vec<Option<Instance>>, AllocError>
    ensures { IfOk result (λ each. each.items ≡ each_some instances.now) }
{
    let mut each = Vec::new(alloc);
    for instance in instances {
        each.push(Some(*instance))?;
    }
    Ok(each)
}

/// Where a place is looked at: at each key of its sort, or without a key.
pub fn looked_at(
    alloc: Global,
    key: Option<Sort>,
    keys: &[(Sort, Instance)],
) -> Result<Vec<Option<Instance>>, AllocError>
    ensures { IfOk result (λ ats. ats.items ≡ looked_at key keys.now) }
{
    match key {
        None => Ok(vec![in alloc; None]?),
        Some(sort) => {
            let instances = instances_of(alloc, sort, keys)?;
            each_some(alloc, &instances)
        }
    }
}

/// Places at a key.
fn push_at_key(
    at: Option<Instance>,
    places: &[Place],
    into: &mut Vec<(Place, Option<Instance>)>,
) -> Result<(), AllocError>
    ensures { IfOk result (λ u. into.new.items ≡ into.old.items ++ at_key at places.now) }
{
    for place in places {
        into.push((*place, at))?;
    }
    Ok(())
}

/// Places at each of some keys.
fn push_at_each(
    instances: &[Instance],
    places: &[Place],
    into: &mut Vec<(Place, Option<Instance>)>,
) -> Result<(), AllocError>
    ensures { IfOk result (λ u. into.new.items ≡ into.old.items ++ at_each instances.now places.now) }
{
    for instance in instances {
        push_at_key(Some(*instance), places, into)?;
    }
    Ok(())
}

/// What is kept by keys of a sort, at each of them.
fn push_at_sort(
    alloc: Global,
    sort: Sort,
    spots: &[Spot],
    keys: &[(Sort, Instance)],
    into: &mut Vec<(Place, Option<Instance>)>,
) -> Result<(), AllocError>
    ensures { IfOk result (λ u. into.new.items ≡ into.old.items ++ at_sort sort spots.now keys.now) }
{
    let instances = instances_of(alloc, sort, keys)?;
    let places = places_by(alloc, Some(sort), spots)?;
    push_at_each(&instances, &places, into)
}

/// All that a condition looks at.
pub fn all_looked_at(
    alloc: Global,
    spots: &[Spot],
    keys: &[(Sort, Instance)],
) -> Result<Vec<(Place, Option<Instance>)>, AllocError>
    ensures { IfOk result (λ seen. seen.items ≡ all_looked_at spots.now keys.now) }
{
    let mut seen = Vec::new(alloc);
    let alone = places_by(alloc, None, spots)?;
    push_at_key(None, &alone, &mut seen)?;
    push_at_sort(alloc, Sort::Int, spots, keys, &mut seen)?;
    push_at_sort(alloc, Sort::Nat, spots, keys, &mut seen)?;
    push_at_sort(alloc, Sort::Name, spots, keys, &mut seen)?;
    Ok(seen)
}
