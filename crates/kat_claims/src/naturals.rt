//! What is at least 0, by its sort: fields, arguments, the key of a claim, and leaves.
ghost use Rattle.std.specs.Prelude.{◌≡◌, ◌++◌, [], IfOk, if◌then◌else◌, map};
ghost use Rattle.kat_design.specs.Designs.{component_form, design_form};
ghost use Rattle.kat_type.specs.Types.{type_form};
ghost use Rattle.kat_claims.specs.Places.{all_natural, argument_keys, claim_keys, component_spots, field_spots, looked_at, names_at, natural_keys, natural_kept};

use crate::keys::{claim_keys, keys_of, looked_at, push_argument_keys};
use crate::spots::{Spot, is_natural, push_component_spots, push_field_spots};
use kat_design::{Component, Design};
use kat_num::Sort;
use kat_symbols::{Instance, Name, Place};
use kat_type::{Field, Param, SeqType};
use std::alloc::{AllocError, Global};

/// A place at keys.
fn push_names_at(
    place: Place,
    ats: &[Option<Instance>],
    into: &mut Vec<Name>,
) -> Result<(), AllocError>
    ensures { IfOk result (λ u. into.new.items ≡ into.old.items ++ names_at place ats.now) }
{
    for at in ats {
        into.push(Name::Kept(place, *at))?;
    }
    Ok(())
}

/// What is at least 0 of spots.
fn push_natural_kept(
    alloc: Global,
    spots: &[Spot],
    keys: &[(Sort, Instance)],
    into: &mut Vec<Name>,
) -> Result<(), AllocError>
    ensures { IfOk result (λ u. into.new.items ≡ into.old.items ++ natural_kept spots.now keys.now) }
{
    for spot in spots {
        push_if_natural(alloc, spot, keys, into)?;
    }
    Ok(())
}

/// Appends what is kept at a spot, if that is natural.
fn push_if_natural(
    alloc: Global,
    spot: &Spot,
    keys: &[(Sort, Instance)],
    into: &mut Vec<Name>,
) -> Result<(), AllocError>
    ensures { IfOk result (λ u. into.new.items ≡ into.old.items
        ++ (if spot.now.natural then names_at spot.now.place (looked_at spot.now.key keys.now) else [])) }
{
    if !spot.natural {
        return Ok(());
    }
    let ats = looked_at(alloc, spot.key, keys)?;
    push_names_at(spot.place, &ats, into)
}

/// Keys that are at least 0.
fn push_natural_keys(keys: &[(Sort, Instance)], into: &mut Vec<Name>) -> Result<(), AllocError>
    ensures { IfOk result (λ u. into.new.items ≡ into.old.items ++ natural_keys keys.now) }
{
    for key in keys {
        if !is_natural(key.0) {
            continue;
        }
        into.push(Name::Key(key.1))?;
    }
    Ok(())
}

/// The key of a claim, if it is natural.
pub fn natural_claim(alloc: Global, claim: Option<Sort>) -> Result<Vec<Name>, AllocError>
    ensures { IfOk result (λ names. names.items ≡ natural_keys (claim_keys claim)) }
{
    let mut names = Vec::new(alloc);
    let keys = claim_keys(alloc, claim)?;
    push_natural_keys(&keys, &mut names)?;
    Ok(names)
}

/// All that is at least 0: of the fields, the arguments, the key of the claim, and the leaves.
pub fn all_natural(
    alloc: Global,
    ty: &SeqType,
    design: &Design,
    claim: Option<Sort>,
    params: &[Param],
) -> Result<Vec<Name>, AllocError>
    ensures { IfOk result (λ names. names.items ≡ all_natural (type_form ty.now) (design_form design.now) claim params.now) }
{
    let keys = keys_of(alloc, claim, params)?;
    let mut names = Vec::new(alloc);
    push_natural_fields(alloc, ty.fields.as_slice(), &keys, &mut names)?;
    push_natural_arguments(alloc, params, &mut names)?;
    push_natural_keys(&claim_keys(alloc, claim)?, &mut names)?;
    push_natural_leaves(alloc, design.components.as_slice(), &keys, &mut names)?;
    Ok(names)
}

/// The fields that are at least 0.
fn push_natural_fields(
    alloc: Global,
    fields: &[Field],
    keys: &[(Sort, Instance)],
    into: &mut Vec<Name>,
) -> Result<(), AllocError>
    ensures { IfOk result (λ u. into.new.items ≡ into.old.items ++ natural_kept (field_spots 0 fields.now) keys.now) }
{
    let mut spots = Vec::new(alloc);
    push_field_spots(fields, &mut spots)?;
    push_natural_kept(alloc, &spots, keys, into)
}

/// The arguments that are at least 0.
fn push_natural_arguments(
    alloc: Global,
    params: &[Param],
    into: &mut Vec<Name>,
) -> Result<(), AllocError>
    ensures { IfOk result (λ u. into.new.items ≡ into.old.items ++ natural_keys (argument_keys 0 params.now)) }
{
    let mut keys = Vec::new(alloc);
    push_argument_keys(params, &mut keys)?;
    push_natural_keys(&keys, into)
}

/// The leaves that are at least 0.
fn push_natural_leaves(
    alloc: Global,
    components: &[Component],
    keys: &[(Sort, Instance)],
    into: &mut Vec<Name>,
) -> Result<(), AllocError>
    ensures { IfOk result (λ u. into.new.items ≡ into.old.items
        ++ natural_kept (component_spots 0 (map component_form components.now)) keys.now) }
{
    let mut spots = Vec::new(alloc);
    push_component_spots(alloc, components, &mut spots)?;
    push_natural_kept(alloc, &spots, keys, into)
}
