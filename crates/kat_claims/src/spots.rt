//! What a type and a design keep: the places, with the sorts of their keys.
ghost use Rattle.std.specs.Prelude.{◌≡◌, ◌++◌, ◌∷◌, [], IfOk, map};
ghost use Rattle.kat_design.specs.Kinds.{component_kinds, key_sort};
ghost use Rattle.kat_design.specs.Designs.{component_form, design_form};
ghost use Rattle.kat_type.specs.Types.{type_form};
ghost use Rattle.kat_claims.specs.Places.{component_spots, field_spot, field_spots, is_natural, leaf_spots, places_by, same_key, spots_of};

use kat_design::{Component, Design, Kind, component_kinds, is_kind, is_sort, key_sort};
use kat_num::Sort;
use kat_symbols::Place;
use kat_type::{Field, SeqType};
use std::alloc::{AllocError, Global};

/// A place, the sort of its keys if it is kept by key, and whether what is kept there is at least 0.
#[derive(Clone, Copy, PartialEq, Eq, Debug)]
pub struct Spot {
    pub place: Place,
    pub key: Option<Sort>,
    pub natural: bool,
}

/// The number of a place in a list. A longer list is answered as out of memory.
pub(crate) fn number(place: usize) -> Result<u32, AllocError>
    ensures { IfOk result (λ n. n ≡ place) }
{
    match u32::try_from(place) {
        Ok(number) => Ok(number),
        Err(_) => Err(AllocError),
    }
}

/// Whether values of the sort are at least 0.
pub(crate) fn is_natural(sort: Sort) -> bool
    ensures { result ≡ is_natural sort }
{
    match sort {
        Sort::Bool => false,
        Sort::Int => false,
        Sort::Nat => true,
        Sort::Name => true,
    }
}

/// A field of the type.
fn field_spot(place: u32, field: &Field) -> Spot
    ensures { result ≡ field_spot place field.now }
{
    match field {
        Field::Plain { sort, .. } => Spot {
            place: Place::Field(place),
            key: None,
            natural: is_natural(*sort),
        },
        Field::Keyed { key, sort, .. } => Spot {
            place: Place::Field(place),
            key: Some(*key),
            natural: is_natural(*sort),
        },
    }
}

/// The fields of a type.
pub(crate) fn push_field_spots(fields: &[Field], into: &mut Vec<Spot>) -> Result<(), AllocError>
    ensures { IfOk result (λ u. into.new.items ≡ into.old.items ++ field_spots 0 fields.now) }
{
    for (i, field) in fields.iter().enumerate() {
        let place = number(i)?;
        into.push(field_spot(place, field))?;
    }
    Ok(())
}

/// The leaves of a component.
fn push_leaf_spots(
    component: u32,
    key: Option<Sort>,
    kinds: &[Kind],
    into: &mut Vec<Spot>,
) -> Result<(), AllocError>
    ensures { IfOk result (λ u. into.new.items ≡ into.old.items ++ leaf_spots component key 0 kinds.now) }
{
    for (i, kind) in kinds.iter().enumerate() {
        let leaf = number(i)?;
        into.push(leaf_spot(component, key, leaf, *kind))?;
    }
    Ok(())
}

/// A leaf of a component.
fn leaf_spot(component: u32, key: Option<Sort>, leaf: u32, kind: Kind) -> Spot
    ensures { leaf_spots component key leaf (kind ∷ []) ≡ result ∷ [] }
{
    Spot {
        place: Place::Leaf(component, leaf),
        key,
        natural: is_kind(kind, Kind::Name),
    }
}

/// The leaves of components.
pub(crate) fn push_component_spots(
    alloc: Global,
    components: &[Component],
    into: &mut Vec<Spot>,
) -> Result<(), AllocError>
    ensures { IfOk result (λ u. into.new.items ≡ into.old.items ++ component_spots 0 (map component_form components.now)) }
{
    for (i, component) in components.iter().enumerate() {
        let place = number(i)?;
        push_spots_of(alloc, place, component, into)?;
    }
    Ok(())
}

/// The leaves of one component.
fn push_spots_of(
    alloc: Global,
    place: u32,
    component: &Component,
    into: &mut Vec<Spot>,
) -> Result<(), AllocError>
    ensures { IfOk result (λ u. into.new.items ≡ into.old.items
        ++ leaf_spots place (key_sort (component_form component.now)) 0 (component_kinds (component_form component.now))) }
{
    let kinds = component_kinds(alloc, component)?;
    push_leaf_spots(place, key_sort(component), &kinds, into)
}

/// All fields, and then all leaves.
pub fn spots_of(alloc: Global, ty: &SeqType, design: &Design) -> Result<Vec<Spot>, AllocError>
    ensures { IfOk result (λ spots. spots.items ≡ spots_of (type_form ty.now) (design_form design.now)) }
{
    let mut spots = Vec::new(alloc);
    push_field_spots(ty.fields.as_slice(), &mut spots)?;
    push_component_spots(alloc, design.components.as_slice(), &mut spots)?;
    Ok(spots)
}

/// Whether both have no keys, or keys of one sort.
fn same_key(a: Option<Sort>, b: Option<Sort>) -> bool
    ensures { result ≡ same_key a b }
{
    match (a, b) {
        (None, None) => true,
        (None, Some(_)) => false,
        (Some(_), None) => false,
        (Some(a), Some(b)) => is_sort(a, b),
    }
}

/// The places that are kept by keys of a sort, or without a key.
pub fn places_by(alloc: Global, key: Option<Sort>, spots: &[Spot]) -> Result<Vec<Place>, AllocError>
    ensures { IfOk result (λ places. places.items ≡ places_by key spots.now) }
{
    let mut places = Vec::new(alloc);
    for spot in spots {
        if !same_key(key, spot.key) {
            continue;
        }
        places.push(spot.place)?;
    }
    Ok(places)
}
