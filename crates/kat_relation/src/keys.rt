//! The keys at which conjuncts say their claims.
ghost use Rattle.std.specs.Prelude.{◌≡◌, map, slice_get};
ghost use Rattle.kat_design.specs.Designs.{component_form, design_form};
ghost use Rattle.kat_relation.specs.Keys.{component_key, conjunct_key, field_key, first_sort, leaves_key, query_key};
ghost use Rattle.kat_type.specs.Types.{query_form, type_form};

use crate::relations::{Conjunct, LeafRef};
use kat_design::{Component, Design, key_sort};
use kat_num::Sort;
use kat_type::{Field, Param, Query, SeqType};

/// The sort of the keys at which a conjunct says its claim, if it is one on what is kept by key.
pub fn conjunct_key(ty: &SeqType, design: &Design, conjunct: &Conjunct) -> Option<Sort>
    ensures { result ≡ conjunct_key (type_form ty.now) (design_form design.now).components conjunct.now }
{
    let components = design.components.as_slice();
    match conjunct {
        Conjunct::Query(query) => query_key(ty.queries.as_slice(), *query),
        Conjunct::Equal { field, .. } => field_key(ty.fields.as_slice(), *field),
        Conjunct::Bounded { leaves, .. } => leaves_key(components, leaves.as_slice()),
        Conjunct::AtLeast { leaf, .. } => component_key(components, leaf.component),
        Conjunct::Matched { first, .. } => component_key(components, first.component),
        Conjunct::Total(component) => component_key(components, *component),
    }
}

/// The sort of a table's keys.
pub(crate) fn field_key(fields: &[Field], place: u32) -> Option<Sort>
    ensures { result ≡ field_key (slice_get fields.now place) }
{
    match fields.get(place as usize) {
        None => None,
        Some(Field::Plain { .. }) => None,
        Some(Field::Keyed { key, .. }) => Some(*key),
    }
}

/// The sort of a component's keys.
pub(crate) fn component_key(components: &[Component], place: u32) -> Option<Sort>
    ensures { result ≡ component_key (slice_get (map component_form components.now) place) }
{
    match components.get(place as usize) {
        None => None,
        Some(component) => key_sort(component),
    }
}

/// The sort of the first parameter.
fn first_sort(params: &[Param]) -> Option<Sort>
    ensures { result ≡ first_sort params.now }
{
    match params {
        [] => None,
        [param, ..] => Some(param.sort),
    }
}

/// The sort of a query's key.
fn query_key(queries: &[Query], place: u32) -> Option<Sort>
    ensures { result ≡ query_key (slice_get (map query_form queries.now) place) }
{
    match queries.get(place as usize) {
        None => None,
        Some(query) => first_sort(query.params.as_slice()),
    }
}

/// The sort of the keys of the component of the first leaf.
fn leaves_key(components: &[Component], leaves: &[LeafRef]) -> Option<Sort>
    ensures { result ≡ leaves_key (map component_form components.now) leaves.now }
{
    match leaves {
        [] => None,
        [leaf, ..] => component_key(components, leaf.component),
    }
}
