//! Kinds of values: in a design all numbers are of one kind.
ghost use Rattle.std.specs.Prelude.{◌≡◌, [], ◌∷◌, IfOk, map, slice_get};
ghost use Rattle.kat_design.specs.Designs.{component_form};
ghost use Rattle.kat_design.specs.Faults.{is_sort};
ghost use Rattle.kat_design.specs.Kinds.{component_kinds, is_kind, is_wanted, key_sort, kinds_of, leaf_kind, sort_kind, value_kind};
ghost use Rattle.kat_shape.specs.Forms.{form_of};

use crate::designs::Component;
use kat_num::{Sort, Value};
use kat_shape::Shape;
use std::alloc::{AllocError, Global};

/// What a leaf holds, and what an ask gives: a number, a name or a truth value.
#[derive(Clone, Copy, PartialEq, Eq, Debug)]
pub enum Kind {
    Number,
    Name,
    Truth,
}

/// Which kinds are accepted at a place: one of them, or what has an order (a number or a name).
#[derive(Clone, Copy, PartialEq, Eq, Debug)]
pub enum Wanted {
    Exactly(Kind),
    Ordered,
}

/// The kind of a sort's values.
pub fn sort_kind(sort: Sort) -> Kind
    ensures { result ≡ sort_kind sort }
{
    match sort {
        Sort::Bool => Kind::Truth,
        Sort::Int | Sort::Nat => Kind::Number,
        Sort::Name => Kind::Name,
    }
}

/// The kind of a value.
pub fn value_kind(value: Value) -> Kind
    ensures { result ≡ value_kind value }
{
    match value {
        Value::Bool(_) => Kind::Truth,
        Value::Num(_) => Kind::Number,
        Value::Name(_) => Kind::Name,
    }
}

/// Whether two kinds are the same.
pub fn is_kind(left: Kind, right: Kind) -> bool
    ensures { result ≡ is_kind left right }
{
    match (left, right) {
        (Kind::Number, Kind::Number) => true,
        (Kind::Name, Kind::Name) => true,
        (Kind::Truth, Kind::Truth) => true,
        _ => false,
    }
}

/// Whether two sorts are the same.
pub fn is_sort(left: Sort, right: Sort) -> bool
    ensures { result ≡ is_sort left right }
{
    match (left, right) {
        (Sort::Bool, Sort::Bool) => true,
        (Sort::Int, Sort::Int) => true,
        (Sort::Nat, Sort::Nat) => true,
        (Sort::Name, Sort::Name) => true,
        _ => false,
    }
}

/// Whether a kind is accepted.
pub fn is_wanted(wanted: Wanted, given: Kind) -> bool
    ensures { result ≡ is_wanted wanted given }
{
    match (wanted, given) {
        (Wanted::Exactly(kind), given) => is_kind(kind, given),
        (Wanted::Ordered, Kind::Number) => true,
        (Wanted::Ordered, Kind::Name) => true,
        (Wanted::Ordered, Kind::Truth) => false,
    }
}

/// The kinds of a shape's leaves, from the left.
pub fn kinds_of(alloc: Global, shape: &Shape) -> Result<Vec<Kind>, AllocError>
    ensures { IfOk result (λ kinds. kinds.items ≡ kinds_of (form_of shape.now)) }
{
    match shape {
        Shape::Max => one_kind(alloc, Kind::Number),
        Shape::Name => one_kind(alloc, Kind::Name),
        Shape::Or => one_kind(alloc, Kind::Truth),
        Shape::Lex(first, second) | Shape::Pair(first, second) => {
            let mut kinds = kinds_of(alloc, first)?;
            let others = kinds_of(alloc, second)?;
            kinds.extend_from_slice(&others)?;
            Ok(kinds)
        }
    }
}

/// One kind alone.
fn one_kind(alloc: Global, kind: Kind) -> Result<Vec<Kind>, AllocError>
    ensures { IfOk result (λ kinds. kinds.items ≡ kind ∷ []) }
{
    let mut kinds = Vec::new(alloc);
    kinds.push(kind)?;
    Ok(kinds)
}

/// The kinds of a component's leaves: a set has one that says whether it has a key, a tally one sum.
pub fn component_kinds(alloc: Global, component: &Component) -> Result<Vec<Kind>, AllocError>
    ensures { IfOk result (λ kinds. kinds.items ≡ component_kinds (component_form component.now)) }
{
    match component {
        Component::Cell { shape, .. } => kinds_of(alloc, shape),
        Component::Table { shape, .. } => kinds_of(alloc, shape),
        Component::Set { .. } => one_kind(alloc, Kind::Truth),
        Component::Tally { .. } => one_kind(alloc, Kind::Number),
        Component::Tallies { .. } => one_kind(alloc, Kind::Number),
    }
}

/// The sort of a component's keys.
pub fn key_sort(component: &Component) -> Option<Sort>
    ensures { result ≡ key_sort (component_form component.now) }
{
    match component {
        Component::Cell { .. } | Component::Tally { .. } => None,
        Component::Table { key, .. } => Some(*key),
        Component::Set { key, .. } => Some(*key),
        Component::Tallies { key, .. } => Some(*key),
    }
}

/// The kind of a component's leaf, if there are both.
pub fn leaf_kind(
    alloc: Global,
    components: &[Component],
    component: u32,
    leaf: u32,
) -> Result<Option<Kind>, AllocError>
    ensures { IfOk result (λ kind. kind ≡ leaf_kind (slice_get (map component_form components.now) component) leaf) }
{
    match components.get(component as usize) {
        None => Ok(None),
        Some(component) => {
            let kinds = component_kinds(alloc, component)?;
            Ok(kinds.get(leaf as usize).copied())
        }
    }
}
