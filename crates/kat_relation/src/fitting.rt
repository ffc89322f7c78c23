//! Which conjuncts a type and a design have.
ghost use Rattle.std.specs.Prelude.{◌≡◌, ◌&&◌, IfOk, not, Some, drop, map, option_map, slice_get};
ghost use Rattle.kat_design.specs.Designs.{component_form, design_form};
ghost use Rattle.kat_relation.specs.Fits.{are_apart, are_of, as_ranked, bounded_fits, conjunct_fits, digit_fits, element_kind, field_kind, has_key_at_most, has_leaf, has_rising_leaves, has_sums, is_key, is_ordered, match_elements, parameter_kind, position_kind, query_fits, rank_kinds, ref_kind, same_keys, same_kind};
ghost use Rattle.kat_design.specs.declared.kinds.Kind.TheVariants as kind;
ghost use Rattle.kat_relation.specs.Keys.{component_key, field_key};
ghost use Rattle.std.specs.Option.{option_flatten};
ghost use Rattle.kat_type.specs.Types.{operation_form, query_form, type_form};

use crate::keys::{component_key, field_key};
use crate::relations::{Conjunct, LeafRef};
use kat_design::{Component, Design, Kind, is_kind, is_sort, leaf_kind, sort_kind};
use kat_num::Sort;
use kat_type::{Field, Operation, Param, Query, Rank, SeqType};
use std::alloc::{AllocError, Global};

/// The greatest digit of a rank.
const GREATEST_DIGIT: u32 = 9;

/// Whether a conjunct speaks of fields, queries, leaves and positions that the type and the design have, and compares
/// like with like.
pub fn fits(
    alloc: Global,
    ty: &SeqType,
    design: &Design,
    conjunct: &Conjunct,
) -> Result<bool, AllocError>
    ensures { IfOk result (λ fits. fits ≡ conjunct_fits (type_form ty.now) (design_form design.now).components conjunct.now) }
{
    let components = design.components.as_slice();
    match conjunct {
        Conjunct::Query(query) => Ok(query_fits(ty.queries.as_slice(), *query)),
        Conjunct::Equal { field, leaf } => {
            equal_fits(alloc, ty.fields.as_slice(), components, *field, *leaf)
        }
        Conjunct::Bounded { leaves, position } => {
            bounded_fits(alloc, ty, components, leaves.as_slice(), *position)
        }
        Conjunct::AtLeast {
            leaf,
            position,
            digit,
        } => at_least_fits(alloc, ty, components, *leaf, *position, *digit),
        Conjunct::Matched {
            first,
            position,
            second,
            later,
            digit,
        } => {
            let matched = Matched {
                first: *first,
                position: *position,
                second: *second,
                later: *later,
                digit: *digit,
            };
            matched_fits(alloc, ty, components, matched)
        }
        Conjunct::Total(component) => Ok(has_sums(components, *component)),
    }
}

/// The parts of a conjunct that matches a leaf with an element.
#[derive(Clone, Copy)]
struct Matched {
    first: LeafRef,
    position: u32,
    second: LeafRef,
    later: u32,
    digit: u32,
}

fn is_key(sort: Sort) -> bool
    ensures { result ≡ is_key sort }
{
    match sort {
        Sort::Bool => false,
        Sort::Int => true,
        Sort::Nat => true,
        Sort::Name => true,
    }
}

/// Whether there is no parameter, or one number or name.
fn has_key_at_most(params: &[Param]) -> bool
    ensures { result ≡ has_key_at_most params.now }
{
    match params {
        [] => true,
        [param] => is_key(param.sort),
        [_, _, ..] => false,
    }
}

fn query_fits(queries: &[Query], place: u32) -> bool
    ensures { result ≡ query_fits (slice_get (map query_form queries.now) place) }
{
    match queries.get(place as usize) {
        None => false,
        Some(query) => has_key_at_most(query.params.as_slice()),
    }
}

fn field_kind(fields: &[Field], place: u32) -> Option<Kind>
    ensures { result ≡ field_kind (slice_get fields.now place) }
{
    match fields.get(place as usize) {
        None => None,
        Some(Field::Plain { sort, .. }) => Some(sort_kind(*sort)),
        Some(Field::Keyed { sort, .. }) => Some(sort_kind(*sort)),
    }
}

fn ref_kind(
    alloc: Global,
    components: &[Component],
    leaf: LeafRef,
) -> Result<Option<Kind>, AllocError>
    ensures { IfOk result (λ kind. kind ≡ ref_kind (map component_form components.now) leaf) }
{
    leaf_kind(alloc, components, leaf.component, leaf.leaf)
}

/// Whether both are there and are the same.
fn same_kind(a: Option<Kind>, b: Option<Kind>) -> bool
    ensures { result ≡ same_kind a b }
{
    match (a, b) {
        (None, None) => false,
        (None, Some(_)) => false,
        (Some(_), None) => false,
        (Some(a), Some(b)) => is_kind(a, b),
    }
}

/// Whether both have no keys, or keys of one sort.
fn same_keys(a: Option<Sort>, b: Option<Sort>) -> bool
    ensures { result ≡ same_keys a b }
{
    match (a, b) {
        (None, None) => true,
        (None, Some(_)) => false,
        (Some(_), None) => false,
        (Some(a), Some(b)) => is_sort(a, b),
    }
}

/// Whether a field may be a leaf.
fn equal_fits(
    alloc: Global,
    fields: &[Field],
    components: &[Component],
    field: u32,
    leaf: LeafRef,
) -> Result<bool, AllocError>
    ensures { IfOk result (λ fits. fits ≡ (same_kind (field_kind (slice_get fields.now field))
        (ref_kind (map component_form components.now) leaf) && same_keys (field_key (slice_get fields.now field))
        (component_key (slice_get (map component_form components.now) leaf.component)))) }
{
    let kind = ref_kind(alloc, components, leaf)?;
    Ok(
        same_kind(field_kind(fields, field), kind)
            && same_keys(
                field_key(fields, field),
                component_key(components, leaf.component),
            ),
    )
}

fn parameter_kind(params: &[Param], place: u32) -> Option<Kind>
    ensures { result ≡ parameter_kind (slice_get params.now place) }
{
    match params.get(place as usize) {
        None => None,
        Some(param) => Some(sort_kind(param.sort)),
    }
}

/// The kind of a rank's element.
fn element_kind(params: &[Param], rank: Rank) -> Option<Kind>
    ensures { result ≡ element_kind params.now rank }
{
    match rank {
        Rank::Digit(_) => Some(Kind::Number),
        Rank::Time => Some(Kind::Number),
        Rank::Replica => Some(Kind::Number),
        Rank::Arg(place) => parameter_kind(params, place),
    }
}

/// The kinds of the elements of ranks.
fn rank_kinds(alloc: Global, ops: &[Operation]) -> Result<Vec<Option<Kind>>, AllocError>
    ensures { IfOk result (λ kinds. kinds.items ≡ rank_kinds (map operation_form ops.now)) }
{
    match ops {
        [] => Ok(Vec::new(alloc)),
        [op, ..] => element_kinds(alloc, op.params.as_slice(), op.ranks.as_slice()),
    }
}

fn element_kinds(
    alloc: Global,
    params: &[Param],
    ranks: &[Rank],
) -> Result<Vec<Option<Kind>>, AllocError>
    ensures { IfOk result (λ kinds. kinds.items ≡ map (element_kind params.now) ranks.now) }
{
    let mut kinds = Vec::new(alloc);
    for rank in ranks {
        kinds.push(element_kind(params, *rank))?;
    }
    Ok(kinds)
}

/// The kind of the element at a position.
fn position_kind(alloc: Global, ty: &SeqType, position: u32) -> Result<Option<Kind>, AllocError>
    ensures { IfOk result (λ kind. kind ≡ position_kind (type_form ty.now) position) }
{
    let kinds = rank_kinds(alloc, ty.ops.as_slice())?;
    Ok(kind_at(&kinds, position))
}

fn kind_at(kinds: &[Option<Kind>], position: u32) -> Option<Kind>
    ensures { result ≡ option_flatten (slice_get kinds.now position) }
{
    match kinds.get(position as usize) {
        None => None,
        Some(kind) => *kind,
    }
}

/// Whether the component is a cell, a table or a set.
fn has_rising_leaves(components: &[Component], place: u32) -> bool
    ensures { result ≡ has_rising_leaves (slice_get (map component_form components.now) place) }
{
    match components.get(place as usize) {
        None => false,
        Some(component) => !is_tally(component),
    }
}

/// Whether the component keeps sums.
fn is_tally(component: &Component) -> bool
    ensures sums { result ≡ has_sums (Some (component_form component.now)) }
    ensures rising { not result ≡ has_rising_leaves (Some (component_form component.now)) }
{
    match component {
        Component::Cell { .. } => false,
        Component::Table { .. } => false,
        Component::Set { .. } => false,
        Component::Tally { .. } => true,
        Component::Tallies { .. } => true,
    }
}

fn has_sums(components: &[Component], place: u32) -> bool
    ensures { result ≡ has_sums (slice_get (map component_form components.now) place) }
{
    match components.get(place as usize) {
        None => false,
        Some(component) => is_tally(component),
    }
}

fn as_ranked(kind: Option<Kind>) -> Option<Kind>
    ensures { result ≡ option_map as_ranked kind }
{
    match kind {
        None => None,
        Some(Kind::Number) => Some(Kind::Number),
        Some(Kind::Name) => Some(Kind::Name),
        Some(Kind::Truth) => Some(Kind::Number),
    }
}

/// Whether each leaf has the kind of the element at its position.
fn match_elements(
    alloc: Global,
    components: &[Component],
    leaves: &[LeafRef],
    kinds: &[Option<Kind>],
) -> Result<bool, AllocError>
    ensures { IfOk result (λ fits. fits ≡ match_elements (map component_form components.now) leaves.now kinds.now) }
{
    match leaves {
        [] => Ok(true),
        [leaf, leaves @ ..] => match kinds {
            [] => Ok(false),
            [kind, kinds @ ..] => {
                let own = ref_kind(alloc, components, *leaf)?;
                let others = match_elements(alloc, components, leaves, kinds)?;
                Ok(same_kind(as_ranked(own), *kind) && others)
            }
        },
    }
}

/// Whether all are leaves of the component.
fn are_of(component: u32, leaves: &[LeafRef]) -> bool
    ensures { result ≡ are_of component leaves.now }
{
    leaves.iter().all(|leaf| leaf.component == component)
}

fn has_leaf(number: u32, leaves: &[LeafRef]) -> bool
    ensures { result ≡ has_leaf number leaves.now }
{
    leaves.iter().any(|leaf| leaf.leaf == number)
}

/// Whether no leaf occurs twice.
fn are_apart(leaves: &[LeafRef]) -> bool
    ensures { result ≡ are_apart leaves.now }
{
    match leaves {
        [] => true,
        [leaf, others @ ..] => !has_leaf(leaf.leaf, others) && are_apart(others),
    }
}

/// Whether the leaves may be bounded by the elements of the rank from the position on.
fn bounded_fits(
    alloc: Global,
    ty: &SeqType,
    components: &[Component],
    leaves: &[LeafRef],
    position: u32,
) -> Result<bool, AllocError>
    ensures { IfOk result (λ fits. fits ≡ bounded_fits (type_form ty.now) (map component_form components.now) leaves.now position) }
{
    let kinds = rank_kinds(alloc, ty.ops.as_slice())?;
    match leaves {
        [] => Ok(false),
        [leaf, others @ ..] => {
            // First of all: it lets pass no more leaves than a rank has elements.
            if !match_from(alloc, components, leaves, &kinds, position)? {
                return Ok(false);
            }
            Ok(
                has_rising_leaves(components, leaf.component)
                    && are_of(leaf.component, others)
                    && are_apart(leaves),
            )
        }
    }
}

fn match_from(
    alloc: Global,
    components: &[Component],
    leaves: &[LeafRef],
    kinds: &[Option<Kind>],
    position: u32,
) -> Result<bool, AllocError>
    ensures { IfOk result (λ fits. fits ≡ match_elements (map component_form components.now) leaves.now (drop position kinds.now)) }
{
    if position as usize >= kinds.len() {
        match_elements(alloc, components, leaves, &[])
    } else {
        match_elements(alloc, components, leaves, &kinds[position as usize..])
    }
}

fn is_ordered(kind: Option<Kind>) -> bool
    ensures { result ≡ is_ordered kind }
{
    match kind {
        None => false,
        Some(Kind::Number) => true,
        Some(Kind::Name) => true,
        Some(Kind::Truth) => false,
    }
}

/// Whether the element at the position is a number, and the digit is one.
fn digit_fits(alloc: Global, ty: &SeqType, position: u32, digit: u32) -> Result<bool, AllocError>
    ensures { IfOk result (λ fits. fits ≡ digit_fits (type_form ty.now) position digit) }
{
    let kind = position_kind(alloc, ty, position)?;
    Ok(same_kind(kind, Some(Kind::Number)) && digit <= GREATEST_DIGIT)
}

/// Whether a leaf is true only if an element is at least the digit.
fn at_least_fits(
    alloc: Global,
    ty: &SeqType,
    components: &[Component],
    leaf: LeafRef,
    position: u32,
    digit: u32,
) -> Result<bool, AllocError>
    ensures { IfOk result (λ fits. fits ≡ (same_kind (ref_kind (map component_form components.now) leaf) (Some kind.Truth) && digit_fits
        (type_form ty.now) position digit)) }
{
    let kind = ref_kind(alloc, components, leaf)?;
    let digit = digit_fits(alloc, ty, position, digit)?;
    Ok(same_kind(kind, Some(Kind::Truth)) && digit)
}

/// Whether the parts of a match fit.
fn matched_fits(
    alloc: Global,
    ty: &SeqType,
    components: &[Component],
    matched: Matched,
) -> Result<bool, AllocError>
    ensures { IfOk result (λ fits. fits ≡ conjunct_fits (type_form ty.now) (map component_form components.now)
        (Conjunct.Matched matched.first matched.position matched.second matched.later matched.digit)) }
{
    let first = ref_kind(alloc, components, matched.first)?;
    let element = position_kind(alloc, ty, matched.position)?;
    let second = ref_kind(alloc, components, matched.second)?;
    let digit = digit_fits(alloc, ty, matched.later, matched.digit)?;
    Ok(
        is_ordered(first)
            && same_kind(first, element)
            && same_kind(second, Some(Kind::Truth))
            && matched.first.component == matched.second.component
            && matched.position < matched.later
            && digit,
    )
}
