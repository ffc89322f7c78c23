//! A call for each form of conjuncts. It appends those that fit the type and the design to a list. Its only error is out of memory, and
//! nothing is said of the list after it.
ghost use Rattle.std.specs.Prelude.{◌≡◌, ◌++◌, ◌∷◌, [], IfOk};
ghost use Rattle.kat_candidate.specs.Forms.{at_least_of, at_leasts_of, behind_leaf, bound_of, bounds_of, chosen, each_of, equal_of, equals_of, first_bound_of, longer_of, matches_at, matches_of, matches_with, query_of, sides_form, total_of};
ghost use Rattle.kat_relation.specs.Fits.{are_of};

use crate::parts::Constant;
use kat_design::Design;
use kat_num::Items;
use kat_relation::{Conjunct, LeafRef, fits};
use kat_type::SeqType;
use std::alloc::{AllocError, Global};

/// What conjuncts are between: a type and a design.
#[derive(Clone, Copy)]
pub struct Sides<'a> {
    pub ty: &'a SeqType,
    pub design: &'a Design,
}

/// The conjunct, if it fits.
fn push_fitting(
    alloc: Global,
    sides: &Sides<'_>,
    conjunct: Conjunct,
    into: &mut Vec<Conjunct>,
) -> Result<(), AllocError>
    ensures { IfOk result (λ u. into.new.items ≡ into.old.items ++ chosen (sides_form sides.now) conjunct) }
{
    if !fits(alloc, sides.ty, sides.design, &conjunct)? {
        return Ok(());
    }
    into.push(conjunct)?;
    Ok(())
}

/// Appends the conjunct of each query with one of these numbers, in their order.
pub fn push_queries(
    alloc: Global,
    sides: &Sides<'_>,
    numbers: &[u32],
    into: &mut Vec<Conjunct>,
) -> Result<(), AllocError>
    ensures { IfOk result (λ u. into.new.items ≡ into.old.items ++ each_of (query_of (sides_form sides.now)) numbers.now) }
{
    for number in numbers {
        push_fitting(alloc, sides, Conjunct::Query(*number), into)?;
    }
    Ok(())
}

/// Appends, field by field, that the field is the leaf, for each of the leaves.
pub fn push_equals(
    alloc: Global,
    sides: &Sides<'_>,
    leaves: &[LeafRef],
    fields: &[u32],
    into: &mut Vec<Conjunct>,
) -> Result<(), AllocError>
    ensures { IfOk result (λ u. into.new.items ≡ into.old.items
        ++ each_of (equals_of (sides_form sides.now) leaves.now) fields.now) }
{
    for field in fields {
        push_equals_of(alloc, sides, *field, leaves, into)?;
    }
    Ok(())
}

fn push_equals_of(
    alloc: Global,
    sides: &Sides<'_>,
    field: u32,
    leaves: &[LeafRef],
    into: &mut Vec<Conjunct>,
) -> Result<(), AllocError>
    ensures { IfOk result (λ u. into.new.items ≡ into.old.items ++ each_of (equal_of (sides_form sides.now) field) leaves.now) }
{
    for leaf in leaves {
        let equal = Conjunct::Equal { field, leaf: *leaf };
        push_fitting(alloc, sides, equal, into)?;
    }
    Ok(())
}

/// Appends bounds, by their first leaf: of at most as many leaves as there are positions, all of one component, at a position that
/// is one of the numbers.
pub fn push_bounds(
    alloc: Global,
    sides: &Sides<'_>,
    leaves: &[LeafRef],
    numbers: &[u32],
    positions: &[u32],
    into: &mut Vec<Conjunct>,
) -> Result<(), AllocError>
    ensures { IfOk result (λ u. into.new.items ≡ into.old.items
        ++ each_of (first_bound_of (sides_form sides.now) leaves.now numbers.now positions.now) leaves.now) }
{
    let texts = Texts { leaves, numbers };
    for leaf in leaves {
        let first = one_leaf(alloc, *leaf)?;
        push_bounds_of(alloc, sides, &texts, positions, &first, into)?;
    }
    Ok(())
}

fn one_leaf(alloc: Global, leaf: LeafRef) -> Result<Vec<LeafRef>, AllocError>
    ensures { IfOk result (λ leaves. leaves.items ≡ leaf ∷ []) }
{
    let mut leaves = Vec::new(alloc);
    leaves.push(leaf)?;
    Ok(leaves)
}

/// What may come after the leaves in the text of a bound.
#[derive(Clone, Copy)]
struct Texts<'a> {
    leaves: &'a [LeafRef],
    numbers: &'a [u32],
}

/// Bounds that begin with these leaves, and have at most so many more as there are further positions.
#[cycle(bounds)]
fn push_bounds_of(
    alloc: Global,
    sides: &Sides<'_>,
    texts: &Texts<'_>,
    positions: &[u32],
    leaves: &[LeafRef],
    into: &mut Vec<Conjunct>,
) -> Result<(), AllocError>
    ensures { IfOk result (λ u. into.new.items ≡ into.old.items
        ++ bounds_of (sides_form sides.now) texts.now.leaves.now texts.now.numbers.now positions.now leaves.now) }
{
    match positions {
        [] => Ok(()),
        [_, positions @ ..] => push_bounds_with(alloc, sides, texts, positions, leaves, into),
    }
}

#[cycle(bounds)]
fn push_bounds_with(
    alloc: Global,
    sides: &Sides<'_>,
    texts: &Texts<'_>,
    positions: &[u32],
    leaves: &[LeafRef],
    into: &mut Vec<Conjunct>,
) -> Result<(), AllocError>
    ensures { IfOk result (λ u. into.new.items ≡ into.old.items
        ++ each_of (bound_of (sides_form sides.now) texts.now.leaves.now (bounds_of (sides_form sides.now) texts.now.leaves.now
        texts.now.numbers.now positions.now) leaves.now) texts.now.numbers.now) }
{
    for number in texts.numbers {
        let bounded = bounded(alloc, leaves, *number)?;
        push_fitting(alloc, sides, bounded, into)?;
        push_longer(alloc, sides, texts, positions, leaves, *number, into)?;
    }
    Ok(())
}

fn bounded(alloc: Global, leaves: &[LeafRef], position: u32) -> Result<Conjunct, AllocError>
    ensures { IfOk result (λ conjunct. conjunct ≡ Conjunct.Bounded leaves.now position) }
{
    Ok(Conjunct::Bounded {
        leaves: Items::from_vec(Vec::from_slice(alloc, leaves)?),
        position,
    })
}

/// Bounds with one more leaf of the component.
#[cycle(bounds)]
fn push_longer(
    alloc: Global,
    sides: &Sides<'_>,
    texts: &Texts<'_>,
    positions: &[u32],
    leaves: &[LeafRef],
    component: u32,
    into: &mut Vec<Conjunct>,
) -> Result<(), AllocError>
    ensures { IfOk result (λ u. into.new.items ≡ into.old.items
        ++ longer_of (bounds_of (sides_form sides.now) texts.now.leaves.now texts.now.numbers.now positions.now)
        texts.now.leaves.now leaves.now component) }
{
    if !are_of(component, leaves) {
        return Ok(());
    }
    for leaf in texts.leaves {
        push_behind(
            alloc, sides, texts, positions, leaves, component, *leaf, into,
        )?;
    }
    Ok(())
}

/// Whether all are leaves of the component.
fn are_of(component: u32, leaves: &[LeafRef]) -> bool
    ensures { result ≡ are_of component leaves.now }
{
    leaves.iter().all(|leaf| leaf.component == component)
}

#[cycle(bounds)]
fn push_behind(
    alloc: Global,
    sides: &Sides<'_>,
    texts: &Texts<'_>,
    positions: &[u32],
    leaves: &[LeafRef],
    component: u32,
    leaf: LeafRef,
    into: &mut Vec<Conjunct>,
) -> Result<(), AllocError>
    ensures { IfOk result (λ u. into.new.items ≡ into.old.items
        ++ behind_leaf (bounds_of (sides_form sides.now) texts.now.leaves.now texts.now.numbers.now positions.now) leaves.now
        component leaf) }
{
    if leaf.component != component {
        return Ok(());
    }
    let longer = with_leaf(alloc, leaves, leaf)?;
    push_bounds_of(alloc, sides, texts, positions, &longer, into)
}

fn with_leaf(alloc: Global, leaves: &[LeafRef], leaf: LeafRef) -> Result<Vec<LeafRef>, AllocError>
    ensures { IfOk result (λ longer. longer.items ≡ leaves.now ++ leaf ∷ []) }
{
    let mut longer = Vec::from_slice(alloc, leaves)?;
    longer.push(leaf)?;
    Ok(longer)
}

/// Appends, leaf by leaf, that it is true only if the element at a constant's position is at least its digit, for each of the
/// constants.
pub fn push_at_leasts(
    alloc: Global,
    sides: &Sides<'_>,
    constants: &[Constant],
    leaves: &[LeafRef],
    into: &mut Vec<Conjunct>,
) -> Result<(), AllocError>
    ensures { IfOk result (λ u. into.new.items ≡ into.old.items
        ++ each_of (at_leasts_of (sides_form sides.now) constants.now) leaves.now) }
{
    for leaf in leaves {
        push_at_leasts_of(alloc, sides, *leaf, constants, into)?;
    }
    Ok(())
}

fn push_at_leasts_of(
    alloc: Global,
    sides: &Sides<'_>,
    leaf: LeafRef,
    constants: &[Constant],
    into: &mut Vec<Conjunct>,
) -> Result<(), AllocError>
    ensures { IfOk result (λ u. into.new.items ≡ into.old.items
        ++ each_of (at_least_of (sides_form sides.now) leaf) constants.now) }
{
    for constant in constants {
        let at_least = Conjunct::AtLeast {
            leaf,
            position: constant.position,
            digit: constant.digit,
        };
        push_fitting(alloc, sides, at_least, into)?;
    }
    Ok(())
}

/// Appends matches, by their first leaf, then by the position, the second leaf and the constant.
pub fn push_matches(
    alloc: Global,
    sides: &Sides<'_>,
    constants: &[Constant],
    leaves: &[LeafRef],
    positions: &[u32],
    into: &mut Vec<Conjunct>,
) -> Result<(), AllocError>
    ensures { IfOk result (λ u. into.new.items ≡ into.old.items
        ++ each_of (matches_of (sides_form sides.now) constants.now leaves.now positions.now) leaves.now) }
{
    for leaf in leaves {
        push_matches_of(alloc, sides, constants, leaves, *leaf, positions, into)?;
    }
    Ok(())
}

fn push_matches_of(
    alloc: Global,
    sides: &Sides<'_>,
    constants: &[Constant],
    leaves: &[LeafRef],
    first: LeafRef,
    positions: &[u32],
    into: &mut Vec<Conjunct>,
) -> Result<(), AllocError>
    ensures { IfOk result (λ u. into.new.items ≡ into.old.items
        ++ matches_of (sides_form sides.now) constants.now leaves.now positions.now first) }
{
    for position in positions {
        push_matches_at(alloc, sides, constants, first, *position, leaves, into)?;
    }
    Ok(())
}

fn push_matches_at(
    alloc: Global,
    sides: &Sides<'_>,
    constants: &[Constant],
    first: LeafRef,
    position: u32,
    leaves: &[LeafRef],
    into: &mut Vec<Conjunct>,
) -> Result<(), AllocError>
    ensures { IfOk result (λ u. into.new.items ≡ into.old.items
        ++ matches_at (sides_form sides.now) constants.now leaves.now first position) }
{
    for second in leaves {
        push_matches_with(alloc, sides, constants, first, position, *second, into)?;
    }
    Ok(())
}

fn push_matches_with(
    alloc: Global,
    sides: &Sides<'_>,
    constants: &[Constant],
    first: LeafRef,
    position: u32,
    second: LeafRef,
    into: &mut Vec<Conjunct>,
) -> Result<(), AllocError>
    ensures { IfOk result (λ u. into.new.items ≡ into.old.items
        ++ matches_with (sides_form sides.now) constants.now first position second) }
{
    for constant in constants {
        let matched = Conjunct::Matched {
            first,
            position,
            second,
            later: constant.position,
            digit: constant.digit,
        };
        push_fitting(alloc, sides, matched, into)?;
    }
    Ok(())
}

/// Appends, for each component with one of these numbers, that its sum is at least 0.
pub fn push_totals(
    alloc: Global,
    sides: &Sides<'_>,
    numbers: &[u32],
    into: &mut Vec<Conjunct>,
) -> Result<(), AllocError>
    ensures { IfOk result (λ u. into.new.items ≡ into.old.items ++ each_of (total_of (sides_form sides.now)) numbers.now) }
{
    for number in numbers {
        push_fitting(alloc, sides, Conjunct::Total(*number), into)?;
    }
    Ok(())
}
