//! The candidates.
ghost use Rattle.std.specs.Prelude.{◌≡◌, ◌++◌, IfOk, map, max};
ghost use Rattle.kat_candidate.specs.Candidates.{AreCandidates};
ghost use Rattle.kat_candidate.specs.Forms.{sides_form};
ghost use Rattle.kat_candidate.specs.Listed.{at_leasts, bounds, candidates_of, equals, matches, queries, totals};
ghost use Rattle.kat_design.specs.Designs.{component_form, design_form};
ghost use Rattle.kat_type.specs.Types.{operation_form, type_form};

use crate::forms::{
    Sides, push_at_leasts, push_bounds, push_equals, push_matches, push_queries, push_totals,
};
use crate::parts::{constants_of, leaves_of, numbers_below, rank_length};
use kat_design::Design;
use kat_num::Items;
use kat_relation::{Conjunct, Relation};
use kat_type::SeqType;
use std::alloc::{AllocError, Global};

/// The candidates of a type and a design: all conjuncts that fit, with constants that are digits of the type's ranks, in
/// the order of their forms and then of the numbers of their texts.
///
/// A type or a design with more parts than 32 bits count is answered as out of memory.
pub fn candidates(alloc: Global, ty: &SeqType, design: &Design) -> Result<Relation, AllocError>
    ensures { IfOk result (λ relation. AreCandidates (type_form ty.now) (design_form design.now) relation.conjuncts) }
{
    let sides = Sides { ty, design };
    let conjuncts = listed(alloc, &sides)?;
    Ok(Relation {
        conjuncts: Items::from_vec(conjuncts),
    })
}

/// All candidates, form by form.
fn listed(alloc: Global, sides: &Sides<'_>) -> Result<Vec<Conjunct>, AllocError>
    ensures { IfOk result (λ conjuncts. conjuncts.items ≡ candidates_of (sides_form sides.now)) }
{
    let mut into = Vec::new(alloc);
    first_forms(alloc, sides, &mut into)?;
    bounds(alloc, sides, &mut into)?;
    last_forms(alloc, sides, &mut into)?;
    Ok(into)
}

/// Queries and equal fields.
fn first_forms(alloc: Global, sides: &Sides<'_>, into: &mut Vec<Conjunct>) -> Result<(), AllocError>
    ensures { IfOk result (λ u. into.new.items ≡ into.old.items
        ++ queries (sides_form sides.now) ++ equals (sides_form sides.now)) }
{
    all_queries(alloc, sides, into)?;
    all_equals(alloc, sides, into)
}

fn all_queries(alloc: Global, sides: &Sides<'_>, into: &mut Vec<Conjunct>) -> Result<(), AllocError>
    ensures { IfOk result (λ u. into.new.items ≡ into.old.items ++ queries (sides_form sides.now)) }
{
    let numbers = numbers_below(alloc, sides.ty.queries.as_slice().len())?;
    push_queries(alloc, sides, &numbers, into)
}

fn all_equals(alloc: Global, sides: &Sides<'_>, into: &mut Vec<Conjunct>) -> Result<(), AllocError>
    ensures { IfOk result (λ u. into.new.items ≡ into.old.items ++ equals (sides_form sides.now)) }
{
    let leaves = leaves_of(alloc, sides.design.components.as_slice())?;
    let fields = numbers_below(alloc, sides.ty.fields.as_slice().len())?;
    push_equals(alloc, sides, &leaves, &fields, into)
}

fn bounds(alloc: Global, sides: &Sides<'_>, into: &mut Vec<Conjunct>) -> Result<(), AllocError>
    ensures { IfOk result (λ u. into.new.items ≡ into.old.items ++ bounds (sides_form sides.now)) }
{
    let components = sides.design.components.as_slice();
    let length = rank_length(sides.ty.ops.as_slice());
    let leaves = leaves_of(alloc, components)?;
    let positions = numbers_below(alloc, length)?;
    let numbers = numbers_below(alloc, greater(length, components.len()))?;
    push_bounds(alloc, sides, &leaves, &numbers, &positions, into)
}

/// The greater of two counts.
fn greater(a: usize, b: usize) -> usize
    ensures { result ≡ max a b }
{
    if a < b { b } else { a }
}

/// Leaves bounded by digits, and sums.
fn last_forms(alloc: Global, sides: &Sides<'_>, into: &mut Vec<Conjunct>) -> Result<(), AllocError>
    ensures { IfOk result (λ u. into.new.items ≡ into.old.items
        ++ at_leasts (sides_form sides.now) ++ matches (sides_form sides.now) ++ totals (sides_form sides.now)) }
{
    all_at_leasts(alloc, sides, into)?;
    all_matches(alloc, sides, into)?;
    all_totals(alloc, sides, into)
}

fn all_at_leasts(
    alloc: Global,
    sides: &Sides<'_>,
    into: &mut Vec<Conjunct>,
) -> Result<(), AllocError>
    ensures { IfOk result (λ u. into.new.items ≡ into.old.items ++ at_leasts (sides_form sides.now)) }
{
    let ops = sides.ty.ops.as_slice();
    let leaves = leaves_of(alloc, sides.design.components.as_slice())?;
    let positions = numbers_below(alloc, rank_length(ops))?;
    let constants = constants_of(alloc, ops, &positions)?;
    push_at_leasts(alloc, sides, &constants, &leaves, into)
}

fn all_matches(alloc: Global, sides: &Sides<'_>, into: &mut Vec<Conjunct>) -> Result<(), AllocError>
    ensures { IfOk result (λ u. into.new.items ≡ into.old.items ++ matches (sides_form sides.now)) }
{
    let ops = sides.ty.ops.as_slice();
    let leaves = leaves_of(alloc, sides.design.components.as_slice())?;
    let positions = numbers_below(alloc, rank_length(ops))?;
    let constants = constants_of(alloc, ops, &positions)?;
    push_matches(alloc, sides, &constants, &leaves, &positions, into)
}

fn all_totals(alloc: Global, sides: &Sides<'_>, into: &mut Vec<Conjunct>) -> Result<(), AllocError>
    ensures { IfOk result (λ u. into.new.items ≡ into.old.items ++ totals (sides_form sides.now)) }
{
    let numbers = numbers_below(alloc, sides.design.components.as_slice().len())?;
    push_totals(alloc, sides, &numbers, into)
}
