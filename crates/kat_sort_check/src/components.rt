//! Components, judged: their shapes, starts and effects.
ghost use Rattle.std.specs.Prelude.{◌≡◌, IfOk};
ghost use Rattle.kat_design.specs.Designs.{component_form};
ghost use Rattle.kat_design.specs.Designs.ComponentForm.{a_cell, a_set, a_table, a_tally, tallies};
ghost use Rattle.kat_design.specs.Faults.{cell_effect_faults, component_faults, first_of, key_sort_faults, list_faults, set_effect_faults, shape_faults, table_effect_faults, tallies_effect_faults, tally_effect_faults};
ghost use Rattle.kat_shape.specs.Forms.{form_of};

use crate::effects::{
    cell_effect_fault, set_effect_fault, table_effect_fault, tallies_effect_fault,
    tally_effect_fault,
};
use crate::faults::{earlier, here_if, within};
use crate::kinds::is_chain;
use crate::written::starts_fault;
use kat_design::{Component, Kind, Leaf, is_sort, kinds_of};
use kat_num::{Items, Sort, Value};
use kat_shape::Shape;
use kat_type::OpSig;
use std::alloc::{AllocError, Global};

/// The first fault of a component.
pub(crate) fn component_fault(
    alloc: Global,
    ops: &[OpSig],
    component: &Component,
) -> Result<Option<Items<u32>>, AllocError>
    ensures { IfOk result (λ fault. fault ≡ first_of (component_faults ops.now (component_form component.now))) }
{
    match component {
        Component::Cell {
            shape,
            starts,
            effects,
        } => cell_fault(alloc, ops, shape, starts.as_slice(), effects.as_slice()),
        Component::Table {
            key,
            shape,
            starts,
            effects,
        } => table_fault(
            alloc,
            ops,
            *key,
            shape,
            starts.as_slice(),
            effects.as_slice(),
        ),
        Component::Set { key, effects } => set_fault(alloc, ops, *key, effects.as_slice()),
        Component::Tally { effects } => tally_fault(alloc, ops, effects.as_slice()),
        Component::Tallies { key, effects } => tallies_fault(alloc, ops, *key, effects.as_slice()),
    }
}

/// The first fault of a cell.
#[tactic(auto, using(crate::proofs::Firsts::first_append, crate::proofs::Firsts::first_within))]
fn cell_fault(
    alloc: Global,
    ops: &[OpSig],
    shape: &Shape,
    starts: &[Value],
    effects: &[Option<Items<Leaf>>],
) -> Result<Option<Items<u32>>, AllocError>
    ensures { IfOk result (λ fault. fault ≡ first_of (component_faults ops.now (a_cell (form_of shape.now) starts.now effects.now))) }
{
    let kinds = kinds_of(alloc, shape)?;
    let first = within(alloc, 1, shape_fault(alloc, shape)?)?;
    let second = within(alloc, 2, starts_fault(alloc, starts, &kinds)?)?;
    let third = within(alloc, 3, cell_effects_fault(alloc, &kinds, effects, ops)?)?;
    Ok(earlier(first, earlier(second, third)))
}

/// The first fault of a table.
#[tactic(auto, using(crate::proofs::Firsts::first_append, crate::proofs::Firsts::first_within))]
fn table_fault(
    alloc: Global,
    ops: &[OpSig],
    key: Sort,
    shape: &Shape,
    starts: &[Value],
    effects: &[Option<(u32, Items<Leaf>)>],
) -> Result<Option<Items<u32>>, AllocError>
    ensures { IfOk result (λ fault. fault ≡ first_of (component_faults ops.now (a_table key (form_of shape.now) starts.now effects.now))) }
{
    let kinds = kinds_of(alloc, shape)?;
    let first = within(alloc, 1, key_sort_fault(alloc, key))?;
    let second = within(alloc, 2, shape_fault(alloc, shape)?)?;
    let third = within(alloc, 3, starts_fault(alloc, starts, &kinds)?)?;
    let fourth = within(
        alloc,
        4,
        table_effects_fault(alloc, key, &kinds, effects, ops)?,
    )?;
    Ok(earlier(earlier(earlier(first, second), third), fourth))
}

/// The first fault of a set.
fn set_fault(
    alloc: Global,
    ops: &[OpSig],
    key: Sort,
    effects: &[Option<u32>],
) -> Result<Option<Items<u32>>, AllocError>
    ensures { IfOk result (λ fault. fault ≡ first_of (component_faults ops.now (a_set key effects.now))) }
{
    let first = within(alloc, 1, key_sort_fault(alloc, key))?;
    let second = within(alloc, 2, set_effects_fault(alloc, key, effects, ops)?)?;
    Ok(earlier(first, second))
}

/// The first fault of a tally.
fn tally_fault(
    alloc: Global,
    ops: &[OpSig],
    effects: &[Option<Leaf>],
) -> Result<Option<Items<u32>>, AllocError>
    ensures { IfOk result (λ fault. fault ≡ first_of (component_faults ops.now (a_tally effects.now))) }
{
    within(alloc, 1, tally_effects_fault(alloc, effects, ops)?)
}

/// The first fault of `tallies`.
fn tallies_fault(
    alloc: Global,
    ops: &[OpSig],
    key: Sort,
    effects: &[Option<(u32, Leaf)>],
) -> Result<Option<Items<u32>>, AllocError>
    ensures { IfOk result (λ fault. fault ≡ first_of (component_faults ops.now (tallies key effects.now))) }
{
    let first = within(alloc, 1, key_sort_fault(alloc, key))?;
    let second = within(alloc, 2, tallies_effects_fault(alloc, key, effects, ops)?)?;
    Ok(earlier(first, second))
}

/// Keys are numbers or names.
fn key_sort_fault(alloc: Global, key: Sort) -> Option<Items<u32>>
    ensures { result ≡ first_of (key_sort_faults key) }
{
    here_if(alloc, is_sort(key, Sort::Bool))
}

/// The first part of a lexicographic pair that is no chain.
#[tactic(auto, using(crate::proofs::Firsts::first_append, crate::proofs::Firsts::first_within))]
fn shape_fault(alloc: Global, shape: &Shape) -> Result<Option<Items<u32>>, AllocError>
    ensures { IfOk result (λ fault. fault ≡ first_of (shape_faults (form_of shape.now))) }
{
    match shape {
        Shape::Max | Shape::Name | Shape::Or => Ok(None),
        Shape::Lex(left, right) => {
            let chain = here_if(alloc, !is_chain(left));
            let inner = shape_fault(alloc, left)?;
            let first = within(alloc, 1, earlier(chain, inner))?;
            let second = within(alloc, 2, shape_fault(alloc, right)?)?;
            Ok(earlier(first, second))
        }
        Shape::Pair(left, right) => {
            let first = within(alloc, 1, shape_fault(alloc, left)?)?;
            let second = within(alloc, 2, shape_fault(alloc, right)?)?;
            Ok(earlier(first, second))
        }
    }
}

/// The first fault of the effects on a cell, one for each operation.
fn cell_effects_fault(
    alloc: Global,
    kinds: &[Kind],
    effects: &[Option<Items<Leaf>>],
    ops: &[OpSig],
) -> Result<Option<Items<u32>>, AllocError>
    ensures { IfOk result (λ fault. fault ≡ first_of (list_faults (cell_effect_faults kinds.now) effects.now ops.now)) }
{
    if effects.len() != ops.len() {
        return Ok(here_if(alloc, true));
    }
    for i in 0..effects.len() {
        let fault = cell_effect_fault(alloc, kinds, &effects[i], &ops[i])?;
        if fault.is_some() {
            return within(alloc, i, fault);
        }
    }
    Ok(None)
}

/// The first fault of the effects on a table, one for each operation.
fn table_effects_fault(
    alloc: Global,
    key: Sort,
    kinds: &[Kind],
    effects: &[Option<(u32, Items<Leaf>)>],
    ops: &[OpSig],
) -> Result<Option<Items<u32>>, AllocError>
    ensures { IfOk result (λ fault. fault ≡ first_of (list_faults (table_effect_faults key kinds.now) effects.now ops.now)) }
{
    if effects.len() != ops.len() {
        return Ok(here_if(alloc, true));
    }
    for i in 0..effects.len() {
        let fault = table_effect_fault(alloc, key, kinds, &effects[i], &ops[i])?;
        if fault.is_some() {
            return within(alloc, i, fault);
        }
    }
    Ok(None)
}

/// The first fault of the effects on a set, one for each operation.
fn set_effects_fault(
    alloc: Global,
    key: Sort,
    effects: &[Option<u32>],
    ops: &[OpSig],
) -> Result<Option<Items<u32>>, AllocError>
    ensures { IfOk result (λ fault. fault ≡ first_of (list_faults (set_effect_faults key) effects.now ops.now)) }
{
    if effects.len() != ops.len() {
        return Ok(here_if(alloc, true));
    }
    for i in 0..effects.len() {
        let fault = set_effect_fault(alloc, key, effects[i], &ops[i]);
        if fault.is_some() {
            return within(alloc, i, fault);
        }
    }
    Ok(None)
}

/// The first fault of the effects on a tally, one for each operation.
fn tally_effects_fault(
    alloc: Global,
    effects: &[Option<Leaf>],
    ops: &[OpSig],
) -> Result<Option<Items<u32>>, AllocError>
    ensures { IfOk result (λ fault. fault ≡ first_of (list_faults tally_effect_faults effects.now ops.now)) }
{
    if effects.len() != ops.len() {
        return Ok(here_if(alloc, true));
    }
    for i in 0..effects.len() {
        let fault = tally_effect_fault(alloc, effects[i], &ops[i]);
        if fault.is_some() {
            return within(alloc, i, fault);
        }
    }
    Ok(None)
}

/// The first fault of the effects on `tallies`, one for each operation.
fn tallies_effects_fault(
    alloc: Global,
    key: Sort,
    effects: &[Option<(u32, Leaf)>],
    ops: &[OpSig],
) -> Result<Option<Items<u32>>, AllocError>
    ensures { IfOk result (λ fault. fault ≡ first_of (list_faults (tallies_effect_faults key) effects.now ops.now)) }
{
    if effects.len() != ops.len() {
        return Ok(here_if(alloc, true));
    }
    for i in 0..effects.len() {
        let fault = tallies_effect_fault(alloc, key, &effects[i], &ops[i])?;
        if fault.is_some() {
            return within(alloc, i, fault);
        }
    }
    Ok(None)
}
