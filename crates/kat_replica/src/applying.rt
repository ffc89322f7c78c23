//! How an operation changes parts. Each step takes all memory that it needs before it changes anything, and if a later
//! one fails, the earlier ones are taken back.
ghost use Rattle.std.specs.Prelude.{◌≡◌, ◌≤◌, [], All, IfOk, IfSome, OnErr, OnOk, map, true};
ghost use Rattle.std.specs.List.{list_all};
ghost use Rattle.kat_expr.specs.Limits.{IsAtMost};
ghost use Rattle.kat_lattice.specs.Maps.{IsMap, maps_joined};
ghost use Rattle.kat_lattice.specs.Sets.{sets_joined};
ghost use Rattle.kat_lattice.specs.Tallies.{Sums};
ghost use Rattle.kat_design.specs.Denotations.{added_key, alone_at, bumped_key, cell_added, keyed_weight, tally_weight};
ghost use Rattle.kat_design.specs.Designs.{component_form};
ghost use Rattle.kat_design.specs.Effects.{effect_of, key_alone};
ghost use Rattle.kat_design.specs.KeyedTallies.{bumped_at};
ghost use Rattle.kat_design.specs.Small.{is_roomy};
ghost use Rattle.kat_design.specs.Tallied.{bumped};
ghost use Rattle.kat_num.specs.Orders.{value_order};
ghost use Rattle.kat_num.specs.declared.values.Value as values;
ghost use Rattle.kat_replica.specs.Suiting.{GivesLeaves, SuitEach, Suits, part_with, parts_with, table_with};
ghost use Rattle.kat_replica.specs.Undoing.{UndoesPart};
ghost use Rattle.kat_shape.specs.Forms.{IsGoodForm};
ghost use Rattle.kat_shape.specs.Values.{OneShape, joined, shape_of};

use crate::effects::{effect_cell, effect_of, weight};
use crate::undo::{PartUndo, take_back};
use kat_design::{Component, Leaf, Part};
use kat_expr::argument;
use kat_lattice::{Flat, GrowMap, GrowSet, Lattice, Tally};
use kat_num::{Items, NUMBER_LIMIT, Value};
use kat_shape::{Cell, tells_values_apart};
use kat_type::Done;
use std::alloc::{AllocError, Global};

/// Does an operation on each part. After an error the parts are as they were.
pub(crate) fn apply_each(
    alloc: Global,
    parts: &mut [Part],
    components: &[Component],
    done: &Done,
) -> Result<(), AllocError>
    requires small { All (IsAtMost NUMBER_LIMIT) done.now.args }
    requires suits { SuitEach done.now parts.old (map component_form components.now) }
    ensures ok { OnOk result (parts.new ≡ parts_with parts.old (map component_form components.now) done.now) }
    ensures err { OnErr result (parts.new ≡ parts.old) }
{
    let Some((part, rest)) = parts.split_first_mut() else {
        return Ok(());
    };
    let Some((component, others)) = components.split_first() else {
        return Ok(());
    };
    let undo = step(alloc, part, component, done)?;
    match apply_each(alloc, rest, others, done) {
        Ok(()) => Ok(()),
        Err(error) => {
            take_back(part, undo);
            Err(error)
        }
    }
}

/// Does an operation on a part.
fn step(
    alloc: Global,
    part: &mut Part,
    component: &Component,
    done: &Done,
) -> Result<PartUndo, AllocError>
    requires small { All (IsAtMost NUMBER_LIMIT) done.now.args }
    requires suits { Suits done.now part.old (component_form component.now) }
    ensures ok { OnOk result (part.new ≡ part_with part.old (component_form component.now) done.now) }
    ensures back { IfOk result (λ undo. UndoesPart undo part.old part.new) }
    ensures err { OnErr result (part.new ≡ part.old) }
{
    match (part, component) {
        (Part::Cell(cell), Component::Cell { effects, .. }) => {
            step_cell(alloc, cell, effects.as_slice(), done)
        }
        (Part::Table(table), Component::Table { effects, .. }) => {
            step_table(alloc, table, effects.as_slice(), done)
        }
        (Part::Set(keys), Component::Set { effects, .. }) => {
            step_set(alloc, keys, effects.as_slice(), done)
        }
        (Part::Tally(sums), Component::Tally { effects }) => {
            step_tally(alloc, sums, effects.as_slice(), done)
        }
        (Part::Tallies(table), Component::Tallies { effects, .. }) => {
            step_tallies(alloc, table, effects.as_slice(), done)
        }
        _ => Ok(PartUndo::Same),
    }
}

/// Joins an operation's values to a cell.
fn step_cell(
    alloc: Global,
    cell: &mut Cell,
    effects: &[Option<Items<Leaf>>],
    done: &Done,
) -> Result<PartUndo, AllocError>
    requires gives { IfSome (effect_of effects.now done.now) (GivesLeaves (shape_of cell.old) done.now) }
    requires small { All (IsAtMost NUMBER_LIMIT) done.now.args }
    ensures ok { OnOk result (cell.new ≡ cell_added (shape_of cell.old) cell.old (effect_of effects.now done.now) done.now) }
    ensures back { IfOk result (λ undo. UndoesPart undo (Part.Cell cell.old) (Part.Cell cell.new)) }
    ensures err { OnErr result (cell.new ≡ cell.old) }
{
    let Some(leaves) = effect_of(effects, done) else {
        return Ok(PartUndo::Same);
    };
    let effect = effect_cell(alloc, cell, done, leaves.as_slice())?;
    let was = cell.copy(alloc)?;
    cell.goes_with(&effect);
    cell.join_flat(&effect);
    Ok(PartUndo::Cell(was))
}

/// Joins an operation's values to those at its key. If that changes nothing, it takes no memory but theirs.
fn step_table(
    alloc: Global,
    table: &mut GrowMap<Value, Cell>,
    effects: &[Option<(u32, Items<Leaf>)>],
    done: &Done,
) -> Result<PartUndo, AllocError>
    requires map { IsMap value_order OneShape joined table.old }
    requires good { IsGoodForm (shape_of table.old.start) }
    requires gives { IfSome (effect_of effects.now done.now) (λ effect. GivesLeaves (shape_of table.old.start) done.now effect.1) }
    requires small { All (IsAtMost NUMBER_LIMIT) done.now.args }
    ensures ok { OnOk result (table.new ≡ table_with (shape_of table.old.start) table.old (effect_of effects.now done.now) done.now) }
    ensures back { IfOk result (λ undo. UndoesPart undo (Part.Table table.old) (Part.Table table.new)) }
    ensures err { OnErr result (table.new ≡ table.old) }
{
    let Some((place, leaves)) = effect_of(effects, done) else {
        return Ok(PartUndo::Same);
    };
    let key = argument(done.args.as_slice(), *place);
    let effect = effect_cell(alloc, table.start_value(), done, leaves.as_slice())?;
    join_at(alloc, table, key, &effect)
}

/// Joins a cell to the value at a key of a table. If it is absorbed there, no memory is taken.
fn join_at(
    alloc: Global,
    table: &mut GrowMap<Value, Cell>,
    key: Value,
    effect: &Cell,
) -> Result<PartUndo, AllocError>
    requires map { IsMap value_order OneShape joined table.old }
    requires kin { OneShape table.old.start effect.now }
    ensures ok { OnOk result (table.new ≡ maps_joined value_order joined table.old (alone_at table.old.start key effect.now)) }
    ensures back { IfOk result (λ undo. UndoesPart undo (Part.Table table.old) (Part.Table table.new)) }
    ensures err { OnErr result (table.new ≡ table.old) }
{
    tells_values_apart();
    table.goes_at(&key, effect);
    if effect.leq(table.get(&key)) {
        return Ok(PartUndo::Same);
    }
    let step = table.join_at_step(alloc, key, effect)?;
    Ok(PartUndo::Table(step))
}

/// Adds an operation's key to a set.
fn step_set(
    alloc: Global,
    keys: &mut GrowSet<Value>,
    effects: &[Option<u32>],
    done: &Done,
) -> Result<PartUndo, AllocError>
    ensures ok { OnOk result (keys.new ≡ sets_joined value_order keys.old (key_alone (added_key effects.now done.now))) }
    ensures back { IfOk result (λ undo. UndoesPart undo (Part.Set keys.old) (Part.Set keys.new)) }
    ensures err { OnErr result (keys.new ≡ keys.old) }
{
    let Some(place) = effect_of(effects, done) else {
        return Ok(PartUndo::Same);
    };
    let step = keys.insert_step(alloc, argument(done.args.as_slice(), *place))?;
    Ok(PartUndo::Set(step))
}

/// Adds an operation's weight to the sum of its replica.
fn step_tally(
    alloc: Global,
    sums: &mut Tally,
    effects: &[Option<Leaf>],
    done: &Done,
) -> Result<PartUndo, AllocError>
    requires small { All (IsAtMost NUMBER_LIMIT) done.now.args }
    requires light { tally_weight effects.now done.now ≤ NUMBER_LIMIT }
    requires room { is_roomy sums.old ≡ true }
    ensures ok { OnOk result (sums.new ≡ bumped sums.old done.now.replica (tally_weight effects.now done.now)) }
    ensures back { IfOk result (λ undo. UndoesPart undo (Part.Tally sums.old) (Part.Tally sums.new)) }
    ensures err { OnErr result (sums.new ≡ sums.old) }
{
    let Some(leaf) = effect_of(effects, done) else {
        return Ok(PartUndo::Same);
    };
    let step = sums.bump_step(alloc, done.replica, weight(done, *leaf))?;
    Ok(PartUndo::Tally(step))
}

/// Adds an operation's weight to the sum of its replica at its key.
fn step_tallies(
    alloc: Global,
    table: &mut GrowMap<Value, Tally>,
    effects: &[Option<(u32, Leaf)>],
    done: &Done,
) -> Result<PartUndo, AllocError>
    requires small { All (IsAtMost NUMBER_LIMIT) done.now.args }
    requires light { keyed_weight effects.now done.now ≤ NUMBER_LIMIT }
    requires room { list_all (λ (e : values.Value × Sums). is_roomy e.1) table.old.entries ≡ true }
    requires start { table.old.start ≡ [] }
    ensures ok { OnOk result (table.new
        ≡ bumped_at value_order table.old (bumped_key effects.now done.now) done.now.replica (keyed_weight effects.now done.now)) }
    ensures back { IfOk result (λ undo. UndoesPart undo (Part.Tallies table.old) (Part.Tallies table.new)) }
    ensures err { OnErr result (table.new ≡ table.old) }
{
    let Some((place, leaf)) = effect_of(effects, done) else {
        return Ok(PartUndo::Same);
    };
    let key = argument(done.args.as_slice(), *place);
    bump_at(alloc, table, key, done.replica, weight(done, *leaf))
}

/// Adds a weight to a replica's sum at a key of a table.
fn bump_at(
    alloc: Global,
    table: &mut GrowMap<Value, Tally>,
    key: Value,
    replica: u32,
    weight: u128,
) -> Result<PartUndo, AllocError>
    requires light { weight ≤ NUMBER_LIMIT }
    requires room { list_all (λ (e : values.Value × Sums). is_roomy e.1) table.old.entries ≡ true }
    requires start { table.old.start ≡ [] }
    ensures ok { OnOk result (table.new ≡ bumped_at value_order table.old key replica weight) }
    ensures back { IfOk result (λ undo. UndoesPart undo (Part.Tallies table.old) (Part.Tallies table.new)) }
    ensures err { OnErr result (table.new ≡ table.old) }
{
    if weight == 0 {
        return Ok(PartUndo::Same);
    }
    let mut sums = table.get(&key).copy(alloc)?;
    sums.bump(alloc, replica, weight)?;
    tells_values_apart();
    table.start_value().goes_with(&sums);
    table.goes_at(&key, &sums);
    let step = table.join_at_step(alloc, key, &sums)?;
    Ok(PartUndo::Tallies(step))
}
