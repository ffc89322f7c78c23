//! The state that a state file gives, if it is a possible one.
ghost use Rattle.std.specs.Prelude.{◌≡◌, [], IfErr, IfOk, map};
ghost use Rattle.kat_design.specs.Designs.{component_form};
ghost use Rattle.kat_design.specs.Faults.{each_faults};
ghost use Rattle.kat_design.specs.Sorted.{EachHas};
ghost use Rattle.kat_design.specs.declared.states.Part.TheVariants.{Set, Table, Tallies};
ghost use Rattle.kat_replica.specs.Starting.{HasStarts};
ghost use Rattle.kat_shape.specs.Flats.{filled_with};
ghost use Rattle.kat_shape.specs.Forms.{IsGoodForm, form_of, leaf_kind_of, leaf_kinds_of};
ghost use Rattle.kat_json.specs.Refused.{IsRefused, IsSaid};
ghost use Rattle.kat_node.specs.Possible.{cell_entry_made, pair_faults, part_faults, part_made, parts_made, set_faults, table_faults, tallies_faults, tally_entry_made};
ghost use Rattle.kat_node.specs.StateForms.{zipped};

use crate::making::{cell_made, set_made, tallies_made, tally_made};
use crate::stated::Stated;
use crate::tables::table_made;
use kat_design::{Component, Part};
use kat_json::WireError;
use kat_json::forms::{here, within};
use kat_lattice::GrowMap;
use kat_num::{Items, Sort, Value};
use kat_shape::{Cell, Shape, cell};
use std::alloc::Global;

/// The parts that are said of components.
pub(crate) fn parts_made(
    alloc: Global,
    components: &[Component],
    parts: &[Stated],
) -> Result<Vec<Part>, WireError>
    requires { EachHas HasStarts (map component_form components.now) }
    ensures said { IfOk result
        (λ made. IsSaid (each_faults pair_faults 0 (zipped (map component_form components.now) parts.now))
        (parts_made (map component_form components.now) parts.now) made.items) }
    ensures refused { IfErr result (IsRefused (each_faults pair_faults 0 (zipped (map component_form components.now) parts.now))) }
{
    let mut made = Vec::new(alloc);
    for i in 0..components.len().min(parts.len()) {
        let item = within(alloc, i, part_made(alloc, &components[i], &parts[i]))?;
        made.push(item)?;
    }
    Ok(made)
}

/// The part that is said of a component.
fn part_made(alloc: Global, component: &Component, stated: &Stated) -> Result<Part, WireError>
    requires { HasStarts (component_form component.now) }
    ensures said { IfOk result
        (IsSaid (part_faults (component_form component.now) stated.now) (part_made (component_form component.now) stated.now)) }
    ensures refused { IfErr result (IsRefused (part_faults (component_form component.now) stated.now)) }
{
    match component {
        Component::Cell { shape, .. } => match stated {
            Stated::Cell(leaves) => {
                let cell = cell_made(alloc, shape, leaves.as_slice())?;
                Ok(Part::Cell(cell))
            }
            Stated::Table(_) | Stated::Set(_) | Stated::Tally(_) | Stated::Tallies(_) => {
                Err(here(alloc))
            }
        },
        Component::Table {
            key,
            shape,
            starts,
            ..
        } => match stated {
            Stated::Table(entries) => { table_stated(alloc, *key, shape, starts, entries) }
            Stated::Cell(_) | Stated::Set(_) | Stated::Tally(_) | Stated::Tallies(_) => {
                Err(here(alloc))
            }
        },
        Component::Set { key, .. } => match stated {
            Stated::Set(keys) => { set_stated(alloc, *key, keys) }
            Stated::Cell(_) | Stated::Table(_) | Stated::Tally(_) | Stated::Tallies(_) => {
                Err(here(alloc))
            }
        },
        Component::Tally { .. } => match stated {
            Stated::Tally(sums) => {
                let tally = tally_made(alloc, sums.as_slice())?;
                Ok(Part::Tally(tally))
            }
            Stated::Cell(_) | Stated::Table(_) | Stated::Set(_) | Stated::Tallies(_) => {
                Err(here(alloc))
            }
        },
        Component::Tallies { key, .. } => match stated {
            Stated::Tallies(entries) => { tallies_stated(alloc, *key, entries) }
            Stated::Cell(_) | Stated::Table(_) | Stated::Set(_) | Stated::Tally(_) => {
                Err(here(alloc))
            }
        },
    }
}

/// A table of a shape and its starts.
fn table_part(
    alloc: Global,
    key: Sort,
    shape: &Shape,
    starts: &[Value],
    entries: &[(Value, Items<Value>)],
) -> Result<GrowMap<Value, Cell>, WireError>
    requires good { IsGoodForm (form_of shape.now) }
    requires fit { map leaf_kind_of starts.now ≡ leaf_kinds_of (form_of shape.now) }
    ensures said { IfOk result
        (λ table. IsSaid (table_faults key (form_of shape.now) (filled_with (form_of shape.now) starts.now) entries.now)
        (record {
          start = filled_with (form_of shape.now) starts.now;
          entries = map (cell_entry_made (form_of shape.now)) entries.now;
        }) table) }
    ensures refused { IfErr result
        (IsRefused (table_faults key (form_of shape.now) (filled_with (form_of shape.now) starts.now) entries.now)) }
{
    let start = cell(alloc, shape, starts)?;
    table_made(alloc, key, start, entries)
}

fn table_stated(
    alloc: Global,
    key: Sort,
    shape: &Shape,
    starts: &Items<Value>,
    entries: &Items<(Value, Items<Value>)>,
) -> Result<Part, WireError>
    requires good { IsGoodForm (form_of shape.now) }
    requires fit { map leaf_kind_of starts.now ≡ leaf_kinds_of (form_of shape.now) }
    ensures said { IfOk result
        (IsSaid (table_faults key (form_of shape.now) (filled_with (form_of shape.now) starts.now) entries.now)
        (Table (record {
          start = filled_with (form_of shape.now) starts.now;
          entries = map (cell_entry_made (form_of shape.now)) entries.now;
        }))) }
    ensures refused { IfErr result
        (IsRefused (table_faults key (form_of shape.now) (filled_with (form_of shape.now) starts.now) entries.now)) }
{
    let table = table_part(alloc, key, shape, starts.as_slice(), entries.as_slice())?;
    Ok(Part::Table(table))
}

fn set_stated(alloc: Global, key: Sort, keys: &Items<Value>) -> Result<Part, WireError>
    ensures said { IfOk result (IsSaid (set_faults key keys.now) (Set keys.now)) }
    ensures refused { IfErr result (IsRefused (set_faults key keys.now)) }
{
    let set = set_made(alloc, key, keys.as_slice())?;
    Ok(Part::Set(set))
}

fn tallies_stated(
    alloc: Global,
    key: Sort,
    entries: &Items<(Value, Items<(i128, i128)>)>,
) -> Result<Part, WireError>
    ensures said { IfOk result
        (IsSaid (tallies_faults key entries.now) (Tallies (record { start = []; entries = map tally_entry_made entries.now }))) }
    ensures refused { IfErr result (IsRefused (tallies_faults key entries.now)) }
{
    let table = tallies_made(alloc, key, entries.as_slice())?;
    Ok(Part::Tallies(table))
}
