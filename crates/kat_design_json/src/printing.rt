//! Printing designs: a JSON value for each part.
ghost use Rattle.std.specs.Prelude.{◌≡◌, [], IfOk, map};
ghost use Rattle.kat_design.specs.Designs.{design_form, component_form, ask_form};
ghost use Rattle.kat_design.specs.Faults.{faults_of};
ghost use Rattle.kat_design_json.specs.PrintedDesigns.{design_text, design_data, component_data, shape_data, ask_data};
ghost use Rattle.serde_json.specs.View.{view};
ghost use Rattle.kat_design.specs.Sorted.{EachHas, IsWritten};
ghost use Rattle.kat_json.specs.Lists.{list};
ghost use Rattle.kat_design_json.specs.WrittenParts.{HasWrittenStarts, HasWrittenConstants};
ghost use Rattle.kat_shape.specs.Forms.{form_of};
ghost use Rattle.kat_design.specs.Designs.ComponentForm.{a_cell, a_table, a_set, a_tally, tallies};
ghost use Rattle.kat_design.specs.Designs.AskForm.{leaf as a_leaf};
ghost use Rattle.kat_json.specs.Printed.{value_data};

use kat_design::{Ask, Component, Design, Leaf};
use kat_json::forms::{EffectLeaf, EffectOf, Key, KeyedBy, ListOf};
use kat_json::printing::{Print, constant_value, sort_value, three, word};
use kat_num::{Items, Sort, Value as Constant};
use kat_shape::Shape;
use serde_json::Value;
use std::alloc::{AllocError, Global};

/// The compact text of an accepted design: `[COMPONENTS,ASKS]`, as it is in its file.
pub fn design_text(alloc: Global, design: &Design) -> Result<Vec<u8>, AllocError>
    requires { faults_of (design_form design.now) ≡ [] }
    ensures { IfOk result (λ text. text.items ≡ design_text (design_form design.now)) }
{
    let value = design_value(alloc, design)?;
    value.to_vec(alloc)
}

/// An accepted design.
pub fn design_value(alloc: Global, design: &Design) -> Result<Value, AllocError>
    requires { faults_of (design_form design.now) ≡ [] }
    ensures { IfOk result (λ value. view value ≡ design_data (design_form design.now)) }
{
    let components = components_value(alloc, design.components.as_slice())?;
    let asks = asks_value(alloc, design.asks.as_slice())?;
    Ok(Value::from(vec![in alloc; components, asks]?))
}

fn components_value(alloc: Global, components: &[Component]) -> Result<Value, AllocError>
    requires { EachHas HasWrittenStarts (map component_form components.now) }
    ensures { IfOk result (λ value. view value ≡ list (map component_data (map component_form components.now))) }
{
    let mut values = Vec::with_capacity(alloc, components.len())?;
    for i in 0..components.len() {
        let value = component_value(alloc, &components[i])?;
        values.push(value)?;
    }
    Ok(Value::from(values))
}

fn component_value(alloc: Global, component: &Component) -> Result<Value, AllocError>
    requires { HasWrittenStarts (component_form component.now) }
    ensures { IfOk result (λ value. view value ≡ component_data (component_form component.now)) }
{
    match component {
        Component::Cell {
            shape,
            starts,
            effects,
        } => cell_value(alloc, shape, starts.as_slice(), effects),
        Component::Table {
            key,
            shape,
            starts,
            effects,
        } => table_value(alloc, *key, shape, starts.as_slice(), effects),
        Component::Set { key, effects } => set_value(alloc, *key, effects),
        Component::Tally { effects } => tally_value(alloc, effects),
        Component::Tallies { key, effects } => tallies_value(alloc, *key, effects),
    }
}

fn cell_value(
    alloc: Global,
    shape: &Shape,
    starts: &[Constant],
    effects: &Items<Option<Items<Leaf>>>,
) -> Result<Value, AllocError>
    requires { EachHas IsWritten starts.now }
    ensures { IfOk result (λ value. view value ≡ component_data (a_cell (form_of shape.now) starts.now effects.now)) }
{
    let word = word(alloc, "cell")?;
    let shape = shape_value(alloc, shape)?;
    let starts = starts_value(alloc, starts)?;
    let effects = ListOf::<EffectOf<ListOf<EffectLeaf>>>::value(alloc, effects)?;
    Ok(Value::from(vec![in alloc; word, shape, starts, effects]?))
}

fn table_value(
    alloc: Global,
    key: Sort,
    shape: &Shape,
    starts: &[Constant],
    effects: &Items<Option<(u32, Items<Leaf>)>>,
) -> Result<Value, AllocError>
    requires { EachHas IsWritten starts.now }
    ensures { IfOk result (λ value. view value ≡ component_data (a_table key (form_of shape.now) starts.now effects.now)) }
{
    let word = word(alloc, "table")?;
    let key = sort_value(alloc, key)?;
    let shape = shape_value(alloc, shape)?;
    let starts = starts_value(alloc, starts)?;
    let effects = ListOf::<EffectOf<KeyedBy<ListOf<EffectLeaf>>>>::value(alloc, effects)?;
    Ok(Value::from(vec![in alloc; word, key, shape, starts, effects]?))
}

fn set_value(alloc: Global, key: Sort, effects: &Items<Option<u32>>) -> Result<Value, AllocError>
    ensures { IfOk result (λ value. view value ≡ component_data (a_set key effects.now)) }
{
    let word = word(alloc, "set")?;
    let key = sort_value(alloc, key)?;
    let effects = ListOf::<EffectOf<Key>>::value(alloc, effects)?;
    Ok(Value::from(vec![in alloc; word, key, effects]?))
}

fn tally_value(alloc: Global, effects: &Items<Option<Leaf>>) -> Result<Value, AllocError>
    ensures { IfOk result (λ value. view value ≡ component_data (a_tally effects.now)) }
{
    let word = word(alloc, "tally")?;
    let effects = ListOf::<EffectOf<EffectLeaf>>::value(alloc, effects)?;
    Ok(Value::from(vec![in alloc; word, effects]?))
}

fn tallies_value(
    alloc: Global,
    key: Sort,
    effects: &Items<Option<(u32, Leaf)>>,
) -> Result<Value, AllocError>
    ensures { IfOk result (λ value. view value ≡ component_data (tallies key effects.now)) }
{
    let word = word(alloc, "tallies")?;
    let key = sort_value(alloc, key)?;
    let effects = ListOf::<EffectOf<KeyedBy<EffectLeaf>>>::value(alloc, effects)?;
    Ok(Value::from(vec![in alloc; word, key, effects]?))
}

/// A shape.
fn shape_value(alloc: Global, shape: &Shape) -> Result<Value, AllocError>
    ensures { IfOk result (λ value. view value ≡ shape_data (form_of shape.now)) }
{
    match shape {
        Shape::Max => word(alloc, "max"),
        Shape::Name => word(alloc, "name"),
        Shape::Or => word(alloc, "or"),
        Shape::Lex(first, second) => {
            let first = shape_value(alloc, first)?;
            let second = shape_value(alloc, second)?;
            three(alloc, "lex", first, second)
        }
        Shape::Pair(first, second) => {
            let first = shape_value(alloc, first)?;
            let second = shape_value(alloc, second)?;
            three(alloc, "pair", first, second)
        }
    }
}

fn asks_value(alloc: Global, asks: &[Ask]) -> Result<Value, AllocError>
    requires { EachHas HasWrittenConstants (map ask_form asks.now) }
    ensures { IfOk result (λ value. view value ≡ list (map ask_data (map ask_form asks.now))) }
{
    let mut values = Vec::with_capacity(alloc, asks.len())?;
    for i in 0..asks.len() {
        let value = ask_value(alloc, &asks[i])?;
        values.push(value)?;
    }
    Ok(Value::from(values))
}

fn ask_value(alloc: Global, ask: &Ask) -> Result<Value, AllocError>
    requires { HasWrittenConstants (ask_form ask.now) }
    ensures { IfOk result (λ value. view value ≡ ask_data (ask_form ask.now)) }
{
    match ask {
        Ask::Leaf {
            component,
            leaf,
            key,
        } => leaf_value(alloc, *component, *leaf, *key),
        Ask::Arg(place) => {
            let word = word(alloc, "p")?;
            let place = Value::from(*place);
            Ok(Value::from(vec![in alloc; word, place]?))
        }
        Ask::Const(constant) => constant_value(alloc, *constant),
        Ask::Not(first) => {
            let first = ask_value(alloc, first)?;
            let word = word(alloc, "not")?;
            Ok(Value::from(vec![in alloc; word, first]?))
        }
        Ask::And(first, second) => {
            let first = ask_value(alloc, first)?;
            let second = ask_value(alloc, second)?;
            three(alloc, "and", first, second)
        }
        Ask::Or(first, second) => {
            let first = ask_value(alloc, first)?;
            let second = ask_value(alloc, second)?;
            three(alloc, "or", first, second)
        }
        Ask::Less(first, second) => {
            let first = ask_value(alloc, first)?;
            let second = ask_value(alloc, second)?;
            three(alloc, "<", first, second)
        }
        Ask::Plus(first, second) => {
            let first = ask_value(alloc, first)?;
            let second = ask_value(alloc, second)?;
            three(alloc, "+", first, second)
        }
        Ask::Minus(first, second) => {
            let first = ask_value(alloc, first)?;
            let second = ask_value(alloc, second)?;
            three(alloc, "-", first, second)
        }
    }
}

/// A leaf of a component, with or without a key.
fn leaf_value(
    alloc: Global,
    component: u32,
    leaf: u32,
    key: Option<u32>,
) -> Result<Value, AllocError>
    ensures { IfOk result (λ value. view value ≡ ask_data (a_leaf component leaf key)) }
{
    let word = word(alloc, "leaf")?;
    let component = Value::from(component);
    let leaf = Value::from(leaf);
    match key {
        Some(key) => {
            let key = Value::from(key);
            Ok(Value::from(vec![in alloc; word, component, leaf, key]?))
        }
        None => Ok(Value::from(vec![in alloc; word, component, leaf]?)),
    }
}

/// The starts of a cell or a table.
fn starts_value(alloc: Global, starts: &[Constant]) -> Result<Value, AllocError>
    requires { EachHas IsWritten starts.now }
    ensures { IfOk result (λ value. view value ≡ list (map value_data starts.now)) }
{
    let mut values = Vec::with_capacity(alloc, starts.len())?;
    for i in 0..starts.len() {
        let value = constant_value(alloc, starts[i])?;
        values.push(value)?;
    }
    Ok(Value::from(values))
}
