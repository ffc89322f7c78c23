//! The components that tokens stand for, read from the end.
ghost use Rattle.std.specs.Prelude.{◌≡◌, [], ◌∷◌, IfOk, map, reverse};
ghost use Rattle.kat_design.specs.Designs.{component_form};
ghost use Rattle.kat_decoding.specs.Decoded.{first_key, first_shape, decoded_parts, nothing_read, push_part, shapes_taken, start_value, start_values, with_key_sort, with_part, with_shapes, with_start};
ghost use Rattle.kat_rules.specs.declared.tokens.Token.TheVariants.{Cell, Set, Table, Tallies, Tally};
ghost use Rattle.kat_decoding.specs.Stacks.{PopsShape, read_parts, components_in, paired, shapes_in};
ghost use Rattle.kat_shape.specs.Forms.{form_of};

use crate::asks::value_at;
use crate::groups::{
    cell_groups, reversed, set_groups, table_groups, tallies_groups, tally_groups,
};
use kat_design::{Component, Kind, kinds_of};
use kat_num::{Items, Sort, Value};
use kat_rules::{Constants, Token, of_kind};
use kat_shape::Shape;
use std::alloc::{AllocError, Global};
use std::mem;

/// What was read: components, and of one that isn't closed yet its shapes, starts, effects and key sort; the last ones first.
#[derive(Drop)]
pub(crate) struct Reading {
    pub(crate) components: Vec<Component>,
    pub(crate) shapes: Vec<Shape>,
    pub(crate) starts: Vec<usize>,
    pub(crate) parts: Vec<Token>,
    pub(crate) keys: Vec<Sort>,
}

/// Puts a shape on top.
#[tactic(auto, using(crate::proofs::Stacked::shapes_pushed))]
fn push_shape(shapes: &mut Vec<Shape>, shape: Shape) -> Result<(), AllocError>
    ensures { IfOk result (λ _. shapes_in shapes.new.items ≡ form_of shape ∷ shapes_in shapes.old.items) }
{
    shapes.push(shape)?;
    Ok(())
}

/// Takes the shape on top.
#[tactic(auto, using(crate::proofs::Stacked::shapes_pushed))]
fn pop_shape(shapes: &mut Vec<Shape>) -> Option<Shape>
    ensures { PopsShape (shapes_in shapes.old.items) (shapes_in shapes.new.items) result }
{
    shapes.pop()
}

/// One shape of two.
fn pair(alloc: Global, is_lex: bool, first: Shape, second: Shape) -> Result<Shape, AllocError>
    ensures { IfOk result (λ shape. form_of shape ≡ paired is_lex (form_of first) (form_of second)) }
{
    let first = Box::new(alloc, first)?;
    let second = Box::new(alloc, second)?;
    match is_lex {
        true => Ok(Shape::Lex(first, second)),
        false => Ok(Shape::Pair(first, second)),
    }
}

/// Pairs the two shapes on top, if there are two.
fn pair_top(alloc: Global, shapes: &mut Vec<Shape>, is_lex: bool) -> Result<(), AllocError>
    ensures { IfOk result (λ _. shapes_in shapes.new.items ≡ shapes_taken (paired is_lex) (shapes_in shapes.old.items)) }
{
    match pop_shape(shapes) {
        None => Ok(()),
        Some(first) => pair_with(alloc, shapes, is_lex, first),
    }
}

/// Pairs a shape with the one on top, if there is one, and puts it on top.
fn pair_with(
    alloc: Global,
    shapes: &mut Vec<Shape>,
    is_lex: bool,
    first: Shape,
) -> Result<(), AllocError>
    ensures { IfOk result (λ _. shapes_in shapes.new.items ≡ shapes_taken (paired is_lex) (form_of first ∷ shapes_in shapes.old.items)) }
{
    match pop_shape(shapes) {
        None => push_shape(shapes, first),
        Some(second) => {
            let both = pair(alloc, is_lex, first, second)?;
            push_shape(shapes, both)
        }
    }
}

/// The shape on top.
fn first_shape(shapes: Vec<Shape>) -> Shape
    ensures { form_of result ≡ first_shape (shapes_in shapes.items) }
{
    let mut shapes = shapes;
    match pop_shape(&mut shapes) {
        None => Shape::Max,
        Some(shape) => shape,
    }
}

/// The key sort on top.
#[tactic(auto, using(crate::proofs::Stacked::pushed))]
fn first_key(keys: &[Sort]) -> Sort
    ensures { result ≡ first_key (reverse keys.now) }
{
    match keys {
        [] => Sort::Int,
        [.., key] => *key,
    }
}

/// The start of a kind at a place of the constants.
fn start_value(constants: &Constants, kind: Kind, place: usize) -> Value
    ensures { result ≡ start_value constants.now (kind, place) }
{
    value_at(of_kind(constants, kind), place)
}

/// The starts of these kinds at places of the constants.
fn start_values(
    alloc: Global,
    constants: &Constants,
    kinds: &[Kind],
    places: &[usize],
) -> Result<Vec<Value>, AllocError>
    ensures { IfOk result (λ values. values.items ≡ start_values constants.now kinds.now places.now) }
{
    kinds
        .iter()
        .copied()
        .zip(places.iter().copied())
        .map(|start| start_value(constants, start.0, start.1))
        .collect(alloc)
}

/// A component after those that were read.
#[tactic(auto, using(crate::proofs::Stacked::components_pushed))]
fn with_component(
    alloc: Global,
    components: Vec<Component>,
    component: Component,
) -> Result<Reading, AllocError>
    ensures { IfOk result (λ r. read_parts r ≡ record {
      components = component_form component ∷ components_in
          components.items;
      shapes = [];
      starts = [];
      parts = [];
      keys = [];
    }) }
{
    let mut components = components;
    components.push(component)?;
    Ok(Reading {
        components,
        shapes: Vec::new(alloc),
        starts: Vec::new(alloc),
        parts: Vec::new(alloc),
        keys: Vec::new(alloc),
    })
}

/// A cell is closed.
fn close_cell(alloc: Global, constants: &Constants, reading: &mut Reading) -> Result<(), AllocError>
    ensures { IfOk result (λ _. read_parts reading.new ≡ push_part constants.now Cell (read_parts reading.old)) }
{
    let read = mem::replace(reading, nothing_read(alloc));
    let shape = first_shape(read.shapes);
    let kinds = kinds_of(alloc, &shape)?;
    let places = reversed(read.starts);
    let starts = start_values(alloc, constants, &kinds, places.as_slice())?;
    let parts = reversed(read.parts);
    let groups = cell_groups(alloc, kinds.len(), parts.as_slice())?;
    let cell = Component::Cell {
        shape,
        starts: Items::from_vec(starts),
        effects: reversed(groups.effects),
    };
    *reading = with_component(alloc, read.components, cell)?;
    Ok(())
}

/// A table is closed.
fn close_table(
    alloc: Global,
    constants: &Constants,
    reading: &mut Reading,
) -> Result<(), AllocError>
    ensures { IfOk result (λ _. read_parts reading.new ≡ push_part constants.now Table (read_parts reading.old)) }
{
    let read = mem::replace(reading, nothing_read(alloc));
    let shape = first_shape(read.shapes);
    let kinds = kinds_of(alloc, &shape)?;
    let places = reversed(read.starts);
    let starts = start_values(alloc, constants, &kinds, places.as_slice())?;
    let parts = reversed(read.parts);
    let groups = table_groups(alloc, parts.as_slice())?;
    let table = Component::Table {
        key: first_key(&read.keys),
        shape,
        starts: Items::from_vec(starts),
        effects: reversed(groups.effects),
    };
    *reading = with_component(alloc, read.components, table)?;
    Ok(())
}

/// A set is closed.
fn close_set(alloc: Global, constants: &Constants, reading: &mut Reading) -> Result<(), AllocError>
    ensures { IfOk result (λ _. read_parts reading.new ≡ push_part constants.now Set (read_parts reading.old)) }
{
    let read = mem::replace(reading, nothing_read(alloc));
    let parts = reversed(read.parts);
    let effects = set_groups(alloc, parts.as_slice())?;
    let set = Component::Set {
        key: first_key(&read.keys),
        effects: reversed(effects),
    };
    *reading = with_component(alloc, read.components, set)?;
    Ok(())
}

/// A tally is closed.
fn close_tally(
    alloc: Global,
    constants: &Constants,
    reading: &mut Reading,
) -> Result<(), AllocError>
    ensures { IfOk result (λ _. read_parts reading.new ≡ push_part constants.now Tally (read_parts reading.old)) }
{
    let read = mem::replace(reading, nothing_read(alloc));
    let parts = reversed(read.parts);
    let effects = tally_groups(alloc, parts.as_slice())?;
    let tally = Component::Tally {
        effects: reversed(effects),
    };
    *reading = with_component(alloc, read.components, tally)?;
    Ok(())
}

/// `tallies` are closed.
fn close_tallies(
    alloc: Global,
    constants: &Constants,
    reading: &mut Reading,
) -> Result<(), AllocError>
    ensures { IfOk result (λ _. read_parts reading.new ≡ push_part constants.now Tallies (read_parts reading.old)) }
{
    let read = mem::replace(reading, nothing_read(alloc));
    let parts = reversed(read.parts);
    let groups = tallies_groups(alloc, parts.as_slice())?;
    let tallies = Component::Tallies {
        key: first_key(&read.keys),
        effects: reversed(groups.effects),
    };
    *reading = with_component(alloc, read.components, tallies)?;
    Ok(())
}

/// Reads one more token.
#[tactic(auto, using(crate::proofs::Stacked::pushed))]
fn push_part(
    alloc: Global,
    constants: &Constants,
    reading: &mut Reading,
    token: Token,
) -> Result<(), AllocError>
    ensures { IfOk result (λ _. read_parts reading.new ≡ push_part constants.now token (read_parts reading.old)) }
{
    match token {
        Token::Cell => close_cell(alloc, constants, reading),
        Token::Table => close_table(alloc, constants, reading),
        Token::Set => close_set(alloc, constants, reading),
        Token::Tally => close_tally(alloc, constants, reading),
        Token::Tallies => close_tallies(alloc, constants, reading),
        Token::Keys(sort) => {
            reading.keys.push(sort)?;
            Ok(())
        }
        Token::Max => push_shape(&mut reading.shapes, Shape::Max),
        Token::Name => push_shape(&mut reading.shapes, Shape::Name),
        Token::Or => push_shape(&mut reading.shapes, Shape::Or),
        Token::Lex => pair_top(alloc, &mut reading.shapes, true),
        Token::Pair => pair_top(alloc, &mut reading.shapes, false),
        Token::Start(place) => {
            reading.starts.push(place)?;
            Ok(())
        }
        Token::Nothing | Token::At(_) | Token::Effect(_) => {
            reading.parts.push(token)?;
            Ok(())
        }
        _ => Ok(()),
    }
}

/// Reads tokens, when nothing was read yet.
fn stack_parts(
    alloc: Global,
    constants: &Constants,
    reading: &mut Reading,
    tokens: &[Token],
) -> Result<(), AllocError>
    requires { read_parts reading.old ≡ nothing_read }
    ensures { IfOk result (λ _. read_parts reading.new ≡ decoded_parts constants.now tokens.now) }
{
    match tokens {
        [] => Ok(()),
        [first, rest @ ..] => {
            stack_parts(alloc, constants, reading, rest)?;
            push_part(alloc, constants, reading, *first)
        }
    }
}

/// Nothing was read yet.
fn nothing_read(alloc: Global) -> Reading
    ensures { read_parts result ≡ nothing_read }
{
    Reading {
        components: Vec::new(alloc),
        shapes: Vec::new(alloc),
        starts: Vec::new(alloc),
        parts: Vec::new(alloc),
        keys: Vec::new(alloc),
    }
}

/// The components that tokens stand for, in their order.
#[tactic(auto, using(crate::proofs::Stacked::components_reversed))]
pub(crate) fn decode_components(
    alloc: Global,
    constants: &Constants,
    tokens: &[Token],
) -> Result<Vec<Component>, AllocError>
    ensures { IfOk result (λ components. map component_form components.items ≡ (decoded_parts constants.now tokens.now).components) }
{
    let mut reading = nothing_read(alloc);
    stack_parts(alloc, constants, &mut reading, tokens)?;
    let mut components = reading.components;
    components.reverse();
    Ok(components)
}
