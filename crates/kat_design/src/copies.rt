//! Copies of designs and states, with memory of their own.
ghost use Rattle.std.specs.Prelude.{◌≡◌, IfOk, map};
ghost use Rattle.kat_design.specs.Designs.{ask_form, component_form, design_form};

use crate::designs::{Ask, Component, Design, Leaf};
use crate::states::{Part, State};
use kat_lattice::Lattice;
use kat_num::Items;
use std::alloc::{AllocError, Global};

impl Design {
    /// An equal design: the same signature, components and asks.
    pub fn copy(&self, alloc: Global) -> Result<Design, AllocError>
        ensures { IfOk result (λ copy. design_form copy ≡ design_form self.now) }
    {
        let components = copied_components(alloc, self.components.as_slice())?;
        let asks = copied_asks(alloc, self.asks.as_slice())?;
        Ok(Design {
            sig: self.sig.copy(alloc)?,
            components: Items::from_vec(components),
            asks: Items::from_vec(asks),
        })
    }
}

impl Component {
    /// An equal component.
    pub fn copy(&self, alloc: Global) -> Result<Component, AllocError>
        ensures { IfOk result (λ copy. component_form copy ≡ component_form self.now) }
    {
        match self {
            Component::Cell {
                shape,
                starts,
                effects,
            } => Ok(Component::Cell {
                shape: shape.copy(alloc)?,
                starts: copied(alloc, starts)?,
                effects: copied_cell_effects(alloc, effects.as_slice())?,
            }),
            Component::Table {
                key,
                shape,
                starts,
                effects,
            } => Ok(Component::Table {
                key: *key,
                shape: shape.copy(alloc)?,
                starts: copied(alloc, starts)?,
                effects: copied_table_effects(alloc, effects.as_slice())?,
            }),
            Component::Set { key, effects } => Ok(Component::Set {
                key: *key,
                effects: copied(alloc, effects)?,
            }),
            Component::Tally { effects } => Ok(Component::Tally {
                effects: copied(alloc, effects)?,
            }),
            Component::Tallies { key, effects } => Ok(Component::Tallies {
                key: *key,
                effects: copied(alloc, effects)?,
            }),
        }
    }
}

impl Ask {
    /// An equal ask.
    pub fn copy(&self, alloc: Global) -> Result<Ask, AllocError>
        ensures { IfOk result (λ copy. ask_form copy ≡ ask_form self.now) }
    {
        match self {
            Ask::Leaf {
                component,
                leaf,
                key,
            } => Ok(Ask::Leaf {
                component: *component,
                leaf: *leaf,
                key: *key,
            }),
            Ask::Arg(place) => Ok(Ask::Arg(*place)),
            Ask::Const(value) => Ok(Ask::Const(*value)),
            Ask::Not(denied) => Ok(Ask::Not(Box::new(alloc, denied.copy(alloc)?)?)),
            Ask::And(left, right) => {
                let left = Box::new(alloc, left.copy(alloc)?)?;
                let right = Box::new(alloc, right.copy(alloc)?)?;
                Ok(Ask::And(left, right))
            }
            Ask::Or(left, right) => {
                let left = Box::new(alloc, left.copy(alloc)?)?;
                let right = Box::new(alloc, right.copy(alloc)?)?;
                Ok(Ask::Or(left, right))
            }
            Ask::Less(left, right) => {
                let left = Box::new(alloc, left.copy(alloc)?)?;
                let right = Box::new(alloc, right.copy(alloc)?)?;
                Ok(Ask::Less(left, right))
            }
            Ask::Plus(left, right) => {
                let left = Box::new(alloc, left.copy(alloc)?)?;
                let right = Box::new(alloc, right.copy(alloc)?)?;
                Ok(Ask::Plus(left, right))
            }
            Ask::Minus(left, right) => {
                let left = Box::new(alloc, left.copy(alloc)?)?;
                let right = Box::new(alloc, right.copy(alloc)?)?;
                Ok(Ask::Minus(left, right))
            }
        }
    }
}

impl State {
    /// An equal state.
    pub fn copy(&self, alloc: Global) -> Result<State, AllocError>
        ensures { IfOk result (λ copy. copy ≡ self.now) }
    {
        Ok(State {
            parts: Items::from_vec(copied_parts(alloc, self.parts.as_slice())?),
        })
    }
}

impl Part {
    /// An equal part.
    pub fn copy(&self, alloc: Global) -> Result<Part, AllocError>
        ensures { IfOk result (λ copy. copy ≡ self.now) }
    {
        match self {
            Part::Cell(cell) => Ok(Part::Cell(cell.copy(alloc)?)),
            Part::Table(table) => Ok(Part::Table(table.copy(alloc)?)),
            Part::Set(keys) => Ok(Part::Set(keys.copy(alloc)?)),
            Part::Tally(sums) => Ok(Part::Tally(sums.copy(alloc)?)),
            Part::Tallies(table) => Ok(Part::Tallies(table.copy(alloc)?)),
        }
    }
}

/// The same elements, in their order.
fn copied<T: Copy>(alloc: Global, items: &Items<T>) -> Result<Items<T>, AllocError>
    ensures { IfOk result (λ copy. copy ≡ items.now) }
{
    Ok(Items::from_vec(Vec::from_slice(alloc, items.as_slice())?))
}

/// The same leaves, or none.
fn copied_leaves(
    alloc: Global,
    effect: &Option<Items<Leaf>>,
) -> Result<Option<Items<Leaf>>, AllocError>
    ensures { IfOk result (λ copy. copy ≡ effect.now) }
{
    match effect {
        None => Ok(None),
        Some(leaves) => Ok(Some(copied(alloc, leaves)?)),
    }
}

/// The same key and leaves, or none.
fn copied_entry(
    alloc: Global,
    effect: &Option<(u32, Items<Leaf>)>,
) -> Result<Option<(u32, Items<Leaf>)>, AllocError>
    ensures { IfOk result (λ copy. copy ≡ effect.now) }
{
    match effect {
        None => Ok(None),
        Some((key, leaves)) => Ok(Some((*key, copied(alloc, leaves)?))),
    }
}

/// Equal effects on a cell, in their order.
fn copied_cell_effects(
    alloc: Global,
    effects: &[Option<Items<Leaf>>],
) -> Result<Items<Option<Items<Leaf>>>, AllocError>
    ensures { IfOk result (λ copies. copies ≡ effects.now) }
{
    let mut copies = Vec::new(alloc);
    for effect in effects {
        copies.push(copied_leaves(alloc, effect)?)?;
    }
    Ok(Items::from_vec(copies))
}

/// Equal effects on a table, in their order.
fn copied_table_effects(
    alloc: Global,
    effects: &[Option<(u32, Items<Leaf>)>],
) -> Result<Items<Option<(u32, Items<Leaf>)>>, AllocError>
    ensures { IfOk result (λ copies. copies ≡ effects.now) }
{
    let mut copies = Vec::new(alloc);
    for effect in effects {
        copies.push(copied_entry(alloc, effect)?)?;
    }
    Ok(Items::from_vec(copies))
}

/// Equal components, in their order.
fn copied_components(alloc: Global, components: &[Component]) -> Result<Vec<Component>, AllocError>
    ensures { IfOk result (λ copies. map component_form copies.items ≡ map component_form components.now) }
{
    let mut copies = Vec::new(alloc);
    for component in components {
        copies.push(component.copy(alloc)?)?;
    }
    Ok(copies)
}

/// Equal asks, in their order.
fn copied_asks(alloc: Global, asks: &[Ask]) -> Result<Vec<Ask>, AllocError>
    ensures { IfOk result (λ copies. map ask_form copies.items ≡ map ask_form asks.now) }
{
    let mut copies = Vec::new(alloc);
    for ask in asks {
        copies.push(ask.copy(alloc)?)?;
    }
    Ok(copies)
}

/// Equal parts, in their order.
fn copied_parts(alloc: Global, parts: &[Part]) -> Result<Vec<Part>, AllocError>
    ensures { IfOk result (λ copies. copies.items ≡ parts.now) }
{
    let mut copies = Vec::new(alloc);
    for part in parts {
        copies.push(part.copy(alloc)?)?;
    }
    Ok(copies)
}
