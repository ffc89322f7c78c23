//! The size of a design, and the limits on it.
ghost use Rattle.std.specs.Prelude.{◌≡◌, ◌+◌, ◌-◌, ◌^◌, ◌≤◌, ◌<◌, min, map, sum_by, length};
ghost use Rattle.kat_design.specs.Designs.{ask_form, component_form, design_form};
ghost use Rattle.kat_design.specs.Sizes.{ask_nodes, cell_leaves, component_size, one_leaf, size_of, table_leaves};
ghost use Rattle.kat_shape.specs.Forms.{form_of, nodes_of};

use crate::designs::{Ask, Component, Design, Leaf};
use kat_num::Items;
use kat_shape::Shape;

/// The greatest number of components of a design.
pub const COMPONENT_LIMIT: usize = 8;

/// The greatest size of a design.
pub const SIZE_LIMIT: usize = 64;

/// The size of a design: the nodes of its shapes and asks, one for each table, set and tally, two for `tallies`, and
/// the leaves of its effects. A size that isn't below 2^32 is given as 2^32 - 1, so it is never too small to be refused.
pub fn size(design: &Design) -> u32
    ensures { result ≡ min (size_of (design_form design.now)) (2 ^ 32 - 1) }
{
    match u32::try_from(whole_size(design)) {
        Ok(size) => size,
        Err(_) => u32::MAX,
    }
}

/// The same, up to 2^64 - 1.
fn whole_size(design: &Design) -> usize
    ensures { result ≡ min (size_of (design_form design.now)) (2 ^ 64 - 1) }
{
    let components = components_size(design.components.as_slice());
    let asks = asks_size(design.asks.as_slice());
    components.saturating_add(asks)
}

/// The size of components.
fn components_size(components: &[Component]) -> usize
    ensures { result ≡ min (sum_by component_size (map component_form components.now)) (2 ^ 64 - 1) }
{
    let mut total: usize = 0;
    for component in components {
        total = total.saturating_add(component_size(component));
    }
    total
}

/// The nodes of asks.
fn asks_size(asks: &[Ask]) -> usize
    ensures { result ≡ min (sum_by ask_nodes (map ask_form asks.now)) (2 ^ 64 - 1) }
{
    let mut total: usize = 0;
    for ask in asks {
        total = total.saturating_add(ask_nodes(ask));
    }
    total
}

/// The size of a component.
fn component_size(component: &Component) -> usize
    ensures { result ≡ min (component_size (component_form component.now)) (2 ^ 64 - 1) }
{
    match component {
        Component::Cell { shape, effects, .. } => {
            shape_nodes(shape).saturating_add(cell_leaves(effects.as_slice()))
        }
        Component::Table { shape, effects, .. } => {
            let kept = shape_nodes(shape).saturating_add(1);
            kept.saturating_add(table_leaves(effects.as_slice()))
        }
        Component::Set { effects, .. } => count_effects(effects.as_slice()).saturating_add(1),
        Component::Tally { effects } => count_effects(effects.as_slice()).saturating_add(1),
        Component::Tallies { effects, .. } => count_effects(effects.as_slice()).saturating_add(2),
    }
}

/// The nodes of a shape.
fn shape_nodes(shape: &Shape) -> usize
    ensures { result ≡ min (nodes_of (form_of shape.now)) (2 ^ 64 - 1) }
{
    match shape {
        Shape::Max | Shape::Name | Shape::Or => 1,
        Shape::Lex(first, second) | Shape::Pair(first, second) => shape_nodes(first)
            .saturating_add(shape_nodes(second))
            .saturating_add(1),
    }
}

/// The leaves of effects on a cell.
fn cell_leaves(effects: &[Option<Items<Leaf>>]) -> usize
    ensures { result ≡ min (sum_by cell_leaves effects.now) (2 ^ 64 - 1) }
{
    let mut total: usize = 0;
    for effect in effects {
        total = total.saturating_add(leaves_of_cell(effect));
    }
    total
}

/// The leaves of an effect on a cell.
fn leaves_of_cell(effect: &Option<Items<Leaf>>) -> usize
    ensures { result ≡ cell_leaves effect.now }
{
    match effect {
        None => 0,
        Some(leaves) => leaves.as_slice().len(),
    }
}

/// The leaves of effects on a table, whose keys count nothing.
fn table_leaves(effects: &[Option<(u32, Items<Leaf>)>]) -> usize
    ensures { result ≡ min (sum_by table_leaves effects.now) (2 ^ 64 - 1) }
{
    let mut total: usize = 0;
    for effect in effects {
        total = total.saturating_add(leaves_of_table(effect));
    }
    total
}

/// The leaves of an effect on a table.
fn leaves_of_table(effect: &Option<(u32, Items<Leaf>)>) -> usize
    ensures { result ≡ table_leaves effect.now }
{
    match effect {
        None => 0,
        Some((_, leaves)) => leaves.as_slice().len(),
    }
}

/// How many operations have an effect.
fn count_effects<T>(effects: &[Option<T>]) -> usize
    ensures { result ≡ min (sum_by one_leaf effects.now) (2 ^ 64 - 1) }
{
    let mut total: usize = 0;
    for effect in effects {
        total = total.saturating_add(one_leaf(effect));
    }
    total
}

/// One for an effect.
fn one_leaf<T>(effect: &Option<T>) -> usize
    ensures { result ≡ one_leaf effect.now }
{
    match effect {
        None => 0,
        Some(_) => 1,
    }
}

/// The nodes of an ask.
fn ask_nodes(ask: &Ask) -> usize
    ensures { result ≡ min (ask_nodes (ask_form ask.now)) (2 ^ 64 - 1) }
{
    match ask {
        Ask::Leaf { .. } | Ask::Arg(_) | Ask::Const(_) => 1,
        Ask::Not(inner) => ask_nodes(inner).saturating_add(1),
        Ask::And(left, right)
        | Ask::Or(left, right)
        | Ask::Less(left, right)
        | Ask::Plus(left, right)
        | Ask::Minus(left, right) => ask_nodes(left)
            .saturating_add(ask_nodes(right))
            .saturating_add(1),
    }
}
