//! The kinds of asks, which of them are expected, and the shapes that are chains.
ghost use Rattle.std.specs.Prelude.{◌≡◌, IfOk, map, slice_get};
ghost use Rattle.kat_design.specs.Designs.{ask_form, component_form};
ghost use Rattle.kat_design.specs.Kinds.{ask_kind, is_chain, like, parameter_kind};
ghost use Rattle.kat_shape.specs.Forms.{form_of};

use kat_design::{Ask, Component, Kind, Wanted, leaf_kind, sort_kind, value_kind};
use kat_num::Sort;
use kat_shape::Shape;
use std::alloc::{AllocError, Global};

/// Whether a shape is a chain: no part of it is a pair.
pub(crate) fn is_chain(shape: &Shape) -> bool
    ensures { result ≡ is_chain (form_of shape.now) }
{
    match shape {
        Shape::Max | Shape::Name | Shape::Or => true,
        Shape::Lex(first, second) => is_chain(first) && is_chain(second),
        Shape::Pair(_, _) => false,
    }
}

/// The kind of an ask, by its own form; `None` if it is a leaf or a parameter that isn't there.
pub(crate) fn ask_kind(
    alloc: Global,
    components: &[Component],
    sorts: &[Sort],
    ask: &Ask,
) -> Result<Option<Kind>, AllocError>
    ensures { IfOk result (λ kind. kind ≡ ask_kind (map component_form components.now) sorts.now (ask_form ask.now)) }
{
    match ask {
        Ask::Leaf {
            component,
            leaf,
            ..
        } => leaf_kind(alloc, components, *component, *leaf),
        Ask::Arg(place) => Ok(parameter_kind(sorts, *place)),
        Ask::Const(value) => Ok(Some(value_kind(*value))),
        Ask::Not(_) => Ok(Some(Kind::Truth)),
        Ask::And(_, _) => Ok(Some(Kind::Truth)),
        Ask::Or(_, _) => Ok(Some(Kind::Truth)),
        Ask::Less(_, _) => Ok(Some(Kind::Truth)),
        Ask::Plus(_, _) => Ok(Some(Kind::Number)),
        Ask::Minus(_, _) => Ok(Some(Kind::Number)),
    }
}

/// The kind of a parameter, if there is one.
fn parameter_kind(sorts: &[Sort], place: u32) -> Option<Kind>
    ensures { result ≡ parameter_kind (slice_get sorts.now place) }
{
    match sorts.get(place as usize) {
        None => None,
        Some(sort) => Some(sort_kind(*sort)),
    }
}

/// What is compared with something of this kind.
pub(crate) fn like(kind: Option<Kind>) -> Wanted
    ensures { result ≡ like kind }
{
    match kind {
        None => Wanted::Ordered,
        Some(kind) => Wanted::Exactly(kind),
    }
}
