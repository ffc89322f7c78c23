//! Lattices whose shape is known only at run time, as when it is read from a file.
//!
//! A [`Shape`] says how a value is merged: numbers and names by the greater, truth values by "or", a `Lex` by
//! its first part first, a `Pair` part by part. A [`Cell`] is a shape with a value at each leaf, from the left;
//! [`cell`] makes one. A cell is a lattice in the sense of `kat_lattice` and is joined in place: its join is that of
//! the static type of its shape, a `Lex<Max, Pair<Max, Or>>` for `["lex","max",["pair","max","or"]]`, and so are its
//! laws, which are proved by induction over the shape.
//!
//! Two cells go together if they have one shape, in which the first part of each `Lex` is a chain: a `Max`, a
//! `Name`, an `Or`, or a `Lex` of two chains. Of two values of a chain one is always at or below the other, so the
//! greater first part is well defined.
#![tactic(auto)]

mod cells;
mod fills;
mod laws;
mod leaves;
mod shapes;

pub use cells::Cell;
pub use fills::{cell, cell_of};
pub use laws::{
    compares_leaves, joins_first_parts, joins_leaf_by_leaf, leaves_determine_cells,
    leaves_fit_shapes, one_is_below, order_is_of_join, tells_values_apart,
};
pub use shapes::Shape;
