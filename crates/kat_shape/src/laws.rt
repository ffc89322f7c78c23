//! What callers may use of shapes and cells: each law is a call that does nothing, whose clause says it.

ghost use Rattle.kat_lattice.specs.Sets.{TellsApart};
ghost use Rattle.kat_shape.specs.Chains.{ComparesLeaves, OneIsBelow, OrderIsOfJoin};
ghost use Rattle.kat_shape.specs.LeafByLeaf.{JoinsFirstParts, JoinsLeafByLeaf, LeavesDetermineCells, LeavesFitShapes};

use kat_num::Value;

/// The order of a chain compares its leaves lexicographically, `false` below `true`.
pub fn compares_leaves()
    ensures { ComparesLeaves }
{}

/// Of two values of a chain one is at or below the other.
pub fn one_is_below()
    ensures { OneIsBelow }
{}

/// The order of a chain is the order of its join.
pub fn order_is_of_join()
    ensures { OrderIsOfJoin }
{}

/// The first part of two joined lexicographic pairs is the join of their first parts.
pub fn joins_first_parts()
    ensures { JoinsFirstParts }
{}

/// A shape and its leaves determine a cell.
pub fn leaves_determine_cells()
    ensures { LeavesDetermineCells }
{}

/// A cell has a leaf for each of its shape's, of its kind: so a caller who knows the shape may call `leaf`, and knows whether a
/// number, a name or a truth value is there.
pub fn leaves_fit_shapes()
    ensures { LeavesFitShapes }
{}

/// The leaves of a join are those of both, joined one by one: under a first part that grows, the leaves of the one whose
/// first part is greater.
pub fn joins_leaf_by_leaf()
    ensures { JoinsLeafByLeaf }
{}

/// Values that compare equal are one value.
pub fn tells_values_apart()
    ensures { TellsApart ⟦<Value as Ord>⟧.cmp }
{}
