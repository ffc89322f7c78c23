//! Cells: a shape, which many cells share, with a value for each leaf.

ghost use Rattle.std.specs.Prelude.{◌≡◌, ◌<◌, length, map, IfOk, slice_index_or};
ghost use Rattle.kat_shape.specs.Forms.{form_of, leaf_kind_of, leaf_kinds_of};
ghost use Rattle.kat_shape.specs.Values.{OneShape, shape_of, leaves_of};

use super::leaves::{is_below, join_leaves};
use super::shapes::Shape;
use kat_lattice::{Flat, Lattice};
use kat_num::Value;
use std::alloc::{AllocError, Global};
use std::marker::Model;
use std::sync::Arc;

/// A shape with a value for each leaf, from the left.
///
/// The leaves are one flat list, and the shape is shared by a cell and its copies: 100,000 cells that are copies of
/// one start have one shape. A register whose last write wins, over a time, a replica and a number:
///
/// ```
/// let of_write = Shape::Lex(Box::new(alloc, Shape::Max)?, Box::new(alloc, Shape::Max)?);
/// let shape = Shape::Lex(Box::new(alloc, Shape::Max)?, Box::new(alloc, of_write)?);
/// let mut register = cell(alloc, &shape, &[Value::Num(0), Value::Num(0), Value::Num(0)])?;
/// let written = cell(alloc, &shape, &[Value::Num(1), Value::Num(2), Value::Num(7)])?;
/// register.goes_with(&written);
/// register.join_flat(&written);
/// // register.leaves() is 1, 2, 7
/// ```
#[derive(Debug)]
pub struct Cell {
    pub(crate) shape: Arc<Shape>,
    pub(crate) leaves: Vec<Value>,
}

impl Drop for Cell {
    fn drop(self) {
        let Self {
            shape: _,
            leaves: _,
        } = self;
    }
}

impl Model for Cell {
    ghost use Rattle.kat_shape.specs.Values.{Filled};
    ghost use Rattle.kat_shape.specs.Codes.{filled_code};
    ghost use Rattle.kat_shape.specs.Forms.{form_of};
    ghost use Rattle.kat_shape.specs.Flats.{filled_with, IsFlat};

    ghost Value = { Filled };

    ghost coded = { filled_code };

    ghost view = { λ c. filled_with (form_of c.shape.value) c.leaves.items };

    ghost invariant = { λ c. IsFlat (form_of c.shape.value) c.leaves.items };
}

impl Cell {
    /// The shape.
    pub fn shape(&self) -> &Shape
        ensures { form_of result.now ≡ shape_of self.now }
    {
        &self.shape
    }

    /// The values at the leaves, from the left.
    pub fn leaves(&self) -> &[Value]
        ensures { result.now ≡ leaves_of self.now }
    {
        &self.leaves
    }

    /// The value at a leaf, counted from the left.
    pub fn leaf(&self, i: u32) -> Value
        requires { i < length (leaves_of self.now) }
        ensures { result ≡ slice_index_or (leaves_of self.now) i result }
    {
        self.leaves[i as usize]
    }

    /// A cell of the same shape, which both share, with other values at the leaves, from the left.
    #[tactic(auto, using(crate::proofs::Filling::filled_shape, crate::proofs::Filling::filled_leaves))]
    pub fn with_leaves(&self, leaves: Vec<Value>) -> Result<Cell, AllocError>
        requires { map leaf_kind_of leaves.items ≡ leaf_kinds_of (shape_of self.now) }
        ensures shape { IfOk result (λ cell. shape_of cell ≡ shape_of self.now) }
        ensures leaves { IfOk result (λ cell. leaves_of cell ≡ leaves.items) }
    {
        let shape = self.shape.clone()?;
        Ok(Cell { shape, leaves })
    }

    /// Two cells of one shape go together.
    pub fn goes_with(&self, other: &Self)
        requires { shape_of self.now ≡ shape_of other.now }
        ensures { OneShape self.now other.now }
    {
        let _mine = &self.leaves;
        let _theirs = &other.leaves;
    }
}

impl Lattice for Cell {
    ghost use Rattle.kat_shape.specs.Values.{joined, OneShape};
    ghost use Rattle.kat_shape.specs.Laws.{cell_laws};

    ghost kin = { OneShape };

    ghost joined = { joined };

    fn join(&mut self, _alloc: Global, other: &Self) -> Result<(), AllocError> {
        self.join_flat(other);
        Ok(())
    }

    fn leq(&self, other: &Self) -> bool {
        is_below(&self.shape, &self.leaves, &other.leaves)
    }

    fn copy(&self, alloc: Global) -> Result<Self, AllocError> {
        let leaves = Vec::from_slice(alloc, &self.leaves)?;
        let shape = self.shape.clone()?;
        Ok(Cell { shape, leaves })
    }

    ghost laws = { cell_laws };
}

impl Flat for Cell {
    fn join_flat(&mut self, other: &Self) {
        join_leaves(&self.shape, &mut self.leaves, &other.leaves);
    }
}
