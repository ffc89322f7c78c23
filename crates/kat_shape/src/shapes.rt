//! Shapes of lattices, as they are read from a file.

ghost use Rattle.std.specs.Prelude.{◌≡◌, IfOk};
ghost use Rattle.kat_shape.specs.Forms.{form_of};

use std::alloc::{AllocError, Global};

/// A shape of lattice, as it is read from a file.
///
/// ```
/// // a flag under a time: what a file writes as ["lex","max","or"]
/// let shape = Shape::Lex(Box::new(alloc, Shape::Max)?, Box::new(alloc, Shape::Or)?);
/// ```
#[derive(PartialEq, Eq, Debug)]
pub enum Shape {
    /// Whole numbers, of which the greater wins.
    Max,
    /// Names, of which that of greater code wins.
    Name,
    /// Truth values, joined by "or".
    Or,
    /// The greater first part wins; if the first parts are equal, the second parts are joined. The first part is a
    /// chain: a `Max`, a `Name`, an `Or`, or a `Lex` of two chains.
    Lex(Box<Shape>, Box<Shape>),
    /// Two parts, joined one by one.
    Pair(Box<Shape>, Box<Shape>),
}

impl Drop for Shape {
    fn drop(self) {
        match self {
            Self::Max => {}
            Self::Name => {}
            Self::Or => {}
            Self::Lex(_, _) => {}
            Self::Pair(_, _) => {}
        }
    }
}

impl Shape {
    /// An equal shape with memory of its own.
    pub fn copy(&self, alloc: Global) -> Result<Shape, AllocError>
        ensures { IfOk result (λ shape. form_of shape ≡ form_of self.now) }
    {
        match self {
            Shape::Max => Ok(Shape::Max),
            Shape::Name => Ok(Shape::Name),
            Shape::Or => Ok(Shape::Or),
            Shape::Lex(first, second) => {
                let first = Box::new(alloc, first.copy(alloc)?)?;
                let second = Box::new(alloc, second.copy(alloc)?)?;
                Ok(Shape::Lex(first, second))
            }
            Shape::Pair(first, second) => {
                let first = Box::new(alloc, first.copy(alloc)?)?;
                let second = Box::new(alloc, second.copy(alloc)?)?;
                Ok(Shape::Pair(first, second))
            }
        }
    }
}
