//! Values that meet rows which are differences: by lowering what is too high, as shortest paths are found (Bellman 1958, Ford
//! 1956). Nothing of it has to be right: who takes the values tries them.

use crate::differences::Difference;
use kat_form::Meaning;
use kat_resolution::{has, is_denied, variable_at};
use std::alloc::{AllocError, Global};
use std::mem;

// What a propositional variable says of numbers.
#[derive(Clone, Copy)]
enum Shape {
    Nothing,
    Difference(Difference),
    // a row that is no difference
    Other,
}

// The result of a round over the known rows.
#[derive(Clone, Copy)]
enum Round {
    Meets,
    Lowers,
    GivesUp,
}

/// Values of the number variables, the last of them that of 0, and what is known of the rows.
pub struct Values {
    values: Vec<i64>,
    // the values that are being lowered, and the differences that they have to meet
    tried: Vec<i64>,
    known: Vec<Difference>,
    // by propositional variable, less one
    shapes: Vec<Shape>,
}

impl Drop for Values {
    fn drop(self) {
        let Self {
            values: _,
            tried: _,
            known: _,
            shapes: _,
        } = self;
    }
}

impl Values {
    /// All values are 0.
    pub fn new(alloc: Global, meanings: &[Meaning], numbers: u32) -> Result<Values, AllocError> {
        let mut shapes = Vec::new(alloc);
        for meaning in meanings {
            shapes.push(shape_of(meaning, numbers))?;
        }
        Ok(Values {
            values: vec![in alloc; 0; numbers as usize + 1]?,
            tried: Vec::new(alloc),
            known: Vec::new(alloc),
            shapes,
        })
    }

    /// The values, by variable, the last of them that of 0.
    pub fn as_slice(&self) -> &[i64] {
        self.values.as_slice()
    }

    /// Looks for values that meet the rows of the marked literals, beginning with those of before. False if it finds none, or if
    /// a row is no difference; the values are those of before then.
    pub fn meet(&mut self, marks: &[bool]) -> Result<bool, AllocError> {
        if !self.take_known(marks)? {
            return Ok(false);
        }
        self.tried.clear();
        self.tried.extend_from_slice(&self.values)?;
        // (without a contradiction each round settles the value of one more variable)
        for _round in 0..self.tried.len() + 1 {
            match self.lower_all() {
                Round::Meets => {
                    mem::swap(&mut self.values, &mut self.tried);
                    return Ok(true);
                }
                Round::Lowers => {}
                Round::GivesUp => return Ok(false),
            }
        }
        Ok(false)
    }

    // Takes the differences of the marked literals. False if a row is no difference.
    fn take_known(&mut self, marks: &[bool]) -> Result<bool, AllocError> {
        self.known.clear();
        for (place, shape) in self.shapes.iter().enumerate() {
            match known(*shape, marks, place) {
                Shape::Nothing => {}
                Shape::Difference(difference) => self.known.push(difference)?,
                Shape::Other => return Ok(false),
            }
        }
        Ok(true)
    }

    // Lowers the values that are too high for a known row.
    fn lower_all(&mut self) -> Round {
        let mut round = Round::Meets;
        for difference in &self.known {
            match lower(&mut self.tried, *difference) {
                Round::Meets => {}
                Round::Lowers => round = Round::Lowers,
                Round::GivesUp => return Round::GivesUp,
            }
        }
        round
    }
}

// Lowers a difference's lower value, if it is too high.
fn lower(values: &mut [i64], difference: Difference) -> Round {
    let Difference { lower, higher, gap } = difference;
    let (lower, higher) = (lower as usize, higher as usize);
    if lower >= values.len() || higher >= values.len() {
        return Round::GivesUp;
    }
    let Some(limit) = values[higher].checked_sub(gap) else {
        return Round::GivesUp;
    };
    if values[lower] <= limit {
        return Round::Meets;
    }
    values[lower] = limit;
    Round::Lowers
}

// What the propositional variable at a place says under the marked literals.
fn known(shape: Shape, marks: &[bool], place: usize) -> Shape {
    if let Shape::Nothing = shape {
        return shape;
    }
    if place >= 1 << 28 {
        return Shape::Other;
    }
    let variable = variable_at(place);
    if has(marks, variable) {
        return shape;
    }
    if !is_denied(marks, variable) {
        return Shape::Nothing;
    }
    let Shape::Difference(difference) = shape else {
        return shape;
    };
    match difference.opposite() {
        Some(opposite) => Shape::Difference(opposite),
        None => Shape::Other,
    }
}

// What a propositional variable says of numbers, the value of 0 being at a place of its own.
fn shape_of(meaning: &Meaning, nought: u32) -> Shape {
    let Meaning::Atom(row) = meaning else {
        return Shape::Nothing;
    };
    match Difference::of(row, nought) {
        Some(difference) => Shape::Difference(difference),
        None => Shape::Other,
    }
}
