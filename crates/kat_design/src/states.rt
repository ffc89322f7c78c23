//! What a replica keeps.
use kat_lattice::{GrowMap, GrowSet, Tally};
use kat_num::{Items, Value};
use kat_shape::Cell;

/// What is kept of one component.
pub enum Part {
    Cell(Cell),
    Table(GrowMap<Value, Cell>),
    Set(GrowSet<Value>),
    Tally(Tally),
    Tallies(GrowMap<Value, Tally>),
}

impl Drop for Part {
    fn drop(self) {
        match self {
            Self::Cell(_) => {}
            Self::Table(_) => {}
            Self::Set(_) => {}
            Self::Tally(_) => {}
            Self::Tallies(_) => {}
        }
    }
}

/// What is kept of each component, in their order.
#[derive(Drop)]
pub struct State {
    pub parts: Items<Part>,
}
