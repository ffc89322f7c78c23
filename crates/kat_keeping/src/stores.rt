//! What is kept so far.

use crate::pieces::{Holds, Piece, Register};
use kat_design::Component;
use kat_expr::Expr;
use kat_formulas::{Scope, Stored};
use kat_num::{Sort, Value};
use kat_reading::{Guard, LeafAt, Made, Miss, Reading, boxed, number_of, push};
use kat_type::SeqType;
use std::alloc::{AllocError, Global};

/// Components, and the leaves of them that formulas read: by the numbers from `first` on, which no field has.
#[derive(Drop)]
pub struct Store {
    pub pieces: Vec<Piece>,
    pub stored: Vec<Stored>,
    pub first: u32,
    /// How many operations there are.
    pub ops: usize,
    /// Truth values are kept as the numbers 0 and 1, so that sums can have them.
    pub as_numbers: bool,
    /// What is known of fields that go by steps, the bounds of one field in any order.
    pub steps: Vec<Step>,
}

/// When a field that has no values but the bounds of its steps is at least one of them: if a formula over what is kept is true, in
/// which the key 0 is that of the field.
#[derive(Drop)]
pub struct Step {
    pub field: u32,
    pub bound: i128,
    pub when: Expr,
}

/// A store in which nothing is kept.
pub fn new_store(alloc: Global, ty: &SeqType, as_numbers: bool) -> Store {
    Store {
        pieces: Vec::new(alloc),
        stored: Vec::new(alloc),
        first: number_of(ty.fields.as_slice().len()),
        ops: ty.ops.as_slice().len(),
        as_numbers,
        steps: Vec::new(alloc),
    }
}

/// Notes when a field is at least a bound.
pub fn add_step(store: &mut Store, step: Step) -> Result<(), AllocError> {
    push(&mut store.steps, step)
}

/// What queries with arguments of these sorts read, with the places that leaves have by now.
pub fn scope_of(alloc: Global, store: &Store, sorts: Vec<Sort>) -> Result<Scope, AllocError> {
    Ok(Scope {
        first: store.first,
        stored: Vec::from_slice(alloc, &store.stored)?,
        sorts,
    })
}

/// The number of the piece that is kept next.
pub fn next_piece(store: &Store) -> u32 {
    number_of(store.pieces.len())
}

/// Appends a piece, and gives its number.
pub fn add_piece(store: &mut Store, piece: Piece) -> Result<u32, AllocError> {
    let number = number_of(store.pieces.len());
    push(&mut store.pieces, piece)?;
    Ok(number)
}

/// Appends a register, and gives its number.
pub fn add_register(store: &mut Store, register: Register) -> Result<u32, AllocError> {
    add_piece(store, Piece::Open(register))
}

/// What reads a leaf: itself, or in a table the leaf at the key of the field.
pub fn add_leaf(store: &mut Store, stored: Stored) -> Result<Expr, AllocError> {
    let number = store.first.saturating_add(number_of(store.stored.len()));
    push(&mut store.stored, stored)?;
    Ok(if stored.at.keyed {
        Expr::Keyed {
            field: number,
            key: 0,
        }
    } else {
        Expr::Plain(number)
    })
}

/// The first leaf of a component, which is a number of which nothing is known, or a name or a truth value.
pub fn leaf_of(piece: u32, leaf: u32, keyed: bool, holds: Holds) -> Stored {
    Stored {
        at: LeafAt {
            component: piece,
            leaf,
            keyed,
        },
        sort: match holds {
            Holds::Number => Sort::Int,
            Holds::Name => Sort::Name,
            Holds::Truth => Sort::Bool,
        },
        factor: 1,
        least: None,
        most: None,
    }
}

/// Keeps what a rule of another kind made for a field of a sort, the numbers of whose components begin with 0; gives the reading as
/// a formula.
pub fn add_made(alloc: Global, store: &mut Store, made: Made, sort: Sort) -> Result<Expr, Miss> {
    let Made {
        components,
        reading,
    } = made;
    let base = number_of(store.pieces.len());
    for component in components {
        add_piece(store, Piece::Ready(component))?;
    }
    formula(alloc, store, base, &reading, sort)
}

/// The formula of a reading.
fn formula(
    alloc: Global,
    store: &mut Store,
    base: u32,
    reading: &Reading,
    sort: Sort,
) -> Result<Expr, Miss> {
    match reading {
        Reading::Start(value) => Ok(Expr::Const(*value)),
        Reading::Leaf(at) => Ok(read_at(store, base, *at, sort)?),
        Reading::Turned(at) => {
            let read = read_at(store, base, *at, sort)?;
            Ok(Expr::Not(boxed(alloc, read)?))
        }
        Reading::Sum {
            start,
            added,
            taken,
        } => Ok(sum(alloc, store, base, *start, *added, *taken)?),
        Reading::Choice { when, then, other } => {
            let other = formula(alloc, store, base, other, sort)?;
            match when {
                Guard::Leaf(at) => {
                    let when = read_at(store, base, *at, Sort::Bool)?;
                    let when = boxed(alloc, when)?;
                    let then = boxed(alloc, Expr::Const(*then))?;
                    Ok(Expr::If(when, then, boxed(alloc, other)?))
                }
                Guard::Cleared { .. } => Err(Miss::NoRule),
            }
        }
    }
}

/// What reads a leaf of a component that a rule of another kind made.
fn read_at(store: &mut Store, base: u32, at: LeafAt, sort: Sort) -> Result<Expr, AllocError> {
    let holds = match sort {
        Sort::Bool => Holds::Truth,
        Sort::Name => Holds::Name,
        Sort::Int | Sort::Nat => Holds::Number,
    };
    let component = base.saturating_add(at.component);
    add_leaf(store, leaf_of(component, at.leaf, at.keyed, holds))
}

/// A start with what was added, and without what was taken away.
fn sum(
    alloc: Global,
    store: &mut Store,
    base: u32,
    start: Value,
    added: Option<LeafAt>,
    taken: Option<LeafAt>,
) -> Result<Expr, AllocError> {
    let mut expr = Expr::Const(start);
    if let Some(at) = added {
        let read = boxed(alloc, read_at(store, base, at, Sort::Int)?)?;
        expr = Expr::Plus(boxed(alloc, expr)?, read);
    }
    if let Some(at) = taken {
        let read = boxed(alloc, read_at(store, base, at, Sort::Int)?)?;
        expr = Expr::Minus(boxed(alloc, expr)?, read);
    }
    Ok(expr)
}
