//! The ranks of a field's operations, as columns of leaves that a `lex` compares.

use crate::fields::{Kept, acts};
use crate::misses::{Miss, push};
use kat_design::Leaf;
use kat_num::{Sort, Value};
use kat_shape::Shape;
use kat_type::{Operation, Param, Rank};
use std::alloc::Global;

/// What a column holds.
#[derive(Clone, Copy, PartialEq, Eq, Debug)]
pub enum Held {
    /// Whether the digit there is at least some digit.
    Digit,
    /// Times and replicas, which are above 0.
    Later,
    /// Numbers that may be 0.
    Number,
    /// Numbers that may be below 0.
    Signed,
    Name,
}

/// A leaf of the rank of each operation, in the order of the operations. What stands for an operation that doesn't change
/// the field means nothing.
pub struct Column {
    pub held: Held,
    pub leaves: Vec<Leaf>,
}

impl Drop for Column {
    fn drop(self) {
        let Self { held: _, leaves: _ } = self;
    }
}

/// The columns of the ranks of the operations that change a field.
pub fn columns_of(alloc: Global, ops: &[Operation], kept: &Kept) -> Result<Vec<Column>, Miss> {
    let mut columns = Vec::new(alloc);
    for place in 0..rank_width(ops) {
        if only_digits(ops, kept, place) {
            push_digits(alloc, ops, kept, place, &mut columns)?;
        } else {
            push(&mut columns, column_at(alloc, ops, kept, place)?)?;
        }
    }
    Ok(columns)
}

/// The same, and if all operations that change the field have one digit, 0 or 1, at a place, and another operation has a greater one there,
/// that digit too: without it the rest of a last write's rank isn't known to be at most the last rank.
pub fn full_columns_of(alloc: Global, ops: &[Operation], kept: &Kept) -> Result<Vec<Column>, Miss> {
    let mut columns = Vec::new(alloc);
    for place in 0..rank_width(ops) {
        if !only_digits(ops, kept, place) {
            push(&mut columns, column_at(alloc, ops, kept, place)?)?;
        } else if let Some(digit) = lone_digit(ops, kept, place) {
            push(&mut columns, lone_column(alloc, ops, digit)?)?;
        } else {
            push_digits(alloc, ops, kept, place, &mut columns)?;
        }
    }
    Ok(columns)
}

/// The digit at a place of all operations that change the field, if it is 0 or 1 and another operation has a greater one.
fn lone_digit(ops: &[Operation], kept: &Kept, place: usize) -> Option<u8> {
    let mut lone = None;
    for (op, doing) in ops.iter().zip(kept.doings.iter()) {
        if acts(*doing) {
            match (digit_at(op, place), lone) {
                (Some(own), None) => lone = Some(own),
                (Some(own), Some(digit)) if own == digit => {}
                _ => return None,
            }
        }
    }
    match lone {
        Some(digit) if digit < 2 && has_above(ops, place, digit) => Some(digit),
        _ => None,
    }
}

/// Whether some operation has a greater digit at a place.
fn has_above(ops: &[Operation], place: usize, digit: u8) -> bool {
    ops.iter().any(|op| match digit_at(op, place) {
        Some(own) => own > digit,
        None => false,
    })
}

/// The column of a digit that is 0 or 1.
fn lone_column(alloc: Global, ops: &[Operation], digit: u8) -> Result<Column, Miss> {
    let mut leaves = Vec::new(alloc);
    for _ in ops {
        push(
            &mut leaves,
            if digit == 0 { Leaf::False } else { Leaf::True },
        )?;
    }
    Ok(Column {
        held: Held::Digit,
        leaves,
    })
}

/// How many elements each rank has.
fn rank_width(ops: &[Operation]) -> usize {
    match ops.first() {
        None => 0,
        Some(op) => op.ranks.as_slice().len(),
    }
}

/// The digit at a place of a rank.
fn digit_at(op: &Operation, place: usize) -> Option<u8> {
    match op.ranks.as_slice().get(place) {
        Some(Rank::Digit(digit)) => Some(*digit),
        _ => None,
    }
}

/// Whether the ranks have digits alone at a place.
fn only_digits(ops: &[Operation], kept: &Kept, place: usize) -> bool {
    ops.iter().zip(kept.doings.iter()).all(|(op, doing)| !acts(*doing)
        || digit_at(op, place).is_some())
}

/// Puts a column after the others for each digit but the least: whether the digit is at least that.
fn push_digits(
    alloc: Global,
    ops: &[Operation],
    kept: &Kept,
    place: usize,
    columns: &mut Vec<Column>,
) -> Result<(), Miss> {
    for digit in 1..10 {
        if parts(ops, kept, place, digit) {
            let mut leaves = Vec::new(alloc);
            for op in ops {
                push(&mut leaves, digit_leaf(op, place, digit))?;
            }
            let held = Held::Digit;
            push(columns, Column { held, leaves })?;
        }
    }
    Ok(())
}

/// Whether one of the operations has the digit, and another a lesser one.
fn parts(ops: &[Operation], kept: &Kept, place: usize, digit: u8) -> bool {
    let mut has = false;
    let mut lesser = false;
    for (op, doing) in ops.iter().zip(kept.doings.iter()) {
        if acts(*doing) {
            match digit_at(op, place) {
                Some(own) if own == digit => has = true,
                Some(own) if own < digit => lesser = true,
                _ => {}
            }
        }
    }
    has && lesser
}

/// Whether the digit at a place is at least that.
fn digit_leaf(op: &Operation, place: usize, digit: u8) -> Leaf {
    match digit_at(op, place) {
        Some(own) if own >= digit => Leaf::True,
        _ => Leaf::False,
    }
}

/// The column of a place that has not only digits.
fn column_at(alloc: Global, ops: &[Operation], kept: &Kept, place: usize) -> Result<Column, Miss> {
    let mut held = Held::Later;
    let mut leaves = Vec::new(alloc);
    for (op, doing) in ops.iter().zip(kept.doings.iter()) {
        if acts(*doing) {
            let rank = rank_at(op, place)?;
            held = wider(held, held_of(op.params.as_slice(), rank));
            push(&mut leaves, rank_leaf(rank)?)?;
        } else {
            push(&mut leaves, Leaf::False)?;
        }
    }
    Ok(Column { held, leaves })
}

/// The element at a place of a rank.
fn rank_at(op: &Operation, place: usize) -> Result<Rank, Miss> {
    match op.ranks.as_slice().get(place) {
        Some(rank) => Ok(*rank),
        None => Err(Miss::NoRule),
    }
}

/// What an element holds.
fn held_of(params: &[Param], rank: Rank) -> Held {
    match rank {
        Rank::Time | Rank::Replica => Held::Later,
        Rank::Digit(_) => Held::Number,
        Rank::Arg(place) => match params.get(place as usize) {
            Some(param) => held_of_sort(param.sort),
            None => Held::Signed,
        },
    }
}

/// What an argument of a sort holds.
fn held_of_sort(sort: Sort) -> Held {
    match sort {
        Sort::Name => Held::Name,
        Sort::Nat => Held::Number,
        Sort::Int | Sort::Bool => Held::Signed,
    }
}

/// What two elements hold together.
fn wider(one: Held, other: Held) -> Held {
    match (one, other) {
        (Held::Name, _) | (_, Held::Name) => Held::Name,
        (Held::Signed, _) | (_, Held::Signed) => Held::Signed,
        (Held::Number, _) | (_, Held::Number) => Held::Number,
        _ => Held::Later,
    }
}

/// The leaf of an element.
fn rank_leaf(rank: Rank) -> Result<Leaf, Miss> {
    match rank {
        Rank::Time => Ok(Leaf::Time),
        Rank::Replica => Ok(Leaf::Replica),
        Rank::Digit(0) => Ok(Leaf::Zero),
        Rank::Digit(1) => Ok(Leaf::One),
        Rank::Digit(_) => Err(Miss::NoRule),
        Rank::Arg(place) => Ok(Leaf::Arg(place)),
    }
}

/// The shape of a column.
pub fn shape_held(held: Held) -> Shape {
    match held {
        Held::Digit => Shape::Or,
        Held::Name => Shape::Name,
        Held::Later | Held::Number | Held::Signed => Shape::Max,
    }
}

/// The start of a column, which is the least that an operation gives unless that may be below 0.
pub fn start_held(held: Held) -> Value {
    match held {
        Held::Digit => Value::Bool(false),
        Held::Name => Value::Name(0),
        Held::Later | Held::Number | Held::Signed => Value::Num(0),
    }
}

/// Whether each operation that changes the field has a rank above the starts.
pub fn are_above_starts(columns: &[Column]) -> bool {
    for column in columns {
        match column.held {
            Held::Later => return true,
            Held::Signed => return false,
            Held::Digit | Held::Number | Held::Name => {}
        }
    }
    false
}

/// How many columns come before the first digits.
pub fn before_digits(columns: &[Column]) -> usize {
    columns
        .iter()
        .take_while(|column| column.held != Held::Digit)
        .count()
}
