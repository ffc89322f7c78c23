//! Marks that say for several operations whether one of them was done, some of which say it for more of them than others.

use kat_design::Leaf;
use kat_expr::Expr;
use kat_formulas::reads_field;
use kat_keeping::{Joint, Piece, Register, Store, Touch, joined_by};
use kat_num::{Sort, Value};
use kat_reading::{Miss, boxed, number_of, push};
use kat_type::{Rank, SeqType};
use std::alloc::{AllocError, Global};

/// How many elements a rank has at most.
const ELEMENTS: usize = 3;

/// A mark of a store, by the place of its leaf: a number that is 0, and 1 after some operations.
#[derive(Clone, Copy, PartialEq, Eq, Debug)]
pub(crate) struct Mark {
    place: usize,
}

impl Mark {
    /// The number by which formulas read it.
    pub(crate) fn number(&self, store: &Store) -> u32 {
        store.first.saturating_add(number_of(self.place))
    }

    /// Whether a formula reads it.
    pub(crate) fn is_read(&self, store: &Store, formula: &Expr) -> bool {
        let number = self.number(store);
        reads_field(formula, number, number.saturating_add(1))
    }

    /// What reads it, in a table at the query's first argument.
    fn read(&self, store: &Store) -> Expr {
        let field = self.number(store);
        match register_at(store, self.place) {
            Some(register) if register.key.is_some() => Expr::Keyed { field, key: 0 },
            _ => Expr::Plain(field),
        }
    }
}

/// The marks with such keys that some formula reads.
pub(crate) fn marks_of(
    alloc: Global,
    store: &Store,
    key: Option<Sort>,
    formulas: &[Expr],
) -> Result<Vec<Mark>, AllocError> {
    let mut marks = Vec::new(alloc);
    for (place, _) in store.stored.iter().enumerate() {
        let mark = Mark { place };
        if is_mark(store, place, key) && is_read_in(store, mark, formulas) {
            push(&mut marks, mark)?;
        }
    }
    Ok(marks)
}

/// Whether some formula reads a leaf.
fn is_read_in(store: &Store, mark: Mark, formulas: &[Expr]) -> bool {
    formulas.iter().any(|formula| mark.is_read(store, formula))
}

/// The numbers with such keys that some formula reads and that are joined to a start, and that start.
pub(crate) fn lows_of(
    alloc: Global,
    store: &Store,
    key: Option<Sort>,
    formulas: &[Expr],
) -> Result<Vec<(Mark, i128)>, AllocError> {
    let mut lows = Vec::new(alloc);
    for (place, stored) in store.stored.iter().enumerate() {
        let mark = Mark { place };
        if let (Some(least), None) = (stored.least, stored.most) {
            if is_joined(store, place, key) && is_read_in(store, mark, formulas) {
                push(&mut lows, (mark, least))?;
            }
        }
    }
    Ok(lows)
}

/// The register of the leaf at a place.
fn register_at(store: &Store, place: usize) -> Option<&Register> {
    match store.stored.get(place) {
        None => None,
        Some(stored) => match store.pieces.get(stored.at.component as usize) {
            Some(Piece::Open(register)) => Some(register),
            _ => None,
        },
    }
}

/// Whether the leaf at a place is a mark with such a key.
fn is_mark(store: &Store, place: usize, key: Option<Sort>) -> bool {
    let is_switch = match store.stored.get(place) {
        Some(stored) => stored.factor == 1 && stored.least == Some(0) && stored.most == Some(1),
        None => false,
    };
    is_switch && is_joined(store, place, key)
}

/// Whether the leaf at a place is all that a component with such a key joins.
fn is_joined(store: &Store, place: usize, key: Option<Sort>) -> bool {
    match register_at(store, place) {
        Some(register) => {
            register.ranks == 0 && register.slots.len() == 1 && register.key == key
        }
        None => false,
    }
}

/// Whether all operations that set the second mark set the first.
fn has_all(store: &Store, first: Mark, second: Mark) -> bool {
    match (
        register_at(store, first.place),
        register_at(store, second.place),
    ) {
        (Some(one), Some(other)) => one
            .touches
            .iter()
            .zip(other.touches.iter())
            .all(|(mine, theirs)| *theirs == Touch::Not || *mine == *theirs),
        _ => false,
    }
}

/// How many operations set a mark.
fn set_count(store: &Store, mark: Mark) -> usize {
    match register_at(store, mark.place) {
        Some(register) => register
            .touches
            .iter()
            .filter(|touch| **touch != Touch::Not)
            .count(),
        None => 0,
    }
}

/// The mark that is set with a mark and by the fewest others besides.
fn next_above(store: &Store, marks: &[Mark], mark: Mark) -> Option<Mark> {
    let mut found: Option<Mark> = None;
    for own in marks {
        if *own != mark && has_all(store, *own, mark) {
            found = match found {
                Some(nearer) if set_count(store, nearer) <= set_count(store, *own) => Some(nearer),
                _ => Some(*own),
            };
        }
    }
    found
}

/// Marks, of those that are set by the same operations one.
fn distinct(alloc: Global, store: &Store, marks: &[Mark]) -> Result<Vec<Mark>, AllocError> {
    let mut found: Vec<Mark> = Vec::new(alloc);
    for mark in marks {
        if !found.iter().any(|own| has_all(store, *own, *mark) && has_all(store, *mark, *own)) {
            push(&mut found, *mark)?;
        }
    }
    Ok(found)
}

/// Makes marks -1 at first, and 0 after their operations. So the rank of the last operation bounds them from above, if it is 0.
pub(crate) fn set_lower(marks: &[Mark], store: &mut Store) {
    for mark in marks {
        let mut piece = store.pieces.len();
        if let Some(stored) = store.stored.get_mut(mark.place) {
            stored.least = None;
            stored.most = None;
            piece = stored.at.component as usize;
        }
        if let Some(Piece::Open(register)) = store.pieces.get_mut(piece) {
            for slot in register.slots.iter_mut() {
                slot.start = Value::Num(-1);
                for leaf in slot.leaves.iter_mut() {
                    *leaf = Leaf::Zero;
                }
            }
        }
    }
}

/// Forgets the bounds of numbers, so that a comparison with these is asked.
pub(crate) fn forget_lows(lows: &[(Mark, i128)], store: &mut Store) {
    for (low, _) in lows {
        if let Some(stored) = store.stored.get_mut(low.place) {
            stored.least = None;
        }
    }
}

/// Whether no state that comes has such leaves: a number is below its start; a mark that is -1 or 0 is set and one that is set with
/// it isn't, or one is neither.
///
/// Above 0 it is looked for only if no element of ranks is always 0.
pub(crate) fn never_of(
    alloc: Global,
    ty: &SeqType,
    marks: &[Mark],
    lows: &[(Mark, i128)],
    store: &Store,
) -> Result<Expr, Miss> {
    let mut expr = Expr::Const(Value::Bool(false));
    for (low, least) in lows {
        let bound = Expr::Const(Value::Num(*least));
        expr = or_less(alloc, expr, low.read(store), bound)?;
    }
    let single = distinct(alloc, store, marks)?;
    for mark in &single {
        expr = or_wrong(alloc, ty, &single, *mark, store, expr)?;
    }
    Ok(expr)
}

/// A condition, or that a mark is set without the one above it, or above 0, or if none is below it below -1.
fn or_wrong(
    alloc: Global,
    ty: &SeqType,
    marks: &[Mark],
    mark: Mark,
    store: &Store,
    when: Expr,
) -> Result<Expr, Miss> {
    let mut expr = when;
    match next_above(store, marks, mark) {
        Some(above) => expr = or_less(alloc, expr, above.read(store), mark.read(store))?,
        None if has_zero(ty) => {}
        None => {
            let zero = Expr::Const(Value::Num(0));
            expr = or_less(alloc, expr, zero, mark.read(store))?;
        }
    }
    if !has_below(store, marks, mark) {
        let low = Expr::Const(Value::Num(-1));
        expr = or_less(alloc, expr, mark.read(store), low)?;
    }
    Ok(expr)
}

/// Whether a mark is the next above another one.
fn has_below(store: &Store, marks: &[Mark], mark: Mark) -> bool {
    for other in marks {
        if next_above(store, marks, *other) == Some(mark) {
            return true;
        }
    }
    false
}

/// A condition, or that one expression is less than another.
fn or_less(alloc: Global, expr: Expr, left: Expr, right: Expr) -> Result<Expr, AllocError> {
    let left = boxed(alloc, left)?;
    let less = Expr::Less(left, boxed(alloc, right)?);
    joined_by(alloc, Joint::Any, expr, less)
}

/// Whether some element of the ranks of all operations is 0.
fn has_zero(ty: &SeqType) -> bool {
    for place in 0..ELEMENTS {
        if ty.ops.as_slice().iter().all(|op| op.ranks.as_slice().get(place)
            == Some(&Rank::Digit(0)))
        {
            return true;
        }
    }
    false
}
