//! The rule of last writes: the value under the rank of the operation that set it.

use crate::joins::leaf_of;
use kat_design::{Component, Leaf};
use kat_num::{Sort, Value};
use kat_reading::{
    Column, Doing, Gift, Given, Guard, Held, Kept, LeafAt, Made, Miss, Reading, are_above_starts,
    before_digits, boxed, cell_or_table, columns_of, number_of, push, shape_held, start_held,
};
use kat_shape::Shape;
use kat_type::{Operation, Param};
use std::alloc::{AllocError, Global};

/// How what is set is kept after the rank.
#[derive(Clone, Copy)]
struct Form {
    /// A truth value before the rank says that something was set.
    written: bool,
    /// Truth values are kept turned.
    turned: bool,
    /// A constant that no leaf is: a truth value before the value says that it was set.
    odd: Option<Value>,
}

/// Digits of the ranks that tell which truth value is set: how many columns come before them, and whether the greater digit sets
/// `false`.
#[derive(Clone, Copy)]
struct Fold {
    columns: usize,
    turned: bool,
}

/// A field that operations set to constants and arguments: a cell or a table of the rank and then the value under `lex`. The
/// truth value that wins by the digits of the ranks takes their place, turned if that is `false`. If operations clear
/// the table, a cell has the rank of the last clear, and the reading compares.
pub(crate) fn last_writes(
    alloc: Global,
    ops: &[Operation],
    kept: &Kept,
    base: u32,
) -> Result<Made, Miss> {
    let all = columns_of(alloc, ops, kept)?;
    let fold = fold_of(kept, &all);
    let clears = kept.doings.iter().any(|doing| is_clear(*doing));
    let ranks = rank_columns(alloc, kept, &all, fold)?;
    let form = Form {
        written: !clears && !are_above_starts(&ranks),
        turned: is_turned(fold),
        odd: odd_constant(kept)?,
    };
    let mut components = Vec::new(alloc);
    if clears {
        let compared = compared_columns(alloc, &all)?;
        push(&mut components, last_clear(alloc, kept, &compared)?)?;
    }
    let component = base.saturating_add(number_of(components.len()));
    let leaf = number_of(leaves_before(form, &ranks));
    push(&mut components, writes(alloc, ops, kept, form, &ranks)?)?;
    let at = LeafAt {
        component,
        leaf,
        keyed: kept.key.is_some(),
    };
    let reading = value_read(alloc, form, at)?;
    let reading = if clears {
        since_clear(alloc, kept, &all, base, reading)?
    } else {
        reading
    };
    Ok(Made {
        components,
        reading,
    })
}

/// Whether an operation clears the table.
fn is_clear(doing: Doing) -> bool {
    match doing {
        Doing::Clears => true,
        _ => false,
    }
}

/// What an operation sets.
fn given_of(doing: Doing) -> Option<Given> {
    match doing {
        Doing::Sets { given, .. } => Some(given),
        _ => None,
    }
}

/// The columns that decide which truth value is set, if there are such.
fn fold_of(kept: &Kept, columns: &[Column]) -> Option<Fold> {
    for (place, column) in columns.iter().enumerate() {
        if column.held == Held::Digit {
            if decides(kept, column, false) {
                return Some(Fold {
                    columns: place,
                    turned: false,
                });
            }
            if decides(kept, column, true) {
                return Some(Fold {
                    columns: place,
                    turned: true,
                });
            }
        }
    }
    None
}

/// Whether all operations that set the field set it to the truth value in the column, or all to the other one.
fn decides(kept: &Kept, column: &Column, turned: bool) -> bool {
    kept.doings
        .iter()
        .zip(column.leaves.iter())
        .all(|(doing, leaf)| is_decided(*doing, *leaf, turned))
}

/// The same of one operation.
fn is_decided(doing: Doing, leaf: Leaf, turned: bool) -> bool {
    match given_of(doing) {
        None => true,
        Some(Given::Const(Value::Bool(truth))) => is_true(leaf) == (truth != turned),
        Some(_) => false,
    }
}

/// Whether a leaf is always true.
fn is_true(leaf: Leaf) -> bool {
    match leaf {
        Leaf::True => true,
        _ => false,
    }
}

/// Whether truth values are kept turned.
fn is_turned(fold: Option<Fold>) -> bool {
    match fold {
        None => false,
        Some(fold) => fold.turned,
    }
}

/// The columns of the ranks that are kept with the value: those before the one that decides the value, without digits that are
/// the same for all that set the field.
fn rank_columns(
    alloc: Global,
    kept: &Kept,
    columns: &[Column],
    fold: Option<Fold>,
) -> Result<Vec<Column>, AllocError> {
    let count = match fold {
        None => columns.len(),
        Some(fold) => fold.columns,
    };
    let mut ranks = Vec::new(alloc);
    for column in columns.iter().take(count) {
        if column.held != Held::Digit || differs(kept, column) {
            push(&mut ranks, copied(alloc, column)?)?;
        }
    }
    Ok(ranks)
}

/// Whether a column of digits isn't the same for all that set the field.
fn differs(kept: &Kept, column: &Column) -> bool {
    has_set(kept, column, true) && has_set(kept, column, false)
}

/// Whether an operation that sets the field has the truth value in a column.
fn has_set(kept: &Kept, column: &Column, truth: bool) -> bool {
    kept.doings.iter().zip(column.leaves.iter()).any(|(doing, leaf)| given_of(*doing).is_some()
        && is_true(*leaf) == truth)
}

/// An equal column.
fn copied(alloc: Global, column: &Column) -> Result<Column, AllocError> {
    Ok(Column {
        held: column.held,
        leaves: Vec::from_slice(alloc, &column.leaves)?,
    })
}

/// The constant that is set and that no leaf is; no rule fits if there are two.
fn odd_constant(kept: &Kept) -> Result<Option<Value>, Miss> {
    let mut odd = None;
    for doing in &kept.doings {
        if let Some(value) = odd_of(*doing) {
            if odd.is_some() && odd != Some(value) {
                return Err(Miss::NoRule);
            }
            odd = Some(value);
        }
    }
    Ok(odd)
}

/// The constant that an operation sets, if no leaf is that.
fn odd_of(doing: Doing) -> Option<Value> {
    match given_of(doing) {
        Some(Given::Const(value)) => match leaf_of(Given::Const(value)) {
            Ok(_) => None,
            Err(_) => Some(value),
        },
        _ => None,
    }
}

/// How many leaves come before the value.
fn leaves_before(form: Form, ranks: &[Column]) -> usize {
    let written = if form.written { 1 } else { 0 };
    let odd = if form.odd.is_some() { 1 } else { 0 };
    ranks.len().saturating_add(written).saturating_add(odd)
}

/// The cell or table of the last writes.
fn writes(
    alloc: Global,
    ops: &[Operation],
    kept: &Kept,
    form: Form,
    ranks: &[Column],
) -> Result<Component, Miss> {
    let mut gifts = Vec::new(alloc);
    for (place, (op, doing)) in ops.iter().zip(kept.doings.iter()).enumerate() {
        push(&mut gifts, gift(alloc, op, *doing, place, form, ranks)?)?;
    }
    let value = match kept.sort {
        Sort::Bool => Held::Digit,
        Sort::Name => Held::Name,
        Sort::Int | Sort::Nat => Held::Number,
    };
    let mut shape = shape_held(value);
    let mut starts = Vec::new(alloc);
    if form.written {
        push(&mut starts, Value::Bool(false))?;
    }
    for column in ranks {
        push(&mut starts, start_held(column.held))?;
    }
    if form.odd.is_some() {
        push(&mut starts, Value::Bool(false))?;
        shape = under(alloc, Shape::Or, shape)?;
    }
    push(&mut starts, turned_value(form, kept.start))?;
    shape = ranked(alloc, ranks, shape)?;
    if form.written {
        shape = under(alloc, Shape::Or, shape)?;
    }
    cell_or_table(alloc, kept.key, shape, starts, gifts)
}

/// A shape under a rank.
fn ranked(alloc: Global, ranks: &[Column], value: Shape) -> Result<Shape, AllocError> {
    let mut shape = value;
    for column in ranks.iter().rev() {
        shape = under(alloc, shape_held(column.held), shape)?;
    }
    Ok(shape)
}

/// The second shape under the first.
fn under(alloc: Global, first: Shape, second: Shape) -> Result<Shape, AllocError> {
    let first = Box::new(alloc, first)?;
    let second = Box::new(alloc, second)?;
    Ok(Shape::Lex(first, second))
}

/// A truth value, turned if they are kept so.
fn turned_value(form: Form, value: Value) -> Value {
    match value {
        Value::Bool(truth) => Value::Bool(truth != form.turned),
        other => other,
    }
}

/// What the operation with a number gives to the last writes.
fn gift(
    alloc: Global,
    op: &Operation,
    doing: Doing,
    place: usize,
    form: Form,
    ranks: &[Column],
) -> Result<Option<Gift>, Miss> {
    let (key, given) = match doing {
        Doing::Nothing | Doing::Clears => return Ok(None),
        Doing::Sets { key, given } => (key, given),
        _ => return Err(Miss::NoRule),
    };
    let mut leaves = Vec::new(alloc);
    if form.written {
        push(&mut leaves, Leaf::True)?;
    }
    for column in ranks {
        push(&mut leaves, leaf_at(column, place)?)?;
    }
    let is_odd = odd_of(doing).is_some();
    if form.odd.is_some() {
        push(&mut leaves, if is_odd { Leaf::True } else { Leaf::False })?;
    }
    let leaf = if is_odd {
        any_leaf(form, op.params.as_slice())?
    } else {
        turned_leaf(form, leaf_of(given)?)
    };
    push(&mut leaves, leaf)?;
    Ok(Some(Gift { key, leaves }))
}

/// The leaf of a column for the operation with a number.
fn leaf_at(column: &Column, place: usize) -> Result<Leaf, Miss> {
    match column.leaves.get(place) {
        Some(leaf) => Ok(*leaf),
        None => Err(Miss::NoRule),
    }
}

/// A truth value, turned if they are kept so.
fn turned_leaf(form: Form, leaf: Leaf) -> Leaf {
    match leaf {
        Leaf::True if form.turned => Leaf::False,
        Leaf::False if form.turned => Leaf::True,
        other => other,
    }
}

/// Some leaf of the kind of the constant that no leaf is: for a name an argument.
fn any_leaf(form: Form, params: &[Param]) -> Result<Leaf, Miss> {
    match form.odd {
        Some(Value::Name(_)) => {
            for (place, param) in params.iter().enumerate() {
                if param.sort == Sort::Name {
                    return Ok(Leaf::Arg(number_of(place)));
                }
            }
            Err(Miss::NoRule)
        }
        _ => Ok(Leaf::Zero),
    }
}

/// How the last write is read.
fn value_read(alloc: Global, form: Form, at: LeafAt) -> Result<Reading, Miss> {
    match form.odd {
        None if form.turned => Ok(Reading::Turned(at)),
        None => Ok(Reading::Leaf(at)),
        Some(value) => {
            let odd = LeafAt {
                component: at.component,
                leaf: at.leaf.saturating_sub(1),
                keyed: at.keyed,
            };
            Ok(Reading::Choice {
                when: Guard::Leaf(odd),
                then: value,
                other: boxed(alloc, Reading::Leaf(at))?,
            })
        }
    }
}

/// The cell of the rank of the last clear.
fn last_clear(alloc: Global, kept: &Kept, compared: &[Column]) -> Result<Component, Miss> {
    let Some((last, before)) = compared.split_last() else {
        return Err(Miss::NoRule);
    };
    let shape = ranked(alloc, before, shape_held(last.held))?;
    let mut starts = Vec::new(alloc);
    for column in compared {
        push(&mut starts, start_held(column.held))?;
    }
    let mut gifts = Vec::new(alloc);
    for (place, doing) in kept.doings.iter().enumerate() {
        push(&mut gifts, clear_gift(alloc, *doing, place, compared)?)?;
    }
    cell_or_table(alloc, None, shape, starts, gifts)
}

/// What the operation with a number gives to the last clear.
fn clear_gift(
    alloc: Global,
    doing: Doing,
    place: usize,
    compared: &[Column],
) -> Result<Option<Gift>, Miss> {
    if !is_clear(doing) {
        return Ok(None);
    }
    let mut leaves = Vec::new(alloc);
    for column in compared {
        push(&mut leaves, leaf_at(column, place)?)?;
    }
    Ok(Some(Gift { key: None, leaves }))
}

/// The columns before the first digits, by which last writes and clears are compared.
fn compared_columns(alloc: Global, columns: &[Column]) -> Result<Vec<Column>, AllocError> {
    let mut compared = Vec::new(alloc);
    for column in columns.iter().take(before_digits(columns)) {
        push(&mut compared, copied(alloc, column)?)?;
    }
    Ok(compared)
}

/// The reading of a table that is cleared, if the cell of the last clear has a number and the table the next.
fn since_clear(
    alloc: Global,
    kept: &Kept,
    columns: &[Column],
    clear: u32,
    reading: Reading,
) -> Result<Reading, Miss> {
    let when = Guard::Cleared {
        clear,
        table: clear.saturating_add(1),
        ranks: number_of(before_digits(columns)),
        ties: wins_ties(kept, columns)?,
    };
    Ok(Reading::Choice {
        when,
        then: kept.start,
        other: boxed(alloc, reading)?,
    })
}

/// Whether a clear counts at ranks that are equal except for digits; no rule fits if it depends on the operation.
fn wins_ties(kept: &Kept, columns: &[Column]) -> Result<bool, Miss> {
    let mut some = false;
    for column in columns {
        if column.held == Held::Digit {
            some = true;
            if is_above(kept, column, true) {
                return Ok(true);
            }
            if is_above(kept, column, false) {
                return Ok(false);
            }
        }
    }
    if some { Err(Miss::NoRule) } else { Ok(false) }
}

/// Whether in a column of digits each clear has the truth value, and each operation that sets another value than the start
/// hasn't.
fn is_above(kept: &Kept, column: &Column, truth: bool) -> bool {
    kept.doings.iter().zip(column.leaves.iter()).all(|(doing, leaf)| is_parted(
        kept.start,
        *doing,
        is_true(*leaf) == truth,
    ))
}

/// The same of one operation, which has the truth value or hasn't.
fn is_parted(start: Value, doing: Doing, has: bool) -> bool {
    match doing {
        Doing::Clears => has,
        Doing::Sets {
            given: Given::Const(value),
            ..
        } => !has || value == start,
        Doing::Sets { .. } => !has,
        _ => true,
    }
}
