//! Guesses by the rules for what operations set, add and join.

use crate::joins::joins;
use crate::last_writes::last_writes;
use crate::levels::levels;
use crate::sums::sums;
use kat_design::{Ask, Component};
use kat_reading::{Kept, Made, Miss, Reading, ask_of, doing_of, kept_of, number_of, push, reads};
use kat_type::{Operation, SeqType};
use std::alloc::{AllocError, Global};

/// A rule that gives components for a field.
#[derive(Clone, Copy, PartialEq, Eq, Debug)]
pub enum Rule {
    /// Tallies of what is added and taken away.
    Sums,
    /// Cells and tables that join.
    Joins,
    /// Marks of what was done for good, by ranks of digits.
    Levels,
    /// The value under the rank that set it.
    LastWrites,
}

/// The components and asks of a design.
#[derive(Drop)]
pub struct Guess {
    pub components: Vec<Component>,
    pub asks: Vec<Ask>,
}

/// How many rules there are.
const RULES: usize = 4;

/// The rules, cheapest first.
const ORDER: [Rule; RULES] = [Rule::Sums, Rule::Joins, Rule::Levels, Rule::LastWrites];

/// A guess by the rules for what operations set, add and join.
pub(crate) fn plain_guess(alloc: Global, ty: &SeqType, number: u32) -> Result<Guess, Miss> {
    let mut components = Vec::new(alloc);
    let mut readings = Vec::new(alloc);
    let mut choices = number;
    for (field, _) in ty.fields.as_slice().iter().enumerate() {
        let field = number_of(field);
        if is_read(ty, field) {
            let base = number_of(components.len());
            let skipped = choices % 2;
            choices /= 2;
            let made = made_at(alloc, ty, field, base, skipped)?;
            let reading = taken(made, &mut components)?;
            push(&mut readings, Some(reading))?;
        } else {
            push(&mut readings, None)?;
        }
    }
    let mut asks = Vec::new(alloc);
    for query in ty.queries.as_slice() {
        let ask = ask_of(alloc, &query.right, &readings)?;
        push(&mut asks, ask)?;
    }
    Ok(Guess { components, asks })
}

/// The first operation that changes a field in a way that no rule knows, by the code of its name.
pub fn first_unruled(ty: &SeqType, field: u32) -> Option<u128> {
    for op in ty.ops.as_slice() {
        if doing_of(op, field).is_err() {
            return Some(op.name);
        }
    }
    None
}

/// The rule for the field with a number, so many of those that fit being passed over; `None` if none is left.
pub fn rule_of(
    alloc: Global,
    ty: &SeqType,
    field: u32,
    skipped: u32,
) -> Result<Option<Rule>, AllocError> {
    match ruled(alloc, ty, field, 0, skipped) {
        Ok((rule, _)) => Ok(Some(rule)),
        Err(Miss::NoRule) => Ok(None),
        Err(Miss::Memory) => Err(AllocError),
    }
}

/// Whether some query reads a field.
pub fn is_read(ty: &SeqType, field: u32) -> bool {
    ty.queries
        .as_slice()
        .iter()
        .any(|query| reads(&query.right, field))
}

/// What a rule gives for a field.
pub(crate) fn made_at(
    alloc: Global,
    ty: &SeqType,
    field: u32,
    base: u32,
    skipped: u32,
) -> Result<Made, Miss> {
    let (_, made) = ruled(alloc, ty, field, base, skipped)?;
    Ok(made)
}

/// The rule for a field, so many of those that fit being passed over, and what it gives.
fn ruled(
    alloc: Global,
    ty: &SeqType,
    field: u32,
    base: u32,
    skipped: u32,
) -> Result<(Rule, Made), Miss> {
    let kept = kept_of(alloc, ty, field)?;
    let ops = ty.ops.as_slice();
    let mut left = skipped;
    for rule in &ORDER {
        match applied(alloc, *rule, ops, &kept, base) {
            Ok(made) => {
                if left == 0 {
                    return Ok((*rule, made));
                }
                left -= 1;
            }
            Err(Miss::NoRule) => {}
            Err(Miss::Memory) => return Err(Miss::Memory),
        }
    }
    Err(Miss::NoRule)
}

/// What a rule gives.
fn applied(
    alloc: Global,
    rule: Rule,
    ops: &[Operation],
    kept: &Kept,
    base: u32,
) -> Result<Made, Miss> {
    match rule {
        Rule::Sums => sums(alloc, kept, base),
        Rule::Joins => joins(alloc, kept, base),
        Rule::Levels => levels(alloc, ops, kept, base),
        Rule::LastWrites => last_writes(alloc, ops, kept, base),
    }
}

/// The reading of what was made, whose components go after the others.
fn taken(made: Made, into: &mut Vec<Component>) -> Result<Reading, AllocError> {
    let Made {
        components,
        reading,
    } = made;
    for component in components {
        push(into, component)?;
    }
    Ok(reading)
}
