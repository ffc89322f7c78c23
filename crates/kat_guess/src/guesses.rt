//! Guesses: whole designs for a type, put together from what rules give for its fields.

use crate::formulas::formula_guess;
use crate::guarded::{guarded_count, guarded_guess};
use crate::plain::{Guess, Rule, is_read, plain_guess, rule_of};
use kat_reading::{Miss, columns_of, full_columns_of, kept_of, number_of};
use kat_type::SeqType;
use std::alloc::Global;

/// How many guesses there are at most.
const MOST: u32 = 16;

/// A guess for a type. The bits of the number, from the lowest, say for each field that a query reads whether the second rule
/// that fits is used in place of the first: so 0 is the cheapest guess, and with k such fields there are 2^k at most. The numbers
/// after these are those of guesses by formulas, and then those with a guard.
///
/// It is `NoRule` if for some field no rule is left, and if no ask gives what a query asks.
pub fn guess_for(alloc: Global, ty: &SeqType, number: u32) -> Result<Guess, Miss> {
    if number == 0 {
        return first_guess(alloc, ty);
    }
    match number.checked_sub(plain_count(ty)) {
        None => plain_guess(alloc, ty, number),
        Some(left) => match left.checked_sub(formula_count(ty)) {
            None => formula_guess(alloc, ty, left),
            Some(guarded) => guarded_guess(alloc, ty, guarded),
        },
    }
}

/// The cheapest guess by the plain rules, if there is one that may be proved; otherwise by formulas, and failing that by the plain rules.
fn first_guess(alloc: Global, ty: &SeqType) -> Result<Guess, Miss> {
    if has_lone_digit(alloc, ty)? {
        return match formula_guess(alloc, ty, 0) {
            Err(Miss::NoRule) => plain_guess(alloc, ty, 0),
            found => found,
        };
    }
    match plain_guess(alloc, ty, 0) {
        Err(Miss::NoRule) => formula_guess(alloc, ty, 0),
        found => found,
    }
}

/// Whether a field is kept by last writes whose ranks have one digit that isn't kept, though other operations have greater ones.
fn has_lone_digit(alloc: Global, ty: &SeqType) -> Result<bool, Miss> {
    for (field, _) in ty.fields.as_slice().iter().enumerate() {
        let field = number_of(field);
        if is_read(ty, field) && rule_of(alloc, ty, field, 0)? == Some(Rule::LastWrites) {
            let kept = kept_of(alloc, ty, field)?;
            let ops = ty.ops.as_slice();
            let some = columns_of(alloc, ops, &kept)?;
            let all = full_columns_of(alloc, ops, &kept)?;
            if some.len() != all.len() {
                return Ok(true);
            }
        }
    }
    Ok(false)
}

/// How many guesses there are for a type: 2^k with k fields that a query reads, and 16 at most; as many, twice, by formulas; and for
/// each query two with a guard.
pub fn guess_count(ty: &SeqType) -> u32 {
    plain_count(ty)
        .saturating_add(formula_count(ty))
        .saturating_add(guarded_count(ty))
}

/// How many guesses there are by formulas.
fn formula_count(ty: &SeqType) -> u32 {
    plain_count(ty).saturating_mul(2)
}

/// How many guesses there are by the rules for what operations set, add and join.
fn plain_count(ty: &SeqType) -> u32 {
    let mut count: u32 = 1;
    for (field, _) in ty.fields.as_slice().iter().enumerate() {
        if is_read(ty, number_of(field)) && count < MOST {
            count = count.saturating_mul(2);
        }
    }
    count
}
