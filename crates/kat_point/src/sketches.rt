//! Points in the making: numbers and truth values of variables, as far as they are known.

use crate::checking::is_true;
use crate::sums::value_of;
use kat_form::{Encoded, Meaning};
use kat_linear::Row;
use std::alloc::{AllocError, Global};

/// What is known of a point: the numbers of number variables, and the values of the truth variables and gates among the
/// propositional variables.
#[derive(Drop)]
pub(crate) struct Sketch {
    pub nums: Vec<Option<i128>>,
    pub values: Vec<Option<bool>>,
}

/// Goes through the clauses, and gives numbers that they ask for to variables that have none. Whether no clause is found
/// to be false.
pub(crate) fn is_filled(encoded: &Encoded, guess: i128, sketch: &mut Sketch) -> bool {
    for (i, clause) in encoded.clauses.iter().enumerate() {
        match gate_of(encoded, clause) {
            Some(gate) => note_gate(encoded, gate, clause, sketch),
            None => match any_value(encoded, clause, sketch) {
                Some(true) => {}
                Some(false) => return false,
                None => ask(encoded, i, clause, guess, sketch),
            },
        }
    }
    true
}

/// The place of the gate whose part the clause states, if it does.
fn gate_of(encoded: &Encoded, clause: &[i32]) -> Option<usize> {
    match clause {
        [first, ..] if *first < 0 => gate_at(encoded, *first),
        _ => None,
    }
}

/// The place of a literal's variable, if that is a gate.
fn gate_at(encoded: &Encoded, literal: i32) -> Option<usize> {
    let place = place_of(literal);
    match encoded.meanings.get(place) {
        Some(Meaning::Gate) => Some(place),
        _ => None,
    }
}

fn place_of(literal: i32) -> usize {
    (literal.unsigned_abs() as usize).saturating_sub(1)
}

/// A gate is true if each of its clauses has another literal that is true.
fn note_gate(encoded: &Encoded, gate: usize, clause: &[i32], sketch: &mut Sketch) {
    if value_at(&sketch.values, gate) == Some(false) {
        return;
    }
    match any_value(encoded, behind_first(clause), sketch) {
        Some(true) => {}
        other => set(&mut sketch.values, gate, other),
    }
}

fn behind_first(clause: &[i32]) -> &[i32] {
    match clause {
        [] => clause,
        [_, others @ ..] => others,
    }
}

fn value_at(values: &[Option<bool>], place: usize) -> Option<bool> {
    if place < values.len() {
        values[place]
    } else {
        None
    }
}

fn set(values: &mut Vec<Option<bool>>, place: usize, value: Option<bool>) {
    if place < values.len() {
        values[place] = value;
    }
}

/// Whether some literal is true, if that is known.
fn any_value(encoded: &Encoded, literals: &[i32], sketch: &Sketch) -> Option<bool> {
    let mut value = Some(false);
    for literal in literals {
        match literal_value(encoded, *literal, sketch) {
            Some(true) => return Some(true),
            Some(false) => {}
            None => value = None,
        }
    }
    value
}

fn literal_value(encoded: &Encoded, literal: i32, sketch: &Sketch) -> Option<bool> {
    let place = place_of(literal);
    let value = match encoded.meanings.get(place) {
        Some(Meaning::Atom(row)) => row_value(row, &sketch.nums),
        _ => value_at(&sketch.values, place),
    };
    match value {
        Some(value) => Some(value == (literal > 0)),
        None => None,
    }
}

/// Whether the row is met, if its variables have numbers.
fn row_value(row: &Row, nums: &[Option<i128>]) -> Option<bool> {
    let mut sum = row.constant;
    for (variable, coefficient) in &row.terms {
        let Some(number) = number_at(nums, *variable) else {
            return None;
        };
        let Some(next) = with_product(*coefficient, number, sum) else {
            return None;
        };
        sum = next;
    }
    Some(sum <= 0)
}

fn number_at(nums: &[Option<i128>], variable: u32) -> Option<i128> {
    let place = variable as usize;
    if place < nums.len() {
        nums[place]
    } else {
        None
    }
}

fn with_product(a: i128, b: i128, sum: i128) -> Option<i128> {
    match a.checked_mul(b) {
        Some(product) => product.checked_add(sum),
        None => None,
    }
}

/// The clause at a place has no literal that is known to be true: if only one isn't known, it must be true.
fn ask(encoded: &Encoded, at: usize, clause: &[i32], guess: i128, sketch: &mut Sketch) {
    let Some(literal) = only_open(encoded, clause, sketch) else {
        return;
    };
    grant(encoded, literal, guess, sketch);
    if gate_at(encoded, literal).is_some() {
        ask_parts(encoded, at, guess, sketch);
    }
}

/// The parts of gates that must be true are so too: these are stated right before the clause that asks for the gates.
fn ask_parts(encoded: &Encoded, before: usize, guess: i128, sketch: &mut Sketch) {
    for back in 0..before {
        let place = before - 1 - back;
        if place >= encoded.clauses.len() {
            return;
        }
        let clause = encoded.clauses[place].as_slice();
        let Some(gate) = gate_of(encoded, clause) else {
            return;
        };
        if value_at(&sketch.values, gate) == Some(true) {
            if let Some(literal) = only_open(encoded, behind_first(clause), sketch) {
                grant(encoded, literal, guess, sketch);
            }
        }
    }
}

/// The one literal that isn't known, if the others are false.
fn only_open(encoded: &Encoded, literals: &[i32], sketch: &Sketch) -> Option<i32> {
    let mut open = None;
    for literal in literals {
        match literal_value(encoded, *literal, sketch) {
            Some(true) => return None,
            Some(false) => {}
            None => match open {
                Some(_) => return None,
                None => open = Some(*literal),
            },
        }
    }
    open
}

/// Makes a literal true: that of a gate, or that of an atom, by the number of its last variable that has none.
fn grant(encoded: &Encoded, literal: i32, guess: i128, sketch: &mut Sketch) {
    let place = place_of(literal);
    match encoded.meanings.get(place) {
        Some(Meaning::Atom(row)) => {
            let least = if literal > 0 { 0 } else { 1 };
            solve(row, least, guess, &mut sketch.nums);
        }
        _ => set(&mut sketch.values, place, Some(literal > 0)),
    }
}

/// Gives the last variable without a number the one that gives the row the wanted sum, if its coefficient is 1 or
/// -1. Others without a number get the guess.
fn solve(row: &Row, wanted: i128, guess: i128, nums: &mut Vec<Option<i128>>) {
    let Some((variable, coefficient)) = last_open(&row.terms, nums) else {
        return;
    };
    let Some(rest) = rest_of(row, variable, guess, nums) else {
        return;
    };
    let Some(left) = wanted.checked_sub(rest) else {
        return;
    };
    match coefficient {
        1 => give(nums, variable, left),
        -1 => give_opposite(nums, variable, left),
        _ => {}
    }
}

fn last_open(terms: &[(u32, i128)], nums: &[Option<i128>]) -> Option<(u32, i128)> {
    let mut open = None;
    for (variable, coefficient) in terms {
        if number_at(nums, *variable).is_none() {
            open = Some((*variable, *coefficient));
        }
    }
    open
}

/// The row's sum except for the term of a variable.
fn rest_of(row: &Row, variable: u32, guess: i128, nums: &mut Vec<Option<i128>>) -> Option<i128> {
    let mut rest = row.constant;
    for (other, coefficient) in &row.terms {
        if *other == variable {
            continue;
        }
        let number = number_or(nums, *other, guess);
        let Some(next) = with_product(*coefficient, number, rest) else {
            return None;
        };
        rest = next;
    }
    Some(rest)
}

/// The number of a variable, which is the guess if it had none.
fn number_or(nums: &mut Vec<Option<i128>>, variable: u32, guess: i128) -> i128 {
    match number_at(nums, variable) {
        Some(number) => number,
        None => {
            give(nums, variable, guess);
            guess
        }
    }
}

fn give(nums: &mut Vec<Option<i128>>, variable: u32, number: i128) {
    let place = variable as usize;
    if place < nums.len() {
        nums[place] = Some(number);
    }
}

fn give_opposite(nums: &mut Vec<Option<i128>>, variable: u32, number: i128) {
    if let Some(opposite) = number.checked_neg() {
        give(nums, variable, opposite);
    }
}

/// The numbers, with the guess if there is none.
pub(crate) fn filled(
    alloc: Global,
    nums: &[Option<i128>],
    guess: i128,
) -> Result<Vec<i128>, AllocError> {
    let mut whole = Vec::new(alloc);
    for number in nums {
        match number {
            Some(number) => whole.push(*number)?,
            None => whole.push(guess)?,
        }
    }
    Ok(whole)
}

/// The values of all propositional variables at numbers: gates are true if each of their clauses has another literal
/// that is true.
pub(crate) fn values_at(
    alloc: Global,
    encoded: &Encoded,
    sketch: &Sketch,
    nums: &[i128],
) -> Result<Vec<bool>, AllocError> {
    let mut values = Vec::new(alloc);
    for (i, meaning) in encoded.meanings.iter().enumerate() {
        values.push(meaning_value(meaning, i, sketch, nums))?;
    }
    for clause in &encoded.clauses {
        if let Some(gate) = gate_of(encoded, clause) {
            if !is_any_true(behind_first(clause), &values) && gate < values.len() {
                values[gate] = false;
            }
        }
    }
    Ok(values)
}

fn meaning_value(meaning: &Meaning, place: usize, sketch: &Sketch, nums: &[i128]) -> bool {
    match meaning {
        Meaning::Truth(_) => value_at(&sketch.values, place) == Some(true),
        Meaning::Atom(row) => match value_of(row, nums) {
            Some(sum) => sum <= 0,
            None => false,
        },
        Meaning::Gate => true,
    }
}

fn is_any_true(literals: &[i32], values: &[bool]) -> bool {
    literals.iter().any(|literal| is_true(*literal, values))
}
