//! What a report says of rules: which fit each field that a query reads, and otherwise what is in their way and what to write.

use crate::alone::{are_ruled, is_asked_alone, is_ruled, large_guess};
use crate::obstacles::{Obstacle, adds, is_cleared, joins, obstacle_asked, obstacle_in, sets};
use crate::report::{push_number, push_word};
use kat_guess::{Rule, is_read, rule_of};
use kat_num::Value;
use kat_reading::{number_of, reads};
use kat_type::{Field, Operation, Query, SeqType};
use std::alloc::{AllocError, Global};

/// How often a query may count what it adds.
const MANY: i128 = 30;

/// Appends a line for each field that a query reads: the rules that fit, or what is in their way. If no guess was tried, since a design
/// can't have its size, constants may be what makes it great; if rules gave none, queries may be in the way too.
pub(crate) fn push_rules(
    alloc: Global,
    ty: &SeqType,
    guesses: u64,
    into: &mut Vec<u8>,
) -> Result<(), AllocError> {
    let size = if guesses > 0 {
        None
    } else {
        large_guess(alloc, ty)?
    };
    let is_made = guesses > 0 || size.is_some();
    for (number, field) in ty.fields.as_slice().iter().enumerate() {
        let number = number_of(number);
        if is_read(ty, number) {
            push_word(alloc, name_of(field), into)?;
            into.extend_from_slice(b": ")?;
            push_field(alloc, ty, number, is_made, into)?;
            if size.is_some() {
                push_constants(alloc, ty, number, into)?;
            }
        }
    }
    match size {
        Some(size) => push_size(size, into),
        None if is_made => Ok(()),
        None => push_queries(alloc, ty, into),
    }
}

/// Appends that a guess is too large for a design, and what may help.
fn push_size(size: u32, into: &mut Vec<u8>) -> Result<(), AllocError> {
    into.extend_from_slice(b"The rules give a guess of size ")?;
    push_number(i128::from(size), into)?;
    into.extend_from_slice(
        b", and a design has size 64 at most. Each query counts, and a constant that it adds counts\nas often as it says: fewer or shorter queries, or smaller constants, may help.\n",
    )
}

/// Appends the rules that fit a field, or what is in their way.
fn push_field(
    alloc: Global,
    ty: &SeqType,
    field: u32,
    is_made: bool,
    into: &mut Vec<u8>,
) -> Result<(), AllocError> {
    let is_fit = is_made || is_ruled(alloc, ty, field)?;
    match rule_of(alloc, ty, field, 0)? {
        Some(first) => {
            into.extend_from_slice(rule_text(first))?;
            if let Some(second) = rule_of(alloc, ty, field, 1)? {
                into.extend_from_slice(b", ")?;
                into.extend_from_slice(rule_text(second))?;
            }
        }
        None if is_fit => into.extend_from_slice(b"what operations compute")?,
        None => push_unruled(alloc, ty, field, into)?,
    }
    into.extend_from_slice(b"\n")?;
    if is_fit {
        return Ok(());
    }
    push_causes(alloc, ty, field, into)
}

/// What a rule is called.
fn rule_text(rule: Rule) -> &'static [u8] {
    match rule {
        Rule::Sums => b"sums",
        Rule::Joins => b"joins",
        Rule::Levels => b"levels",
        Rule::LastWrites => b"last writes",
    }
}

/// Appends that no rule fits a field, with the first operation for which none does alone, or the first two for which none does together.
fn push_unruled(
    alloc: Global,
    ty: &SeqType,
    field: u32,
    into: &mut Vec<u8>,
) -> Result<(), AllocError> {
    into.extend_from_slice(b"no rule fits")?;
    let ops = ty.ops.as_slice();
    for (number, op) in ops.iter().enumerate() {
        if !are_ruled(alloc, ty, field, number, number)? {
            into.extend_from_slice(b" what it is set to by ")?;
            return push_word(alloc, op.name, into);
        }
    }
    for (number, op) in ops.iter().enumerate() {
        for (place, other) in ops.iter().enumerate() {
            if place > number && !are_ruled(alloc, ty, field, number, place)? {
                into.extend_from_slice(b" what ")?;
                push_word(alloc, op.name, into)?;
                into.extend_from_slice(b" and ")?;
                push_word(alloc, other.name, into)?;
                return into.extend_from_slice(b" do together");
            }
        }
    }
    Ok(())
}

/// Appends for each operation what is in the way of rules in what it sets a field to, or what another one does beside it, with what to write.
fn push_causes(
    alloc: Global,
    ty: &SeqType,
    field: u32,
    into: &mut Vec<u8>,
) -> Result<(), AllocError> {
    for (number, op) in ty.ops.as_slice().iter().enumerate() {
        if are_ruled(alloc, ty, field, number, number)? {
            push_beside(alloc, ty, field, number, op, into)?;
        } else if let Some(obstacle) = obstacle_of(ty, op, field) {
            if !is_small(obstacle) {
                push_cause(alloc, ty, op, obstacle, into)?;
            }
        }
    }
    Ok(())
}

/// Appends what an operation does that doesn't go together with what another one does, if for each of them alone a rule fits.
fn push_beside(
    alloc: Global,
    ty: &SeqType,
    field: u32,
    number: usize,
    op: &Operation,
    into: &mut Vec<u8>,
) -> Result<(), AllocError> {
    let is_bound = obstacle_of(ty, op, field) == Some(Obstacle::Bound);
    for (place, other) in ty.ops.as_slice().iter().enumerate() {
        let is_alone_fit = place != number && are_ruled(alloc, ty, field, place, place)?;
        if is_alone_fit && !are_ruled(alloc, ty, field, number, place)? {
            if is_bound {
                return push_cause(alloc, ty, op, Obstacle::Bound, into);
            }
            if let Some(clash) = clash_of(op, other, field) {
                let (verb, rest) = clash_words(clash);
                into.extend_from_slice(b"  ")?;
                push_word(alloc, op.name, into)?;
                into.extend_from_slice(verb)?;
                push_word(alloc, other.name, into)?;
                return into.extend_from_slice(rest);
            }
        }
    }
    Ok(())
}

/// How two operations don't go together.
#[derive(Clone, Copy, PartialEq, Eq)]
enum Clash {
    /// One clears what the other adds.
    Cleared,
    /// One sets anew what the other adds.
    Added,
    /// One sets anew what the other joins.
    Joined,
}

/// How an operation doesn't go together with another one, if it clears what that adds, or sets anew what that adds or joins.
fn clash_of(op: &Operation, other: &Operation, field: u32) -> Option<Clash> {
    if is_cleared(op, field) && adds(other, field) {
        return Some(Clash::Cleared);
    }
    if !sets(op, field) {
        return None;
    }
    if adds(other, field) {
        return Some(Clash::Added);
    }
    if joins(other, field) {
        return Some(Clash::Joined);
    }
    None
}

/// What comes before and after the name of the other operation.
fn clash_words(clash: Clash) -> (&'static [u8], &'static [u8]) {
    match clash {
        Clash::Cleared => (
            b": `clear` forgets what ",
            b" adds; write amounts that are set, and a query that compares them (emptied_stock)\n",
        ),
        Clash::Added => (
            b": sets anew what ",
            b" adds, and a sum has no order; write an operation that adds the difference (signed_counter)\n",
        ),
        Clash::Joined => (
            b": sets anew what ",
            b" joins, and a join keeps the greatest; let both set it (register), or give the one that counts for good a rank of its own (seats)\n",
        ),
    }
}

/// Appends what is in the way in an operation, and what to write.
fn push_cause(
    alloc: Global,
    ty: &SeqType,
    op: &Operation,
    obstacle: Obstacle,
    into: &mut Vec<u8>,
) -> Result<(), AllocError> {
    into.extend_from_slice(b"  ")?;
    push_word(alloc, op.name, into)?;
    into.extend_from_slice(b": ")?;
    push_obstacle(alloc, ty, obstacle, into)?;
    into.extend_from_slice(remedy(obstacle))
}

/// Appends the great constants that operations add to a field, or set it to.
fn push_constants(
    alloc: Global,
    ty: &SeqType,
    field: u32,
    into: &mut Vec<u8>,
) -> Result<(), AllocError> {
    for op in ty.ops.as_slice() {
        match obstacle_of(ty, op, field) {
            Some(Obstacle::Constant(Value::Num(number))) if number.saturating_abs() > MANY => {
                push_cause(alloc, ty, op, Obstacle::Constant(Value::Num(number)), into)?;
            }
            _ => {}
        }
    }
    Ok(())
}

/// Whether an obstacle is a number that a query may count.
fn is_small(obstacle: Obstacle) -> bool {
    match obstacle {
        Obstacle::Constant(Value::Num(number)) => number.saturating_abs() <= MANY,
        _ => false,
    }
}

/// What is in the way in what an operation sets a field to.
fn obstacle_of(ty: &SeqType, op: &Operation, field: u32) -> Option<Obstacle> {
    let start = match ty.fields.as_slice().get(field as usize) {
        Some(Field::Plain { start, .. }) => *start,
        Some(Field::Keyed { start, .. }) => *start,
        None => return None,
    };
    obstacle_in(op, field, start)
}

/// Appends a line for each query that is in the way though rules fit what it reads, with what to write.
fn push_queries(alloc: Global, ty: &SeqType, into: &mut Vec<u8>) -> Result<(), AllocError> {
    for query in ty.queries.as_slice() {
        if let Some(obstacle) = obstacle_asked(query) {
            if reads_ruled(alloc, ty, query)? && !is_asked_alone(alloc, ty, query)? {
                into.extend_from_slice(b"query ")?;
                push_word(alloc, query.name, into)?;
                into.extend_from_slice(b": ")?;
                push_obstacle(alloc, ty, obstacle, into)?;
                into.extend_from_slice(asked_remedy(obstacle))?;
            }
        }
    }
    Ok(())
}

/// Whether rules fit each field that a query reads.
fn reads_ruled(alloc: Global, ty: &SeqType, query: &Query) -> Result<bool, AllocError> {
    for (number, _) in ty.fields.as_slice().iter().enumerate() {
        let number = number_of(number);
        if reads(&query.right, number) && !is_ruled(alloc, ty, number)? {
            return Ok(false);
        }
    }
    Ok(true)
}

/// Appends what an obstacle is.
fn push_obstacle(
    alloc: Global,
    ty: &SeqType,
    obstacle: Obstacle,
    into: &mut Vec<u8>,
) -> Result<(), AllocError> {
    match obstacle {
        Obstacle::Bound => into.extend_from_slice(b"a sum that is cut at a bound"),
        Obstacle::Choice => into.extend_from_slice(b"an `if`"),
        Obstacle::Constants => into.extend_from_slice(b"an `if` between constants"),
        Obstacle::Entry => into.extend_from_slice(b"another entry of the table"),
        Obstacle::Case => into.extend_from_slice(b"an `if` by an argument"),
        Obstacle::Least => into.extend_from_slice(b"the least of numbers above 0"),
        Obstacle::Apart => into.extend_from_slice(b"a comparison of two arguments"),
        Obstacle::Condition => {
            into.extend_from_slice(b"a condition that the greatest argument doesn't tell")
        }
        Obstacle::Extreme => into.extend_from_slice(b"the greater or lesser of two numbers"),
        Obstacle::Other(field) => {
            into.extend_from_slice(b"the other field ")?;
            match ty.fields.as_slice().get(field as usize) {
                Some(field) => push_word(alloc, name_of(field), into),
                None => Ok(()),
            }
        }
        Obstacle::Constant(value) => {
            into.extend_from_slice(b"the constant ")?;
            push_value(alloc, value, into)
        }
    }
}

/// What to write in place of an obstacle in an operation.
fn remedy(obstacle: Obstacle) -> &'static [u8] {
    match obstacle {
        Obstacle::Bound => b"; write the sum, and compare it in the query (stock, full_marks)\n",
        Obstacle::Choice => {
            b"; give the operation a rank of its own (guests), or keep both and compare in the query (seats)\n"
        }
        Obstacle::Constants => b"; write a query that compares what decides (stock)\n",
        Obstacle::Other(_) | Obstacle::Entry =>
            b"; write an operation that has the value as its argument (register)\n",
        Obstacle::Constant(Value::Num(_)) => {
            b"; a query that adds it counts it so often, and a design has size 64 at most: write an argument that the app gives, or a query that compares (low_fuel)\n"
        }
        Obstacle::Constant(_) => {
            b", and effects have no names; write an argument that the app gives, or a query that compares (low_fuel)\n"
        }
        Obstacle::Extreme => {
            b"; no ask gives it: write what is given, and compare it in the query (low_fuel)\n"
        }
        Obstacle::Case => b"; write an operation for each case (members)\n",
        Obstacle::Least => {
            b", and no effect has a number above 0 with the other sign; let the app give how far it is below a bound, and keep the greatest (highest_bid)\n"
        }
        Obstacle::Apart => {
            b", and effects have no difference; let the app give the difference as one argument\n"
        }
        Obstacle::Condition => {
            b"; write an operation for that case, which the app calls then (guests)\n"
        }
    }
}

/// What to write in place of an obstacle in a query.
fn asked_remedy(obstacle: Obstacle) -> &'static [u8] {
    match obstacle {
        Obstacle::Choice => {
            b"; no ask chooses between two numbers or names: write a query that compares (seats)\n"
        }
        Obstacle::Constants => {
            b"; `find` has a rule for it only where truth values that stay true choose among numbers: write a query for each condition\n"
        }
        Obstacle::Extreme =>
            b"; no ask gives it: write a query for each of them, or one that compares\n",
        _ => b"\n",
    }
}

/// The name of a field, by its code.
fn name_of(field: &Field) -> u128 {
    match field {
        Field::Plain { name, .. } => *name,
        Field::Keyed { name, .. } => *name,
    }
}

/// Appends a value, as a type file says it.
fn push_value(alloc: Global, value: Value, into: &mut Vec<u8>) -> Result<(), AllocError> {
    match value {
        Value::Bool(true) => into.extend_from_slice(b"true"),
        Value::Bool(false) => into.extend_from_slice(b"false"),
        Value::Num(number) => push_number(number, into),
        Value::Name(code) => {
            into.extend_from_slice(b"\"")?;
            push_word(alloc, code, into)?;
            into.extend_from_slice(b"\"")
        }
    }
}
