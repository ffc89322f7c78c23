//! Values as they are passed with calls by numbers.
ghost use Rattle.std.specs.Prelude.{◌≡◌, ◌==◌, ◌<◌, ◌≤◌, ◌^◌, ◌*ℤ◌, ◌+ℤ◌, ◌++◌, IfOk, IfSome, List, drop, false, length, pos, position, replicate, true};
ghost use Rattle.kat_num.specs.One.{IsTheOne};
ghost use Rattle.kat_num.specs.declared.values.Value as values;
ghost use Rattle.kat_embed.specs.Passing.{ArePassed, GoesOn, IsPassed, Says, before_zero, number_of};

use kat_num::{Items, NUMBER_LIMIT, Sort, Value, bytes_of, code};
use std::alloc::{AllocError, Global};

/// A value as C has it: a truth value is 0 or 1 in `low`; a number has its lower 64 bits in `low`, and what is above them in
/// `high`; a name has its bytes in `name`, with zero bytes after them. What the kind doesn't name is read by nothing.
#[repr(C)]
#[derive(Clone, Copy)]
pub struct TaggedValue {
    pub kind: u64,
    pub high: i64,
    pub low: u64,
    pub name: [u8; 16],
}

/// The kind of truth values.
const TRUTH: u64 = 0;

/// The kind of numbers.
const NUMBER: u64 = 1;

/// The kind of names.
const NAME: u64 = 2;

/// The arguments of these sorts that are passed, if they are such.
pub(crate) fn arguments_in(
    alloc: Global,
    sorts: &[Sort],
    passed: &[TaggedValue],
) -> Result<Option<Items<Value>>, AllocError>
    ensures { IfOk result (IsTheOne (ArePassed sorts.now passed.now)) }
{
    let mut args = Vec::with_capacity(alloc, sorts.len())?;
    if push_arguments(sorts, passed, &mut args)? {
        Ok(Some(Items::from_vec(args)))
    } else {
        Ok(None)
    }
}

/// Appends the arguments that are passed, and tells whether they are such.
fn push_arguments(
    sorts: &[Sort],
    passed: &[TaggedValue],
    args: &mut Vec<Value>,
) -> Result<bool, AllocError>
    ensures all { IfOk result (λ fit. fit ≡ true → GoesOn args.old.items args.new.items (ArePassed sorts.now passed.now)) }
    ensures none { IfOk result (λ fit. fit ≡ false → (values : List values.Value) → ArePassed sorts.now passed.now values → ⊥) }
{
    match sorts {
        [] => match passed {
            [] => Ok(true),
            [_, ..] => Ok(false),
        },
        [sort, sorts @ ..] => match passed {
            [] => Ok(false),
            [one, passed @ ..] => match argument_in(*sort, one) {
                Some(value) => {
                    args.push(value)?;
                    push_arguments(sorts, passed, args)
                }
                None => Ok(false),
            },
        },
    }
}

/// The argument of a sort that is passed, if it is one.
fn argument_in(sort: Sort, passed: &TaggedValue) -> Option<Value>
    ensures { IsTheOne (IsPassed sort passed.now) result }
{
    match sort {
        Sort::Bool => truth_in(passed),
        Sort::Int => whole_in(passed),
        Sort::Nat => natural_in(passed),
        Sort::Name => name_in(passed),
    }
}

/// A truth value, as 0 or 1.
fn truth_in(passed: &TaggedValue) -> Option<Value>
    ensures { IsTheOne (IsPassed Sort.Bool passed.now) result }
{
    match (passed.kind, passed.low) {
        (TRUTH, 0) => Some(Value::Bool(false)),
        (TRUTH, 1) => Some(Value::Bool(true)),
        _ => None,
    }
}

/// A number within the limit of arguments.
fn whole_in(passed: &TaggedValue) -> Option<Value>
    ensures { IsTheOne (IsPassed Sort.Int passed.now) result }
{
    let number = number_of(passed);
    if passed.kind == NUMBER && number.unsigned_abs() <= u128::from(NUMBER_LIMIT) {
        Some(Value::Num(number))
    } else {
        None
    }
}

/// Such a number from 0 on.
fn natural_in(passed: &TaggedValue) -> Option<Value>
    ensures { IsTheOne (IsPassed Sort.Nat passed.now) result }
{
    let number = number_of(passed);
    if passed.kind == NUMBER && 0 <= number && number <= i128::from(NUMBER_LIMIT) {
        Some(Value::Num(number))
    } else {
        None
    }
}

/// The number that the two halves write.
fn number_of(passed: &TaggedValue) -> i128
    ensures { result ≡ number_of passed.now }
{
    i128::from(passed.high) * 18_446_744_073_709_551_616 + i128::from(passed.low)
}

/// A name.
fn name_in(passed: &TaggedValue) -> Option<Value>
    ensures { IsTheOne (IsPassed Sort.Name passed.now) result }
{
    if passed.kind != NAME {
        return None;
    }
    match code(before_zero(&passed.name)) {
        Some(code) => Some(Value::Name(code)),
        None => None,
    }
}

/// The bytes before the first one that is zero, or all of them.
fn before_zero(bytes: &[u8]) -> &[u8]
    ensures { result.now ≡ before_zero bytes.now }
{
    match first_zero(bytes) {
        Some(count) => &bytes[..count],
        None => bytes,
    }
}

/// The place of the first byte that is zero.
fn first_zero(bytes: &[u8]) -> Option<usize>
    ensures place { result ≡ position (λ byte. byte == 0) bytes.now }
    ensures within { IfSome result (λ place. place < length bytes.now) }
{
    bytes.iter().position(|byte| *byte == 0)
}

/// A value as it is passed.
pub(crate) fn passed_as(alloc: Global, value: Value) -> Result<TaggedValue, AllocError>
    ensures { IfOk result (λ passed. Says passed value) }
{
    match value {
        Value::Bool(truth) => Ok(passed_truth(truth)),
        Value::Num(number) => Ok(passed_number(number)),
        Value::Name(code) => passed_name(alloc, code),
    }
}

/// A truth value as it is passed.
fn passed_truth(truth: bool) -> TaggedValue
    ensures { Says result (Value.Bool truth) }
{
    TaggedValue {
        kind: TRUTH,
        high: 0,
        low: u64::from(truth),
        name: [0; 16],
    }
}

/// A number as it is passed.
fn passed_number(number: i128) -> TaggedValue
    ensures { Says result (Value.Num number) }
{
    let (high, low) = halves(number);
    TaggedValue {
        kind: NUMBER,
        high,
        low,
        name: [0; 16],
    }
}

/// What is above a number's lower 64 bits, and these.
fn halves(number: i128) -> (i64, u64)
    ensures { result.0 *ℤ pos (2 ^ 64) +ℤ pos result.1 ≡ number }
{
    if number < 0 {
        let less = (-(number + 1)) as u128;
        let high = (less / 18_446_744_073_709_551_616) as i64;
        let low = (less % 18_446_744_073_709_551_616) as u64;
        (-high - 1, u64::MAX - low)
    } else {
        let number = number as u128;
        let high = (number / 18_446_744_073_709_551_616) as i64;
        let low = (number % 18_446_744_073_709_551_616) as u64;
        (high, low)
    }
}

/// A name as it is passed.
fn passed_name(alloc: Global, code: u128) -> Result<TaggedValue, AllocError>
    ensures { IfOk result (λ passed. Says passed (Value.Name code)) }
{
    let bytes = bytes_of(alloc, code)?;
    let name = padded(&bytes);
    Ok(TaggedValue {
        kind: NAME,
        high: 0,
        low: 0,
        name,
    })
}

/// These bytes, and zero bytes after them.
fn padded(bytes: &[u8]) -> [u8; 16]
    requires { length bytes.now ≤ 15 }
    ensures { result ≡ bytes.now ++ drop (length bytes.now) (replicate 16 0) }
{
    let mut name = [0; 16];
    name[..bytes.len()].copy_from_slice(bytes);
    name
}
