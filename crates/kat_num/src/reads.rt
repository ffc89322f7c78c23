//! How one argument is read.
ghost use Rattle.std.specs.Prelude.{◌≡◌, ℕ, List, ◌∷◌, IfSome, MatchOption, Some, neg_ℤ, pos};
ghost use Rattle.kat_num.specs.One.{IsTheOne};
ghost use Rattle.kat_num.specs.Values.{IsArgument, IsArgumentText, IsNumber, quoted, value_text};

use crate::bytes::is_digit;
use crate::names::code;
use crate::values::{NUMBER_LIMIT, Sort, Value};

/// The number that digits write, or `None` if the bytes aren't digits or the number is past the limit.
pub fn number(digits: &[u8]) -> Option<u64>
    ensures { IsTheOne (IsNumber digits.now) result }
{
    if digits.is_empty() {
        return None;
    }
    let mut value: u64 = 0;
    for digit in digits {
        if !is_digit(*digit) {
            return None;
        }
        value = value * 10 + u64::from(*digit - b'0');
        if value > NUMBER_LIMIT {
            return None;
        }
    }
    Some(value)
}

/// The value of one argument of the sort, written without blanks, or `None` if the bytes are none.
/// What `print` writes of an argument is read again.
pub fn read_value(sort: Sort, bytes: &[u8]) -> Option<Value>
    ensures the_one { IsTheOne (IsArgumentText sort bytes.now) result }
    ensures argument { IfSome result (λ value. IsArgument sort value) }
    ensures again { (value : Value) → IsArgument sort value → bytes.now ≡ value_text value → result ≡ Some value }
{
    match sort {
        Sort::Bool => truth(bytes),
        Sort::Int => whole(bytes),
        Sort::Nat => natural(bytes),
        Sort::Name => name(bytes),
    }
}

/// `true` or `false`.
fn truth(bytes: &[u8]) -> Option<Value>
    ensures { IsTheOne (IsArgumentText Sort.Bool bytes.now) result }
{
    match bytes {
        b"true" => Some(Value::Bool(true)),
        b"false" => Some(Value::Bool(false)),
        _ => None,
    }
}

/// A number, or `-` and a number.
fn whole(bytes: &[u8]) -> Option<Value>
    ensures { IsTheOne (IsArgumentText Sort.Int bytes.now) result }
{
    match after_minus(bytes) {
        Some(digits) => negative(digits),
        None => natural(bytes),
    }
}

/// The value of `-` and these digits.
fn negative(digits: &[u8]) -> Option<Value>
    ensures { IsTheOne (IsArgumentText Sort.Int (45 ∷ digits.now)) result }
{
    match number(digits) {
        Some(n) => Some(minus(n)),
        None => None,
    }
}

/// The number with the other sign.
fn minus(n: u64) -> Value
    ensures { result ≡ Value.Num (neg_ℤ (pos n)) }
{
    Value::Num(-i128::from(n))
}

/// What follows a `-`.
fn after_minus(bytes: &[u8]) -> Option<&[u8]>
    ensures { MatchOption result ((digits : List ℕ) → bytes.now ≡ 45 ∷ digits → ⊥) (λ digits. bytes.now ≡ 45 ∷ digits.now) }
{
    match bytes {
        [b'-', digits @ ..] => Some(digits),
        _ => None,
    }
}

/// A number without a sign.
fn natural(bytes: &[u8]) -> Option<Value>
    ensures { IsTheOne (IsArgumentText Sort.Nat bytes.now) result }
{
    number(bytes).map(|n| Value::Num(i128::from(n)))
}

/// A name between double quotes.
fn name(bytes: &[u8]) -> Option<Value>
    ensures { IsTheOne (IsArgumentText Sort.Name bytes.now) result }
{
    match between_quotes(bytes) {
        Some(name) => code(name).map(Value::Name),
        None => None,
    }
}

/// What is between double quotes.
fn between_quotes(bytes: &[u8]) -> Option<&[u8]>
    ensures { MatchOption result ((name : List ℕ) → bytes.now ≡ quoted name → ⊥) (λ name. bytes.now ≡ quoted name.now) }
{
    match bytes {
        [b'"', name @ .., b'"'] => Some(name),
        _ => None,
    }
}
