//! The words, names and numbers of a JSON text.
ghost use Rattle.std.specs.Prelude.{◌≡◌};
ghost use Rattle.kat_json.specs.Words.{sort_words, spelled, key_sort_words, word_in, key_words, leaf_words, digit_leaf, leaf_of, value_of, named, is_word, word_of, kept_number, number_of, index_in, index_of, literal_in, literal_of, multiplier_in, multiplier_of};
ghost use Rattle.serde_json.specs.View.{view};
ghost use Rattle.std.specs.List.{list_all};
ghost use Rattle.kat_num.specs.Bytes.{is_word_byte};

use crate::values::{text, whole};
use kat_design::Leaf;
use kat_lex::words::is_reserved;
use kat_num::{NAME_LIMIT, Sort, Value as Constant, code, code_of, is_word_byte, is_word_start};
use serde_json::Value;

/// The sort of a word.
fn sort_of_word(word: &str) -> Option<Sort>
    ensures { result ≡ spelled sort_words word.now }
{
    match word {
        "bool" => Some(Sort::Bool),
        "int" => Some(Sort::Int),
        "nat" => Some(Sort::Nat),
        "name" => Some(Sort::Name),
        _ => None,
    }
}

/// The sort of keys of a word.
fn key_sort_of_word(word: &str) -> Option<Sort>
    ensures { result ≡ spelled key_sort_words word.now }
{
    if word == "int" {
        Some(Sort::Int)
    } else if word == "nat" {
        Some(Sort::Nat)
    } else if word == "name" {
        Some(Sort::Name)
    } else {
        None
    }
}

/// A sort.
pub(crate) fn sort(value: &Value) -> Option<Sort>
    ensures { result ≡ word_in sort_words (view value.now) }
{
    sort_of_word(text(value)?)
}

/// A sort that keys may have.
pub(crate) fn key_sort(value: &Value) -> Option<Sort>
    ensures { result ≡ word_in key_sort_words (view value.now) }
{
    key_sort_of_word(text(value)?)
}

/// The parameter of a word.
fn key_of_word(word: &str) -> Option<u32>
    ensures { result ≡ spelled key_words word.now }
{
    match word {
        "p0" => Some(0),
        "p1" => Some(1),
        "p2" => Some(2),
        "p3" => Some(3),
        _ => None,
    }
}

/// A key: one of four parameters.
pub(crate) fn key(value: &Value) -> Option<u32>
    ensures { result ≡ word_in key_words (view value.now) }
{
    key_of_word(text(value)?)
}

/// The leaf of a word.
fn leaf_of_word(word: &str) -> Option<Leaf>
    ensures { result ≡ spelled leaf_words word.now }
{
    match word {
        "p0" => Some(Leaf::Arg(0)),
        "p1" => Some(Leaf::Arg(1)),
        "p2" => Some(Leaf::Arg(2)),
        "p3" => Some(Leaf::Arg(3)),
        "time" => Some(Leaf::Time),
        "replica" => Some(Leaf::Replica),
        "pos0" => Some(Leaf::Pos(0)),
        "pos1" => Some(Leaf::Pos(1)),
        "pos2" => Some(Leaf::Pos(2)),
        "pos3" => Some(Leaf::Pos(3)),
        "neg0" => Some(Leaf::Neg(0)),
        "neg1" => Some(Leaf::Neg(1)),
        "neg2" => Some(Leaf::Neg(2)),
        "neg3" => Some(Leaf::Neg(3)),
        _ => None,
    }
}

/// The leaf of a number.
fn leaf_of_digit(number: i128) -> Option<Leaf>
    ensures { result ≡ digit_leaf number }
{
    match number {
        0 => Some(Leaf::Zero),
        1 => Some(Leaf::One),
        _ => None,
    }
}

/// A leaf of an effect.
pub(crate) fn leaf(value: &Value) -> Option<Leaf>
    ensures { result ≡ leaf_of (view value.now) }
{
    if let Some(word) = text(value) {
        return leaf_of_word(word);
    }
    if let Some(number) = whole(value) {
        return leaf_of_digit(number);
    }
    match value.as_bool() {
        Some(true) => Some(Leaf::True),
        Some(false) => Some(Leaf::False),
        None => None,
    }
}

/// A start or a constant.
pub fn constant(value: &Value) -> Option<Constant>
    ensures { result ≡ value_of (view value.now) }
{
    if let Some(text) = text(value) {
        return name(text);
    }
    if let Some(number) = whole(value) {
        return Some(Constant::Num(number));
    }
    match value.as_bool() {
        Some(truth) => Some(Constant::Bool(truth)),
        None => None,
    }
}

/// The name of a text.
fn name(text: &str) -> Option<Constant>
    ensures { result ≡ named text.now }
{
    match code(text.as_bytes()) {
        Some(code) => Some(Constant::Name(code)),
        None => None,
    }
}

/// The code of a word that isn't reserved.
pub fn word(value: &Value) -> Option<u128>
    ensures { result ≡ word_of (view value.now) }
{
    let word = text(value)?.as_bytes();
    if !is_word(word) {
        return None;
    }
    let code = code_of(word);
    if is_reserved(code) { None } else { Some(code) }
}

/// Whether the bytes are a word.
fn is_word(bytes: &[u8]) -> bool
    ensures { result ≡ is_word bytes.now }
{
    match bytes {
        [] => false,
        [first, rest @ ..] => {
            bytes.len() <= NAME_LIMIT && is_word_start(*first) && are_word_bytes(rest)
        }
    }
}

/// Whether a word may go on with each byte.
fn are_word_bytes(bytes: &[u8]) -> bool
    ensures { result ≡ list_all is_word_byte bytes.now }
{
    bytes.iter().all(|byte| is_word_byte(*byte))
}

/// The number of a component, a leaf or a parameter. What doesn't fit in 32 bits is kept as the greatest of 32 bits, which
/// is out of every range.
fn kept_number(number: i128) -> u32
    ensures { result ≡ kept_number number }
{
    if 0 <= number && number < 1 << 32 {
        number as u32
    } else {
        u32::MAX
    }
}

/// The number of a component, a leaf or a parameter, as it is kept.
pub(crate) fn number(value: &Value) -> Option<u32>
    ensures { result ≡ number_of (view value.now) }
{
    match whole(value) {
        Some(number) => Some(kept_number(number)),
        None => None,
    }
}

/// An index of a relation: a whole number of 32 bits without sign.
pub(crate) fn index(value: &Value) -> Option<u32>
    ensures { result ≡ index_of (view value.now) }
{
    index_in(whole(value)?)
}

fn index_in(number: i128) -> Option<u32>
    ensures { result ≡ index_in number }
{
    if 0 <= number && number < 1 << 32 {
        Some(number as u32)
    } else {
        None
    }
}

/// A literal of a proof: a whole number of 32 bits with sign, other than 0.
pub(crate) fn literal(value: &Value) -> Option<i32>
    ensures { result ≡ literal_of (view value.now) }
{
    literal_in(whole(value)?)
}

fn literal_in(number: i128) -> Option<i32>
    ensures { result ≡ literal_in number }
{
    if number != 0 && -(1 << 31) <= number && number < 1 << 31 {
        Some(number as i32)
    } else {
        None
    }
}

/// A multiplier of a proof: a whole number of 64 bits with sign.
pub(crate) fn multiplier(value: &Value) -> Option<i64>
    ensures { result ≡ multiplier_of (view value.now) }
{
    multiplier_in(whole(value)?)
}

fn multiplier_in(number: i128) -> Option<i64>
    ensures { result ≡ multiplier_in number }
{
    if -(1 << 63) <= number && number < 1 << 63 {
        Some(number as i64)
    } else {
        None
    }
}
