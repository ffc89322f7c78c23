//! Constants and types.
use crate::languages::{Family, Language};
use kat_design::{Kind, sort_kind};
use kat_emit::Part;
use kat_num::{Sort, Value, print};
use std::alloc::{AllocError, Global};

/// Appends a constant.
pub fn push_constant(
    alloc: Global,
    language: Language,
    value: Value,
    into: &mut String,
) -> Result<(), AllocError> {
    match value {
        Value::Bool(truth) => into.push_str(truth_word(language, truth)),
        Value::Num(number) => {
            let (before, after) = number_marks(language, number);
            into.push_str(before)?;
            push_value(alloc, value, into)?;
            into.push_str(after)
        }
        Value::Name(_) => push_value(alloc, value, into),
    }
}

/// What is before and after a number: in Go 64 bits with a sign don't hold each one.
fn number_marks(language: Language, number: i128) -> (&'static str, &'static str) {
    match language.family() {
        Family::TypeScript => ("", "n"),
        Family::Go if number > 9_223_372_036_854_775_807 => ("wide{0, ", "}"),
        Family::Python | Family::Rust | Family::Go => ("", ""),
    }
}

/// Appends the text of a value in a state file.
fn push_value(alloc: Global, value: Value, into: &mut String) -> Result<(), AllocError> {
    let mut text = Vec::new(alloc);
    print(alloc, &value, &mut text)?;
    for letter in text.iter() {
        into.push(char::from(*letter))?;
    }
    Ok(())
}

/// Appends a constant that is kept: in Rust a name that is owned.
pub fn push_kept_constant(
    alloc: Global,
    language: Language,
    value: Value,
    into: &mut String,
) -> Result<(), AllocError> {
    let Value::Name(code) = value else {
        return push_constant(alloc, language, value, into);
    };
    if !language.is_rust() {
        return push_constant(alloc, language, value, into);
    }
    if code == 0 {
        return into.push_str("String::new()");
    }
    push_constant(alloc, language, value, into)?;
    into.push_str(".to_string()")
}

/// Whether a value is 0, false or the empty name.
pub fn is_zero(value: Value) -> bool {
    match value {
        Value::Bool(truth) => !truth,
        Value::Num(number) => number == 0,
        Value::Name(code) => code == 0,
    }
}

/// A truth value.
pub fn truth_word(language: Language, truth: bool) -> &'static str {
    match (language.is_python(), truth) {
        (true, true) => "True",
        (true, false) => "False",
        (false, true) => "true",
        (false, false) => "false",
    }
}

/// The type of the values of a kind.
pub fn kind_type<'a>(language: Language, kind: Kind) -> &'a str {
    match (language.family(), kind) {
        (Family::TypeScript, Kind::Number) => "bigint",
        (Family::TypeScript, Kind::Name) => "string",
        (Family::TypeScript, Kind::Truth) => "boolean",
        (Family::Python, Kind::Number) => "int",
        (Family::Python, Kind::Name) => "str",
        (Family::Rust, Kind::Number) => "i64",
        (Family::Rust, Kind::Name) => "String",
        (Family::Go, Kind::Number) => "int64",
        (Family::Go, Kind::Name) => "string",
        (Family::Python | Family::Rust | Family::Go, Kind::Truth) => "bool",
    }
}

/// The type of the leaf of a part at a place.
pub fn leaf_type<'a>(language: Language, part: &Part<'_>, place: usize) -> &'a str {
    match (language.family(), part.is_wide_leaf(place)) {
        (Family::Rust, true) => "i128",
        (Family::Go, true) => "wide",
        _ => match part.kinds.get(place) {
            Some(kind) => kind_type(language, *kind),
            None => "",
        },
    }
}

/// The type of a parameter of a sort.
pub fn sort_type<'a>(language: Language, sort: Sort) -> &'a str {
    match (language.is_rust(), sort) {
        (true, Sort::Nat) => "u64",
        (true, Sort::Name) => "&str",
        _ => kind_type(language, sort_kind(sort)),
    }
}

/// The start of a part: the constant, or, if there are several leaves, the name of a constant, which in Rust is a function.
pub(crate) fn start_text(
    alloc: Global,
    language: Language,
    part: &Part<'_>,
    name: &str,
) -> Result<String, AllocError> {
    let mut text = String::new(alloc);
    if part.is_record() {
        for letter in name.chars() {
            text.push(if language.is_python() {
                letter.to_ascii_uppercase()
            } else {
                letter
            })?;
        }
        text.push_str(if language.is_rust() { "()" } else { "" })?;
        return Ok(text);
    }
    if let [value, ..] = part.starts() {
        push_kept_constant(alloc, language, *value, &mut text)?;
    }
    Ok(text)
}
