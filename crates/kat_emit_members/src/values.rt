//! Values: what is at a place, whether one lacks another, and how it is kept.
use kat_design::{Ask, Kind};
use kat_emit::{Part, is_wide};
use kat_emit_words::{
    Family, Form, Page, PartNames, Printer, is_zero, kind_type, push_constant, truth_word,
};
use kat_num::{Sort, Value};
use kat_shape::Shape;
use std::alloc::AllocError;

/// Appends a constant.
pub fn put_constant(
    printer: &Printer<'_, '_>,
    value: Value,
    page: &mut Page,
) -> Result<(), AllocError> {
    let mut text = String::new(printer.alloc);
    push_constant(printer.alloc, printer.language, value, &mut text)?;
    page.put(text.as_str())
}

/// What is in a part of an owner, at a key if there is one.
pub(crate) fn held(
    printer: &Printer<'_, '_>,
    part: &Part<'_>,
    names: &PartNames,
    owned: &str,
    key: Option<&str>,
) -> Result<String, AllocError> {
    let form = if part.starts().iter().all(|start| is_zero(*start)) {
        Form::HeldZero
    } else {
        Form::Held
    };
    match key {
        None => String::from_str(printer.alloc, owned),
        Some(key) => printer.filled(form, &[owned, key, names.start.as_str()]),
    }
}

/// Whether values of the part are single truth values.
fn is_truth(part: &Part<'_>) -> bool {
    matches!(part.shape(), Some(Shape::Or))
}

/// Whether the first of two values of a part lacks what the second has.
pub fn lacks_text(
    printer: &Printer<'_, '_>,
    part: &Part<'_>,
    names: &PartNames,
    first: &str,
    second: &str,
) -> Result<String, AllocError> {
    if part.is_record() {
        return if part.is_chain() {
            printer.filled(Form::IsLess, &[first, second, names.less.as_str()])
        } else {
            printer.filled(Form::Lacks, &[first, second, names.lacks.as_str()])
        };
    }
    let is_open = printer.language.family() == Family::TypeScript && first.contains(' ');
    if !is_open {
        return less_text(printer, part, first, second);
    }
    let closed = printer.filled_text("($0)", &[first])?;
    less_text(printer, part, closed.as_str(), second)
}

/// The same of values of one leaf, which in Go are compared by a method if 64 bits don't hold them.
fn less_text(
    printer: &Printer<'_, '_>,
    part: &Part<'_>,
    first: &str,
    second: &str,
) -> Result<String, AllocError> {
    if printer.language.is_go() && part.is_wide_leaf(0) {
        return printer.filled_text("$0.below($1)", &[first, second]);
    }
    if !is_truth(part) {
        return printer.filled(Form::Less, &[first, second]);
    }
    if second == truth_word(printer.language, true) {
        return printer.filled(Form::IsFalse, &[first]);
    }
    printer.filled(Form::IsOnlySecond, &[first, second])
}

/// How a value is given to what compares it with one that is held: in Rust what is held at a key is a reference, so the value becomes
/// one too, unless it is a truth value; and functions take references.
pub(crate) fn compared(
    printer: &Printer<'_, '_>,
    part: &Part<'_>,
    value: &str,
    is_keyed: bool,
) -> Result<String, AllocError> {
    let is_given = !part.is_chain() || (is_keyed && !is_truth(part));
    if printer.language.is_rust() && is_given {
        return printer.filled_text("&$0", &[value]);
    }
    String::from_str(printer.alloc, value)
}

/// What is held in a cell of an owner, as a function takes it.
pub(crate) fn compared_cell(
    printer: &Printer<'_, '_>,
    part: &Part<'_>,
    owned: &str,
) -> Result<String, AllocError> {
    compared(printer, part, owned, false)
}

/// A value of another place, a reference if it is that of a loop, as it is kept here: in Rust a copy.
pub(crate) fn copied(
    printer: &Printer<'_, '_>,
    part: &Part<'_>,
    value: &str,
    is_reference: bool,
) -> Result<String, AllocError> {
    if !printer.language.is_rust() {
        return String::from_str(printer.alloc, value);
    }
    match part.kinds.as_slice() {
        [Kind::Number | Kind::Truth] if is_reference => printer.filled_text("*$0", &[value]),
        [Kind::Number | Kind::Truth] => String::from_str(printer.alloc, value),
        _ => printer.filled_text("$0.clone()", &[value]),
    }
}

/// What a place holds once a value that it lacks is put: the value as it is kept, or, if neither is above the other, both joined.
pub(crate) fn raised(
    printer: &Printer<'_, '_>,
    part: &Part<'_>,
    names: &PartNames,
    old: &str,
    value: &str,
    kept: &str,
) -> Result<String, AllocError> {
    if part.is_chain() {
        return String::from_str(printer.alloc, kept);
    }
    printer.filled(Form::Joined, &[old, value, names.joined.as_str()])
}

/// A key as it is looked up: in Rust a reference, which a name is already.
pub(crate) fn borrowed_key(
    printer: &Printer<'_, '_>,
    part: &Part<'_>,
    key: &str,
) -> Result<String, AllocError> {
    match part.key {
        Some(Sort::Name) | None => String::from_str(printer.alloc, key),
        Some(_) if printer.language.is_rust() => printer.filled_text("&$0", &[key]),
        Some(_) => String::from_str(printer.alloc, key),
    }
}

/// A key as it is kept: in Rust a name is owned.
pub(crate) fn kept_key(
    printer: &Printer<'_, '_>,
    part: &Part<'_>,
    key: &str,
) -> Result<String, AllocError> {
    match part.key {
        Some(Sort::Name) if printer.language.is_rust() => {
            printer.filled_text("$0.to_string()", &[key])
        }
        _ => String::from_str(printer.alloc, key),
    }
}

/// The type of what a query answers, without an error.
pub(crate) fn answer_type<'a>(printer: &Printer<'_, '_>, ask: &Ask, kind: Kind) -> &'a str {
    if !printer.language.is_rust() {
        return kind_type(printer.language, kind);
    }
    match (kind, ask) {
        (Kind::Number, _) if is_wide(&printer.module.parts, ask) => "i128",
        (Kind::Name, Ask::Leaf { .. }) => "&str",
        (Kind::Name, Ask::Const(_)) => "&'static str",
        _ => kind_type(printer.language, kind),
    }
}

/// The type of what gives the keys of a part, whose type is `key`.
pub(crate) fn keys_type(printer: &Printer<'_, '_>, key: &str) -> Result<String, AllocError> {
    let form = match printer.language.family() {
        Family::TypeScript => "$0[]",
        Family::Python => "list[$0]",
        Family::Rust if key == "String" => "impl Iterator<Item = &str> + '_",
        Family::Rust => "impl Iterator<Item = $0> + '_",
        Family::Go => "[]$0",
    };
    printer.filled_text(form, &[key])
}
