//! The text of a state.
use crate::classes::value_type;
use kat_design::Kind;
use kat_emit::{Form as PartForm, Part};
use kat_emit_words::{Family, Form, Page, PartNames, Printer, name_at};
use std::alloc::AllocError;

/// Appends the text of each part in a line of its own.
pub(crate) fn push_written(printer: &Printer<'_, '_>, page: &mut Page) -> Result<(), AllocError> {
    for (part, names) in printer.module.parts.iter().zip(&printer.names.parts) {
        let own = names.own.as_str();
        match part.form {
            PartForm::Cell => push_cell(printer, part, names, page)?,
            PartForm::Table => push_table(printer, part, names, page)?,
            PartForm::Set => printer.fill(Form::WriteSet, &[own], page)?,
            PartForm::Tally => printer.fill(Form::WriteTally, &[own], page)?,
            PartForm::Tallies => printer.fill(Form::WriteTallies, &[own], page)?,
        }
        page.put(",\n")?;
    }
    Ok(())
}

/// Appends the text of a cell.
fn push_cell(
    printer: &Printer<'_, '_>,
    part: &Part<'_>,
    names: &PartNames,
    page: &mut Page,
) -> Result<(), AllocError> {
    let own = names.own.as_str();
    if printer.language.is_python() {
        return page.fill(if part.is_record() { "$0" } else { "[$0]" }, &[own]);
    }
    push_leaves(printer, part, names, own, page)
}

/// Appends the text of a table.
fn push_table(
    printer: &Printer<'_, '_>,
    part: &Part<'_>,
    names: &PartNames,
    page: &mut Page,
) -> Result<(), AllocError> {
    let own = names.own.as_str();
    let value = value_type(printer, part, names)?;
    let (before, name, after) = match printer.language.family() {
        Family::TypeScript => ("entriesText($0, (value) => ", "value", ")"),
        Family::Python => {
            let value = if part.is_record() { "value" } else { "[value]" };
            let words = [own, value];
            return page.fill("[(key, $1) for key, value in sorted($0.items())]", &words);
        }
        Family::Rust => ("entries_text(&$0, |value| ", "value", ")"),
        Family::Go => (
            "entriesText($0, func(v $1) string {\n\treturn ",
            "v",
            "\n})",
        ),
    };
    page.fill(before, &[own, value.as_str()])?;
    push_leaves(printer, part, names, name, page)?;
    page.put(after)
}

/// Appends the text of a value.
fn push_leaves(
    printer: &Printer<'_, '_>,
    part: &Part<'_>,
    names: &PartNames,
    value: &str,
    page: &mut Page,
) -> Result<(), AllocError> {
    if printer.language.family() == Family::TypeScript {
        return push_template(part, names, value, page);
    }
    let is_rust = printer.language.is_rust();
    page.put(if is_rust {
        "format!(\"["
    } else {
        "fmt.Sprintf(\"["
    })?;
    for (place, kind) in part.kinds.iter().enumerate() {
        page.put(if place > 0 { "," } else { "" })?;
        page.put(placeholder(is_rust, *kind, part.is_wide_leaf(place)))?;
    }
    page.put("]\"")?;
    for place in 0..part.kinds.len() {
        page.put(", ")?;
        put_leaf(part, names, value, place, page)?;
    }
    page.put(")")
}

/// Where a leaf is in the text of a value in Rust or Go; `is_wide` says whether it may have more than 64 bits.
fn placeholder(is_rust: bool, kind: Kind, is_wide: bool) -> &'static str {
    match (is_rust, kind) {
        (false, Kind::Number) if is_wide => "%v",
        (true, Kind::Name) => "\\\"{}\\\"",
        (true, Kind::Number | Kind::Truth) => "{}",
        (false, Kind::Name) => "\\\"%s\\\"",
        (false, Kind::Number) => "%d",
        (false, Kind::Truth) => "%t",
    }
}

/// Appends the text of a value in TypeScript.
fn push_template(
    part: &Part<'_>,
    names: &PartNames,
    value: &str,
    page: &mut Page,
) -> Result<(), AllocError> {
    page.put("`[")?;
    for (place, kind) in part.kinds.iter().enumerate() {
        page.put(if place > 0 { "," } else { "" })?;
        let quote = if matches!(kind, Kind::Name) { "\"" } else { "" };
        page.put(quote)?;
        page.put("${")?;
        put_leaf(part, names, value, place, page)?;
        page.put("}")?;
        page.put(quote)?;
    }
    page.put("]`")
}

/// Appends a leaf of a value.
fn put_leaf(
    part: &Part<'_>,
    names: &PartNames,
    value: &str,
    place: usize,
    page: &mut Page,
) -> Result<(), AllocError> {
    page.put(value)?;
    if part.is_record() {
        page.put(".")?;
        page.put(name_at(&names.leaves, place))?;
    }
    Ok(())
}
