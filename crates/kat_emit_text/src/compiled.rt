//! How the text of a state is read in Rust and Go.
use crate::classes::value_type;
use crate::reading::comma_text;
use kat_design::Kind;
use kat_emit::{Form as PartForm, Part};
use kat_emit_members::{key_type, lacks_text};
use kat_emit_words::{Page, PartNames, Printer, name_at, push_constant, truth_word};
use kat_num::{Sort, Value};
use std::alloc::AllocError;

/// How Rust reads a key.
fn rust_key<'a>(key: Option<Sort>) -> &'a str {
    match key {
        Some(Sort::Int) => "Reader::number",
        Some(Sort::Nat) => "Reader::read_natural",
        Some(Sort::Bool) => "Reader::read_flag",
        Some(Sort::Name) => "Reader::read_name",
        None => "",
    }
}

/// How it reads a leaf; `is_wide` says whether it may have more than 64 bits.
fn rust_leaf<'a>(kind: Kind, is_wide: bool) -> &'a str {
    match kind {
        Kind::Number if is_wide => "reader.wide()?",
        Kind::Number => "reader.number()?",
        Kind::Name => "reader.read_name()?",
        Kind::Truth => "reader.read_flag()?",
    }
}

/// Appends the statements that read a part in Rust.
pub(crate) fn push_rust_reader(
    printer: &Printer<'_, '_>,
    part: &Part<'_>,
    names: &PartNames,
    page: &mut Page,
) -> Result<(), AllocError> {
    push_rust_part(printer, part, names, rust_key(part.key), page)
}

/// Appends the same with what reads a key.
fn push_rust_part(
    printer: &Printer<'_, '_>,
    part: &Part<'_>,
    names: &PartNames,
    reader: &str,
    page: &mut Page,
) -> Result<(), AllocError> {
    let words = [names.its.as_str(), reader, printer.names.error.as_str()];
    match part.form {
        PartForm::Set => page.fill(
            "reader.read_keys($1, |_, key| {
    $0.insert(key);
    Ok(())
})?;\n",
            &words,
        ),
        PartForm::Tally => page.fill("$0 = reader.read_sums()?;\n", &words),
        PartForm::Tallies => page.fill(
            "reader.read_entries($1, |reader, key| {
    let sums = reader.read_sums()?;
    $0.insert(key, sums);
    if sums == [0; 32] { Err($2::State) } else { Ok(()) }
})?;\n",
            &words,
        ),
        PartForm::Cell => {
            page.put("{\n")?;
            page.indent(4);
            push_rust_value(part, names, page)?;
            page.fill("$0 = value;\n", &words)?;
            page.outdent(4);
            page.put("}\n")
        }
        PartForm::Table => {
            page.fill("reader.read_entries($1, |reader, key| {\n", &words)?;
            page.indent(4);
            push_rust_value(part, names, page)?;
            let above = above_text(printer, part, names)?;
            page.fill("let is_above = $0;\n", &[above.as_str()])?;
            page.fill(
                "$0.insert(key, value);\nif is_above { Ok(()) } else { Err($2::State) }\n",
                &words,
            )?;
            page.outdent(4);
            page.put("})?;\n")
        }
    }
}

/// Appends the statements that read a value in Rust.
fn push_rust_value(part: &Part<'_>, names: &PartNames, page: &mut Page) -> Result<(), AllocError> {
    page.put("reader.take(\"[\")?;\n")?;
    for (place, kind) in part.kinds.iter().enumerate() {
        page.put(if place > 0 {
            "reader.take(\",\")?;\n"
        } else {
            ""
        })?;
        if part.is_record() {
            page.fill("let leaf_$0 = ", &[name_at(&names.leaves, place)])?;
        } else {
            page.put("let value = ")?;
        }
        page.put(rust_leaf(*kind, part.is_wide_leaf(place)))?;
        page.put(";\n")?;
    }
    if part.is_record() {
        page.fill("let value = $0 { ", &[names.value.as_str()])?;
        for place in 0..part.kinds.len() {
            page.put(if place > 0 { ", " } else { "" })?;
            page.fill("$0: leaf_$0", &[name_at(&names.leaves, place)])?;
        }
        page.put(" };\n")?;
    }
    page.put("reader.take(\"]\")?;\n")
}

/// Whether a value is above the start, as each is that a table has at a key.
fn above_text(
    printer: &Printer<'_, '_>,
    part: &Part<'_>,
    names: &PartNames,
) -> Result<String, AllocError> {
    let start = names.start.as_str();
    if part.is_record() {
        let form = match (printer.language.is_rust(), part.is_chain()) {
            (true, true) => "value > $0",
            (true, false) => "$1(&$0, &value) && !$1(&value, &$0)",
            (false, true) => "$2($0, value)",
            (false, false) => "$1($0, value) && !$1(value, $0)",
        };
        let words = [start, names.lacks.as_str(), names.less.as_str()];
        return printer.filled_text(form, &words);
    }
    match part.starts() {
        [Value::Bool(truth), ..] => String::from_str(
            printer.alloc,
            if *truth {
                truth_word(printer.language, false)
            } else {
                "value"
            },
        ),
        [start, ..] => {
            let is_name = matches!(start, Value::Name(_)) && printer.language.is_rust();
            let mut text = String::new(printer.alloc);
            if printer.language.is_go() && part.is_wide_leaf(0) {
                push_constant(printer.alloc, printer.language, *start, &mut text)?;
                text.push_str(".below(value)")?;
                return Ok(text);
            }
            text.push_str(if is_name {
                "value.as_str() > "
            } else {
                "value > "
            })?;
            push_constant(printer.alloc, printer.language, *start, &mut text)?;
            Ok(text)
        }
        [] => Ok(String::new(printer.alloc)),
    }
}

/// How Go reads a key.
fn go_key<'a>(key: Option<Sort>) -> &'a str {
    match key {
        Some(Sort::Int) => "in.number",
        Some(Sort::Nat) => "in.natural",
        Some(Sort::Bool) => "in.flag",
        Some(Sort::Name) => "in.name",
        None => "",
    }
}

/// How it reads a leaf; `is_wide` says whether it may have more than 64 bits.
fn go_leaf<'a>(kind: Kind, is_wide: bool) -> &'a str {
    match kind {
        Kind::Number if is_wide => "in.wide()",
        Kind::Number => "in.number()",
        Kind::Name => "in.name()",
        Kind::Truth => "in.flag()",
    }
}

/// Appends the statements that read a part in Go.
pub(crate) fn push_go_reader(
    printer: &Printer<'_, '_>,
    part: &Part<'_>,
    names: &PartNames,
    page: &mut Page,
) -> Result<(), AllocError> {
    let value = value_type(printer, part, names)?;
    let key = key_type(printer, part);
    let reader = go_key(part.key);
    push_go_part(printer, part, names, reader, key, value.as_str(), page)
}

/// Appends the same with what reads a key, and the types of keys and values.
fn push_go_part(
    printer: &Printer<'_, '_>,
    part: &Part<'_>,
    names: &PartNames,
    reader: &str,
    key: &str,
    value: &str,
    page: &mut Page,
) -> Result<(), AllocError> {
    let words = [names.its.as_str(), reader, key, value];
    match part.form {
        PartForm::Set => page.fill(
            "readKeys(&in, $1, func(key $2) { $0[key] = true })\n",
            &words,
        ),
        PartForm::Tally => page.fill("$0 = in.amounts()\n", &words),
        PartForm::Tallies => page.fill(
            "readEntries(&in, $1, func(key $2) {
\t$0[key] = in.amounts()
\tif $0[key] == (sums{}) {
\t\tin.fail()
\t}
})\n",
            &words,
        ),
        PartForm::Cell => push_go_value(part, names, names.its.as_str(), page),
        PartForm::Table => {
            page.fill(
                "readEntries(&in, $1, func(key $2) {\n\tvar value $3\n",
                &words,
            )?;
            page.indent(1);
            push_go_value(part, names, "value", page)?;
            let above = above_text(printer, part, names)?;
            let form = if above.as_str().contains(' ') {
                "if !($0) {\n\tin.fail()\n}\n"
            } else {
                "if !$0 {\n\tin.fail()\n}\n"
            };
            page.fill(form, &[above.as_str()])?;
            page.fill("$0[key] = value\n", &words)?;
            page.outdent(1);
            page.put("})\n")
        }
    }
}

/// Appends the statements that read a value in Go into a place.
fn push_go_value(
    part: &Part<'_>,
    names: &PartNames,
    into: &str,
    page: &mut Page,
) -> Result<(), AllocError> {
    page.put("in.take(\"[\")\n")?;
    for (place, kind) in part.kinds.iter().enumerate() {
        page.put(comma_text(kat_emit_words::Family::Go, place))?;
        page.put(into)?;
        if part.is_record() {
            page.put(".")?;
            page.put(name_at(&names.leaves, place))?;
        }
        page.put(" = ")?;
        page.put(go_leaf(*kind, part.is_wide_leaf(place)))?;
        page.put("\n")?;
    }
    page.put("in.take(\"]\")\n")
}
