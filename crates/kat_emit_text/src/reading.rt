//! How the text of a state is read.
use crate::compiled::{push_go_reader, push_rust_reader};
use kat_design::Kind;
use kat_emit::{Form as PartForm, Part};
use kat_emit_members::lacks_text;
use kat_emit_words::{Family, Page, PartNames, Printer, name_at};
use kat_num::Sort;
use std::alloc::AllocError;

/// Appends the statements that read each part, and in Rust and Go what is around all of them.
pub(crate) fn push_readers(printer: &Printer<'_, '_>, page: &mut Page) -> Result<(), AllocError> {
    for (place, (part, names)) in (printer
        .module
        .parts
        .iter()
        .zip(&printer.names.parts)).enumerate()
    {
        page.put(comma_text(printer.language.family(), place))?;
        match printer.language.family() {
            Family::TypeScript => push_typescript_reader(printer, part, names, page)?,
            Family::Python => push_python_reader(printer, place, part, names, page)?,
            Family::Rust => push_rust_reader(printer, part, names, page)?,
            Family::Go => push_go_reader(printer, part, names, page)?,
        }
    }
    Ok(())
}

/// What reads the comma before a part, unless it is the first.
pub(crate) fn comma_text(family: Family, place: usize) -> &'static str {
    match family {
        _ if place == 0 => "",
        Family::TypeScript => "reader.take(\",\");\n",
        Family::Python => "",
        Family::Rust => "reader.take(\",\")?;\n",
        Family::Go => "in.take(\",\")\n",
    }
}

/// How TypeScript reads a key.
fn typescript_key<'a>(key: Option<Sort>) -> &'a str {
    match key {
        Some(Sort::Int) => "reader.number()",
        Some(Sort::Nat) => "reader.natural()",
        Some(Sort::Bool) => "reader.flag()",
        Some(Sort::Name) => "reader.name()",
        None => "reader.replica()",
    }
}

/// How it reads a leaf.
fn typescript_leaf<'a>(kind: Kind) -> &'a str {
    match kind {
        Kind::Number => "reader.number()",
        Kind::Name => "reader.name()",
        Kind::Truth => "reader.flag()",
    }
}

/// Appends the statements that read a part in TypeScript.
fn push_typescript_reader(
    printer: &Printer<'_, '_>,
    part: &Part<'_>,
    names: &PartNames,
    page: &mut Page,
) -> Result<(), AllocError> {
    let words = [names.its.as_str(), typescript_key(part.key)];
    match part.form {
        PartForm::Set => page.fill("reader.keys(() => $1, (key) => $0.add(key));\n", &words),
        PartForm::Tally => page.fill("$0 = readSums(reader);\n", &words),
        PartForm::Tallies => page.fill(
            "reader.entries(() => $1, (key) => {
  const value = readSums(reader);
  if (value.size === 0) reader.refuse();
  $0.set(key, value);
});\n",
            &words,
        ),
        PartForm::Cell => {
            page.put("{\n")?;
            page.indent(2);
            push_typescript_value(part, names, page)?;
            page.fill("$0 = value;\n", &words)?;
            page.outdent(2);
            page.put("}\n")
        }
        PartForm::Table => {
            page.fill("reader.entries(() => $1, (key) => {\n", &words)?;
            page.indent(2);
            push_typescript_value(part, names, page)?;
            page.put("if (")?;
            push_is_start(printer, part, names, page)?;
            page.fill(") reader.refuse();\n$0.set(key, value);\n", &words)?;
            page.outdent(2);
            page.put("});\n")
        }
    }
}

/// Appends the statements that read a value in TypeScript.
fn push_typescript_value(
    part: &Part<'_>,
    names: &PartNames,
    page: &mut Page,
) -> Result<(), AllocError> {
    page.put("reader.take(\"[\");\n")?;
    for (place, kind) in part.kinds.iter().enumerate() {
        page.put(if place > 0 {
            "reader.take(\",\");\n"
        } else {
            ""
        })?;
        if part.is_record() {
            page.fill("const $0Leaf = ", &[name_at(&names.leaves, place)])?;
        } else {
            page.put("const value = ")?;
        }
        page.put(typescript_leaf(*kind))?;
        page.put(";\n")?;
    }
    if part.is_record() {
        page.put("const value = { ")?;
        for place in 0..part.kinds.len() {
            page.put(if place > 0 { ", " } else { "" })?;
            page.fill("$0: $0Leaf", &[name_at(&names.leaves, place)])?;
        }
        page.put(" };\n")?;
    }
    page.put("reader.take(\"]\");\n")
}

/// Appends, in TypeScript, that a value is none that a table has at a key: it isn't above the start.
fn push_is_start(
    printer: &Printer<'_, '_>,
    part: &Part<'_>,
    names: &PartNames,
    page: &mut Page,
) -> Result<(), AllocError> {
    let start = names.start.as_str();
    if !part.is_chain() {
        let words = [names.lacks.as_str(), start];
        return page.fill("!$0($1, value) || $0(value, $1)", &words);
    }
    let above = lacks_text(printer, part, names, start, "value")?;
    page.fill(
        if part.is_record() { "!$0" } else { "!($0)" },
        &[above.as_str()],
    )
}

/// How Python reads a key.
fn python_key<'a>(key: Option<Sort>) -> &'a str {
    match key {
        Some(Sort::Int) => "_number",
        Some(Sort::Nat) => "_natural",
        Some(Sort::Bool) => "_flag",
        Some(Sort::Name) => "_name",
        None => "",
    }
}

/// How it reads a leaf.
fn python_leaf<'a>(kind: Kind) -> &'a str {
    match kind {
        Kind::Number => "_number",
        Kind::Name => "_name",
        Kind::Truth => "_flag",
    }
}

/// Appends the statements that read a part in Python.
fn push_python_reader(
    printer: &Printer<'_, '_>,
    place: usize,
    part: &Part<'_>,
    names: &PartNames,
    page: &mut Page,
) -> Result<(), AllocError> {
    let mut number = itoa::Buffer::new();
    let source = printer.filled_text("parts[$0]", &[number.format(place as u128)])?;
    let source = source.as_str();
    push_python_part(printer, part, names, source, python_key(part.key), page)
}

/// Appends the statements that read a part from a source, with what reads a key.
fn push_python_part(
    printer: &Printer<'_, '_>,
    part: &Part<'_>,
    names: &PartNames,
    source: &str,
    reader: &str,
    page: &mut Page,
) -> Result<(), AllocError> {
    let words = [
        names.its.as_str(),
        reader,
        source,
        names.key.as_str(),
        names.item.as_str(),
    ];
    match part.form {
        PartForm::Set => page.fill("$0 = set(_ascending(_items($2), $1))\n", &words),
        PartForm::Tally => page.fill("$0 = _sums($2)\n", &words),
        PartForm::Tallies => page.fill(
            "for $3, $4 in _entries($2, $1):
    $0[$3] = _sums($4)
    if not $0[$3]:
        raise _bad_state()\n",
            &words,
        ),
        PartForm::Cell => push_python_value(part, names, source, names.its.as_str(), page),
        PartForm::Table => {
            page.fill("for $3, $4 in _entries($2, $1):\n", &words)?;
            page.indent(4);
            push_python_entry(printer, part, names, page)?;
            page.outdent(4);
            Ok(())
        }
    }
}

/// Appends the statements that read an entry of a table in Python.
fn push_python_entry(
    printer: &Printer<'_, '_>,
    part: &Part<'_>,
    names: &PartNames,
    page: &mut Page,
) -> Result<(), AllocError> {
    let entry = printer.filled_text("$0[$1]", &[names.its.as_str(), names.key.as_str()])?;
    let entry = entry.as_str();
    push_python_value(part, names, names.item.as_str(), entry, page)?;
    let start = names.start.as_str();
    if part.is_chain() {
        let above = lacks_text(printer, part, names, start, entry)?;
        let is_single = !above.as_str().contains(" and ");
        page.fill(
            if is_single {
                "if not $0:\n"
            } else {
                "if not ($0):\n"
            },
            &[above.as_str()],
        )?;
    } else {
        let words = [names.lacks.as_str(), entry, start];
        page.fill("if $0($1, $2) or $1 == $2:\n", &words)?;
    }
    page.put("    raise _bad_state()\n")
}

/// Appends the statements that read a value in Python into a place.
fn push_python_value(
    part: &Part<'_>,
    names: &PartNames,
    source: &str,
    place: &str,
    page: &mut Page,
) -> Result<(), AllocError> {
    page.put("leaves = _items(")?;
    page.put(source)?;
    page.put(", ")?;
    put_number(part.kinds.len(), page)?;
    page.put(")\n")?;
    page.put(place)?;
    page.put(" = ")?;
    if part.is_record() {
        page.fill("$0(", &[names.value.as_str()])?;
    }
    for (at, kind) in part.kinds.iter().enumerate() {
        page.put(if at > 0 { ", " } else { "" })?;
        page.put(python_leaf(*kind))?;
        page.put("(leaves[")?;
        put_number(at, page)?;
        page.put("])")?;
    }
    page.put(if part.is_record() { ")\n" } else { "\n" })
}

/// Appends a number.
fn put_number(number: usize, page: &mut Page) -> Result<(), AllocError> {
    page.put(itoa::Buffer::new().format(number as u128))
}
