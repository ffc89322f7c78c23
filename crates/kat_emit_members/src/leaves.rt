//! The leaves that queries read, and the keys of parts.
use crate::values::{borrowed_key, keys_type, put_constant};
use kat_design::{Kind, sort_kind};
use kat_emit::{Form as PartForm, Lookup, Part};
use kat_emit_words::{
    Family, Form, Page, PartNames, Printer, call_head, close_member, kind_type, name_at,
    open_member,
};
use std::alloc::AllocError;

/// What a query's answer is made of: the names of its parameters, followed by those of what it looked up, and these places. A
/// query that is one leaf looks it up where it answers.
#[derive(Clone, Copy)]
pub(crate) struct Scene<'a> {
    pub(crate) locals: &'a [String],
    pub(crate) params: usize,
    pub(crate) looks: &'a [Lookup],
    pub(crate) is_lone: bool,
}

/// What is at a key of a part: in Rust a value of several leaves, if there is one.
pub(crate) fn look_text(
    printer: &Printer<'_, '_>,
    part: &Part<'_>,
    names: &PartNames,
    key: &str,
) -> Result<String, AllocError> {
    let own = names.own.as_str();
    if matches!(part.form, PartForm::Tallies) {
        return printer.filled(Form::TotalAt, &[own, key]);
    }
    if !printer.language.is_rust() {
        return crate::values::held(printer, part, names, own, Some(key));
    }
    let start = start_leaf(printer, part, 0)?;
    let form = match part.kinds.as_slice() {
        [Kind::Name] => "$0.get($1).map_or($2, String::as_str)",
        [_] => "$0.get($1).copied().unwrap_or($2)",
        _ => "$0.get($1)",
    };
    printer.filled_text(form, &[own, key, start.as_str()])
}

/// A leaf of the start of a part.
fn start_leaf(
    printer: &Printer<'_, '_>,
    part: &Part<'_>,
    leaf: usize,
) -> Result<String, AllocError> {
    let mut page = printer.page();
    if let Some(start) = part.starts().get(leaf) {
        put_constant(printer, *start, &mut page)?;
    }
    Ok(page.into_text())
}

/// A leaf of a part, at a parameter if there is one.
pub(crate) fn leaf_text(
    printer: &Printer<'_, '_>,
    scene: &Scene<'_>,
    place: u32,
    leaf: u32,
    key: Option<u32>,
) -> Result<String, AllocError> {
    let Some((part, names)) = printer.part(place as usize) else {
        return Ok(String::new(printer.alloc));
    };
    let own = names.own.as_str();
    match (part.form, key) {
        (PartForm::Cell, _) => cell_leaf(printer, part, names, leaf as usize),
        (PartForm::Tally, _) => printer.filled(Form::Total, &[own]),
        (PartForm::Set, key) => {
            let key = name_at(scene.locals, key.unwrap_or(0) as usize);
            let key = borrowed_key(printer, part, key)?;
            has_text(printer, scene, own, key.as_str())
        }
        (PartForm::Table | PartForm::Tallies, key) => {
            let look = Lookup {
                part: place,
                key: key.unwrap_or(0),
            };
            looked_leaf(printer, scene, part, names, look, leaf as usize)
        }
    }
}

/// A leaf of a cell: in Rust a name is borrowed.
fn cell_leaf(
    printer: &Printer<'_, '_>,
    part: &Part<'_>,
    names: &PartNames,
    leaf: usize,
) -> Result<String, AllocError> {
    let mut text = member(printer, part, names, names.own.as_str(), leaf)?;
    if printer.language.is_rust() && matches!(part.kinds.get(leaf), Some(Kind::Name)) {
        text.push_str(".as_str()")?;
    }
    Ok(text)
}

/// That a set has a key.
fn has_text(
    printer: &Printer<'_, '_>,
    scene: &Scene<'_>,
    own: &str,
    key: &str,
) -> Result<String, AllocError> {
    let text = printer.filled(Form::Has, &[own, key])?;
    if printer.language.is_python() && !scene.is_lone {
        return printer.filled_text("($0)", &[text.as_str()]);
    }
    Ok(text)
}

/// A leaf of what is at a key of a part.
fn looked_leaf(
    printer: &Printer<'_, '_>,
    scene: &Scene<'_>,
    part: &Part<'_>,
    names: &PartNames,
    look: Lookup,
    leaf: usize,
) -> Result<String, AllocError> {
    let value = looked_value(printer, scene, part, names, look)?;
    if !printer.language.is_rust() || !part.is_record() {
        return member(printer, part, names, value.as_str(), leaf);
    }
    let start = start_leaf(printer, part, leaf)?;
    let form = match part.kinds.get(leaf) {
        Some(Kind::Name) => "$0.map(|it| it.$1.as_str()).unwrap_or($2)",
        _ => "$0.map(|it| it.$1).unwrap_or($2)",
    };
    let leaf = name_at(&names.leaves, leaf);
    printer.filled_text(form, &[value.as_str(), leaf, start.as_str()])
}

/// What is at a key of a part, or its name if it was looked up before.
fn looked_value(
    printer: &Printer<'_, '_>,
    scene: &Scene<'_>,
    part: &Part<'_>,
    names: &PartNames,
    look: Lookup,
) -> Result<String, AllocError> {
    if !scene.is_lone {
        return String::from_str(printer.alloc, looked_name(scene, look));
    }
    let key = borrowed_key(printer, part, name_at(scene.locals, look.key as usize))?;
    let text = look_text(printer, part, names, key.as_str())?;
    if part.is_record() && printer.language.family() == Family::TypeScript {
        return printer.filled_text("($0)", &[text.as_str()]);
    }
    Ok(text)
}

/// The name of what was looked up at a place.
fn looked_name<'a>(scene: &Scene<'a>, look: Lookup) -> &'a str {
    for (place, other) in scene.looks.iter().enumerate() {
        if *other == look {
            return name_at(scene.locals, scene.params.saturating_add(place));
        }
    }
    ""
}

/// A value, or a leaf of it, if it has several.
fn member(
    printer: &Printer<'_, '_>,
    part: &Part<'_>,
    names: &PartNames,
    value: &str,
    leaf: usize,
) -> Result<String, AllocError> {
    if part.is_record() {
        return printer.filled(Form::Member, &[value, name_at(&names.leaves, leaf)]);
    }
    String::from_str(printer.alloc, value)
}

/// Appends the methods that give the keys of parts.
pub fn push_keys(printer: &Printer<'_, '_>, page: &mut Page) -> Result<(), AllocError> {
    for (part, names) in printer.module.parts.iter().zip(&printer.names.parts) {
        if part.key.is_some() {
            push_part_keys(printer, part, names, page)?;
        }
    }
    Ok(())
}

/// Appends the method that gives the keys of a part.
fn push_part_keys(
    printer: &Printer<'_, '_>,
    part: &Part<'_>,
    names: &PartNames,
    page: &mut Page,
) -> Result<(), AllocError> {
    let key = key_type(printer, part);
    let answer = keys_type(printer, key)?;
    let name = names.keys.as_str();
    let what = printer.filled_text(
        "The keys of `$0` that were ever touched, in their order. No query says so: it is what the state has.",
        &[part.word.as_str()],
    )?;
    let head = call_head(printer, name, &[], &[], answer.as_str(), false)?;
    open_member(printer, name, what.as_str(), head.as_str(), page)?;
    let words = [names.own.as_str(), keys_method(part, key)];
    printer.line(Form::Keys, &words, page)?;
    close_member(printer, page)
}

/// How Rust goes over the keys of a part.
fn keys_method<'a>(part: &Part<'_>, key: &str) -> &'a str {
    match (matches!(part.form, PartForm::Set), key == "String") {
        (true, true) => "iter().map(String::as_str)",
        (true, false) => "iter().copied()",
        (false, true) => "keys().map(String::as_str)",
        (false, false) => "keys().copied()",
    }
}

/// The type of a part's keys.
pub fn key_type<'a>(printer: &Printer<'_, '_>, part: &Part<'_>) -> &'a str {
    match part.key {
        Some(key) => kind_type(printer.language, sort_kind(key)),
        None => "",
    }
}
