//! What operations do.
use crate::values::{
    borrowed_key, compared, compared_cell, held, kept_key, lacks_text, put_constant, raised,
};
use kat_design::{Kind, Leaf};
use kat_emit::{Part, Statement, operation_statements, push_name, statement_reads};
use kat_emit_words::{
    Family, Form, Page, PartNames, Printer, call_head, close_member, name_at, open_member,
    param_names,
};
use kat_num::{Sort, Value};
use kat_type::{Operation, Param};
use std::alloc::AllocError;

/// The names in the method of an operation: its parameters', followed by local ones; and those of the sums that it lets grow, with
/// how many of them are kept.
struct Frame {
    locals: Vec<String>,
    sums: Vec<String>,
    kept: usize,
}

impl Drop for Frame {
    fn drop(self) {
        let Self {
            locals: _,
            sums: _,
            kept: _,
        } = self;
    }
}

/// Appends the methods of all operations.
pub fn push_operations(printer: &Printer<'_, '_>, page: &mut Page) -> Result<(), AllocError> {
    for (place, op) in printer.module.ops.iter().enumerate() {
        push_operation(printer, place, op, page)?;
    }
    Ok(())
}

/// Appends the method of an operation.
fn push_operation(
    printer: &Printer<'_, '_>,
    place: usize,
    op: &Operation,
    page: &mut Page,
) -> Result<(), AllocError> {
    let params = op.params.as_slice();
    let mut frame = Frame {
        locals: param_names(printer.alloc, printer.language, params, &printer.names.top)?,
        sums: Vec::new(printer.alloc),
        kept: 0,
    };
    open_operation(printer, place, params, &frame.locals, page)?;
    push_statements(printer, place, params, &mut frame, page)?;
    close_member(printer, page)
}

/// Appends the head of an operation's method.
fn open_operation(
    printer: &Printer<'_, '_>,
    place: usize,
    params: &[Param],
    locals: &[String],
    page: &mut Page,
) -> Result<(), AllocError> {
    let done = done_type(printer)?;
    let name = name_at(&printer.names.methods, place);
    let head = call_head(printer, name, params, locals, done.as_str(), true)?;
    let what = name_at(&printer.module.lines.ops, place);
    open_member(printer, name, what, head.as_str(), page)
}

/// The type of what an operation answers.
fn done_type(printer: &Printer<'_, '_>) -> Result<String, AllocError> {
    let form = match printer.language.family() {
        Family::TypeScript => "void",
        Family::Python => "None",
        Family::Rust => "Result<(), $0>",
        Family::Go => "error",
    };
    printer.filled_text(form, &[printer.names.error.as_str()])
}

/// Appends its body.
fn push_statements(
    printer: &Printer<'_, '_>,
    place: usize,
    params: &[Param],
    frame: &mut Frame,
    page: &mut Page,
) -> Result<(), AllocError> {
    let parts = printer.module.parts.as_slice();
    let statements = operation_statements(printer.alloc, parts, place, params.len())?;
    for statement in statements.iter() {
        if let Statement::Check { param } = statement {
            let is_read = statements
                .iter()
                .any(|other| statement_reads(*other, *param));
            let check = Check { is_read, zero: "" };
            push_check(printer, params, *param, &frame.locals, check, page)?;
        } else {
            push_statement(printer, *statement, frame, page)?;
        }
    }
    Ok(())
}

fn push_statement(
    printer: &Printer<'_, '_>,
    statement: Statement<'_>,
    frame: &mut Frame,
    page: &mut Page,
) -> Result<(), AllocError> {
    match statement {
        Statement::Check { .. } => Ok(()),
        Statement::Tick => printer.line(Form::Tick, &[], page),
        Statement::Tock => printer.line(Form::Tock, &[], page),
        Statement::Grow { part, key, weight } => {
            push_grow(printer, part, key, weight, frame, page)
        }
        Statement::Keep { part, key } => push_keep(printer, part, key, frame, page),
        Statement::Put { part, key, leaves } => push_put(printer, part, key, leaves, frame, page),
        Statement::Insert { part, key } => push_insert(printer, part, key, frame, page),
    }
}

/// Appends the statement that puts a key into a set.
fn push_insert(
    printer: &Printer<'_, '_>,
    part: usize,
    key: u32,
    frame: &Frame,
    page: &mut Page,
) -> Result<(), AllocError> {
    let Some((part, names)) = printer.part(part) else {
        return Ok(());
    };
    let key = name_at(&frame.locals, key as usize);
    let sought = borrowed_key(printer, part, key)?;
    let kept = kept_key(printer, part, key)?;
    if !printer.language.is_rust() {
        return printer.line(Form::Insert, &[names.own.as_str(), key], page);
    }
    let words = [names.own.as_str(), sought.as_str(), kept.as_str()];
    printer.line(Form::Insert, &words, page)
}

/// How a parameter is checked: whether it is read later, and the answer that comes with an error.
#[derive(Clone, Copy)]
pub(crate) struct Check<'a> {
    pub(crate) is_read: bool,
    pub(crate) zero: &'a str,
}

/// Appends the check of an argument.
pub(crate) fn push_check(
    printer: &Printer<'_, '_>,
    params: &[Param],
    place: usize,
    locals: &[String],
    check: Check<'_>,
    page: &mut Page,
) -> Result<(), AllocError> {
    let Some(param) = params.get(place) else {
        return Ok(());
    };
    let form = match param.sort {
        Sort::Bool => Form::CheckFlag,
        Sort::Int => Form::CheckInteger,
        Sort::Nat => Form::CheckNatural,
        Sort::Name => Form::CheckName,
    };
    let name = name_at(locals, place);
    match param.sort {
        Sort::Int | Sort::Nat if check.is_read => printer.fill(Form::Checked, &[name], page)?,
        Sort::Bool if !check.is_read => printer.line(Form::Unread, &[name], page)?,
        _ => {}
    }
    let mut word = String::new(printer.alloc);
    push_name(printer.alloc, param.name, &mut word)?;
    printer.line(form, &[word.as_str(), name, check.zero], page)
}

/// Appends what an operation gives to a leaf.
fn push_given(
    printer: &Printer<'_, '_>,
    locals: &[String],
    leaf: Leaf,
    page: &mut Page,
) -> Result<(), AllocError> {
    match leaf {
        Leaf::Arg(place) => page.put(name_at(locals, place as usize)),
        Leaf::Time => page.put("time"),
        Leaf::Replica => printer.fill(Form::Replica, &[], page),
        Leaf::Zero => put_constant(printer, Value::Num(0), page),
        Leaf::One => put_constant(printer, Value::Num(1), page),
        Leaf::False => put_constant(printer, Value::Bool(false), page),
        Leaf::True => put_constant(printer, Value::Bool(true), page),
        Leaf::Pos(place) => printer.fill(Form::Above, &[name_at(locals, place as usize)], page),
        Leaf::Neg(place) => printer.fill(Form::Below, &[name_at(locals, place as usize)], page),
    }
}

/// What an operation gives to a leaf.
fn given_text(
    printer: &Printer<'_, '_>,
    locals: &[String],
    leaf: Leaf,
) -> Result<String, AllocError> {
    let mut page = printer.page();
    push_given(printer, locals, leaf, &mut page)?;
    Ok(page.into_text())
}

/// Appends the statement that lets a sum grow.
fn push_grow(
    printer: &Printer<'_, '_>,
    part: usize,
    key: Option<u32>,
    weight: Leaf,
    frame: &mut Frame,
    page: &mut Page,
) -> Result<(), AllocError> {
    let Some((part, names)) = printer.part(part) else {
        return Ok(());
    };
    if frame.sums.is_empty() {
        printer.line(Form::Place, &[], page)?;
    }
    let sum = printer.local(&frame.locals, part.word.as_str(), "_sum")?;
    let given = given_text(printer, &frame.locals, weight)?;
    let own = names.own.as_str();
    match key {
        None => printer.line(Form::Grow, &[own, sum.as_str(), given.as_str()], page)?,
        Some(key) => {
            let key = borrowed_key(printer, part, name_at(&frame.locals, key as usize))?;
            let words = [own, sum.as_str(), given.as_str(), key.as_str()];
            printer.line(Form::GrowAt, &words, page)?;
        }
    }
    frame
        .locals
        .push(String::from_str(printer.alloc, sum.as_str())?)?;
    frame.sums.push(sum)?;
    Ok(())
}

/// Appends the statement that keeps the next sum.
fn push_keep(
    printer: &Printer<'_, '_>,
    part: usize,
    key: Option<u32>,
    frame: &mut Frame,
    page: &mut Page,
) -> Result<(), AllocError> {
    let Some((part, names)) = printer.part(part) else {
        return Ok(());
    };
    let own = names.own.as_str();
    let sum = name_at(&frame.sums, frame.kept);
    match key {
        None => printer.line(Form::Keep, &[own, sum], page)?,
        Some(key) => {
            let key = kept_key(printer, part, name_at(&frame.locals, key as usize))?;
            printer.line(Form::KeepAt, &[own, sum, key.as_str()], page)?;
        }
    }
    frame.kept = frame.kept.saturating_add(1);
    Ok(())
}

/// Appends the statements that put a value, if what is there lacks it.
fn push_put(
    printer: &Printer<'_, '_>,
    part: usize,
    key: Option<u32>,
    leaves: &[Leaf],
    frame: &mut Frame,
    page: &mut Page,
) -> Result<(), AllocError> {
    let Some((part, names)) = printer.part(part) else {
        return Ok(());
    };
    let value = push_value(printer, part, names, leaves, frame, page)?;
    let value = value.as_str();
    let own = names.own.as_str();
    let Some(key) = key else {
        let old = compared_cell(printer, part, own)?;
        let other = compared(printer, part, value, false)?;
        let lacks = lacks_text(printer, part, names, old.as_str(), other.as_str())?;
        let new = raised(printer, part, names, old.as_str(), other.as_str(), value)?;
        return printer.line(Form::PutCell, &[own, lacks.as_str(), new.as_str()], page);
    };
    let key = name_at(&frame.locals, key as usize);
    let sought = borrowed_key(printer, part, key)?;
    let kept = kept_key(printer, part, key)?;
    let old = held(printer, part, names, own, Some(sought.as_str()))?;
    let other = compared(printer, part, value, true)?;
    let lacks = lacks_text(printer, part, names, old.as_str(), other.as_str())?;
    let new = raised(printer, part, names, old.as_str(), other.as_str(), value)?;
    let words = [own, lacks.as_str(), new.as_str(), kept.as_str()];
    printer.line(Form::PutTable, &words, page)
}

/// Appends the statement that names a value, if it is to have a name, and gives the text that stands for the value.
fn push_value(
    printer: &Printer<'_, '_>,
    part: &Part<'_>,
    names: &PartNames,
    leaves: &[Leaf],
    frame: &mut Frame,
    page: &mut Page,
) -> Result<String, AllocError> {
    if part.is_record() {
        let local = printer.local(&frame.locals, part.word.as_str(), "")?;
        push_record(
            printer,
            part,
            names,
            leaves,
            local.as_str(),
            &frame.locals,
            page,
        )?;
        frame
            .locals
            .push(String::from_str(printer.alloc, local.as_str())?)?;
        return Ok(local);
    }
    let [leaf, ..] = leaves else {
        return Ok(String::new(printer.alloc));
    };
    let given = kept_text(printer, part, 0, &frame.locals, *leaf)?;
    if !has_name(printer, part, *leaf) {
        return Ok(given);
    }
    let local = printer.local(&frame.locals, part.word.as_str(), "")?;
    printer.line(Form::Let, &[local.as_str(), given.as_str()], page)?;
    frame
        .locals
        .push(String::from_str(printer.alloc, local.as_str())?)?;
    Ok(local)
}

/// Whether a value of one leaf gets a name: in TypeScript one that isn't written in a word, and in Rust a name that is owned.
fn has_name(printer: &Printer<'_, '_>, part: &Part<'_>, leaf: Leaf) -> bool {
    match printer.language.family() {
        Family::TypeScript => matches!(leaf, Leaf::Pos(_) | Leaf::Neg(_)),
        Family::Rust => matches!(part.kinds.as_slice(), [Kind::Name]),
        Family::Python | Family::Go => false,
    }
}

/// What an operation gives to the leaf of a part at a place, as it is kept there: in Rust a name is owned, and in Rust and Go a number may
/// have more bits.
fn kept_text(
    printer: &Printer<'_, '_>,
    part: &Part<'_>,
    place: usize,
    locals: &[String],
    leaf: Leaf,
) -> Result<String, AllocError> {
    let mut given = given_text(printer, locals, leaf)?;
    if printer.language.is_rust() && matches!(part.kinds.get(place), Some(Kind::Name)) {
        given.push_str(".to_string()")?;
    }
    let form = match (printer.language.family(), part.is_wide_leaf(place)) {
        (Family::Rust, true) => "i128::from($0)",
        (Family::Go, true) => "widen($0)",
        _ => return Ok(given),
    };
    printer.filled_text(form, &[given.as_str()])
}

/// Appends the statement that gives a name to a value of several leaves.
fn push_record(
    printer: &Printer<'_, '_>,
    part: &Part<'_>,
    names: &PartNames,
    leaves: &[Leaf],
    local: &str,
    locals: &[String],
    page: &mut Page,
) -> Result<(), AllocError> {
    printer.fill(Form::RecordOpen, &[local, names.value.as_str()], page)?;
    for (place, leaf) in leaves.iter().enumerate() {
        if place > 0 {
            page.put(", ")?;
        }
        let given = kept_text(printer, part, place, locals, *leaf)?;
        push_leaf(printer, name_at(&names.leaves, place), given.as_str(), page)?;
    }
    printer.line(Form::RecordClose, &[], page)
}

/// Appends a leaf of a value that is made, with its name if the language wants one.
fn push_leaf(
    printer: &Printer<'_, '_>,
    name: &str,
    given: &str,
    page: &mut Page,
) -> Result<(), AllocError> {
    let is_named = match printer.language.family() {
        Family::TypeScript | Family::Rust => name != given,
        Family::Python | Family::Go => false,
    };
    if is_named {
        page.put(name)?;
        page.put(": ")?;
    }
    page.put(given)
}
