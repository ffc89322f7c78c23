//! How a state is merged, what of it another one lacks, and how it is copied.
use crate::values::{compared, compared_cell, copied, held, lacks_text, raised};
use kat_emit::{Form as PartForm, Part};
use kat_emit_words::{Form, Page, PartNames, Printer, or_sign};
use kat_num::Value;
use std::alloc::AllocError;

/// Appends, for each part, the statements that merge another replica's, and those that say what has changed.
pub fn push_merges(printer: &Printer<'_, '_>, page: &mut Page) -> Result<(), AllocError> {
    printer.line(Form::MergeOpen, &[printer.names.changes.as_str()], page)?;
    printer.line(Form::MergeClock, &[], page)?;
    for (part, names) in printer.module.parts.iter().zip(&printer.names.parts) {
        match part.form {
            PartForm::Cell => push_merge_cell(printer, part, names, page)?,
            PartForm::Table => push_merge_table(printer, part, names, page)?,
            PartForm::Set => push_merge(printer, Form::MergeSet, names, "", "", page)?,
            PartForm::Tally => push_merge(printer, Form::MergeTally, names, "", "", page)?,
            PartForm::Tallies => push_merge(printer, Form::MergeTallies, names, "", "", page)?,
        }
    }
    if printer.module.parts.is_empty() {
        return Ok(());
    }
    let changed = changed_text(printer)?;
    printer.line(Form::MergeClose, &[changed.as_str()], page)
}

/// Whether any part has changed.
fn changed_text(printer: &Printer<'_, '_>) -> Result<String, AllocError> {
    let mut page = printer.page();
    for (place, (part, names)) in (printer
        .module
        .parts
        .iter()
        .zip(&printer.names.parts)).enumerate()
    {
        if place > 0 {
            page.put(or_sign(printer.language))?;
        }
        let form = match part.key {
            Some(_) => Form::ChangedKeys,
            None => Form::ChangedValue,
        };
        printer.fill(form, &[names.change.as_str()], &mut page)?;
    }
    Ok(page.into_text())
}

/// Appends the statements that merge a part, with a condition and a new value if it is a cell or a table.
fn push_merge(
    printer: &Printer<'_, '_>,
    form: Form,
    names: &PartNames,
    lacks: &str,
    new: &str,
    page: &mut Page,
) -> Result<(), AllocError> {
    let words = [
        names.own.as_str(),
        names.other.as_str(),
        lacks,
        new,
        names.change.as_str(),
        names.key.as_str(),
        names.item.as_str(),
    ];
    printer.line(form, &words, page)
}

/// Appends the statements that merge a cell.
fn push_merge_cell(
    printer: &Printer<'_, '_>,
    part: &Part<'_>,
    names: &PartNames,
    page: &mut Page,
) -> Result<(), AllocError> {
    let own = compared_cell(printer, part, names.own.as_str())?;
    let other = compared_cell(printer, part, names.other.as_str())?;
    let lacks = lacks_text(printer, part, names, own.as_str(), other.as_str())?;
    let kept = copied(printer, part, names.other.as_str(), false)?;
    let new = raised(
        printer,
        part,
        names,
        own.as_str(),
        other.as_str(),
        kept.as_str(),
    )?;
    push_merge(
        printer,
        Form::MergeCell,
        names,
        lacks.as_str(),
        new.as_str(),
        page,
    )
}

/// Appends the loop that merges a table.
fn push_merge_table(
    printer: &Printer<'_, '_>,
    part: &Part<'_>,
    names: &PartNames,
    page: &mut Page,
) -> Result<(), AllocError> {
    let key = Some(names.key.as_str());
    let own = held(printer, part, names, names.own.as_str(), key)?;
    let item = looped(printer, part, names)?;
    let lacks = lacks_text(printer, part, names, own.as_str(), item.as_str())?;
    let kept = copied(printer, part, names.item.as_str(), true)?;
    let new = raised(
        printer,
        part,
        names,
        own.as_str(),
        names.item.as_str(),
        kept.as_str(),
    )?;
    push_merge(
        printer,
        Form::MergeTable,
        names,
        lacks.as_str(),
        new.as_str(),
        page,
    )
}

/// The value of a loop, as it is compared with one that is held: in Rust a reference, from which a truth value is read.
fn looped(
    printer: &Printer<'_, '_>,
    part: &Part<'_>,
    names: &PartNames,
) -> Result<String, AllocError> {
    let reference = compared(printer, part, names.item.as_str(), true)?;
    if !printer.language.is_rust() || reference.as_str() != names.item.as_str() {
        return String::from_str(printer.alloc, names.item.as_str());
    }
    printer.filled_text("*$0", &[names.item.as_str()])
}

/// Appends, for each part, the statements that put what is known to be lacking into a difference.
pub fn push_lacks(printer: &Printer<'_, '_>, page: &mut Page) -> Result<(), AllocError> {
    for (part, names) in printer.module.parts.iter().zip(&printer.names.parts) {
        match part.form {
            PartForm::Cell => push_lack_cell(printer, part, names, page)?,
            PartForm::Table => push_lack_table(printer, part, names, page)?,
            PartForm::Set => push_lack(printer, Form::LackSet, names, "", "", page)?,
            PartForm::Tally => push_lack(printer, Form::LackTally, names, "", "", page)?,
            PartForm::Tallies => push_lack(printer, Form::LackTallies, names, "", "", page)?,
        }
    }
    Ok(())
}

/// Appends the statements that put what is lacking of a part, with a condition and the value if it is a cell or a table.
fn push_lack(
    printer: &Printer<'_, '_>,
    form: Form,
    names: &PartNames,
    lacks: &str,
    kept: &str,
    page: &mut Page,
) -> Result<(), AllocError> {
    let words = [
        names.own.as_str(),
        names.known.as_str(),
        names.its.as_str(),
        lacks,
        kept,
        names.key.as_str(),
        names.item.as_str(),
    ];
    printer.line(form, &words, page)
}

/// What is told of a cell: what is known lacks it, or, of a state that no operations gave, it isn't at or above the start.
fn told_text(
    printer: &Printer<'_, '_>,
    part: &Part<'_>,
    names: &PartNames,
    own: &str,
    known: &str,
) -> Result<String, AllocError> {
    let lacks = lacks_text(printer, part, names, known, own)?;
    if is_least(part) {
        return Ok(lacks);
    }
    let start = compared_cell(printer, part, names.start.as_str())?;
    let below = lacks_text(printer, part, names, own, start.as_str())?;
    let mut page = printer.page();
    page.put(lacks.as_str())?;
    page.put(or_sign(printer.language))?;
    page.put(below.as_str())?;
    Ok(page.into_text())
}

/// Whether no value is below the start of a part: it is false, or the empty name.
fn is_least(part: &Part<'_>) -> bool {
    matches!(part.starts(), [Value::Bool(false)] | [Value::Name(0)])
}

/// Appends the statement that puts a cell.
fn push_lack_cell(
    printer: &Printer<'_, '_>,
    part: &Part<'_>,
    names: &PartNames,
    page: &mut Page,
) -> Result<(), AllocError> {
    let own = compared_cell(printer, part, names.own.as_str())?;
    let known = compared_cell(printer, part, names.known.as_str())?;
    let lacks = told_text(printer, part, names, own.as_str(), known.as_str())?;
    let kept = copied(printer, part, names.own.as_str(), false)?;
    push_lack(
        printer,
        Form::LackCell,
        names,
        lacks.as_str(),
        kept.as_str(),
        page,
    )
}

/// Appends the loop that puts what is lacking of a table.
fn push_lack_table(
    printer: &Printer<'_, '_>,
    part: &Part<'_>,
    names: &PartNames,
    page: &mut Page,
) -> Result<(), AllocError> {
    let key = Some(names.key.as_str());
    let known = held(printer, part, names, names.known.as_str(), key)?;
    let item = looped(printer, part, names)?;
    let lacks = lacks_text(printer, part, names, known.as_str(), item.as_str())?;
    let kept = copied(printer, part, names.item.as_str(), true)?;
    push_lack(
        printer,
        Form::LackTable,
        names,
        lacks.as_str(),
        kept.as_str(),
        page,
    )
}

/// Appends, for each part, the statement that copies it.
pub fn push_copies(printer: &Printer<'_, '_>, page: &mut Page) -> Result<(), AllocError> {
    for (part, names) in printer.module.parts.iter().zip(&printer.names.parts) {
        let form = match part.form {
            PartForm::Cell => Form::CopyCell,
            PartForm::Table => Form::CopyTable,
            PartForm::Set => Form::CopySet,
            PartForm::Tally => Form::CopyTally,
            PartForm::Tallies => Form::CopyTallies,
        };
        printer.line(form, &[names.own.as_str(), names.its.as_str()], page)?;
    }
    Ok(())
}
