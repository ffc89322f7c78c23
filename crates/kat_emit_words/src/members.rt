//! Members: their heads and their documentation.
use crate::comments::{put_comment, put_docstring, put_remark};
use crate::forms::Form;
use crate::languages::Family;
use crate::pages::Page;
use crate::printers::{Printer, name_at};
use crate::values::sort_type;
use kat_type::Param;
use std::alloc::AllocError;

/// Appends what is before the body of a member: its head and what it is for. In Go that begins with the member's name.
pub fn open_member(
    printer: &Printer<'_, '_>,
    name: &str,
    what: &str,
    head: &str,
    page: &mut Page,
) -> Result<(), AllocError> {
    page.put("\n")?;
    match printer.language.family() {
        Family::Python => {
            page.fill("def $0:\n", &[head])?;
            page.indent(printer.language.step());
            return put_docstring(what, page);
        }
        Family::TypeScript | Family::Rust => put_comment(printer.language, what, page)?,
        Family::Go => {
            let said = printer.filled_text("$0: $1", &[name, what])?;
            put_remark(printer.language, said.as_str(), page)?;
        }
    }
    page.put(head)?;
    page.put(" {\n")?;
    page.indent(printer.language.step());
    Ok(())
}

/// Appends what comes after it.
pub fn close_member(printer: &Printer<'_, '_>, page: &mut Page) -> Result<(), AllocError> {
    page.outdent(printer.language.step());
    if printer.language.is_python() {
        return Ok(());
    }
    page.put("}\n")
}

/// The head of a method with these parameters and an answer of a type; `changes` says whether it may change the replica.
pub fn call_head(
    printer: &Printer<'_, '_>,
    name: &str,
    params: &[Param],
    locals: &[String],
    answer: &str,
    changes: bool,
) -> Result<String, AllocError> {
    let mut page = printer.page();
    let words = [
        name,
        printer.names.class.as_str(),
        if changes { "mut " } else { "" },
    ];
    printer.fill(Form::HeadOpen, &words, &mut page)?;
    for (place, param) in params.iter().enumerate() {
        if place > 0 {
            page.put(separator(printer))?;
        }
        let kind = sort_type(printer.language, param.sort);
        printer.fill(Form::Param, &[name_at(locals, place), kind], &mut page)?;
    }
    printer.fill(Form::HeadEnd, &[answer], &mut page)?;
    Ok(page.into_text())
}

/// What is between two parameters, beside what the form of a parameter begins with.
fn separator(printer: &Printer<'_, '_>) -> &'static str {
    match printer.language.family() {
        Family::TypeScript | Family::Go => ", ",
        Family::Python | Family::Rust => "",
    }
}
