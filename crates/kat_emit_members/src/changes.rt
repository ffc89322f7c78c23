//! The class of what a merge has changed.
use crate::leaves::key_type;
use kat_emit::Part;
use kat_emit_words::{Family, Page, PartNames, Printer, put_comment, put_docstring};
use std::alloc::AllocError;

/// What the class is for.
const CHANGES: &str = "What a merge changed: of each part with keys those that it touched.";

/// What `any` is.
const ANY: &str = "Whether anything changed that a query may read.";

/// Appends the class.
pub fn push_changes(printer: &Printer<'_, '_>, page: &mut Page) -> Result<(), AllocError> {
    let language = printer.language;
    let class = printer.names.changes.as_str();
    let (head, any, end) = match language.family() {
        Family::TypeScript => ("export class $0 {\n", "any = false;\n", "}\n"),
        Family::Python => ("\n@dataclass\nclass $0:\n", "any: bool = False\n", ""),
        Family::Rust => (
            "#[derive(Clone, Debug, Default, PartialEq, Eq)]\npub struct $0 {\n",
            "pub any: bool,\n",
            "}\n",
        ),
        Family::Go => ("type $0 struct {\n", "Any bool\n", "}\n"),
    };
    page.put("\n")?;
    if language.is_python() {
        page.fill(head, &[class])?;
        page.indent(language.step());
        put_docstring(CHANGES, page)?;
        page.put("\n")?;
    } else {
        let said = if language.is_go() { "$0: $1" } else { "$1" };
        let said = printer.filled_text(said, &[class, CHANGES])?;
        put_comment(language, said.as_str(), page)?;
        page.fill(head, &[class])?;
        page.indent(language.step());
    }
    put_comment(language, ANY, page)?;
    page.put(any)?;
    push_fields(printer, page)?;
    page.outdent(language.step());
    page.put(end)
}

/// Appends the fields of all parts.
fn push_fields(printer: &Printer<'_, '_>, page: &mut Page) -> Result<(), AllocError> {
    for (part, names) in printer.module.parts.iter().zip(&printer.names.parts) {
        let said = if part.key.is_some() {
            "The keys of `$0` that it touched, in no order."
        } else {
            "Whether `$0` changed."
        };
        let said = printer.filled_text(said, &[part.word.as_str()])?;
        put_comment(printer.language, said.as_str(), page)?;
        push_field(printer, part, names, page)?;
    }
    Ok(())
}

/// Appends the field of a part.
fn push_field(
    printer: &Printer<'_, '_>,
    part: &Part<'_>,
    names: &PartNames,
    page: &mut Page,
) -> Result<(), AllocError> {
    let form = match (printer.language.family(), part.key.is_some()) {
        (Family::TypeScript, true) => "$0~: $1[]~ = [];\n",
        (Family::TypeScript, false) => "$0 = false;\n",
        (Family::Python, true) => "$0: list[$1] = field(default_factory=list)\n",
        (Family::Python, false) => "$0: bool = False\n",
        (Family::Rust, true) => "pub $0: Vec<$1>,\n",
        (Family::Rust, false) => "pub $0: bool,\n",
        (Family::Go, true) => "$0 []$1\n",
        (Family::Go, false) => "$0 bool\n",
    };
    page.fill(form, &[names.change.as_str(), key_type(printer, part)])
}
