//! Comments.
use crate::languages::{Family, Language};
use crate::pages::Page;
use kat_emit::begins_markup;
use std::alloc::AllocError;

/// How many letters a line of a comment has at most, unless a word is longer, or the next one would be markup at the start of a line.
const WIDTH: usize = 108;

/// Appends words in lines, with `mark` before each line but the first.
fn put_wrapped(text: &str, mark: &str, page: &mut Page) -> Result<(), AllocError> {
    let mut column = 0usize;
    for word in text.split(' ') {
        let width = word.chars().count();
        let is_long = column.saturating_add(width).saturating_add(1) > WIDTH;
        if column > 0 && is_long && !begins_markup(word) {
            page.put("\n")?;
            page.put(mark)?;
            column = 0;
        }
        if column > 0 {
            page.put(" ")?;
            column = column.saturating_add(1);
        }
        page.put(word)?;
        column = column.saturating_add(width);
    }
    Ok(())
}

/// Appends a comment of whole lines.
pub fn put_remark(language: Language, text: &str, page: &mut Page) -> Result<(), AllocError> {
    put_marked(if language.is_python() { "# " } else { "// " }, text, page)
}

/// Appends a comment of whole lines with this mark.
pub fn put_marked(mark: &str, text: &str, page: &mut Page) -> Result<(), AllocError> {
    page.put(mark)?;
    put_wrapped(text, mark, page)?;
    page.put("\n")
}

/// Appends the comment above a declaration: of TypeScript, of Rust, or of another language.
pub fn put_comment(language: Language, text: &str, page: &mut Page) -> Result<(), AllocError> {
    match language.family() {
        Family::TypeScript => put_typescript_comment(text, page),
        Family::Rust => put_marked("/// ", text, page),
        Family::Python | Family::Go => put_remark(language, text, page),
    }
}

fn put_typescript_comment(text: &str, page: &mut Page) -> Result<(), AllocError> {
    if text.chars().count() <= WIDTH {
        page.put("/** ")?;
        page.put(text)?;
        return page.put(" */\n");
    }
    page.put("/**\n * ")?;
    put_wrapped(text, " * ", page)?;
    page.put("\n */\n")
}

/// Appends the documentation of a class or a method of Python.
pub fn put_docstring(text: &str, page: &mut Page) -> Result<(), AllocError> {
    page.put("\"\"\"")?;
    put_wrapped(text, "", page)?;
    if text.ends_with('"') {
        page.put(" ")?;
    }
    page.put("\"\"\"\n")
}
