//! What the lines of a type file say, for the comments of a module.
use crate::remarks::{open_code, push_plain, push_remark};
use std::alloc::{AllocError, Global};

/// What a type file says of the type, and of its fields, operations and queries in their order: the comment above a line and the one
/// at its end, followed by the line's own right side.
pub struct Lines {
    pub ty: String,
    pub fields: Vec<String>,
    pub ops: Vec<String>,
    pub queries: Vec<String>,
}

impl Drop for Lines {
    fn drop(self) {
        let Self {
            ty: _,
            fields: _,
            ops: _,
            queries: _,
        } = self;
    }
}

/// Reads the lines of a type file. What they say is text for a comment in each language, and no markup of its documentation.
pub fn read_lines(alloc: Global, text: &str) -> Result<Lines, AllocError> {
    let mut lines = Lines {
        ty: String::new(alloc),
        fields: Vec::new(alloc),
        ops: Vec::new(alloc),
        queries: Vec::new(alloc),
    };
    let mut comment = String::new(alloc);
    for line in text.split('\n') {
        push_line(alloc, line, &mut comment, &mut lines)?;
    }
    Ok(lines)
}

/// Takes a line, where `comment` is what the lines of comments above it say.
fn push_line(
    alloc: Global,
    line: &str,
    comment: &mut String,
    lines: &mut Lines,
) -> Result<(), AllocError> {
    let (bare, remark) = halves(line, '#');
    let Some(head) = bare.split_whitespace().next() else {
        if remark.is_empty() {
            comment.clear();
        }
        return push_remark(remark, comment);
    };
    push_remark(remark, comment)?;
    let said = take_text(alloc, comment)?;
    push_said(
        head,
        bare.trim().strip_prefix(head).unwrap_or(""),
        said,
        lines,
    )
}

/// The text, in whose place an empty one is left.
fn take_text(alloc: Global, text: &mut String) -> Result<String, AllocError> {
    let taken = String::from_str(alloc, text.as_str())?;
    text.clear();
    Ok(taken)
}

/// Takes a line that begins with a word, followed by `rest`, and of which its comments say `said`.
fn push_said(
    head: &str,
    rest: &str,
    mut said: String,
    lines: &mut Lines,
) -> Result<(), AllocError> {
    match head {
        "type" => lines.ty = said,
        "state" => {
            push_field(rest, &mut said)?;
            lines.fields.push(said)?;
        }
        "op" => {
            push_operation(rest, &mut said)?;
            lines.ops.push(said)?;
        }
        _ => {
            push_query(rest, &mut said)?;
            lines.queries.push(said)?;
        }
    }
    Ok(())
}

/// Appends the form of a field.
fn push_field(rest: &str, into: &mut String) -> Result<(), AllocError> {
    let (name, form) = halves(rest, ':');
    open_code(into)?;
    push_plain(name, into)?;
    into.push_str(": ")?;
    push_plain(form, into)?;
    into.push_str("`.")
}

/// Appends what an operation assigns, and its rank.
fn push_operation(rest: &str, into: &mut String) -> Result<(), AllocError> {
    let (_, ranked) = halves(rest, ')');
    let (rank, right) = halves(ranked, ':');
    open_code(into)?;
    push_plain(right, into)?;
    into.push_str("`, rank ")?;
    push_plain(rank.strip_prefix("rank").unwrap_or(rank).trim(), into)?;
    into.push('.')
}

/// Appends what a query answers.
fn push_query(rest: &str, into: &mut String) -> Result<(), AllocError> {
    let (_, sorted) = halves(rest, ')');
    let (_, right) = halves(sorted, '=');
    if !into.is_empty() {
        into.push(' ')?;
    }
    into.push_str("Answers")?;
    open_code(into)?;
    push_plain(right, into)?;
    into.push_str("`.")
}

/// What comes before the first such mark and what comes after it, without blanks at their ends.
fn halves(text: &str, mark: char) -> (&str, &str) {
    match text.split_once(mark) {
        Some((front, back)) => (front.trim(), back.trim()),
        None => (text.trim(), ""),
    }
}
