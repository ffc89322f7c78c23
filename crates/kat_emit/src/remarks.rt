//! Remarks of a type file as text for the comments of each language. No tool that reads comments takes it for markup or an instruction: in
//! Rust they are Markdown, whose code blocks are tests.
use std::alloc::AllocError;

/// Appends what a comment says, after a blank unless it is the first. What is between two accents is code, as in Markdown; so are words
/// that would be markup. An accent without a partner becomes an apostrophe.
pub(crate) fn push_remark(remark: &str, into: &mut String) -> Result<(), AllocError> {
    if !is_paired(remark) {
        return push_prose(remark, true, into);
    }
    let mut is_code = false;
    let mut is_first = true;
    for piece in remark.split('`') {
        if is_code {
            push_code(piece, into)?;
        } else {
            push_prose(piece, is_first, into)?;
        }
        is_code = !is_code;
        is_first = false;
    }
    Ok(())
}

/// Whether each accent of a remark has a partner.
fn is_paired(remark: &str) -> bool {
    let mut paired = true;
    for letter in remark.chars() {
        if letter == '`' {
            paired = !paired;
        }
    }
    paired
}

/// Appends words that aren't between accents, where `is_apart` says that the first comes after a blank in any case.
fn push_prose(text: &str, is_apart: bool, into: &mut String) -> Result<(), AllocError> {
    let mut is_apart = is_apart || begins_blank(text);
    for word in text.split_whitespace() {
        if is_apart && !into.is_empty() {
            into.push(' ')?;
        }
        if has_markup(word) || into.is_empty() && begins_markup(word) {
            push_code(word, into)?;
        } else {
            push_word(word, into)?;
        }
        is_apart = true;
    }
    Ok(())
}

/// Whether a text begins with a blank.
fn begins_blank(text: &str) -> bool {
    match text.chars().next() {
        Some(letter) => letter.is_whitespace(),
        None => false,
    }
}

/// Whether a word is markup wherever it is in a comment: a link, a footnote, a tag or an address.
fn has_markup(word: &str) -> bool {
    let mut is_after_colon = false;
    for letter in word.chars() {
        match letter {
            '[' | '<' => return true,
            '/' | '\\' if is_after_colon => return true,
            _ => is_after_colon = letter == ':',
        }
    }
    false
}

/// Whether a word at the start of a line is markup or an instruction: the mark of a list, a quote, a title, a table or a block of code in
/// Markdown, a tag of TSDoc, a constraint of a build in Go, the type in a comment of Python.
pub fn begins_markup(word: &str) -> bool {
    match word.chars().next() {
        Some('-' | '+' | '*' | '>' | '#' | '~' | '=' | '|' | '_' | '<' | '[' | '@' | ':') => true,
        _ => word.starts_with("type:") || is_list_number(word),
    }
}

/// Whether a word is the number of an item of a list.
fn is_list_number(word: &str) -> bool {
    let number = match (word.strip_suffix('.'), word.strip_suffix(')')) {
        (Some(number), _) | (None, Some(number)) => number,
        (None, None) => return false,
    };
    !number.is_empty() && number.chars().all(|digit| digit.is_ascii_digit())
}

/// Appends words as code, unless there is none.
fn push_code(text: &str, into: &mut String) -> Result<(), AllocError> {
    if text.split_whitespace().next().is_none() {
        return Ok(());
    }
    open_code(into)?;
    push_plain(text, into)?;
    into.push('`')
}

/// Appends the accent before code, after a blank unless there is one, or it comes first or after a parenthesis or a quote.
pub(crate) fn open_code(into: &mut String) -> Result<(), AllocError> {
    match into.as_str().chars().next_back() {
        None | Some(' ' | '(' | '"' | '\'') => {}
        Some(_) => into.push(' ')?,
    }
    into.push('`')
}

/// Appends words with a blank between two.
pub(crate) fn push_plain(text: &str, into: &mut String) -> Result<(), AllocError> {
    let mut is_first = true;
    for word in text.split_whitespace() {
        if !is_first {
            into.push(' ')?;
        }
        push_word(word, into)?;
        is_first = false;
    }
    Ok(())
}

/// Appends a word that ends no comment and escapes nothing: letters, digits and the signs of ASCII, where `*/`, three quotes, a single quote
/// twice, an accent and a backslash are written in another way, and for any other character `?`.
fn push_word(word: &str, into: &mut String) -> Result<(), AllocError> {
    for letter in word.chars() {
        if letter == '\\' || letter == '/' {
            if into.as_str().ends_with('*') {
                into.push(' ')?;
            }
            into.push('/')?;
        } else if letter == '"' && into.as_str().ends_with("\"\"") {
            into.push('\'')?;
        } else if letter == '\'' || letter == '`' {
            let is_second = into.as_str().ends_with('\'');
            into.push(if is_second { '"' } else { '\'' })?;
        } else if letter.is_ascii_graphic() || letter.is_alphanumeric() {
            into.push(letter)?;
        } else {
            into.push('?')?;
        }
    }
    Ok(())
}
