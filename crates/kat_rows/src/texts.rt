//! Rows of texts: tokens, grammar, type files, values and names.
use crate::values::push_value;
use kat_grammar::read_text;
use kat_lex::{Token, TokenKind, tokens};
use kat_num::{Sort, Value, code, name_of, print, read_value};
use kat_table::{Answers, Row, RowError, Table, push_number, str_of, text_of};
use kat_type_file::read_type;
use std::alloc::{AllocError, Global};

/// The tokens of a text with their spans, or its fault.
pub(crate) fn token_answers(alloc: Global, table: &Table, row: &Row) -> Result<Answers, RowError> {
    let mut text = Vec::new(alloc);
    push_tokens(alloc, text_of(table, row, "text")?, &mut text)?;
    Ok(Answers::one(alloc, "text", text)?)
}

/// Appends the tokens of a text, or its fault.
fn push_tokens(alloc: Global, said: &[u8], text: &mut Vec<u8>) -> Result<(), AllocError> {
    match tokens(alloc, said) {
        Ok(found) => {
            for token in found.iter() {
                push_token(alloc, token, text)?;
            }
            Ok(())
        }
        Err(fault) => text.extend_from_slice(format!(in alloc; "{fault}")?.as_bytes()),
    }
}

/// Appends a token with its span, and a semicolon.
fn push_token(alloc: Global, token: &Token, text: &mut Vec<u8>) -> Result<(), AllocError> {
    push_kind(alloc, token.kind, text)?;
    push_number(text, " ", token.from)?;
    push_number(text, "-", token.to)?;
    text.extend_from_slice(b";")
}

/// Appends what a token is.
fn push_kind(alloc: Global, kind: TokenKind, text: &mut Vec<u8>) -> Result<(), AllocError> {
    match kind {
        TokenKind::Word(code) => push_value(alloc, "word ", &Value::Name(code), text),
        TokenKind::Name(code) => push_value(alloc, "name ", &Value::Name(code), text),
        TokenKind::Number(number) => push_number(text, "number ", number),
        TokenKind::Sign(first, second) => push_sign(first, second, text),
        TokenKind::Newline => text.extend_from_slice(b"newline"),
    }
}

/// Appends a sign of one byte, or of two.
fn push_sign(first: u8, second: u8, text: &mut Vec<u8>) -> Result<(), AllocError> {
    text.extend_from_slice(b"sign ")?;
    text.push(first)?;
    if second != 0 {
        text.push(second)?;
    }
    Ok(())
}

/// `read`, or the refusal of the grammar.
pub(crate) fn grammar_answers(
    alloc: Global,
    table: &Table,
    row: &Row,
) -> Result<Answers, RowError> {
    let said = match read_text(alloc, text_of(table, row, "text")?).err() {
        None => String::from_str(alloc, "read")?,
        Some(refusal) => format!(in alloc; "{refusal}")?,
    };
    Ok(Answers::one(alloc, "text", said.into_bytes())?)
}

/// `read`, or the refusal of a type file.
pub(crate) fn type_answers(alloc: Global, table: &Table, row: &Row) -> Result<Answers, RowError> {
    let said = match read_type(alloc, text_of(table, row, "text")?).err() {
        None => String::from_str(alloc, "read")?,
        Some(refusal) => format!(in alloc; "{refusal}")?,
    };
    Ok(Answers::one(alloc, "text", said.into_bytes())?)
}

/// The value that a sort and a text give, as it is printed, or `none`.
pub(crate) fn value_answers(alloc: Global, table: &Table, row: &Row) -> Result<Answers, RowError> {
    let Some((sort, text)) = str_of(table, row, "text")?.split_once(' ') else {
        return Err(RowError::Damaged("a value has no sort"));
    };
    let value = read_value(sort_of(sort)?, text.as_bytes());
    Ok(Answers::one(alloc, "text", value_text(alloc, value)?)?)
}

/// A value as it is printed, or `none`.
fn value_text(alloc: Global, value: Option<Value>) -> Result<Vec<u8>, AllocError> {
    let mut text = Vec::new(alloc);
    match value {
        Some(value) => print(alloc, &value, &mut text)?,
        None => text.extend_from_slice(b"none")?,
    }
    Ok(text)
}

/// The sort with a name.
fn sort_of(name: &str) -> Result<Sort, RowError> {
    match name {
        "bool" => Ok(Sort::Bool),
        "int" => Ok(Sort::Int),
        "nat" => Ok(Sort::Nat),
        "name" => Ok(Sort::Name),
        _ => Err(RowError::Damaged("a sort isn't known")),
    }
}

/// The code of a name, or `none`; and if asked, the name of that code.
pub(crate) fn name_answers(alloc: Global, table: &Table, row: &Row) -> Result<Answers, RowError> {
    match code(text_of(table, row, "text")?) {
        Some(code) => Ok(code_told(alloc, code)?),
        None => Ok(Answers::one(alloc, "text", Vec::from_slice(alloc, b"none")?)?),
    }
}

/// What is reported of the code of a name.
fn code_told(alloc: Global, code: u128) -> Result<Answers, AllocError> {
    let said = format!(in alloc; "{code:032x}")?;
    let mut answers = Answers::one(alloc, "text", said.into_bytes())?;
    if let Some(name) = name_of(alloc, code)? {
        answers.add_other("name", name)?;
    }
    Ok(answers)
}

/// The name of a code, or `none`.
pub(crate) fn code_answers(alloc: Global, table: &Table, row: &Row) -> Result<Answers, RowError> {
    let code = match u128::from_str_radix(str_of(table, row, "code")?, 16) {
        Ok(code) => code,
        Err(_) => return Err(RowError::Damaged("a code isn't a number")),
    };
    let name = match name_of(alloc, code)? {
        Some(name) => name,
        None => Vec::from_slice(alloc, b"none")?,
    };
    Ok(Answers::one(alloc, "code", name)?)
}
