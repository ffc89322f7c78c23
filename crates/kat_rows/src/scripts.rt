//! Rows of scripts, of scripts that are drawn, and of the order of operations.
ghost use Rattle.std.specs.Prelude.{IfOk};
ghost use Rattle.kat_type.specs.Fits.{IsWellSorted};
ghost use Rattle.kat_type.specs.Types.{type_form};

use crate::values::push_value;
use kat_num::Value;
use kat_sample::{SAMPLE_LIMIT, sample};
use kat_script::{Line, Script, ScriptError, read_script};
use kat_table::{Answers, Row, RowError, Table, number_of, push_number, str_of, text_of};
use kat_type::{Done, SeqType, canonical_order, compare, signature, signatures_are_small};
use kat_type_file::read_type;
use std::alloc::{AllocError, Global};
use std::cmp::Ordering;

/// The type of a row.
fn type_in(alloc: Global, table: &Table, row: &Row) -> Result<SeqType, RowError>
    ensures { IfOk result (λ ty. IsWellSorted (type_form ty)) }
{
    let text = text_of(table, row, "type")?;
    match read_type(alloc, text) {
        Ok(ty) => Ok(ty),
        Err(_) => Err(RowError::Damaged("the type isn't read")),
    }
}

/// How many replicas and packets a script has, and its lines; or its refusal.
pub(crate) fn script_answers(alloc: Global, table: &Table, row: &Row) -> Result<Answers, RowError> {
    let text = text_of(table, row, "text")?;
    let ty = type_in(alloc, table, row)?;
    script_told(alloc, &ty, text)
}

/// What is reported of a script of a type.
fn script_told(alloc: Global, ty: &SeqType, text: &[u8]) -> Result<Answers, RowError>
    requires { IsWellSorted (type_form ty.now) }
{
    let said = match script_in(alloc, ty, text) {
        Ok(script) => script_text(alloc, &script)?,
        Err(refusal) => format!(in alloc; "{refusal}")?.into_bytes(),
    };
    Ok(Answers::one(alloc, "type text", said)?)
}

/// The script of a text.
fn script_in(alloc: Global, ty: &SeqType, text: &[u8]) -> Result<Script, ScriptError>
    requires { IsWellSorted (type_form ty.now) }
{
    signatures_are_small();
    let sig = signature(alloc, ty)?;
    read_script(alloc, text, &sig)
}

/// `drawn` if the script that is drawn with a number and that many lines is the one of the text; or what is drawn.
pub(crate) fn drawn_answers(alloc: Global, table: &Table, row: &Row) -> Result<Answers, RowError> {
    let number = number_of(str_of(table, row, "number")?)?;
    let lines = number_of(str_of(table, row, "lines")?)?;
    let text = text_of(table, row, "text")?;
    let ty = type_in(alloc, table, row)?;
    drawn_told(alloc, &ty, number, lines, text)
}

/// What is reported of a drawn script and of a text.
fn drawn_told(
    alloc: Global,
    ty: &SeqType,
    number: u32,
    lines: u32,
    text: &[u8],
) -> Result<Answers, RowError>
    requires { IsWellSorted (type_form ty.now) }
{
    if lines > SAMPLE_LIMIT {
        return Err(RowError::Damaged("so many lines aren't drawn"));
    }
    let script = sample(alloc, number, lines)?;
    let said = if is_script_of(alloc, ty, text, &script) {
        Vec::from_slice(alloc, b"drawn")?
    } else {
        script_text(alloc, &script)?
    };
    Ok(Answers::one(alloc, "type number lines text", said)?)
}

/// Whether a text is read as this script.
fn is_script_of(alloc: Global, ty: &SeqType, text: &[u8], script: &Script) -> bool
    requires { IsWellSorted (type_form ty.now) }
{
    match script_in(alloc, ty, text) {
        Ok(read) => read == *script,
        Err(_) => false,
    }
}

/// How many replicas and packets there are, and the lines.
fn script_text(alloc: Global, script: &Script) -> Result<Vec<u8>, AllocError> {
    let mut text = Vec::new(alloc);
    push_number(&mut text, "", script.replicas)?;
    push_number(&mut text, " ", script.packets)?;
    for line in script.lines.as_slice() {
        push_line(alloc, line, &mut text)?;
    }
    Ok(text)
}

/// Appends a line after a semicolon, with the numbers of operations, queries and packets.
fn push_line(alloc: Global, line: &Line, text: &mut Vec<u8>) -> Result<(), AllocError> {
    match line {
        Line::Do(done) => push_do(alloc, done, text),
        Line::Ship { replica, packet } => push_pair("; ship ", *replica, *packet, text),
        Line::Deliver { packet, replica } => push_pair("; deliver ", *packet, *replica, text),
        Line::Ask {
            replica,
            query,
            args,
        } => {
            push_pair("; ask ", *replica, *query, text)?;
            push_values(alloc, args.as_slice(), text)
        }
        Line::Show { replica } => push_number(text, "; show ", *replica),
    }
}

/// Appends an operation.
fn push_do(alloc: Global, done: &Done, text: &mut Vec<u8>) -> Result<(), AllocError> {
    push_pair("; do ", done.replica, done.op, text)?;
    push_values(alloc, done.args.as_slice(), text)?;
    push_number(text, " at ", done.time)
}

/// Appends two numbers after a text.
fn push_pair(before: &str, one: u32, other: u32, text: &mut Vec<u8>) -> Result<(), AllocError> {
    push_number(text, before, one)?;
    push_number(text, " ", other)
}

/// Appends values, each after a blank.
fn push_values(alloc: Global, values: &[Value], text: &mut Vec<u8>) -> Result<(), AllocError> {
    for value in values {
        push_value(alloc, " ", value, text)?;
    }
    Ok(())
}

/// The order of two operations by rank, their canonical order, and both the other way round.
pub(crate) fn rank_answers(alloc: Global, table: &Table, row: &Row) -> Result<Answers, RowError> {
    let Some((one, other)) = str_of(table, row, "pair")?.split_once("; ") else {
        return Err(RowError::Damaged("a pair isn't two operations"));
    };
    let ty = type_in(alloc, table, row)?;
    ranks_told(alloc, &ty, one, other)
}

/// What is reported of two operations of a type.
fn ranks_told(alloc: Global, ty: &SeqType, one: &str, other: &str) -> Result<Answers, RowError>
    requires { IsWellSorted (type_form ty.now) }
{
    let one = done_of(alloc, ty, one)?;
    let other = done_of(alloc, ty, other)?;
    let said = orders_text(alloc, ty, &one, &other)?;
    Ok(Answers::one(alloc, "type pair", said.into_bytes())?)
}

/// The orders of two operations.
fn orders_text(
    alloc: Global,
    ty: &SeqType,
    one: &Done,
    other: &Done,
) -> Result<String, AllocError> {
    format!(in alloc;
        "{} {} {} {}",
        word_of(compare(ty, one, other)),
        word_of(canonical_order(ty, one, other)),
        word_of(compare(ty, other, one)),
        word_of(canonical_order(ty, other, one))
    )
}

/// The operation of a line of a script.
fn done_of(alloc: Global, ty: &SeqType, said: &str) -> Result<Done, RowError>
    requires { IsWellSorted (type_form ty.now) }
{
    let text = format!(in alloc; "replicas 32\n{said}")?;
    match script_in(alloc, ty, text.as_bytes()) {
        Ok(script) => first_of(alloc, &script),
        Err(_) => Err(RowError::Damaged("an operation isn't read")),
    }
}

/// The operation of the first line.
fn first_of(alloc: Global, script: &Script) -> Result<Done, RowError> {
    match script.lines.as_slice().first() {
        Some(Line::Do(done)) => Ok(done.copy(alloc)?),
        _ => Err(RowError::Damaged("a line is no operation")),
    }
}

/// An order as a word.
fn word_of(order: Ordering) -> &'static str {
    match order {
        Ordering::Less => "less",
        Ordering::Equal => "equal",
        Ordering::Greater => "greater",
    }
}
