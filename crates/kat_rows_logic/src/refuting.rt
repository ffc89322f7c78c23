//! Rows of clauses and of refutations: what follows, which conditions are fit, and the first bad line.
use crate::forms::{condition_of, line_of};
use kat_clause::rup;
use kat_form::Encoded;
use kat_refute::{ProofLine, Verdict, check_lines};
use kat_table::{Answers, Row, RowError, Table, numbers_of, push_number, str_of};
use std::alloc::{AllocError, Global};

/// Whether a line follows from clauses by unit propagation.
pub(crate) fn following_answers(
    alloc: Global,
    table: &Table,
    row: &Row,
) -> Result<Answers, RowError> {
    let clauses = str_of(table, row, "clauses")?;
    let line = str_of(table, row, "line")?;
    let said = if follows(alloc, clauses, line)? {
        "follows"
    } else {
        "doesn't follow"
    };
    said_answer(alloc, "clauses line", said)
}

/// Whether a line of literals follows from the clauses of a condition.
fn follows(alloc: Global, clauses: &str, line: &str) -> Result<bool, RowError> {
    let condition = condition_of(alloc, clauses)?;
    let line = numbers_of(alloc, line.split_whitespace())?;
    Ok(rup(alloc, &condition.clauses, &line)?)
}

/// Whether a condition is fit.
pub(crate) fn fitness_answers(
    alloc: Global,
    table: &Table,
    row: &Row,
) -> Result<Answers, RowError> {
    let condition = str_of(table, row, "condition")?;
    let said = if condition_of(alloc, condition)?.is_fit() {
        "fit"
    } else {
        "unfit"
    };
    said_answer(alloc, "condition", said)
}

/// The answer of words.
fn said_answer(alloc: Global, inputs: &'static str, said: &str) -> Result<Answers, RowError> {
    let text = Vec::from_slice(alloc, said.as_bytes())?;
    Ok(Answers::one(alloc, inputs, text)?)
}

/// How lines of a refutation are judged.
pub(crate) fn verdict_text(
    alloc: Global,
    condition: &Encoded,
    lines: &[ProofLine],
) -> Result<Vec<u8>, RowError> {
    if !condition.is_fit() {
        return Err(RowError::Damaged("a condition isn't fit"));
    }
    if condition.meanings.len() > 1 << 28 {
        return Err(RowError::Damaged("a condition is too large"));
    }
    if lines.len() > 1 << 28 {
        return Err(RowError::Damaged("a refutation is too long"));
    }
    let mut text = Vec::new(alloc);
    push_verdict(&mut text, check_lines(alloc, condition, lines)?)?;
    Ok(text)
}

/// Appends a verdict.
fn push_verdict(text: &mut Vec<u8>, verdict: Verdict) -> Result<(), AllocError> {
    match verdict {
        Verdict::Accepted => text.extend_from_slice(b"accepted"),
        Verdict::Bad(line) => push_number(text, "bad ", line),
    }
}

/// The first bad line of a refutation, or `accepted`.
pub(crate) fn refutation_answers(
    alloc: Global,
    table: &Table,
    row: &Row,
) -> Result<Answers, RowError> {
    let condition = str_of(table, row, "condition")?;
    let lines = str_of(table, row, "lines")?;
    let verdict = read_verdict(alloc, condition, lines)?;
    Ok(Answers::one(alloc, "condition lines", verdict)?)
}

/// How lines are judged that are read with their condition.
fn read_verdict(alloc: Global, condition: &str, lines: &str) -> Result<Vec<u8>, RowError> {
    let condition = condition_of(alloc, condition)?;
    let lines = lines_of(alloc, lines)?;
    verdict_text(alloc, &condition, &lines)
}

/// The lines of a refutation.
fn lines_of(alloc: Global, text: &str) -> Result<Vec<ProofLine>, RowError> {
    let mut lines = Vec::new(alloc);
    for line in text.lines() {
        lines.push(line_of(alloc, line)?)?;
    }
    Ok(lines)
}
