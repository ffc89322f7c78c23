//! Rows of decisions.
ghost use Rattle.std.specs.Prelude.{◌≤◌};

use crate::forms::condition_of;
use crate::refuting::verdict_text;
use kat_form::Encoded;
use kat_refute::ProofLine;
use kat_sat::{Decision, Point, decide, is_walkable};
use kat_table::{
    Answers, Row, RowError, Table, leaves, number_of, push_number, push_numbers, str_of,
};
use std::alloc::{AllocError, Global};

/// What is decided with an effort, and if asked, how the lines of the refutation are judged.
pub(crate) fn decision_answers(
    alloc: Global,
    table: &Table,
    row: &Row,
) -> Result<Answers, RowError> {
    let effort = leaves(number_of(str_of(table, row, "effort")?)?);
    let condition = condition_of(alloc, str_of(table, row, "condition")?)?;
    decided(alloc, &condition, effort)
}

/// Decides a condition, and reports the outcome.
fn decided(alloc: Global, condition: &Encoded, effort: u32) -> Result<Answers, RowError>
    requires { (1 ≤ effort) × (effort ≤ 10_000) }
{
    if !is_walkable(condition) {
        return Err(RowError::Damaged("a condition can't be decided"));
    }
    let decision = decide(alloc, condition, effort)?;
    decision_told(alloc, condition, &decision)
}

/// What is reported of a decision of a condition.
fn decision_told(
    alloc: Global,
    condition: &Encoded,
    decision: &Decision,
) -> Result<Answers, RowError> {
    let text = decision_text(alloc, decision)?;
    let mut answers = Answers::one(alloc, "condition effort", text)?;
    if let Decision::Refutation(lines) = decision {
        let verdict = verdict_text(alloc, condition, lines)?;
        answers.add("lines", verdict)?;
    }
    Ok(answers)
}

/// A decision as text.
fn decision_text(alloc: Global, decision: &Decision) -> Result<Vec<u8>, AllocError> {
    let mut text = Vec::new(alloc);
    push_decision(&mut text, decision)?;
    Ok(text)
}

/// Appends a decision.
fn push_decision(text: &mut Vec<u8>, decision: &Decision) -> Result<(), AllocError> {
    match decision {
        Decision::Refutation(lines) => push_lines(text, lines),
        Decision::Point(point) => push_point(text, point),
        Decision::Spent => text.extend_from_slice(b"spent"),
        Decision::Rows {
            lits,
            plus,
            minus,
            rest,
        } => {
            push_numbers(text, "rows", &[*plus, *minus, *rest])?;
            push_numbers(text, " :", lits)
        }
        Decision::Wide { lits, left, right } => {
            push_numbers(text, "wide", &[*left, *right])?;
            push_numbers(text, " :", lits)
        }
    }
}

/// Appends a refutation.
fn push_lines(text: &mut Vec<u8>, lines: &[ProofLine]) -> Result<(), AllocError> {
    text.extend_from_slice(b"refuted")?;
    for line in lines {
        push_line(text, line)?;
    }
    Ok(())
}

/// Appends a line of a refutation.
fn push_line(text: &mut Vec<u8>, line: &ProofLine) -> Result<(), AllocError> {
    match line {
        ProofLine::Rup(lits) => push_numbers(text, " | r", lits),
        ProofLine::Linear { lits, multipliers } => {
            push_numbers(text, " | l", lits)?;
            push_numbers(text, " :", multipliers)
        }
        ProofLine::Hinted { lits, hints } => {
            push_numbers(text, " | r", lits)?;
            push_numbers(text, " :", hints)
        }
    }
}

/// Appends a point.
fn push_point(text: &mut Vec<u8>, point: &Point) -> Result<(), AllocError> {
    push_number(text, "point ", point.den)?;
    push_numbers(text, ";", &point.nums)?;
    text.extend_from_slice(b";")?;
    for truth in &point.truths {
        push_number(text, " ", u8::from(*truth))?;
    }
    Ok(())
}
