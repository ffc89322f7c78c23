//! `conditions` reads encoded conditions from standard input, decides each with the asked effort, and prints the answers.
//! Refutations are checked, and one that isn't accepted is reported.
//!
//! The lines of a condition: `== NAME`; `numbers N`; `var truth`, `var gate` or `var atom V:C V:C + K` for the propositional
//! variables in order; `clause L L`; and `walk EFFORT` for each effort that is asked for. An effort may be followed by an answer, and that
//! by the lines of a refutation: these are passed over.
//!
//! The answers have the form in which such files have them, except for the number of leaves: `walk EFFORT refuted N lines`, where a
//! file has `walk EFFORT refuted L leaves N lines`. So the two can be compared line by line without ` L leaves`.

use crate::words::print_line;
use kat_form::{Encoded, Meaning};
use kat_linear::Row;
use kat_refute::{ProofLine, Verdict, check_lines};
use kat_sat::{Decision, Point, decide, is_walkable};
use kat_table::{number_of, push_number, push_numbers};
use std::alloc::{AllocError, Global};
use std::io;
use std::str::SplitWhitespace;

// A row of `VARIABLE:COEFFICIENT` words and `+ CONSTANT`.
fn row(alloc: Global, words: SplitWhitespace) -> Result<Row, AllocError> {
    let mut row = Row {
        terms: Vec::new(alloc),
        constant: 0,
    };
    for word in words {
        take_word(word, &mut row)?;
    }
    Ok(row)
}

// Takes a word of a row in.
fn take_word(word: &str, row: &mut Row) -> Result<(), AllocError> {
    match word.split_once(':') {
        Some((variable, coefficient)) => {
            let variable = number_of(variable).unwrap_or(0);
            row.terms
                .push((variable, number_of(coefficient).unwrap_or(0)))?;
        }
        None => row.constant = number_of(word).unwrap_or(0),
    }
    Ok(())
}

// What a variable stands for.
fn meaning(alloc: Global, mut words: SplitWhitespace, place: u32) -> Result<Meaning, AllocError> {
    match words.next() {
        Some("truth") => Ok(Meaning::Truth(place)),
        Some("atom") => Ok(Meaning::Atom(row(alloc, words)?)),
        _ => Ok(Meaning::Gate),
    }
}

fn empty(alloc: Global) -> Encoded {
    Encoded {
        clauses: Vec::new(alloc),
        meanings: Vec::new(alloc),
        numbers: 0,
    }
}

fn literals(alloc: Global, words: SplitWhitespace) -> Result<Vec<i32>, AllocError> {
    let mut found = Vec::new(alloc);
    for word in words {
        found.push(number_of(word).unwrap_or(0))?;
    }
    Ok(found)
}

// Appends a line of a refutation.
fn push_line(text: &mut Vec<u8>, line: &ProofLine) -> Result<(), AllocError> {
    match line {
        ProofLine::Rup(lits) => push_numbers(text, "line r", lits),
        ProofLine::Linear { lits, multipliers } => {
            push_numbers(text, "line l", lits)?;
            push_numbers(text, " :", multipliers)
        }
        ProofLine::Hinted { lits, hints } => {
            push_numbers(text, "line r", lits)?;
            push_numbers(text, " :", hints)
        }
    }
}

fn tell_line(rt: &HostRuntime, line: &ProofLine) -> io::Result<()> {
    let mut text = Vec::new(rt.alloc());
    push_line(&mut text, line)?;
    print_line(rt, text)
}

// Tells one line of words alone.
fn tell_words(rt: &HostRuntime, words: &str) -> io::Result<()> {
    print_line(rt, Vec::from_slice(rt.alloc(), words.as_bytes())?)
}

// Checks the lines of a refutation, and says whether they aren't accepted.
fn tell_verdict(rt: &HostRuntime, encoded: &Encoded, lines: &[ProofLine]) -> io::Result<()> {
    if !encoded.is_fit() {
        return tell_words(rt, "no condition");
    }
    if encoded.meanings.len() > 1 << 28 {
        return tell_words(rt, "no condition");
    }
    if lines.len() > 1 << 28 {
        return tell_words(rt, "no lines");
    }
    match check_lines(rt.alloc(), encoded, lines)? {
        Verdict::Accepted => Ok(()),
        Verdict::Bad(bad) => {
            let mut text = Vec::new(rt.alloc());
            push_number(&mut text, "refused at ", bad)?;
            print_line(rt, text)
        }
    }
}

fn tell_lines(rt: &HostRuntime, encoded: &Encoded, lines: &[ProofLine]) -> io::Result<()> {
    for line in lines {
        tell_line(rt, line)?;
    }
    tell_verdict(rt, encoded, lines)
}

fn push_point(text: &mut Vec<u8>, point: &Point) -> Result<(), AllocError> {
    push_number(text, " point ", point.den)?;
    push_numbers(text, ";", &point.nums)?;
    text.push(b';')?;
    for truth in &point.truths {
        text.extend_from_slice(if *truth { b" 1" } else { b" 0" })?;
    }
    Ok(())
}

// Appends what is decided, except for the lines of a refutation.
fn push_decision(text: &mut Vec<u8>, decision: &Decision) -> Result<(), AllocError> {
    match decision {
        Decision::Refutation(lines) => {
            push_number(text, " refuted ", lines.len())?;
            text.extend_from_slice(b" lines")
        }
        Decision::Point(point) => push_point(text, point),
        Decision::Spent => text.extend_from_slice(b" spent"),
        Decision::Rows {
            lits,
            plus,
            minus,
            rest,
        } => {
            push_numbers(text, " rows", &[*plus, *minus, *rest])?;
            push_numbers(text, " :", lits)
        }
        Decision::Wide { lits, left, right } => {
            push_numbers(text, " wide", &[*left, *right])?;
            push_numbers(text, " :", lits)
        }
    }
}

// Tells what is decided with an effort.
fn tell_decision(
    rt: &HostRuntime,
    encoded: &Encoded,
    effort: u32,
    decision: &Decision,
) -> io::Result<()> {
    let mut text = Vec::new(rt.alloc());
    push_number(&mut text, "walk ", effort)?;
    push_decision(&mut text, decision)?;
    print_line(rt, text)?;
    match decision {
        Decision::Refutation(lines) => tell_lines(rt, encoded, lines),
        _ => Ok(()),
    }
}

fn tell(rt: &HostRuntime, encoded: &Encoded, effort: u32) -> io::Result<()> {
    if !is_walkable(encoded) {
        return tell_words(rt, "no condition");
    }
    if effort == 0 {
        return tell_words(rt, "no effort");
    }
    if effort > 10_000 {
        return tell_words(rt, "no effort");
    }
    let decision = decide(rt.alloc(), encoded, effort)?;
    tell_decision(rt, encoded, effort, &decision)
}

// The number of the next word, or another one if it is none.
fn number_or(words: &mut SplitWhitespace, other: u32) -> u32 {
    match words.next() {
        Some(word) => number_of(word).unwrap_or(other),
        None => other,
    }
}

// Takes in what the next variable stands for.
fn take_meaning(
    alloc: Global,
    encoded: &mut Encoded,
    words: SplitWhitespace,
) -> Result<(), AllocError> {
    let place = (encoded.meanings.len() % (1 << 28)) as u32;
    let meaning = meaning(alloc, words, place)?;
    Ok(encoded.meanings.push(meaning)?)
}

// Takes a line of the input in.
fn take(rt: &HostRuntime, encoded: &mut Encoded, line: &str) -> io::Result<()> {
    let alloc = rt.alloc();
    let mut words = line.split_whitespace();
    match words.next() {
        Some("==") => {
            *encoded = empty(alloc);
            tell_words(rt, line)
        }
        Some("numbers") => {
            encoded.numbers = number_or(&mut words, 0);
            Ok(())
        }
        Some("var") => Ok(take_meaning(alloc, encoded, words)?),
        Some("clause") => {
            encoded.clauses.push(literals(alloc, words)?)?;
            Ok(())
        }
        Some("walk") => tell(rt, encoded, number_or(&mut words, 1)),
        _ => Ok(()),
    }
}

fn take_all(rt: &HostRuntime, encoded: &mut Encoded, text: &str) -> io::Result<()> {
    for line in text.lines() {
        take(rt, encoded, line)?;
    }
    Ok(())
}

pub(crate) fn measure(rt: &HostRuntime) -> io::Result<()> {
    let text = io::read_to_string(rt.alloc(), rt.reader())?;
    let mut encoded = empty(rt.alloc());
    take_all(rt, &mut encoded, text.as_str())
}
