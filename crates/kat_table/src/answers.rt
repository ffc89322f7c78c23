//! The results of a row, and whether they are what the row asks for.
ghost use Rattle.std.specs.Prelude.{◌≤◌, length, IsTrue};
ghost use Rattle.kat_table.specs.Fits.{Fits, StandsIn};

use crate::errors::RowError;
use crate::reading::Entry;
use std::alloc::{AllocError, Global};

/// A result of a row's call. The row must have what is asked for; it may have others.
pub struct Answer {
    pub name: &'static str,
    pub text: Vec<u8>,
    pub is_asked: bool,
}

impl Drop for Answer {
    fn drop(self) {
        let Self {
            name: _,
            text: _,
            is_asked: _,
        } = self;
    }
}

/// The results of a row, and the keys of what it takes.
pub struct Answers {
    /// Keys with blanks between them.
    pub inputs: &'static str,
    pub list: Vec<Answer>,
}

impl Drop for Answers {
    fn drop(self) {
        let Self { inputs: _, list: _ } = self;
    }
}

impl Answers {
    /// No answer yet of a row that takes these keys.
    pub fn of(alloc: Global, inputs: &'static str) -> Answers {
        Answers {
            inputs,
            list: Vec::new(alloc),
        }
    }

    /// The one answer of a row that takes these keys.
    pub fn one(alloc: Global, inputs: &'static str, text: Vec<u8>) -> Result<Answers, AllocError> {
        let mut answers = Answers::of(alloc, inputs);
        answers.add("gives", text)?;
        Ok(answers)
    }

    /// Adds a result under a key that the row must have.
    pub fn add(&mut self, name: &'static str, text: Vec<u8>) -> Result<(), AllocError> {
        Ok(
            self.list.push(Answer {
                name,
                text,
                is_asked: true,
            })?,
        )
    }

    /// Adds a result under a key that the row may have.
    pub fn add_other(&mut self, name: &'static str, text: Vec<u8>) -> Result<(), AllocError> {
        Ok(
            self.list.push(Answer {
                name,
                text,
                is_asked: false,
            })?,
        )
    }
}

/// The part of what came that a row has.
#[derive(Clone, Copy)]
pub(crate) enum Part {
    Whole,
    Front,
    End,
    Inside,
}

/// The part that a key has.
fn part_of(key: &str) -> Part {
    match key {
        "begins" => Part::Front,
        "ends" => Part::End,
        "has" => Part::Inside,
        _ => Part::Whole,
    }
}

/// The name of the answer that a key asks for.
fn asked_name(key: &str) -> &str {
    match part_of(key) {
        Part::Whole => key,
        _ => "gives",
    }
}

/// Whether a result is the wanted text.
fn fits(part: Part, wanted: &[u8], came: &[u8]) -> bool
    ensures { IsTrue result → Fits part wanted.now came.now }
{
    match part {
        Part::Whole => came == wanted,
        Part::Front => came.starts_with(wanted),
        Part::End => came.ends_with(wanted),
        Part::Inside => has(wanted, came),
    }
}

/// Whether the result contains the wanted text.
fn has(wanted: &[u8], came: &[u8]) -> bool
    ensures { IsTrue result → StandsIn wanted.now came.now }
{
    for at in 0..=came.len() {
        if stands_at(wanted, came, at) {
            return true;
        }
    }
    false
}

/// Whether the result has the wanted text at a place.
fn stands_at(wanted: &[u8], came: &[u8], at: usize) -> bool
    requires { at ≤ length came.now }
    ensures { IsTrue result → StandsIn wanted.now came.now }
{
    let (_front, rest) = came.split_at(at);
    rest.starts_with(wanted)
}

/// Whether an entry asks for an answer.
fn asks(entry: &Entry, answer: &Answer) -> bool {
    asked_name(entry.key.as_str()) == answer.name
}

/// Whether an entry is as it came.
fn is_met(entry: &Entry, answer: &Answer) -> bool {
    fits(part_of(entry.key.as_str()), &entry.text, &answer.text)
}

/// Whether an entry is what a row takes.
fn is_input(entry: &Entry, inputs: &str) -> bool {
    for key in inputs.split_whitespace() {
        if key == entry.key.as_str() {
            return true;
        }
    }
    false
}

/// The answer that an entry asks for.
fn answer_to<'a>(entry: &Entry, answers: &'a [Answer]) -> Option<&'a Answer> {
    for answer in answers {
        if asks(entry, answer) {
            return Some(answer);
        }
    }
    None
}

/// Whether the row has an answer.
fn is_said(answer: &Answer, entries: &[Entry]) -> bool {
    for entry in entries {
        if asks(entry, answer) {
            return true;
        }
    }
    false
}

/// Whether the row has all that must be asked for.
fn is_all_asked(entries: &[Entry], answers: &[Answer]) -> bool {
    for answer in answers {
        if answer.is_asked && !is_said(answer, entries) {
            return false;
        }
    }
    true
}

/// Whether a row asks for something, for each thing that has to be asked, and for nothing that didn't come.
pub(crate) fn check_entries(entries: &[Entry], answers: &Answers) -> Result<(), RowError> {
    if !is_all_asked(entries, &answers.list) {
        return Err(RowError::Damaged("a row doesn't say all that must come"));
    }
    let mut is_idle = true;
    for entry in entries {
        if !is_input(entry, answers.inputs) {
            if answer_to(entry, &answers.list).is_none() {
                return Err(RowError::Damaged("a key isn't one of this kind"));
            }
            is_idle = false;
        }
    }
    if is_idle {
        return Err(RowError::Damaged("a row says nothing that must come"));
    }
    Ok(())
}

/// What came in the place of an entry that isn't as it came.
pub(crate) fn difference<'a>(entry: &Entry, answers: &'a Answers) -> Option<&'a Answer> {
    if is_input(entry, answers.inputs) {
        return None;
    }
    match answer_to(entry, &answers.list) {
        Some(answer) if !is_met(entry, answer) => Some(answer),
        _ => None,
    }
}
