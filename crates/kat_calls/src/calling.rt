//! Rows of whole calls of `katara`, over files and an output in memory.
use kat_cli::{Status, katara, status_text};
use kat_io::{MemFiles, MemSink};
use kat_table::{Answers, Entry, Row, RowError, Table, number_of, push_number};
use std::alloc::{AllocError, Global};

/// What a row calls.
struct Call {
    words: Vec<String>,
    files: MemFiles,
    out: MemSink,
    keep: Option<String>,
}

impl Drop for Call {
    fn drop(self) {
        let Self {
            words: _,
            files: _,
            out: _,
            keep: _,
        } = self;
    }
}

impl Call {
    /// A call of no words, without files.
    fn new(alloc: Global) -> Call {
        Call {
            words: Vec::new(alloc),
            files: MemFiles {
                files: Vec::new(alloc),
                calls: 0,
                failing: Vec::new(alloc),
                faults: 0,
            },
            out: MemSink {
                written: Vec::new(alloc),
                calls: 0,
                failing: Vec::new(alloc),
                faults: 0,
            },
            keep: None,
        }
    }

    /// Takes what a row calls: its own files first, then one that an earlier row kept, then those before the first row.
    fn take_row(
        &mut self,
        alloc: Global,
        kept: &[(String, Vec<u8>)],
        table: &Table,
        row: &Row,
    ) -> Result<(), RowError> {
        self.take_all(alloc, &row.entries)?;
        for (path, bytes) in kept {
            add_file(alloc, &mut self.files.files, path.as_str(), bytes)?;
        }
        self.take_all(alloc, &table.head)
    }

    /// Takes entries.
    fn take_all(&mut self, alloc: Global, entries: &[Entry]) -> Result<(), RowError> {
        for entry in entries {
            self.take(alloc, entry)?;
        }
        Ok(())
    }

    /// Takes an entry of a row; other keys are what must come.
    fn take(&mut self, alloc: Global, entry: &Entry) -> Result<(), RowError> {
        match entry.key.as_str() {
            "words" => Ok(push_words(alloc, str_in(entry)?, &mut self.words)?),
            "word" => Ok(push_word(alloc, str_in(entry)?, &mut self.words)?),
            "file" => {
                let path = entry.name.as_str();
                Ok(add_file(alloc, &mut self.files.files, path, &entry.text)?)
            }
            "failing-read" => Ok(self.files.failing.push(number_in(entry)?)?),
            "failing-write" => Ok(self.out.failing.push(number_in(entry)?)?),
            "keep" => {
                self.keep = Some(String::from_str(alloc, str_in(entry)?)?);
                Ok(())
            }
            _ => Ok(()),
        }
    }

    /// Makes the call, and leaves what was written as a file for the rows after it, if the row says so.
    fn make(
        &mut self,
        alloc: Global,
        kept: &mut Vec<(String, Vec<u8>)>,
    ) -> Result<Answers, AllocError> {
        let status = katara(alloc, &self.words, &mut self.files, &mut self.out);
        if let Some(name) = &self.keep {
            kept.clear();
            add_file(alloc, kept, name.as_str(), &self.out.written)?;
        }
        self.told(alloc, &status)
    }

    /// What is reported of the call.
    fn told(&self, alloc: Global, status: &Status) -> Result<Answers, AllocError> {
        let mut answers = Answers::of(alloc, "words word file failing-read failing-write keep");
        self.add_answers(alloc, status, &mut answers)?;
        Ok(answers)
    }

    /// Adds the status, its line, what was written, and how many lines and how many reads there were.
    fn add_answers(
        &self,
        alloc: Global,
        status: &Status,
        answers: &mut Answers,
    ) -> Result<(), AllocError> {
        let written = self.out.written.as_slice();
        answers.add("code", number_text(alloc, u64::from(status.code()))?)?;
        answers.add("line", status_text(alloc, &self.words, status)?)?;
        answers.add_other("lines", number_text(alloc, newlines(written))?)?;
        answers.add("gives", Vec::from_slice(alloc, written)?)?;
        answers.add_other("reads", number_text(alloc, self.files.calls)?)
    }
}

/// Appends words with blanks between them.
pub(crate) fn push_words(
    alloc: Global,
    said: &str,
    words: &mut Vec<String>,
) -> Result<(), AllocError> {
    for word in said.split_whitespace() {
        push_word(alloc, word, words)?;
    }
    Ok(())
}

/// Appends a word.
fn push_word(alloc: Global, word: &str, words: &mut Vec<String>) -> Result<(), AllocError> {
    Ok(words.push(String::from_str(alloc, word)?)?)
}

/// The text of an entry.
fn str_in(entry: &Entry) -> Result<&str, RowError> {
    match std::str::from_utf8(&entry.text) {
        Ok(text) => Ok(text),
        Err(_) => Err(RowError::Damaged("words aren't text")),
    }
}

/// The number of a call that fails.
fn number_in(entry: &Entry) -> Result<u64, RowError> {
    number_of(str_in(entry)?)
}

/// Adds a file.
fn add_file(
    alloc: Global,
    files: &mut Vec<(String, Vec<u8>)>,
    path: &str,
    bytes: &[u8],
) -> Result<(), AllocError> {
    let path = String::from_str(alloc, path)?;
    let bytes = Vec::from_slice(alloc, bytes)?;
    Ok(files.push((path, bytes))?)
}

/// How many newlines there are.
fn newlines(text: &[u8]) -> u64 {
    let mut count: u64 = 0;
    for byte in text {
        if *byte == b'\n' {
            count = count.saturating_add(1);
        }
    }
    count
}

/// A number as text.
fn number_text(alloc: Global, number: u64) -> Result<Vec<u8>, AllocError> {
    let mut text = Vec::new(alloc);
    push_number(&mut text, "", number)?;
    Ok(text)
}

/// The status, its line, what was written, and how many lines and how many reads there were. A row with `keep NAME` leaves what was written as a
/// file for the rows after it.
pub(crate) fn call_answers(
    alloc: Global,
    kept: &mut Vec<(String, Vec<u8>)>,
    table: &Table,
    row: &Row,
) -> Result<Answers, RowError> {
    let mut call = Call::new(alloc);
    call.take_row(alloc, kept, table, row)?;
    Ok(call.make(alloc, kept)?)
}
