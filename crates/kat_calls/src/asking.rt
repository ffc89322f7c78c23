//! Rows of words, and what is asked by them.
use kat_rules::Kinds;
use kat_table::{Answers, Row, RowError, Table, push_number, str_of};
use kat_words::{Command, Request, SynthOptions, read_words};
use std::alloc::{AllocError, Global};

/// The command with its options and its files, or `usage`. Words are separated by single blanks, so two blanks in a row have an empty word
/// between them; or by newlines, if a text has one. The text `none` stands for no word at all.
pub(crate) fn word_answers(alloc: Global, table: &Table, row: &Row) -> Result<Answers, RowError> {
    let mut words = Vec::new(alloc);
    push_words(alloc, str_of(table, row, "words")?, &mut words)?;
    Ok(asked(alloc, &words)?)
}

/// Appends the words of a text.
fn push_words(alloc: Global, said: &str, words: &mut Vec<String>) -> Result<(), AllocError> {
    if said == "none" {
        return Ok(());
    }
    let parting = if said.contains('\n') { '\n' } else { ' ' };
    for word in said.split(parting) {
        words.push(String::from_str(alloc, word)?)?;
    }
    Ok(())
}

/// What is reported of words.
fn asked(alloc: Global, words: &[String]) -> Result<Answers, AllocError> {
    let mut text = Vec::new(alloc);
    match read_words(alloc, words)? {
        Some(request) => push_request(&request, &mut text)?,
        None => text.extend_from_slice(b"usage")?,
    }
    Answers::one(alloc, "words", text)
}

/// Appends the command with its options, and then its files.
fn push_request(request: &Request<'_>, text: &mut Vec<u8>) -> Result<(), AllocError> {
    push_command(request.command, text)?;
    text.extend_from_slice(b" of")?;
    for path in &request.paths {
        text.push(b' ')?;
        text.extend_from_slice(path.as_bytes())?;
    }
    Ok(())
}

/// Appends the command with its numbers and a digit for each kind of components: `1` if it is among them, and otherwise `0`.
fn push_command(command: Command, text: &mut Vec<u8>) -> Result<(), AllocError> {
    match command {
        Command::Synth(options) => push_search("synth ", options, text),
        Command::Audit(options) => push_search("audit ", options, text),
        Command::Check => text.extend_from_slice(b"check"),
        Command::Migrate => text.extend_from_slice(b"migrate"),
        Command::Run => text.extend_from_slice(b"run"),
        Command::Deltas => text.extend_from_slice(b"deltas"),
        Command::Converge => text.extend_from_slice(b"converge"),
        Command::Model => text.extend_from_slice(b"model"),
        Command::List(options) => {
            push_number(text, "list ", options.size)?;
            push_number(text, " ", options.designs)?;
            push_kinds(options.kinds, text)
        }
        Command::Sample(options) => {
            push_number(text, "sample ", options.number)?;
            push_number(text, " ", options.lines)
        }
        Command::NodeNew(options) => push_number(text, "node-new ", options.number),
        Command::NodeStep => text.extend_from_slice(b"node-step"),
        Command::NodeAsk => text.extend_from_slice(b"node-ask"),
    }
}

/// Appends the command with the numbers and the kinds of a search.
fn push_search(name: &str, options: SynthOptions, text: &mut Vec<u8>) -> Result<(), AllocError> {
    push_number(text, name, options.size)?;
    push_number(text, " ", options.effort)?;
    push_number(text, " ", options.designs)?;
    push_kinds(options.kinds, text)
}

/// Appends a digit for each kind of components, after a blank.
fn push_kinds(kinds: Kinds, text: &mut Vec<u8>) -> Result<(), AllocError> {
    text.push(b' ')?;
    for is_there in [
        kinds.cell,
        kinds.table,
        kinds.set,
        kinds.tally,
        kinds.tallies,
    ] {
        text.push(if is_there { b'1' } else { b'0' })?;
    }
    Ok(())
}
