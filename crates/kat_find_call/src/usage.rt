//! What is said if the words are those of no command: what is wrong, what the command takes, and a call that is near.

use crate::words::{Choice, Command, Fault, Heard, hear, limit_of};
use itoa::Buffer;
use std::alloc::{AllocError, Global};

/// Appends the lines.
pub(crate) fn push_usage(
    alloc: Global,
    words: &[String],
    into: &mut Vec<u8>,
) -> Result<(), AllocError> {
    into.extend_from_slice(b"usage")?;
    if let Some(heard) = hear(alloc, words)? {
        if let Some(fault) = heard.fault {
            into.extend_from_slice(b": ")?;
            push_fault(&heard, fault, into)?;
        }
        into.extend_from_slice(b"\n")?;
        into.extend_from_slice(taken_by(heard.command))?;
        into.extend_from_slice(b"\ntry: ")?;
        push_nearest(&heard, into)?;
    }
    into.extend_from_slice(b"\n")
}

/// Appends what is wrong.
fn push_fault(heard: &Heard<'_>, fault: Fault<'_>, into: &mut Vec<u8>) -> Result<(), AllocError> {
    match fault {
        Fault::Unknown(word) => {
            push_quoted(word, into)?;
            into.extend_from_slice(b" isn't an option of ")?;
            into.extend_from_slice(name_of(heard.command))
        }
        Fault::Again(choice) => {
            push_quoted(option_of(choice), into)?;
            into.extend_from_slice(b" is given twice")
        }
        Fault::BadValue(choice, value) => {
            push_quoted(option_of(choice), into)?;
            into.extend_from_slice(b" takes a number from 1 to ")?;
            push_number(limit_of(choice), into)?;
            into.extend_from_slice(b", not ")?;
            push_quoted(value, into)
        }
        Fault::NoValue(choice) => {
            push_quoted(option_of(choice), into)?;
            into.extend_from_slice(b" has no number after it")
        }
        Fault::Further(path) => {
            push_quoted(path, into)?;
            into.extend_from_slice(b" is a file too many")
        }
        Fault::Missing => into.extend_from_slice(if heard.paths.is_empty() {
            b"the file of the type is missing"
        } else {
            b"the file of the design is missing"
        }),
    }
}

/// Appends a word in quotes.
fn push_quoted(word: &str, into: &mut Vec<u8>) -> Result<(), AllocError> {
    into.extend_from_slice(b"`")?;
    into.extend_from_slice(word.as_bytes())?;
    into.extend_from_slice(b"`")
}

/// What a command is called.
fn name_of(command: Command) -> &'static [u8] {
    match command {
        Command::Find => b"find",
        Command::Prove => b"prove",
    }
}

/// What an option is called.
fn option_of(choice: Choice) -> &'static str {
    match choice {
        Choice::Effort => "--effort",
        Choice::Designs => "--designs",
    }
}

/// What a command takes.
fn taken_by(command: Command) -> &'static [u8] {
    match command {
        Command::Find => b"find takes TYPE [--effort N] [--designs N]",
        Command::Prove => b"prove takes TYPE DESIGN [--effort N]",
    }
}

/// Appends the call that is nearest to what was heard.
fn push_nearest(heard: &Heard<'_>, into: &mut Vec<u8>) -> Result<(), AllocError> {
    into.extend_from_slice(b"katara ")?;
    into.extend_from_slice(name_of(heard.command))?;
    push_option(Choice::Effort, heard.effort, into)?;
    push_option(Choice::Designs, heard.designs, into)?;
    if heard.paths.iter().any(|path| is_dashed(*path)) {
        into.extend_from_slice(b" --")?;
    }
    for path in &heard.paths {
        into.extend_from_slice(b" ")?;
        into.extend_from_slice(path.as_bytes())?;
    }
    into.extend_from_slice(missing(heard))
}

/// Appends an option with its value, if there is one.
fn push_option(choice: Choice, value: Option<u32>, into: &mut Vec<u8>) -> Result<(), AllocError> {
    if let Some(value) = value {
        into.extend_from_slice(b" ")?;
        into.extend_from_slice(option_of(choice).as_bytes())?;
        into.extend_from_slice(b" ")?;
        push_number(value, into)?;
    }
    Ok(())
}

/// Whether a path would be read as an option.
fn is_dashed(path: &str) -> bool {
    path.starts_with("-") && path != "-"
}

/// Words for the paths that are missing.
fn missing(heard: &Heard<'_>) -> &'static [u8] {
    match (heard.command, heard.paths.len()) {
        (Command::Find, 0) => b" TYPE",
        (Command::Prove, 0) => b" TYPE DESIGN",
        (Command::Prove, 1) => b" DESIGN",
        _ => b"",
    }
}

/// Appends a number.
fn push_number(number: u32, into: &mut Vec<u8>) -> Result<(), AllocError> {
    into.extend_from_slice(Buffer::new().format(number).as_bytes())
}
