//! Numbers in words, and lines that are printed.
use kat_table::number_of;
use std::env::Args;
use std::io;
use std::io::Write;

/// The number of the next word, or 0 if there is no word or it is no number of the type.
pub(crate) fn next_number(words: &mut Args) -> u32 {
    match words.next() {
        Some(word) => number_of(word.as_str()).unwrap_or(0),
        None => 0,
    }
}

/// Prints a line, to which the newline is still to be appended.
pub(crate) fn print_line(rt: &HostRuntime, mut line: Vec<u8>) -> io::Result<()> {
    line.push(b'\n')?;
    io::writer(rt).write_all(&line)
}
