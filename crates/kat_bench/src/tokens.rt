//! `tokens PATH` times the tokens of a file: it prints the microseconds of the fastest of five rounds, and the
//! number of tokens or the place of the fault. Without a path it does nothing.

use crate::words::print_line;
use kat_lex::{LexError, tokens};
use kat_table::push_number;
use std::alloc::{AllocError, Global};
use std::env::Args;
use std::time::Instant;
use std::{fs, io};

// The number of tokens of a text, or its fault.
fn counted(alloc: Global, bytes: &[u8]) -> Result<usize, LexError> {
    Ok(tokens(alloc, bytes)?.len())
}

// The microseconds of the fastest of five rounds, and what they found.
fn timed(rt: &HostRuntime, bytes: &[u8]) -> io::Result<(u128, Result<usize, LexError>)> {
    let mut least = u128::MAX;
    let mut answer = Ok(0);
    for _ in 0..5 {
        let start = Instant::now(rt)?;
        answer = counted(rt.alloc(), bytes);
        least = least.min(start.elapsed(rt)?.as_micros());
    }
    Ok((least, answer))
}

// Appends what was found.
fn push_answer(text: &mut Vec<u8>, answer: Result<usize, LexError>) -> Result<(), AllocError> {
    match answer {
        Ok(count) => push_number(text, " tokens ", count),
        Err(LexError::BadByte(place) | LexError::LongName(place) | LexError::LongNumber(place)) => {
            push_number(text, " fault ", place)
        }
        Err(LexError::Memory) => text.extend_from_slice(b" out of memory"),
    }
}

// Times the tokens of a text, and reports them.
fn tell(rt: &HostRuntime, bytes: &[u8]) -> io::Result<()> {
    let (least, answer) = timed(rt, bytes)?;
    let mut text = Vec::new(rt.alloc());
    push_number(&mut text, "", least)?;
    push_answer(&mut text, answer)?;
    print_line(rt, text)
}

pub(crate) fn measure(rt: &HostRuntime, mut words: Args) -> io::Result<()> {
    let Some(path) = words.next() else {
        return Ok(());
    };
    let bytes = fs::read(rt, path.as_str())?;
    tell(rt, &bytes)
}
