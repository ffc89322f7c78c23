//! Encoded conditions, and lines of refutations, as rows have them.
use crate::bounds::row_of;
use kat_form::{Encoded, Meaning};
use kat_refute::ProofLine;
use kat_table::{RowError, number_of, numbers_of};
use std::alloc::Global;
use std::str::SplitWhitespace;

/// Adds what a line of a condition says: `numbers N`, `truth`, `gate`, `atom V:C + K` or `clause L L`.
fn take(alloc: Global, encoded: &mut Encoded, line: &str) -> Result<(), RowError> {
    let mut words = line.split_whitespace();
    match words.next() {
        Some("numbers") => {
            encoded.numbers = number_of(words.next().unwrap_or(""))?;
            Ok(())
        }
        Some("clause") => Ok(encoded.clauses.push(numbers_of(alloc, words)?)?),
        word => {
            let place = (encoded.meanings.len() % (1 << 28)) as u32;
            let meaning = meaning_of(alloc, word, words, place)?;
            Ok(encoded.meanings.push(meaning)?)
        }
    }
}

/// What a variable stands for.
fn meaning_of(
    alloc: Global,
    word: Option<&str>,
    words: SplitWhitespace,
    place: u32,
) -> Result<Meaning, RowError> {
    match word {
        Some("truth") => Ok(Meaning::Truth(place)),
        Some("gate") => Ok(Meaning::Gate),
        Some("atom") => Ok(Meaning::Atom(row_of(alloc, words)?)),
        _ => Err(RowError::Damaged("a line is none of a condition")),
    }
}

/// The condition of a text.
pub(crate) fn condition_of(alloc: Global, text: &str) -> Result<Encoded, RowError> {
    let mut encoded = Encoded {
        clauses: Vec::new(alloc),
        meanings: Vec::new(alloc),
        numbers: 0,
    };
    for line in text.lines() {
        take(alloc, &mut encoded, line)?;
    }
    Ok(encoded)
}

/// A line `r L L`, `r L L : H H` or `l L L : M M`.
pub(crate) fn line_of(alloc: Global, line: &str) -> Result<ProofLine, RowError> {
    if let Some(said) = line.strip_prefix("l ") {
        return linear_of(alloc, said);
    }
    let Some(said) = line.strip_prefix('r') else {
        return Err(RowError::Damaged("a line is none of a refutation"));
    };
    match said.split_once(':') {
        Some((said, hints)) => hinted_of(alloc, said, hints),
        None => Ok(ProofLine::Rup(numbers_of(alloc, said.split_whitespace())?)),
    }
}

/// A line of linear arithmetic, with its multipliers.
fn linear_of(alloc: Global, said: &str) -> Result<ProofLine, RowError> {
    let (said, behind) = said.split_once(':').unwrap_or((said, ""));
    let lits = numbers_of(alloc, said.split_whitespace())?;
    let multipliers = numbers_of(alloc, behind.split_whitespace())?;
    Ok(ProofLine::Linear { lits, multipliers })
}

/// A line with hints.
fn hinted_of(alloc: Global, said: &str, behind: &str) -> Result<ProofLine, RowError> {
    let lits = numbers_of(alloc, said.split_whitespace())?;
    let hints = numbers_of(alloc, behind.split_whitespace())?;
    Ok(ProofLine::Hinted { lits, hints })
}
