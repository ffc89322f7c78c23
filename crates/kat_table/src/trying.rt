//! The rows of files, tried one after the other.
use crate::answers::{Answer, Answers, check_entries, difference};
use crate::errors::RowError;
use crate::escapes::shown;
use crate::reading::{Damage, Entry, Row, Table, find, read_table};
use std::alloc::Global;
use std::process::ExitCode;
use std::{env, fs, io};

/// What makes the calls of rows.
pub trait Kinds {
    /// The results of a row.
    fn answers(&mut self, alloc: Global, table: &Table, row: &Row) -> Result<Answers, RowError>;
}

/// The text of a key, in the row or before the first one.
pub fn text_of<'a>(table: &'a Table, row: &'a Row, key: &str) -> Result<&'a [u8], RowError> {
    match find(&row.entries, key) {
        Some(text) => Ok(text),
        None => find(&table.head, key).ok_or(RowError::Damaged("a key is wanting")),
    }
}

/// The text of a key that is words.
pub fn str_of<'a>(table: &'a Table, row: &'a Row, key: &str) -> Result<&'a str, RowError> {
    match std::str::from_utf8(text_of(table, row, key)?) {
        Ok(text) => Ok(text),
        Err(_) => Err(RowError::Damaged("words aren't text")),
    }
}

/// Prints why a row, or a file, can't be tried.
fn tell_damage(rt: &HostRuntime, path: &str, line: usize, error: RowError) -> io::Result<()> {
    let (what, why) = match error {
        RowError::Damaged(why) => ("damaged: ", why),
        RowError::Memory => ("out of memory", ""),
    };
    println!(rt; "{path}:{line}: {what}{why}")
}

/// Prints an entry that isn't as it came.
fn tell_difference(
    rt: &HostRuntime,
    path: &str,
    row: &Row,
    entry: &Entry,
    answer: &Answer,
) -> io::Result<()> {
    println!(rt; "{path}:{}: failed: {}", row.line, row.title.as_str())?;
    tell_text(rt, "wanted: ", entry.key.as_str(), &entry.text)?;
    tell_text(rt, "came:  ", "", &answer.text)
}

/// Prints what a text is, and the text as a row file has it.
fn tell_text(rt: &HostRuntime, what: &str, key: &str, bytes: &[u8]) -> io::Result<()> {
    let text = shown(rt.alloc(), bytes)?;
    println!(rt; "  {what}{key} {}", text.as_str())
}

/// Compares a row with the results, and prints it if it fails. Answers whether it passed.
fn is_as_it_came(rt: &HostRuntime, path: &str, row: &Row, answers: &Answers) -> io::Result<bool> {
    if let Err(error) = check_entries(&row.entries, answers) {
        tell_damage(rt, path, row.line, error)?;
        return Ok(false);
    }
    let mut passed = true;
    for entry in row.entries.iter() {
        if let Some(answer) = difference(entry, answers) {
            tell_difference(rt, path, row, entry, answer)?;
            passed = false;
        }
    }
    Ok(passed)
}

/// Tries a row. Whether it passed.
fn passes<K: Kinds>(
    rt: &HostRuntime,
    kinds: &mut K,
    path: &str,
    table: &Table,
    row: &Row,
) -> io::Result<bool> {
    match kinds.answers(rt.alloc(), table, row) {
        Ok(answers) => is_as_it_came(rt, path, row, &answers),
        Err(error) => {
            tell_damage(rt, path, row.line, error)?;
            Ok(false)
        }
    }
}

/// Tries the rows of a table, and prints how many passed. Whether all did.
fn all_pass<K: Kinds>(
    rt: &HostRuntime,
    kinds: &mut K,
    path: &str,
    table: &Table,
) -> io::Result<bool> {
    let mut passed: usize = 0;
    for row in table.rows.iter() {
        if passes(rt, kinds, path, table, row)? {
            passed = passed.saturating_add(1);
        }
    }
    println!(rt; "{path}: {passed} of {} rows passed", table.rows.len())?;
    Ok(passed == table.rows.len())
}

/// Tries the rows of a file. Whether all passed.
fn tries<K: Kinds>(rt: &HostRuntime, kinds: &mut K, path: &str) -> io::Result<bool> {
    let Ok(text) = fs::read_to_string(rt, path) else {
        println!(rt; "{path}: can't be read")?;
        return Ok(false);
    };
    match read_table(rt.alloc(), text.as_str()) {
        Ok(table) => all_pass(rt, kinds, path, &table),
        Err(damage) => {
            tell_untried(rt, path, damage)?;
            Ok(false)
        }
    }
}

/// Prints why no row of a file is tried.
fn tell_untried(rt: &HostRuntime, path: &str, damage: Damage) -> io::Result<()> {
    tell_damage(rt, path, damage.line, damage.error)?;
    println!(rt; "{path}: no row was tried")
}

/// Tries the rows of the files that the words name, and prints of each file how many passed, with each row that failed and
/// what came. The status is 1 if a row failed or a file is damaged.
pub fn try_files<K: Kinds>(rt: &HostRuntime, kinds: &mut K) -> io::Result<ExitCode> {
    let mut words = env::args(rt)?;
    let _program = words.next();
    let mut all = true;
    for path in words {
        if !tries(rt, kinds, path.as_str())? {
            all = false;
        }
    }
    Ok(if all {
        ExitCode::SUCCESS
    } else {
        ExitCode::FAILURE
    })
}
