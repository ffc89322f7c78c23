//! Tries rows of whole calls of `katara`, of the words of calls, and of how calls end. The words of the program are the paths of the row
//! files. The status is 1 if a row failed or a file is damaged.
#![tactic(auto)]

mod asking;
mod calling;
mod statuses;

use crate::asking::word_answers;
use crate::calling::call_answers;
use crate::statuses::status_answers;
use kat_table::{Answers, Kinds, Row, RowError, Table, try_files};
use std::alloc::Global;
use std::io;
use std::process::ExitCode;

/// Rows of calls and of words, and the file that an earlier row kept.
#[derive(Drop)]
struct Calls {
    kept: Vec<(String, Vec<u8>)>,
}

impl Kinds for Calls {
    fn answers(&mut self, alloc: Global, table: &Table, row: &Row) -> Result<Answers, RowError> {
        match table.kind.as_str() {
            "calls" => call_answers(alloc, &mut self.kept, table, row),
            "words" => word_answers(alloc, table, row),
            "statuses" => status_answers(alloc, table, row),
            _ => Err(RowError::Damaged("the kind of the table isn't known")),
        }
    }
}

fn main(rt: HostRuntime) -> io::Result<ExitCode> {
    let mut calls = Calls {
        kept: Vec::new(rt.alloc()),
    };
    try_files(&rt, &mut calls)
}
