//! Tries rows of logic: linear arithmetic, clauses, refutations and decisions. The words of the program are the paths of the row
//! files. The status is 1 if a row failed or a file is damaged.
#![tactic(auto)]

mod bounds;
mod deciding;
mod eliminating;
mod forms;
mod refuting;

use kat_table::{Answers, Kinds, Row, RowError, Table, try_files};
use std::alloc::Global;
use std::io;
use std::process::ExitCode;

/// Rows of logic.
#[derive(Drop)]
struct Rows {}

impl Kinds for Rows {
    fn answers(&mut self, alloc: Global, table: &Table, row: &Row) -> Result<Answers, RowError> {
        match table.kind.as_str() {
            "multipliers" => eliminating::multiplier_answers(alloc, table, row),
            "eliminations" => eliminating::elimination_answers(alloc, table, row),
            "following" => refuting::following_answers(alloc, table, row),
            "fitness" => refuting::fitness_answers(alloc, table, row),
            "refutations" => refuting::refutation_answers(alloc, table, row),
            "decisions" => deciding::decision_answers(alloc, table, row),
            _ => Err(RowError::Damaged("the kind of the table isn't known")),
        }
    }
}

fn main(rt: HostRuntime) -> io::Result<ExitCode> {
    try_files(&rt, &mut Rows {})
}
