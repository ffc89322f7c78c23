//! Tries rows of texts and of what they mean: tokens, type files, values, scripts, also drawn ones, and design files. The words of the
//! program are the paths of the row files. The status is 1 if a row failed or a file is damaged.
#![tactic(auto)]

mod designs;
mod scripts;
mod texts;
mod values;

use kat_table::{Answers, Kinds, Row, RowError, Table, try_files};
use std::alloc::Global;
use std::io;
use std::process::ExitCode;

/// Rows of texts.
#[derive(Drop)]
struct Rows {}

impl Kinds for Rows {
    fn answers(&mut self, alloc: Global, table: &Table, row: &Row) -> Result<Answers, RowError> {
        match table.kind.as_str() {
            "tokens" => texts::token_answers(alloc, table, row),
            "grammar" => texts::grammar_answers(alloc, table, row),
            "types" => texts::type_answers(alloc, table, row),
            "values" => texts::value_answers(alloc, table, row),
            "names" => texts::name_answers(alloc, table, row),
            "codes" => texts::code_answers(alloc, table, row),
            "scripts" => scripts::script_answers(alloc, table, row),
            "drawn" => scripts::drawn_answers(alloc, table, row),
            "ranks" => scripts::rank_answers(alloc, table, row),
            "designs" => designs::design_answers(alloc, table, row),
            _ => Err(RowError::Damaged("the kind of the table isn't known")),
        }
    }
}

fn main(rt: HostRuntime) -> io::Result<ExitCode> {
    try_files(&rt, &mut Rows {})
}
