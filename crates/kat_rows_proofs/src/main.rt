//! Tries rows of conditions, candidates, proofs, histories and listings. The words of the program are the paths of the row files. The
//! status is 1 if a row failed or a file is damaged.
#![tactic(auto)]

ghost use Rattle.std.specs.Prelude.{◌≡◌, []};
ghost use Rattle.kat_design.specs.Designs.{design_form};
ghost use Rattle.kat_design.specs.Faults.{faults_of};
ghost use Rattle.kat_type.specs.Fits.{IsWellSorted};
ghost use Rattle.kat_type.specs.Types.{type_form};
ghost use Rattle.kat_type.specs.Within.{IsWithinLimits};

mod candidates;
mod cards;
mod carrying;
mod conditions;
mod histories;
mod listings;
mod numbers;
mod proving;
mod readings;

use crate::readings::{file_in, type_in};
use kat_table::{Answers, Kinds, Row, RowError, Table, try_files};
use kat_type::SeqType;
use kat_wire::DesignFile;
use std::alloc::Global;
use std::io;
use std::process::ExitCode;

/// Rows of conditions and of what is made of them.
#[derive(Drop)]
struct Rows {}

impl Kinds for Rows {
    fn answers(&mut self, alloc: Global, table: &Table, row: &Row) -> Result<Answers, RowError> {
        match table.kind.as_str() {
            "histories" => histories::history_answers(alloc, table, row),
            "numbered" => listings::numbered_answers(alloc, table, row),
            _ => design_answers(alloc, table, row),
        }
    }
}

/// The results of a row of a type and a design file.
fn design_answers(alloc: Global, table: &Table, row: &Row) -> Result<Answers, RowError> {
    let ty = type_in(alloc, table, row)?;
    let file = file_in(alloc, table, row)?;
    answers_of(alloc, &ty, &file, table, row)
}

/// The results of a row with this type and this design file.
fn answers_of(
    alloc: Global,
    ty: &SeqType,
    file: &DesignFile,
    table: &Table,
    row: &Row,
) -> Result<Answers, RowError>
    requires sorted { IsWellSorted (type_form ty.now) }
    requires limits { IsWithinLimits (type_form ty.now) }
    requires accepted { faults_of (design_form file.now.design) ≡ [] }
{
    match table.kind.as_str() {
        "encodings" => conditions::encoding_answers(alloc, ty, file, table, row),
        "conjuncts" => conditions::conjunct_answers(alloc, ty, file),
        "candidates" => candidates::candidate_answers(alloc, ty, &file.design),
        "carried" => carrying::carried_answers(alloc, ty, &file.design, table, row),
        "proofs" => proving::proof_answers(alloc, ty, &file.design, table, row),
        "differences" => histories::difference_answers(alloc, ty, &file.design),
        "cards" => cards::card_answers(alloc, ty, &file.design, table, row),
        "resumed" => listings::resumed_answers(alloc, ty, &file.design, table, row),
        _ => Err(RowError::Damaged("the kind of the table isn't known")),
    }
}

fn main(rt: HostRuntime) -> io::Result<ExitCode> {
    try_files(&rt, &mut Rows {})
}
