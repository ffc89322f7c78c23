//! Rows of proofs: what `prove` answers of a design, and what it drops.
use crate::readings::of_type;
use kat_candidate::Place1;
use kat_design::Design;
use kat_drop::Drop1;
use kat_prove::{Proving, prove};
use kat_sat::Decision;
use kat_table::{Answers, Row, RowError, Table, leaves, number_of, push_number, str_of};
use kat_type::SeqType;
use std::alloc::{AllocError, Global};

/// What `prove` answers of a design with this many leaves for each walk; and if asked, the places of the candidates that it
/// drops, in their order.
pub(crate) fn proof_answers(
    alloc: Global,
    ty: &SeqType,
    design: &Design,
    table: &Table,
    row: &Row,
) -> Result<Answers, RowError> {
    let effort = leaves(number_of(str_of(table, row, "effort")?)?);
    of_type(ty, design)?;
    let proving = prove(alloc, ty, design, effort)?;
    Ok(proving_told(alloc, &proving)?)
}

/// What is reported of an answer.
fn proving_told(alloc: Global, proving: &Proving) -> Result<Answers, AllocError> {
    let mut answers = Answers::of(alloc, "type design effort");
    answers.add_other("drops", drops_text(alloc, drops_in(proving))?)?;
    answers.add(
        "gives",
        Vec::from_slice(alloc, word_of(proving).as_bytes())?,
    )?;
    Ok(answers)
}

/// The answer as a word; one that doesn't decide says why the walk gave up.
fn word_of(proving: &Proving) -> &'static str {
    match proving {
        Proving::Proved { .. } => "proved",
        Proving::OpenCert { .. } => "open",
        Proving::Stuck { decision, .. } => ending_of(decision),
    }
}

/// Why a walk gave up, as a word.
fn ending_of(decision: &Decision) -> &'static str {
    match decision {
        Decision::Rows { .. } => "rows",
        Decision::Wide { .. } => "wide",
        _ => "spent",
    }
}

/// The candidates that are dropped.
fn drops_in(proving: &Proving) -> &[Drop1] {
    match proving {
        Proving::Proved { drops, .. } => drops,
        Proving::OpenCert { drops, .. } => drops,
        Proving::Stuck { drops, .. } => drops,
    }
}

/// The places of drops, as reports have them, each with a semicolon and a blank after it.
fn drops_text(alloc: Global, drops: &[Drop1]) -> Result<Vec<u8>, AllocError> {
    let mut text = Vec::new(alloc);
    for one in drops {
        push_place(&mut text, &one.at)?;
        text.extend_from_slice(b"; ")?;
    }
    Ok(text)
}

/// Appends a place.
fn push_place(text: &mut Vec<u8>, at: &Place1) -> Result<(), AllocError> {
    match at {
        Place1::Start { conjunct } => push_number(text, "start ", *conjunct),
        Place1::Step { op, conjunct } => {
            push_number(text, "step ", *op)?;
            push_number(text, " ", *conjunct)
        }
        Place1::Query(query) => push_number(text, "query ", *query),
    }
}
