//! Rows of conditions: their encodings, and which conjuncts fit.
use crate::numbers::number_text;
use kat_form::{Encoded, Meaning};
use kat_linear::Row as Linear;
use kat_num::Sort;
use kat_relation::{Relation, conjunct_key, fits};
use kat_table::{Answers, Row, RowError, Table, number_of, push_number, push_numbers, str_of};
use kat_type::SeqType;
use kat_vc::{condition, condition_count, facts};
use kat_wire::DesignFile;
use std::alloc::{AllocError, Global};

/// The encoding of a condition of the relation in a design file; or its counts and last clauses, and how many facts
/// and conditions there are.
pub(crate) fn encoding_answers(
    alloc: Global,
    ty: &SeqType,
    file: &DesignFile,
    table: &Table,
    row: &Row,
) -> Result<Answers, RowError> {
    let number = number_of(str_of(table, row, "condition")?)?;
    Ok(condition_told(alloc, ty, file, number)?)
}

/// What is reported of a condition of the relation in a design file.
fn condition_told(
    alloc: Global,
    ty: &SeqType,
    file: &DesignFile,
    number: u32,
) -> Result<Answers, AllocError> {
    let mut answers = Answers::of(alloc, "type design condition");
    add_encoding(alloc, ty, file, number, &mut answers)?;
    let facts = fact_count(alloc, ty, file, number)?;
    answers.add_other("facts", number_text(alloc, facts)?)?;
    let conditions = conditions_of(ty, &file.relation);
    answers.add_other("conditions", number_text(alloc, u64::from(conditions))?)?;
    Ok(answers)
}

/// How many facts a condition has.
fn fact_count(
    alloc: Global,
    ty: &SeqType,
    file: &DesignFile,
    number: u32,
) -> Result<u64, AllocError> {
    Ok(facts(alloc, ty, &file.design, &file.relation, number)?.len() as u64)
}

/// Adds the encoding of a condition, and its counts.
fn add_encoding(
    alloc: Global,
    ty: &SeqType,
    file: &DesignFile,
    number: u32,
    answers: &mut Answers,
) -> Result<(), AllocError> {
    let encoded = condition(alloc, ty, &file.design, &file.relation, number)?;
    answers.add_other("gives", encoding_text(alloc, &encoded)?)?;
    answers.add_other("counts", counts_text(alloc, &encoded)?)
}

/// How many conditions a relation of a type has; of a greater type or relation than there may be, none.
fn conditions_of(ty: &SeqType, relation: &Relation) -> u32 {
    if ty.ops.as_slice().len() > 12 {
        return 0;
    }
    if ty.queries.as_slice().len() > 12 {
        return 0;
    }
    if relation.conjuncts.as_slice().len() > 1 << 28 {
        return 0;
    }
    condition_count(ty, relation)
}

/// Appends a row.
fn push_row(text: &mut Vec<u8>, row: &Linear) -> Result<(), AllocError> {
    for term in &row.terms {
        push_number(text, " ", term.0)?;
        push_number(text, ":", term.1)?;
    }
    push_number(text, " + ", row.constant)
}

/// Appends what a variable stands for.
fn push_meaning(text: &mut Vec<u8>, meaning: &Meaning) -> Result<(), AllocError> {
    match meaning {
        Meaning::Truth(_) => text.extend_from_slice(b"truth\n"),
        Meaning::Gate => text.extend_from_slice(b"gate\n"),
        Meaning::Atom(row) => {
            text.extend_from_slice(b"atom")?;
            push_row(text, row)?;
            text.extend_from_slice(b"\n")
        }
    }
}

/// What the variables of an encoding stand for, and its clauses.
fn encoding_text(alloc: Global, encoded: &Encoded) -> Result<Vec<u8>, AllocError> {
    let mut text = Vec::new(alloc);
    push_encoding(&mut text, encoded)?;
    Ok(text)
}

/// Appends what the variables of an encoding stand for, and its clauses.
fn push_encoding(text: &mut Vec<u8>, encoded: &Encoded) -> Result<(), AllocError> {
    push_number(text, "numbers ", encoded.numbers)?;
    text.extend_from_slice(b"\n")?;
    for meaning in &encoded.meanings {
        push_meaning(text, meaning)?;
    }
    for clause in &encoded.clauses {
        push_clause(text, "clause", clause, "\n")?;
    }
    Ok(())
}

/// Appends a clause between two texts.
fn push_clause(
    text: &mut Vec<u8>,
    before: &str,
    clause: &[i32],
    behind: &str,
) -> Result<(), AllocError> {
    push_numbers(text, before, clause)?;
    text.extend_from_slice(behind.as_bytes())
}

/// How many numbers, variables and clauses an encoding has, and its last three clauses.
fn counts_text(alloc: Global, encoded: &Encoded) -> Result<Vec<u8>, AllocError> {
    let mut text = Vec::new(alloc);
    push_counts(&mut text, encoded)?;
    Ok(text)
}

/// Appends how many numbers, variables and clauses an encoding has, and its last three clauses.
fn push_counts(text: &mut Vec<u8>, encoded: &Encoded) -> Result<(), AllocError> {
    let clauses = encoded.clauses.as_slice();
    push_number(text, "", encoded.numbers)?;
    push_number(text, " numbers, ", encoded.meanings.len())?;
    push_number(text, " variables, ", clauses.len())?;
    text.extend_from_slice(b" clauses:")?;
    let last = clauses.len().saturating_sub(3);
    for clause in clauses.get(last..).unwrap_or(clauses) {
        push_clause(text, " [", clause, " ]")?;
    }
    Ok(())
}

/// Whether the one conjunct of the relation in a design file fits; and if asked, the sort of its key.
pub(crate) fn conjunct_answers(
    alloc: Global,
    ty: &SeqType,
    file: &DesignFile,
) -> Result<Answers, RowError> {
    let Some(conjunct) = file.relation.conjuncts.as_slice().first() else {
        return Err(RowError::Damaged("a relation has no conjunct"));
    };
    let said = if fits(alloc, ty, &file.design, conjunct)? {
        "fits"
    } else {
        "doesn't fit"
    };
    let key = key_word(conjunct_key(ty, &file.design, conjunct));
    Ok(conjunct_told(alloc, said, key)?)
}

/// What is reported of a conjunct.
fn conjunct_told(alloc: Global, said: &str, key: &str) -> Result<Answers, AllocError> {
    let mut answers = Answers::of(alloc, "type design");
    answers.add_other("gives", Vec::from_slice(alloc, said.as_bytes())?)?;
    answers.add_other("key", Vec::from_slice(alloc, key.as_bytes())?)?;
    Ok(answers)
}

/// The sort of a key as a word.
fn key_word(key: Option<Sort>) -> &'static str {
    match key {
        Some(Sort::Bool) => "bool",
        Some(Sort::Int) => "int",
        Some(Sort::Nat) => "nat",
        Some(Sort::Name) => "name",
        None => "none",
    }
}
