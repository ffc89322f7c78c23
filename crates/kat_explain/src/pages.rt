//! The page.
ghost use Rattle.std.specs.Prelude.{◌≡◌, ◌++◌, OnOk, length, map, sum_by};
ghost use Rattle.std.specs.List.{flat_map};
ghost use Rattle.kat_design.specs.Designs.{design_form};
ghost use Rattle.kat_explain.specs.Pages.{claimed_text, explanation, fault_text, page_text, passed_section, proof_section, ranks_section, relation_section, size_text, title_mark, title_text, verdict_text, working_text};
ghost use Rattle.kat_explain.specs.Relating.{claim_text, rank_line};
ghost use Rattle.kat_refute.specs.Lines.{lines_of};
ghost use Rattle.kat_type.specs.Types.{operation_form, type_form};
ghost use Rattle.kat_wire.specs.FileForms.{file_form};

use crate::claims::push_claim;
use crate::relating::push_rank_line;
use crate::sections::{push_keeping, push_merging, push_operations, push_queries, push_section};
use kat_check::Checked;
use kat_design::Design;
use kat_num::Items;
use kat_pseudocode::{Phrase, Scene, component_names, push_commas, push_name, push_number, say};
use kat_refute::ProofLine;
use kat_relation::Conjunct;
use kat_type::{Operation, SeqType};
use kat_wire::DesignFile;
use std::alloc::{AllocError, Global};

/// Appends the explanation of the design of a file for a type, as a plain text or as a page of Markdown. The type has the design's
/// signature, `passed` are the texts of the designs that the file names as passed over, and `checked` is what `check` answers of the
/// file.
pub fn push_explanation(
    alloc: Global,
    as_markdown: bool,
    ty: &SeqType,
    file: &DesignFile,
    passed: &[Items<u8>],
    checked: Checked,
    into: &mut Vec<u8>,
) -> Result<(), AllocError>
    ensures { OnOk result (into.new.items ≡ into.old.items ++ explanation as_markdown (type_form ty.now)
        (file_form file.now) passed.now checked) }
{
    let conjuncts = file.relation.conjuncts.as_slice();
    let names = component_names(alloc, ty, conjuncts, file.design.components.as_slice())?;
    push_page(alloc, as_markdown, ty, file, &names, passed, checked, into)
}

/// Appends the page, with these names of components.
fn push_page(
    alloc: Global,
    as_markdown: bool,
    ty: &SeqType,
    file: &DesignFile,
    names: &[Items<u8>],
    passed: &[Items<u8>],
    checked: Checked,
    into: &mut Vec<u8>,
) -> Result<(), AllocError>
    ensures { OnOk result (into.new.items ≡ into.old.items ++ page_text as_markdown (type_form ty.now)
        (file_form file.now) names.now passed.now checked) }
{
    push_title(alloc, as_markdown, ty.name, into)?;
    push_working(alloc, as_markdown, ty, &file.design, names, into)?;
    push_claimed(alloc, as_markdown, ty, file, names, checked, into)?;
    push_passed(as_markdown, passed, into)
}

/// What comes before the title of the page.
fn title_mark(as_markdown: bool) -> &'static [u8]
    ensures { result.now ≡ title_mark as_markdown }
{
    if as_markdown { b"# " } else { b"" }
}

fn push_title(
    alloc: Global,
    as_markdown: bool,
    name: u128,
    into: &mut Vec<u8>,
) -> Result<(), AllocError>
    ensures { OnOk result (into.new.items ≡ into.old.items ++ title_text as_markdown name) }
{
    into.extend_from_slice(title_mark(as_markdown))?;
    push_name(alloc, name, into)?;
    into.extend_from_slice(b"\n")
}

/// Appends how the design works.
fn push_working(
    alloc: Global,
    as_markdown: bool,
    ty: &SeqType,
    design: &Design,
    names: &[Items<u8>],
    into: &mut Vec<u8>,
) -> Result<(), AllocError>
    ensures { OnOk result (into.new.items ≡ into.old.items ++ working_text as_markdown (type_form ty.now)
        (design_form design.now) names.now) }
{
    let scene = Scene {
        ops: ty.ops.as_slice(),
        components: design.components.as_slice(),
        names,
    };
    push_keeping(alloc, as_markdown, &scene, into)?;
    push_operations(alloc, as_markdown, &scene, into)?;
    push_merging(alloc, as_markdown, &scene, into)?;
    let asks = design.asks.as_slice();
    push_queries(
        alloc,
        as_markdown,
        &scene,
        ty.queries.as_slice(),
        asks,
        into,
    )
}

/// Appends what the file claims of the design, and what came of the check.
fn push_claimed(
    alloc: Global,
    as_markdown: bool,
    ty: &SeqType,
    file: &DesignFile,
    names: &[Items<u8>],
    checked: Checked,
    into: &mut Vec<u8>,
) -> Result<(), AllocError>
    ensures { OnOk result (into.new.items ≡ into.old.items ++ claimed_text as_markdown (type_form ty.now)
        (file_form file.now) names.now checked) }
{
    let conjuncts = file.relation.conjuncts.as_slice();
    push_ranks(alloc, as_markdown, ty.ops.as_slice(), into)?;
    push_relation(alloc, as_markdown, ty, &file.design, names, conjuncts, into)?;
    push_proof(as_markdown, file.proof.as_slice(), checked, into)
}

/// Appends in which order operations count.
fn push_ranks(
    alloc: Global,
    as_markdown: bool,
    ops: &[Operation],
    into: &mut Vec<u8>,
) -> Result<(), AllocError>
    ensures { OnOk result (into.new.items ≡ into.old.items ++ ranks_section as_markdown (map operation_form ops.now)) }
{
    push_section(as_markdown, say(Phrase::OrderTitle), into)?;
    into.extend_from_slice(say(Phrase::OrderOfRanks))?;
    push_rank_lines(alloc, ops, into)
}

fn push_rank_lines(alloc: Global, ops: &[Operation], into: &mut Vec<u8>) -> Result<(), AllocError>
    ensures { OnOk result (into.new.items ≡ into.old.items ++ flat_map rank_line (map operation_form ops.now)) }
{
    let mut rest = ops;
    'ops: while let [op, behind @ ..] = rest {
        push_rank_line(alloc, op, into)?;
        rest = behind;
    }
    Ok(())
}

/// Appends the relation.
fn push_relation(
    alloc: Global,
    as_markdown: bool,
    ty: &SeqType,
    design: &Design,
    names: &[Items<u8>],
    conjuncts: &[Conjunct],
    into: &mut Vec<u8>,
) -> Result<(), AllocError>
    ensures { OnOk result (into.new.items ≡ into.old.items ++ relation_section as_markdown (type_form ty.now) names.now
        (design_form design.now).components conjuncts.now) }
{
    push_section(as_markdown, say(Phrase::RelationTitle), into)?;
    match conjuncts {
        [] => into.extend_from_slice(say(Phrase::NoRelation)),
        [_, ..] => {
            into.extend_from_slice(say(Phrase::WhatIsClaimed))?;
            push_claims(alloc, ty, design, names, conjuncts, into)
        }
    }
}

fn push_claims(
    alloc: Global,
    ty: &SeqType,
    design: &Design,
    names: &[Items<u8>],
    conjuncts: &[Conjunct],
    into: &mut Vec<u8>,
) -> Result<(), AllocError>
    ensures { OnOk result (into.new.items ≡ into.old.items ++ flat_map
        (claim_text (type_form ty.now) (design_form design.now).components names.now) conjuncts.now) }
{
    let mut rest = conjuncts;
    'conjuncts: while let [conjunct, behind @ ..] = rest {
        push_claim(alloc, ty, design, names, conjunct, into)?;
        rest = behind;
    }
    Ok(())
}

/// How many lines there are in all.
fn count_lines(proof: &[Items<ProofLine>]) -> u128
    ensures { result ≡ sum_by length (map lines_of proof.now) }
{
    let mut count = 0;
    for lines in proof {
        count += lines.as_slice().len() as u128;
    }
    count
}

/// Appends how large the proof is, and what came of its check.
fn push_proof(
    as_markdown: bool,
    proof: &[Items<ProofLine>],
    checked: Checked,
    into: &mut Vec<u8>,
) -> Result<(), AllocError>
    ensures { OnOk result (into.new.items ≡ into.old.items ++ proof_section as_markdown (map lines_of proof.now) checked) }
{
    push_section(as_markdown, say(Phrase::ProofTitle), into)?;
    push_size(proof, into)?;
    push_verdict(checked, into)
}

/// Appends how many lists of lines a proof has, and how many lines.
fn push_size(proof: &[Items<ProofLine>], into: &mut Vec<u8>) -> Result<(), AllocError>
    ensures { OnOk result (into.new.items ≡ into.old.items ++ size_text (map lines_of proof.now)) }
{
    into.extend_from_slice(say(Phrase::ProofHas))?;
    push_number(proof.len() as u128, into)?;
    into.extend_from_slice(say(Phrase::ListsWith))?;
    push_number(count_lines(proof), into)?;
    into.extend_from_slice(say(Phrase::LinesInAll))
}

#[tactic(auto, unfolding(crate::specs::Pages::verdict_text))]
fn push_verdict(checked: Checked, into: &mut Vec<u8>) -> Result<(), AllocError>
    ensures { OnOk result (into.new.items ≡ into.old.items ++ verdict_text checked) }
{
    match checked {
        Checked::Accepted => into.extend_from_slice(say(Phrase::Accepted)),
        Checked::Refused { condition, line } => push_fault(condition, line, into),
    }
}

/// Appends the first fault of a file: condition 0 is a conjunct that doesn't fit.
#[tactic(auto, unfolding(crate::specs::Pages::fault_text))]
fn push_fault(condition: u32, line: u32, into: &mut Vec<u8>) -> Result<(), AllocError>
    ensures { OnOk result (into.new.items ≡ into.old.items ++ fault_text condition line) }
{
    if condition == 0 {
        into.extend_from_slice(say(Phrase::RefusedSince))?;
        push_number(u128::from(line), into)?;
        return into.extend_from_slice(say(Phrase::DoesNotFit));
    }
    into.extend_from_slice(say(Phrase::RefusedAt))?;
    push_number(u128::from(condition), into)?;
    into.extend_from_slice(b" line ")?;
    push_number(u128::from(line), into)?;
    into.extend_from_slice(b".\n")
}

/// Appends the designs that were passed over.
fn push_passed(
    as_markdown: bool,
    passed: &[Items<u8>],
    into: &mut Vec<u8>,
) -> Result<(), AllocError>
    ensures { OnOk result (into.new.items ≡ into.old.items ++ passed_section as_markdown passed.now) }
{
    push_section(as_markdown, say(Phrase::PassedTitle), into)?;
    match passed {
        [] => into.extend_from_slice(say(Phrase::NamesNone)),
        [_, ..] => {
            into.extend_from_slice(say(Phrase::NamesThese))?;
            push_commas(passed, into)?;
            into.extend_from_slice(b".\n")
        }
    }
}
