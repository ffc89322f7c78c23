//! The file of a design with a relation and a proof.
ghost use Rattle.std.specs.Prelude.{◌≡◌, ◌≢◌, [], ◌↔◌, IfOk, IsTrue, map, pos};
ghost use Rattle.std.specs.List.{All};
ghost use Rattle.kat_check.specs.Acceptance.{IsAcceptedFile};
ghost use Rattle.kat_design.specs.Designs.{design_form};
ghost use Rattle.kat_design.specs.Faults.{faults_of};
ghost use Rattle.kat_design_json.specs.Signatures.{IsSignature};
ghost use Rattle.kat_refute.specs.Lines.{line_of, lines_of};
ghost use Rattle.kat_refute.specs.declared.ProofLine.{ProofLine};
ghost use Rattle.kat_type.specs.Signatures.{signature_of};
ghost use Rattle.kat_type.specs.Types.{type_form};
ghost use Rattle.kat_wire.specs.FileForms.{AreOfVersion, HaveNoZero, file_form};
ghost use Rattle.kat_by_hand.specs.Answers.{IsProof};
ghost use Rattle.kat_by_hand.specs.Written.{IsWritable};

use crate::proving::Proof;
use kat_check::{Migrated, migrate};
use kat_design::Design;
use kat_num::Items;
use kat_refute::ProofLine;
use kat_relation::Relation;
use kat_type::SeqType;
use kat_wire::{DesignFile, write_file};
use std::alloc::{AllocError, Global};

/// The greatest number of bytes of a file.
pub const TEXT_LIMIT: usize = 16_777_216;

const _: () = prove!(TEXT_LIMIT == 16_777_216);

/// The file of a design, if its lines can be written in one and `check` accepts it.
pub(crate) fn file_of(
    alloc: Global,
    ty: &SeqType,
    design: Design,
    relation: Relation,
    proof: Items<Items<ProofLine>>,
) -> Result<Proof, AllocError>
    requires signature { IsSignature (signature_of (type_form ty.now)) }
    requires accepted { faults_of (design_form design) ≡ [] }
    requires agrees { signature_of (type_form ty.now) ≡ design.sig }
    ensures proof { IfOk result (IsProof (type_form ty.now) (design_form design)) }
{
    if !are_writable(proof.as_slice()) {
        return Ok(Proof::Long);
    }
    let file = DesignFile {
        version: 1,
        design,
        relation,
        proof,
    };
    hinted_file(alloc, ty, &file)
}

/// The file with the hints that are found for its lines, if `check` accepts it.
fn hinted_file(alloc: Global, ty: &SeqType, file: &DesignFile) -> Result<Proof, AllocError>
    requires signature { IsSignature (signature_of (type_form ty.now)) }
    requires accepted { faults_of (design_form file.now.design) ≡ [] }
    requires agrees { signature_of (type_form ty.now) ≡ file.now.design.sig }
    requires literals { HaveNoZero (file_form file.now).proof }
    ensures proof { IfOk result (IsProof (type_form ty.now) (design_form file.now.design)) }
{
    match migrate(alloc, ty, file)? {
        Migrated::Done(hinted) => written_file(alloc, ty, &hinted),
        Migrated::Refused { .. } => Ok(Proof::Long),
    }
}

/// The bytes of an accepted file, if they are few enough.
fn written_file(alloc: Global, ty: &SeqType, file: &DesignFile) -> Result<Proof, AllocError>
    requires signature { IsSignature (signature_of (type_form ty.now)) }
    requires accepted { faults_of (design_form file.now.design) ≡ [] }
    requires agrees { signature_of (type_form ty.now) ≡ file.now.design.sig }
    requires version { file.now.version ≡ 2 }
    requires lines { AreOfVersion 2 (file_form file.now).proof }
    requires literals { HaveNoZero (file_form file.now).proof }
    requires proved { IsAcceptedFile (type_form ty.now) (file_form file.now) }
    ensures proof { IfOk result (IsProof (type_form ty.now) (design_form file.now.design)) }
{
    let text = write_file(alloc, file, &[])?;
    if text.len() <= TEXT_LIMIT {
        return Ok(Proof::File(text));
    }
    Ok(Proof::Long)
}

/// Whether all lines of a proof can be written in a file: no literal is 0.
#[tactic(auto, using(crate::proofs::Writable::writable_proof))]
fn are_writable(proof: &[Items<ProofLine>]) -> bool
    ensures { IsTrue result → HaveNoZero (map lines_of proof.now) }
{
    proof
        .iter()
        .all(|lines| are_writable_lines(lines.as_slice()))
}

/// Whether all of the lines can.
fn are_writable_lines(lines: &[ProofLine]) -> bool
    ensures { IsTrue result ↔ All (λ (line : ProofLine). IsWritable (line_of line)) lines.now }
{
    lines.iter().all(|line| is_writable(line))
}

/// Whether a line can.
fn is_writable(line: &ProofLine) -> bool
    ensures { IsTrue result ↔ IsWritable (line_of line.now) }
{
    match line {
        ProofLine::Rup(lits) => have_no_zero(lits),
        ProofLine::Linear { lits, .. } => have_no_zero(lits),
        ProofLine::Hinted { lits, .. } => have_no_zero(lits),
    }
}

/// Whether no literal is 0.
fn have_no_zero(literals: &[i32]) -> bool
    ensures { IsTrue result ↔ All (λ z. z ≢ pos 0) literals.now }
{
    literals.iter().all(|literal| *literal != 0)
}
