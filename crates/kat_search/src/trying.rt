//! Trying one design.
ghost use Rattle.std.specs.Prelude.{◌≡◌, ◌<◌, ◌≤◌, ◌+◌, ◌^◌, IfOk, IfSome, List};
ghost use Rattle.kat_candidate.specs.Candidates.{AreCandidates};
ghost use Rattle.kat_drop.specs.Certificates.{drops_of};
ghost use Rattle.kat_design.specs.Designs.{design_form};
ghost use Rattle.kat_hist.specs.Firsts.{IsFirstPlace};
ghost use Rattle.kat_prove.specs.Provings.{IsProved};
ghost use Rattle.kat_relation.specs.declared.relations.Conjunct.{Conjunct};
ghost use Rattle.kat_type.specs.Signatures.{signature_of};
ghost use Rattle.kat_type.specs.Types.{type_form};
ghost use Rattle.kat_wire.specs.FileForms.{file_form};
ghost use Rattle.kat_design_json.specs.Signatures.{IsSignature};
ghost use Rattle.kat_telling.specs.Entries.{AgreesOn, DiffersOn, histories_for};
ghost use Rattle.kat_telling.specs.Evidence.{Stands};
ghost use Rattle.kat_search.specs.Findings.{AreNumbers, IsFor, IsTryable, Refutes, Tries, histories_at};
ghost use Rattle.kat_telling.specs.Reasons.{evidence_of};

use crate::files::hinted_text;
use crate::findings::Findings;
use kat_design::Design;
use kat_drop::Drop1;
use kat_hist::Trials;
use kat_prove::{Proving, prove};
use kat_telling::{Reason, TEXT_LIMIT, reason_at};
use kat_type::SeqType;
use kat_wire::DesignFile;
use std::alloc::{AllocError, Global};

/// Tries a design of the listing: it is refuted, or passed over, and then there is no file; or it is proved, and its file is
/// given.
pub(crate) fn try_design(
    alloc: Global,
    ty: &SeqType,
    effort: u32,
    design: Design,
    trials: &mut Trials<'_>,
    findings: &mut Findings,
) -> Result<Option<Vec<u8>>, AllocError>
    requires signature { IsSignature (signature_of (type_form ty.now)) }
    requires effort { (1 ≤ effort) × (effort ≤ 10_000) }
    requires tryable { IsTryable (type_form ty.now) (design_form design) }
    requires of_type { trials.old ≡ ty.now }
    requires is_for { IsFor (type_form ty.now) findings.old }
    requires few { findings.old.count < 2 ^ 63 }
    ensures tries { IfOk result (Tries (type_form ty.now) effort (design_form design) findings.old findings.new) }
    ensures of_type { trials.new ≡ ty.now }
    ensures is_for { IfOk result (λ _. IsFor (type_form ty.now) findings.new) }
{
    if refute_design(alloc, ty, &design, trials, findings)? {
        return Ok(None);
    }
    prove_design(alloc, ty, effort, design, findings)
}

/// Refutes a design if it differs on a history: on the first of those that were cited, else on the first of all. That is reported
/// then. Answers whether it is refuted.
fn refute_design(
    alloc: Global,
    ty: &SeqType,
    design: &Design,
    trials: &mut Trials<'_>,
    findings: &mut Findings,
) -> Result<bool, AllocError>
    requires tryable { IsTryable (type_form ty.now) (design_form design.now) }
    requires of_type { trials.old ≡ ty.now }
    requires is_for { IsFor (type_form ty.now) findings.old }
    requires few { findings.old.count < 2 ^ 63 }
    ensures refutes { IfOk result (Refutes (type_form ty.now) (design_form design.now) findings.old findings.new) }
    ensures of_type { trials.new ≡ ty.now }
    ensures is_for { IfOk result (λ _. IsFor (type_form ty.now) findings.new) }
{
    if let Some(place) = first_cited(alloc, ty, design, &findings.cited, trials)? {
        findings.cite_again(alloc, place, design)?;
        return Ok(true);
    }
    if let Some(number) = trials.first_difference(alloc, design)? {
        let history = trials.history(alloc, number)?;
        findings.cite_newly(alloc, number, &history, design)?;
        return Ok(true);
    }
    Ok(false)
}

/// The place of the first of the cited histories on which a design differs from the type.
fn first_cited(
    alloc: Global,
    ty: &SeqType,
    design: &Design,
    cited: &[u64],
    trials: &mut Trials<'_>,
) -> Result<Option<usize>, AllocError>
    requires tryable { IsTryable (type_form ty.now) (design_form design.now) }
    requires numbers { AreNumbers (signature_of (type_form ty.now)) cited.now }
    requires of_type { trials.old ≡ ty.now }
    ensures first { IfOk result (IsFirstPlace (DiffersOn (type_form ty.now) (design_form design.now))
        (histories_at (signature_of (type_form ty.now)) cited.now)) }
    ensures within { IfOk result (λ found. IfSome found (λ place. place + 1 < 2 ^ 64)) }
    ensures of_type { trials.new ≡ ty.now }
{
    for place in 0..cited.len() {
        if trials.differs(alloc, design, cited[place])? {
            return Ok(Some(place));
        }
    }
    Ok(None)
}

/// Proves a design that no history refutes, or passes it over.
fn prove_design(
    alloc: Global,
    ty: &SeqType,
    effort: u32,
    design: Design,
    findings: &mut Findings,
) -> Result<Option<Vec<u8>>, AllocError>
    requires signature { IsSignature (signature_of (type_form ty.now)) }
    requires effort { (1 ≤ effort) × (effort ≤ 10_000) }
    requires tryable { IsTryable (type_form ty.now) (design_form design) }
    requires agrees { AgreesOn (type_form ty.now) (design_form design) (histories_for (type_form ty.now)) }
    requires is_for { IsFor (type_form ty.now) findings.old }
    requires few { findings.old.count < 2 ^ 63 }
    ensures tries { IfOk result (Tries (type_form ty.now) effort (design_form design) findings.old findings.new) }
    ensures is_for { IfOk result (λ _. IsFor (type_form ty.now) findings.new) }
{
    match prove(alloc, ty, &design, effort)? {
        Proving::Proved {
            drops,
            relation,
            proof,
        } => {
            let file = DesignFile {
                version: 1,
                design,
                relation,
                proof,
            };
            write_proved(alloc, ty, effort, &file, &drops, findings)
        }
        Proving::OpenCert {
            drops,
            query,
            point,
        } => pass_over(
            alloc,
            ty,
            effort,
            &design,
            &drops,
            &Reason::Fails { query, point },
            findings,
        ),
        Proving::Stuck {
            drops,
            at,
            decision,
        } => {
            let reason = reason_at(at, decision);
            pass_over(alloc, ty, effort, &design, &drops, &reason, findings)
        }
    }
}

/// Writes the file of a proved design, with hints in its lines; if that is too long, the design is passed over.
fn write_proved(
    alloc: Global,
    ty: &SeqType,
    effort: u32,
    file: &DesignFile,
    drops: &[Drop1],
    findings: &mut Findings,
) -> Result<Option<Vec<u8>>, AllocError>
    requires signature { IsSignature (signature_of (type_form ty.now)) }
    requires tryable { IsTryable (type_form ty.now) (design_form file.now.design) }
    requires agrees { AgreesOn (type_form ty.now) (design_form file.now.design) (histories_for (type_form ty.now)) }
    requires proved { (candidates : List Conjunct) × AreCandidates (type_form ty.now) (design_form file.now.design) candidates
        × IsProved (type_form ty.now) (design_form file.now.design) candidates effort (drops_of drops.now) (file_form file.now).relation
        (file_form file.now).proof }
    requires is_for { IsFor (type_form ty.now) findings.old }
    requires few { findings.old.count < 2 ^ 63 }
    ensures tries { IfOk result (Tries (type_form ty.now) effort (design_form file.now.design) findings.old findings.new) }
    ensures is_for { IfOk result (λ _. IsFor (type_form ty.now) findings.new) }
{
    let text = hinted_text(alloc, ty, file, &findings.passed)?;
    if text.len() <= TEXT_LIMIT {
        return Ok(Some(text));
    }
    pass_over(
        alloc,
        ty,
        effort,
        &file.design,
        drops,
        &Reason::Long(text.len() as u64),
        findings,
    )
}

/// Passes a design over, with the evidence.
fn pass_over(
    alloc: Global,
    ty: &SeqType,
    effort: u32,
    design: &Design,
    drops: &[Drop1],
    reason: &Reason,
    findings: &mut Findings,
) -> Result<Option<Vec<u8>>, AllocError>
    requires tryable { IsTryable (type_form ty.now) (design_form design.now) }
    requires agrees { AgreesOn (type_form ty.now) (design_form design.now) (histories_for (type_form ty.now)) }
    requires stands { Stands (type_form ty.now) (design_form design.now) effort findings.old.passed.items
        (evidence_of drops.now reason.now) }
    requires is_for { IsFor (type_form ty.now) findings.old }
    requires few { findings.old.count < 2 ^ 63 }
    ensures tries { IfOk result (Tries (type_form ty.now) effort (design_form design.now) findings.old findings.new) }
    ensures is_for { IfOk result (λ _. IsFor (type_form ty.now) findings.new) }
{
    findings.pass_over(alloc, design, drops, reason)?;
    Ok(None)
}
