//! Judging what is reported of a design.
ghost use Rattle.std.specs.Prelude.{◌≡◌, ◌+◌, ◌<◌, ◌≤◌, ◌++◌, ◌∷◌, ◌-◌, ◌^◌, [], IfOk, IfSome, None, Some, length, slice_get};
ghost use Rattle.kat_design.specs.Designs.{design_form};
ghost use Rattle.kat_design.specs.Faults.{faults_of};
ghost use Rattle.kat_hist.specs.Firsts.{IsFirstPlace};
ghost use Rattle.kat_histories.specs.Histories.{histories};
ghost use Rattle.kat_histories.specs.declared.histories.History.{History as Citable};
ghost use Rattle.kat_type.specs.Limits.{item_limit};
ghost use Rattle.kat_type.specs.Signatures.{signature_of};
ghost use Rattle.kat_type.specs.Types.{type_form};
ghost use Rattle.kat_type.specs.declared.signatures.Signature.{Signature as Names};
ghost use Rattle.kat_due.specs.Differences.{AgreesOn, DiffersOn, FirstDiffersAt, IsFirstDifference, histories_for};
ghost use Rattle.kat_due.specs.Dues.{Ask, IsNext};
ghost use Rattle.kat_due.specs.Dues.Phase.{at_design, cites};
ghost use Rattle.kat_due.specs.Readings.{AreNumbers, ComesTo, EachIsNumber, IsAskedOf, IsBehind, IsMet, IsTryable, histories_at, state_at};
ghost use Rattle.kat_due.specs.Texts.{history_line};

use crate::blocks::read_block;
use kat_design::Design;
use kat_due::{Reading, push_differs, push_history};
use kat_hist::{History, Trials};
use kat_said::Audit;
use kat_type::{SeqType, Signature};
use std::alloc::{AllocError, Global};

/// Judges what is reported of the next design: it is refuted by the first of the cited histories on which it differs, or by the
/// first of all, which is cited then; or it has a block. Answers the fault, if there is one.
pub(crate) fn judge_design(
    alloc: Global,
    ty: &SeqType,
    sig: &Signature,
    effort: u32,
    design: &Design,
    trials: &mut Trials<'_>,
    reading: &mut Reading<'_>,
) -> Result<Option<Audit>, AllocError>
    requires ops { length ty.now.ops ≤ item_limit }
    requires queries { length ty.now.queries ≤ item_limit }
    requires sig { sig.now ≡ signature_of (type_form ty.now) }
    requires tryable { IsTryable (type_form ty.now) (design_form design.now) }
    requires of_type { trials.old ≡ ty.now }
    requires numbers { AreNumbers (signature_of (type_form ty.now)) reading.old.cited.items }
    requires room { reading.old.lines + length reading.old.left.now < 2 ^ 64 - 1 }
    requires few { reading.old.count < 2 ^ 63 }
    requires few_passed { reading.old.passed < 2 ^ 63 }
    ensures comes { IfOk result (λ fault. (ask : Ask) → IsAskedOf ask (type_form ty.now) effort
        → IsNext ask (state_at sig.now reading.old at_design) (design_form design.now)
        → ComesTo ask (state_at sig.now reading.old at_design) reading.old.left.now
        (state_at sig.now reading.new at_design) reading.new.left.now fault) }
    ensures behind { IfOk result (λ fault. fault ≡ None → IsBehind reading.old reading.new 1 1) }
    ensures numbers { IfOk result (λ fault. fault ≡ None → AreNumbers (signature_of (type_form ty.now)) reading.new.cited.items) }
    ensures of_type { trials.new ≡ ty.now }
{
    if let Some(place) = first_cited(alloc, ty, design, &reading.cited, trials)? {
        return read_again(alloc, place, design, reading);
    }
    if let Some(number) = trials.first_difference(alloc, design)? {
        let history = trials.history(alloc, number)?;
        return read_newly(alloc, sig, number, &history, design, reading);
    }
    read_block(alloc, ty, sig, effort, design, reading)
}

/// The place of the first of the cited histories on which a design differs from the type.
fn first_cited(
    alloc: Global,
    ty: &SeqType,
    design: &Design,
    cited: &[u64],
    trials: &mut Trials<'_>,
) -> Result<Option<usize>, AllocError>
    requires tryable { IsTryable (type_form ty.now) (design_form design.now) }
    requires numbers { EachIsNumber (signature_of (type_form ty.now)) cited.now }
    requires of_type { trials.old ≡ ty.now }
    ensures first { IfOk result (IsFirstPlace (DiffersOn (type_form ty.now) (design_form design.now))
        (histories_at (signature_of (type_form ty.now)) cited.now)) }
    ensures within { IfOk result (λ found. IfSome found (λ place. place + 1 < 2 ^ 64)) }
    ensures of_type { trials.new ≡ ty.now }
{
    for place in 0..cited.len() {
        if trials.differs(alloc, design, cited[place])? {
            return Ok(Some(place));
        }
    }
    Ok(None)
}

/// Reads that the next design is refuted by a history that was cited before.
fn read_again(
    alloc: Global,
    place: usize,
    design: &Design,
    reading: &mut Reading<'_>,
) -> Result<Option<Audit>, AllocError>
    requires accepted { faults_of (design_form design.now) ≡ [] }
    requires cited { place + 1 < 2 ^ 64 }
    requires room { reading.old.lines + length reading.old.left.now < 2 ^ 64 - 1 }
    requires few { reading.old.count < 2 ^ 63 }
    ensures comes { IfOk result (λ fault. (ask : Ask) (sig : Names)
        → IsNext ask (state_at sig reading.old at_design) (design_form design.now)
        → FirstDiffersAt ask.ty (design_form design.now) (histories_at sig reading.old.cited.items) place
        → ComesTo ask (state_at sig reading.old at_design) reading.old.left.now
        (state_at sig reading.new at_design) reading.new.left.now fault) }
    ensures behind { IfOk result (λ fault. fault ≡ None → IsBehind reading.old reading.new 1 1) }
    ensures cited { IfOk result (λ fault. fault ≡ None → reading.new.cited.items ≡ reading.old.cited.items) }
{
    let mut text = Vec::new(alloc);
    push_differs(
        alloc,
        reading.count + 1,
        place as u64 + 1,
        design,
        &mut text,
    )?;
    if let Some(fault) = reading.expect(&text) {
        return Ok(Some(fault));
    }
    reading.count += 1;
    Ok(None)
}

/// Reads that the next design is refuted by the history with a number among all, which is cited from here on.
fn read_newly(
    alloc: Global,
    sig: &Signature,
    number: u64,
    history: &History,
    design: &Design,
    reading: &mut Reading<'_>,
) -> Result<Option<Audit>, AllocError>
    requires accepted { faults_of (design_form design.now) ≡ [] }
    requires numbered { slice_get (histories sig.now) number ≡ Some history.now }
    requires room { reading.old.lines + length reading.old.left.now < 2 ^ 64 - 1 }
    requires few { reading.old.count < 2 ^ 63 }
    ensures comes { IfOk result (λ fault. (ask : Ask) → sig.now ≡ signature_of ask.ty
        → IsNext ask (state_at sig.now reading.old at_design) (design_form design.now)
        → AgreesOn ask.ty (design_form design.now) (histories_at sig.now reading.old.cited.items)
        → IsFirstDifference ask.ty (design_form design.now) (histories_for ask.ty) history.now
        → ComesTo ask (state_at sig.now reading.old at_design) reading.old.left.now
        (state_at sig.now reading.new at_design) reading.new.left.now fault) }
    ensures behind { IfOk result (λ fault. fault ≡ None → IsBehind reading.old reading.new 1 1) }
    ensures cited { IfOk result (λ fault. fault ≡ None → reading.new.cited.items ≡ reading.old.cited.items ++ number ∷ []) }
{
    if let Some(fault) = read_history(alloc, sig, history, reading)? {
        return Ok(Some(fault));
    }
    read_cited(alloc, number, design, reading)
}

/// Reads the line of a history that is cited for the first time.
fn read_history(
    alloc: Global,
    sig: &Signature,
    history: &History,
    reading: &mut Reading<'_>,
) -> Result<Option<Audit>, AllocError>
    requires room { reading.old.lines + length reading.old.left.now < 2 ^ 64 - 1 }
    ensures { IfOk result (IsMet reading.old reading.new (history_line sig.now (length reading.old.cited.items + 1) history.now)) }
{
    let mut text = Vec::new(alloc);
    let number = reading.cited.len() as u64 + 1;
    push_history(alloc, sig, number, history, &mut text)?;
    Ok(reading.expect(&text))
}

/// Reads the line of a design after that of the history with a number among all that it cites.
fn read_cited(
    alloc: Global,
    number: u64,
    design: &Design,
    reading: &mut Reading<'_>,
) -> Result<Option<Audit>, AllocError>
    requires accepted { faults_of (design_form design.now) ≡ [] }
    requires room { reading.old.lines + length reading.old.left.now < 2 ^ 64 - 1 }
    requires few { reading.old.count < 2 ^ 63 }
    ensures comes { IfOk result (λ fault. (ask : Ask) (sig : Names) (history : Citable) → slice_get (histories sig) number ≡ Some history
        → IsNext ask (state_at sig reading.old (cites history)) (design_form design.now)
        → ComesTo ask (state_at sig reading.old (cites history)) reading.old.left.now
        (state_at sig reading.new at_design) reading.new.left.now fault) }
    ensures behind { IfOk result (λ fault. fault ≡ None → IsBehind reading.old reading.new 1 1) }
    ensures cited { IfOk result (λ fault. fault ≡ None → reading.new.cited.items ≡ reading.old.cited.items ++ number ∷ []) }
{
    let mut text = Vec::new(alloc);
    let cited = reading.cited.len() as u64 + 1;
    push_differs(alloc, reading.count + 1, cited, design, &mut text)?;
    if let Some(fault) = reading.expect(&text) {
        return Ok(Some(fault));
    }
    reading.count += 1;
    reading.cited.push(number)?;
    Ok(None)
}
