//! Checking a file.
ghost use Rattle.std.specs.Prelude.{◌≡◌, ◌+◌, ◌-◌, ◌<◌, ◌^◌, IfOk, MatchOption};
ghost use Rattle.kat_design.specs.Sorted.{EachHas};
ghost use Rattle.kat_refute.specs.Lines.{IsVerdict, lines_of};
ghost use Rattle.kat_type.specs.Signatures.{signature_of};
ghost use Rattle.kat_type.specs.Types.{type_form};
ghost use Rattle.kat_vc.specs.Conditions.{condition_count};
ghost use Rattle.kat_wire.specs.FileForms.{file_form};
ghost use Rattle.kat_check.specs.Acceptance.{Fits, IsChecked, IsFirstUnfit, encoding_at};

use kat_refute::{ProofLine, Verdict, check_lines};
use kat_relation::{Conjunct, Relation, fits};
use kat_type::SeqType;
use kat_vc::condition;
use kat_wire::DesignFile;
use std::alloc::{AllocError, Global};

/// What is answered of a design file.
#[derive(Debug, Clone, Copy, PartialEq, Eq)]
pub enum Checked {
    /// Each conjunct fits, and each condition has lines that prove it; there is no further list of lines.
    Accepted,
    /// The first fault. A conjunct that doesn't fit the type and the design is condition 0, and the line its number from
    /// 1. Otherwise it is the first condition, from 1, whose lines don't prove it, and the number of its bad line, from 1: 1
    /// if it has no lines. A list too many is that of the condition after the last, line 1.
    Refused { condition: u32, line: u32 },
}

/// The greatest number of lines that are checked: more are more than a memory of today holds.
pub(crate) const LINE_LIMIT: usize = 1 << 28;

/// Checks a design file against its type: the conjuncts in their order, and then the conditions in theirs.
///
/// One condition is in memory at a time. A file with more than 2^28 lines for a condition, or with as many conditions or
/// conjuncts as 32 bits count, is answered as out of memory.
pub fn check(alloc: Global, ty: &SeqType, file: &DesignFile) -> Result<Checked, AllocError>
    requires { signature_of (type_form ty.now) ≡ file.now.design.sig }
    ensures { IfOk result (IsChecked (type_form ty.now) (file_form file.now)) }
{
    match first_unfit(alloc, ty, file)? {
        Some(number) => Ok(Checked::Refused {
            condition: 0,
            line: number,
        }),
        None => check_conditions(alloc, ty, file),
    }
}

/// The number, from 1, of the first conjunct that doesn't fit.
pub(crate) fn first_unfit(
    alloc: Global,
    ty: &SeqType,
    file: &DesignFile,
) -> Result<Option<u32>, AllocError>
    ensures { IfOk result (λ number. MatchOption number (EachHas
        (Fits (type_form ty.now) (file_form file.now)) file.now.relation.conjuncts)
        (IsFirstUnfit (type_form ty.now) (file_form file.now))) }
{
    let conjuncts = file.relation.conjuncts.as_slice();
    for i in 0..conjuncts.len() {
        if !fits(alloc, ty, &file.design, &conjuncts[i])? {
            return Ok(Some(number_of(i)?));
        }
    }
    Ok(None)
}

/// The number from 1 of a place.
fn number_of(place: usize) -> Result<u32, AllocError>
    requires { place < 2 ^ 63 }
    ensures { IfOk result (λ number. number ≡ place + 1) }
{
    match u32::try_from(place + 1) {
        Ok(number) => Ok(number),
        Err(_) => Err(AllocError),
    }
}

/// Checks the conditions, if all conjuncts fit.
fn check_conditions(alloc: Global, ty: &SeqType, file: &DesignFile) -> Result<Checked, AllocError>
    requires { EachHas (Fits (type_form ty.now) (file_form file.now)) file.now.relation.conjuncts }
    ensures { IfOk result (IsChecked (type_form ty.now) (file_form file.now)) }
{
    let count = conditions_of(ty, &file.relation)?;
    let lists = file.proof.as_slice();
    for i in 0..count {
        let k = i + 1;
        let Some(lines) = lists.get(i as usize) else {
            return Ok(Checked::Refused {
                condition: k,
                line: 1,
            });
        };
        if let Verdict::Bad(line) = check_condition(alloc, ty, file, k, lines.as_slice())? {
            return Ok(Checked::Refused { condition: k, line });
        }
    }
    if lists.len() > count as usize {
        return Ok(Checked::Refused {
            condition: count + 1,
            line: 1,
        });
    }
    Ok(Checked::Accepted)
}

/// How many conditions there are. As many as 32 bits count are answered as out of memory.
pub(crate) fn conditions_of(ty: &SeqType, relation: &Relation) -> Result<u32, AllocError>
    ensures count { IfOk result (λ count. count ≡ condition_count (type_form ty.now) relation.now.conjuncts) }
    ensures few { IfOk result (λ count. count < 2 ^ 32 - 1) }
{
    let conjuncts = relation.conjuncts.as_slice().len() as u128;
    let ops = ty.ops.as_slice().len() as u128;
    let queries = ty.queries.as_slice().len() as u128;
    let count = conjuncts + ops * conjuncts + queries;
    if count >= u32::MAX as u128 {
        return Err(AllocError);
    }
    Ok(count as u32)
}

/// Checks the lines of a condition by its number from 1.
fn check_condition(
    alloc: Global,
    ty: &SeqType,
    file: &DesignFile,
    k: u32,
    lines: &[ProofLine],
) -> Result<Verdict, AllocError>
    ensures { IfOk result (IsVerdict (encoding_at (type_form ty.now) (file_form file.now) k) (lines_of lines.now)) }
{
    if lines.len() > LINE_LIMIT {
        return Err(AllocError);
    }
    let encoded = condition(alloc, ty, &file.design, &file.relation, k)?;
    check_lines(alloc, &encoded, lines)
}
