//! Judging the block of an undecided design.
ghost use Rattle.std.specs.Prelude.{◌≡◌, ◌+◌, ◌<◌, ◌≤◌, ◌++◌, ◌-◌, ◌^◌, [], IfOk, List, MatchOption, None, length, ℕ};
ghost use Rattle.kat_block.specs.Blocks.{conjunct_in};
ghost use Rattle.kat_block.specs.Left.{IsBlock};
ghost use Rattle.kat_design.specs.Designs.{design_form};
ghost use Rattle.kat_design.specs.Faults.{faults_of};
ghost use Rattle.kat_said.specs.Sayings.{said_form};
ghost use Rattle.kat_type.specs.Limits.{item_limit};
ghost use Rattle.kat_type.specs.Types.{type_form};
ghost use Rattle.kat_due.specs.Differences.{AgreesOn, histories_for};
ghost use Rattle.kat_due.specs.Dues.{Ask, IsNext};
ghost use Rattle.kat_due.specs.Dues.Phase.{at_design, in_block};
ghost use Rattle.kat_due.specs.Readings.{ComesTo, DropsAt, IsAskedOf, IsBehind, IsCut, IsEnding, IsMet, IsToldIn, IsTryable, histories_at, state_at};
ghost use Rattle.kat_due.specs.Texts.{begin_line};

use kat_block::{Block, judge_said};
use kat_design::Design;
use kat_due::{Reading, push_begin};
use kat_said::{Audit, Place, Said, Step, read_said};
use kat_type::{SeqType, Signature};
use std::alloc::{AllocError, Global};

/// Reads the block of the next design, which differs on no history.
pub(crate) fn read_block(
    alloc: Global,
    ty: &SeqType,
    sig: &Signature,
    effort: u32,
    design: &Design,
    reading: &mut Reading<'_>,
) -> Result<Option<Audit>, AllocError>
    requires ops { length ty.now.ops ≤ item_limit }
    requires queries { length ty.now.queries ≤ item_limit }
    requires tryable { IsTryable (type_form ty.now) (design_form design.now) }
    requires room { reading.old.lines + length reading.old.left.now < 2 ^ 64 - 1 }
    requires few { reading.old.count < 2 ^ 63 }
    requires few_passed { reading.old.passed < 2 ^ 63 }
    ensures comes { IfOk result (λ fault. (ask : Ask) → IsAskedOf ask (type_form ty.now) effort
        → IsNext ask (state_at sig.now reading.old at_design) (design_form design.now)
        → AgreesOn (type_form ty.now) (design_form design.now) (histories_at sig.now reading.old.cited.items)
        → AgreesOn (type_form ty.now) (design_form design.now) (histories_for (type_form ty.now))
        → ComesTo ask (state_at sig.now reading.old at_design) reading.old.left.now
        (state_at sig.now reading.new at_design) reading.new.left.now fault) }
    ensures behind { IfOk result (λ fault. fault ≡ None → IsBehind reading.old reading.new 1 1) }
    ensures cited { IfOk result (λ fault. fault ≡ None → reading.new.cited.items ≡ reading.old.cited.items) }
{
    if let Some(fault) = read_begin(alloc, design, reading)? {
        return Ok(Some(fault));
    }
    let block = Block::new(alloc, ty, design)?;
    read_lines(alloc, ty, sig, effort, design, block, reading)
}

/// Reads the first line of a block.
fn read_begin(
    alloc: Global,
    design: &Design,
    reading: &mut Reading<'_>,
) -> Result<Option<Audit>, AllocError>
    requires accepted { faults_of (design_form design.now) ≡ [] }
    requires room { reading.old.lines + length reading.old.left.now < 2 ^ 64 - 1 }
    requires few { reading.old.count < 2 ^ 63 }
    ensures { IfOk result (IsMet reading.old reading.new (begin_line (reading.old.count + 1) (design_form design.now))) }
{
    let mut text = Vec::new(alloc);
    push_begin(alloc, reading.count + 1, design, &mut text)?;
    Ok(reading.expect(&text))
}

/// Reads the further lines of a block, to the one that ends it.
fn read_lines(
    alloc: Global,
    ty: &SeqType,
    sig: &Signature,
    effort: u32,
    design: &Design,
    first: Block,
    reading: &mut Reading<'_>,
) -> Result<Option<Audit>, AllocError>
    requires ops { length ty.now.ops ≤ item_limit }
    requires queries { length ty.now.queries ≤ item_limit }
    requires block { IsBlock first }
    requires room { reading.old.lines + length reading.old.left.now < 2 ^ 64 - 1 }
    requires few { reading.old.count < 2 ^ 63 }
    requires few_passed { reading.old.passed < 2 ^ 63 }
    ensures comes { IfOk result (λ fault. (ask : Ask) → IsAskedOf ask (type_form ty.now) effort
        → IsNext ask (state_at sig.now reading.old at_design) (design_form design.now)
        → ComesTo ask (state_at sig.now reading.old (in_block first.candidates.conjuncts first.dropped.items)) reading.old.left.now
        (state_at sig.now reading.new at_design) reading.new.left.now fault) }
    ensures behind { IfOk result (λ fault. fault ≡ None → IsBehind reading.old reading.new 1 1) }
    ensures cited { IfOk result (λ fault. fault ≡ None → reading.new.cited.items ≡ reading.old.cited.items) }
{
    let mut block = first;
    'lines: while !reading.left.is_empty() {
        let said = match judge_line(alloc, ty, sig, effort, design, &block, reading)? {
            Ok(said) => said,
            Err(fault) => return Ok(Some(fault)),
        };
        match dropped_place(&said) {
            Some(at) => block = drop_at(alloc, block, at)?,
            None => {
                reading.close(&said);
                return Ok(None);
            }
        }
    }
    Ok(Some(Audit::Bad(reading.lines + 1)))
}

/// Judges the next line of a block: what it says, or the fault.
fn judge_line(
    alloc: Global,
    ty: &SeqType,
    sig: &Signature,
    effort: u32,
    design: &Design,
    block: &Block,
    reading: &mut Reading<'_>,
) -> Result<Result<Said, Audit>, AllocError>
    requires ops { length ty.now.ops ≤ item_limit }
    requires queries { length ty.now.queries ≤ item_limit }
    requires block { IsBlock block.now }
    requires room { reading.old.lines + length reading.old.left.now < 2 ^ 64 - 1 }
    ensures told { IfOk result (λ told. (ask : Ask) → IsAskedOf ask (type_form ty.now) effort
        → IsNext ask (state_at sig.now reading.old at_design) (design_form design.now)
        → IsToldIn ask sig.now block.now.candidates.conjuncts block.now.dropped.items reading.old reading.new told) }
    ensures cut { IfOk result (λ told. IfOk told (λ said. (line : List ℕ) × IsCut reading.old reading.new line)) }
{
    let due = reading.lines + 1;
    let Some(line) = reading.cut_line() else {
        return Ok(Err(Audit::Bad(due)));
    };
    let Some(said) = read_said(alloc, line)? else {
        return Ok(Err(Audit::Bad(due)));
    };
    match judge_said(alloc, ty, design, block, effort, &said)? {
        Step::Due => Ok(Ok(said)),
        Step::Fault => Ok(Err(Audit::Bad(due))),
        Step::Wide => Ok(Err(Audit::WidePoint(due))),
    }
}

/// The place of the candidate that is dropped, if the line drops one.
fn dropped_place(said: &Said) -> Option<Place>
    ensures { MatchOption result (IsEnding (said_form said.now)) (DropsAt (said_form said.now)) }
{
    match said {
        Said::Drop { at, .. } => Some(*at),
        Said::Fail { .. } => None,
        Said::Spent(_) => None,
        Said::Rows { .. } => None,
        Said::Wide { .. } => None,
        Said::Long(_) => None,
    }
}

/// The candidate of a place is dropped.
fn drop_at(alloc: Global, block: Block, at: Place) -> Result<Block, AllocError>
    requires { IsBlock block }
    ensures candidates { IfOk result (λ behind. behind.candidates.conjuncts ≡ block.candidates.conjuncts) }
    ensures dropped { IfOk result (λ behind. behind.dropped.items ≡ block.dropped.items ++ conjunct_in at) }
    ensures block { IfOk result IsBlock }
{
    match at {
        Place::Start(conjunct) => block.without(alloc, conjunct),
        Place::Step { conjunct, .. } => block.without(alloc, conjunct),
        Place::Query(_) => Ok(block),
    }
}
