//! The facts of a condition, stated one after the other.
ghost use Rattle.std.specs.Prelude.{◌≡◌, IfOk, map};
ghost use Rattle.kat_design.specs.Designs.{design_form};
ghost use Rattle.kat_claims.specs.Places.{keys_of, spots_of};
ghost use Rattle.kat_relation.specs.Keys.{conjunct_key};
ghost use Rattle.kat_symbols.specs.Views.{reader_of};
ghost use Rattle.kat_type.specs.Types.{operation_form, query_form, type_form};
ghost use Rattle.kat_vc.specs.Conditions.{answers_stated, claim_at, condition_stated, kept_stated, start_stated, state_stated, step_stated};
ghost use Rattle.kat_claims.specs.Groups.{keys_stated, order_stated, relation_stated};
ghost use Rattle.kat_vc.specs.Numbered.{condition_of};
ghost use Rattle.kat_claims.specs.States.{old_side};
ghost use Rattle.kat_vc.specs.Steps.{after_side};

use crate::by_number::Condition;
use crate::keys::state_keys;
use crate::steps::AfterSide;
use kat_claims::{
    OldSide, StartSide, all_looked_at, all_natural, answers_of, claim_read, keys_of, last_read,
    natural_claim, spots_of, start_read, state_denied, state_naturals, state_order, state_relation,
};
use kat_design::Design;
use kat_num::Sort;
use kat_relation::{Conjunct, conjunct_key};
use kat_symbols::{Instance, ReadSide, Reader};
use kat_type::{Param, Query};
use std::alloc::{AllocError, Global};

/// The facts of a condition.
pub(crate) fn state_condition(
    alloc: Global,
    reader: &mut Reader,
    old: &OldSide<'_>,
    conjuncts: &[Conjunct],
    condition: &Condition<'_>,
) -> Result<(), AllocError>
    ensures { IfOk result (λ u. reader_of reader.new ≡ condition_stated (type_form old.now.ty.now)
        (design_form old.now.design.now) conjuncts.now (condition_of condition.now) (reader_of reader.old)) }
{
    match condition {
        Condition::Start(claim) => state_start(alloc, reader, old, claim),
        Condition::Step { number, op, claim } => {
            let after = AfterSide {
                old: *old,
                number: *number,
                op,
            };
            state_step(alloc, reader, &after, conjuncts, claim)
        }
        Condition::Answers { number, query } => {
            state_answers(alloc, reader, old, conjuncts, *number, query)
        }
    }
}

/// What is known of any state before an operation or a query: the start, the sorts, and the last operation.
fn state_known(
    alloc: Global,
    reader: &mut Reader,
    old: &OldSide<'_>,
    claim: Option<Sort>,
    params: &[Param],
) -> Result<(), AllocError>
    ensures { IfOk result (λ u. reader_of reader.new ≡ state_stated (type_form old.now.ty.now)
        (design_form old.now.design.now) claim params.now (reader_of reader.old)) }
{
    let spots = spots_of(alloc, old.ty, old.design)?;
    let keys = keys_of(alloc, claim, params)?;
    let seen = all_looked_at(alloc, &spots, &keys)?;
    let start = StartSide {
        ty: old.ty,
        design: old.design,
    };
    let fact = start_read(alloc, reader, old, &start, &seen)?;
    reader.state(fact)?;
    let naturals = all_natural(alloc, old.ty, old.design, claim, params)?;
    state_naturals(alloc, reader, &naturals)?;
    let last = last_read(alloc, reader, old.ty.ops.as_slice())?;
    reader.state(last)
}

/// What keys have in common before the operation, and the relation on a side.
fn state_kept<S: ReadSide>(
    alloc: Global,
    reader: &mut Reader,
    old: &OldSide<'_>,
    side: &S,
    conjuncts: &[Conjunct],
    claim: Option<Sort>,
    params: &[Param],
) -> Result<(), AllocError>
    ensures { let ty = type_form old.now.ty.now in
        let design = design_form old.now.design.now in
        let keys = keys_of claim params.now in
        let tied = keys_stated (old_side ty design) (spots_of ty design) keys (reader_of reader.old) in
        IfOk result (λ u. reader_of reader.new ≡ relation_stated ty design (S.side side.now) keys conjuncts.now tied) }
{
    let spots = spots_of(alloc, old.ty, old.design)?;
    let keys = keys_of(alloc, claim, params)?;
    state_keys(alloc, reader, old, &spots, &keys)?;
    state_relation(alloc, reader, old, side, &keys, conjuncts)
}

/// A conjunct holds at the start.
fn state_start(
    alloc: Global,
    reader: &mut Reader,
    old: &OldSide<'_>,
    claim: &Conjunct,
) -> Result<(), AllocError>
    ensures { let ty = type_form old.now.ty.now in
        let design = design_form old.now.design.now in
        let key = conjunct_key ty design.components claim.now in
        IfOk result (λ u. reader_of reader.new ≡ start_stated ty design claim.now key (reader_of reader.old)) }
{
    let key = conjunct_key(old.ty, old.design, claim);
    let naturals = natural_claim(alloc, key)?;
    state_naturals(alloc, reader, &naturals)?;
    let start = StartSide {
        ty: old.ty,
        design: old.design,
    };
    let held = claim_read(alloc, reader, old, &start, claim, claim_at(key))?;
    state_denied(alloc, reader, &held)
}

/// What is known before an operation, of the operation, and of the relation.
fn state_before(
    alloc: Global,
    reader: &mut Reader,
    after: &AfterSide<'_>,
    conjuncts: &[Conjunct],
    key: Option<Sort>,
) -> Result<(), AllocError>
    ensures { let ty = type_form after.now.old.ty.now in
        let design = design_form after.now.old.design.now in
        let op = after.now.op.now in
        let known = state_stated ty design key op.params (reader_of reader.old) in
        let ordered = order_stated (after_side ty design after.now.number (operation_form op)) (old_side ty design) op.ranks known in
        IfOk result (λ u. reader_of reader.new ≡ kept_stated ty design conjuncts.now key op.params ordered) }
{
    let params = after.op.params.as_slice();
    state_known(alloc, reader, &after.old, key, params)?;
    state_order(alloc, reader, after, &after.old, after.op.ranks.as_slice())?;
    let before = after.old;
    state_kept(alloc, reader, &after.old, &before, conjuncts, key, params)
}

/// An operation keeps a conjunct.
fn state_step(
    alloc: Global,
    reader: &mut Reader,
    after: &AfterSide<'_>,
    conjuncts: &[Conjunct],
    claim: &Conjunct,
) -> Result<(), AllocError>
    ensures { let ty = type_form after.now.old.ty.now in
        let design = design_form after.now.old.design.now in
        let key = conjunct_key ty design.components claim.now in
        IfOk result (λ u. reader_of reader.new ≡ step_stated ty design conjuncts.now after.now.number
        (operation_form after.now.op.now) claim.now key (reader_of reader.old)) }
{
    let key = conjunct_key(after.old.ty, after.old.design, claim);
    state_before(alloc, reader, after, conjuncts, key)?;
    let held = claim_read(alloc, reader, &after.old, after, claim, claim_at(key))?;
    state_denied(alloc, reader, &held)
}

/// A query has the same answers on both sides.
fn state_answers(
    alloc: Global,
    reader: &mut Reader,
    old: &OldSide<'_>,
    conjuncts: &[Conjunct],
    number: u32,
    query: &Query,
) -> Result<(), AllocError>
    ensures { IfOk result (λ u. reader_of reader.new ≡ answers_stated (type_form old.now.ty.now)
        (design_form old.now.design.now) conjuncts.now number (query_form query.now) (reader_of reader.old)) }
{
    let params = query.params.as_slice();
    state_known(alloc, reader, old, None, params)?;
    let before = *old;
    state_kept(alloc, reader, old, &before, conjuncts, None, params)?;
    let asks = old.design.asks.as_slice();
    let same = answers_of(alloc, reader, old, None, query, asks, number)?;
    state_denied(alloc, reader, &same)
}

/// Where a claim is looked at.
fn claim_at(claim: Option<Sort>) -> Option<Instance>
    ensures { result ≡ claim_at claim }
{
    match claim {
        None => None,
        Some(_) => Some(Instance::Claim),
    }
}
