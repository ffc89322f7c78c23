//! The condition with a number.
ghost use Rattle.std.specs.Prelude.{◌≡◌, ◌≤◌, ◌-◌, ◌++◌, IfNone, IfOk, length, map, option_map, slice_get};
ghost use Rattle.kat_type.specs.Types.{operation_form, query_form, type_form};
ghost use Rattle.kat_vc.specs.Conditions.{answers_of_each, conditions, steps_of_each};
ghost use Rattle.kat_vc.specs.Numbered.{condition_of};

use kat_claims::{query_at, sum};
use kat_relation::Conjunct;
use kat_type::{Operation, Query, SeqType};
use std::alloc::AllocError;

/// A condition: a conjunct holds at the start, an operation keeps it, or a query has the same answers on both sides.
#[derive(Clone, Copy)]
pub(crate) enum Condition<'a> {
    Start(&'a Conjunct),
    Step {
        number: u32,
        op: &'a Operation,
        claim: &'a Conjunct,
    },
    Answers {
        number: u32,
        query: &'a Query,
    },
}

/// The condition with a number, from 1.
pub(crate) fn numbered<'a>(
    ty: &'a SeqType,
    conjuncts: &'a [Conjunct],
    k: u32,
) -> Result<Option<Condition<'a>>, AllocError>
    ensures { IfOk result (λ condition. option_map condition_of condition
        ≡ slice_get (conditions (type_form ty.now) conjuncts.now) (k - 1)) }
{
    let place = k.saturating_sub(1);
    match claim_with(conjuncts, place) {
        Some(claim) => Ok(Some(Condition::Start(claim))),
        None => {
            let left = behind(place, conjuncts.len());
            later(0, ty.ops.as_slice(), ty.queries.as_slice(), conjuncts, left)
        }
    }
}

/// How far a place is past this many; 0 if it is among them.
fn behind(place: u32, count: usize) -> u32
    ensures { result ≡ place - count }
{
    match u32::try_from(count) {
        Ok(count) => place.saturating_sub(count),
        Err(_) => 0,
    }
}

/// The conjunct with a number.
fn claim_with(conjuncts: &[Conjunct], place: u32) -> Option<&Conjunct>
    ensures found { option_map (λ claim. claim.now) result ≡ slice_get conjuncts.now place }
    ensures past { IfNone result (length conjuncts.now ≤ place) }
{
    conjuncts.get(place as usize)
}

/// The condition at a place among those of the operations from a number on and those of the queries.
fn later<'a>(
    number: u32,
    ops: &'a [Operation],
    queries: &'a [Query],
    conjuncts: &'a [Conjunct],
    place: u32,
) -> Result<Option<Condition<'a>>, AllocError>
    ensures { IfOk result (λ condition. option_map condition_of condition
        ≡ slice_get (steps_of_each number (map operation_form ops.now) conjuncts.now
        ++ answers_of_each 0 (map query_form queries.now)) place) }
{
    match ops {
        [] => Ok(answer(queries, place)),
        [op, more @ ..] => match claim_with(conjuncts, place) {
            Some(claim) => Ok(Some(Condition::Step { number, op, claim })),
            None => {
                let left = behind(place, conjuncts.len());
                let next = sum(number, 1)?;
                later(next, more, queries, conjuncts, left)
            }
        },
    }
}

/// The condition that a query has the same answers.
fn answer(queries: &[Query], place: u32) -> Option<Condition<'_>>
    ensures { option_map condition_of result ≡ slice_get (answers_of_each 0 (map query_form queries.now)) place }
{
    match query_at(queries, place) {
        None => None,
        Some(query) => Some(Condition::Answers {
            number: place,
            query,
        }),
    }
}
