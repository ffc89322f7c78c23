//! Candidates that are kept while others are dropped.
ghost use Rattle.std.specs.Prelude.{◌≡◌, ◌-◌, ◌++◌, ◌∷◌, [], IfOk, length, map, option_map, slice_get, suc};
ghost use Rattle.std.specs.List.{cons_option};
ghost use Rattle.kat_candidate.specs.Places.{conjunct_at};
ghost use Rattle.kat_type.specs.Lists.{Has};
ghost use Rattle.kat_type.specs.Types.{operation_form};
ghost use Rattle.kat_prove.specs.Trials.{Holds, IsShorter, MayDropNext, conjuncts_of, numbers_from, place_at, place_from, trial_form, without};

use kat_candidate::Place1;
use kat_design::Design;
use kat_drop::Drop1;
use kat_num::Items;
use kat_relation::{Conjunct, Relation};
use kat_type::{Operation, SeqType};
use std::alloc::{AllocError, Global};

/// What is proved, with its candidates and the leaves of each walk.
#[derive(Clone, Copy)]
pub(crate) struct Trial<'a> {
    pub ty: &'a SeqType,
    pub design: &'a Design,
    pub candidates: &'a [Conjunct],
    pub effort: u32,
}

/// What is kept: the numbers of the candidates that are left, their relation, and the drops.
#[derive(Drop)]
pub(crate) struct Kept {
    pub numbers: Vec<u32>,
    pub relation: Relation,
    pub drops: Vec<Drop1>,
}

/// All candidates.
pub(crate) fn all_kept(alloc: Global, trial: &Trial<'_>) -> Result<Kept, AllocError>
    ensures { IfOk result (Holds (trial_form trial.now)) }
{
    let numbers = numbers_below(alloc, trial.candidates.len())?;
    let relation = relation_of(alloc, trial.candidates, &numbers)?;
    Ok(Kept {
        numbers,
        relation,
        drops: Vec::new(alloc),
    })
}

/// The numbers below a count. A count past 32 bits is answered as out of memory.
fn numbers_below(alloc: Global, count: usize) -> Result<Vec<u32>, AllocError>
    ensures { IfOk result (λ numbers. numbers.items ≡ numbers_from 0 count) }
{
    let mut numbers = Vec::new(alloc);
    for i in 0..count {
        let n = number(i)?;
        numbers.push(n)?;
    }
    Ok(numbers)
}

fn number(place: usize) -> Result<u32, AllocError>
    ensures { IfOk result (λ n. n ≡ place) }
{
    match u32::try_from(place) {
        Ok(number) => Ok(number),
        Err(_) => Err(AllocError),
    }
}

/// The relation of the candidates with some numbers.
fn relation_of(
    alloc: Global,
    candidates: &[Conjunct],
    numbers: &[u32],
) -> Result<Relation, AllocError>
    ensures { IfOk result (λ relation. relation.conjuncts ≡ conjuncts_of candidates.now numbers.now) }
{
    let conjuncts = conjuncts_of(alloc, candidates, numbers)?;
    Ok(Relation {
        conjuncts: Items::from_vec(conjuncts),
    })
}

fn conjuncts_of(
    alloc: Global,
    candidates: &[Conjunct],
    numbers: &[u32],
) -> Result<Vec<Conjunct>, AllocError>
    ensures { IfOk result (λ conjuncts. conjuncts.items ≡ conjuncts_of candidates.now numbers.now) }
{
    let mut conjuncts = Vec::new(alloc);
    for number in numbers {
        let candidate = candidate_at(candidates, *number);
        push_copy(alloc, candidate, &mut conjuncts)?;
    }
    Ok(conjuncts)
}

fn candidate_at(candidates: &[Conjunct], number: u32) -> Option<&Conjunct>
    ensures { option_map (λ candidate. candidate.now) result ≡ slice_get candidates.now number }
{
    candidates.get(number as usize)
}

fn push_copy(
    alloc: Global,
    candidate: Option<&Conjunct>,
    into: &mut Vec<Conjunct>,
) -> Result<(), AllocError>
    ensures { IfOk result (λ u. into.new.items ≡ into.old.items ++ cons_option (option_map (λ c. c.now) candidate.entry) []) }
{
    match candidate {
        None => Ok(()),
        Some(candidate) => {
            let copy = candidate.copy(alloc)?;
            into.push(copy)?;
            Ok(())
        }
    }
}

/// The numbers except for one.
fn without(alloc: Global, numbers: &[u32], number: u32) -> Result<Vec<u32>, AllocError>
    ensures { IfOk result (λ others. others.items ≡ without number numbers.now) }
{
    let mut others = Vec::new(alloc);
    for n in numbers {
        if number == *n {
            continue;
        }
        others.push(*n)?;
    }
    Ok(others)
}

/// The place of the condition with a number, from 1.
pub(crate) fn place_of(ty: &SeqType, numbers: &[u32], number: u32) -> Result<Place1, AllocError>
    ensures { IfOk result (λ at. at ≡ place_at (map operation_form ty.now.ops) numbers.now (number - 1)) }
{
    let place = number.saturating_sub(1);
    match number_at(numbers, place) {
        Some(conjunct) => Ok(Place1::Start { conjunct }),
        None => later_place(0, ty.ops.as_slice(), numbers, behind(place, numbers.len())),
    }
}

fn number_at(numbers: &[u32], place: u32) -> Option<u32>
    ensures { result ≡ slice_get numbers.now place }
{
    numbers.get(place as usize).copied()
}

/// How far a place is past this many; 0 if it is among them.
fn behind(place: u32, count: usize) -> u32
    ensures { result ≡ place - count }
{
    match u32::try_from(count) {
        Ok(count) => place.saturating_sub(count),
        Err(_) => 0,
    }
}

/// The place of a condition among those of operations, from one on, and of queries.
fn later_place(op: u32, ops: &[Operation], numbers: &[u32], left: u32) -> Result<Place1, AllocError>
    ensures { IfOk result (λ at. at ≡ place_from op (map operation_form ops.now) numbers.now left) }
{
    match ops {
        [] => Ok(Place1::Query(left)),
        [_, ops @ ..] => match number_at(numbers, left) {
            Some(conjunct) => Ok(Place1::Step { op, conjunct }),
            None => {
                let next = next(op)?;
                later_place(next, ops, numbers, behind(left, numbers.len()))
            }
        },
    }
}

fn next(op: u32) -> Result<u32, AllocError>
    ensures { IfOk result (λ next. next ≡ suc op) }
{
    match op.checked_add(1) {
        Some(next) => Ok(next),
        None => Err(AllocError),
    }
}

/// A condition of the candidate with a number fails: it is dropped.
pub(crate) fn dropped(
    alloc: Global,
    trial: &Trial<'_>,
    kept: Kept,
    number: u32,
    drop: Drop1,
) -> Result<Kept, AllocError>
    requires drop { MayDropNext (trial_form trial.now) kept drop }
    requires number { conjunct_at drop.at ≡ number ∷ [] }
    requires among { Has kept.numbers.items number }
    requires holds { Holds (trial_form trial.now) kept }
    ensures { IfOk result (IsShorter (trial_form trial.now) (length kept.numbers.items)) }
{
    let numbers = without(alloc, &kept.numbers, number)?;
    let relation = relation_of(alloc, trial.candidates, &numbers)?;
    let drops = with_drop(kept.drops, drop)?;
    Ok(Kept {
        numbers,
        relation,
        drops,
    })
}

fn with_drop(drops: Vec<Drop1>, drop: Drop1) -> Result<Vec<Drop1>, AllocError>
    ensures { IfOk result (λ longer. longer.items ≡ drops.items ++ drop ∷ []) }
{
    let mut longer = drops;
    longer.push(drop)?;
    Ok(longer)
}
