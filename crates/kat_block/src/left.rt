//! Candidates that are left while others are dropped.
ghost use Rattle.std.specs.Prelude.{◌≡◌, ◌++◌, ◌∷◌, [], IfOk, option_map, slice_get};
ghost use Rattle.std.specs.List.{cons_option};
ghost use Rattle.kat_candidate.specs.Candidates.{AreCandidates};
ghost use Rattle.kat_design.specs.Designs.{design_form};
ghost use Rattle.kat_type.specs.Types.{type_form};
ghost use Rattle.kat_block.specs.Left.{IsBlock, conjuncts_of, numbers_from, without};

use kat_candidate::candidates;
use kat_design::Design;
use kat_num::Items;
use kat_relation::{Conjunct, Relation};
use kat_type::SeqType;
use std::alloc::{AllocError, Global};

/// The candidates of a design, the numbers of those that are dropped, in the order in which they were, and those that are left.
#[derive(Drop)]
pub struct Block {
    pub candidates: Relation,
    pub dropped: Vec<u128>,
    pub numbers: Vec<u64>,
    pub left: Relation,
}

/// As many candidates as there may be.
const MOST_CANDIDATES: usize = 1 << 28;

impl Block {
    /// All candidates of a type and a design. More than 2^28 are answered as out of memory.
    pub fn new(alloc: Global, ty: &SeqType, design: &Design) -> Result<Block, AllocError>
        ensures candidates { IfOk result (λ block. AreCandidates (type_form ty.now) (design_form design.now) block.candidates.conjuncts) }
        ensures none { IfOk result (λ block. block.dropped.items ≡ []) }
        ensures block { IfOk result IsBlock }
    {
        let candidates = candidates(alloc, ty, design)?;
        let count = candidates.conjuncts.as_slice().len();
        if count > MOST_CANDIDATES {
            return Err(AllocError);
        }
        let numbers = numbers_below(alloc, count)?;
        let left = relation_of(alloc, candidates.conjuncts.as_slice(), &numbers)?;
        Ok(Block {
            candidates,
            dropped: Vec::new(alloc),
            numbers,
            left,
        })
    }

    /// The candidate with a number is dropped.
    pub fn without(self, alloc: Global, number: u128) -> Result<Block, AllocError>
        requires { IsBlock self }
        ensures candidates { IfOk result (λ block. block.candidates.conjuncts ≡ self.candidates.conjuncts) }
        ensures dropped { IfOk result (λ block. block.dropped.items ≡ self.dropped.items ++ number ∷ []) }
        ensures block { IfOk result IsBlock }
    {
        let numbers = without(alloc, &self.numbers, number)?;
        let left = relation_of(alloc, self.candidates.conjuncts.as_slice(), &numbers)?;
        let dropped = with_number(self.dropped, number)?;
        Ok(Block {
            candidates: self.candidates,
            dropped,
            numbers,
            left,
        })
    }
}

fn with_number(numbers: Vec<u128>, number: u128) -> Result<Vec<u128>, AllocError>
    ensures { IfOk result (λ longer. longer.items ≡ numbers.items ++ number ∷ []) }
{
    let mut longer = numbers;
    longer.push(number)?;
    Ok(longer)
}

/// The numbers below a count.
fn numbers_below(alloc: Global, count: usize) -> Result<Vec<u64>, AllocError>
    ensures { IfOk result (λ numbers. numbers.items ≡ numbers_from 0 count) }
{
    let mut numbers = Vec::new(alloc);
    for i in 0..count {
        numbers.push(i as u64)?;
    }
    Ok(numbers)
}

/// The relation of the candidates with some numbers.
fn relation_of(
    alloc: Global,
    candidates: &[Conjunct],
    numbers: &[u64],
) -> Result<Relation, AllocError>
    ensures { IfOk result (λ relation. relation.conjuncts ≡ conjuncts_of candidates.now numbers.now) }
{
    let conjuncts = conjuncts_of(alloc, candidates, numbers)?;
    Ok(Relation {
        conjuncts: Items::from_vec(conjuncts),
    })
}

fn conjuncts_of(
    alloc: Global,
    candidates: &[Conjunct],
    numbers: &[u64],
) -> Result<Vec<Conjunct>, AllocError>
    ensures { IfOk result (λ conjuncts. conjuncts.items ≡ conjuncts_of candidates.now numbers.now) }
{
    let mut conjuncts = Vec::new(alloc);
    for number in numbers {
        let candidate = candidate_at(candidates, *number);
        push_copy(alloc, candidate, &mut conjuncts)?;
    }
    Ok(conjuncts)
}

fn candidate_at(candidates: &[Conjunct], number: u64) -> Option<&Conjunct>
    ensures { option_map (λ candidate. candidate.now) result ≡ slice_get candidates.now number }
{
    candidates.get(number as usize)
}

fn push_copy(
    alloc: Global,
    candidate: Option<&Conjunct>,
    into: &mut Vec<Conjunct>,
) -> Result<(), AllocError>
    ensures { IfOk result (λ u. into.new.items ≡ into.old.items ++ cons_option (option_map (λ c. c.now) candidate.entry) []) }
{
    match candidate {
        None => Ok(()),
        Some(candidate) => {
            let copy = candidate.copy(alloc)?;
            into.push(copy)?;
            Ok(())
        }
    }
}

/// The numbers except for one.
fn without(alloc: Global, numbers: &[u64], number: u128) -> Result<Vec<u64>, AllocError>
    ensures { IfOk result (λ others. others.items ≡ without number numbers.now) }
{
    let mut others = Vec::new(alloc);
    for n in numbers {
        if number == u128::from(*n) {
            continue;
        }
        others.push(*n)?;
    }
    Ok(others)
}
