//! Conditions: how many there are, their facts, and their encodings.
ghost use Rattle.std.specs.Prelude.{◌≡◌, ◌≤◌, ◌^◌, IfOk, length};
ghost use Rattle.std.specs.List.{All};
ghost use Rattle.kat_design.specs.Designs.{design_form};
ghost use Rattle.kat_form.specs.Encodings.{encoding, IsBelow, IsFit, StandOnce};
ghost use Rattle.kat_form.specs.Facts.{facts_of};
ghost use Rattle.kat_form.specs.Readings.{encoding_of, numbers_of_facts};
ghost use Rattle.kat_type.specs.Limits.{item_limit};
ghost use Rattle.kat_type.specs.Types.{type_form};
ghost use Rattle.kat_vc.specs.Conditions.{condition_count, facts_of_condition};

use crate::by_number::numbered;
use crate::statements::state_condition;
use kat_claims::OldSide;
use kat_design::Design;
use kat_form::{Encoded, Formula, are_sized, clauses_of};
use kat_relation::Relation;
use kat_symbols::Reader;
use kat_type::SeqType;
use std::alloc::{AllocError, Global};

/// How many conditions a relation has: one for each conjunct at the start, one for each operation and conjunct, and one
/// for each query.
pub fn condition_count(ty: &SeqType, relation: &Relation) -> u32
    requires few { length relation.now.conjuncts ≤ 2 ^ 28 }
    requires ops { length ty.now.ops ≤ item_limit }
    requires queries { length ty.now.queries ≤ item_limit }
    ensures { result ≡ condition_count (type_form ty.now) relation.now.conjuncts }
{
    let conjuncts = relation.conjuncts.as_slice().len() as u32;
    let ops = ty.ops.as_slice().len() as u32;
    let queries = ty.queries.as_slice().len() as u32;
    conjuncts + ops * conjuncts + queries
}

/// The facts of the condition with a number: if they hold together at no state, the condition holds. Numbers begin
/// at 1, and 0 is read as 1. A condition past the last has no facts.
pub fn facts(
    alloc: Global,
    ty: &SeqType,
    design: &Design,
    relation: &Relation,
    k: u32,
) -> Result<Vec<Formula>, AllocError>
    ensures { IfOk result (λ facts. facts_of facts.items ≡ facts_of_condition (type_form ty.now)
        (design_form design.now) relation.now.conjuncts k) }
{
    let mut reader = Reader::new(alloc);
    let old = OldSide { ty, design };
    let conjuncts = relation.conjuncts.as_slice();
    if let Some(condition) = numbered(ty, conjuncts, k)? {
        state_condition(alloc, &mut reader, &old, conjuncts, &condition)?;
    }
    Ok(reader.facts)
}

/// The encoding of the facts of the condition with a number. Lines that refute it show that the condition holds.
/// Numbers begin at 1, and 0 is read as 1. A condition past the last has no facts, and no lines refute it.
///
/// A condition with a number past the limits of rows is answered as out of memory.
pub fn condition(
    alloc: Global,
    ty: &SeqType,
    design: &Design,
    relation: &Relation,
    k: u32,
) -> Result<Encoded, AllocError>
    ensures is { IfOk result (λ encoded. encoding encoded ≡ encoding_of
        (facts_of_condition (type_form ty.now) (design_form design.now) relation.now.conjuncts k)) }
    ensures fit { IfOk result (λ encoded. IsFit (encoding encoded)) }
    ensures numbers { IfOk result (λ encoded. encoded.numbers ≡ numbers_of_facts
        (facts_of_condition (type_form ty.now) (design_form design.now) relation.now.conjuncts k)) }
    ensures below { IfOk result (λ encoded. All (IsBelow encoded.numbers) (encoding encoded).senses) }
    ensures once { IfOk result (λ encoded. StandOnce (encoding encoded).senses) }
    ensures few { IfOk result (λ encoded. length (encoding encoded).senses ≤ 2 ^ 28) }
{
    let facts = facts(alloc, ty, design, relation, k)?;
    encoded(alloc, &facts)
}

/// The encoding of formulas, if their numbers are in range.
fn encoded(alloc: Global, facts: &[Formula]) -> Result<Encoded, AllocError>
    ensures is { IfOk result (λ encoded. encoding encoded ≡ encoding_of (facts_of facts.now)) }
    ensures fit { IfOk result (λ encoded. IsFit (encoding encoded)) }
    ensures numbers { IfOk result (λ encoded. encoded.numbers ≡ numbers_of_facts (facts_of facts.now)) }
    ensures below { IfOk result (λ encoded. All (IsBelow encoded.numbers) (encoding encoded).senses) }
    ensures once { IfOk result (λ encoded. StandOnce (encoding encoded).senses) }
    ensures few { IfOk result (λ encoded. length (encoding encoded).senses ≤ 2 ^ 28) }
{
    if !are_sized(facts) {
        return Err(AllocError);
    }
    let encoded = clauses_of(alloc, facts)?;
    if !encoded.is_fit() {
        return Err(AllocError);
    }
    Ok(encoded)
}
