//! Facts that conditions state, group by group: the start, the sorts, the last operation, the order of operations, the
//! relation, and the claim, denied. A call that reads gives a formula, and leaves it to the caller to state it; one that states adds
//! to what the reader has stated. The only error is out of memory, which numbers that are too great give too; nothing is said of the reader
//! after it.
ghost use Rattle.std.specs.Prelude.{◌≡◌, ◌∷◌, [], IfOk, map};
ghost use Rattle.kat_design.specs.Designs.{design_form};
ghost use Rattle.kat_form.specs.Facts.{fact_of, facts_of};
ghost use Rattle.kat_type.specs.Types.{operation_form, type_form};
ghost use Rattle.kat_claims.specs.Groups.{apart_read, at_least, claim_each, conjunct_stated, denied_claim, digit_read, elements_match, equal_read, last_read, naturals_stated, order_read, order_stated, rank_match, ranks_match, ranks_read, relation_stated, same_each, same_read, stamp_stated, start_read, stated};
ghost use Rattle.kat_claims.specs.States.{old_side, start_side};
ghost use Rattle.kat_symbols.specs.Views.{behind, pairs_form, reader_of, GivesFact};

use crate::claims::{claim_read, neither};
use crate::effects::sum;
use crate::keys::looked_at;
use crate::states::{OldSide, StartSide};
use kat_form::Formula;
use kat_num::Sort;
use kat_relation::{Conjunct, conjunct_key};
use kat_symbols::{
    Instance, Name, Place, ReadSide, Reader, Symbol, all, any, at_most, both, denied, either,
    numeral, same, symbol_same, symbols_less,
};
use kat_type::{Operation, Rank};
use std::alloc::{AllocError, Global};

/// What two sides have at a place and a key is the same.
fn same_on_both<L: ReadSide, R: ReadSide>(
    alloc: Global,
    reader: &mut Reader,
    left: &L,
    right: &R,
    place: Place,
    at: Option<Instance>,
) -> Result<Formula, AllocError>
    ensures { GivesFact (same_read (L.side left.now) (R.side right.now) place at (reader_of reader.old)) result (reader_of reader.new) }
{
    let x = left.value(alloc, reader, place, at)?;
    let y = right.value(alloc, reader, place, at)?;
    symbol_same(alloc, &x, &y)
}

/// The start: there is a last operation, or all that is seen, each place at its key, has its start value.
pub fn start_read(
    alloc: Global,
    reader: &mut Reader,
    old: &OldSide<'_>,
    start: &StartSide<'_>,
    seen: &[(Place, Option<Instance>)],
) -> Result<Formula, AllocError>
    ensures { GivesFact (start_read (old_side (type_form old.now.ty.now) (design_form old.now.design.now))
        (start_side (type_form start.now.ty.now) (design_form start.now.design.now)) seen.now (reader_of reader.old)) result
        (reader_of reader.new) }
{
    let begun = old.begun(reader)?;
    let mut parts = Vec::new(alloc);
    push_same_each(alloc, reader, old, start, seen, &mut parts)?;
    either(alloc, begun, all(parts))
}

/// Two sides have the same at places and keys.
fn push_same_each<L: ReadSide, R: ReadSide>(
    alloc: Global,
    reader: &mut Reader,
    left: &L,
    right: &R,
    seen: &[(Place, Option<Instance>)],
    parts: &mut Vec<Formula>,
) -> Result<(), AllocError>
    ensures { IfOk result (λ u. behind (facts_of parts.old.items)
        (same_each (L.side left.now) (R.side right.now) seen.now (reader_of reader.old))
        ≡ (facts_of parts.new.items, reader_of reader.new)) }
{
    match seen {
        [] => Ok(()),
        [(place, at), more @ ..] => {
            let same = same_on_both(alloc, reader, left, right, *place, *at)?;
            parts.push(same)?;
            push_same_each(alloc, reader, left, right, more, parts)
        }
    }
}

/// What a name stands for is at least a number.
fn at_least(
    alloc: Global,
    reader: &mut Reader,
    least: u32,
    name: Name,
) -> Result<Formula, AllocError>
    ensures { GivesFact (at_least least name (reader_of reader.old)) result (reader_of reader.new) }
{
    let row = reader.read_name(alloc, name)?;
    at_most(alloc, &numeral(alloc, i128::from(least)), &row)
}

/// States the sorts: what each of these names stands for is at least 0.
pub fn state_naturals(alloc: Global, reader: &mut Reader, names: &[Name]) -> Result<(), AllocError>
    ensures { IfOk result (λ u. reader_of reader.new ≡ naturals_stated names.now (reader_of reader.old)) }
{
    for name in names {
        let fact = at_least(alloc, reader, 0, *name)?;
        reader.state(fact)?;
    }
    Ok(())
}

/// Two names stand for the same number.
pub fn equal_read(
    alloc: Global,
    reader: &mut Reader,
    a: Name,
    b: Name,
) -> Result<Formula, AllocError>
    ensures { GivesFact (equal_read a b (reader_of reader.old)) result (reader_of reader.new) }
{
    let x = reader.read_name(alloc, a)?;
    let y = reader.read_name(alloc, b)?;
    same(alloc, &x, &y)
}

/// An element of the last rank is a digit.
fn digit_read(
    alloc: Global,
    reader: &mut Reader,
    position: u32,
    digit: u8,
) -> Result<Formula, AllocError>
    ensures { GivesFact (digit_read position digit (reader_of reader.old)) result (reader_of reader.new) }
{
    let x = reader.read_name(alloc, Name::Element(position))?;
    same(alloc, &x, &numeral(alloc, i128::from(digit)))
}

/// An element of the last rank is as an operation's rank says; if that names an argument, nothing is said.
fn push_element_match(
    alloc: Global,
    reader: &mut Reader,
    position: u32,
    rank: Rank,
    parts: &mut Vec<Formula>,
) -> Result<(), AllocError>
    ensures { IfOk result (λ u. behind (facts_of parts.old.items) (elements_match position (rank ∷ []) (reader_of reader.old))
        ≡ (facts_of parts.new.items, reader_of reader.new)) }
{
    match rank {
        Rank::Digit(digit) => {
            let fact = digit_read(alloc, reader, position, digit)?;
            parts.push(fact)?;
            Ok(())
        }
        Rank::Time => {
            let fact = equal_read(alloc, reader, Name::Element(position), Name::LastTime)?;
            parts.push(fact)?;
            Ok(())
        }
        Rank::Replica => {
            let fact = equal_read(alloc, reader, Name::Element(position), Name::LastReplica)?;
            parts.push(fact)?;
            Ok(())
        }
        Rank::Arg(_) => Ok(()),
    }
}

/// Elements of the last rank, from a position on, are as an operation's rank says.
fn push_elements_match(
    alloc: Global,
    reader: &mut Reader,
    position: u32,
    ranks: &[Rank],
    parts: &mut Vec<Formula>,
) -> Result<(), AllocError>
    ensures { IfOk result (λ u. behind (facts_of parts.old.items) (elements_match position ranks.now (reader_of reader.old))
        ≡ (facts_of parts.new.items, reader_of reader.new)) }
{
    match ranks {
        [] => Ok(()),
        [rank, more @ ..] => {
            push_element_match(alloc, reader, position, *rank, parts)?;
            push_elements_match(alloc, reader, sum(position, 1)?, more, parts)
        }
    }
}

/// The last rank is that of an operation.
fn rank_matches(alloc: Global, reader: &mut Reader, op: &Operation) -> Result<Formula, AllocError>
    ensures { GivesFact (rank_match (operation_form op.now) (reader_of reader.old)) result (reader_of reader.new) }
{
    let mut parts = Vec::new(alloc);
    push_elements_match(alloc, reader, 0, op.ranks.as_slice(), &mut parts)?;
    Ok(all(parts))
}

/// The last rank is that of one of the operations.
fn push_ranks_match(
    alloc: Global,
    reader: &mut Reader,
    ops: &[Operation],
    parts: &mut Vec<Formula>,
) -> Result<(), AllocError>
    ensures { IfOk result (λ u. behind (facts_of parts.old.items) (ranks_match (map operation_form ops.now) (reader_of reader.old))
        ≡ (facts_of parts.new.items, reader_of reader.new)) }
{
    match ops {
        [] => Ok(()),
        [op, more @ ..] => {
            let shape = rank_matches(alloc, reader, op)?;
            parts.push(shape)?;
            push_ranks_match(alloc, reader, more, parts)
        }
    }
}

/// The last operation: there is none, or its time and replica are at least 1, and it has the rank of some operation.
pub fn last_read(
    alloc: Global,
    reader: &mut Reader,
    ops: &[Operation],
) -> Result<Formula, AllocError>
    ensures { GivesFact (last_read (map operation_form ops.now) (reader_of reader.old)) result (reader_of reader.new) }
{
    let begun = reader.read_flag(Name::Begun)?;
    let time = at_least(alloc, reader, 1, Name::LastTime)?;
    let replica = at_least(alloc, reader, 1, Name::LastReplica)?;
    let mut shapes = Vec::new(alloc);
    push_ranks_match(alloc, reader, ops, &mut shapes)?;
    let known = vec![in alloc; time, replica, any(shapes)]?;
    let not = denied(alloc, &begun)?;
    either(alloc, not, all(known))
}

/// Elements of two sides' ranks, from a position on.
fn push_ranks<L: ReadSide, R: ReadSide>(
    alloc: Global,
    reader: &mut Reader,
    left: &L,
    right: &R,
    position: u32,
    ranks: &[Rank],
    pairs: &mut Vec<(Symbol, Symbol)>,
) -> Result<(), AllocError>
    ensures { IfOk result (λ u. behind (pairs_form pairs.old.items)
        (ranks_read (L.side left.now) (R.side right.now) position ranks.now (reader_of reader.old))
        ≡ (pairs_form pairs.new.items, reader_of reader.new)) }
{
    match ranks {
        [] => Ok(()),
        [_, more @ ..] => {
            let x = left.element(alloc, reader, position)?;
            let y = right.element(alloc, reader, position)?;
            pairs.push((Symbol::Number(x), Symbol::Number(y)))?;
            push_ranks(alloc, reader, left, right, sum(position, 1)?, more, pairs)
        }
    }
}

/// The order: there is no last operation, or the operation's rank isn't less than the last one's.
fn order_read<L: ReadSide, R: ReadSide>(
    alloc: Global,
    reader: &mut Reader,
    after: &L,
    old: &R,
    ranks: &[Rank],
) -> Result<Formula, AllocError>
    ensures { GivesFact (order_read (L.side after.now) (R.side old.now) ranks.now (reader_of reader.old)) result (reader_of reader.new) }
{
    let begun = old.begun(reader)?;
    let mut pairs = Vec::new(alloc);
    push_ranks(alloc, reader, after, old, 0, ranks, &mut pairs)?;
    let less = symbols_less(alloc, &pairs)?;
    neither(alloc, &begun, &less)
}

/// There is no last operation, or it doesn't have both the time and the replica of the operation.
fn apart_read(alloc: Global, reader: &mut Reader) -> Result<Formula, AllocError>
    ensures { GivesFact (apart_read (reader_of reader.old)) result (reader_of reader.new) }
{
    let begun = reader.read_flag(Name::Begun)?;
    let time = equal_read(alloc, reader, Name::Time, Name::LastTime)?;
    let replica = equal_read(alloc, reader, Name::Replica, Name::LastReplica)?;
    let same = both(alloc, time, replica)?;
    neither(alloc, &begun, &same)
}

/// The operation's time and replica are at least 1.
fn state_stamp(alloc: Global, reader: &mut Reader) -> Result<(), AllocError>
    ensures { IfOk result (λ u. reader_of reader.new ≡ stamp_stated (reader_of reader.old)) }
{
    let time = at_least(alloc, reader, 1, Name::Time)?;
    reader.state(time)?;
    let replica = at_least(alloc, reader, 1, Name::Replica)?;
    reader.state(replica)
}

/// The operation's rank isn't less than the last one's.
fn state_ranks<L: ReadSide, R: ReadSide>(
    alloc: Global,
    reader: &mut Reader,
    after: &L,
    old: &R,
    ranks: &[Rank],
) -> Result<(), AllocError>
    ensures { IfOk result (λ u. reader_of reader.new ≡ stated (order_read (L.side after.now) (R.side old.now) ranks.now
        (reader_of reader.old))) }
{
    let order = order_read(alloc, reader, after, old, ranks)?;
    reader.state(order)
}

/// The operation is another than the last one.
fn state_apart(alloc: Global, reader: &mut Reader) -> Result<(), AllocError>
    ensures { IfOk result (λ u. reader_of reader.new ≡ stated (apart_read (reader_of reader.old))) }
{
    let apart = apart_read(alloc, reader)?;
    reader.state(apart)
}

/// States that the operation's time and replica are at least 1, and that it may follow the last one: its rank, which has these
/// elements, isn't less, and it is another.
pub fn state_order<L: ReadSide, R: ReadSide>(
    alloc: Global,
    reader: &mut Reader,
    after: &L,
    old: &R,
    ranks: &[Rank],
) -> Result<(), AllocError>
    ensures { IfOk result (λ u. reader_of reader.new ≡ order_stated (L.side after.now) (R.side old.now) ranks.now (reader_of reader.old)) }
{
    state_stamp(alloc, reader)?;
    state_ranks(alloc, reader, after, old, ranks)?;
    state_apart(alloc, reader)
}

/// A conjunct at each of its keys.
fn state_claims<S: ReadSide>(
    alloc: Global,
    reader: &mut Reader,
    old: &OldSide<'_>,
    side: &S,
    conjunct: &Conjunct,
    ats: &[Option<Instance>],
) -> Result<(), AllocError>
    ensures { IfOk result (λ u. reader_of reader.new ≡ claim_each (type_form old.now.ty.now) (design_form old.now.design.now)
        (S.side side.now) conjunct.now ats.now (reader_of reader.old)) }
{
    for at in ats {
        let fact = claim_read(alloc, reader, old, side, conjunct, *at)?;
        reader.state(fact)?;
    }
    Ok(())
}

/// A conjunct, wherever a condition looks at it.
fn state_conjunct<S: ReadSide>(
    alloc: Global,
    reader: &mut Reader,
    old: &OldSide<'_>,
    side: &S,
    keys: &[(Sort, Instance)],
    conjunct: &Conjunct,
) -> Result<(), AllocError>
    ensures { IfOk result (λ u. reader_of reader.new ≡ conjunct_stated (type_form old.now.ty.now) (design_form old.now.design.now)
        (S.side side.now) keys.now conjunct.now (reader_of reader.old)) }
{
    let key = conjunct_key(old.ty, old.design, conjunct);
    let ats = looked_at(alloc, key, keys)?;
    state_claims(alloc, reader, old, side, conjunct, &ats)
}

/// States the relation on a side: each conjunct, at each key of its sort.
pub fn state_relation<S: ReadSide>(
    alloc: Global,
    reader: &mut Reader,
    old: &OldSide<'_>,
    side: &S,
    keys: &[(Sort, Instance)],
    conjuncts: &[Conjunct],
) -> Result<(), AllocError>
    ensures { IfOk result (λ u. reader_of reader.new ≡ relation_stated (type_form old.now.ty.now) (design_form old.now.design.now)
        (S.side side.now) keys.now conjuncts.now (reader_of reader.old)) }
{
    for conjunct in conjuncts {
        state_conjunct(alloc, reader, old, side, keys, conjunct)?;
    }
    Ok(())
}

/// States the claim, denied.
pub fn state_denied(alloc: Global, reader: &mut Reader, claim: &Formula) -> Result<(), AllocError>
    ensures { IfOk result (λ u. reader_of reader.new ≡ denied_claim (fact_of claim.now, reader_of reader.old)) }
{
    let opposite = denied(alloc, claim)?;
    reader.state(opposite)
}
