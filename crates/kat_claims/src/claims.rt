//! What a conjunct claims, as a formula on a side.
ghost use Rattle.std.specs.Prelude.{◌≡◌, ◌∷◌, [], IfOk, Some, map, option_map, pos, slice_get};
ghost use Rattle.kat_design.specs.Designs.{ask_form, design_form};
ghost use Rattle.kat_form.specs.Facts.{fact_of, listed};
ghost use Rattle.kat_form.specs.Facts.Fact.{any_of};
ghost use Rattle.kat_type.specs.Types.{query_form, type_form};
ghost use Rattle.kat_claims.specs.Claims.{answers_read, at_least_claim, bounded_claim, claim_read, elements_read, equal_claim, matched_claim, place_of_ref, total_claim};
ghost use Rattle.kat_symbols.specs.Connectives.{denied, fact_le, or_of};
ghost use Rattle.kat_symbols.specs.Sums.{numeral};
ghost use Rattle.kat_linear.specs.Rows.{form_of};
ghost use Rattle.kat_symbols.specs.Views.{behind, pairs_form, reader_of, GivesFact};

use crate::asks::{number_asked, truth_asked};
use crate::effects::sum;
use crate::states::{OldSide, is_truth_sort};
use kat_design::Ask;
use kat_form::Formula;
use kat_linear::Row;
use kat_relation::{Conjunct, LeafRef};
use kat_symbols::{
    Instance, Place, ReadSide, Reader, Symbol, any, at_most, both, denied, either, number_kept,
    number_read, numeral, same, symbol_same, symbols_less, truth_kept, truth_read, truth_same,
};
use kat_type::Query;
use std::alloc::{AllocError, Global};

/// The type and the design answer a query the same.
fn same_answers<S: ReadSide>(
    alloc: Global,
    reader: &mut Reader,
    side: &S,
    at: Option<Instance>,
    query: &Query,
    ask: &Ask,
) -> Result<Formula, AllocError>
    ensures { GivesFact (answers_read (S.side side.now) at (Some (query_form query.now)) (Some (ask_form ask.now)) (reader_of reader.old))
        result (reader_of reader.new) }
{
    if is_truth_sort(query.sort) {
        let wanted = truth_read(alloc, reader, side, at, &query.right)?;
        let given = truth_asked(alloc, reader, side, at, ask)?;
        truth_same(alloc, &wanted, &given)
    } else {
        let wanted = number_read(alloc, reader, side, at, &query.right)?;
        let given = number_asked(alloc, reader, side, at, ask)?;
        same(alloc, &wanted, &given)
    }
}

/// The ask with a number.
fn ask_at(asks: &[Ask], number: u32) -> Option<&Ask>
    ensures { option_map (λ ask. ask_form ask.now) result ≡ slice_get (map ask_form asks.now) number }
{
    asks.get(number as usize)
}

/// The query with a number, if there is one.
pub fn query_at(queries: &[Query], number: u32) -> Option<&Query>
    ensures { option_map (λ query. query_form query.now) result ≡ slice_get (map query_form queries.now) number }
{
    queries.get(number as usize)
}

/// The type and the design answer a query the same, by the ask with a number. Without such an ask it is false.
pub fn answers_of<S: ReadSide>(
    alloc: Global,
    reader: &mut Reader,
    side: &S,
    at: Option<Instance>,
    query: &Query,
    asks: &[Ask],
    number: u32,
) -> Result<Formula, AllocError>
    ensures { GivesFact (answers_read (S.side side.now) at (Some (query_form query.now)) (slice_get (map ask_form asks.now) number)
        (reader_of reader.old)) result (reader_of reader.new) }
{
    match ask_at(asks, number) {
        None => Ok(Formula::False),
        Some(ask) => same_answers(alloc, reader, side, at, query, ask),
    }
}

/// The same, of the query and the ask with one number.
fn answers_read<S: ReadSide>(
    alloc: Global,
    reader: &mut Reader,
    side: &S,
    at: Option<Instance>,
    queries: &[Query],
    asks: &[Ask],
    number: u32,
) -> Result<Formula, AllocError>
    ensures { GivesFact (answers_read (S.side side.now) at (slice_get (map query_form queries.now) number)
        (slice_get (map ask_form asks.now) number) (reader_of reader.old)) result (reader_of reader.new) }
{
    match query_at(queries, number) {
        None => Ok(Formula::False),
        Some(query) => answers_of(alloc, reader, side, at, query, asks, number),
    }
}

/// The place of a leaf that a conjunct names.
fn place_of_ref(leaf: LeafRef) -> Place
    ensures { result ≡ place_of_ref leaf }
{
    Place::Leaf(leaf.component, leaf.leaf)
}

/// An element of the rank and its leaf, whose truth value is a number.
fn push_element<S: ReadSide>(
    alloc: Global,
    reader: &mut Reader,
    side: &S,
    at: Option<Instance>,
    position: u32,
    leaf: LeafRef,
    pairs: &mut Vec<(Symbol, Symbol)>,
) -> Result<(), AllocError>
    ensures { IfOk result (λ u. behind (pairs_form pairs.old.items)
        (elements_read (S.side side.now) at position (leaf ∷ []) (reader_of reader.old))
        ≡ (pairs_form pairs.new.items, reader_of reader.new)) }
{
    let element = side.element(alloc, reader, position)?;
    let value = side.value(alloc, reader, place_of_ref(leaf), at)?;
    let number = reader.as_number(alloc, value)?;
    pairs.push((Symbol::Number(element), Symbol::Number(number)))?;
    Ok(())
}

/// Elements of the rank from a position on, each with its leaf.
fn push_elements<S: ReadSide>(
    alloc: Global,
    reader: &mut Reader,
    side: &S,
    at: Option<Instance>,
    position: u32,
    leaves: &[LeafRef],
    pairs: &mut Vec<(Symbol, Symbol)>,
) -> Result<(), AllocError>
    ensures { IfOk result (λ u. behind (pairs_form pairs.old.items)
        (elements_read (S.side side.now) at position leaves.now (reader_of reader.old))
        ≡ (pairs_form pairs.new.items, reader_of reader.new)) }
{
    match leaves {
        [] => Ok(()),
        [leaf, more @ ..] => {
            push_element(alloc, reader, side, at, position, *leaf, pairs)?;
            push_elements(alloc, reader, side, at, sum(position, 1)?, more, pairs)
        }
    }
}

/// A field is a leaf.
fn equal_read<S: ReadSide>(
    alloc: Global,
    reader: &mut Reader,
    side: &S,
    at: Option<Instance>,
    field: u32,
    leaf: LeafRef,
) -> Result<Formula, AllocError>
    ensures { GivesFact (equal_claim (S.side side.now) at field leaf (reader_of reader.old)) result (reader_of reader.new) }
{
    let kept = side.value(alloc, reader, Place::Field(field), at)?;
    let joined = side.value(alloc, reader, place_of_ref(leaf), at)?;
    symbol_same(alloc, &kept, &joined)
}

/// If there is a last operation, the list of the leaves is at most that of its rank's elements from a position on.
fn bounded_read<S: ReadSide>(
    alloc: Global,
    reader: &mut Reader,
    side: &S,
    at: Option<Instance>,
    leaves: &[LeafRef],
    position: u32,
) -> Result<Formula, AllocError>
    ensures { GivesFact (bounded_claim (S.side side.now) at leaves.now position (reader_of reader.old)) result (reader_of reader.new) }
{
    let begun = side.begun(reader)?;
    let mut pairs = Vec::new(alloc);
    push_elements(alloc, reader, side, at, position, leaves, &mut pairs)?;
    let less = symbols_less(alloc, &pairs)?;
    neither(alloc, &begun, &less)
}

/// One of two formulas is false.
pub(crate) fn neither(alloc: Global, a: &Formula, b: &Formula) -> Result<Formula, AllocError>
    ensures { IfOk result (λ either. fact_of either ≡ or_of (denied (fact_of a.now)) (denied (fact_of b.now))) }
{
    let a = denied(alloc, a)?;
    let b = denied(alloc, b)?;
    either(alloc, a, b)
}

/// An element is at least a digit.
fn digit_most(alloc: Global, digit: u32, element: &Row) -> Result<Formula, AllocError>
    ensures { IfOk result (λ most. fact_of most ≡ fact_le (numeral (pos digit)) (form_of element.now)) }
{
    let digit = numeral(alloc, i128::from(digit));
    at_most(alloc, &digit, element)
}

/// If a leaf is true, there is a last operation, and an element of its rank is at least the digit.
fn at_least_read<S: ReadSide>(
    alloc: Global,
    reader: &mut Reader,
    side: &S,
    at: Option<Instance>,
    leaf: LeafRef,
    position: u32,
    digit: u32,
) -> Result<Formula, AllocError>
    ensures { GivesFact (at_least_claim (S.side side.now) at leaf position digit (reader_of reader.old)) result (reader_of reader.new) }
{
    let begun = side.begun(reader)?;
    let truth = truth_kept(alloc, reader, side, place_of_ref(leaf), at)?;
    let element = side.element(alloc, reader, position)?;
    let most = digit_most(alloc, digit, &element)?;
    let held = both(alloc, begun, most)?;
    let not = denied(alloc, &truth)?;
    either(alloc, not, held)
}

/// The two leaves and the elements of a conjunct that matches them.
#[derive(Clone, Copy)]
struct Match {
    first: LeafRef,
    position: u32,
    second: LeafRef,
    later: u32,
    digit: u32,
}

/// If a leaf is an element of the last rank, and another leaf is true, a later element is at least the digit.
fn matched_read<S: ReadSide>(
    alloc: Global,
    reader: &mut Reader,
    side: &S,
    at: Option<Instance>,
    matched: Match,
) -> Result<Formula, AllocError>
    ensures { GivesFact (matched_claim (S.side side.now) at matched.first matched.position matched.second matched.later matched.digit
        (reader_of reader.old)) result (reader_of reader.new) }
{
    let begun = side.begun(reader)?;
    let leaf = number_kept(alloc, reader, side, place_of_ref(matched.first), at)?;
    let element = side.element(alloc, reader, matched.position)?;
    let truth = truth_kept(alloc, reader, side, place_of_ref(matched.second), at)?;
    let later = side.element(alloc, reader, matched.later)?;
    let same = same(alloc, &leaf, &element)?;
    let most = digit_most(alloc, matched.digit, &later)?;
    unless_all(alloc, &begun, &same, &truth, most)
}

/// One of three formulas is false, or the last one is true.
fn unless_all(
    alloc: Global,
    a: &Formula,
    b: &Formula,
    c: &Formula,
    d: Formula,
) -> Result<Formula, AllocError>
    ensures { IfOk result (λ unless. fact_of unless ≡ any_of (listed
        (denied (fact_of a.now) ∷ denied (fact_of b.now) ∷ denied (fact_of c.now) ∷ fact_of d ∷ []))) }
{
    let a = denied(alloc, a)?;
    let b = denied(alloc, b)?;
    let c = denied(alloc, c)?;
    Ok(any(vec![in alloc; a, b, c, d]?))
}

/// A sum is at least 0.
fn total_read<S: ReadSide>(
    alloc: Global,
    reader: &mut Reader,
    side: &S,
    at: Option<Instance>,
    component: u32,
) -> Result<Formula, AllocError>
    ensures { GivesFact (total_claim (S.side side.now) at component (reader_of reader.old)) result (reader_of reader.new) }
{
    let total = number_kept(alloc, reader, side, Place::Leaf(component, 0), at)?;
    at_most(alloc, &numeral(alloc, 0), &total)
}

/// The claim of a conjunct on a side, at a key if it has one. The queries and asks are those of the old side.
pub fn claim_read<S: ReadSide>(
    alloc: Global,
    reader: &mut Reader,
    old: &OldSide<'_>,
    side: &S,
    conjunct: &Conjunct,
    at: Option<Instance>,
) -> Result<Formula, AllocError>
    ensures { GivesFact (claim_read (type_form old.now.ty.now) (design_form old.now.design.now) (S.side side.now) conjunct.now at
        (reader_of reader.old)) result (reader_of reader.new) }
{
    match conjunct {
        Conjunct::Query(query) => {
            let queries = old.ty.queries.as_slice();
            answers_read(
                alloc,
                reader,
                side,
                at,
                queries,
                old.design.asks.as_slice(),
                *query,
            )
        }
        Conjunct::Equal { field, leaf } => equal_read(alloc, reader, side, at, *field, *leaf),
        Conjunct::Bounded { leaves, position } => {
            bounded_read(alloc, reader, side, at, leaves.as_slice(), *position)
        }
        Conjunct::AtLeast {
            leaf,
            position,
            digit,
        } => at_least_read(alloc, reader, side, at, *leaf, *position, *digit),
        Conjunct::Matched {
            first,
            position,
            second,
            later,
            digit,
        } => {
            let matched = Match {
                first: *first,
                position: *position,
                second: *second,
                later: *later,
                digit: *digit,
            };
            matched_read(alloc, reader, side, at, matched)
        }
        Conjunct::Total(component) => total_read(alloc, reader, side, at, *component),
    }
}
