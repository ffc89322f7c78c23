//! Which tokens may come at a place, in their order.
ghost use Rattle.std.specs.Prelude.{◌≡◌, ◌++◌, [], ◌∷◌, IfOk, map, filter, slice_get};
ghost use Rattle.std.specs.List.{range_with_len};
ghost use Rattle.kat_design.specs.Faults.{gives_kind, is_weight};
ghost use Rattle.kat_machine.specs.Choices.{all_leaves, argument_kind, ask_choices, choices_for, key_choices, keyed, member, operators, places_of};
ghost use Rattle.kat_machine.specs.Fitting.{argument_token, argument_tokens, fitting_tokens, if_wanted, leaf_reads, name_tokens, number_tokens, read_token, row_reads, truth_tokens};
ghost use Rattle.kat_rules.specs.declared.tokens.Token.TheVariants.{At, Effect, Start};

use crate::modes::{Row, Want};
use crate::shared::Shared;
use kat_design::{Kind, Leaf, Wanted, is_wanted, sort_kind};
use kat_num::Sort;
use kat_rules::{Constants, Token};
use kat_sort_check::{gives_kind, has_sort, is_weight};
use std::alloc::{AllocError, Global};

/// The parameters of exactly this sort, of the four that there are at most.
pub(crate) fn places_of(alloc: Global, sort: Sort, sorts: &[Sort]) -> Result<Vec<u32>, AllocError>
    ensures { IfOk result (λ places. places.items ≡ places_of sort sorts.now) }
{
    let all: [u32; 4] = [0, 1, 2, 3];
    all.iter()
        .copied()
        .filter(|place| has_sort(sort, sorts, *place))
        .collect(alloc)
}

/// The keys that an effect may have.
fn key_tokens(alloc: Global, places: &[u32]) -> Result<Vec<Token>, AllocError>
    ensures { IfOk result (λ tokens. tokens.items ≡ map At places.now) }
{
    places.iter().map(|place| Token::At(*place)).collect(alloc)
}

/// The keys that may be put into a set.
fn member_tokens(alloc: Global, places: &[u32]) -> Result<Vec<Token>, AllocError>
    ensures { IfOk result (λ tokens. tokens.items ≡ map member places.now) }
{
    places
        .iter()
        .map(|place| Token::Effect(Leaf::Arg(*place)))
        .collect(alloc)
}

/// All that an operation may give.
fn all_leaves() -> [Leaf; 18]
    ensures { result ≡ all_leaves }
{
    [
        Leaf::Arg(0),
        Leaf::Arg(1),
        Leaf::Arg(2),
        Leaf::Arg(3),
        Leaf::Time,
        Leaf::Replica,
        Leaf::Zero,
        Leaf::One,
        Leaf::Pos(0),
        Leaf::Pos(1),
        Leaf::Pos(2),
        Leaf::Pos(3),
        Leaf::Neg(0),
        Leaf::Neg(1),
        Leaf::Neg(2),
        Leaf::Neg(3),
        Leaf::False,
        Leaf::True,
    ]
}

/// What may be given to a leaf of a kind.
fn leaf_tokens(alloc: Global, kind: Kind, sorts: &[Sort]) -> Result<Vec<Token>, AllocError>
    ensures { IfOk result (λ tokens. tokens.items ≡ map Effect (filter (λ l. gives_kind sorts.now l kind) all_leaves)) }
{
    all_leaves()
        .iter()
        .copied()
        .filter(|leaf| gives_kind(sorts, *leaf, kind))
        .map(|leaf| Token::Effect(leaf))
        .collect(alloc)
}

/// What may be added to a sum.
fn weight_tokens(alloc: Global, sorts: &[Sort]) -> Result<Vec<Token>, AllocError>
    ensures { IfOk result (λ tokens. tokens.items ≡ map Effect (filter (is_weight sorts.now) all_leaves)) }
{
    all_leaves()
        .iter()
        .copied()
        .filter(|leaf| is_weight(sorts, *leaf))
        .map(|leaf| Token::Effect(leaf))
        .collect(alloc)
}

/// The choices for one part of an effect of an operation with these parameters.
pub(crate) fn choices_for(
    alloc: Global,
    sorts: &[Sort],
    want: Want,
) -> Result<Vec<Token>, AllocError>
    ensures { IfOk result (λ tokens. tokens.items ≡ choices_for sorts.now want) }
{
    match want {
        Want::Key(sort) => {
            let places = places_of(alloc, sort, sorts)?;
            key_tokens(alloc, &places)
        }
        Want::Member(sort) => {
            let places = places_of(alloc, sort, sorts)?;
            member_tokens(alloc, &places)
        }
        Want::Leaf(kind) => leaf_tokens(alloc, kind, sorts),
        Want::Weight => weight_tokens(alloc, sorts),
    }
}

/// Starts by the places of constants.
pub(crate) fn start_tokens(alloc: Global, limit: usize) -> Result<Vec<Token>, AllocError>
    ensures { IfOk result (λ tokens. tokens.items ≡ map Start (range_with_len 0 limit)) }
{
    (0..limit).map(|place| Token::Start(place)).collect(alloc)
}

/// The keys at which a leaf may be read.
fn key_choices(
    alloc: Global,
    sorts: &[Sort],
    key: Option<Sort>,
) -> Result<Vec<Option<u32>>, AllocError>
    ensures { IfOk result (λ keys. keys.items ≡ key_choices sorts.now key) }
{
    match key {
        None => {
            let mut keys = Vec::new(alloc);
            keys.push(None)?;
            Ok(keys)
        }
        Some(sort) => keys_of(alloc, sort, sorts),
    }
}

/// The parameters of a sort as keys.
fn keys_of(alloc: Global, sort: Sort, sorts: &[Sort]) -> Result<Vec<Option<u32>>, AllocError>
    ensures { IfOk result (λ keys. keys.items ≡ map keyed (places_of sort sorts.now)) }
{
    let all: [u32; 4] = [0, 1, 2, 3];
    all.iter()
        .copied()
        .filter(|place| has_sort(sort, sorts, *place))
        .map(|place| Some(place))
        .collect(alloc)
}

/// Adds the reads of a leaf at each key.
#[tactic(auto, using(crate::proofs::Pushed::one_more))]
fn push_reads(
    into: &mut Vec<Token>,
    keys: &[Option<u32>],
    component: usize,
    leaf: usize,
) -> Result<(), AllocError>
    ensures { IfOk result (λ _. into.new.items ≡ into.old.items ++ map (read_token component leaf) keys.now) }
{
    match keys {
        [] => Ok(()),
        [key, rest @ ..] => {
            into.push(Token::Read {
                component,
                leaf,
                key: *key,
            })?;
            push_reads(into, rest, component, leaf)
        }
    }
}

/// Adds the reads of a leaf of a kind at each key, if the kind is expected.
fn push_leaf(
    into: &mut Vec<Token>,
    wanted: Wanted,
    kind: Kind,
    keys: &[Option<u32>],
    component: usize,
    leaf: usize,
) -> Result<(), AllocError>
    ensures { IfOk result (λ _. into.new.items ≡ into.old.items ++ if_wanted wanted kind (map (read_token component leaf) keys.now)) }
{
    if is_wanted(wanted, kind) {
        return push_reads(into, keys, component, leaf);
    }
    Ok(())
}

/// Adds the leaves of a component whose kinds are expected.
fn push_leaves(
    into: &mut Vec<Token>,
    wanted: Wanted,
    keys: &[Option<u32>],
    component: usize,
    kinds: &[Kind],
) -> Result<(), AllocError>
    ensures { IfOk result (λ _. into.new.items ≡ into.old.items ++ leaf_reads wanted keys.now component 0 kinds.now) }
{
    for leaf in 0..kinds.len() {
        push_leaf(into, wanted, kinds[leaf], keys, component, leaf)?;
    }
    Ok(())
}

/// Adds the leaves of components whose kinds are expected.
fn push_rows(
    alloc: Global,
    into: &mut Vec<Token>,
    wanted: Wanted,
    sorts: &[Sort],
    rows: &[Shared<Row>],
) -> Result<(), AllocError>
    ensures { IfOk result (λ _. into.new.items ≡ into.old.items ++ row_reads wanted sorts.now 0 rows.now) }
{
    for component in 0..rows.len() {
        let row = rows[component].value();
        let keys = key_choices(alloc, sorts, row.key)?;
        push_leaves(into, wanted, &keys, component, row.kinds.as_slice())?;
    }
    Ok(())
}

/// The kind of a parameter.
pub(crate) fn argument_kind(sorts: &[Sort], place: u32) -> Kind
    ensures { result ≡ argument_kind (slice_get sorts.now place) }
{
    match sorts.get(place as usize) {
        None => Kind::Number,
        Some(sort) => sort_kind(*sort),
    }
}

/// The sort of a parameter, if there is one of this number.
fn sort_at(sorts: &[Sort], place: u32) -> Option<Sort>
    ensures { result ≡ slice_get sorts.now place }
{
    match sorts.get(place as usize) {
        None => None,
        Some(sort) => Some(*sort),
    }
}

/// Adds a parameter, if its kind is expected.
fn push_argument(
    into: &mut Vec<Token>,
    wanted: Wanted,
    place: u32,
    sort: Option<Sort>,
) -> Result<(), AllocError>
    ensures { IfOk result (λ _. into.new.items ≡ into.old.items ++ argument_token wanted place sort) }
{
    match sort {
        None => Ok(()),
        Some(sort) => {
            if is_wanted(wanted, sort_kind(sort)) {
                into.push(Token::Arg(place))?;
                return Ok(());
            }
            Ok(())
        }
    }
}

/// Adds the parameters of these places whose kinds are expected.
#[tactic(auto, using(crate::proofs::Pushed::joined))]
fn push_arguments(
    into: &mut Vec<Token>,
    wanted: Wanted,
    sorts: &[Sort],
    places: &[u32],
) -> Result<(), AllocError>
    ensures { IfOk result (λ _. into.new.items ≡ into.old.items ++ argument_tokens wanted sorts.now places.now) }
{
    match places {
        [] => Ok(()),
        [place, rest @ ..] => {
            push_argument(into, wanted, *place, sort_at(sorts, *place))?;
            push_arguments(into, wanted, sorts, rest)
        }
    }
}

/// The numbers of a type.
fn number_tokens(alloc: Global, count: usize) -> Result<Vec<Token>, AllocError>
    ensures { IfOk result (λ tokens. tokens.items ≡ number_tokens count) }
{
    (0..count)
        .map(|place| Token::NumberConstant(place))
        .collect(alloc)
}

/// The names of a type.
fn name_tokens(alloc: Global, count: usize) -> Result<Vec<Token>, AllocError>
    ensures { IfOk result (λ tokens. tokens.items ≡ name_tokens count) }
{
    (0..count)
        .map(|place| Token::NameConstant(place))
        .collect(alloc)
}

/// Adds the numbers of a type, if numbers are expected.
fn push_numbers(
    alloc: Global,
    into: &mut Vec<Token>,
    wanted: Wanted,
    count: usize,
) -> Result<(), AllocError>
    ensures { IfOk result (λ _. into.new.items ≡ into.old.items ++ if_wanted wanted Kind.Number (number_tokens count)) }
{
    if is_wanted(wanted, Kind::Number) {
        let tokens = number_tokens(alloc, count)?;
        return into.extend_from_slice(&tokens);
    }
    Ok(())
}

/// Adds the names of a type, if names are expected.
fn push_names(
    alloc: Global,
    into: &mut Vec<Token>,
    wanted: Wanted,
    count: usize,
) -> Result<(), AllocError>
    ensures { IfOk result (λ _. into.new.items ≡ into.old.items ++ if_wanted wanted Kind.Name (name_tokens count)) }
{
    if is_wanted(wanted, Kind::Name) {
        let tokens = name_tokens(alloc, count)?;
        return into.extend_from_slice(&tokens);
    }
    Ok(())
}

/// Adds the truth values, if they are expected.
fn push_truths(into: &mut Vec<Token>, wanted: Wanted) -> Result<(), AllocError>
    ensures { IfOk result (λ _. into.new.items ≡ into.old.items ++ if_wanted wanted Kind.Truth truth_tokens) }
{
    if is_wanted(wanted, Kind::Truth) {
        into.push(Token::Truth(false))?;
        into.push(Token::Truth(true))?;
        return Ok(());
    }
    Ok(())
}

/// Adds the operators whose value is expected.
fn push_operators(tokens: &mut Vec<Token>, wanted: Wanted) -> Result<(), AllocError>
    ensures { IfOk result (λ _. tokens.new.items ≡ tokens.old.items ++ operators wanted) }
{
    match wanted {
        Wanted::Exactly(Kind::Truth) => {
            tokens.push(Token::Not)?;
            tokens.push(Token::And)?;
            tokens.push(Token::Either)?;
            tokens.push(Token::Less)?;
            Ok(())
        }
        Wanted::Exactly(Kind::Name) => Ok(()),
        Wanted::Exactly(Kind::Number) | Wanted::Ordered => {
            tokens.push(Token::Plus)?;
            tokens.push(Token::Minus)?;
            Ok(())
        }
    }
}

/// What an ask may begin with where this is expected, part by part.
fn fitting_tokens(
    alloc: Global,
    constants: &Constants,
    sorts: &[Sort],
    rows: &[Shared<Row>],
    wanted: Wanted,
) -> Result<Vec<Token>, AllocError>
    ensures { IfOk result (λ tokens. tokens.items ≡ fitting_tokens constants.now sorts.now rows.now wanted) }
{
    let mut tokens = Vec::with_capacity(alloc, 12)?;
    push_rows(alloc, &mut tokens, wanted, sorts, rows)?;
    push_arguments(&mut tokens, wanted, sorts, &[0, 1, 2, 3])?;
    push_numbers(
        alloc,
        &mut tokens,
        wanted,
        constants.numbers.as_slice().len(),
    )?;
    push_names(alloc, &mut tokens, wanted, constants.names.as_slice().len())?;
    push_truths(&mut tokens, wanted)?;
    push_operators(&mut tokens, wanted)?;
    Ok(tokens)
}

/// What an ask may begin with where this is expected.
#[tactic(auto, using(crate::proofs::FittingLemmas::choices_fit))]
pub(crate) fn ask_choices(
    alloc: Global,
    constants: &Constants,
    sorts: &[Sort],
    rows: &[Shared<Row>],
    wanted: Wanted,
) -> Result<Vec<Token>, AllocError>
    ensures { IfOk result (λ tokens. tokens.items ≡ ask_choices constants.now sorts.now rows.now wanted) }
{
    fitting_tokens(alloc, constants, sorts, rows, wanted)
}
