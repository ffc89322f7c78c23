//! The effects of operations, grouped from their tokens.
ghost use Rattle.std.specs.Prelude.{◌≡◌, ◌==◌, [], ◌∷◌, IfOk, reverse};
ghost use Rattle.kat_decoding.specs.Decoded.{cell_group, cell_groups, if_full, more_effects, more_leaves, set_group, set_groups, table_group, table_groups, tallies_group, tallies_groups, tally_group, tally_groups, with_all, with_key, with_member, with_weight};
ghost use Rattle.kat_decoding.specs.Stacks.{groups_in};

use kat_design::Leaf;
use kat_num::Items;
use kat_rules::Token;
use std::alloc::{AllocError, Global};

/// Effects, and the leaves of one whose beginning isn't read yet; the last ones first.
#[derive(Drop)]
pub(crate) struct Groups<A> {
    pub(crate) leaves: Vec<Leaf>,
    pub(crate) effects: Vec<A>,
}

/// An effect on a cell, and on a table.
type CellEffect = Option<Items<Leaf>>;

type TableEffect = Option<(u32, Items<Leaf>)>;

/// No effects.
fn no_groups<A: Drop>(alloc: Global) -> Groups<A>
    ensures { groups_in result ≡ record { open_leaves = []; effects = [] } }
{
    Groups {
        leaves: Vec::new(alloc),
        effects: Vec::new(alloc),
    }
}

/// One more leaf.
#[tactic(auto, using(crate::proofs::Stacked::pushed))]
fn more_leaves<A: Drop>(groups: Groups<A>, leaf: Leaf) -> Result<Groups<A>, AllocError>
    ensures { IfOk result (λ g. groups_in g ≡ more_leaves leaf (groups_in groups)) }
{
    let mut leaves = groups.leaves;
    leaves.push(leaf)?;
    Ok(Groups {
        leaves,
        effects: groups.effects,
    })
}

/// One more effect.
#[tactic(auto, using(crate::proofs::Stacked::pushed))]
fn more_effects<A: Drop>(groups: Groups<A>, effect: A) -> Result<Groups<A>, AllocError>
    ensures { IfOk result (λ g. groups_in g ≡ more_effects effect (groups_in groups)) }
{
    let mut effects = groups.effects;
    effects.push(effect)?;
    Ok(Groups {
        leaves: groups.leaves,
        effects,
    })
}

/// The elements the other way round, which is their order, since they were read from the end.
pub(crate) fn reversed<A: Drop>(stack: Vec<A>) -> Items<A>
    ensures { result ≡ reverse stack.items }
{
    let mut stack = stack;
    stack.reverse();
    Items::from_vec(stack)
}

/// All leaves are an effect on a cell.
#[tactic(auto, using(crate::proofs::Stacked::pushed))]
fn with_all(alloc: Global, groups: Groups<CellEffect>) -> Result<Groups<CellEffect>, AllocError>
    ensures { IfOk result (λ g. groups_in g ≡ with_all (groups_in groups)) }
{
    let mut effects = groups.effects;
    effects.push(Some(reversed(groups.leaves)))?;
    Ok(Groups {
        leaves: Vec::new(alloc),
        effects,
    })
}

/// The leaves as an effect on a cell, if there are this many.
#[tactic(auto, using(crate::proofs::Stacked::as_many))]
fn if_full(
    alloc: Global,
    width: usize,
    groups: Groups<CellEffect>,
) -> Result<Groups<CellEffect>, AllocError>
    ensures { IfOk result (λ g. groups_in g ≡ if_full width (groups_in groups)) }
{
    if groups.leaves.len() == width {
        return with_all(alloc, groups);
    }
    Ok(groups)
}

/// Reads one more token of the effects on a cell.
fn cell_group(
    alloc: Global,
    width: usize,
    token: Token,
    groups: Groups<CellEffect>,
) -> Result<Groups<CellEffect>, AllocError>
    ensures { IfOk result (λ g. groups_in g ≡ cell_group width token (groups_in groups)) }
{
    match token {
        Token::Nothing => more_effects(groups, None),
        Token::Effect(leaf) => if_full(alloc, width, more_leaves(groups, leaf)?),
        _ => Ok(groups),
    }
}

/// The effects on a cell with this many leaves.
pub(crate) fn cell_groups(
    alloc: Global,
    width: usize,
    tokens: &[Token],
) -> Result<Groups<CellEffect>, AllocError>
    ensures { IfOk result (λ g. groups_in g ≡ cell_groups width tokens.now) }
{
    match tokens {
        [] => Ok(no_groups(alloc)),
        [first, rest @ ..] => {
            let groups = cell_groups(alloc, width, rest)?;
            cell_group(alloc, width, *first, groups)
        }
    }
}

/// All leaves are an effect at a key.
#[tactic(auto, using(crate::proofs::Stacked::pushed))]
fn with_key(
    alloc: Global,
    key: u32,
    groups: Groups<TableEffect>,
) -> Result<Groups<TableEffect>, AllocError>
    ensures { IfOk result (λ g. groups_in g ≡ with_key key (groups_in groups)) }
{
    let mut effects = groups.effects;
    effects.push(Some((key, reversed(groups.leaves))))?;
    Ok(Groups {
        leaves: Vec::new(alloc),
        effects,
    })
}

/// Reads one more token of the effects on a table.
fn table_group(
    alloc: Global,
    token: Token,
    groups: Groups<TableEffect>,
) -> Result<Groups<TableEffect>, AllocError>
    ensures { IfOk result (λ g. groups_in g ≡ table_group token (groups_in groups)) }
{
    match token {
        Token::Nothing => more_effects(groups, None),
        Token::Effect(leaf) => more_leaves(groups, leaf),
        Token::At(key) => with_key(alloc, key, groups),
        _ => Ok(groups),
    }
}

/// The effects on a table.
pub(crate) fn table_groups(
    alloc: Global,
    tokens: &[Token],
) -> Result<Groups<TableEffect>, AllocError>
    ensures { IfOk result (λ g. groups_in g ≡ table_groups tokens.now) }
{
    match tokens {
        [] => Ok(no_groups(alloc)),
        [first, rest @ ..] => {
            let groups = table_groups(alloc, rest)?;
            table_group(alloc, *first, groups)
        }
    }
}

/// The first leaf is a weight at a key.
#[tactic(auto, using(crate::proofs::Stacked::pushed))]
fn with_weight(
    alloc: Global,
    key: u32,
    groups: Groups<Option<(u32, Leaf)>>,
) -> Result<Groups<Option<(u32, Leaf)>>, AllocError>
    ensures { IfOk result (λ g. groups_in g ≡ with_weight key (groups_in groups)) }
{
    let mut effects = groups.effects;
    match groups.leaves.last().copied() {
        None => Ok(Groups {
            leaves: Vec::new(alloc),
            effects,
        }),
        Some(weight) => {
            effects.push(Some((key, weight)))?;
            Ok(Groups {
                leaves: Vec::new(alloc),
                effects,
            })
        }
    }
}

/// Reads one more token of the effects on `tallies`.
fn tallies_group(
    alloc: Global,
    token: Token,
    groups: Groups<Option<(u32, Leaf)>>,
) -> Result<Groups<Option<(u32, Leaf)>>, AllocError>
    ensures { IfOk result (λ g. groups_in g ≡ tallies_group token (groups_in groups)) }
{
    match token {
        Token::Nothing => more_effects(groups, None),
        Token::Effect(leaf) => more_leaves(groups, leaf),
        Token::At(key) => with_weight(alloc, key, groups),
        _ => Ok(groups),
    }
}

/// The effects on `tallies`.
pub(crate) fn tallies_groups(
    alloc: Global,
    tokens: &[Token],
) -> Result<Groups<Option<(u32, Leaf)>>, AllocError>
    ensures { IfOk result (λ g. groups_in g ≡ tallies_groups tokens.now) }
{
    match tokens {
        [] => Ok(no_groups(alloc)),
        [first, rest @ ..] => {
            let groups = tallies_groups(alloc, rest)?;
            tallies_group(alloc, *first, groups)
        }
    }
}

/// Reads one more token of the effects on a set.
#[tactic(auto, using(crate::proofs::Stacked::pushed))]
fn set_group(effects: &mut Vec<Option<u32>>, token: Token) -> Result<(), AllocError>
    ensures { IfOk result (λ _. reverse effects.new.items ≡ set_group token (reverse effects.old.items)) }
{
    match token {
        Token::Nothing => {
            effects.push(None)?;
            Ok(())
        }
        Token::Effect(leaf) => with_member(effects, leaf),
        _ => Ok(()),
    }
}

/// Adds a key of a set.
#[tactic(auto, using(crate::proofs::Stacked::pushed))]
fn with_member(effects: &mut Vec<Option<u32>>, leaf: Leaf) -> Result<(), AllocError>
    ensures { IfOk result (λ _. reverse effects.new.items ≡ with_member leaf (reverse effects.old.items)) }
{
    match leaf {
        Leaf::Arg(place) => {
            effects.push(Some(place))?;
            Ok(())
        }
        _ => Ok(()),
    }
}

/// The effects on a set, the last one first.
pub(crate) fn set_groups(alloc: Global, tokens: &[Token]) -> Result<Vec<Option<u32>>, AllocError>
    ensures { IfOk result (λ effects. reverse effects.items ≡ set_groups tokens.now) }
{
    match tokens {
        [] => Ok(Vec::new(alloc)),
        [first, rest @ ..] => {
            let mut effects = set_groups(alloc, rest)?;
            set_group(&mut effects, *first)?;
            Ok(effects)
        }
    }
}

/// Reads one more token of the effects on a tally.
#[tactic(auto, using(crate::proofs::Stacked::pushed))]
fn tally_group(effects: &mut Vec<Option<Leaf>>, token: Token) -> Result<(), AllocError>
    ensures { IfOk result (λ _. reverse effects.new.items ≡ tally_group token (reverse effects.old.items)) }
{
    match token {
        Token::Nothing => {
            effects.push(None)?;
            Ok(())
        }
        Token::Effect(weight) => {
            effects.push(Some(weight))?;
            Ok(())
        }
        _ => Ok(()),
    }
}

/// The effects on a tally, the last one first.
pub(crate) fn tally_groups(alloc: Global, tokens: &[Token]) -> Result<Vec<Option<Leaf>>, AllocError>
    ensures { IfOk result (λ effects. reverse effects.items ≡ tally_groups tokens.now) }
{
    match tokens {
        [] => Ok(Vec::new(alloc)),
        [first, rest @ ..] => {
            let mut effects = tally_groups(alloc, rest)?;
            tally_group(&mut effects, *first)?;
            Ok(effects)
        }
    }
}
