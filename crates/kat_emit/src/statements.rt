//! What members do, as statements.
ghost use Rattle.std.specs.Prelude.{◌≡◌, ◌++◌, [], IfOk, map, option_map};
ghost use Rattle.kat_design.specs.Designs.{component_form};
ghost use Rattle.kat_emit.specs.Statements.{all_changed, all_checked, all_grown, change_of, changed, grown, growth_of, part_form, putting, stated, statements_of};

use crate::parts::Part;
use kat_design::{Ask, Component, Leaf};
use kat_num::Items;
use std::alloc::{AllocError, Global};

/// A statement of an operation. Parts, and parameters that are keys, are told by their numbers.
#[derive(Clone, Copy)]
pub enum Statement<'a> {
    /// An argument is checked.
    Check {
        param: usize,
    },
    /// The operation gets its time, unless the clock is at its end.
    Tick,
    /// The replica's own sum in a part, with a weight more, unless it is too great then.
    Grow {
        part: usize,
        key: Option<u32>,
        weight: Leaf,
    },
    /// This sum is kept.
    Keep {
        part: usize,
        key: Option<u32>,
    },
    /// A value is put into a cell or a table, if what is there lacks it.
    Put {
        part: usize,
        key: Option<u32>,
        leaves: &'a [Leaf],
    },
    /// A key is put into a set.
    Insert {
        part: usize,
        key: u32,
    },
    /// The clock has the operation's time.
    Tock,
}

/// What an operation does that has a number and so many parameters: first all that can be refused, then what changes the replica.
#[tactic(auto, using(crate::proofs::Listing::one_stated))]
pub fn operation_statements<'a>(
    alloc: Global,
    parts: &[Part<'a>],
    op: usize,
    params: usize,
) -> Result<Vec<Statement<'a>>, AllocError>
    ensures { IfOk result (λ statements. map stated statements.items ≡ statements_of (map part_form parts.now) op params) }
{
    let mut statements = Vec::new(alloc);
    push_checks(params, &mut statements)?;
    statements.push(Statement::Tick)?;
    push_growths(parts, op, &mut statements)?;
    push_changes(parts, op, &mut statements)?;
    statements.push(Statement::Tock)?;
    Ok(statements)
}

/// Appends the checks of so many arguments.
#[tactic(auto, using(crate::proofs::Listing::one_stated))]
fn push_checks(params: usize, into: &mut Vec<Statement<'_>>) -> Result<(), AllocError>
    ensures { IfOk result (λ u. map stated into.new.items ≡ map stated into.old.items ++ all_checked 0 params) }
{
    for param in 0..params {
        into.push(Statement::Check { param })?;
    }
    Ok(())
}

/// Appends the sums that an operation lets grow.
fn push_growths<'a>(
    parts: &[Part<'a>],
    op: usize,
    into: &mut Vec<Statement<'a>>,
) -> Result<(), AllocError>
    ensures { IfOk result (λ u. map stated into.new.items ≡ map stated into.old.items ++ all_grown 0 (map part_form parts.now) op) }
{
    for (place, part) in parts.iter().enumerate() {
        push_growth(part.component, place, op, into)?;
    }
    Ok(())
}

/// Appends the sum of a component with this number that an operation lets grow, if there is one.
#[tactic(auto, using(crate::proofs::Listing::one_stated))]
fn push_growth(
    component: &Component,
    place: usize,
    op: usize,
    into: &mut Vec<Statement<'_>>,
) -> Result<(), AllocError>
    ensures { IfOk result (λ u. map stated into.new.items ≡ map stated into.old.items ++ grown place (growth_of (component_form component.now) op)) }
{
    match weight_of(component, op) {
        Some((key, weight)) => {
            into.push(Statement::Grow {
                part: place,
                key,
                weight,
            })?;
            Ok(())
        }
        None => Ok(()),
    }
}

/// Appends what an operation changes.
fn push_changes<'a>(
    parts: &[Part<'a>],
    op: usize,
    into: &mut Vec<Statement<'a>>,
) -> Result<(), AllocError>
    ensures { IfOk result (λ u. map stated into.new.items ≡ map stated into.old.items ++ all_changed 0 (map part_form parts.now) op) }
{
    for (place, part) in parts.iter().enumerate() {
        push_change(part.component, place, op, into)?;
    }
    Ok(())
}

/// Appends what an operation changes in a component with this number, if that is something.
#[tactic(auto, using(crate::proofs::Listing::one_stated))]
fn push_change<'a>(
    component: &'a Component,
    place: usize,
    op: usize,
    into: &mut Vec<Statement<'a>>,
) -> Result<(), AllocError>
    ensures { IfOk result (λ u. map stated into.new.items ≡ map stated into.old.items ++ changed (change_of place (component_form component.now) op)) }
{
    match change_of(component, place, op) {
        Some(change) => {
            into.push(change)?;
            Ok(())
        }
        None => Ok(()),
    }
}

/// What an operation adds to the replica's own sum in a component, unless that is always 0, and at which key.
fn weight_of(component: &Component, op: usize) -> Option<(Option<u32>, Leaf)>
    ensures { result ≡ growth_of (component_form component.now) op }
{
    let (key, weight) = match component {
        Component::Tally { effects } => match effects.as_slice().get(op) {
            Some(Some(weight)) => (None, *weight),
            _ => return None,
        },
        Component::Tallies { effects, .. } => match effects.as_slice().get(op) {
            Some(Some((key, weight))) => (Some(*key), *weight),
            _ => return None,
        },
        Component::Cell { .. } | Component::Table { .. } | Component::Set { .. } => return None,
    };
    match weight {
        Leaf::Zero => None,
        _ => Some((key, weight)),
    }
}

/// What an operation changes in a component with this number, unless that is nothing.
fn change_of<'a>(component: &'a Component, part: usize, op: usize) -> Option<Statement<'a>>
    ensures { option_map stated result ≡ change_of part (component_form component.now) op }
{
    match component {
        Component::Cell { effects, .. } => put_of(
            part,
            None,
            effects.as_slice().get(op)?.as_ref()?,
        ),
        Component::Table { effects, .. } => {
            let (key, leaves) = effects.as_slice().get(op)?.as_ref()?;
            put_of(part, Some(*key), leaves)
        }
        Component::Set { effects, .. } => match effects.as_slice().get(op) {
            Some(Some(key)) => Some(Statement::Insert { part, key: *key }),
            _ => None,
        },
        Component::Tally { .. } | Component::Tallies { .. } => {
            let (key, _) = weight_of(component, op)?;
            Some(Statement::Keep { part, key })
        }
    }
}

/// What puts these leaves, unless that changes nothing: `false` joined to a truth value.
fn put_of(part: usize, key: Option<u32>, leaves: &Items<Leaf>) -> Option<Statement<'_>>
    ensures { option_map stated result ≡ putting part key leaves.now }
{
    match leaves.as_slice() {
        [Leaf::False] => None,
        leaves => Some(Statement::Put { part, key, leaves }),
    }
}

/// A place with a key that a query looks at: a part and the parameter that is the key, by their numbers.
#[derive(Clone, Copy, PartialEq, Eq)]
pub struct Lookup {
    pub part: u32,
    pub key: u32,
}

/// The places with keys that an ask looks at, each once and in its order, except those in sets.
pub fn lookups(alloc: Global, parts: &[Part<'_>], ask: &Ask) -> Result<Vec<Lookup>, AllocError> {
    let mut found = Vec::new(alloc);
    push_lookups(parts, ask, &mut found)?;
    Ok(found)
}

/// Appends those that aren't there yet.
fn push_lookups(parts: &[Part<'_>], ask: &Ask, found: &mut Vec<Lookup>) -> Result<(), AllocError> {
    match ask {
        Ask::Leaf { component, key, .. } => push_lookup(parts, *component, *key, found),
        Ask::Arg(_) | Ask::Const(_) => Ok(()),
        Ask::Not(inner) => push_lookups(parts, inner, found),
        Ask::And(left, right)
        | Ask::Or(left, right)
        | Ask::Less(left, right)
        | Ask::Plus(left, right)
        | Ask::Minus(left, right) => {
            push_lookups(parts, left, found)?;
            push_lookups(parts, right, found)
        }
    }
}

/// Appends a place, if it has a key, isn't in a set and isn't there yet.
fn push_lookup(
    parts: &[Part<'_>],
    part: u32,
    key: Option<u32>,
    found: &mut Vec<Lookup>,
) -> Result<(), AllocError> {
    let Some(key) = key else {
        return Ok(());
    };
    let lookup = Lookup { part, key };
    let is_set = match parts.get(part as usize) {
        Some(part) => matches!(part.component, Component::Set { .. }),
        None => true,
    };
    if !is_set && !found.contains(&lookup) {
        found.push(lookup)?;
    }
    Ok(())
}
