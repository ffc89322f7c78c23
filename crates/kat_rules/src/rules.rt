//! The rules of a listing, and the test whether a list of tokens is that of one of its designs.
ghost use Rattle.std.specs.Prelude.{◌≡◌, IfOk, map};
ghost use Rattle.std.specs.List.{list_all};
ghost use Rattle.kat_design.specs.Designs.{ask_form, component_form, design_form};
ghost use Rattle.kat_design.specs.Faults.{faults_of};
ghost use Rattle.kat_rules.specs.Tests.{are_good_asks, are_good_components, are_none, are_read, are_starts, has_constants, has_effect, has_kind_of, has_some, in_order, is_ascending, is_below, is_constant, is_ordered, is_start, keeps_rules, reads, some_reads};
ghost use Rattle.kat_rules.specs.Tokens.{component_tokens};

use crate::constants::{Constants, Setting, has_value, of_kind};
use crate::kind_sets::Kinds;
use crate::printing::{ask_tokens, component_tokens, starts_of};
use crate::ranks::is_below;
use crate::tokens::Token;
use kat_design::{Ask, Component, Design, value_kind};
use kat_num::{Items, Value};
use kat_sort_check::{DesignError, sort_check};
use std::alloc::{AllocError, Global};

/// Whether the component's kind is one of the set.
fn has_kind_of(kinds: &Kinds, component: &Component) -> bool
    ensures { result ≡ has_kind_of kinds.now (component_form component.now) }
{
    match component {
        Component::Cell { .. } => kinds.cell,
        Component::Table { .. } => kinds.table,
        Component::Set { .. } => kinds.set,
        Component::Tally { .. } => kinds.tally,
        Component::Tallies { .. } => kinds.tallies,
    }
}

/// Whether each component's kind is one of the set.
fn have_kinds(kinds: &Kinds, components: &[Component]) -> bool
    ensures { result ≡ list_all (has_kind_of kinds.now) (map component_form components.now) }
{
    match components {
        [] => true,
        [first, rest @ ..] => has_kind_of(kinds, first) && have_kinds(kinds, rest),
    }
}

/// Whether some operation has an effect.
fn has_some<T>(effects: &[Option<T>]) -> bool
    ensures { result ≡ has_some effects.now }
{
    match effects {
        [] => false,
        [None, rest @ ..] => has_some(rest),
        [Some(_), ..] => true,
    }
}

/// Whether some operation has an effect on the component.
fn has_effect(component: &Component) -> bool
    ensures { result ≡ has_effect (component_form component.now) }
{
    match component {
        Component::Cell { effects, .. } => has_some(effects.as_slice()),
        Component::Table { effects, .. } => has_some(effects.as_slice()),
        Component::Set { effects, .. } => has_some(effects.as_slice()),
        Component::Tally { effects } => has_some(effects.as_slice()),
        Component::Tallies { effects, .. } => has_some(effects.as_slice()),
    }
}

/// Whether some operation has an effect on each component.
fn have_effects(components: &[Component]) -> bool
    ensures { result ≡ list_all has_effect (map component_form components.now) }
{
    match components {
        [] => true,
        [first, rest @ ..] => has_effect(first) && have_effects(rest),
    }
}

/// Whether a leaf of the component with this number is in the ask.
fn reads(number: usize, ask: &Ask) -> bool
    ensures { result ≡ reads number (ask_form ask.now) }
{
    match ask {
        Ask::Leaf { component, .. } => number == *component as usize,
        Ask::Arg(_) | Ask::Const(_) => false,
        Ask::Not(inner) => reads(number, inner),
        Ask::And(left, right)
        | Ask::Or(left, right)
        | Ask::Less(left, right)
        | Ask::Plus(left, right)
        | Ask::Minus(left, right) => reads(number, left) || reads(number, right),
    }
}

/// Whether one of the asks reads the component with this number.
fn some_reads(number: usize, asks: &[Ask]) -> bool
    ensures { result ≡ some_reads number (map ask_form asks.now) }
{
    match asks {
        [] => false,
        [first, rest @ ..] => reads(number, first) || some_reads(number, rest),
    }
}

/// Whether the asks read each of the first components, this many.
fn are_read(count: usize, asks: &[Ask]) -> bool
    ensures { result ≡ are_read count (map ask_form asks.now) }
{
    (0..count).all(|number| some_reads(number, asks))
}

/// Whether a list of tokens comes before all others.
fn is_first(tokens: &[Token], others: &[Items<Token>]) -> bool
    ensures { result ≡ list_all (is_below tokens.now) others.now }
{
    match others {
        [] => true,
        [next, rest @ ..] => is_below(tokens, next.as_slice()) && is_first(tokens, rest),
    }
}

/// Whether each list of tokens comes before those after it.
fn is_ascending(lists: &[Items<Token>]) -> bool
    ensures { result ≡ is_ascending lists.now }
{
    match lists {
        [] => true,
        [first, rest @ ..] => is_first(first.as_slice(), rest) && is_ascending(rest),
    }
}

/// The token list of each component.
fn lists_of(
    alloc: Global,
    constants: &Constants,
    components: &[Component],
) -> Result<Vec<Items<Token>>, AllocError>
    ensures { IfOk result (λ lists. lists.items ≡ map (component_tokens constants.now) (map component_form components.now)) }
{
    let mut lists = Vec::new(alloc);
    for component in components {
        lists.push(component_tokens(alloc, constants, component)?)?;
    }
    Ok(lists)
}

/// Whether a start is one of the constants of its kind.
fn is_start(constants: &Constants, value: Value) -> bool
    ensures { result ≡ is_start constants.now value }
{
    has_value(of_kind(constants, value_kind(value)), value)
}

/// Whether starts are constants of their kinds.
fn are_constants(constants: &Constants, starts: &[Value]) -> bool
    ensures { result ≡ list_all (is_start constants.now) starts.now }
{
    match starts {
        [] => true,
        [first, rest @ ..] => is_start(constants, *first) && are_constants(constants, rest),
    }
}

/// Whether the starts of each component are constants of their kinds.
fn have_starts(constants: &Constants, components: &[Component]) -> bool
    ensures { result ≡ list_all (are_starts constants.now) (map component_form components.now) }
{
    match components {
        [] => true,
        [first, rest @ ..] => {
            are_constants(constants, starts_of(first)) && have_starts(constants, rest)
        }
    }
}

/// Whether an ask may have the constant.
fn is_constant(constants: &Constants, value: Value) -> bool
    ensures { result ≡ is_constant constants.now value }
{
    match value {
        Value::Bool(_) => true,
        Value::Num(_) => has_value(constants.numbers.as_slice(), value),
        Value::Name(_) => has_value(constants.names.as_slice(), value),
    }
}

/// Whether the constants of an ask are those of the type.
fn has_constants(constants: &Constants, ask: &Ask) -> bool
    ensures { result ≡ has_constants constants.now (ask_form ask.now) }
{
    match ask {
        Ask::Leaf { .. } | Ask::Arg(_) => true,
        Ask::Const(value) => is_constant(constants, *value),
        Ask::Not(inner) => has_constants(constants, inner),
        Ask::And(left, right)
        | Ask::Or(left, right)
        | Ask::Less(left, right)
        | Ask::Plus(left, right)
        | Ask::Minus(left, right) => {
            has_constants(constants, left) && has_constants(constants, right)
        }
    }
}

/// Whether the constants of all asks are those of the type.
fn have_constants(constants: &Constants, asks: &[Ask]) -> bool
    ensures { result ≡ list_all (has_constants constants.now) (map ask_form asks.now) }
{
    match asks {
        [] => true,
        [first, rest @ ..] => has_constants(constants, first) && have_constants(constants, rest),
    }
}

/// Whether the second of two asks doesn't come before the first.
fn in_order(
    alloc: Global,
    constants: &Constants,
    first: &Ask,
    second: &Ask,
) -> Result<bool, AllocError>
    ensures { IfOk result (λ b. b ≡ in_order constants.now (ask_form first.now) (ask_form second.now)) }
{
    let first = ask_tokens(alloc, constants, first)?;
    let second = ask_tokens(alloc, constants, second)?;
    Ok(!is_below(&second, &first))
}

/// Whether the operands of an ask are in order, if their order makes no difference.
fn is_ordered(alloc: Global, constants: &Constants, ask: &Ask) -> Result<bool, AllocError>
    ensures { IfOk result (λ b. b ≡ is_ordered constants.now (ask_form ask.now)) }
{
    match ask {
        Ask::Leaf { .. } | Ask::Arg(_) | Ask::Const(_) => Ok(true),
        Ask::Not(inner) => is_ordered(alloc, constants, inner),
        Ask::And(left, right) | Ask::Or(left, right) | Ask::Plus(left, right) => {
            if !in_order(alloc, constants, left, right)? {
                return Ok(false);
            }
            if !is_ordered(alloc, constants, left)? {
                return Ok(false);
            }
            is_ordered(alloc, constants, right)
        }
        Ask::Less(left, right) | Ask::Minus(left, right) => {
            if !is_ordered(alloc, constants, left)? {
                return Ok(false);
            }
            is_ordered(alloc, constants, right)
        }
    }
}

/// Whether the operands of all asks are in order.
fn are_ordered(alloc: Global, constants: &Constants, asks: &[Ask]) -> Result<bool, AllocError>
    ensures { IfOk result (λ b. b ≡ list_all (is_ordered constants.now) (map ask_form asks.now)) }
{
    match asks {
        [] => Ok(true),
        [first, rest @ ..] => {
            if !is_ordered(alloc, constants, first)? {
                return Ok(false);
            }
            are_ordered(alloc, constants, rest)
        }
    }
}

/// Whether a design breaks no rule of sorts.
fn is_sorted(alloc: Global, design: &Design) -> Result<bool, AllocError>
    ensures { IfOk result (λ b. b ≡ are_none (faults_of (design_form design.now))) }
{
    match sort_check(alloc, design) {
        Ok(()) => Ok(true),
        Err(DesignError::BadDesign(_)) => Ok(false),
        Err(DesignError::Memory) => Err(AllocError),
    }
}

/// Whether components keep the rules that are asked of them alone.
fn are_good_components(
    alloc: Global,
    setting: &Setting,
    components: &[Component],
) -> Result<bool, AllocError>
    ensures { IfOk result (λ b. b ≡ are_good_components setting.now (map component_form components.now)) }
{
    if !have_kinds(&setting.kinds, components) {
        return Ok(false);
    }
    if !have_effects(components) {
        return Ok(false);
    }
    if !have_starts(&setting.constants, components) {
        return Ok(false);
    }
    let lists = lists_of(alloc, &setting.constants, components)?;
    Ok(is_ascending(&lists))
}

/// Whether asks keep the rules that are asked of them alone.
fn are_good_asks(alloc: Global, setting: &Setting, asks: &[Ask]) -> Result<bool, AllocError>
    ensures { IfOk result (λ b. b ≡ are_good_asks setting.now (map ask_form asks.now)) }
{
    if !have_constants(&setting.constants, asks) {
        return Ok(false);
    }
    are_ordered(alloc, &setting.constants, asks)
}

/// Whether a design keeps the rules of a listing.
pub fn keeps_rules(alloc: Global, setting: &Setting, design: &Design) -> Result<bool, AllocError>
    ensures { IfOk result (λ b. b ≡ keeps_rules setting.now (design_form design.now)) }
{
    let components = design.components.as_slice();
    let asks = design.asks.as_slice();
    if !are_read(components.len(), asks) {
        return Ok(false);
    }
    if !are_good_components(alloc, setting, components)? {
        return Ok(false);
    }
    if !are_good_asks(alloc, setting, asks)? {
        return Ok(false);
    }
    is_sorted(alloc, design)
}
