//! Ranks are judged: their elements are parameters, and match those of the first operation.
ghost use Rattle.std.specs.Prelude.{◌≡◌, map, IfOk};
ghost use Rattle.std.specs.List.{flat_map};
ghost use Rattle.kat_judging.specs.Faults.{behind_elements, element_family, element_faults, element_param_faults, element_start, first_of, kind_faults, match_faults, param_family, part_family, part_faults};

use kat_grammar::{Parameter, RankElement, RankPart};
use kat_judging::{
    Declared, Family, Fault, earlier, family_of, fault_if, first_named, is_other_family, is_truths,
};
use std::alloc::{AllocError, Global};

/// The first element that is no parameter, or a truth value.
pub(crate) fn elements_fault(params: &[Parameter], parts: &[RankPart]) -> Option<Fault>
    ensures { result ≡ first_of (flat_map (part_faults params.now) parts.now) }
{
    let mut first = None;
    for part in parts {
        first = earlier(first, element_fault(params, part.element));
    }
    first
}

/// The fault of an element.
fn element_fault(params: &[Parameter], element: RankElement) -> Option<Fault>
    ensures { result ≡ first_of (element_faults params.now element) }
{
    match element {
        RankElement::Parameter(word) => param_fault(first_named(params, word.code), word.at),
        RankElement::Digit { .. } | RankElement::Time { .. } | RankElement::Replica { .. } => None,
    }
}

/// The fault of a word that must be a parameter, and no truth value.
fn param_fault(param: Option<Declared<Parameter>>, at: usize) -> Option<Fault>
    ensures { result ≡ first_of (element_param_faults param at) }
{
    match param {
        Some(param) => fault_if(is_truths(Some(family_of(param.it.sort))), 7, at),
        None => fault_if(true, 5, at),
    }
}

/// The kinds of a rank's elements, if they are known.
pub(crate) fn families(
    alloc: Global,
    params: &[Parameter],
    parts: &[RankPart],
) -> Result<Vec<Option<Family>>, AllocError>
    ensures { IfOk result (λ families. families.items ≡ map (part_family params.now) parts.now) }
{
    let mut families = Vec::new(alloc);
    for part in parts {
        families.push(element_family(params, part.element))?;
    }
    Ok(families)
}

/// The kind of an element, if it is known.
fn element_family(params: &[Parameter], element: RankElement) -> Option<Family>
    ensures { result ≡ element_family params.now element }
{
    match element {
        RankElement::Parameter(word) => param_family(first_named(params, word.code)),
        RankElement::Digit { .. } | RankElement::Time { .. } | RankElement::Replica { .. } => {
            Some(Family::Numbers)
        }
    }
}

/// The kind of a parameter in a rank.
fn param_family(param: Option<Declared<Parameter>>) -> Option<Family>
    ensures { result ≡ param_family param }
{
    match family_of(param?.it.sort) {
        Family::Truths => None,
        family => Some(family),
    }
}

/// The first element that is of another kind than that of the first operation's rank, or the end of the shorter one.
#[tactic(auto, using(kat_judging::proofs::Firsts::first_append))]
pub(crate) fn match_fault(
    families: &[Option<Family>],
    params: &[Parameter],
    parts: &[RankPart],
    colon: usize,
) -> Option<Fault>
    ensures { result ≡ first_of (match_faults families.now params.now parts.now colon) }
{
    let behind = behind_elements(families.len().min(parts.len()), parts, colon);
    earlier(
        kinds_fault(families, params, parts),
        fault_if(families.len() != parts.len(), 8, behind),
    )
}

/// The token after this many elements: the comma before the next one, or the colon.
fn behind_elements(count: usize, parts: &[RankPart], colon: usize) -> usize
    ensures { result ≡ behind_elements count parts.now colon }
{
    match parts.get(count) {
        Some(part) => part.lead,
        None => colon,
    }
}

/// The first element that is of another kind.
fn kinds_fault(
    families: &[Option<Family>],
    params: &[Parameter],
    parts: &[RankPart],
) -> Option<Fault>
    ensures { result ≡ first_of (kind_faults families.now params.now parts.now) }
{
    let [family, families @ ..] = families else {
        return None;
    };
    let [part, parts @ ..] = parts else {
        return None;
    };
    let other = is_other_family(*family, element_family(params, part.element));
    earlier(
        fault_if(other, 8, element_start(part.element)),
        kinds_fault(families, params, parts),
    )
}

/// The first token of an element.
fn element_start(element: RankElement) -> usize
    ensures { result ≡ element_start element }
{
    match element {
        RankElement::Digit { at, .. } => at,
        RankElement::Time { at } => at,
        RankElement::Replica { at } => at,
        RankElement::Parameter(word) => word.at,
    }
}
