//! The sort check of a design.
ghost use Rattle.std.specs.Prelude.{◌≡◌, [], IfErr, IfOk, OnOk, map};
ghost use Rattle.kat_design.specs.Designs.{component_form, design_form};
ghost use Rattle.kat_design.specs.Faults.{component_faults, each_faults, faults_of, first_of, is_too_large};
ghost use Rattle.kat_sort_check.specs.Refusals.{IsRefusal};

use crate::asks::asks_fault;
use crate::components::component_fault;
use crate::errors::DesignError;
use crate::faults::{earlier, here_if, within};
use kat_design::{COMPONENT_LIMIT, Component, Design, SIZE_LIMIT, size};
use kat_num::Items;
use kat_type::OpSig;
use std::alloc::{AllocError, Global};

/// Judges a design: `BadDesign` with the first wrong place in the order of its file, or `Ok` if no rule is broken.
///
/// The rules are those of sorts, chains, lists' lengths and numbers in range. The limits on components and size are at
/// the design itself. A list of the wrong length is a fault at the list, before those of its elements. A `bool` is no key,
/// and a number past 64 bits and a code that is no name's are refused where they are, since no file has them.
pub fn sort_check(alloc: Global, design: &Design) -> Result<(), DesignError>
    ensures ok { OnOk result (faults_of (design_form design.now) ≡ []) }
    ensures refused { IfErr result (IsRefusal (faults_of (design_form design.now))) }
{
    match first_fault(alloc, design)? {
        Some(place) => Err(DesignError::BadDesign(place)),
        None => Ok(()),
    }
}

/// The first wrong place of a design.
fn first_fault(alloc: Global, design: &Design) -> Result<Option<Items<u32>>, AllocError>
    ensures { IfOk result (λ fault. fault ≡ first_of (faults_of (design_form design.now))) }
{
    if is_too_large(design) {
        return within(alloc, 3, here_if(alloc, true));
    }
    let components = design.components.as_slice();
    let ops = design.sig.ops.as_slice();
    let queries = design.sig.queries.as_slice();
    let first = within(alloc, 0, components_fault(alloc, ops, components)?)?;
    let asks = asks_fault(alloc, components, design.asks.as_slice(), queries)?;
    let second = within(alloc, 1, asks)?;
    within(alloc, 3, earlier(first, second))
}

/// Whether there are too many components, or the design is too large.
fn is_too_large(design: &Design) -> bool
    ensures { result ≡ is_too_large (design_form design.now) }
{
    design.components.as_slice().len() > COMPONENT_LIMIT || size(design) as usize > SIZE_LIMIT
}

/// The first fault of the components.
fn components_fault(
    alloc: Global,
    ops: &[OpSig],
    components: &[Component],
) -> Result<Option<Items<u32>>, AllocError>
    ensures { IfOk result (λ fault. fault ≡ first_of (each_faults (component_faults ops.now) 0 (map component_form components.now))) }
{
    for i in 0..components.len() {
        let fault = component_fault(alloc, ops, &components[i])?;
        if fault.is_some() {
            return within(alloc, i, fault);
        }
    }
    Ok(None)
}
