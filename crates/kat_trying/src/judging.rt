//! Designs that pass the sort check.
ghost use Rattle.std.specs.Prelude.{◌≡◌, [], IfOk, IfSome};
ghost use Rattle.kat_design.specs.Designs.{design_form};
ghost use Rattle.kat_design.specs.Faults.{faults_of};
ghost use Rattle.kat_type.specs.Signatures.{signature_of};
ghost use Rattle.kat_type.specs.Types.{type_form};

use kat_design::{Ask, Component, Design};
use kat_guess::{Guess, Miss, guess_for};
use kat_num::Items;
use kat_sort_check::{DesignError, sort_check};
use kat_type::{SeqType, signature};
use std::alloc::{AllocError, Global};

/// The guess with a number, if there is one and it passes the sort check.
pub fn guessed(alloc: Global, ty: &SeqType, number: u32) -> Result<Option<Design>, AllocError>
    ensures accepted { IfOk result (λ found. IfSome found (λ design. faults_of (design_form design) ≡ [])) }
    ensures agrees { IfOk result (λ found. IfSome found (λ design. signature_of (type_form ty.now) ≡ design.sig)) }
{
    match guess_for(alloc, ty, number) {
        Ok(Guess { components, asks }) => judged(
            alloc,
            ty,
            Items::from_vec(components),
            Items::from_vec(asks),
        ),
        Err(Miss::NoRule) => Ok(None),
        Err(Miss::Memory) => Err(AllocError),
    }
}

/// The design for a type that has these components and asks, if it passes the sort check.
pub fn judged(
    alloc: Global,
    ty: &SeqType,
    components: Items<Component>,
    asks: Items<Ask>,
) -> Result<Option<Design>, AllocError>
    ensures accepted { IfOk result (λ found. IfSome found (λ design. faults_of (design_form design) ≡ [])) }
    ensures agrees { IfOk result (λ found. IfSome found (λ design. signature_of (type_form ty.now) ≡ design.sig)) }
{
    let design = Design {
        sig: signature(alloc, ty)?,
        components,
        asks,
    };
    accepted(alloc, design)
}

/// The design, if it passes the sort check.
fn accepted(alloc: Global, design: Design) -> Result<Option<Design>, AllocError>
    ensures accepted { IfOk result (λ found. IfSome found (λ same. faults_of (design_form same) ≡ [])) }
    ensures same { IfOk result (λ found. IfSome found (λ same. same ≡ design)) }
{
    match sort_check(alloc, &design) {
        Ok(()) => Ok(Some(design)),
        Err(DesignError::BadDesign(_)) => Ok(None),
        Err(DesignError::Memory) => Err(AllocError),
    }
}
