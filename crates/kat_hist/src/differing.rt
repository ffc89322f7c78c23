//! Whether a design answers as a sequential type does.
ghost use Rattle.std.specs.Bool.{Decides};
ghost use Rattle.std.specs.Prelude.{◌≡◌, ◌^◌, All, IfOk};
ghost use Rattle.kat_design.specs.Denotations.{denotation_of};
ghost use Rattle.kat_design.specs.Designs.{design_form};
ghost use Rattle.kat_design.specs.Small.{IsSmallDesign};
ghost use Rattle.kat_design.specs.Sorted as designs;
ghost use Rattle.kat_histories.specs.Differing.{Differs};
ghost use Rattle.kat_hist.specs.Firsts.{IsFirstPlace};
ghost use Rattle.kat_expr.specs.Limits.{IsAtMost};
ghost use Rattle.kat_histories.specs.Orders.{orders_of};
ghost use Rattle.kat_histories.specs.Histories.{FitsHistory, histories, history_of};
ghost use Rattle.kat_histories.specs.Pools.{asks_of};
ghost use Rattle.kat_histories.specs.declared.calls.Call as calls;
ghost use Rattle.kat_hist.specs.Arranging.{tells_apart};
ghost use Rattle.std.specs.List.{list_any};
ghost use Rattle.kat_type.specs.Fits as types;
ghost use Rattle.kat_type.specs.Signatures.{signature_of};
ghost use Rattle.kat_type.specs.Types.{type_form};
ghost use Rattle.kat_type.specs.Within.{IsWithinLimits};

use crate::arrangements::some_order_tells;
use kat_design::{Design, denotations_are_small};
use kat_histories::{Call, Histories, History, asks_of, denotation, histories_fit};
use kat_sort_check::{accepted_designs_are_small, accepted_designs_are_well_sorted};
use kat_type::{Done, SeqType, signatures_are_small};
use std::alloc::{AllocError, Global};

/// Whether a design differs from a type on a history: some query with arguments of the pools is answered by the type, after some
/// order of the operations that respects the ranks, otherwise than by the design.
///
/// The design is accepted (`sort_check`), its signature is the type's, and the history has at most three operations of that
/// signature, each once, at times above 0.
pub fn differs(
    alloc: Global,
    ty: &SeqType,
    design: &Design,
    history: &History,
) -> Result<bool, AllocError>
    requires limits { IsWithinLimits (type_form ty.now) }
    requires type_sorted { types.IsWellSorted (type_form ty.now) }
    requires sorted { designs.IsWellSorted (design_form design.now) }
    requires agrees { design.now.sig ≡ signature_of (type_form ty.now) }
    requires fits { FitsHistory design.now.sig history.now }
    ensures { IfOk result (λ found. Decides found (Differs (type_form ty.now) (design_form design.now) history.now)) }
{
    signatures_are_small();
    accepted_designs_are_well_sorted();
    accepted_designs_are_small();
    let asks = asks_of(alloc, &design.sig)?;
    differs_on(alloc, ty, design, &asks, history.ops.as_slice())
}

/// The number of the first history of a type on which a design differs from it, or `None` if it differs on none.
///
/// The design is accepted (`sort_check`), and its signature is the type's.
pub fn first_difference(
    alloc: Global,
    ty: &SeqType,
    design: &Design,
) -> Result<Option<u64>, AllocError>
    requires limits { IsWithinLimits (type_form ty.now) }
    requires type_sorted { types.IsWellSorted (type_form ty.now) }
    requires sorted { designs.IsWellSorted (design_form design.now) }
    requires agrees { design.now.sig ≡ signature_of (type_form ty.now) }
    ensures { IfOk result
        (IsFirstPlace (Differs (type_form ty.now) (design_form design.now)) (histories (signature_of (type_form ty.now)))) }
{
    signatures_are_small();
    accepted_designs_are_well_sorted();
    accepted_designs_are_small();
    let whole = Histories::new(alloc, ty)?;
    let asks = asks_of(alloc, &design.sig)?;
    first_among(alloc, ty, design, &asks, &whole)
}

/// The number of the first of the histories on which a design differs, by one of these asks.
fn first_among(
    alloc: Global,
    ty: &SeqType,
    design: &Design,
    asks: &[Call],
    whole: &Histories,
) -> Result<Option<u64>, AllocError>
    requires limits { IsWithinLimits (type_form ty.now) }
    requires sorted { designs.IsWellSorted (design_form design.now) }
    requires small { IsSmallDesign (design_form design.now) }
    requires agrees { design.now.sig ≡ signature_of (type_form ty.now) }
    requires asks { asks.now ≡ asks_of design.now.sig }
    requires whole { whole.now ≡ histories design.now.sig }
    ensures { IfOk result (IsFirstPlace (Differs (type_form ty.now) (design_form design.now)) whole.now) }
{
    histories_fit();
    for i in 0..whole.len() {
        let history = whole.get(alloc, i)?;
        if differs_on(alloc, ty, design, asks, history.ops.as_slice())? {
            return Ok(Some(i));
        }
    }
    Ok(None)
}

/// Whether a design differs from a type on these operations, by one of these asks.
fn differs_on(
    alloc: Global,
    ty: &SeqType,
    design: &Design,
    asks: &[Call],
    ones: &[Done],
) -> Result<bool, AllocError>
    requires limits { IsWithinLimits (type_form ty.now) }
    requires sorted { designs.IsWellSorted (design_form design.now) }
    requires small { IsSmallDesign (design_form design.now) }
    requires asks { All (λ (ask : calls.Call). All (IsAtMost (2 ^ 100)) ask.args) asks.now }
    requires fits { FitsHistory design.now.sig (history_of ones.now) }
    ensures { IfOk result (λ found. found ≡ list_any (tells_apart (type_form ty.now) (design_form design.now)
        (denotation_of (design_form design.now) ones.now) asks.now) (orders_of ones.now)) }
{
    denotations_are_small();
    let state = denotation(alloc, design, ones)?;
    some_order_tells(alloc, ty, design, &state, asks, ones)
}
