//! The difference of a state from a known one.
ghost use Rattle.std.specs.Prelude.{IfOk, []};
ghost use Rattle.std.specs.List.{AllByRecursion};
ghost use Rattle.kat_design.specs.Denotations.{denotation_of};
ghost use Rattle.kat_design.specs.Designs.{design_form};
ghost use Rattle.kat_design.specs.Meanings.{are_kin};
ghost use Rattle.kat_design.specs.Parts.{PartsKin};
ghost use Rattle.kat_design.specs.Sorted.{IsWellSorted};
ghost use Rattle.kat_difference.specs.States.{IsBegun, IsDifference, ToldEach};

use crate::parts::part_difference;
use kat_design::{Design, Part, State};
use kat_num::Items;
use kat_replica::Replica;
use std::alloc::{AllocError, Global};

/// What a state of a design has that a known one lacks: joined to the known one, or to any above it, it gives what the state gives
/// there; and it is the least that does, if no cell is a pair. The only error is that memory ran out.
pub fn state_difference(
    alloc: Global,
    design: &Design,
    known: &State,
    whole: &State,
) -> Result<State, AllocError>
    requires sorted { IsWellSorted (design_form design.now) }
    requires known { are_kin PartsKin (denotation_of (design_form design.now) []) known.now.parts }
    requires whole { are_kin PartsKin (denotation_of (design_form design.now) []) whole.now.parts }
    ensures { IfOk result (λ told. IsDifference (denotation_of (design_form design.now) []) known.now.parts whole.now.parts told.parts) }
{
    let begun = Replica::new(alloc, design)?;
    let told = parts_difference(
        alloc,
        begun.state.parts.as_slice(),
        known.parts.as_slice(),
        whole.parts.as_slice(),
    )?;
    Ok(State {
        parts: Items::from_vec(told),
    })
}

/// What each part has that the known one lacks.
fn parts_difference(
    alloc: Global,
    starts: &[Part],
    knowns: &[Part],
    wholes: &[Part],
) -> Result<Vec<Part>, AllocError>
    requires begun { AllByRecursion IsBegun starts.now }
    requires known { are_kin PartsKin starts.now knowns.now }
    requires whole { are_kin PartsKin starts.now wholes.now }
    ensures { IfOk result (λ v. ToldEach starts.now knowns.now wholes.now v.items) }
{
    let Some((start, starts)) = starts.split_first() else {
        return Ok(Vec::new(alloc));
    };
    let Some((known, knowns)) = knowns.split_first() else {
        return Ok(Vec::new(alloc));
    };
    let Some((whole, wholes)) = wholes.split_first() else {
        return Ok(Vec::new(alloc));
    };
    let told = part_difference(alloc, start, known, whole)?;
    let mut all = parts_difference(alloc, starts, knowns, wholes)?;
    all.insert(0, told)?;
    Ok(all)
}
