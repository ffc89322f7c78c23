//! The state of a design after the operations of a history.
ghost use Rattle.std.specs.Prelude.{◌≡◌, ◌≤◌, All, IfOk, length};
ghost use Rattle.kat_design.specs.Denotations.{denotation_of};
ghost use Rattle.kat_design.specs.Designs.{design_form};
ghost use Rattle.kat_design.specs.Fitting.{FitsSignature};
ghost use Rattle.kat_design.specs.Sorted as designs;
ghost use Rattle.kat_histories.specs.Histories.{IsTimed};

use kat_design::{Design, State, denotations_are_small, states_go_together};
use kat_replica::Replica;
use kat_type::Done;
use std::alloc::{AllocError, Global};

/// The state of a design after operations: at most 100,000 of its signature, each at a time above 0. The design is accepted
/// (`sort_check`).
pub fn denotation(alloc: Global, design: &Design, ones: &[Done]) -> Result<State, AllocError>
    requires sorted { designs.IsWellSorted (design_form design.now) }
    requires few { length ones.now ≤ 100_000 }
    requires fits { All (FitsSignature design.now.sig) ones.now }
    requires timed { All IsTimed ones.now }
    ensures { IfOk result (λ state. state.parts ≡ denotation_of (design_form design.now) ones.now) }
{
    states_go_together();
    denotations_are_small();
    let mut replica = Replica::new(alloc, design)?;
    for one in ones {
        // A replica does only its own operations, each later than the ones before. Here one state takes those of both.
        replica.clock = 0;
        replica.apply(alloc, design, one)?;
    }
    Ok(replica.state)
}
