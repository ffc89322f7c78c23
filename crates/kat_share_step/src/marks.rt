//! The marks of a share as they grow.
ghost use Rattle.std.specs.Prelude.{◌≡◌, ◌≤◌, ◌^◌, ◌∷◌, [], IfOk};
ghost use Rattle.kat_lattice.specs.Tallies.{tallies_joined};
ghost use Rattle.kat_node.specs.Nodes.{AreSums};

use kat_lattice::{Lattice, Tally};
use kat_node::packets_leave_nodes;
use std::alloc::{AllocError, Global};

/// Marks with a time as a replica's.
pub(crate) fn with_mark(
    alloc: Global,
    marks: &Tally,
    number: u32,
    time: u64,
) -> Result<Tally, AllocError>
    requires least { 1 ≤ number }
    requires most { number ≤ 32 }
    requires begun { 1 ≤ time }
    requires early { time ≤ 10 ^ 9 }
    requires sums { AreSums marks.now }
    ensures joined { IfOk result (λ next. next ≡ tallies_joined marks.now ((number, time) ∷ [])) }
    ensures sums { IfOk result AreSums }
{
    let mut entries = Vec::new(alloc);
    entries.push((number, u128::from(time)))?;
    let mark = Tally::from_sums(entries);
    let next = greater_marks(alloc, marks, &mark)?;
    Ok(next)
}

/// The greater mark of each replica.
pub(crate) fn greater_marks(
    alloc: Global,
    marks: &Tally,
    others: &Tally,
) -> Result<Tally, AllocError>
    requires mine { AreSums marks.now }
    requires theirs { AreSums others.now }
    ensures joined { IfOk result (λ both. both ≡ tallies_joined marks.now others.now) }
    ensures sums { IfOk result AreSums }
{
    packets_leave_nodes();
    let mut both = marks.copy(alloc)?;
    both.goes_with(others);
    both.join(alloc, others)?;
    Ok(both)
}
