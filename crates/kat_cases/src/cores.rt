//! The core of a leaf, the core of a split, and their lines.
ghost use Rattle.std.specs.Prelude.{◌≡◌, ◌+◌, ◌<◌, ◌↔◌, unsigned_abs, [], ◌++◌, IfOk, OnOk, IsTrue, reverse, ◌||◌, nat_lt, Option, option_map, IfSome};
ghost use Rattle.std.specs.List.{prefix_len};
ghost use Rattle.kat_clause.specs.Clauses.{Follows, opposites};
ghost use Rattle.kat_watch.specs.Watched.{AreLiterals};
ghost use Rattle.kat_cases.specs.Guests.{MayBeAssumed, with_guest};
ghost use Rattle.kat_cases.specs.Walks.{Shrinks, put, ascending, joined, has_literal};
ghost use Rattle.kat_cases.specs.Stacks.{AreSmall};

use crate::assumptions::Assumptions;
use kat_resolution::opposite;
use std::alloc::{AllocError, Global};

/// The literals of the assumed path that stay, tried from the last to the first, if the guest is a clause too. Afterwards fewer literals
/// are assumed.
pub(crate) fn shrink(
    alloc: Global,
    known: &mut Assumptions,
    path: &[i32],
    guest: Option<&[i32]>,
) -> Result<Vec<i32>, AllocError>
    requires assumed { known.old.assumed ≡ path.now }
    requires path { MayBeAssumed known.old.greatest path.now }
    requires guest { IfSome guest (λ g. AreLiterals known.old.greatest g.now) }
    ensures core { IfOk result (λ core. Shrinks (with_guest known.old.clauses (option_map (λ g. g.now) guest.entry))
        (reverse path.now) [] core.items) }
    ensures clauses { known.new.clauses ≡ known.old.clauses }
    ensures greatest { known.new.greatest ≡ known.old.greatest }
{
    let mut stay = Vec::new(alloc);
    let mut i = path.len();
    'back: while i > 0 {
        i -= 1;
        known.undo(i);
        if falsifies(known, &stay, guest)? {
            continue;
        }
        stay.push(path[i])?;
    }
    Ok(stay)
}

/// Whether a clause is falsified with these literals assumed too, which are assumed from then on, if the guest is a clause too.
pub(crate) fn falsifies(
    known: &mut Assumptions,
    literals: &[i32],
    guest: Option<&[i32]>,
) -> Result<bool, AllocError>
    requires literals { MayBeAssumed known.old.greatest (known.old.assumed ++ literals.now) }
    requires guest { IfSome guest (λ g. AreLiterals known.old.greatest g.now) }
    ensures falsified { IfOk result (λ b. IsTrue b ↔ Follows (with_guest known.old.clauses (option_map (λ g. g.now) guest.entry))
        (opposites (known.old.assumed ++ literals.now))) }
    ensures assumed { IfOk result (λ b. known.new.assumed ≡ known.old.assumed ++ literals.now) }
    ensures clauses { known.new.clauses ≡ known.old.clauses }
    ensures greatest { known.new.greatest ≡ known.old.greatest }
{
    for literal in literals {
        known.assume(*literal)?;
    }
    known.propagate_with(guest)
}

/// The literals of the path, the last one first, that are in one of two cores.
pub(crate) fn join(
    alloc: Global,
    path: &[i32],
    first: &[i32],
    second: &[i32],
) -> Result<Vec<i32>, AllocError>
    ensures { IfOk result (λ core. core.items ≡ joined (reverse path.now) first.now second.now) }
{
    path.iter()
        .rev()
        .copied()
        .filter(|k| is_in_one(*k, first, second))
        .collect(alloc)
}

/// Whether one of two cores has the literal.
fn is_in_one(literal: i32, first: &[i32], second: &[i32]) -> bool
    ensures { result ≡ (has_literal literal first.now || has_literal literal second.now) }
{
    uses(first, literal) || uses(second, literal)
}

/// Whether the core has the literal.
pub(crate) fn uses(core: &[i32], literal: i32) -> bool
    ensures { result ≡ has_literal literal core.now }
{
    core.contains(&literal)
}

/// The opposites of the literals, by variable.
pub(crate) fn denial(alloc: Global, core: &[i32]) -> Result<Vec<i32>, AllocError>
    requires { AreSmall core.now }
    ensures { IfOk result (λ lits. lits.items ≡ ascending (opposites core.now)) }
{
    let mut lits = Vec::new(alloc);
    let mut i = core.len();
    'back: while i > 0 {
        i -= 1;
        put_in(&mut lits, opposite(core[i]))?;
    }
    Ok(lits)
}

/// Puts a literal before those of no lower variable.
fn put_in(lits: &mut Vec<i32>, literal: i32) -> Result<(), AllocError>
    ensures { OnOk result (lits.new.items ≡ put literal lits.old.items) }
{
    let place = lower_front(lits, literal.unsigned_abs());
    lits.insert(place, literal)?;
    Ok(())
}

/// How many literals from the first on are of lower variables.
fn lower_front(lits: &[i32], variable: u32) -> usize
    ensures { result ≡ prefix_len (λ k. nat_lt (unsigned_abs k) variable) lits.now }
{
    lits.iter()
        .take_while(|k| k.unsigned_abs() < variable)
        .count()
}
