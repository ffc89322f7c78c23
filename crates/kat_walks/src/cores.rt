//! The core of a leaf.
ghost use Rattle.std.specs.Prelude.{◌≡◌, ◌↔◌, ◌∷◌, ◌++◌, ℤ, List, [], IfOk, IsTrue, OnOk, false, reverse};
ghost use Rattle.kat_clause.specs.Clauses.{AreAmong, Follows, opposites};
ghost use Rattle.kat_clause.specs.Known.{AreUpTo};
ghost use Rattle.kat_form.specs.Encodings.{encoding};
ghost use Rattle.kat_walks.specs.Stands.{IsNodeAt, StandsAt, added_by};
ghost use Rattle.kat_walks.specs.Walks.{Stays};
ghost use Rattle.kat_walks.specs.Walks.Judgement.{closes};

use kat_clause::Clauses;
use kat_form::Encoded;
use std::alloc::{AllocError, Global};

/// What stays of a leaf's literals, with the clause that the leaf adds, if it adds one.
pub(crate) fn leaf_core(
    alloc: Global,
    encoded: &Encoded,
    known: &mut Clauses,
    path: &[i32],
    own: &Option<Vec<i32>>,
) -> Result<Vec<i32>, AllocError>
    requires stands { StandsAt (encoding encoded.now) encoded.now.numbers known.old path.now }
    requires node { IsNodeAt (encoding encoded.now) encoded.now.numbers path.now (closes (added_by own.now)) }
    ensures core { IfOk result (λ core. Stays ((encoding encoded.now).clauses ++ added_by own.now) (reverse path.now) [] core.items) }
    ensures stands { IfOk result (λ core. StandsAt (encoding encoded.now) encoded.now.numbers known.new path.now) }
{
    match own {
        None => plain_core(alloc, encoded, known, path),
        Some(clause) => line_core(alloc, encoded, known, path, clause),
    }
}

fn plain_core(
    alloc: Global,
    encoded: &Encoded,
    known: &mut Clauses,
    path: &[i32],
) -> Result<Vec<i32>, AllocError>
    requires { StandsAt (encoding encoded.now) encoded.now.numbers known.old path.now }
    ensures core { IfOk result (λ core. Stays ((encoding encoded.now).clauses ++ []) (reverse path.now) [] core.items) }
    ensures stands { IfOk result (λ core. StandsAt (encoding encoded.now) encoded.now.numbers known.new path.now) }
{
    let _numbers = encoded.numbers;
    let core = shrink(alloc, known, path)?;
    known.undo(0);
    assume_all(known, path)?;
    Ok(core)
}

fn line_core(
    alloc: Global,
    encoded: &Encoded,
    known: &mut Clauses,
    path: &[i32],
    clause: &Vec<i32>,
) -> Result<Vec<i32>, AllocError>
    requires stands { StandsAt (encoding encoded.now) encoded.now.numbers known.old path.now }
    requires node { IsNodeAt (encoding encoded.now) encoded.now.numbers path.now (closes (clause.now.items ∷ [])) }
    ensures core { IfOk result (λ core. Stays ((encoding encoded.now).clauses ++ clause.now.items ∷ []) (reverse path.now) [] core.items) }
    ensures stands { IfOk result (λ core. StandsAt (encoding encoded.now) encoded.now.numbers known.new path.now) }
{
    let _numbers = encoded.numbers;
    let core = tried_with(alloc, known, path, clause)?;
    assume_all(known, path)?;
    Ok(core)
}

/// The same with a clause that is taken back after it.
fn tried_with(
    alloc: Global,
    known: &mut Clauses,
    path: &[i32],
    clause: &[i32],
) -> Result<Vec<i32>, AllocError>
    requires assumed { known.old.assumed ≡ path.now }
    requires up_to { AreUpTo known.old.greatest path.now }
    requires clause_up_to { AreUpTo known.old.greatest clause.now }
    ensures core { IfOk result (λ core. (F : List (List ℤ)) → AreAmong known.old.clauses F → AreAmong F known.old.clauses
        → Stays (F ++ clause.now ∷ []) (reverse path.now) [] core.items) }
    ensures known { IfOk result (λ core. known.new ≡ record known.old { assumed = []; settled = false }) }
{
    known.add(alloc, clause)?;
    let core = shrink(alloc, known, path)?;
    known.undo(0);
    known.take_back();
    Ok(core)
}

/// Assumes literals, one after the other.
fn assume_all(known: &mut Clauses, literals: &[i32]) -> Result<(), AllocError>
    requires { AreUpTo known.old.greatest literals.now }
    ensures assumed { OnOk result (known.new.assumed ≡ known.old.assumed ++ literals.now) }
    ensures clauses { OnOk result (known.new.clauses ≡ known.old.clauses) }
    ensures greatest { OnOk result (known.new.greatest ≡ known.old.greatest) }
{
    for literal in literals {
        known.assume(*literal)?;
    }
    Ok(())
}

/// The literals of the assumed path that stay, tried from the last to the first. Fewer literals are assumed after it.
fn shrink(alloc: Global, known: &mut Clauses, path: &[i32]) -> Result<Vec<i32>, AllocError>
    requires assumed { known.old.assumed ≡ path.now }
    requires up_to { AreUpTo known.old.greatest path.now }
    ensures core { IfOk result (λ core. Stays known.old.clauses (reverse path.now) [] core.items) }
    ensures clauses { known.new.clauses ≡ known.old.clauses }
    ensures greatest { known.new.greatest ≡ known.old.greatest }
{
    let mut stay = Vec::new(alloc);
    let mut i = path.len();
    'back: while i > 0 {
        i -= 1;
        known.undo(i);
        if falsifies(known, &stay)? {
            continue;
        }
        stay.push(path[i])?;
    }
    Ok(stay)
}

/// Whether a clause is falsified with these literals assumed too, which are assumed from then on.
fn falsifies(known: &mut Clauses, literals: &[i32]) -> Result<bool, AllocError>
    requires { AreUpTo known.old.greatest literals.now }
    ensures falsified { IfOk result (λ b. IsTrue b ↔ Follows known.old.clauses (opposites (known.old.assumed ++ literals.now))) }
    ensures assumed { IfOk result (λ b. known.new.assumed ≡ known.old.assumed ++ literals.now) }
    ensures clauses { known.new.clauses ≡ known.old.clauses }
    ensures greatest { known.new.greatest ≡ known.old.greatest }
{
    for literal in literals {
        known.assume(*literal)?;
    }
    known.propagate()
}
