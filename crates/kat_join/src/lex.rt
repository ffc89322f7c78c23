//! Values of two parts, one under the other.

use super::{Chain, Flat, Lattice};
use std::alloc::{AllocError, Global};

/// A value under a first part that grows: the greater first part wins, and if the first parts are equal the
/// second parts are joined.
///
/// With a time and a replica number as its first parts this is a register whose last write wins.
///
/// ```
/// let mut register = Lex { first: Max(1), second: Max(5) };
/// register.join_flat(&Lex { first: Max(2), second: Max(3) });
/// // register is Lex { first: Max(2), second: Max(3) }
/// ```
#[derive(Clone, Copy, PartialEq, Eq, PartialOrd, Ord, Hash, Debug)]
pub struct Lex<A, B> {
    pub first: A,
    pub second: B,
}

impl<A: Chain + Copy, B: Flat + Copy> Lattice for Lex<A, B> {
    ghost use Rattle.kat_join.specs.Parts.{lexes_kin, lexes_joined};
    ghost use Rattle.kat_join.specs.Lexes.{lex_laws};

    ghost kin = { lexes_kin A.kin B.kin };

    ghost joined = { lexes_joined A.at_most B.joined };

    fn join(&mut self, _alloc: Global, other: &Self) -> Result<(), AllocError> {
        self.join_flat(other);
        Ok(())
    }

    fn leq(&self, other: &Self) -> bool {
        self.first.leq(&other.first)
            && (!other.first.leq(&self.first) || self.second.leq(&other.second))
    }

    fn copy(&self, _alloc: Global) -> Result<Self, AllocError> {
        Ok(*self)
    }

    ghost laws = { lex_laws A.laws A.chain_laws B.laws };
}

impl<A: Chain + Copy, B: Flat + Copy> Flat for Lex<A, B> {
    fn join_flat(&mut self, other: &Self) {
        if !self.first.leq(&other.first) {
            return;
        }
        if other.first.leq(&self.first) {
            self.second.join_flat(&other.second);
        } else {
            *self = *other;
        }
    }
}

impl<A: Chain + Copy, B: Chain + Copy> Chain for Lex<A, B> {
    ghost use Rattle.kat_join.specs.Parts.{lexes_at_most};
    ghost use Rattle.kat_join.specs.Lexes.{lex_chain};

    ghost at_most = { lexes_at_most A.at_most B.at_most };

    ghost chain_laws = { lex_chain A.laws A.chain_laws B.laws B.chain_laws };
}
