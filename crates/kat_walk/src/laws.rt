//! What the lists of a walk are.
ghost use Rattle.std.specs.Prelude.{ℕ, ◌≤◌, List, length};
ghost use Rattle.kat_walk.specs.Machines.{Accepts, IsOneOf, words};

use crate::grammars::Grammar;

/// The lists that a walk gives are exactly those that the machine accepts and that aren't too long.
pub fn words_are_accepted<G: Grammar>(grammar: &G)
    ensures all { (most : ℕ) (s : G.State) (w : List G.Token) → IsOneOf w (words (G.machine grammar.now) most s)
        → Accepts (G.machine grammar.now) s w }
    ensures each { (most : ℕ) (s : G.State) (w : List G.Token) → Accepts (G.machine grammar.now) s w → length w ≤ most
        → IsOneOf w (words (G.machine grammar.now) most s) }
{}
