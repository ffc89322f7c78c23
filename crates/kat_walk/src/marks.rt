//! Where a walk is, in a few bytes, and a walk that is there again.
ghost use Rattle.std.specs.Prelude.{◌≡◌, List, IfOk};
ghost use Rattle.std.specs.Option.{IfSome};
ghost use Rattle.kat_walk.specs.Machines.{Held};
ghost use Rattle.kat_walk.specs.Marks.{IsMark, LeadsTo, counts_left};
ghost use Rattle.kat_walk.specs.Walks.{stack_of};

use crate::grammars::Grammar;
use crate::turns::Frame;
use std::alloc::{AllocError, Global};

/// How many tokens are left at each open place, the first one first. `None` if one of the numbers is past 255.
#[tactic(auto, using(crate::proofs::MarkLemmas::counts_more))]
pub(crate) fn counts_of<S: Drop, T: Copy>(
    alloc: Global,
    frames: &[Frame<S, T>],
) -> Result<Option<Vec<u8>>, AllocError>
    ensures { IfOk result (λ counts. IfSome counts (λ v. v.items ≡ counts_left (stack_of frames.now))) }
{
    let mut counts = Vec::with_capacity(alloc, frames.len())?;
    for frame in frames {
        let Ok(left) = u8::try_from(frame.tokens.len().saturating_sub(frame.at)) else {
            return Ok(None);
        };
        counts.push(left)?;
    }
    Ok(Some(counts))
}

/// Opens the places of a walk from a state, at each of which this many tokens are left.
pub(crate) fn open_places<G: Grammar>(
    alloc: Global,
    grammar: &G,
    state: G::State,
    frames: &mut Vec<Frame<G::State, G::Token>>,
    counts: &[u8],
) -> Result<(), AllocError>
    requires { (stack : List (Held G.State G.Token)) × LeadsTo (G.machine grammar.now) state counts.now (stack_of frames.old.items) stack }
    ensures { IfOk result (λ _. (stack : List (Held G.State G.Token))
        → LeadsTo (G.machine grammar.now) state counts.now (stack_of frames.old.items) stack → stack_of frames.new.items ≡ stack) }
{
    match counts {
        [] => Ok(()),
        [left, more @ ..] => {
            let tokens = grammar.allowed(alloc, &state)?;
            let at = tokens.len() - *left as usize;
            let chosen = tokens[at - 1];
            let behind = grammar.step(alloc, &state, chosen)?;
            frames.push(Frame {
                state,
                chosen,
                tokens,
                at,
            })?;
            open_places(alloc, grammar, behind, frames, more)
        }
    }
}
