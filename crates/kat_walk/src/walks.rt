//! Walks over the lists that a grammar accepts.
ghost use Rattle.std.specs.Prelude.{◌≡◌, ◌<◌, false, List, IfErr, IfOk, option_map};
ghost use Rattle.std.specs.Option.{IfSome};
ghost use Rattle.kat_walk.specs.Machines.{Held, words};
ghost use Rattle.kat_walk.specs.Marks.{AreOpen, EndsTaken, IsMark, KeepsOpen, counts_left};
ghost use Rattle.kat_walk.specs.Walks.{Hands, IsFirst, stack_of, to_come};

use crate::grammars::Grammar;
use crate::marks::{counts_of, open_places};
use crate::turns::{Frame, advance, choose, word};
use std::alloc::{AllocError, Global};
use std::marker::Model;

/// A walk: the places that are open, and how long a list may be.
#[derive(Drop)]
pub struct Walk<S: Drop, T: Copy> {
    most: usize,
    frames: Vec<Frame<S, T>>,
}

impl<S: Drop, T: Copy> Model for Walk<S, T> {
    ghost use Rattle.kat_walk.specs.Walks.{Pending, pending};

    ghost Value = { Pending S T };

    ghost view = { λ walk. pending walk.most walk.frames.items };
}

/// A walk over all lists of at most `most` tokens that the grammar accepts from a state.
pub fn walk_from<G: Grammar>(
    alloc: Global,
    grammar: &G,
    state: G::State,
    most: usize,
) -> Result<Walk<G::State, G::Token>, AllocError>
    requires some { 0 < most }
    requires open { (G.machine grammar.now).done state ≡ false }
    ensures all { IfOk result (λ walk. to_come (G.machine grammar.now) walk ≡ words (G.machine grammar.now) most state) }
    ensures places { IfOk result (λ walk. AreOpen (G.machine grammar.now) state walk.stack) }
    ensures most { IfOk result (λ walk. walk.most ≡ most) }
{
    let frames = first_frames(alloc, grammar, state)?;
    Ok(Walk { most, frames })
}

/// The place at which a walk begins, unless no token may follow there.
fn first_frames<G: Grammar>(
    alloc: Global,
    grammar: &G,
    state: G::State,
) -> Result<Vec<Frame<G::State, G::Token>>, AllocError>
    ensures { IfOk result (λ frames. IsFirst (G.machine grammar.now) state (stack_of frames.items)) }
{
    let mut frames = Vec::new(alloc);
    let tokens = grammar.allowed(alloc, &state)?;
    match tokens.first().copied() {
        None => Ok(frames),
        Some(chosen) => {
            frames.push(Frame {
                state,
                chosen,
                tokens,
                at: 0,
            })?;
            Ok(frames)
        }
    }
}

/// The next list, or `None` at the end. If memory runs out, it is still to come.
pub fn next_list<G: Grammar>(
    alloc: Global,
    grammar: &G,
    walk: &mut Walk<G::State, G::Token>,
) -> Result<Option<Vec<G::Token>>, AllocError>
    ensures handed { IfOk result (λ next. Hands (to_come (G.machine grammar.now) walk.old) (to_come (G.machine grammar.now) walk.new)
        (option_map (λ list. list.items) next)) }
    ensures kept { IfErr result (λ _. to_come (G.machine grammar.now) walk.old ≡ to_come (G.machine grammar.now) walk.new) }
    ensures places { KeepsOpen (G.machine grammar.now) walk.old.stack walk.new.stack }
    ensures taken { IfOk result (λ next. IfSome next (λ _. EndsTaken (G.machine grammar.now) walk.old.stack walk.new.stack)) }
    ensures most { walk.new.most ≡ walk.old.most }
{
    match advance(alloc, grammar, walk.most, &mut walk.frames)? {
        None => Ok(None),
        Some(token) => {
            let list = word(alloc, &walk.frames, token)?;
            choose(&mut walk.frames, token);
            Ok(Some(list))
        }
    }
}

/// How many tokens are left at each open place, the first one first. `None` if one of the numbers is past 255.
pub fn places<S: Drop, T: Copy>(
    alloc: Global,
    walk: &Walk<S, T>,
) -> Result<Option<Vec<u8>>, AllocError>
    ensures { IfOk result (λ counts. IfSome counts (λ v. v.items ≡ counts_left walk.now.stack)) }
{
    counts_of(alloc, &walk.frames)
}

/// A walk from a state that is where another one was, of lists of at most `most` tokens, when these were its [`places`]. It had
/// just given a list.
#[tactic(auto, using(crate::proofs::MarkLemmas::mark_leads))]
pub fn walk_at<G: Grammar>(
    alloc: Global,
    grammar: &G,
    state: G::State,
    most: usize,
    places: &[u8],
) -> Result<Walk<G::State, G::Token>, AllocError>
    requires { (stack : List (Held G.State G.Token)) × IsMark (G.machine grammar.now) state places.now stack }
    ensures stack { IfOk result (λ walk. (stack : List (Held G.State G.Token)) → IsMark (G.machine grammar.now) state places.now stack
        → walk.stack ≡ stack) }
    ensures most { IfOk result (λ walk. walk.most ≡ most) }
{
    let mut frames = Vec::with_capacity(alloc, places.len())?;
    open_places(alloc, grammar, state, &mut frames, places)?;
    Ok(Walk { most, frames })
}
