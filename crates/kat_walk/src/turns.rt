//! The turns of a walk: the first token that is left on top is taken, or the top is given up.
ghost use Rattle.std.specs.Prelude.{◌≡◌, ◌<◌, List, [], ◌∷◌, IfErr, IfOk, MatchOption, map, length};
ghost use Rattle.kat_walk.specs.Machines.{unroll, path};
ghost use Rattle.kat_walk.specs.Marks.{KeepsOpen};
ghost use Rattle.kat_walk.specs.Walks.{Advances, IsBehind, Turns, below_taken, opened, stack_of, top_left, with_taken, without_top};

use crate::grammars::Grammar;
use std::alloc::{AllocError, Global};

/// One open place of a walk: a state, the token that was taken there, and the place of the next one among those that may
/// follow.
pub(crate) struct Frame<S, T> {
    pub(crate) state: S,
    pub(crate) chosen: T,
    pub(crate) tokens: Vec<T>,
    pub(crate) at: usize,
}

impl<S: Drop, T: Drop> Drop for Frame<S, T> {
    fn drop(self) {
        let Self {
            state: _,
            chosen: _,
            tokens: _,
            at: _,
        } = self;
    }
}

/// What a turn found: no open place, another place, or the last token of the next list, which isn't taken yet.
#[derive(Clone, Copy)]
pub(crate) enum Turn<T> {
    Ended,
    Moved,
    Word(T),
}

/// The first token that is left on top.
fn next_token<S: Drop, T: Copy>(frames: &[Frame<S, T>]) -> Option<T>
    requires { 0 < length frames.now }
    ensures { MatchOption result (top_left (stack_of frames.now) ≡ []) (λ t. (ts : List T) × (top_left (stack_of frames.now) ≡ t ∷ ts)) }
{
    let top = &frames[frames.len() - 1];
    top.tokens.get(top.at).copied()
}

/// What the token leads to on top.
fn behind<G: Grammar>(
    alloc: Global,
    grammar: &G,
    frames: &[Frame<G::State, G::Token>],
    token: G::Token,
) -> Result<G::State, AllocError>
    requires { 0 < length frames.now }
    ensures { IfOk result (λ state. IsBehind (G.machine grammar.now) token (stack_of frames.now) state) }
{
    grammar.step(alloc, &frames[frames.len() - 1].state, token)
}

/// Takes the first token that is left on top.
pub(crate) fn choose<S: Drop, T: Copy>(frames: &mut Vec<Frame<S, T>>, token: T)
    requires some { 0 < length frames.old.items }
    requires left { 0 < length (top_left (stack_of frames.old.items)) }
    ensures { stack_of frames.new.items ≡ with_taken token (stack_of frames.old.items) }
{
    let top = frames.len() - 1;
    let frame = &mut frames[top];
    frame.chosen = token;
    frame.at += 1;
}

/// Takes the first token that is left below the top.
fn choose_below<S: Drop, T: Copy>(frames: &mut Vec<Frame<S, T>>, token: T)
    requires some { 1 < length frames.old.items }
    requires left { 0 < length (top_left (without_top (stack_of frames.old.items))) }
    ensures { stack_of frames.new.items ≡ below_taken token (stack_of frames.old.items) }
{
    let below = frames.len() - 2;
    let frame = &mut frames[below];
    frame.chosen = token;
    frame.at += 1;
}

/// Gives the top up.
fn give_up<S: Drop, T: Copy>(frames: &mut Vec<Frame<S, T>>)
    ensures { stack_of frames.new.items ≡ without_top (stack_of frames.old.items) }
{
    frames.pop();
}

/// Takes the token on top and goes on after it.
fn open<G: Grammar>(
    alloc: Global,
    grammar: &G,
    frames: &mut Vec<Frame<G::State, G::Token>>,
    token: G::Token,
    state: G::State,
) -> Result<(), AllocError>
    requires some { 0 < length frames.old.items }
    requires left { 0 < length (top_left (stack_of frames.old.items)) }
    ensures opened { IfOk result (λ _. stack_of frames.new.items
        ≡ opened (G.machine grammar.now) state token ∷ with_taken token (stack_of frames.old.items)) }
    ensures kept { IfErr result (λ _. stack_of frames.new.items ≡ stack_of frames.old.items) }
{
    let tokens = grammar.allowed(alloc, &state)?;
    frames.push(Frame {
        state,
        chosen: token,
        tokens,
        at: 0,
    })?;
    choose_below(frames, token);
    Ok(())
}

/// Takes a token that is the first one left on top.
fn take<G: Grammar>(
    alloc: Global,
    grammar: &G,
    most: usize,
    frames: &mut Vec<Frame<G::State, G::Token>>,
    token: G::Token,
) -> Result<Turn<G::Token>, AllocError>
    requires some { 0 < length frames.old.items }
    requires left { (ts : List G.Token) × (top_left (stack_of frames.old.items) ≡ token ∷ ts) }
    ensures turns { Turns (G.machine grammar.now) most (stack_of frames.old.items) (stack_of frames.new.items) result }
    ensures places { KeepsOpen (G.machine grammar.now) (stack_of frames.old.items) (stack_of frames.new.items) }
{
    let state = behind(alloc, grammar, frames, token)?;
    let done = grammar.is_done(alloc, &state)?;
    if done {
        return Ok(Turn::Word(token));
    }
    if most <= frames.len() {
        choose(frames, token);
        return Ok(Turn::Moved);
    }
    open(alloc, grammar, frames, token, state)?;
    Ok(Turn::Moved)
}

/// One turn of a walk: a token is taken, or a place is given up.
#[tactic(auto, using(crate::proofs::MarkLemmas::given_open))]
fn one_turn<G: Grammar>(
    alloc: Global,
    grammar: &G,
    most: usize,
    frames: &mut Vec<Frame<G::State, G::Token>>,
) -> Result<Turn<G::Token>, AllocError>
    ensures turns { Turns (G.machine grammar.now) most (stack_of frames.old.items) (stack_of frames.new.items) result }
    ensures places { KeepsOpen (G.machine grammar.now) (stack_of frames.old.items) (stack_of frames.new.items) }
{
    if frames.is_empty() {
        return Ok(Turn::Ended);
    }
    match next_token(frames) {
        None => {
            give_up(frames);
            Ok(Turn::Moved)
        }
        Some(token) => take(alloc, grammar, most, frames, token),
    }
}

/// Goes on to the last token of the next list, which isn't taken yet, if there is one.
pub(crate) fn advance<G: Grammar>(
    alloc: Global,
    grammar: &G,
    most: usize,
    frames: &mut Vec<Frame<G::State, G::Token>>,
) -> Result<Option<G::Token>, AllocError>
    ensures advances { Advances (G.machine grammar.now) most (stack_of frames.old.items) (stack_of frames.new.items) result }
    ensures places { KeepsOpen (G.machine grammar.now) (stack_of frames.old.items) (stack_of frames.new.items) }
{
    loop {
        match one_turn(alloc, grammar, most, frames)? {
            Turn::Ended => return Ok(None),
            Turn::Moved => {}
            Turn::Word(token) => return Ok(Some(token)),
        }
    }
}

/// The tokens that are taken once this one is, in their order.
pub(crate) fn word<S: Drop, T: Copy>(
    alloc: Global,
    frames: &[Frame<S, T>],
    token: T,
) -> Result<Vec<T>, AllocError>
    requires { 0 < length frames.now }
    ensures { IfOk result (λ v. v.items ≡ unroll (path (with_taken token (stack_of frames.now))) []) }
{
    let mut tokens = chosen(alloc, frames)?;
    let last = tokens.len() - 1;
    tokens[last] = token;
    Ok(tokens)
}

/// The token taken at each place.
fn chosen<S: Drop, T: Copy>(alloc: Global, frames: &[Frame<S, T>]) -> Result<Vec<T>, AllocError>
    ensures { IfOk result (λ v. v.items ≡ map (λ f. f.chosen) frames.now) }
{
    frames.iter().map(|f| f.chosen).collect(alloc)
}
