//! The ascent of components: each is compared with the one before it while it is read.
ghost use Rattle.std.specs.Prelude.{◌≡◌, ◌++◌, [], ◌∷◌, Some, IfOk};
ghost use Rattle.kat_machine.specs.Ascent.{at_least, begins, component_begun, has_given, is_free, is_given, is_inside, is_whole, may_begin, may_end, component_continued, may_ascend, latest_behind};
ghost use Rattle.kat_walk.specs.Ties.{tie_keeps, tie_next};

use kat_num::Items;
use kat_rules::{Token, is_before};
use std::alloc::{AllocError, Global};

/// The component that is read, or was read last: its tokens, and, as long as the one before it begins with these, what is
/// left of that one (`tie`). A component ascends once `tie` is `None`, since it then came to a greater token.
pub struct LatestComponent {
    pub read: Items<Token>,
    pub tie: Option<Items<Token>>,
}

impl Drop for LatestComponent {
    fn drop(self) {
        let Self { read: _, tie: _ } = self;
    }
}

/// Whether a component begins at the token.
fn begins(token: Token) -> bool
    ensures { result ≡ begins token }
{
    match token {
        Token::Cell | Token::Table | Token::Set | Token::Tally | Token::Tallies => true,
        _ => false,
    }
}

/// Whether the token is one that a component has after its first.
fn is_inside(token: Token) -> bool
    ensures { result ≡ is_inside token }
{
    match token {
        Token::Keys(_)
        | Token::Max
        | Token::Name
        | Token::Or
        | Token::Lex
        | Token::Pair
        | Token::Start(_)
        | Token::Nothing
        | Token::At(_)
        | Token::Effect(_) => true,
        _ => false,
    }
}

/// Whether a token doesn't come before another.
fn at_least(token: Token, other: Token) -> bool
    ensures { result ≡ at_least token other }
{
    !is_before(token, other)
}

/// Whether a token may come where these tokens are matched.
fn matches(tie: &[Token], token: Token) -> bool
    ensures { result ≡ tie_keeps at_least (Some tie.now) token }
{
    match tie {
        [] => true,
        [first, ..] => at_least(token, *first),
    }
}

/// Whether a token may come where these tokens are matched, if there are some.
fn tie_keeps(tie: &Option<Items<Token>>, token: Token) -> bool
    ensures { result ≡ tie_keeps at_least tie.now token }
{
    match tie {
        None => true,
        Some(tokens) => matches(tokens.as_slice(), token),
    }
}

/// Whether the token says what an operation gives.
fn is_given(token: Token) -> bool
    ensures { result ≡ is_given token }
{
    match token {
        Token::At(_) | Token::Effect(_) => true,
        _ => false,
    }
}

/// Whether one of the tokens says what an operation gives.
fn has_given(tokens: &[Token]) -> bool
    ensures { result ≡ has_given tokens.now }
{
    match tokens {
        [] => false,
        [first, rest @ ..] => is_given(*first) || has_given(rest),
    }
}

/// Whether some operation has an effect on the component with these tokens, if there is one.
fn is_whole(read: &[Token]) -> bool
    ensures { result ≡ is_whole read.now }
{
    match read {
        [] => true,
        [_, rest @ ..] => has_given(rest),
    }
}

/// Whether nothing has to be matched any more.
fn is_free(tie: &Option<Items<Token>>) -> bool
    ensures { result ≡ is_free tie.now }
{
    match tie {
        None => true,
        Some(_) => false,
    }
}

/// Whether the component that was read may end here, if one was read.
fn may_end(latest: &LatestComponent) -> bool
    ensures { result ≡ may_end latest.now }
{
    is_whole(latest.read.as_slice()) && is_free(&latest.tie)
}

/// Whether the token may follow: a component with this token may still ascend, and one that ends before it has an effect and
/// did ascend.
pub fn may_ascend(latest: &LatestComponent, token: Token) -> bool
    ensures { result ≡ may_ascend latest.now token }
{
    if is_inside(token) {
        return tie_keeps(&latest.tie, token);
    }
    may_end(latest) && may_begin(latest, token)
}

/// Whether a component that begins with this token, if one does, may still ascend.
fn may_begin(latest: &LatestComponent, token: Token) -> bool
    ensures { result ≡ may_begin latest.now token }
{
    if begins(token) {
        return matches(latest.read.as_slice(), token);
    }
    true
}

/// What is left to be matched after a token.
fn matched(alloc: Global, tie: &[Token], token: Token) -> Result<Option<Items<Token>>, AllocError>
    ensures { IfOk result (λ left. left ≡ tie_next at_least (Some tie.now) token) }
{
    match tie {
        [] => Ok(None),
        [first, rest @ ..] => {
            if at_least(*first, token) {
                return Ok(Some(Items::from_vec(Vec::from_slice(alloc, rest)?)));
            }
            Ok(None)
        }
    }
}

/// What is left to be matched after a token, if anything was.
fn tie_next(
    alloc: Global,
    tie: &Option<Items<Token>>,
    token: Token,
) -> Result<Option<Items<Token>>, AllocError>
    ensures { IfOk result (λ left. left ≡ tie_next at_least tie.now token) }
{
    match tie {
        None => Ok(None),
        Some(tokens) => matched(alloc, tokens.as_slice(), token),
    }
}

/// These tokens, and one more after them.
pub fn with_token(alloc: Global, tokens: &[Token], token: Token) -> Result<Items<Token>, AllocError>
    ensures { IfOk result (λ all. all ≡ tokens.now ++ token ∷ []) }
{
    let mut all = Vec::with_capacity(alloc, tokens.len() + 1)?;
    all.extend_from_slice(tokens)?;
    all.push(token)?;
    Ok(Items::from_vec(all))
}

/// A component begins.
fn component_begun(
    alloc: Global,
    latest: &LatestComponent,
    token: Token,
) -> Result<LatestComponent, AllocError>
    ensures { IfOk result (λ behind. behind ≡ component_begun latest.now token) }
{
    let tie = matched(alloc, latest.read.as_slice(), token)?;
    let mut read = Vec::with_capacity(alloc, 1)?;
    read.push(token)?;
    Ok(LatestComponent {
        read: Items::from_vec(read),
        tie,
    })
}

/// A component goes on.
fn component_continued(
    alloc: Global,
    latest: &LatestComponent,
    token: Token,
) -> Result<LatestComponent, AllocError>
    ensures { IfOk result (λ behind. behind ≡ component_continued latest.now token) }
{
    let tie = tie_next(alloc, &latest.tie, token)?;
    let read = with_token(alloc, latest.read.as_slice(), token)?;
    Ok(LatestComponent { read, tie })
}

/// The component that was read last, after a token.
pub fn latest_behind(
    alloc: Global,
    latest: &LatestComponent,
    token: Token,
) -> Result<LatestComponent, AllocError>
    ensures { IfOk result (λ behind. behind ≡ latest_behind latest.now token) }
{
    if begins(token) {
        return component_begun(alloc, latest, token);
    }
    if is_inside(token) {
        return component_continued(alloc, latest, token);
    }
    Ok(LatestComponent {
        read: Items::from_vec(Vec::new(alloc)),
        tie: None,
    })
}
