//! The search for the designs of one size: a machine that reads their token lists.
ghost use Rattle.std.specs.Prelude.{◌≡◌, ◌+◌, ◌*◌, ◌<◌, ◌≤◌, ◌^◌, ◌++◌, [], ◌∷◌, false, IfOk, filter, length};
ghost use Rattle.kat_decoding.specs.Room.{counted_behind, counts, effect_opened, has_room, is_alone, is_exact, is_last, keys_open, needs_behind, opened, shapes_opened, to_be_asked};
ghost use Rattle.kat_machine.specs.Grammar.{may_follow, operands};
ghost use Rattle.kat_machine.specs.Ascent.{may_ascend};
ghost use Rattle.kat_decoding.specs.Keeps.{is_kept};
ghost use Rattle.kat_decoding.specs.Unread.{asks_open, asks_to_come, can_be_read, count_unread, marked, noted, one_less, open_asks, unread_behind};

use crate::decoding::is_listed_word;
use kat_design::Wanted;
use kat_machine::{
    Keyed, LatestComponent, Mode, Place, Shared, Want, goes_to, is_finished, is_nothing,
    latest_behind, may_ascend, may_be_used, may_follow, with_token,
};
use kat_num::Items;
use kat_rules::{Setting, Token, cost};
use kat_walk::Grammar;
use std::alloc::{AllocError, Global};

/// The designs of one size.
pub struct Search {
    pub setting: Setting,
    pub size: u16,
}

impl Drop for Search {
    fn drop(self) {
        let Self {
            setting: _,
            size: _,
        } = self;
    }
}

/// What is read next, how much of the size is left, which components were read, how the last one compares with the one before
/// it, and all tokens so far.
pub type Point = (
    (((Place, usize), Shared<Items<bool>>), LatestComponent),
    Items<Token>,
);

impl Grammar for Search {
    ghost use Rattle.kat_decoding.specs.Decoded.{is_listed_word};
    ghost use Rattle.kat_decoding.specs.Words.{listing_machine};

    type Token = Token;

    type State = Point;

    ghost machine = { λ search. listing_machine search.setting (is_listed_word search.setting search.size) };

    fn allowed(&self, alloc: Global, state: &Point) -> Result<Vec<Token>, AllocError> {
        let ((((place, left), flags), latest), _) = state;
        followers(alloc, &self.setting, place, *left, flags, latest)
    }

    fn step(&self, alloc: Global, state: &Point, token: Token) -> Result<Point, AllocError> {
        let ((((place, left), flags), latest), read) = state;
        let behind = goes_to(alloc, &self.setting, place, token)?;
        let flags = noted(alloc, flags, token)?;
        let latest = latest_behind(alloc, latest, token)?;
        let read = with_token(alloc, read.as_slice(), token)?;
        let left = left.saturating_sub(cost(token));
        Ok(((((behind, left), flags), latest), read))
    }

    fn is_done(&self, alloc: Global, state: &Point) -> Result<bool, AllocError> {
        let ((((place, _), _), _), read) = state;
        if !is_finished(place) {
            return Ok(false);
        }
        is_listed_word(alloc, &self.setting, self.size, read.as_slice())
    }
}

/// The tokens that may follow, after which enough of the size is left, all components can still be read, and components may
/// still ascend. One test asks for all three.
#[tactic(auto, using(crate::proofs::Keeping::kept_once))]
fn followers(
    alloc: Global,
    setting: &Setting,
    place: &Place,
    left: usize,
    flags: &Shared<Items<bool>>,
    latest: &LatestComponent,
) -> Result<Vec<Token>, AllocError>
    ensures { IfOk result (λ all. all.items ≡ filter (may_ascend latest.now)
        (filter (can_be_read setting.now place.now left flags.now)
        (filter (has_room setting.now place.now left) (may_follow setting.now place.now.mode place.now.rows)))) }
{
    let tokens = may_follow(alloc, setting, place)?;
    kept(
        alloc,
        setting,
        place,
        left,
        flags.value().as_slice(),
        latest,
        &tokens,
    )
}

/// Those of the tokens that are kept.
fn kept(
    alloc: Global,
    setting: &Setting,
    place: &Place,
    left: usize,
    flags: &[bool],
    latest: &LatestComponent,
    tokens: &[Token],
) -> Result<Vec<Token>, AllocError>
    ensures { IfOk result (λ all. all.items ≡ filter (is_kept setting.now place.now left flags.now latest.now) tokens.now) }
{
    tokens
        .iter()
        .copied()
        .filter(|token| is_kept(setting, place, left, flags, latest, *token))
        .collect(alloc)
}

/// Whether a token is one of these.
fn is_kept(
    setting: &Setting,
    place: &Place,
    left: usize,
    flags: &[bool],
    latest: &LatestComponent,
    token: Token,
) -> bool
    ensures { result ≡ is_kept setting.now place.now left flags.now latest.now token }
{
    has_room(setting, place, left, token)
        && (can_be_read(setting, place, left, flags, token) && may_ascend(latest, token))
}

/// Whether enough of the size is left after a token.
fn has_room(setting: &Setting, place: &Place, left: usize, token: Token) -> bool
    ensures { result ≡ has_room setting.now place.now left token }
{
    let needed = needs_behind(setting, place, token);
    cost(token) as u128 + needed <= left as u128
        && (is_exact(&place.mode, left, token) && may_be_used(setting, token))
}

/// Whether nothing but one part of this kind is expected.
fn is_alone(wants: &[Wanted]) -> bool
    ensures { result ≡ is_alone wants.now }
{
    match wants {
        [Wanted::Exactly(_)] => true,
        _ => false,
    }
}

/// Whether a token ends the last ask.
fn is_last(mode: &Mode, token: Token) -> bool
    ensures { result ≡ is_last mode.now token }
{
    match mode {
        Mode::Asking { wants, left } => {
            is_alone(wants.as_slice()) && (*left == 1 && operands(token) == 0)
        }
        _ => false,
    }
}

/// Whether a token takes all that is left of the size, if it ends the last ask.
fn is_exact(mode: &Mode, left: usize, token: Token) -> bool
    ensures { result ≡ is_exact mode.now left token }
{
    if is_last(mode, token) {
        return cost(token) == left;
    }
    true
}

/// Whether a part of an effect counts for the size.
fn counts(want: Want) -> bool
    ensures { result ≡ counts want }
{
    match want {
        Want::Key(_) => false,
        _ => true,
    }
}

/// How many parts of an effect count.
fn counted(wants: &[Want]) -> usize
    ensures { result ≡ length (filter counts wants.now) }
{
    wants.iter().filter(|want| counts(**want)).count()
}

/// How many parts of an effect count after the first one.
fn counted_behind(wants: &[Want]) -> usize
    ensures { result ≡ counted_behind wants.now }
{
    match wants {
        [] => 0,
        [_, rest @ ..] => counted(rest),
    }
}

/// How many parts of shapes a token opens.
fn shapes_opened(token: Token) -> usize
    ensures { result ≡ shapes_opened token }
{
    match token {
        Token::Cell => 1,
        Token::Lex => 2,
        Token::Pair => 2,
        _ => 0,
    }
}

/// How many shapes come after the sort of keys.
fn keys_open(keyed: Keyed) -> usize
    ensures { result ≡ keys_open keyed }
{
    match keyed {
        Keyed::Table => 1,
        Keyed::Set | Keyed::Tallies => 0,
    }
}

/// How many parts of an effect that count come after its first token.
fn effect_opened(token: Token, wants: &[Want]) -> usize
    ensures { result ≡ effect_opened token wants.now }
{
    if is_nothing(token) {
        return 0;
    }
    counted_behind(wants)
}

/// How many parts a token of an ask opens.
fn operands(token: Token) -> usize
    ensures { result ≡ length (operands token) }
{
    match token {
        Token::Not => 1,
        Token::And => 2,
        Token::Either => 2,
        Token::Less => 1,
        Token::Plus => 2,
        Token::Minus => 2,
        _ => 0,
    }
}

/// What has to follow a token before the next ask.
fn opened(mode: &Mode, token: Token) -> u128
    ensures opened { result ≡ opened mode.now token }
    ensures small { result < 2 ^ 66 }
{
    match mode {
        Mode::Opening => shapes_opened(token) as u128,
        Mode::Keying { keyed } => keys_open(*keyed) as u128,
        Mode::Shaping { chains, .. } => {
            shapes_opened(token) as u128 + chains.as_slice().len().saturating_sub(1) as u128
        }
        Mode::Starting { .. } => 0,
        Mode::Effecting { row, .. } => effect_opened(token, row.value().wants.as_slice()) as u128,
        Mode::Filling { todo, .. } => counted_behind(todo.as_slice()) as u128,
        Mode::Asking { wants, .. } => {
            operands(token) as u128 + wants.as_slice().len().saturating_sub(1) as u128
        }
        Mode::Finished => 0,
        Mode::Nowhere => 0,
    }
}

/// How many of this many queries are still to be asked.
fn to_be_asked(queries: usize, mode: &Mode) -> usize
    ensures { result ≡ to_be_asked queries mode.now }
{
    match mode {
        Mode::Asking { left, .. } => usize::min(*left, queries).saturating_sub(1),
        Mode::Finished => 0,
        Mode::Nowhere => 0,
        _ => queries,
    }
}

/// What has to follow a token.
fn needs_behind(setting: &Setting, place: &Place, token: Token) -> u128
    ensures needed { result ≡ needs_behind setting.now place.now token }
    ensures small { result < 2 ^ 67 }
{
    let queries = setting.sig.queries.as_slice().len();
    opened(&place.mode, token) + to_be_asked(queries, &place.mode) as u128
}

/// The flags, and that of a component that isn't read yet.
fn with_flag(alloc: Global, flags: &[bool]) -> Result<Items<bool>, AllocError>
    ensures { IfOk result (λ all. all ≡ flags.now ++ false ∷ []) }
{
    let mut all = Vec::with_capacity(alloc, flags.len() + 1)?;
    all.extend_from_slice(flags)?;
    all.push(false)?;
    Ok(Items::from_vec(all))
}

/// The flags, with that of this component raised if a leaf of it was read.
fn marked(alloc: Global, flags: &[bool], component: usize) -> Result<Items<bool>, AllocError>
    ensures { IfOk result (λ all. all ≡ marked flags.now component) }
{
    let mut all = Vec::from_slice(alloc, flags)?;
    if component < all.len() {
        all[component] = true;
    }
    Ok(Items::from_vec(all))
}

/// The flags after a token: whether a leaf of each component was read.
fn noted(
    alloc: Global,
    flags: &Shared<Items<bool>>,
    token: Token,
) -> Result<Shared<Items<bool>>, AllocError>
    ensures { IfOk result (λ behind. behind ≡ noted flags.now token) }
{
    match token {
        Token::Cell | Token::Table | Token::Set | Token::Tally | Token::Tallies => {
            Shared::new(alloc, with_flag(alloc, flags.value().as_slice())?)
        }
        Token::Read { component, .. } => {
            Shared::new(alloc, marked(alloc, flags.value().as_slice(), component)?)
        }
        _ => flags.copy(),
    }
}

/// How many components aren't read.
fn count_unread(flags: &[bool]) -> usize
    ensures unread { result ≡ count_unread flags.now }
    ensures within { result ≤ length flags.now }
{
    match flags {
        [] => 0,
        [true, rest @ ..] => count_unread(rest),
        [false, rest @ ..] => count_unread(rest) + 1,
    }
}

/// One less unless the flag is set.
fn one_less(flag: Option<bool>, count: u128) -> u128
    ensures { result ≡ one_less flag count }
{
    match flag {
        Some(false) => count.saturating_sub(1),
        _ => count,
    }
}

/// How many components aren't read after a token.
fn unread_behind(flags: &[bool], token: Token) -> u128
    ensures unread { result ≡ unread_behind flags.now token }
    ensures small { result < 2 ^ 65 }
{
    let unread = count_unread(flags) as u128;
    match token {
        Token::Cell | Token::Table | Token::Set | Token::Tally | Token::Tallies => unread + 1,
        Token::Read { component, .. } => one_less(flags.get(component).copied(), unread),
        _ => unread,
    }
}

/// The asks that are open.
fn open_asks(wants: &[Wanted]) -> u128
    ensures open { result ≡ open_asks wants.now }
    ensures small { result ≤ 2 * length wants.now }
{
    match wants {
        [] => 0,
        [Wanted::Exactly(_), rest @ ..] => open_asks(rest) + 1,
        [Wanted::Ordered, rest @ ..] => open_asks(rest) + 2,
    }
}

/// The asks that a token opens.
fn opened_asks(token: Token) -> u128
    ensures { result ≡ open_asks (operands token) }
{
    match token {
        Token::Not => 1,
        Token::And => 2,
        Token::Either => 2,
        Token::Less => 2,
        Token::Plus => 2,
        Token::Minus => 2,
        _ => 0,
    }
}

/// The asks that are open after a token.
fn asks_open(mode: &Mode, token: Token) -> u128
    ensures open { result ≡ asks_open mode.now token }
    ensures small { result < 2 ^ 66 }
{
    match mode {
        Mode::Asking { wants, .. } => {
            opened_asks(token) + open_asks(wants.as_slice()).saturating_sub(1)
        }
        _ => 0,
    }
}

/// The asks that are still to come.
fn asks_to_come(queries: usize, mode: &Mode) -> usize
    ensures { result ≡ asks_to_come queries mode.now }
{
    match mode {
        Mode::Asking { left, .. } => left.saturating_sub(1),
        Mode::Finished => 0,
        Mode::Nowhere => 0,
        _ => queries,
    }
}

/// Whether all components that aren't read after a token can still be read.
fn can_be_read(setting: &Setting, place: &Place, left: usize, flags: &[bool], token: Token) -> bool
    ensures { result ≡ can_be_read setting.now place.now left flags.now token }
{
    let queries = setting.sig.queries.as_slice().len();
    let open = asks_open(&place.mode, token) + asks_to_come(queries, &place.mode) as u128;
    let rest = left.saturating_sub(cost(token)) as u128;
    2 * unread_behind(flags, token) <= rest + open
}
