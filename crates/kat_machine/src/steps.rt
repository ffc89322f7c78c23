//! What a token leads to, and which tokens may follow.
ghost use Rattle.std.specs.Prelude.{◌≡◌, ◌-◌, ◌++◌, [], ◌∷◌, None, true, false, IfOk, length, filter, slice_get};
ghost use Rattle.kat_machine.specs.Choices.{before_last, keyed_wants, known_kind, set_row, shaped_row, tallies_row, tally_row, token_kind, kind_at};
ghost use Rattle.kat_machine.specs.Grammar.{asked_choices, asked_kind, at_ask, at_effect, at_nowhere, at_parts, at_shape, at_starts, at_wants, chain_parts, compared, from_effecting, from_keying, from_opening, from_shaping, goes_to, is_finished, is_nothing, is_of, may_follow, operands, opening_tokens, pair_parts, part_choices, shape_choices, sorts_of_op, sorts_of_query, start_choices, tail_of, wants_behind, with_keys};
ghost use Rattle.kat_machine.specs.declared.modes.Mode.TheVariants.{Keying};
ghost use Rattle.kat_rules.specs.declared.tokens.Token.TheVariants.{Keys, Nothing};
ghost use Rattle.kat_num.specs.declared.values.Sort.TheVariants.{Int, Name, Nat};

use crate::choices::{argument_kind, ask_choices, choices_for, start_tokens};
use crate::modes::{Keyed, Mode, Place, Row, Rows, Want};
use crate::shared::Shared;
use kat_design::{Kind, Wanted, sort_kind};
use kat_num::{Items, Sort};
use kat_rules::{Kinds, Setting, Token, of_kind};
use std::alloc::{AllocError, Global};

/// The same elements, in their order.
fn copied<T: Copy>(alloc: Global, items: &[T]) -> Result<Items<T>, AllocError>
    ensures { IfOk result (λ copy. copy ≡ items.now) }
{
    Ok(Items::from_vec(items.iter().copied().collect(alloc)?))
}

/// All elements but the first.
fn tail_of<T: Copy>(alloc: Global, items: &[T]) -> Result<Vec<T>, AllocError>
    ensures { IfOk result (λ tail. tail.items ≡ tail_of items.now) }
{
    match items {
        [] => Ok(Vec::new(alloc)),
        [_, rest @ ..] => Vec::from_slice(alloc, rest),
    }
}

/// Equal rows, in their order.
fn copied_rows(alloc: Global, rows: &[Shared<Row>]) -> Result<Vec<Shared<Row>>, AllocError>
    ensures { IfOk result (λ copies. copies.items ≡ rows.now) }
{
    let mut copies = Vec::new(alloc);
    for row in rows {
        copies.push(row.copy()?)?;
    }
    Ok(copies)
}

/// The rows, and one more.
fn with_row(alloc: Global, rows: &[Shared<Row>], row: Shared<Row>) -> Result<Rows, AllocError>
    ensures { IfOk result (λ all. all ≡ rows.now ++ row ∷ []) }
{
    let mut all = copied_rows(alloc, rows)?;
    all.push(row)?;
    Shared::new(alloc, Items::from_vec(all))
}

/// A place with these rows.
fn place(mode: Mode, rows: Rows) -> Place
    ensures { result ≡ record { mode = mode; rows = rows } }
{
    Place { mode, rows }
}

/// Where the effects begin of which this many are left.
fn at_effect(alloc: Global, row: Shared<Row>, left: usize, rows: Rows) -> Result<Place, AllocError>
    ensures { IfOk result (λ p. p ≡ at_effect row left rows) }
{
    if 0 < left {
        return Ok(place(Mode::Effecting { row, left }, rows));
    }
    let rows = with_row(alloc, rows.value().as_slice(), row)?;
    Ok(place(Mode::Opening, rows))
}

/// Where the starts of these leaves begin.
fn at_starts(
    alloc: Global,
    setting: &Setting,
    row: Shared<Row>,
    kinds: Vec<Kind>,
    rows: Rows,
) -> Result<Place, AllocError>
    ensures { IfOk result (λ p. p ≡ at_starts setting.now row kinds.items rows) }
{
    if kinds.is_empty() {
        return at_effect(alloc, row, setting.sig.ops.as_slice().len(), rows);
    }
    let todo = Items::from_vec(kinds);
    Ok(place(Mode::Starting { row, todo }, rows))
}

/// The parts of an effect on leaves.
fn leaf_wants(alloc: Global, kinds: &[Kind]) -> Result<Vec<Want>, AllocError>
    ensures { IfOk result (λ wants. wants.items ≡ keyed_wants None kinds.now) }
{
    kinds.iter().map(|kind| Want::Leaf(*kind)).collect(alloc)
}

/// The parts of an effect on leaves, after a key if there are keys.
fn keyed_wants(alloc: Global, key: Option<Sort>, kinds: &[Kind]) -> Result<Vec<Want>, AllocError>
    ensures { IfOk result (λ wants. wants.items ≡ keyed_wants key kinds.now) }
{
    match key {
        None => leaf_wants(alloc, kinds),
        Some(sort) => {
            let mut wants = Vec::new(alloc);
            wants.push(Want::Key(sort))?;
            let others = leaf_wants(alloc, kinds)?;
            wants.extend_from_slice(&others)?;
            Ok(wants)
        }
    }
}

/// What a component with a shape keeps.
fn shaped_row(alloc: Global, key: Option<Sort>, kinds: &[Kind]) -> Result<Shared<Row>, AllocError>
    ensures { IfOk result (λ row. row ≡ shaped_row key kinds.now) }
{
    let wants = keyed_wants(alloc, key, kinds)?;
    let row = Row {
        key,
        kinds: copied(alloc, kinds)?,
        wants: Items::from_vec(wants),
    };
    Shared::new(alloc, row)
}

/// Where further parts of a shape begin, or what comes after it.
fn at_shape(
    alloc: Global,
    setting: &Setting,
    key: Option<Sort>,
    chains: Vec<bool>,
    kinds: Vec<Kind>,
    rows: Rows,
) -> Result<Place, AllocError>
    ensures { IfOk result (λ p. p ≡ at_shape setting.now key chains.items kinds.items rows) }
{
    if chains.is_empty() {
        let row = shaped_row(alloc, key, &kinds)?;
        return at_starts(alloc, setting, row, kinds, rows);
    }
    let mode = Mode::Shaping {
        key,
        chains: Items::from_vec(chains),
        kinds: Items::from_vec(kinds),
    };
    Ok(place(mode, rows))
}

/// Where further parts of an effect begin, or what comes after it.
fn at_parts(
    alloc: Global,
    row: Shared<Row>,
    left: usize,
    todo: Vec<Want>,
    rows: Rows,
) -> Result<Place, AllocError>
    ensures { IfOk result (λ p. p ≡ at_parts row left todo.items rows) }
{
    if todo.is_empty() {
        return at_effect(alloc, row, left.saturating_sub(1), rows);
    }
    let todo = Items::from_vec(todo);
    Ok(place(Mode::Filling { row, left, todo }, rows))
}

/// The kind of what the query gives of which this many are left, this one among them.
fn asked_kind(setting: &Setting, left: usize) -> Option<Kind>
    ensures { result ≡ asked_kind (slice_get setting.now.sig.queries (length setting.now.sig.queries - left)) }
{
    let queries = setting.sig.queries.as_slice();
    match queries.get(queries.len().saturating_sub(left)) {
        None => None,
        Some(query) => Some(sort_kind(query.sort)),
    }
}

/// Where the asks begin of which this many are left.
fn at_ask(alloc: Global, setting: &Setting, left: usize, rows: Rows) -> Result<Place, AllocError>
    ensures { IfOk result (λ p. p ≡ at_ask setting.now left rows) }
{
    match asked_kind(setting, left) {
        None => Ok(place(Mode::Finished, rows)),
        Some(kind) => {
            let mut wants = Vec::new(alloc);
            wants.push(Wanted::Exactly(kind))?;
            let wants = Items::from_vec(wants);
            Ok(place(Mode::Asking { wants, left }, rows))
        }
    }
}

/// Where the expected parts of an ask begin, or what comes after it.
fn at_wants(
    alloc: Global,
    setting: &Setting,
    wants: Vec<Wanted>,
    left: usize,
    rows: Rows,
) -> Result<Place, AllocError>
    ensures { IfOk result (λ p. p ≡ at_wants setting.now wants.items left rows) }
{
    if wants.is_empty() {
        return at_ask(alloc, setting, left.saturating_sub(1), rows);
    }
    let wants = Items::from_vec(wants);
    Ok(place(Mode::Asking { wants, left }, rows))
}

/// Where a component begins whose keys have this sort.
fn with_keys(
    alloc: Global,
    setting: &Setting,
    keyed: Keyed,
    sort: Sort,
    rows: Rows,
) -> Result<Place, AllocError>
    ensures { IfOk result (λ p. p ≡ with_keys setting.now keyed sort rows) }
{
    let ops = setting.sig.ops.as_slice().len();
    match keyed {
        Keyed::Table => shape_begins(alloc, setting, Some(sort), rows),
        Keyed::Set => at_effect(alloc, set_row(alloc, sort)?, ops, rows),
        Keyed::Tallies => at_effect(alloc, tallies_row(alloc, sort)?, ops, rows),
    }
}

/// Where a shape begins.
fn shape_begins(
    alloc: Global,
    setting: &Setting,
    key: Option<Sort>,
    rows: Rows,
) -> Result<Place, AllocError>
    ensures { IfOk result (λ p. p ≡ at_shape setting.now key (false ∷ []) [] rows) }
{
    let mut chains = Vec::new(alloc);
    chains.push(false)?;
    at_shape(alloc, setting, key, chains, Vec::new(alloc), rows)
}

/// What a set keeps.
fn set_row(alloc: Global, sort: Sort) -> Result<Shared<Row>, AllocError>
    ensures { IfOk result (λ row. row ≡ set_row sort) }
{
    row_of(alloc, Some(sort), Kind::Truth, None, Want::Member(sort))
}

/// What a tally keeps.
fn tally_row(alloc: Global) -> Result<Shared<Row>, AllocError>
    ensures { IfOk result (λ row. row ≡ tally_row) }
{
    row_of(alloc, None, Kind::Number, None, Want::Weight)
}

/// What `tallies` keep.
fn tallies_row(alloc: Global, sort: Sort) -> Result<Shared<Row>, AllocError>
    ensures { IfOk result (λ row. row ≡ tallies_row sort) }
{
    row_of(
        alloc,
        Some(sort),
        Kind::Number,
        Some(Want::Key(sort)),
        Want::Weight,
    )
}

/// A row with one leaf.
fn row_of(
    alloc: Global,
    key: Option<Sort>,
    kind: Kind,
    first: Option<Want>,
    last: Want,
) -> Result<Shared<Row>, AllocError>
    ensures { IfOk result (λ row. row ≡ record { key = key; kinds = kind ∷ []; wants = before_last first last }) }
{
    let mut kinds = Vec::new(alloc);
    kinds.push(kind)?;
    let wants = before_last(alloc, first, last)?;
    let row = Row {
        key,
        kinds: Items::from_vec(kinds),
        wants: Items::from_vec(wants),
    };
    Shared::new(alloc, row)
}

/// One part of an effect, after another if there is one.
fn before_last(alloc: Global, first: Option<Want>, last: Want) -> Result<Vec<Want>, AllocError>
    ensures { IfOk result (λ wants. wants.items ≡ before_last first last) }
{
    let mut wants = Vec::new(alloc);
    match first {
        None => {
            wants.push(last)?;
            Ok(wants)
        }
        Some(first) => {
            wants.push(first)?;
            wants.push(last)?;
            Ok(wants)
        }
    }
}

/// After a token at which a component begins, or the asks.
fn from_opening(
    alloc: Global,
    setting: &Setting,
    rows: Rows,
    token: Token,
) -> Result<Place, AllocError>
    ensures { IfOk result (λ p. p ≡ from_opening setting.now rows token) }
{
    match token {
        Token::End => at_ask(alloc, setting, setting.sig.queries.as_slice().len(), rows),
        Token::Cell => shape_begins(alloc, setting, None, rows),
        Token::Table => Ok(keying(Keyed::Table, rows)),
        Token::Set => Ok(keying(Keyed::Set, rows)),
        Token::Tally => at_effect(
            alloc,
            tally_row(alloc)?,
            setting.sig.ops.as_slice().len(),
            rows,
        ),
        Token::Tallies => Ok(keying(Keyed::Tallies, rows)),
        _ => Ok(nowhere(rows)),
    }
}

/// Where the sort of keys is read.
fn keying(keyed: Keyed, rows: Rows) -> Place
    ensures { result ≡ record { mode = Keying keyed; rows = rows } }
{
    place(Mode::Keying { keyed }, rows)
}

/// No token leads here.
fn nowhere(rows: Rows) -> Place
    ensures { result ≡ at_nowhere rows }
{
    place(Mode::Nowhere, rows)
}

/// After the sort of keys.
fn from_keying(
    alloc: Global,
    setting: &Setting,
    keyed: Keyed,
    rows: Rows,
    token: Token,
) -> Result<Place, AllocError>
    ensures { IfOk result (λ p. p ≡ from_keying setting.now keyed rows token) }
{
    match token {
        Token::Keys(sort) => with_keys(alloc, setting, keyed, sort, rows),
        _ => Ok(nowhere(rows)),
    }
}

/// The kinds so far, and one more.
fn with_kind(alloc: Global, kinds: &[Kind], kind: Kind) -> Result<Vec<Kind>, AllocError>
    ensures { IfOk result (λ all. all.items ≡ kinds.now ++ kind ∷ []) }
{
    let mut all = Vec::from_slice(alloc, kinds)?;
    all.push(kind)?;
    Ok(all)
}

/// The shapes to come after `lex`.
fn chain_parts(alloc: Global, chains: &[bool]) -> Result<Vec<bool>, AllocError>
    ensures { IfOk result (λ parts. parts.items ≡ chain_parts chains.now) }
{
    let mut parts = Vec::new(alloc);
    match chains {
        [] => Ok(parts),
        [first, rest @ ..] => {
            parts.push(true)?;
            parts.push(*first)?;
            parts.extend_from_slice(rest)?;
            Ok(parts)
        }
    }
}

/// The shapes to come after `pair`.
fn pair_parts(alloc: Global, chains: &[bool]) -> Result<Vec<bool>, AllocError>
    ensures { IfOk result (λ parts. parts.items ≡ pair_parts chains.now) }
{
    let mut parts = Vec::new(alloc);
    match chains {
        [] => Ok(parts),
        [_, rest @ ..] => {
            parts.push(false)?;
            parts.push(false)?;
            parts.extend_from_slice(rest)?;
            Ok(parts)
        }
    }
}

/// After a leaf of a shape.
fn leaf_behind(
    alloc: Global,
    setting: &Setting,
    key: Option<Sort>,
    chains: &[bool],
    kinds: &[Kind],
    rows: Rows,
    kind: Kind,
) -> Result<Place, AllocError>
    ensures { IfOk result (λ p. p ≡ at_shape setting.now key (tail_of chains.now) (kinds.now ++ kind ∷ []) rows) }
{
    let chains = tail_of(alloc, chains)?;
    let kinds = with_kind(alloc, kinds, kind)?;
    at_shape(alloc, setting, key, chains, kinds, rows)
}

/// After a node of a shape.
fn from_shaping(
    alloc: Global,
    setting: &Setting,
    key: Option<Sort>,
    chains: &[bool],
    kinds: &[Kind],
    rows: Rows,
    token: Token,
) -> Result<Place, AllocError>
    ensures { IfOk result (λ p. p ≡ from_shaping setting.now key chains.now kinds.now rows token) }
{
    match token {
        Token::Max => leaf_behind(alloc, setting, key, chains, kinds, rows, Kind::Number),
        Token::Name => leaf_behind(alloc, setting, key, chains, kinds, rows, Kind::Name),
        Token::Or => leaf_behind(alloc, setting, key, chains, kinds, rows, Kind::Truth),
        Token::Lex => {
            let chains = chain_parts(alloc, chains)?;
            at_shape(
                alloc,
                setting,
                key,
                chains,
                Vec::from_slice(alloc, kinds)?,
                rows,
            )
        }
        Token::Pair => {
            let chains = pair_parts(alloc, chains)?;
            at_shape(
                alloc,
                setting,
                key,
                chains,
                Vec::from_slice(alloc, kinds)?,
                rows,
            )
        }
        _ => Ok(nowhere(rows)),
    }
}

/// After the first token of an effect.
fn from_effecting(
    alloc: Global,
    row: Shared<Row>,
    left: usize,
    rows: Rows,
    token: Token,
) -> Result<Place, AllocError>
    ensures { IfOk result (λ p. p ≡ from_effecting row left rows token) }
{
    if is_nothing(token) {
        return at_effect(alloc, row, left.saturating_sub(1), rows);
    }
    let todo = tail_of(alloc, row.value().wants.as_slice())?;
    at_parts(alloc, row, left, todo, rows)
}

/// Whether the token says that an operation has no effect.
pub fn is_nothing(token: Token) -> bool
    ensures { result ≡ is_nothing token }
{
    match token {
        Token::Nothing => true,
        _ => false,
    }
}

/// Adds what a token of an ask opens.
fn push_operands(wants: &mut Vec<Wanted>, token: Token) -> Result<(), AllocError>
    ensures { IfOk result (λ _. wants.new.items ≡ wants.old.items ++ operands token) }
{
    match token {
        Token::Not => {
            wants.push(Wanted::Exactly(Kind::Truth))?;
            Ok(())
        }
        Token::And | Token::Either => {
            wants.push(Wanted::Exactly(Kind::Truth))?;
            wants.push(Wanted::Exactly(Kind::Truth))?;
            Ok(())
        }
        Token::Less => {
            wants.push(Wanted::Ordered)?;
            Ok(())
        }
        Token::Plus | Token::Minus => {
            wants.push(Wanted::Exactly(Kind::Number))?;
            wants.push(Wanted::Exactly(Kind::Number))?;
            Ok(())
        }
        _ => Ok(()),
    }
}

/// Adds what is expected after something of this kind.
#[tactic(auto, using(crate::proofs::Pushed::one_more))]
fn push_compared(behind: &mut Vec<Wanted>, kind: Kind, wants: &[Wanted]) -> Result<(), AllocError>
    ensures { IfOk result (λ _. behind.new.items ≡ behind.old.items ++ compared kind wants.now) }
{
    match wants {
        [] => Ok(()),
        [Wanted::Exactly(_), rest @ ..] => {
            behind.extend_from_slice(rest)?;
            Ok(())
        }
        [Wanted::Ordered, rest @ ..] => {
            behind.push(Wanted::Exactly(kind))?;
            behind.extend_from_slice(rest)?;
            Ok(())
        }
    }
}

/// The kind of a component's leaf.
fn kind_at(rows: &[Shared<Row>], component: usize, leaf: usize) -> Kind
    ensures { result ≡ kind_at (slice_get rows.now component) leaf }
{
    match rows.get(component) {
        None => Kind::Number,
        Some(row) => known_kind(row.value().kinds.as_slice(), leaf),
    }
}

/// The kind at a place of a list.
fn known_kind(kinds: &[Kind], place: usize) -> Kind
    ensures { result ≡ known_kind (slice_get kinds.now place) }
{
    match kinds.get(place) {
        None => Kind::Number,
        Some(kind) => *kind,
    }
}

/// The kind of what a token begins.
fn token_kind(sorts: &[Sort], rows: &[Shared<Row>], token: Token) -> Kind
    ensures { result ≡ token_kind sorts.now rows.now token }
{
    match token {
        Token::Read {
            component,
            leaf,
            ..
        } => kind_at(rows, component, leaf),
        Token::Arg(place) => argument_kind(sorts, place),
        Token::NameConstant(_) => Kind::Name,
        _ => Kind::Number,
    }
}

/// What is expected after a token of an ask.
fn wants_behind(
    alloc: Global,
    sorts: &[Sort],
    rows: &[Shared<Row>],
    token: Token,
    wants: &[Wanted],
) -> Result<Vec<Wanted>, AllocError>
    ensures { IfOk result (λ behind. behind.items ≡ wants_behind sorts.now rows.now token wants.now) }
{
    let mut behind = Vec::with_capacity(alloc, wants.len() + 2)?;
    push_operands(&mut behind, token)?;
    push_compared(&mut behind, token_kind(sorts, rows, token), wants)?;
    Ok(behind)
}

/// The parameters of the operation whose effect is read.
fn sorts_of_op(setting: &Setting, left: usize) -> &[Sort]
    ensures { result.now ≡ sorts_of_op setting.now left }
{
    let ops = setting.sig.ops.as_slice();
    match ops.get(ops.len().saturating_sub(left)) {
        None => &[],
        Some(op) => op.sorts.as_slice(),
    }
}

/// The parameters of the query whose ask is read.
fn sorts_of_query(setting: &Setting, left: usize) -> &[Sort]
    ensures { result.now ≡ sorts_of_query setting.now left }
{
    let queries = setting.sig.queries.as_slice();
    match queries.get(queries.len().saturating_sub(left)) {
        None => &[],
        Some(query) => query.sorts.as_slice(),
    }
}

/// Where a token leads.
pub fn goes_to(
    alloc: Global,
    setting: &Setting,
    from: &Place,
    token: Token,
) -> Result<Place, AllocError>
    ensures { IfOk result (λ p. p ≡ goes_to setting.now from.now.mode from.now.rows token) }
{
    let rows = from.rows.copy()?;
    match &from.mode {
        Mode::Opening => from_opening(alloc, setting, rows, token),
        Mode::Keying { keyed } => from_keying(alloc, setting, *keyed, rows, token),
        Mode::Shaping { key, chains, kinds } => from_shaping(
            alloc,
            setting,
            *key,
            chains.as_slice(),
            kinds.as_slice(),
            rows,
            token,
        ),
        Mode::Starting { row, todo } => {
            let todo = tail_of(alloc, todo.as_slice())?;
            at_starts(alloc, setting, row.copy()?, todo, rows)
        }
        Mode::Effecting { row, left } => from_effecting(alloc, row.copy()?, *left, rows, token),
        Mode::Filling { row, left, todo } => {
            let todo = tail_of(alloc, todo.as_slice())?;
            at_parts(alloc, row.copy()?, *left, todo, rows)
        }
        Mode::Asking { wants, left } => {
            let sorts = sorts_of_query(setting, *left);
            let wants = wants_behind(
                alloc,
                sorts,
                from.rows.value().as_slice(),
                token,
                wants.as_slice(),
            )?;
            at_wants(alloc, setting, wants, *left, rows)
        }
        Mode::Finished => Ok(nowhere(rows)),
        Mode::Nowhere => Ok(nowhere(rows)),
    }
}

/// Whether a component of the token's kind may be there.
fn is_of(kinds: &Kinds, token: Token) -> bool
    ensures { result ≡ is_of kinds.now token }
{
    match token {
        Token::Cell => kinds.cell,
        Token::Table => kinds.table,
        Token::Set => kinds.set,
        Token::Tally => kinds.tally,
        Token::Tallies => kinds.tallies,
        _ => true,
    }
}

/// The tokens at which a component of one of the kinds begins, or the asks.
fn opening_choices(alloc: Global, kinds: &Kinds) -> Result<Vec<Token>, AllocError>
    ensures { IfOk result (λ tokens. tokens.items ≡ filter (is_of kinds.now) opening_tokens) }
{
    let all = [
        Token::End,
        Token::Cell,
        Token::Table,
        Token::Set,
        Token::Tally,
        Token::Tallies,
    ];
    all.iter()
        .copied()
        .filter(|token| is_of(kinds, *token))
        .collect(alloc)
}

/// The sorts of keys.
fn key_sorts(alloc: Global) -> Result<Vec<Token>, AllocError>
    ensures { IfOk result (λ tokens. tokens.items ≡ Keys Int ∷ Keys Nat ∷ Keys Name ∷ []) }
{
    let mut tokens = Vec::new(alloc);
    tokens.push(Token::Keys(Sort::Int))?;
    tokens.push(Token::Keys(Sort::Nat))?;
    tokens.push(Token::Keys(Sort::Name))?;
    Ok(tokens)
}

/// The nodes that a shape may begin with.
fn shape_choices(alloc: Global, chains: &[bool]) -> Result<Vec<Token>, AllocError>
    ensures { IfOk result (λ tokens. tokens.items ≡ shape_choices chains.now) }
{
    match chains {
        [] => Ok(Vec::new(alloc)),
        [true, ..] => chain_nodes(alloc),
        [false, ..] => {
            let mut tokens = chain_nodes(alloc)?;
            tokens.push(Token::Pair)?;
            Ok(tokens)
        }
    }
}

/// The nodes of a chain.
fn chain_nodes(alloc: Global) -> Result<Vec<Token>, AllocError>
    ensures { IfOk result (λ tokens. tokens.items ≡ shape_choices (true ∷ [])) }
{
    let mut tokens = Vec::new(alloc);
    tokens.push(Token::Max)?;
    tokens.push(Token::Name)?;
    tokens.push(Token::Or)?;
    tokens.push(Token::Lex)?;
    Ok(tokens)
}

/// The starts of the next leaf.
fn start_choices(alloc: Global, setting: &Setting, kinds: &[Kind]) -> Result<Vec<Token>, AllocError>
    ensures { IfOk result (λ tokens. tokens.items ≡ start_choices setting.now kinds.now) }
{
    match kinds {
        [] => Ok(Vec::new(alloc)),
        [kind, ..] => start_tokens(alloc, of_kind(&setting.constants, *kind).len()),
    }
}

/// The choices for the next part of an effect.
fn part_choices(alloc: Global, sorts: &[Sort], wants: &[Want]) -> Result<Vec<Token>, AllocError>
    ensures { IfOk result (λ tokens. tokens.items ≡ part_choices sorts.now wants.now) }
{
    match wants {
        [] => Ok(Vec::new(alloc)),
        [want, ..] => choices_for(alloc, sorts, *want),
    }
}

/// The choices for an effect.
fn effect_choices(alloc: Global, sorts: &[Sort], wants: &[Want]) -> Result<Vec<Token>, AllocError>
    ensures { IfOk result (λ tokens. tokens.items ≡ Nothing ∷ part_choices sorts.now wants.now) }
{
    let mut tokens = Vec::new(alloc);
    tokens.push(Token::Nothing)?;
    let others = part_choices(alloc, sorts, wants)?;
    tokens.extend_from_slice(&others)?;
    Ok(tokens)
}

/// The choices for the next part of an ask.
fn asked_choices(
    alloc: Global,
    setting: &Setting,
    rows: &[Shared<Row>],
    left: usize,
    wants: &[Wanted],
) -> Result<Vec<Token>, AllocError>
    ensures { IfOk result (λ tokens. tokens.items ≡ asked_choices setting.now rows.now left wants.now) }
{
    match wants {
        [] => Ok(Vec::new(alloc)),
        [wanted, ..] => ask_choices(
            alloc,
            &setting.constants,
            sorts_of_query(setting, left),
            rows,
            *wanted,
        ),
    }
}

/// The tokens that may follow, ascending.
pub fn may_follow(alloc: Global, setting: &Setting, from: &Place) -> Result<Vec<Token>, AllocError>
    ensures { IfOk result (λ tokens. tokens.items ≡ may_follow setting.now from.now.mode from.now.rows) }
{
    match &from.mode {
        Mode::Opening => opening_choices(alloc, &setting.kinds),
        Mode::Keying { .. } => key_sorts(alloc),
        Mode::Shaping { chains, .. } => shape_choices(alloc, chains.as_slice()),
        Mode::Starting { todo, .. } => start_choices(alloc, setting, todo.as_slice()),
        Mode::Effecting { row, left } => effect_choices(
            alloc,
            sorts_of_op(setting, *left),
            row.value().wants.as_slice(),
        ),
        Mode::Filling { left, todo, .. } => part_choices(
            alloc,
            sorts_of_op(setting, *left),
            todo.as_slice(),
        ),
        Mode::Asking { wants, left } => asked_choices(
            alloc,
            setting,
            from.rows.value().as_slice(),
            *left,
            wants.as_slice(),
        ),
        Mode::Finished => Ok(Vec::new(alloc)),
        Mode::Nowhere => Ok(Vec::new(alloc)),
    }
}

/// Whether a list ends here.
pub fn is_finished(from: &Place) -> bool
    ensures { result ≡ is_finished from.now.mode }
{
    match from.mode {
        Mode::Finished => true,
        _ => false,
    }
}
