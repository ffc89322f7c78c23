//! Which components can have an effect and be read.
ghost use Rattle.std.specs.Prelude.{◌≡◌};
ghost use Rattle.kat_design.specs.Faults.{is_sort};
ghost use Rattle.kat_machine.specs.Usable.{has_usable_leaf, is_usable_leaf, gives_some, has_key, has_parameter, reaches, may_be_used, some_op, some_query};

use kat_design::{Kind, Wanted, is_wanted, sort_kind};
use kat_num::Sort;
use kat_rules::{Setting, Token};
use kat_type::{OpSig, QuerySig};

/// Whether two sorts are one.
fn is_sort(sort: Sort, other: Sort) -> bool
    ensures { result ≡ is_sort sort other }
{
    match (sort, other) {
        (Sort::Bool, Sort::Bool) => true,
        (Sort::Int, Sort::Int) => true,
        (Sort::Nat, Sort::Nat) => true,
        (Sort::Name, Sort::Name) => true,
        _ => false,
    }
}

/// Whether a parameter has the sort.
fn has_parameter(sort: Sort, sorts: &[Sort]) -> bool
    ensures { result ≡ has_parameter sort sorts.now }
{
    match sorts {
        [] => false,
        [first, rest @ ..] => is_sort(sort, *first) || has_parameter(sort, rest),
    }
}

/// Whether a parameter has the sort of the keys, if there are keys.
fn has_key(key: Option<Sort>, sorts: &[Sort]) -> bool
    ensures { result ≡ has_key key sorts.now }
{
    match key {
        None => true,
        Some(sort) => has_parameter(sort, sorts),
    }
}

/// Whether a value of a kind may come of a leaf of another.
fn reaches(kind: Kind, leaf: Kind) -> bool
    ensures { result ≡ reaches kind leaf }
{
    match kind {
        Kind::Truth => true,
        Kind::Number => is_wanted(Wanted::Exactly(Kind::Number), leaf),
        Kind::Name => is_wanted(Wanted::Exactly(Kind::Name), leaf),
    }
}

/// Whether some query can read a leaf of a kind at such keys.
fn some_query(queries: &[QuerySig], key: Option<Sort>, leaf: Kind) -> bool
    ensures { result ≡ some_query queries.now key leaf }
{
    match queries {
        [] => false,
        [first, rest @ ..] => {
            (has_key(key, first.sorts.as_slice()) && reaches(sort_kind(first.sort), leaf))
                || some_query(rest, key, leaf)
        }
    }
}

/// Whether an operation with these parameters can give something to a leaf of a kind.
fn gives_some(sorts: &[Sort], leaf: Kind) -> bool
    ensures { result ≡ gives_some sorts.now leaf }
{
    match leaf {
        Kind::Name => has_parameter(Sort::Name, sorts),
        Kind::Number | Kind::Truth => true,
    }
}

/// Whether some operation can give something to a leaf of a kind at such keys.
fn some_op(ops: &[OpSig], key: Option<Sort>, leaf: Kind) -> bool
    ensures { result ≡ some_op ops.now key leaf }
{
    match ops {
        [] => false,
        [first, rest @ ..] => {
            (has_key(key, first.sorts.as_slice()) && gives_some(first.sorts.as_slice(), leaf))
                || some_op(rest, key, leaf)
        }
    }
}

/// Whether a leaf of a kind at such keys can have an effect and be read.
fn is_usable_leaf(setting: &Setting, key: Option<Sort>, leaf: Kind) -> bool
    ensures { result ≡ is_usable_leaf setting.now key leaf }
{
    some_query(setting.sig.queries.as_slice(), key, leaf)
        && some_op(setting.sig.ops.as_slice(), key, leaf)
}

/// Whether some leaf at such keys can have an effect and be read.
fn has_usable_leaf(setting: &Setting, key: Option<Sort>) -> bool
    ensures { result ≡ has_usable_leaf setting.now key }
{
    is_usable_leaf(setting, key, Kind::Number)
        || (is_usable_leaf(setting, key, Kind::Name) || is_usable_leaf(setting, key, Kind::Truth))
}

/// Whether a component that begins or goes on with the token may be of use: some operation can have an effect on a leaf of it
/// that some query can read. Tokens that don't tell that are of use.
pub fn may_be_used(setting: &Setting, token: Token) -> bool
    ensures { result ≡ may_be_used setting.now token }
{
    match token {
        Token::Cell => has_usable_leaf(setting, None),
        Token::Tally => is_usable_leaf(setting, None, Kind::Number),
        Token::Keys(sort) => has_usable_leaf(setting, Some(sort)),
        _ => true,
    }
}
