//! The order of tokens.
ghost use Rattle.std.specs.Prelude.{◌≡◌, ◌==◌, ◌&&◌, ◌||◌};
ghost use Rattle.kat_rules.specs.Orders.{key_rank, leaf_argument, leaf_place, rank, sort_rank, truth_rank};
ghost use Rattle.kat_rules.specs.Alike.{are_alike, are_equal};
ghost use Rattle.kat_rules.specs.Tests.{is_before, is_below, is_less, is_same_list};

use crate::tokens::Token;
use kat_design::Leaf;
use kat_num::Sort;

/// The place of a key sort.
fn sort_rank(sort: Sort) -> usize
    ensures { result ≡ sort_rank sort }
{
    match sort {
        Sort::Int => 0,
        Sort::Nat => 1,
        Sort::Name => 2,
        Sort::Bool => 3,
    }
}

/// The place of what an operation gives.
fn leaf_place(leaf: Leaf) -> usize
    ensures { result ≡ leaf_place leaf }
{
    match leaf {
        Leaf::Arg(_) => 1,
        Leaf::Time => 2,
        Leaf::Replica => 3,
        Leaf::Zero => 4,
        Leaf::One => 5,
        Leaf::Pos(_) => 6,
        Leaf::Neg(_) => 7,
        Leaf::False => 8,
        Leaf::True => 9,
    }
}

/// The argument of what an operation gives.
fn leaf_argument(leaf: Leaf) -> usize
    ensures { result ≡ leaf_argument leaf }
{
    match leaf {
        Leaf::Arg(place) => place as usize,
        Leaf::Pos(place) => place as usize,
        Leaf::Neg(place) => place as usize,
        _ => 0,
    }
}

/// The place of a key.
fn key_rank(key: Option<u32>) -> usize
    ensures { result ≡ key_rank key }
{
    match key {
        None => 0,
        Some(place) => place as usize + 1,
    }
}

/// The place of a truth value.
fn truth_rank(truth: bool) -> usize
    ensures { result ≡ truth_rank truth }
{
    match truth {
        false => 0,
        true => 1,
    }
}

/// The place of a token.
fn rank(token: Token) -> [usize; 5]
    ensures { result ≡ rank token }
{
    match token {
        Token::End => [0, 0, 0, 0, 0],
        Token::Cell => [0, 1, 0, 0, 0],
        Token::Table => [0, 2, 0, 0, 0],
        Token::Set => [0, 3, 0, 0, 0],
        Token::Tally => [0, 4, 0, 0, 0],
        Token::Tallies => [0, 5, 0, 0, 0],
        Token::Keys(sort) => [1, sort_rank(sort), 0, 0, 0],
        Token::Max => [2, 0, 0, 0, 0],
        Token::Name => [2, 1, 0, 0, 0],
        Token::Or => [2, 2, 0, 0, 0],
        Token::Lex => [2, 3, 0, 0, 0],
        Token::Pair => [2, 4, 0, 0, 0],
        Token::Start(place) => [3, place, 0, 0, 0],
        Token::Nothing => [4, 0, 0, 0, 0],
        Token::At(place) => [4, 1, place as usize, 0, 0],
        Token::Effect(leaf) => [4, leaf_place(leaf), leaf_argument(leaf), 1, 0],
        Token::Read {
            component,
            leaf,
            key,
        } => [5, 0, component, leaf, key_rank(key)],
        Token::Arg(place) => [5, 1, place as usize, 0, 0],
        Token::NumberConstant(place) => [5, 2, place, 0, 0],
        Token::NameConstant(place) => [5, 3, place, 0, 0],
        Token::Truth(truth) => [5, 4, truth_rank(truth), 0, 0],
        Token::Not => [5, 5, 0, 0, 0],
        Token::And => [5, 6, 0, 0, 0],
        Token::Either => [5, 7, 0, 0, 0],
        Token::Less => [5, 8, 0, 0, 0],
        Token::Plus => [5, 9, 0, 0, 0],
        Token::Minus => [5, 10, 0, 0, 0],
    }
}

/// Whether a list of numbers comes before another: at the first place where they differ.
fn is_less(left: &[usize], right: &[usize]) -> bool
    ensures { result ≡ is_less left.now right.now }
{
    match left {
        [] => !right.is_empty(),
        [first, rest @ ..] => match right {
            [] => false,
            [other, others @ ..] => {
                *first < *other || (*first == *other && is_less(rest, others))
            }
        },
    }
}

/// Whether a token comes before another.
pub fn is_before(left: Token, right: Token) -> bool
    ensures { result ≡ is_before left right }
{
    is_less(&rank(left), &rank(right))
}

/// Whether a list of tokens comes before another.
pub(crate) fn is_below(left: &[Token], right: &[Token]) -> bool
    ensures { result ≡ is_below left.now right.now }
{
    match left {
        [] => !right.is_empty(),
        [first, rest @ ..] => match right {
            [] => false,
            [other, others @ ..] => {
                is_before(*first, *other) || (!is_before(*other, *first) && is_below(rest, others))
            }
        },
    }
}

/// Whether two lists of numbers are one.
fn are_equal(left: &[usize], right: &[usize]) -> bool
    ensures { result ≡ are_equal left.now right.now }
{
    match left {
        [] => right.is_empty(),
        [first, rest @ ..] => match right {
            [] => false,
            [other, others @ ..] => *first == *other && are_equal(rest, others),
        },
    }
}

/// Whether two lists of tokens have the same places.
fn are_alike(left: &[Token], right: &[Token]) -> bool
    ensures { result ≡ are_alike left.now right.now }
{
    match left {
        [] => right.is_empty(),
        [first, rest @ ..] => match right {
            [] => false,
            [other, others @ ..] => {
                are_equal(&rank(*first), &rank(*other)) && are_alike(rest, others)
            }
        },
    }
}

/// Whether two lists of tokens are one.
#[tactic(auto, using(crate::proofs::Alike::alike_same))]
pub fn is_same_list(left: &[Token], right: &[Token]) -> bool
    ensures { result ≡ is_same_list left.now right.now }
{
    are_alike(left, right)
}
