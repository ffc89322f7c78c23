//! What tokens count for the size of a design.
ghost use Rattle.std.specs.Prelude.{◌≡◌, ◌*◌, ◌≤◌, length};
ghost use Rattle.kat_rules.specs.Costs.{cost};
ghost use Rattle.kat_walk.specs.Pruning.{total};

use crate::tokens::Token;

/// What a token counts for the size.
pub fn cost(token: Token) -> usize
    ensures cost { result ≡ cost token }
    ensures small { result ≤ 2 }
{
    match token {
        Token::Tallies => 2,
        Token::End
        | Token::Cell
        | Token::Keys(_)
        | Token::Start(_)
        | Token::Nothing
        | Token::At(_) => 0,
        _ => 1,
    }
}

/// What tokens count for the size.
pub fn total_cost(tokens: &[Token]) -> u128
    ensures total { result ≡ total cost tokens.now }
    ensures small { result ≤ 2 * length tokens.now }
{
    match tokens {
        [] => 0,
        [first, rest @ ..] => cost(*first) as u128 + total_cost(rest),
    }
}
