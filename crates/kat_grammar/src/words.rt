//! What a token says: reserved words and signs by what they are for.
ghost use Rattle.std.specs.Prelude.{◌≡◌};
ghost use Rattle.kat_grammar.specs.Marks.{mark_of, mark_of_sign, mark_of_word};

use crate::marks::{Extreme, Mark, Operator};
use kat_lex::TokenKind;
use kat_lex::words::{
    AND, BOOL, ELSE, FALSE, IF, INT, MAX, MIN, NAME, NAT, NOT, OP, OR, QUERY, RANK, REPLICA, STATE,
    TABLE, THEN, TIME, TRUE, TYPE, is_reserved,
};
use kat_num::Sort;

fn mark_of_word(word: u128) -> Mark
    ensures { result ≡ mark_of_word word }
{
    match word {
        TYPE => Mark::TypeLine,
        STATE => Mark::StateLine,
        OP => Mark::OpLine,
        QUERY => Mark::QueryLine,
        TABLE => Mark::Table,
        RANK => Mark::Rank,
        TIME => Mark::Time,
        REPLICA => Mark::Replica,
        IF => Mark::If,
        THEN => Mark::Then,
        ELSE => Mark::Else,
        NOT => Mark::Not,
        OR => Mark::Operator(Operator::Or),
        AND => Mark::Operator(Operator::And),
        MAX => Mark::Extreme(Extreme::Greatest),
        MIN => Mark::Extreme(Extreme::Least),
        TRUE => Mark::Truth(true),
        FALSE => Mark::Truth(false),
        BOOL => Mark::Sort(Sort::Bool),
        INT => Mark::Sort(Sort::Int),
        NAT => Mark::Sort(Sort::Nat),
        NAME => Mark::Sort(Sort::Name),
        _ if is_reserved(word) => Mark::Other,
        _ => Mark::Word(word),
    }
}

fn mark_of_sign(first: u8, second: u8) -> Mark
    ensures { result ≡ mark_of_sign first second }
{
    match (first, second) {
        (b'(', _) => Mark::Open,
        (b')', _) => Mark::Close,
        (b'[', _) => Mark::OpenBracket,
        (b']', _) => Mark::CloseBracket,
        (b',', _) => Mark::Comma,
        (b';', _) => Mark::Semicolon,
        (b'=', _) => Mark::Operator(Operator::Same),
        (b'+', _) => Mark::Operator(Operator::Plus),
        (b':', b'=') => Mark::Assign,
        (b':', _) => Mark::Colon,
        (b'<', b'=') => Mark::Operator(Operator::AtMost),
        (b'<', _) => Mark::Operator(Operator::Less),
        (b'-', b'>') => Mark::Arrow,
        (b'-', _) => Mark::Operator(Operator::Minus),
        _ => Mark::Other,
    }
}

/// What a token says, in format 1: of the word `rank` that it is `Rank`, of the number 7 `Number(7)`.
pub fn mark_of(kind: TokenKind) -> Mark
    ensures { result ≡ mark_of kind }
{
    match kind {
        TokenKind::Word(word) => mark_of_word(word),
        TokenKind::Name(name) => Mark::Literal(name),
        TokenKind::Number(number) => Mark::Number(number),
        TokenKind::Sign(first, second) => mark_of_sign(first, second),
        TokenKind::Newline => Mark::Newline,
    }
}
