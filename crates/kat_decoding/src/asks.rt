//! The asks that tokens stand for, read from the end.
ghost use Rattle.std.specs.Prelude.{◌≡◌, [], ◌∷◌, IfOk, map};
ghost use Rattle.kat_design.specs.Designs.{ask_form};
ghost use Rattle.kat_design.specs.Designs.AskForm.{negation};
ghost use Rattle.kat_rules.specs.Constants.{value_at};
ghost use Rattle.kat_decoding.specs.Decoded.{decoded_asks, one_taken, push_ask, push_ask_read, two_taken};
ghost use Rattle.kat_decoding.specs.Stacks.{PopsAsk, asks_in, joined};

use kat_design::Ask;
use kat_num::Value;
use kat_rules::{Constants, Token};
use std::alloc::{AllocError, Global};

/// What joins two asks.
#[derive(Clone, Copy, Debug)]
pub(crate) enum Joining {
    And,
    Or,
    Less,
    Plus,
    Minus,
}

/// Puts an ask on top.
#[tactic(auto, using(crate::proofs::Stacked::asks_pushed))]
fn push(asks: &mut Vec<Ask>, ask: Ask) -> Result<(), AllocError>
    ensures { IfOk result (λ _. asks_in asks.new.items ≡ ask_form ask ∷ asks_in asks.old.items) }
{
    asks.push(ask)?;
    Ok(())
}

/// Takes the ask on top.
#[tactic(auto, using(crate::proofs::Stacked::asks_pushed))]
fn pop(asks: &mut Vec<Ask>) -> Option<Ask>
    ensures { PopsAsk (asks_in asks.old.items) (asks_in asks.new.items) result }
{
    asks.pop()
}

/// Denies the ask on top.
fn push_not(alloc: Global, asks: &mut Vec<Ask>) -> Result<(), AllocError>
    ensures { IfOk result (λ _. asks_in asks.new.items ≡ one_taken negation (asks_in asks.old.items)) }
{
    match pop(asks) {
        None => Ok(()),
        Some(ask) => push(asks, Ask::Not(Box::new(alloc, ask)?)),
    }
}

/// One ask of two.
fn join(alloc: Global, joining: Joining, first: Ask, second: Ask) -> Result<Ask, AllocError>
    ensures { IfOk result (λ ask. ask_form ask ≡ joined joining (ask_form first) (ask_form second)) }
{
    let first = Box::new(alloc, first)?;
    let second = Box::new(alloc, second)?;
    match joining {
        Joining::And => Ok(Ask::And(first, second)),
        Joining::Or => Ok(Ask::Or(first, second)),
        Joining::Less => Ok(Ask::Less(first, second)),
        Joining::Plus => Ok(Ask::Plus(first, second)),
        Joining::Minus => Ok(Ask::Minus(first, second)),
    }
}

/// Joins the two asks on top, if there are two.
fn push_two(alloc: Global, asks: &mut Vec<Ask>, joining: Joining) -> Result<(), AllocError>
    ensures { IfOk result (λ _. asks_in asks.new.items ≡ two_taken (joined joining) (asks_in asks.old.items)) }
{
    match pop(asks) {
        None => Ok(()),
        Some(first) => push_joined(alloc, asks, joining, first),
    }
}

/// Joins an ask with the one on top, if there is one, and puts it on top.
fn push_joined(
    alloc: Global,
    asks: &mut Vec<Ask>,
    joining: Joining,
    first: Ask,
) -> Result<(), AllocError>
    ensures { IfOk result (λ _. asks_in asks.new.items ≡ two_taken (joined joining) (ask_form first ∷ asks_in asks.old.items)) }
{
    match pop(asks) {
        None => push(asks, first),
        Some(second) => {
            let both = join(alloc, joining, first, second)?;
            push(asks, both)
        }
    }
}

/// The constant at a place.
pub(crate) fn value_at(values: &[Value], place: usize) -> Value
    ensures { result ≡ value_at values.now place }
{
    match values.get(place) {
        None => Value::Bool(false),
        Some(value) => *value,
    }
}

/// The read of a component's leaf, unless it has no number of 32 bits.
fn push_read(
    asks: &mut Vec<Ask>,
    component: usize,
    leaf: usize,
    key: Option<u32>,
) -> Result<(), AllocError>
    ensures { IfOk result (λ _. asks_in asks.new.items ≡ push_ask_read component leaf key (asks_in asks.old.items)) }
{
    let (Ok(component), Ok(leaf)) = (u32::try_from(component), u32::try_from(leaf)) else {
        return Ok(());
    };
    let ask = Ask::Leaf {
        component,
        leaf,
        key,
    };
    push(asks, ask)
}

/// Reads one more token.
fn push_ask(
    alloc: Global,
    constants: &Constants,
    asks: &mut Vec<Ask>,
    token: Token,
) -> Result<(), AllocError>
    ensures { IfOk result (λ _. asks_in asks.new.items ≡ push_ask constants.now token (asks_in asks.old.items)) }
{
    match token {
        Token::Read {
            component,
            leaf,
            key,
        } => push_read(asks, component, leaf, key),
        Token::Arg(place) => push(asks, Ask::Arg(place)),
        Token::NumberConstant(place) => push(
            asks,
            Ask::Const(value_at(constants.numbers.as_slice(), place)),
        ),
        Token::NameConstant(place) => push(
            asks,
            Ask::Const(value_at(constants.names.as_slice(), place)),
        ),
        Token::Truth(truth) => push(asks, Ask::Const(Value::Bool(truth))),
        Token::Not => push_not(alloc, asks),
        Token::And => push_two(alloc, asks, Joining::And),
        Token::Either => push_two(alloc, asks, Joining::Or),
        Token::Less => push_two(alloc, asks, Joining::Less),
        Token::Plus => push_two(alloc, asks, Joining::Plus),
        Token::Minus => push_two(alloc, asks, Joining::Minus),
        _ => Ok(()),
    }
}

/// The asks that tokens stand for, the first one last.
fn stacked_asks(
    alloc: Global,
    constants: &Constants,
    tokens: &[Token],
) -> Result<Vec<Ask>, AllocError>
    ensures { IfOk result (λ asks. asks_in asks.items ≡ decoded_asks constants.now tokens.now) }
{
    match tokens {
        [] => Ok(Vec::new(alloc)),
        [first, rest @ ..] => {
            let mut asks = stacked_asks(alloc, constants, rest)?;
            push_ask(alloc, constants, &mut asks, *first)?;
            Ok(asks)
        }
    }
}

/// The asks that tokens stand for, in their order.
#[tactic(auto, using(crate::proofs::Stacked::asks_reversed))]
pub(crate) fn decode_asks(
    alloc: Global,
    constants: &Constants,
    tokens: &[Token],
) -> Result<Vec<Ask>, AllocError>
    ensures { IfOk result (λ asks. map ask_form asks.items ≡ decoded_asks constants.now tokens.now) }
{
    let mut asks = stacked_asks(alloc, constants, tokens)?;
    asks.reverse();
    Ok(asks)
}
