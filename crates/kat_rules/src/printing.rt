//! The token list of a design.
ghost use Rattle.std.specs.Prelude.{◌≡◌, ◌≤◌, ◌++◌, [], ◌∷◌, IfOk, length, map};
ghost use Rattle.kat_design.specs.Designs.{ask_form, component_form, design_form};
ghost use Rattle.kat_rules.specs.Constants.{place_of};
ghost use Rattle.kat_rules.specs.Tokens.{ask_tokens, asks_tokens, cell_effect, component_tokens, components_tokens, constant_token, design_tokens, effect_tokens, effects_of, effects_tokens, head_tokens, set_effect, shape_tokens, start_token, starts_of, table_effect, tallies_effect, tally_effect};
ghost use Rattle.kat_rules.specs.declared.tokens.Token.TheVariants.{Effect};
ghost use Rattle.kat_shape.specs.Forms.{form_of};

use crate::constants::{Constants, is_same_value, of_kind};
use crate::tokens::Token;
use kat_design::{Ask, Component, Design, Leaf, value_kind};
use kat_num::{Items, Value};
use kat_shape::Shape;
use std::alloc::{AllocError, Global};

/// The place of a value in a list, or its length if the value isn't there.
fn place_of(value: Value, values: &[Value]) -> usize
    ensures place { result ≡ place_of value values.now }
    ensures within { result ≤ length values.now }
{
    match values {
        [] => 0,
        [first, rest @ ..] => {
            if is_same_value(*first, value) {
                0
            } else {
                place_of(value, rest) + 1
            }
        }
    }
}

/// Adds the nodes of a shape.
#[tactic(auto, using(crate::proofs::Printed::joined))]
fn push_shape(tokens: &mut Vec<Token>, shape: &Shape) -> Result<(), AllocError>
    ensures { IfOk result (λ _. tokens.new.items ≡ tokens.old.items ++ shape_tokens (form_of shape.now)) }
{
    match shape {
        Shape::Max => {
            tokens.push(Token::Max)?;
            Ok(())
        }
        Shape::Name => {
            tokens.push(Token::Name)?;
            Ok(())
        }
        Shape::Or => {
            tokens.push(Token::Or)?;
            Ok(())
        }
        Shape::Lex(first, second) => {
            tokens.push(Token::Lex)?;
            push_shape(tokens, first)?;
            push_shape(tokens, second)
        }
        Shape::Pair(first, second) => {
            tokens.push(Token::Pair)?;
            push_shape(tokens, first)?;
            push_shape(tokens, second)
        }
    }
}

/// Adds what a component begins with.
fn push_head(tokens: &mut Vec<Token>, component: &Component) -> Result<(), AllocError>
    ensures { IfOk result (λ _. tokens.new.items ≡ tokens.old.items ++ head_tokens (component_form component.now)) }
{
    match component {
        Component::Cell { shape, .. } => {
            tokens.push(Token::Cell)?;
            push_shape(tokens, shape)
        }
        Component::Table { key, shape, .. } => {
            tokens.push(Token::Table)?;
            tokens.push(Token::Keys(*key))?;
            push_shape(tokens, shape)
        }
        Component::Set { key, .. } => {
            tokens.push(Token::Set)?;
            tokens.push(Token::Keys(*key))?;
            Ok(())
        }
        Component::Tally { .. } => {
            tokens.push(Token::Tally)?;
            Ok(())
        }
        Component::Tallies { key, .. } => {
            tokens.push(Token::Tallies)?;
            tokens.push(Token::Keys(*key))?;
            Ok(())
        }
    }
}

/// The starts of a component's leaves.
pub(crate) fn starts_of(component: &Component) -> &[Value]
    ensures { result.now ≡ starts_of (component_form component.now) }
{
    match component {
        Component::Cell { starts, .. } => starts.as_slice(),
        Component::Table { starts, .. } => starts.as_slice(),
        Component::Set { .. } | Component::Tally { .. } | Component::Tallies { .. } => &[],
    }
}

/// The token of a start.
fn start_token(constants: &Constants, value: Value) -> Token
    ensures { result ≡ start_token constants.now value }
{
    Token::Start(place_of(value, of_kind(constants, value_kind(value))))
}

/// Adds starts.
#[tactic(auto, using(crate::proofs::Printed::one_more))]
fn push_starts(
    constants: &Constants,
    tokens: &mut Vec<Token>,
    starts: &[Value],
) -> Result<(), AllocError>
    ensures { IfOk result (λ _. tokens.new.items ≡ tokens.old.items ++ map (start_token constants.now) starts.now) }
{
    match starts {
        [] => Ok(()),
        [first, rest @ ..] => {
            tokens.push(start_token(constants, *first))?;
            push_starts(constants, tokens, rest)
        }
    }
}

/// Adds what an operation gives.
#[tactic(auto, using(crate::proofs::Printed::one_more))]
fn push_leaves(tokens: &mut Vec<Token>, leaves: &[Leaf]) -> Result<(), AllocError>
    ensures { IfOk result (λ _. tokens.new.items ≡ tokens.old.items ++ map Effect leaves.now) }
{
    match leaves {
        [] => Ok(()),
        [first, rest @ ..] => {
            tokens.push(Token::Effect(*first))?;
            push_leaves(tokens, rest)
        }
    }
}

/// Adds an effect on a cell.
fn push_cell_effect(tokens: &mut Vec<Token>, effect: &Option<Items<Leaf>>) -> Result<(), AllocError>
    ensures { IfOk result (λ _. tokens.new.items ≡ tokens.old.items ++ effect_tokens (cell_effect effect.now)) }
{
    match effect {
        None => {
            tokens.push(Token::Nothing)?;
            Ok(())
        }
        Some(leaves) => push_leaves(tokens, leaves.as_slice()),
    }
}

/// Adds effects on a cell.
#[tactic(auto, using(crate::proofs::Printed::joined))]
fn push_cell_effects(
    tokens: &mut Vec<Token>,
    effects: &[Option<Items<Leaf>>],
) -> Result<(), AllocError>
    ensures { IfOk result (λ _. tokens.new.items ≡ tokens.old.items ++ effects_tokens (map cell_effect effects.now)) }
{
    match effects {
        [] => Ok(()),
        [first, rest @ ..] => {
            push_cell_effect(tokens, first)?;
            push_cell_effects(tokens, rest)
        }
    }
}

/// Adds an effect on a table.
#[tactic(auto, using(crate::proofs::Printed::one_more))]
fn push_table_effect(
    tokens: &mut Vec<Token>,
    effect: &Option<(u32, Items<Leaf>)>,
) -> Result<(), AllocError>
    ensures { IfOk result (λ _. tokens.new.items ≡ tokens.old.items ++ effect_tokens (table_effect effect.now)) }
{
    match effect {
        None => {
            tokens.push(Token::Nothing)?;
            Ok(())
        }
        Some((key, leaves)) => {
            tokens.push(Token::At(*key))?;
            push_leaves(tokens, leaves.as_slice())
        }
    }
}

/// Adds effects on a table.
#[tactic(auto, using(crate::proofs::Printed::joined))]
fn push_table_effects(
    tokens: &mut Vec<Token>,
    effects: &[Option<(u32, Items<Leaf>)>],
) -> Result<(), AllocError>
    ensures { IfOk result (λ _. tokens.new.items ≡ tokens.old.items ++ effects_tokens (map table_effect effects.now)) }
{
    match effects {
        [] => Ok(()),
        [first, rest @ ..] => {
            push_table_effect(tokens, first)?;
            push_table_effects(tokens, rest)
        }
    }
}

/// Adds an effect on a set.
fn push_set_effect(tokens: &mut Vec<Token>, effect: Option<u32>) -> Result<(), AllocError>
    ensures { IfOk result (λ _. tokens.new.items ≡ tokens.old.items ++ effect_tokens (set_effect effect)) }
{
    match effect {
        None => {
            tokens.push(Token::Nothing)?;
            Ok(())
        }
        Some(place) => {
            tokens.push(Token::Effect(Leaf::Arg(place)))?;
            Ok(())
        }
    }
}

/// Adds effects on a set.
#[tactic(auto, using(crate::proofs::Printed::joined))]
fn push_set_effects(tokens: &mut Vec<Token>, effects: &[Option<u32>]) -> Result<(), AllocError>
    ensures { IfOk result (λ _. tokens.new.items ≡ tokens.old.items ++ effects_tokens (map set_effect effects.now)) }
{
    match effects {
        [] => Ok(()),
        [first, rest @ ..] => {
            push_set_effect(tokens, *first)?;
            push_set_effects(tokens, rest)
        }
    }
}

/// Adds an effect on a tally.
fn push_tally_effect(tokens: &mut Vec<Token>, effect: Option<Leaf>) -> Result<(), AllocError>
    ensures { IfOk result (λ _. tokens.new.items ≡ tokens.old.items ++ effect_tokens (tally_effect effect)) }
{
    match effect {
        None => {
            tokens.push(Token::Nothing)?;
            Ok(())
        }
        Some(weight) => {
            tokens.push(Token::Effect(weight))?;
            Ok(())
        }
    }
}

/// Adds effects on a tally.
#[tactic(auto, using(crate::proofs::Printed::joined))]
fn push_tally_effects(tokens: &mut Vec<Token>, effects: &[Option<Leaf>]) -> Result<(), AllocError>
    ensures { IfOk result (λ _. tokens.new.items ≡ tokens.old.items ++ effects_tokens (map tally_effect effects.now)) }
{
    match effects {
        [] => Ok(()),
        [first, rest @ ..] => {
            push_tally_effect(tokens, *first)?;
            push_tally_effects(tokens, rest)
        }
    }
}

/// Adds an effect on `tallies`.
#[tactic(auto, using(crate::proofs::Printed::one_more))]
fn push_tallies_effect(
    tokens: &mut Vec<Token>,
    effect: Option<(u32, Leaf)>,
) -> Result<(), AllocError>
    ensures { IfOk result (λ _. tokens.new.items ≡ tokens.old.items ++ effect_tokens (tallies_effect effect)) }
{
    match effect {
        None => {
            tokens.push(Token::Nothing)?;
            Ok(())
        }
        Some((key, weight)) => {
            tokens.push(Token::At(key))?;
            tokens.push(Token::Effect(weight))?;
            Ok(())
        }
    }
}

/// Adds effects on `tallies`.
#[tactic(auto, using(crate::proofs::Printed::joined))]
fn push_tallies_effects(
    tokens: &mut Vec<Token>,
    effects: &[Option<(u32, Leaf)>],
) -> Result<(), AllocError>
    ensures { IfOk result (λ _. tokens.new.items ≡ tokens.old.items ++ effects_tokens (map tallies_effect effects.now)) }
{
    match effects {
        [] => Ok(()),
        [first, rest @ ..] => {
            push_tallies_effect(tokens, *first)?;
            push_tallies_effects(tokens, rest)
        }
    }
}

/// Adds the effects on a component.
fn push_effects(tokens: &mut Vec<Token>, component: &Component) -> Result<(), AllocError>
    ensures { IfOk result (λ _. tokens.new.items ≡ tokens.old.items ++ effects_tokens (effects_of (component_form component.now))) }
{
    match component {
        Component::Cell { effects, .. } => push_cell_effects(tokens, effects.as_slice()),
        Component::Table { effects, .. } => push_table_effects(tokens, effects.as_slice()),
        Component::Set { effects, .. } => push_set_effects(tokens, effects.as_slice()),
        Component::Tally { effects } => push_tally_effects(tokens, effects.as_slice()),
        Component::Tallies { effects, .. } => push_tallies_effects(tokens, effects.as_slice()),
    }
}

/// Adds a component.
#[tactic(auto, using(crate::proofs::Printed::joined))]
fn push_component(
    constants: &Constants,
    tokens: &mut Vec<Token>,
    component: &Component,
) -> Result<(), AllocError>
    ensures { IfOk result (λ _. tokens.new.items ≡ tokens.old.items ++ component_tokens constants.now (component_form component.now)) }
{
    push_head(tokens, component)?;
    push_starts(constants, tokens, starts_of(component))?;
    push_effects(tokens, component)
}

/// The token list of a component.
pub(crate) fn component_tokens(
    alloc: Global,
    constants: &Constants,
    component: &Component,
) -> Result<Items<Token>, AllocError>
    ensures { IfOk result (λ tokens. tokens ≡ component_tokens constants.now (component_form component.now)) }
{
    let mut tokens = Vec::new(alloc);
    push_component(constants, &mut tokens, component)?;
    Ok(Items::from_vec(tokens))
}

/// Adds components.
#[tactic(auto, using(crate::proofs::Printed::joined))]
fn push_components(
    constants: &Constants,
    tokens: &mut Vec<Token>,
    components: &[Component],
) -> Result<(), AllocError>
    ensures { IfOk result (λ _. tokens.new.items ≡ tokens.old.items
        ++ components_tokens constants.now (map component_form components.now)) }
{
    match components {
        [] => Ok(()),
        [first, rest @ ..] => {
            push_component(constants, tokens, first)?;
            push_components(constants, tokens, rest)
        }
    }
}

/// The token of a constant.
fn constant_token(constants: &Constants, value: Value) -> Token
    ensures { result ≡ constant_token constants.now value }
{
    match value {
        Value::Num(_) => Token::NumberConstant(place_of(value, constants.numbers.as_slice())),
        Value::Name(_) => Token::NameConstant(place_of(value, constants.names.as_slice())),
        Value::Bool(truth) => Token::Truth(truth),
    }
}

/// Adds the token list of an ask.
#[tactic(auto, using(crate::proofs::Printed::joined))]
fn push_ask(constants: &Constants, tokens: &mut Vec<Token>, ask: &Ask) -> Result<(), AllocError>
    ensures { IfOk result (λ _. tokens.new.items ≡ tokens.old.items ++ ask_tokens constants.now (ask_form ask.now)) }
{
    match ask {
        Ask::Leaf {
            component,
            leaf,
            key,
        } => {
            tokens.push(Token::Read {
                component: *component as usize,
                leaf: *leaf as usize,
                key: *key,
            })?;
            Ok(())
        }
        Ask::Arg(place) => {
            tokens.push(Token::Arg(*place))?;
            Ok(())
        }
        Ask::Const(value) => {
            tokens.push(constant_token(constants, *value))?;
            Ok(())
        }
        Ask::Not(inner) => {
            tokens.push(Token::Not)?;
            push_ask(constants, tokens, inner)
        }
        Ask::And(left, right) => {
            tokens.push(Token::And)?;
            push_ask(constants, tokens, left)?;
            push_ask(constants, tokens, right)
        }
        Ask::Or(left, right) => {
            tokens.push(Token::Either)?;
            push_ask(constants, tokens, left)?;
            push_ask(constants, tokens, right)
        }
        Ask::Less(left, right) => {
            tokens.push(Token::Less)?;
            push_ask(constants, tokens, left)?;
            push_ask(constants, tokens, right)
        }
        Ask::Plus(left, right) => {
            tokens.push(Token::Plus)?;
            push_ask(constants, tokens, left)?;
            push_ask(constants, tokens, right)
        }
        Ask::Minus(left, right) => {
            tokens.push(Token::Minus)?;
            push_ask(constants, tokens, left)?;
            push_ask(constants, tokens, right)
        }
    }
}

/// The token list of an ask.
pub(crate) fn ask_tokens(
    alloc: Global,
    constants: &Constants,
    ask: &Ask,
) -> Result<Vec<Token>, AllocError>
    ensures { IfOk result (λ tokens. tokens.items ≡ ask_tokens constants.now (ask_form ask.now)) }
{
    let mut tokens = Vec::new(alloc);
    push_ask(constants, &mut tokens, ask)?;
    Ok(tokens)
}

/// Adds asks.
#[tactic(auto, using(crate::proofs::Printed::joined))]
fn push_asks(constants: &Constants, tokens: &mut Vec<Token>, asks: &[Ask]) -> Result<(), AllocError>
    ensures { IfOk result (λ _. tokens.new.items ≡ tokens.old.items ++ asks_tokens constants.now (map ask_form asks.now)) }
{
    match asks {
        [] => Ok(()),
        [first, rest @ ..] => {
            push_ask(constants, tokens, first)?;
            push_asks(constants, tokens, rest)
        }
    }
}

/// The token list of a design.
#[tactic(auto, using(crate::proofs::Printed::joined))]
pub fn design_tokens(
    alloc: Global,
    constants: &Constants,
    design: &Design,
) -> Result<Vec<Token>, AllocError>
    ensures { IfOk result (λ tokens. tokens.items ≡ design_tokens constants.now (design_form design.now)) }
{
    let mut tokens = Vec::new(alloc);
    push_components(constants, &mut tokens, design.components.as_slice())?;
    tokens.push(Token::End)?;
    push_asks(constants, &mut tokens, design.asks.as_slice())?;
    Ok(tokens)
}
