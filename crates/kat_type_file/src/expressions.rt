//! Expressions with their words looked up.
ghost use Rattle.std.specs.Prelude.{◌≡◌, ◌≤◌, length, IfOk};
ghost use Rattle.kat_expr.specs.Terms.{term_of};
ghost use Rattle.kat_grammar.specs.Phrases.{form_of};
ghost use Rattle.kat_type.specs.Limits.{field_limit, param_limit};
ghost use Rattle.kat_judging.specs.Faults.{scope_of};
ghost use Rattle.kat_judging.specs.Names.{field_named, first_named, param_named};
ghost use Rattle.kat_type_file.specs.Typing.{chosen_term, constant_value, joined_term, place_of, term_in, word_term};

use kat_expr::Expr;
use kat_grammar::{Constant, Extreme, Operator, Parameter, Phrase, State, Word};
use kat_judging::{Named, first_named};
use kat_num::Value;
use std::alloc::{AllocError, Global};

/// The place of the first of this name, and 0 if there is none.
pub(crate) fn place_of<T: Named + Copy>(list: &[T], code: u128) -> u32
    requires { length list.now ≤ field_limit }
    ensures { result ≡ place_of (first_named (λ (it : T). (T.word it).code) code list.now) }
{
    match first_named(list, code) {
        Some(found) => found.place as u32,
        None => 0,
    }
}

/// The value of a constant.
pub(crate) fn constant_value(constant: Constant) -> Value
    ensures { result ≡ constant_value constant }
{
    match constant {
        Constant::Natural { number, .. } => Value::Num(i128::from(number)),
        Constant::Negative { number, .. } => Value::Num(-i128::from(number)),
        Constant::Literal { name, .. } => Value::Name(name),
        Constant::Truth { truth, .. } => Value::Bool(truth),
    }
}

/// A parameter, or else a field.
fn word_expression(states: &[State], params: &[Parameter], word: Word) -> Expr
    requires fields { length states.now ≤ field_limit }
    requires params { length params.now ≤ param_limit }
    ensures { term_of result ≡ word_term (param_named (scope_of states.now params.now) word.code)
        (field_named (scope_of states.now params.now) word.code) }
{
    match first_named(params, word.code) {
        Some(_) => Expr::Arg(place_of(params, word.code)),
        None => Expr::Plain(place_of(states, word.code)),
    }
}

/// Two expressions under an operator.
fn joined(operator: Operator, left: Box<Expr>, right: Box<Expr>) -> Expr
    ensures { term_of result ≡ joined_term operator (term_of left.value) (term_of right.value) }
{
    match operator {
        Operator::Or => Expr::Or(left, right),
        Operator::And => Expr::And(left, right),
        Operator::Less => Expr::Less(left, right),
        Operator::AtMost => Expr::AtMost(left, right),
        Operator::Same => Expr::Same(left, right),
        Operator::Plus => Expr::Plus(left, right),
        Operator::Minus => Expr::Minus(left, right),
    }
}

/// The greater or the lesser of two expressions.
fn chosen(extreme: Extreme, left: Box<Expr>, right: Box<Expr>) -> Expr
    ensures { term_of result ≡ chosen_term extreme (term_of left.value) (term_of right.value) }
{
    match extreme {
        Extreme::Greatest => Expr::Max(left, right),
        Extreme::Least => Expr::Min(left, right),
    }
}

/// A part of an expression with its words looked up, in a place of its own: what is waiting for its other parts is then no larger
/// on the stack than the places of those that are there.
#[cycle(expression)]
fn boxed(
    alloc: Global,
    states: &[State],
    params: &[Parameter],
    phrase: &Phrase,
) -> Result<Box<Expr>, AllocError>
    requires fields { length states.now ≤ field_limit }
    requires params { length params.now ≤ param_limit }
    ensures { IfOk result (λ part. term_of part.value ≡ term_in (scope_of states.now params.now) (form_of phrase.now)) }
{
    Ok(Box::new(alloc, expression(alloc, states, params, phrase)?)?)
}

/// An expression with its words looked up.
#[cycle(expression)]
pub(crate) fn expression(
    alloc: Global,
    states: &[State],
    params: &[Parameter],
    phrase: &Phrase,
) -> Result<Expr, AllocError>
    requires fields { length states.now ≤ field_limit }
    requires params { length params.now ≤ param_limit }
    ensures { IfOk result (λ whole. term_of whole ≡ term_in (scope_of states.now params.now) (form_of phrase.now)) }
{
    match phrase {
        Phrase::Constant(constant) => Ok(Expr::Const(constant_value(*constant))),
        Phrase::Word(word) => Ok(word_expression(states, params, *word)),
        Phrase::Entry { table, key, .. } => Ok(Expr::Keyed {
            field: place_of(states, table.code),
            key: place_of(params, key.code),
        }),
        Phrase::Not { operand, .. } => Ok(Expr::Not(boxed(alloc, states, params, operand)?)),
        Phrase::Binary {
            operator,
            left,
            right,
            ..
        } => {
            let left = boxed(alloc, states, params, left)?;
            let right = boxed(alloc, states, params, right)?;
            Ok(joined(*operator, left, right))
        }
        Phrase::Extreme {
            extreme,
            left,
            right,
            ..
        } => {
            let left = boxed(alloc, states, params, left)?;
            let right = boxed(alloc, states, params, right)?;
            Ok(chosen(*extreme, left, right))
        }
        Phrase::If {
            condition,
            left,
            right,
            ..
        } => {
            let condition = boxed(alloc, states, params, condition)?;
            let left = boxed(alloc, states, params, left)?;
            let right = boxed(alloc, states, params, right)?;
            Ok(Expr::If(condition, left, right))
        }
        Phrase::Parens { inner, .. } => expression(alloc, states, params, inner),
    }
}
