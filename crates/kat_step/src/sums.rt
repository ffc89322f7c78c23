//! The sums that an operation grows.
ghost use Rattle.std.specs.Prelude.{◌≡◌, ◌+◌, ◌≤◌, All, MatchOption, None, Some, map, nat_lt, unsigned_abs};
ghost use Rattle.kat_expr.specs.Evaluation.{number_of};
ghost use Rattle.kat_expr.specs.Limits.{IsAtMost};
ghost use Rattle.kat_expr.specs.Slots.{argument};
ghost use Rattle.kat_lattice.specs.Tallies.{sum_of};
ghost use Rattle.kat_design.specs.Denotations.{natural, weight_of};
ghost use Rattle.kat_design.specs.Designs.{component_form};
ghost use Rattle.kat_design.specs.Effects.{effect_of, leaf_value};
ghost use Rattle.kat_step.specs.Limits.{is_past, passes_limit, passes_in};

use crate::steps::SUM_LIMIT;
use kat_design::{Component, Leaf, Part};
use kat_expr::argument;
use kat_lattice::Tally;
use kat_num::{NUMBER_LIMIT, Value};
use kat_type::Done;

/// Whether an operation would make a sum of a state pass [`SUM_LIMIT`]: asked before anything changes, of the components of a design
/// and the parts of a state of it.
pub fn passes_limit(components: &[Component], parts: &[Part], done: &Done) -> bool
    requires { All (IsAtMost NUMBER_LIMIT) done.now.args }
    ensures { result ≡ passes_limit (map component_form components.now) parts.now done.now }
{
    match components {
        [] => false,
        [component, components @ ..] => match parts {
            [] => false,
            [part, parts @ ..] => passes_in(component, part, done)
                || passes_limit(components, parts, done),
        },
    }
}

/// Whether an operation would make a sum of a part pass its limit.
fn passes_in(component: &Component, part: &Part, done: &Done) -> bool
    requires { All (IsAtMost NUMBER_LIMIT) done.now.args }
    ensures { result ≡ passes_in (component_form component.now) part.now done.now }
{
    match (component, part) {
        (Component::Tally { effects }, Part::Tally(sums)) => {
            match effect_of(effects.as_slice(), done) {
                Some(leaf) => is_past(sum_of(sums, done.replica), weight(done, *leaf)),
                None => false,
            }
        }
        (Component::Tallies { effects, .. }, Part::Tallies(table)) => {
            match effect_of(effects.as_slice(), done) {
                Some((place, leaf)) => {
                    let key = argument(done.args.as_slice(), *place);
                    is_past(sum_of(table.get(&key), done.replica), weight(done, *leaf))
                }
                None => false,
            }
        }
        _ => false,
    }
}

/// Whether a sum with a weight is past the limit.
fn is_past(sum: u128, weight: u128) -> bool
    ensures { result ≡ is_past sum weight }
{
    match sum.checked_add(weight) {
        Some(grown) => grown > SUM_LIMIT,
        None => true,
    }
}

/// The sum of a replica, 0 if it has none.
fn sum_of(sums: &Tally, replica: u32) -> u128
    ensures { result ≡ sum_of sums.now replica }
{
    sum_in(sums.sums(), replica)
}

/// The sum of a replica among these.
#[tactic(auto, using(crate::proofs::Growing::sum_key))]
fn sum_in(sums: &[(u32, u128)], replica: u32) -> u128
    ensures { result ≡ sum_of sums.now replica }
{
    match sums {
        [] => 0,
        [first, rest @ ..] => {
            if replica == first.0 {
                first.1
            } else {
                sum_in(rest, replica)
            }
        }
    }
}

/// The effect of an operation, if it has one.
fn effect_of<'a, E>(effects: &'a [Option<E>], done: &Done) -> Option<&'a E>
    ensures { MatchOption result (effect_of effects.now done.now ≡ None) (λ effect. effect_of effects.now done.now ≡ Some effect.now) }
{
    match effects.get(done.op as usize) {
        Some(Some(effect)) => Some(effect),
        _ => None,
    }
}

/// The weight of a leaf for an operation: what is below 0 weighs nothing.
fn weight(done: &Done, leaf: Leaf) -> u128
    requires { All (IsAtMost NUMBER_LIMIT) done.now.args }
    ensures { result ≡ weight_of (Some leaf) done.now }
{
    natural(number(leaf_value(done, leaf)))
}

/// The value of a leaf for an operation.
fn leaf_value(done: &Done, leaf: Leaf) -> Value
    requires { All (IsAtMost NUMBER_LIMIT) done.now.args }
    ensures { result ≡ leaf_value done.now leaf }
{
    match leaf {
        Leaf::Arg(place) => argument(done.args.as_slice(), place),
        Leaf::Time => Value::Num(i128::from(done.time)),
        Leaf::Replica => Value::Num(i128::from(done.replica)),
        Leaf::Zero => Value::Num(0),
        Leaf::One => Value::Num(1),
        Leaf::Pos(place) => Value::Num(number_at(done, place).max(0)),
        Leaf::Neg(place) => Value::Num((-number_at(done, place)).max(0)),
        Leaf::False => Value::Bool(false),
        Leaf::True => Value::Bool(true),
    }
}

/// The number that an argument is.
fn number_at(done: &Done, place: u32) -> i128
    requires { All (IsAtMost NUMBER_LIMIT) done.now.args }
    ensures number { result ≡ number_of (argument done.now.args place) }
    ensures small { unsigned_abs result ≤ NUMBER_LIMIT }
{
    number(argument(done.args.as_slice(), place))
}

/// The number of a value.
fn number(value: Value) -> i128
    ensures { result ≡ number_of value }
{
    match value {
        Value::Num(number) => number,
        _ => 0,
    }
}

/// A number as a weight.
fn natural(number: i128) -> u128
    ensures { result ≡ natural number }
{
    if number < 0 { 0 } else { number as u128 }
}
