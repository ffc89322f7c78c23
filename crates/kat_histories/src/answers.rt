//! The one answer to an ask after all orders, by the states that these lead to.
ghost use Rattle.std.specs.Prelude.{◌≡◌, ◌^◌, All, List};
ghost use Rattle.std.specs.List.{list_all};
ghost use Rattle.kat_histories.specs.Answering.{is_answer, one_answer};
ghost use Rattle.kat_expr.specs.Limits.{IsAtMost, IsSlotAtMost};
ghost use Rattle.kat_expr.specs.declared.expressions.Slot as expressions;
ghost use Rattle.kat_type.specs.Types.{type_form};
ghost use Rattle.kat_type.specs.Unions.{is_same_value};
ghost use Rattle.kat_type.specs.Within.{IsWithinLimits};

use crate::calls::Call;
use kat_expr::Slot;
use kat_num::{Items, Value};
use kat_seq::answer;
use kat_type::SeqType;

/// The one answer of a type in these states to an ask: `None` if two of them answer it differently, or there are none.
pub fn one_answer(ty: &SeqType, states: &[Items<Slot>], ask: &Call) -> Option<Value>
    requires limits { IsWithinLimits (type_form ty.now) }
    requires states { All (λ (state : List expressions.Slot). All (IsSlotAtMost (2 ^ 100)) state) states.now }
    requires asks { All (IsAtMost (2 ^ 100)) ask.now.args }
    ensures { result ≡ one_answer (type_form ty.now) states.now ask.now }
{
    match states {
        [] => None,
        [first, others @ ..] => {
            let value = answer(ty, first.as_slice(), ask.number, ask.args.as_slice());
            if is_answer_in_all(ty, others, ask, value) {
                Some(value)
            } else {
                None
            }
        }
    }
}

/// Whether an ask has this answer in each of these states.
fn is_answer_in_all(ty: &SeqType, states: &[Items<Slot>], ask: &Call, value: Value) -> bool
    requires limits { IsWithinLimits (type_form ty.now) }
    requires states { All (λ (state : List expressions.Slot). All (IsSlotAtMost (2 ^ 100)) state) states.now }
    requires asks { All (IsAtMost (2 ^ 100)) ask.now.args }
    ensures { result ≡ list_all (is_answer (type_form ty.now) ask.now value) states.now }
{
    match states {
        [] => true,
        [state, more @ ..] => {
            is_same_value(
                value,
                answer(ty, state.as_slice(), ask.number, ask.args.as_slice()),
            ) && is_answer_in_all(ty, more, ask, value)
        }
    }
}

/// Whether two values are of one sort, and equal.
pub fn is_same_value(left: Value, right: Value) -> bool
    ensures { result ≡ is_same_value left right }
{
    match (left, right) {
        (Value::Bool(left), Value::Bool(right)) => left == right,
        (Value::Num(left), Value::Num(right)) => left == right,
        (Value::Name(left), Value::Name(right)) => left == right,
        _ => false,
    }
}
