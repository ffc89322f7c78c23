//! Calls by numbers.
ghost use Rattle.std.specs.Prelude.{◌≡◌, ◌==◌, ◌<◌, ◌^◌, ℕ, None, Some, IfErr, IfOk, IfSome, MatchOption, length, position};
ghost use Rattle.kat_actions.specs.Texts.{FitsSignature};
ghost use Rattle.kat_script.specs.Rules.{HasFewCalls};
ghost use Rattle.kat_embed.specs.Numbered.{IsNotNumbered, IsNumberOf, IsNumbered, name_at, sorts_at};

use crate::errors::CallError;
use crate::passing::{TaggedValue, arguments_in};
use kat_actions::{Call, Verb};
use kat_num::{Sort, code};
use kat_type::{OpSig, QuerySig, Signature};
use std::alloc::Global;

/// The number of the operation or query of a name, from 0, in the order of the type file.
pub(crate) fn number_of(verb: Verb, sig: &Signature, name: &[u8]) -> Option<u32>
    requires { HasFewCalls sig.now }
    ensures { MatchOption result ((number : ℕ) → IsNumberOf verb sig.now name.now number → ⊥) (IsNumberOf verb sig.now name.now) }
{
    match code(name) {
        Some(code) => place_of(verb, sig, code),
        None => None,
    }
}

/// The number of the operation or query with this code of a name.
fn place_of(verb: Verb, sig: &Signature, code: u128) -> Option<u32>
    requires { HasFewCalls sig.now }
    ensures { MatchOption result ((number : ℕ) → name_at verb sig.now number ≡ Some code
        → ⊥) (λ number. name_at verb sig.now number ≡ Some code) }
{
    match verb {
        Verb::Do => narrowed(op_place(sig.ops.as_slice(), code)),
        Verb::Ask => narrowed(query_place(sig.queries.as_slice(), code)),
    }
}

/// A place that is a small number.
fn narrowed(place: Option<usize>) -> Option<u32>
    requires { IfSome place (λ number. number < 2 ^ 32) }
    ensures { result ≡ place }
{
    match place {
        Some(number) => Some(number as u32),
        None => None,
    }
}

/// The place of the first operation with this code of a name.
fn op_place(ops: &[OpSig], code: u128) -> Option<usize>
    ensures place { result ≡ position (λ op. op.name == code) ops.now }
    ensures within { IfSome result (λ number. number < length ops.now) }
{
    ops.iter().position(|op| op.name == code)
}

/// The place of the first query with this code of a name.
fn query_place(queries: &[QuerySig], code: u128) -> Option<usize>
    ensures place { result ≡ position (λ query. query.name == code) queries.now }
    ensures within { IfSome result (λ number. number < length queries.now) }
{
    queries.iter().position(|query| query.name == code)
}

/// The call of the operation or query of a number, with what is passed. Its line is 0.
pub(crate) fn call_numbered(
    alloc: Global,
    verb: Verb,
    sig: &Signature,
    number: u32,
    passed: &[TaggedValue],
) -> Result<Call, CallError>
    ensures call { IfOk result (IsNumbered verb sig.now number passed.now) }
    ensures fits { IfOk result (FitsSignature verb sig.now) }
    ensures refused { IfErr result (IsNotNumbered verb sig.now number passed.now) }
{
    let Some(sorts) = sorts_at(verb, sig, number) else {
        return Err(CallError::NoCall);
    };
    match arguments_in(alloc, sorts, passed)? {
        Some(args) => Ok(Call {
            line: 0,
            item: number,
            args,
        }),
        None => Err(CallError::NoCall),
    }
}

/// The sorts of the arguments of the operation or query of a number.
fn sorts_at<'a>(verb: Verb, sig: &'a Signature, number: u32) -> Option<&'a [Sort]>
    ensures { MatchOption result (sorts_at verb sig.now number ≡ None) (λ sorts. sorts_at verb sig.now number ≡ Some sorts.now) }
{
    match verb {
        Verb::Do => match sig.ops.as_slice().get(number as usize) {
            Some(op) => Some(op.sorts.as_slice()),
            None => None,
        },
        Verb::Ask => match sig.queries.as_slice().get(number as usize) {
            Some(query) => Some(query.sorts.as_slice()),
            None => None,
        },
    }
}
