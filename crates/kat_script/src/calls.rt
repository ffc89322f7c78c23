//! Which operation or query is called, by its number.
ghost use Rattle.std.specs.Prelude.{◌≡◌, ◌<◌, ◌^◌, length, IfSome};
ghost use Rattle.kat_script.specs.Calls.{call_in};
ghost use Rattle.kat_script.specs.Rules.{HasFewCalls, is_bad_call, op_of, query_of};

use crate::rules::fit;
use crate::said::{Constant, Said};
use kat_type::Signature;

/// The number of the operation of this name that takes these arguments.
pub fn op_of(sig: &Signature, name: u128, args: &[Constant]) -> Option<usize>
    ensures number { result ≡ op_of sig.now name args.now }
    ensures within { IfSome result (λ number. number < length sig.now.ops) }
{
    sig.ops
        .as_slice()
        .iter()
        .position(|op| op.name == name && fit(args, op.sorts.as_slice()))
}

/// The number of the query of this name that takes these arguments.
pub fn query_of(sig: &Signature, name: u128, args: &[Constant]) -> Option<usize>
    ensures number { result ≡ query_of sig.now name args.now }
    ensures within { IfSome result (λ number. number < length sig.now.queries) }
{
    sig.queries.as_slice().iter().position(|query| query.name == name
        && fit(args, query.sorts.as_slice()))
}

/// The number of the operation or query that a line calls; if there is none, how many there are.
pub fn call_in(sig: &Signature, said: &Said) -> usize
    requires { HasFewCalls sig.now }
    ensures number { result ≡ call_in sig.now said.now }
    ensures small { result < 2 ^ 32 }
{
    match said {
        Said::Does { op, args, .. } => match op_of(sig, *op, args.as_slice()) {
            Some(number) => number,
            None => sig.ops.as_slice().len(),
        },
        Said::Asks { query, args, .. } => match query_of(sig, *query, args.as_slice()) {
            Some(number) => number,
            None => sig.queries.as_slice().len(),
        },
        _ => 0,
    }
}

#[tactic(auto, using(crate::proofs::Numbers::op_by_number, crate::proofs::Numbers::query_by_number))]
pub(crate) fn is_bad_call(sig: &Signature, said: &Said, call: usize) -> bool
    requires { call ≡ call_in sig.now said.now }
    ensures { result ≡ is_bad_call sig.now said.now }
{
    match said {
        Said::Does { .. } => call >= sig.ops.as_slice().len(),
        Said::Asks { .. } => call >= sig.queries.as_slice().len(),
        _ => false,
    }
}
