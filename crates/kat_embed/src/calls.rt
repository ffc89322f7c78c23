//! Texts of one call.
ghost use Rattle.std.specs.Prelude.{◌≡◌, ◌∷◌, [], IfErr, IfOk};
ghost use Rattle.kat_actions.specs.Texts.{AreCallsOf, FitsSignature, TellsRefusal};
ghost use Rattle.kat_actions.specs.declared.calls.Call.{Call as CallOf};
ghost use Rattle.kat_script.specs.Rules.{HasFewCalls};
ghost use Rattle.kat_embed.specs.Calls.{IsCallText, IsNoCall, call_error, line_of};

use crate::errors::CallError;
use kat_actions::{Call, Verb, calls_fit_signatures, read_actions, read_questions};
use kat_script::ScriptError;
use kat_type::Signature;
use std::alloc::{AllocError, Global};

/// The call that a text is. It is read as the only line of a list of calls, after the word that these begin with.
pub(crate) fn call_in(
    alloc: Global,
    verb: Verb,
    sig: &Signature,
    text: &[u8],
) -> Result<Call, CallError>
    requires { HasFewCalls sig.now }
    ensures call { IfOk result (IsCallText verb sig.now text.now) }
    ensures fits { IfOk result (FitsSignature verb sig.now) }
    ensures refused { IfErr result (IsNoCall verb sig.now text.now) }
{
    let line = line_of(alloc, verb, text)?;
    match calls_in(alloc, verb, &line, sig) {
        Ok(calls) => the_only(calls),
        Err(error) => Err(call_error(error)),
    }
}

/// Why a text is no call that isn't read as a list of calls.
fn call_error(error: ScriptError) -> CallError
    ensures { result ≡ call_error error }
{
    match error {
        ScriptError::Memory => CallError::Memory,
        _ => CallError::NoCall,
    }
}

/// The line of a list of calls that a text stands for.
fn line_of(alloc: Global, verb: Verb, text: &[u8]) -> Result<Vec<u8>, AllocError>
    ensures { IfOk result (λ line. line.items ≡ line_of verb text.now) }
{
    let mut line = Vec::with_capacity(alloc, text.len().saturating_add(4))?;
    match verb {
        Verb::Do => line.extend_from_slice(b"do ")?,
        Verb::Ask => line.extend_from_slice(b"ask ")?,
    }
    line.extend_from_slice(text)?;
    Ok(line)
}

/// The calls of a text.
fn calls_in(
    alloc: Global,
    verb: Verb,
    text: &[u8],
    sig: &Signature,
) -> Result<Vec<Call>, ScriptError>
    requires { HasFewCalls sig.now }
    ensures calls { IfOk result (λ calls. AreCallsOf verb sig.now text.now calls.items) }
    ensures refusal { IfErr result (λ error. TellsRefusal verb sig.now text.now error) }
{
    match verb {
        Verb::Do => read_actions(alloc, text, sig),
        Verb::Ask => read_questions(alloc, text, sig),
    }
}

/// The call of a list, if it has one and no more.
fn the_only(calls: Vec<Call>) -> Result<Call, CallError>
    ensures only { IfOk result (λ call. calls.items ≡ call ∷ []) }
    ensures none { IfErr result (λ error. (error ≡ CallError.NoCall) × ((call : CallOf) → calls.items ≡ call ∷ [] → ⊥)) }
{
    let mut calls = calls;
    match calls.pop() {
        Some(call) if calls.is_empty() => Ok(call),
        _ => Err(CallError::NoCall),
    }
}
