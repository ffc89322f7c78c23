//! The designs that a file names as passed over.
ghost use Rattle.std.specs.Prelude.{◌≡◌, ◌++◌, IfErr, IfOk, OnOk, map, slice_get};
ghost use Rattle.std.specs.List.{flat_map};
ghost use Rattle.kat_explain.specs.Earlier.{IsPassedOver, cause_of, cause_text, named_at, number_of, passed_in, passed_over, passed_words, spelled_cause};
ghost use Rattle.kat_json.specs.Words.{spelled};
ghost use Rattle.serde_json.specs.View.{view};

use kat_json::values::{text, whole};
use kat_json::{WireError, elements_of, parsed};
use kat_num::{Items, Value as Constant, print};
use kat_wire::Cause;
use serde_json::Value;
use std::alloc::{AllocError, Global};

/// Appends the word of a cause.
#[tactic(auto, unfolding(crate::specs::Earlier::cause_text))]
fn push_cause(cause: Cause, into: &mut Vec<u8>) -> Result<(), AllocError>
    ensures { OnOk result (into.new.items ≡ into.old.items ++ cause_text cause) }
{
    match cause {
        Cause::OpenCert => into.extend_from_slice(b"open"),
        Cause::Spent => into.extend_from_slice(b"spent"),
        Cause::Rows => into.extend_from_slice(b"rows"),
        Cause::Wide => into.extend_from_slice(b"wide"),
        Cause::Long => into.extend_from_slice(b"long"),
    }
}

/// The cause that a text is the word of.
fn spelled_cause(word: &str) -> Option<Cause>
    ensures { result ≡ spelled_cause word.now }
{
    match word {
        "open" => Some(Cause::OpenCert),
        "spent" => Some(Cause::Spent),
        "rows" => Some(Cause::Rows),
        "wide" => Some(Cause::Wide),
        "long" => Some(Cause::Long),
        _ => None,
    }
}

/// The number that comes first in a list.
fn number_of(parts: &[Value]) -> Option<i128>
    ensures { result ≡ number_of (slice_get (map view parts.now) 0) }
{
    match parts.get(0) {
        Some(value) => whole(value),
        None => None,
    }
}

/// The cause that comes second.
fn cause_of(parts: &[Value]) -> Option<Cause>
    ensures { result ≡ cause_of (slice_get (map view parts.now) 1) }
{
    match parts.get(1) {
        Some(value) => match text(value) {
            Some(word) => spelled_cause(word),
            None => None,
        },
        None => None,
    }
}

/// A number and its cause.
fn passed_words(alloc: Global, number: i128, cause: Cause) -> Result<Vec<u8>, AllocError>
    ensures { IfOk result (λ text. text.items ≡ passed_words number cause) }
{
    let mut text = Vec::new(alloc);
    print(alloc, &Constant::Num(number), &mut text)?;
    text.extend_from_slice(b" ")?;
    push_cause(cause, &mut text)?;
    Ok(text)
}

/// Appends the text of a design that was passed over, if the value says one.
fn push_passed(alloc: Global, value: &Value, into: &mut Vec<Items<u8>>) -> Result<(), AllocError>
    ensures { OnOk result (into.new.items ≡ into.old.items ++ passed_in (view value.now)) }
{
    let parts = elements_of(value);
    match number_of(parts) {
        None => Ok(()),
        Some(number) => match cause_of(parts) {
            None => Ok(()),
            Some(cause) => {
                let text = passed_words(alloc, number, cause)?;
                into.push(Items::from_vec(text))?;
                Ok(())
            }
        },
    }
}

/// The texts of what the values say.
fn passed_texts(alloc: Global, values: &[Value]) -> Result<Vec<Items<u8>>, AllocError>
    ensures { IfOk result (λ texts. texts.items ≡ flat_map passed_in (map view values.now)) }
{
    let mut texts = Vec::new(alloc);
    let mut rest = values;
    'values: while let [value, behind @ ..] = rest {
        push_passed(alloc, value, &mut texts)?;
        rest = behind;
    }
    Ok(texts)
}

/// What comes seventh in a list: the values that say designs that were passed over.
fn named(parts: &[Value]) -> &[Value]
    ensures { map view result.now ≡ named_at (slice_get (map view parts.now) 6) }
{
    match parts.get(6) {
        Some(value) => elements_of(value),
        None => &[],
    }
}

/// The texts of the designs that the text of a design file names as passed over: `NUMBER CAUSE`, the number that of the listing, and
/// the cause one of `open`, `spent`, `rows`, `wide` and `long`. Anything else there is left out, and a text that is no
/// JSON, as that of a built-in design, names none.
///
/// # Errors
///
/// Only out of memory.
pub fn passed_over(alloc: Global, bytes: &[u8]) -> Result<Vec<Items<u8>>, WireError>
    ensures passed { IfOk result (λ texts. IsPassedOver bytes.now texts.items) }
    ensures memory { IfErr result (λ error. error ≡ WireError.Memory) }
{
    match parsed(alloc, bytes) {
        Ok(value) => {
            let texts = passed_texts(alloc, named(elements_of(&value)))?;
            Ok(texts)
        }
        Err(WireError::Json) => Ok(Vec::new(alloc)),
        Err(_) => Err(WireError::Memory),
    }
}
