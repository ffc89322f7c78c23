//! Small texts.
ghost use Rattle.std.specs.Prelude.{◌≡◌, ◌++◌, IfOk, OnOk, map, slice_get};
ghost use Rattle.std.specs.Fmt.{decimal};
ghost use Rattle.kat_pseudocode.specs.Texts.{at_key, call_text, commas, further, others, own, param_names, param_text, sort_word, text_at, tuple};
ghost use Rattle.kat_num.specs.Names.{name_of_code};
ghost use Rattle.kat_num.specs.Values.{value_text};

use itoa::Buffer;
use kat_num::{Items, Sort, Value, bytes_of, print};
use kat_type::Param;
use std::alloc::{AllocError, Global};

/// Appends the name with a code.
pub fn push_name(alloc: Global, code: u128, into: &mut Vec<u8>) -> Result<(), AllocError>
    ensures { OnOk result (into.new.items ≡ into.old.items ++ name_of_code code) }
{
    let name = bytes_of(alloc, code)?;
    into.extend_from_slice(&name)
}

/// Appends a number.
pub fn push_number(number: u128, into: &mut Vec<u8>) -> Result<(), AllocError>
    ensures { OnOk result (into.new.items ≡ into.old.items ++ decimal number) }
{
    into.extend_from_slice(Buffer::new().format(number).as_bytes())
}

/// The text at a place, or the empty one.
pub fn text_at(texts: &[Items<u8>], place: usize) -> &[u8]
    ensures { result.now ≡ text_at texts.now place }
{
    match texts.get(place) {
        Some(text) => text.as_slice(),
        None => &[],
    }
}

/// Appends texts with commas between them.
pub fn push_commas(texts: &[Items<u8>], into: &mut Vec<u8>) -> Result<(), AllocError>
    ensures { OnOk result (into.new.items ≡ into.old.items ++ commas texts.now) }
{
    match texts {
        [] => Ok(()),
        [first, rest @ ..] => {
            into.extend_from_slice(first.as_slice())?;
            push_further(rest, into)
        }
    }
}

/// Appends texts, each after a comma.
fn push_further(texts: &[Items<u8>], into: &mut Vec<u8>) -> Result<(), AllocError>
    ensures { OnOk result (into.new.items ≡ into.old.items ++ further texts.now) }
{
    for text in texts {
        into.extend_from_slice(b", ")?;
        into.extend_from_slice(text.as_slice())?;
    }
    Ok(())
}

/// Appends one text as it is, and others in parentheses.
pub fn push_tuple(texts: &[Items<u8>], into: &mut Vec<u8>) -> Result<(), AllocError>
    ensures { OnOk result (into.new.items ≡ into.old.items ++ tuple texts.now) }
{
    match texts {
        [] => into.extend_from_slice(b"()"),
        [text] => into.extend_from_slice(text.as_slice()),
        [_, _, ..] => {
            into.extend_from_slice(b"(")?;
            push_commas(texts, into)?;
            into.extend_from_slice(b")")
        }
    }
}

/// The names of parameters.
fn param_names(alloc: Global, params: &[Param]) -> Result<Vec<Items<u8>>, AllocError>
    ensures { IfOk result (λ names. names.items ≡ param_names params.now) }
{
    let mut names = Vec::new(alloc);
    for param in params {
        let name = bytes_of(alloc, param.name)?;
        names.push(Items::from_vec(name))?;
    }
    Ok(names)
}

/// Appends the name of a parameter by its number.
pub fn push_param(
    alloc: Global,
    params: &[Param],
    place: u32,
    into: &mut Vec<u8>,
) -> Result<(), AllocError>
    ensures { OnOk result (into.new.items ≡ into.old.items ++ param_text params.now place) }
{
    match params.get(place as usize) {
        Some(param) => push_name(alloc, param.name, into),
        None => Ok(()),
    }
}

/// The name of a parameter by its number.
pub(crate) fn param_text(alloc: Global, params: &[Param], place: u32) -> Result<Vec<u8>, AllocError>
    ensures { IfOk result (λ text. text.items ≡ param_text params.now place) }
{
    match params.get(place as usize) {
        Some(param) => bytes_of(alloc, param.name),
        None => Ok(Vec::new(alloc)),
    }
}

/// Appends `NAME(PARAMETERS)`.
pub fn push_call(
    alloc: Global,
    name: u128,
    params: &[Param],
    into: &mut Vec<u8>,
) -> Result<(), AllocError>
    ensures { OnOk result (into.new.items ≡ into.old.items ++ call_text name params.now) }
{
    push_name(alloc, name, into)?;
    into.extend_from_slice(b"(")?;
    let names = param_names(alloc, params)?;
    push_commas(&names, into)?;
    into.extend_from_slice(b")")
}

/// Appends what stands for the values of a sort.
#[tactic(auto, unfolding(crate::specs::Texts::sort_word))]
pub fn push_sort(sort: Sort, into: &mut Vec<u8>) -> Result<(), AllocError>
    ensures { OnOk result (into.new.items ≡ into.old.items ++ sort_word sort) }
{
    match sort {
        Sort::Bool => into.extend_from_slice(b"truth value"),
        Sort::Int | Sort::Nat => into.extend_from_slice(b"number"),
        Sort::Name => into.extend_from_slice(b"name"),
    }
}

/// The texts of values.
pub(crate) fn value_texts(alloc: Global, values: &[Value]) -> Result<Vec<Items<u8>>, AllocError>
    ensures { IfOk result (λ texts. texts.items ≡ map value_text values.now) }
{
    let mut texts = Vec::new(alloc);
    for value in values {
        let mut text = Vec::new(alloc);
        print(alloc, value, &mut text)?;
        texts.push(Items::from_vec(text))?;
    }
    Ok(texts)
}

/// Appends what a replica keeps under a name.
pub(crate) fn push_own(name: &[u8], into: &mut Vec<u8>) -> Result<(), AllocError>
    ensures { OnOk result (into.new.items ≡ into.old.items ++ own name.now) }
{
    into.extend_from_slice(b"self.")?;
    into.extend_from_slice(name)
}

/// Appends what another one keeps under a name.
pub(crate) fn push_others(name: &[u8], into: &mut Vec<u8>) -> Result<(), AllocError>
    ensures { OnOk result (into.new.items ≡ into.old.items ++ others name.now) }
{
    into.extend_from_slice(b"other.")?;
    into.extend_from_slice(name)
}

/// Appends what a replica keeps under a name at a key.
pub(crate) fn push_own_at(name: &[u8], key: &[u8], into: &mut Vec<u8>) -> Result<(), AllocError>
    ensures { OnOk result (into.new.items ≡ into.old.items ++ at_key (own name.now) key.now) }
{
    push_own(name, into)?;
    push_key(key, into)
}

/// Appends a key after what has keys.
pub(crate) fn push_key(key: &[u8], into: &mut Vec<u8>) -> Result<(), AllocError>
    ensures { OnOk result (into.new.items ≡ at_key into.old.items key.now) }
{
    into.extend_from_slice(b"[")?;
    into.extend_from_slice(key)?;
    into.extend_from_slice(b"]")
}

/// What a replica keeps under a name.
pub(crate) fn own(alloc: Global, name: &[u8]) -> Result<Vec<u8>, AllocError>
    ensures { IfOk result (λ text. text.items ≡ own name.now) }
{
    let mut text = Vec::new(alloc);
    push_own(name, &mut text)?;
    Ok(text)
}

/// What another one keeps under a name.
pub(crate) fn others(alloc: Global, name: &[u8]) -> Result<Vec<u8>, AllocError>
    ensures { IfOk result (λ text. text.items ≡ others name.now) }
{
    let mut text = Vec::new(alloc);
    push_others(name, &mut text)?;
    Ok(text)
}

/// What is kept at a key.
pub(crate) fn at_key(mut text: Vec<u8>, key: &[u8]) -> Result<Vec<u8>, AllocError>
    ensures { IfOk result (λ keyed. keyed.items ≡ at_key text.items key.now) }
{
    push_key(key, &mut text)?;
    Ok(text)
}
