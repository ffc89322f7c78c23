//! New names in a scope.
ghost use Rattle.std.specs.Prelude.{◌≡◌, ◌++◌, true, [], IfOk, OnOk};
ghost use Rattle.std.specs.String.{string_bytes};
ghost use Rattle.kat_emit_words.specs.Kept.{kept};
ghost use Rattle.kat_emit_words.specs.Naming.{Adds, Gains, IsNew, is_among, is_free, is_identifier, is_mark, names_in};

use crate::kept::{Named, is_kept};
use crate::languages::{Family, Language};
use kat_emit::{Case, push_cased};
use std::alloc::{AllocError, Global};

/// A scope: what is named in it, the names that it has used, and those of the one around it.
#[derive(Clone, Copy)]
pub(crate) struct Scope<'a> {
    pub(crate) language: Language,
    pub(crate) named: Named,
    pub(crate) taken: &'a [String],
    pub(crate) outer: &'a [String],
}

/// Whether the word is one of the texts.
fn is_among(word: &str, texts: &[String]) -> bool
    ensures { result ≡ is_among word.now (names_in texts.now) }
{
    'texts: for text in texts {
        if text.as_str() == word {
            return true;
        }
    }
    false
}

/// Whether a scope has no such name yet, and may have it.
fn is_free(scope: &Scope<'_>, word: &str) -> bool
    ensures { result ≡ is_free (kept scope.now.language scope.now.named) (names_in scope.now.outer.now) (names_in scope.now.taken.now) word.now }
{
    !is_kept(scope.language, scope.named, word)
        && !is_among(word, scope.outer)
        && !is_among(word, scope.taken)
}

/// The first free name of a word, the word followed by `_`, the word followed by a number from 2 on, and, if a thousand of these are taken,
/// the word followed by more and more `_`.
fn free_name(alloc: Global, scope: &Scope<'_>, word: &str) -> Result<String, AllocError>
    requires { is_identifier word.now ≡ true }
    ensures { IfOk result (λ name. IsNew (names_in scope.now.outer.now ++ kept scope.now.language scope.now.named) (names_in scope.now.taken.now) (string_bytes name)) }
{
    let mut name = String::from_str(alloc, word)?;
    if is_free(scope, name.as_str()) {
        return Ok(name);
    }
    name.push('_')?;
    'numbers: for number in 2..1000u32 {
        if is_free(scope, name.as_str()) {
            return Ok(name);
        }
        name.clear();
        name.push_str(word)?;
        name.push_str(itoa::Buffer::new().format(u128::from(number)))?;
    }
    longer_name(scope, name)
}

/// A name, followed by as many `_` as make it free.
fn longer_name(scope: &Scope<'_>, mut name: String) -> Result<String, AllocError>
    requires { is_identifier (string_bytes name) ≡ true }
    ensures { IfOk result (λ longer. IsNew (names_in scope.now.outer.now ++ kept scope.now.language scope.now.named) (names_in scope.now.taken.now) (string_bytes longer)) }
{
    'longer: loop {
        if is_free(scope, name.as_str()) {
            return Ok(name);
        }
        name.push('_')?;
    }
}

/// Appends a word in the case of what is named.
fn push_wanted(
    alloc: Global,
    language: Language,
    named: Named,
    word: &str,
    into: &mut String,
) -> Result<(), AllocError>
    requires { string_bytes into.old ≡ [] }
    ensures { OnOk result (is_identifier (string_bytes into.new) ≡ true) }
{
    into.push_str(mark_of(language, named))?;
    push_cased(alloc, case_of(language, named), word, into)?;
    Ok(())
}

/// What comes before each name of what isn't for the file's users.
fn mark_of(language: Language, named: Named) -> &'static str
    ensures { is_mark result.now ≡ true }
{
    if language.is_python() && matches!(named, Named::Tool | Named::Field) {
        "_"
    } else {
        ""
    }
}

/// The case of what is named.
fn case_of(language: Language, named: Named) -> Case {
    let small = match language.family() {
        Family::TypeScript | Family::Go => Case::Camel,
        Family::Python | Family::Rust => Case::Snake,
    };
    match named {
        Named::Class => Case::Pascal,
        Named::Value if !language.is_go() => Case::Pascal,
        Named::Method | Named::Change if language.is_go() => Case::Pascal,
        _ => small,
    }
}

/// A free name in a scope for a word followed by `more`.
pub(crate) fn new_name(
    alloc: Global,
    scope: &Scope<'_>,
    word: &str,
    more: &str,
) -> Result<String, AllocError>
    ensures { IfOk result (λ name. IsNew (names_in scope.now.outer.now ++ kept scope.now.language scope.now.named) (names_in scope.now.taken.now) (string_bytes name)) }
{
    let mut whole = String::from_str(alloc, word)?;
    whole.push_str(more)?;
    let mut wanted = String::new(alloc);
    push_wanted(
        alloc,
        scope.language,
        scope.named,
        whole.as_str(),
        &mut wanted,
    )?;
    free_name(alloc, scope, wanted.as_str())
}

/// A new name for a word followed by `more`, which is taken then.
pub(crate) fn added_name(
    alloc: Global,
    language: Language,
    named: Named,
    word: &str,
    more: &str,
    taken: &mut Vec<String>,
) -> Result<String, AllocError>
    ensures { IfOk result (λ name. Adds (kept language named) (names_in taken.old.items) (names_in taken.new.items) (string_bytes name)) }
{
    let scope = Scope {
        language,
        named,
        taken: taken.as_slice(),
        outer: &[],
    };
    let name = new_name(alloc, &scope, word, more)?;
    taken.push(String::from_str(alloc, name.as_str())?)?;
    Ok(name)
}

/// Appends a new name for a word, where the names of the scope around are `outer`.
pub(crate) fn push_new_name(
    alloc: Global,
    language: Language,
    named: Named,
    outer: &[String],
    word: &str,
    names: &mut Vec<String>,
) -> Result<(), AllocError>
    ensures { OnOk result (Gains (names_in outer.now ++ kept language named) (names_in names.old.items) (names_in names.new.items)) }
{
    let scope = Scope {
        language,
        named,
        taken: names.as_slice(),
        outer,
    };
    let name = new_name(alloc, &scope, word, "")?;
    names.push(name)?;
    Ok(())
}
