//! The words that a language keeps, which name nothing of a module.
ghost use Rattle.std.specs.Prelude.{◌≡◌};
ghost use Rattle.kat_emit_words.specs.Naming.{is_among, texts_of};
ghost use Rattle.kat_emit_words.specs.Kept.{kept, kept_there, table_words};

use crate::languages::{Family, Language};
use crate::{go, python, rust, typescript};

/// What is named.
#[derive(Clone, Copy)]
pub enum Named {
    /// A class or a type.
    Class,
    /// A type that isn't for the file's users.
    Value,
    /// Something at the top of the file that isn't for its users.
    Tool,
    Field,
    Method,
    Leaf,
    /// A field of what has changed.
    Change,
    /// A parameter or a local name.
    Local,
    /// A key or a value in a loop over a part.
    Loop,
}

/// The words that are kept in some scope.
#[derive(Clone, Copy)]
pub enum Table {
    Keywords,
    Locals,
    Fields,
    Members,
    Globals,
    Leaves,
    Changes,
    Loops,
}

/// The words of a table.
fn table_words(family: Family, table: Table) -> &'static [&'static str]
    ensures { texts_of result.now ≡ table_words family table }
{
    match family {
        Family::TypeScript => typescript_words(table),
        Family::Python => python_words(table),
        Family::Rust => rust_words(table),
        Family::Go => go_words(table),
    }
}

fn typescript_words(table: Table) -> &'static [&'static str]
    ensures { texts_of result.now ≡ table_words Family.TypeScript table }
{
    match table {
        Table::Keywords => typescript::KEYWORDS,
        Table::Locals => typescript::LOCALS,
        Table::Fields => typescript::FIELDS,
        Table::Members => typescript::MEMBERS,
        Table::Globals => typescript::GLOBALS,
        Table::Leaves => typescript::LEAVES,
        Table::Changes => typescript::CHANGES,
        Table::Loops => typescript::LOOPS,
    }
}

fn python_words(table: Table) -> &'static [&'static str]
    ensures { texts_of result.now ≡ table_words Family.Python table }
{
    match table {
        Table::Keywords => python::KEYWORDS,
        Table::Locals => python::LOCALS,
        Table::Fields => python::FIELDS,
        Table::Members => python::MEMBERS,
        Table::Globals => python::GLOBALS,
        Table::Leaves => python::LEAVES,
        Table::Changes => python::CHANGES,
        Table::Loops => python::LOOPS,
    }
}

fn rust_words(table: Table) -> &'static [&'static str]
    ensures { texts_of result.now ≡ table_words Family.Rust table }
{
    match table {
        Table::Keywords => rust::KEYWORDS,
        Table::Locals => rust::LOCALS,
        Table::Fields => rust::FIELDS,
        Table::Members => rust::MEMBERS,
        Table::Globals => rust::GLOBALS,
        Table::Leaves => rust::LEAVES,
        Table::Changes => rust::CHANGES,
        Table::Loops => rust::LOOPS,
    }
}

fn go_words(table: Table) -> &'static [&'static str]
    ensures { texts_of result.now ≡ table_words Family.Go table }
{
    match table {
        Table::Keywords => go::KEYWORDS,
        Table::Locals => go::LOCALS,
        Table::Fields => go::FIELDS,
        Table::Members => go::MEMBERS,
        Table::Globals => go::GLOBALS,
        Table::Leaves => go::LEAVES,
        Table::Changes => go::CHANGES,
        Table::Loops => go::LOOPS,
    }
}

/// Whether the word is one of a table.
fn is_listed(word: &str, family: Family, table: Table) -> bool
    ensures { result ≡ is_among word.now (table_words family table) }
{
    table_words(family, table).contains(&word)
}

/// Whether the word is kept in a language for what is named.
pub(crate) fn is_kept(language: Language, named: Named, word: &str) -> bool
    ensures { result ≡ is_among word.now (kept language named) }
{
    let family = language.family();
    is_listed(word, family, Table::Keywords) || is_kept_there(family, named, word)
}

/// Whether it is kept there, beside the keywords.
fn is_kept_there(family: Family, named: Named, word: &str) -> bool
    ensures { result ≡ is_among word.now (kept_there family named) }
{
    match named {
        Named::Class | Named::Value | Named::Tool => is_listed(word, family, Table::Globals),
        Named::Field => {
            is_listed(word, family, Table::Locals) || is_listed(word, family, Table::Fields)
        }
        Named::Method => is_listed(word, family, Table::Members),
        Named::Leaf => is_listed(word, family, Table::Leaves),
        Named::Change => is_listed(word, family, Table::Changes),
        Named::Loop => is_listed(word, family, Table::Loops),
        Named::Local => {
            is_listed(word, family, Table::Locals) || is_listed(word, family, Table::Globals)
        }
    }
}
