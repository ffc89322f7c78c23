//! The names of a module in a language: in each scope all different, and none of the words that are kept there.
ghost use Rattle.std.specs.Prelude.{◌≡◌, ◌++◌, ◌+◌, [], IfOk, OnOk, length};
ghost use Rattle.std.specs.String.{string_bytes};
ghost use Rattle.kat_emit_words.specs.Kept.{kept};
ghost use Rattle.kat_emit_words.specs.Naming.{Adds, AreNames, Gains, names_in};
ghost use Rattle.kat_emit_words.specs.Scopes.{AreNamesOf, AreTaken, CallsAre, GainsKeys, GainsLoop, GainsTools, GainsValue, HaveNames, TakesPart};

use crate::kept::Named;
use crate::languages::{Family, Language};
use crate::scopes::{added_name, push_new_name};
use crate::values::start_text;
use kat_emit::{Form, Module, Part, push_name};
use kat_type::{Operation, Param, Query};
use std::alloc::{AllocError, Global};

/// The names of the class, of its error and of what `merge` answers, of all that is at the top of the file, of the parts, and of the
/// methods: those of the operations, those of the queries, and then those that give keys.
pub struct Names {
    pub class: String,
    pub error: String,
    pub changes: String,
    pub top: Vec<String>,
    pub parts: Vec<PartNames>,
    pub methods: Vec<String>,
}

impl Drop for Names {
    fn drop(self) {
        let Self {
            class: _,
            error: _,
            changes: _,
            top: _,
            parts: _,
            methods: _,
        } = self;
    }
}

/// The names of a part: its field in this replica, in another one, in what is known and in a difference; of its values, if they have
/// several leaves, the type and what compares and joins them; the start's name, and the start as it is written; its leaves; of a loop the
/// key and the value; the method that gives its keys, if it has any; and its field of what has changed.
pub struct PartNames {
    pub field: String,
    pub own: String,
    pub other: String,
    pub known: String,
    pub its: String,
    pub value: String,
    pub less: String,
    pub lacks: String,
    pub joined: String,
    pub start_name: String,
    pub start: String,
    pub leaves: Vec<String>,
    pub key: String,
    pub item: String,
    pub keys: String,
    pub change: String,
}

impl Drop for PartNames {
    fn drop(self) {
        let Self {
            field: _,
            own: _,
            other: _,
            known: _,
            its: _,
            value: _,
            less: _,
            lacks: _,
            joined: _,
            start_name: _,
            start: _,
            leaves: _,
            key: _,
            item: _,
            keys: _,
            change: _,
        } = self;
    }
}

/// The names that are taken: at the top of the file, of fields, of fields of what has changed, of methods, and in loops that share a
/// scope.
#[derive(Drop)]
struct Taken {
    top: Vec<String>,
    fields: Vec<String>,
    changes: Vec<String>,
    methods: Vec<String>,
    loops: Vec<String>,
}

/// The names of a module.
pub fn names_of(alloc: Global, language: Language, module: &Module<'_>) -> Result<Names, AllocError>
    ensures { IfOk result (λ names. AreNamesOf language (length «module».now.ops.now + length «module».now.queries.now) names) }
{
    let mut top = Vec::new(alloc);
    let class = class_name(alloc, language, module.word.as_str(), "", &mut top)?;
    let error = class_name(alloc, language, class.as_str(), "_Error", &mut top)?;
    let changes = class_name(alloc, language, class.as_str(), "_Changes", &mut top)?;
    let mut taken = Taken {
        top,
        fields: Vec::new(alloc),
        changes: Vec::new(alloc),
        methods: call_names(alloc, language, module.ops, module.queries)?,
        loops: Vec::new(alloc),
    };
    let parts = parts_names(alloc, language, &module.parts, &mut taken)?;
    let Taken {
        top,
        fields: _,
        changes: _,
        methods,
        loops: _,
    } = taken;
    Ok(Names {
        class,
        error,
        changes,
        top,
        parts,
        methods,
    })
}

/// A new name of a class, which is taken then.
fn class_name(
    alloc: Global,
    language: Language,
    word: &str,
    more: &str,
    top: &mut Vec<String>,
) -> Result<String, AllocError>
    ensures { IfOk result (λ name. Adds (kept language Named.Class) (names_in top.old.items) (names_in top.new.items) (string_bytes name)) }
{
    added_name(alloc, language, Named::Class, word, more, top)
}

/// The names of parts.
fn parts_names(
    alloc: Global,
    language: Language,
    parts: &[Part<'_>],
    taken: &mut Taken,
) -> Result<Vec<PartNames>, AllocError>
    requires { AreTaken language taken.old }
    ensures { IfOk result (λ names. HaveNames language taken.old taken.new names.items) }
{
    let is_alone = parts.iter().filter(|part| is_map(part.form)).count() == 1;
    let mut names = Vec::new(alloc);
    'parts: for part in parts {
        let named = part_names(alloc, language, part, is_alone, taken)?;
        names.push(named)?;
    }
    Ok(names)
}

fn is_map(form: Form) -> bool {
    matches!(form, Form::Table | Form::Tallies)
}

/// The names of a part; `is_alone` says whether no two parts have entries.
fn part_names(
    alloc: Global,
    language: Language,
    part: &Part<'_>,
    is_alone: bool,
    taken: &mut Taken,
) -> Result<PartNames, AllocError>
    requires { AreTaken language taken.old }
    ensures { IfOk result (λ names. TakesPart language taken.old taken.new names) }
{
    let word = part.word.as_str();
    let field = added_name(alloc, language, Named::Field, word, "", &mut taken.fields)?;
    let change = added_name(alloc, language, Named::Change, word, "", &mut taken.changes)?;
    let keys = keys_name(alloc, language, part, &mut taken.methods)?;
    let value = value_name(alloc, language, part, &mut taken.top)?;
    let tools = tools_of(alloc, language, word, &mut taken.top)?;
    let loops = loop_names(alloc, language, part, is_alone, &mut taken.loops)?;
    let start = start_text(alloc, language, part, tools.start.as_str())?;
    let LoopNames { key, item } = loops;
    let Tools {
        less,
        lacks,
        joined,
        start: start_name,
    } = tools;
    Ok(PartNames {
        own: owned_name(alloc, language, own_word(language), field.as_str())?,
        other: owned_name(alloc, language, "other", field.as_str())?,
        known: owned_name(alloc, language, "known", field.as_str())?,
        its: owned_name(alloc, language, "it", field.as_str())?,
        field,
        value,
        less,
        lacks,
        joined,
        start_name,
        start,
        leaves: leaf_names(alloc, language, &part.leaves)?,
        key,
        item,
        keys,
        change,
    })
}

/// The method that gives the keys of a part, if it has any; it is taken then.
fn keys_name(
    alloc: Global,
    language: Language,
    part: &Part<'_>,
    methods: &mut Vec<String>,
) -> Result<String, AllocError>
    requires { AreNames (kept language Named.Method) (names_in methods.old.items) }
    ensures { IfOk result (λ name. GainsKeys language (names_in methods.old.items) (names_in methods.new.items) (string_bytes name)) }
{
    if part.key.is_none() {
        return Ok(String::new(alloc));
    }
    added_name(
        alloc,
        language,
        Named::Method,
        part.word.as_str(),
        "_keys",
        methods,
    )
}

/// The type of the values of a part, if they have several leaves; it is taken then.
fn value_name(
    alloc: Global,
    language: Language,
    part: &Part<'_>,
    top: &mut Vec<String>,
) -> Result<String, AllocError>
    requires { AreNames (kept language Named.Class) (names_in top.old.items) }
    ensures { IfOk result (λ name. GainsValue language (names_in top.old.items) (names_in top.new.items) (string_bytes name)) }
{
    if !part.is_record() {
        return Ok(String::new(alloc));
    }
    added_name(
        alloc,
        language,
        Named::Value,
        part.word.as_str(),
        "_value",
        top,
    )
}

/// The names of what compares and joins the values of a part, and of its start.
#[derive(Drop)]
struct Tools {
    less: String,
    lacks: String,
    joined: String,
    start: String,
}

/// The tools of a part; their names are taken then.
fn tools_of(
    alloc: Global,
    language: Language,
    word: &str,
    top: &mut Vec<String>,
) -> Result<Tools, AllocError>
    requires { AreNames (kept language Named.Class) (names_in top.old.items) }
    ensures { IfOk result (λ tools. GainsTools language (names_in top.old.items) (names_in top.new.items) tools) }
{
    let less = added_name(alloc, language, Named::Tool, word, "_less", top)?;
    let lacks = added_name(alloc, language, Named::Tool, word, "_lacks", top)?;
    let joined = added_name(alloc, language, Named::Tool, word, "_joined", top)?;
    let start = added_name(alloc, language, Named::Tool, word, "_start", top)?;
    Ok(Tools {
        less,
        lacks,
        joined,
        start,
    })
}

/// How a language names the replica whose method it is.
fn own_word(language: Language) -> &'static str {
    match language.family() {
        Family::TypeScript => "this",
        Family::Python | Family::Rust => "self",
        Family::Go => "r",
    }
}

/// The field of an owner.
fn owned_name(
    alloc: Global,
    language: Language,
    owner: &str,
    field: &str,
) -> Result<String, AllocError> {
    let mut text = String::from_str(alloc, owner)?;
    text.push_str(match language.family() {
        Family::TypeScript => ".#",
        Family::Python | Family::Rust | Family::Go => ".",
    })?;
    text.push_str(field)?;
    Ok(text)
}

/// The names of a key and a value in a loop over a part.
#[derive(Drop)]
struct LoopNames {
    key: String,
    item: String,
}

/// The names in loops over a part. In Python all loops of a member are in one scope, so these names are taken then.
fn loop_names(
    alloc: Global,
    language: Language,
    part: &Part<'_>,
    is_alone: bool,
    loops: &mut Vec<String>,
) -> Result<LoopNames, AllocError>
    requires { AreNames (kept language Named.Loop) (names_in loops.old.items) }
    ensures { IfOk result (λ names. GainsLoop language (names_in loops.old.items) (names_in loops.new.items) names) }
{
    match language {
        Language::Python => scoped_names(alloc, part, is_alone, loops),
        Language::TypeScript | Language::JavaScript | Language::Rust | Language::Go => {
            plain_names(alloc)
        }
    }
}

/// The names in a loop that is a scope of its own.
fn plain_names(alloc: Global) -> Result<LoopNames, AllocError> {
    Ok(LoopNames {
        key: String::from_str(alloc, "key")?,
        item: String::from_str(alloc, "value")?,
    })
}

/// The names in loops over a part in Python, followed by the part's word unless it is the only one that has entries. Of the others nothing
/// in a loop has a name.
fn scoped_names(
    alloc: Global,
    part: &Part<'_>,
    is_alone: bool,
    loops: &mut Vec<String>,
) -> Result<LoopNames, AllocError>
    requires { AreNames (kept Language.Python Named.Loop) (names_in loops.old.items) }
    ensures { IfOk result (λ names. GainsLoop Language.Python (names_in loops.old.items) (names_in loops.new.items) names) }
{
    if !is_map(part.form) {
        return Ok(LoopNames {
            key: String::new(alloc),
            item: String::new(alloc),
        });
    }
    let mut more = String::new(alloc);
    if !is_alone {
        more.push('_')?;
        more.push_str(part.word.as_str())?;
    }
    let key = added_name(
        alloc,
        Language::Python,
        Named::Loop,
        "key",
        more.as_str(),
        loops,
    )?;
    let item = added_name(
        alloc,
        Language::Python,
        Named::Loop,
        "value",
        more.as_str(),
        loops,
    )?;
    Ok(LoopNames { key, item })
}

/// The names of leaves.
fn leaf_names(
    alloc: Global,
    language: Language,
    words: &[String],
) -> Result<Vec<String>, AllocError>
    ensures { IfOk result (λ names. AreNames (kept language Named.Leaf) (names_in names.items)) }
{
    let mut names = Vec::new(alloc);
    'words: for word in words {
        push_new_name(alloc, language, Named::Leaf, &[], word.as_str(), &mut names)?;
    }
    Ok(names)
}

/// The names of the methods of operations and queries.
fn call_names(
    alloc: Global,
    language: Language,
    ops: &[Operation],
    queries: &[Query],
) -> Result<Vec<String>, AllocError>
    ensures { IfOk result (λ names. CallsAre language (length ops.now + length queries.now) (names_in names.items)) }
{
    let mut names = Vec::new(alloc);
    'ops: for op in ops {
        push_new_code(alloc, language, Named::Method, op.name, &[], &mut names)?;
    }
    'queries: for query in queries {
        push_new_code(alloc, language, Named::Method, query.name, &[], &mut names)?;
    }
    Ok(names)
}

/// The names of parameters, in a file with these names at its top.
pub fn param_names(
    alloc: Global,
    language: Language,
    params: &[Param],
    top: &[String],
) -> Result<Vec<String>, AllocError>
    ensures named { IfOk result (λ names. AreNames (names_in top.now ++ kept language Named.Local) (names_in names.items)) }
    ensures each { IfOk result (λ names. length names.items ≡ length params.now) }
{
    let mut names = Vec::new(alloc);
    'params: for param in params {
        push_new_code(alloc, language, Named::Local, param.name, top, &mut names)?;
    }
    Ok(names)
}

/// Appends a new name for the word with a code, where the names of the scope around are `outer`.
fn push_new_code(
    alloc: Global,
    language: Language,
    named: Named,
    code: u128,
    outer: &[String],
    names: &mut Vec<String>,
) -> Result<(), AllocError>
    ensures { OnOk result (Gains (names_in outer.now ++ kept language named) (names_in names.old.items) (names_in names.new.items)) }
{
    let mut word = String::new(alloc);
    push_name(alloc, code, &mut word)?;
    push_new_name(alloc, language, named, outer, word.as_str(), names)
}
