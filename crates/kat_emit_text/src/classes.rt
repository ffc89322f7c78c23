//! The class: what it keeps and its members.
use crate::reading::push_readers;
use crate::sharing::push_sharing;
use crate::texts::{
    GO_NEW, GO_START, Member, PYTHON_NEW, PYTHON_START, RUST_DEBUG, RUST_EQUALITY, RUST_NEW,
    RUST_START, TYPESCRIPT_INSPECT, TYPESCRIPT_START, clone_text, debug_text, difference_text,
    equality_text, from_state_text, merge_text, state_text,
};
use crate::writing::push_written;
use kat_emit::{Form, Part};
use kat_emit_members::{
    key_type, push_copies, push_keys, push_lacks, push_merges, push_operations, push_queries,
};
use kat_emit_words::{
    Family, Page, PartNames, Printer, close_member, is_zero, leaf_type, name_at, open_member,
    put_comment, put_docstring, put_marked, put_remark,
};
use std::alloc::AllocError;

/// What `new` is for.
const NEW: &str =
    "A new replica that did nothing. Its number, from 1 to 32, is no other replica's, ever.";

/// What `clock` is.
const CLOCK: &str = "The time of the last operation that this replica did or heard of.";

/// What `merge` does.
const MERGE: &str =
    "Takes in what another replica has, or an older state of this one: late, twice, in any order. Answers what changed.";

/// What `difference` gives.
const DIFFERENCE: &str =
    "The least part that a replica with the state `known` lacks: merged there, or into what has all of `known`, it gives what merging the whole would. Merge it nowhere else.";

/// What `clone` gives.
const CLONE: &str = "A copy, of the same number: go on with one of them alone.";

/// What the comparison says.
const EQUALITY: &str = "Whether the other one has the same number, time and state.";

/// What the text for people is.
const DEBUG: &str = "A text for people.";

/// What `state` gives.
const STATE: &str =
    "The text of the state file, which every language of `emit` and `katara` itself read again.";

/// What `from_state` gives.
const READ: &str = "The replica that a state file has, with its number and clock.";

/// Appends the class.
pub(crate) fn push_class(printer: &Printer<'_, '_>, page: &mut Page) -> Result<(), AllocError> {
    match printer.language.family() {
        Family::TypeScript => push_typescript_class(printer, page),
        Family::Python => push_python_class(printer, page),
        Family::Rust => push_rust_class(printer, page),
        Family::Go => push_go_class(printer, page),
    }
}

/// What the comment of the type file says of the type.
fn said_of_type(printer: &Printer<'_, '_>) -> Result<String, AllocError> {
    let said = printer.module.lines.ty.as_str();
    let words = [
        printer.names.class.as_str(),
        printer.module.word.as_str(),
        said,
    ];
    let form = match (printer.language.is_go(), said.is_empty()) {
        (true, true) => "$0 is a replica of the type $1.",
        (true, false) => "$0 is a replica of the type $1. $2",
        (false, true) => "The type $1.",
        (false, false) => "$2",
    };
    printer.filled_text(form, &words)
}

/// What a field says: the field's line of the type, and what is kept.
fn said_of_field(printer: &Printer<'_, '_>, part: &Part<'_>) -> Result<String, AllocError> {
    let mut text = String::new(printer.alloc);
    if let Some(field) = part.field {
        text.push_str(name_at(&printer.module.lines.fields, field as usize))?;
        text.push(' ')?;
    }
    text.push_str(match part.form {
        Form::Cell => "The value that counts most.",
        Form::Table => "At each key the value that counts most.",
        Form::Set => "What was ever put in.",
        Form::Tally => "What each replica added in all.",
        Form::Tallies => "At each key what each replica added in all.",
    })?;
    Ok(text)
}

/// The type of the values of a part.
pub(crate) fn value_type(
    printer: &Printer<'_, '_>,
    part: &Part<'_>,
    names: &PartNames,
) -> Result<String, AllocError> {
    match part.kinds.as_slice() {
        [_] => String::from_str(printer.alloc, leaf_type(printer.language, part, 0)),
        _ => String::from_str(printer.alloc, names.value.as_str()),
    }
}

/// Appends the fields of all parts.
fn push_fields(printer: &Printer<'_, '_>, page: &mut Page) -> Result<(), AllocError> {
    for (part, names) in printer.module.parts.iter().zip(&printer.names.parts) {
        let said = said_of_field(printer, part)?;
        put_comment(printer.language, said.as_str(), page)?;
        let form = match printer.language.family() {
            Family::TypeScript => typescript_field(part.form),
            Family::Python => python_field(part.form),
            Family::Rust => rust_field(part.form),
            Family::Go => go_field(part.form),
        };
        put_field(printer, part, names, form, page)?;
        page.put("\n")?;
    }
    Ok(())
}

/// Appends a text of a part: its field, the types of its values and keys, its start.
fn put_field(
    printer: &Printer<'_, '_>,
    part: &Part<'_>,
    names: &PartNames,
    form: &str,
    page: &mut Page,
) -> Result<(), AllocError> {
    let value = value_type(printer, part, names)?;
    let key = key_type(printer, part);
    put_typed(names, form, value.as_str(), key, page)
}

/// The same for the types of its values and keys.
fn put_typed(
    names: &PartNames,
    form: &str,
    value: &str,
    key: &str,
    page: &mut Page,
) -> Result<(), AllocError> {
    let words = [names.field.as_str(), value, key, names.start.as_str()];
    page.fill(form, &words)
}

/// The field of a part in TypeScript.
fn typescript_field(form: Form) -> &'static str {
    match form {
        Form::Cell => "#$0~: $1~ = $3;",
        Form::Table => "#$0 = new Map~<$2, $1>~();",
        Form::Set => "#$0 = new Set~<$2>~();",
        Form::Tally => "#$0 = new Map~<number, bigint>~();",
        Form::Tallies => "#$0 = new Map~<$2, Sums>~();",
    }
}

/// The same in Python.
fn python_field(form: Form) -> &'static str {
    match form {
        Form::Cell => "self.$0: $1 = $3",
        Form::Table => "self.$0: dict[$2, $1] = {}",
        Form::Set => "self.$0: set[$2] = set()",
        Form::Tally => "self.$0: dict[int, int] = {}",
        Form::Tallies => "self.$0: dict[$2, dict[int, int]] = {}",
    }
}

/// The same in Rust.
fn rust_field(form: Form) -> &'static str {
    match form {
        Form::Cell => "$0: $1,",
        Form::Table => "$0: BTreeMap<$2, $1>,",
        Form::Set => "$0: BTreeSet<$2>,",
        Form::Tally => "$0: Sums,",
        Form::Tallies => "$0: BTreeMap<$2, Sums>,",
    }
}

/// What a new replica has in a part in Rust.
fn rust_empty(form: Form) -> &'static str {
    match form {
        Form::Cell => "$0: $3",
        Form::Table | Form::Tallies => "$0: BTreeMap::new()",
        Form::Set => "$0: BTreeSet::new()",
        Form::Tally => "$0: [0; 32]",
    }
}

/// The field of a part in Go.
fn go_field(form: Form) -> &'static str {
    match form {
        Form::Cell => "$0 $1",
        Form::Table => "$0 map[$2]$1",
        Form::Set => "$0 map[$2]bool",
        Form::Tally => "$0 sums",
        Form::Tallies => "$0 map[$2]sums",
    }
}

/// What a new replica has in a part in Go, unless that is what Go begins with.
fn go_empty(part: &Part<'_>) -> &'static str {
    match part.form {
        Form::Cell => {
            if part.starts().iter().all(|start| is_zero(*start)) {
                ""
            } else {
                ", $0: $3"
            }
        }
        Form::Table => ", $0: map[$2]$1{}",
        Form::Set => ", $0: map[$2]bool{}",
        Form::Tally => "",
        Form::Tallies => ", $0: map[$2]sums{}",
    }
}

/// The words of a member's texts.
fn fill_member(printer: &Printer<'_, '_>, form: &str, page: &mut Page) -> Result<(), AllocError> {
    let mut count = itoa::Buffer::new();
    let words = [
        printer.names.class.as_str(),
        printer.names.changes.as_str(),
        printer.names.error.as_str(),
        count.format(printer.module.parts.len() as u128),
    ];
    page.fill(form, &words)
}

/// Appends what is before the lines of a member's parts.
fn open(
    printer: &Printer<'_, '_>,
    member: &Member,
    what: &str,
    page: &mut Page,
) -> Result<(), AllocError> {
    let mut head = printer.page();
    fill_member(printer, member.head, &mut head)?;
    let head = head.into_text();
    open_member(printer, member.name, what, head.as_str(), page)?;
    fill_member(printer, member.before, page)?;
    fill_member(printer, member.more, page)
}

/// Appends what is after them.
fn close(printer: &Printer<'_, '_>, member: &Member, page: &mut Page) -> Result<(), AllocError> {
    fill_member(printer, member.after, page)?;
    close_member(printer, page)
}

/// Appends a member that has no lines of parts, if the language has it.
pub(crate) fn push_plain(
    printer: &Printer<'_, '_>,
    member: &Member,
    what: &str,
    page: &mut Page,
) -> Result<(), AllocError> {
    if member.head.is_empty() {
        return Ok(());
    }
    open(printer, member, what, page)?;
    close(printer, member, page)
}

/// Appends the operations, the queries and what every class has.
fn push_members(printer: &Printer<'_, '_>, page: &mut Page) -> Result<(), AllocError> {
    let family = printer.language.family();
    push_operations(printer, page)?;
    push_queries(printer, page)?;
    push_keys(printer, page)?;
    let merge = merge_text(family);
    open(printer, &merge, MERGE, page)?;
    push_merges(printer, page)?;
    close(printer, &merge, page)?;
    let mut difference = difference_text(family);
    if printer.language.is_rust() && printer.module.parts.is_empty() {
        difference.before = "let it = Self::fresh(self.replica, self.clock);\n";
    }
    open(printer, &difference, DIFFERENCE, page)?;
    push_lacks(printer, page)?;
    close(printer, &difference, page)?;
    push_clone(printer, family, page)?;
    push_plain(printer, &equality_text(family), EQUALITY, page)?;
    push_plain(printer, &debug_text(family), DEBUG, page)?;
    push_state(printer, family, page)
}

/// Appends the method that copies, unless the language derives it.
fn push_clone(
    printer: &Printer<'_, '_>,
    family: Family,
    page: &mut Page,
) -> Result<(), AllocError> {
    let member = clone_text(family);
    if member.head.is_empty() {
        return Ok(());
    }
    open(printer, &member, CLONE, page)?;
    push_copies(printer, page)?;
    close(printer, &member, page)
}

/// Appends the method that gives the text of a state file.
fn push_state(
    printer: &Printer<'_, '_>,
    family: Family,
    page: &mut Page,
) -> Result<(), AllocError> {
    let member = state_text(family);
    open(printer, &member, STATE, page)?;
    page.indent(printer.language.step());
    push_written(printer, page)?;
    page.outdent(printer.language.step());
    close(printer, &member, page)
}

/// Appends what reads a state file.
fn push_from_state(printer: &Printer<'_, '_>, page: &mut Page) -> Result<(), AllocError> {
    let mut member = from_state_text(printer.language.family());
    if printer.language.is_rust() && printer.module.parts.is_empty() {
        member.before = "let mut reader = Reader { rest: text.as_bytes() };
let (replica, clock) = reader.head()?;
let it = Self::fresh(replica, clock);
";
    }
    open(printer, &member, READ, page)?;
    push_readers(printer, page)?;
    close(printer, &member, page)
}

/// Appends the class in TypeScript.
fn push_typescript_class(printer: &Printer<'_, '_>, page: &mut Page) -> Result<(), AllocError> {
    page.put("\n")?;
    put_comment(printer.language, said_of_type(printer)?.as_str(), page)?;
    page.fill("export class $0 {\n", &[printer.names.class.as_str()])?;
    page.indent(2);
    page.fill(
        "~readonly ~#replica~: number~;\n#clock = 0n;\n#marks~: Sums | undefined~ = new Map~<number, bigint>~();\n",
        &[],
    )?;
    push_fields(printer, page)?;
    page.put("\n")?;
    put_comment(printer.language, NEW, page)?;
    page.fill(TYPESCRIPT_START, &[])?;
    put_comment(printer.language, CLOCK, page)?;
    page.fill(
        "get clock()~: number~ {\n  return Number(this.#clock);\n}\n",
        &[],
    )?;
    push_members(printer, page)?;
    push_from_state(printer, page)?;
    push_sharing(printer, page)?;
    page.fill(TYPESCRIPT_INSPECT, &[])?;
    page.outdent(2);
    page.put("}\n")
}

/// Appends the class in Python.
fn push_python_class(printer: &Printer<'_, '_>, page: &mut Page) -> Result<(), AllocError> {
    page.fill("\n\nclass $0:\n", &[printer.names.class.as_str()])?;
    page.indent(4);
    put_docstring(said_of_type(printer)?.as_str(), page)?;
    page.put("\ndef __init__(self, replica: int) -> None:\n")?;
    page.indent(4);
    put_docstring(NEW, page)?;
    fill_member(printer, PYTHON_NEW, page)?;
    push_fields(printer, page)?;
    page.outdent(4);
    page.put(PYTHON_START)?;
    put_docstring(CLOCK, page)?;
    page.put("    return self._clock\n")?;
    push_members(printer, page)?;
    page.put("\n@staticmethod")?;
    push_from_state(printer, page)?;
    push_sharing(printer, page)?;
    page.outdent(4);
    Ok(())
}

/// Appends the class in Rust.
fn push_rust_class(printer: &Printer<'_, '_>, page: &mut Page) -> Result<(), AllocError> {
    page.put("\n")?;
    put_comment(printer.language, said_of_type(printer)?.as_str(), page)?;
    fill_member(printer, "#[derive(Clone)]\npub struct $0 {\n", page)?;
    page.indent(4);
    page.put("replica: u8,\nclock: i64,\nmarks: Option<Sums>,\n")?;
    push_fields(printer, page)?;
    page.outdent(4);
    fill_member(printer, "}\n\nimpl $0 {\n", page)?;
    page.indent(4);
    put_marked("/// ", NEW, page)?;
    fill_member(printer, RUST_NEW, page)?;
    push_rust_fresh(printer, page)?;
    page.put(RUST_START)?;
    page.put("\n")?;
    put_marked("/// ", CLOCK, page)?;
    page.put("pub fn clock(&self) -> i64 {\n    self.clock\n}\n")?;
    push_members(printer, page)?;
    push_from_state(printer, page)?;
    push_sharing(printer, page)?;
    page.outdent(4);
    page.put("}\n")?;
    push_rust_equality(printer, page)?;
    fill_member(printer, RUST_DEBUG, page)
}

/// Appends what compares two replicas in Rust.
fn push_rust_equality(printer: &Printer<'_, '_>, page: &mut Page) -> Result<(), AllocError> {
    let (before, after) = RUST_EQUALITY;
    fill_member(printer, before, page)?;
    for names in printer.names.parts.iter() {
        let words = [names.own.as_str(), names.other.as_str()];
        page.fill(" && $0 == $1", &words)?;
    }
    page.put(after)
}

/// Appends what makes a replica without operations in Rust.
fn push_rust_fresh(printer: &Printer<'_, '_>, page: &mut Page) -> Result<(), AllocError> {
    page.put(
        "\nfn fresh(replica: u8, clock: i64) -> Self {\n    Self { replica, clock, marks: None",
    )?;
    for (part, names) in printer.module.parts.iter().zip(&printer.names.parts) {
        page.put(", ")?;
        put_field(printer, part, names, rust_empty(part.form), page)?;
    }
    page.put(" }\n}\n")
}

/// Appends the type and its methods in Go.
fn push_go_class(printer: &Printer<'_, '_>, page: &mut Page) -> Result<(), AllocError> {
    page.put("\n")?;
    put_remark(printer.language, said_of_type(printer)?.as_str(), page)?;
    fill_member(printer, "type $0 struct {\n", page)?;
    page.indent(1);
    page.put("replica int\nclock   int64\nmarks   sums\nmarked  bool\n")?;
    push_fields(printer, page)?;
    page.outdent(1);
    page.put("}\n\n")?;
    let new = printer.filled_text("New: $0", &[NEW])?;
    put_remark(printer.language, new.as_str(), page)?;
    fill_member(printer, GO_NEW, page)?;
    push_go_fresh(printer, page)?;
    fill_member(printer, GO_START, page)?;
    page.put("\n")?;
    let clock = printer.filled_text("Clock: $0", &[CLOCK])?;
    put_remark(printer.language, clock.as_str(), page)?;
    fill_member(
        printer,
        "func (r *$0) Clock() int64 {\n\treturn r.clock\n}\n",
        page,
    )?;
    push_members(printer, page)?;
    push_from_state(printer, page)?;
    push_sharing(printer, page)
}

/// Appends what makes a replica without operations in Go.
fn push_go_fresh(printer: &Printer<'_, '_>, page: &mut Page) -> Result<(), AllocError> {
    fill_member(
        printer,
        "func fresh(replica int) *$0 {\n\treturn &$0{replica: replica",
        page,
    )?;
    for (part, names) in printer.module.parts.iter().zip(&printer.names.parts) {
        put_field(printer, part, names, go_empty(part), page)?;
    }
    page.put("}\n}\n")
}
