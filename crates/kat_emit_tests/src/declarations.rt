//! What TypeScript has to know of a module of JavaScript.
use kat_design::sort_kind;
use kat_emit_members::key_type;
use kat_emit_text::push_head;
use kat_emit_words::{
    Language, Page, Printer, call_head, kind_type, name_at, param_names, put_comment,
};
use kat_type::Param;
use std::alloc::AllocError;

/// What comes before the operations: `$0` is the class.
const CLASS_HEAD: &str = "export declare class $0 {
  #private;
  /** A new replica that did nothing. Its number, from 1 to 32, is no other replica's, ever. */
  constructor(replica: number);
  get replica(): number;
  /** The time of the last operation that this replica did or heard of. */
  get clock(): number;
";

/// What comes after the methods that give keys: `$1` is the class of what has changed.
const CLASS_END: &str =
    "  /** Takes in what another replica has, or an older state of this one. Answers what changed. */
  merge(other: $0): $1;
  /** The least part that a replica with the state `known` lacks. Merge it there, or into what has all of `known`. */
  difference(known: $0): $0;
  /** A copy, of the same number: go on with one of them alone. */
  clone(): $0;
  /** Whether the other one has the same number, time and state. */
  equals(other: $0): boolean;
  /** A text for people. */
  toString(): string;
  /** The text of the state file. */
  state(): string;
  /** The replica that a state file has, with its number and clock. */
  static fromState(text: string): $0;
  /** A line that says of each replica the time of its latest operation here. */
  marks(): string;
  /** The text of a share file: the marks and the state. */
  share(): string;
  /** The text of a packet: what this replica has beyond a known one. */
  packet(known: $0): string;
  /** Takes in a packet. One that leaves out what is missing here is refused as `gap`, and nothing changes. */
  mergePacket(text: string): $1;
  /** The replica that a share file has, with its number, clock and marks. */
  static fromShare(text: string): $0;
}
";

/// What comes before the parts of what has changed.
const CHANGES_HEAD: &str = "
/** What a merge changed: of each part with keys those that it touched. */
export declare class $0 {
  /** Whether anything changed that a query may read. */
  any: boolean;
";

/// The error: `$0` is its class.
const ERROR: &str = "}

export declare class $0 extends Error {
  /** What is wrong: an argument, a replica's number, a limit of the clock or of a sum, a text, or a gap in a packet; or no marks are known. */
  readonly problem: Problem;
  constructor(problem: Problem, text: string);
}

export type Problem = \"argument\" | \"replica\" | \"clock\" | \"sum\" | \"state\" | \"gap\" | \"marks\";
";

/// The declarations of all that a module of JavaScript exports.
pub(crate) fn declarations_text(printer: &Printer<'_, '_>) -> Result<String, AllocError> {
    let typed = Printer {
        alloc: printer.alloc,
        language: Language::TypeScript,
        module: printer.module,
        names: printer.names,
    };
    let mut page = typed.page();
    push_head(&typed, &mut page)?;
    page.put("\n")?;
    push_class(&typed, &mut page)?;
    push_changes(&typed, &mut page)?;
    page.fill(ERROR, &[printer.names.error.as_str()])?;
    Ok(page.into_text())
}

/// Appends the class.
fn push_class(printer: &Printer<'_, '_>, page: &mut Page) -> Result<(), AllocError> {
    let words = [printer.names.class.as_str(), printer.names.changes.as_str()];
    if !printer.module.lines.ty.is_empty() {
        put_comment(printer.language, printer.module.lines.ty.as_str(), page)?;
    }
    page.fill(CLASS_HEAD, &words)?;
    page.indent(2);
    push_operations(printer, page)?;
    push_queries(printer, page)?;
    push_keys(printer, page)?;
    page.outdent(2);
    page.fill(CLASS_END, &words)
}

/// Appends the methods of operations.
fn push_operations(printer: &Printer<'_, '_>, page: &mut Page) -> Result<(), AllocError> {
    for (place, op) in printer.module.ops.iter().enumerate() {
        let said = name_at(&printer.module.lines.ops, place);
        push_method(printer, place, op.params.as_slice(), said, "void", page)?;
    }
    Ok(())
}

/// Appends the methods of queries, which come after those of the operations.
fn push_queries(printer: &Printer<'_, '_>, page: &mut Page) -> Result<(), AllocError> {
    for (place, query) in printer.module.queries.iter().enumerate() {
        let method = printer.module.ops.len().saturating_add(place);
        let said = name_at(&printer.module.lines.queries, place);
        let answer = kind_type(printer.language, sort_kind(query.sort));
        push_method(printer, method, query.params.as_slice(), said, answer, page)?;
    }
    Ok(())
}

/// Appends a method by its number, with what is said of it and the type of its answer.
fn push_method(
    printer: &Printer<'_, '_>,
    method: usize,
    params: &[Param],
    said: &str,
    answer: &str,
    page: &mut Page,
) -> Result<(), AllocError> {
    let locals = param_names(printer.alloc, printer.language, params, &printer.names.top)?;
    let name = name_at(&printer.names.methods, method);
    let head = call_head(printer, name, params, &locals, answer, false)?;
    put_comment(printer.language, said, page)?;
    page.put(head.as_str())?;
    page.put(";\n")
}

/// Appends the methods that give keys.
fn push_keys(printer: &Printer<'_, '_>, page: &mut Page) -> Result<(), AllocError> {
    for (part, names) in printer.module.parts.iter().zip(&printer.names.parts) {
        if part.key.is_some() {
            let words = [
                part.word.as_str(),
                names.keys.as_str(),
                key_type(printer, part),
            ];
            let form =
                "/** The keys of `$0` that were ever touched, in their order. */\n$1(): $2[];\n";
            page.fill(form, &words)?;
        }
    }
    Ok(())
}

/// Appends the class of what has changed.
fn push_changes(printer: &Printer<'_, '_>, page: &mut Page) -> Result<(), AllocError> {
    page.fill(CHANGES_HEAD, &[printer.names.changes.as_str()])?;
    page.indent(2);
    for (part, names) in printer.module.parts.iter().zip(&printer.names.parts) {
        let form = match part.key {
            Some(_) => "/** The keys of `$0` that it touched, in no order. */\n$1: $2[];\n",
            None => "/** Whether `$0` changed. */\n$1: boolean;\n",
        };
        let words = [
            part.word.as_str(),
            names.change.as_str(),
            key_type(printer, part),
        ];
        page.fill(form, &words)?;
    }
    page.outdent(2);
    Ok(())
}
