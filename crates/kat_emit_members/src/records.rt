//! The types of values that have several leaves, and what compares and joins these.
use kat_design::Kind;
use kat_emit::Part;
use kat_emit_words::{
    Family, Leaves, Page, PartNames, Printer, leaf_type, name_at, push_joined_leaf,
    push_kept_constant, push_lacks_leaves, push_leaf_less, put_comment, put_docstring,
};
use kat_shape::Shape;
use std::alloc::AllocError;

/// Appends what the values of all parts need.
pub fn push_records(printer: &Printer<'_, '_>, page: &mut Page) -> Result<(), AllocError> {
    for (part, names) in printer.module.parts.iter().zip(&printer.names.parts) {
        if let (true, Some(shape)) = (part.is_record(), part.shape()) {
            push_type(printer, part, names, page)?;
            push_start(printer, part, names, page)?;
            if !part.is_chain() {
                push_comparison(printer, part, names, shape, page)?;
            } else if matches!(printer.language.family(), Family::TypeScript | Family::Go) {
                push_less(printer, part, names, page)?;
            }
        }
    }
    Ok(())
}

/// What is said of the values of a part.
fn said_of(
    printer: &Printer<'_, '_>,
    part: &Part<'_>,
    names: &PartNames,
) -> Result<String, AllocError> {
    let words = [part.word.as_str(), names.value.as_str()];
    let form = match (printer.language.is_go(), part.is_chain()) {
        (true, true) => "$1 is kept in `$0`: of two the greater counts, compared from the left.",
        (true, false) => "$1 is kept in `$0`: two are joined by parts.",
        (false, true) => {
            "What is kept in `$0`: of two the greater counts, compared from the left."
        }
        (false, false) => "What is kept in `$0`: two are joined by parts.",
    };
    printer.filled_text(form, &words)
}

/// Appends the type of a part's values. JavaScript has none.
fn push_type(
    printer: &Printer<'_, '_>,
    part: &Part<'_>,
    names: &PartNames,
    page: &mut Page,
) -> Result<(), AllocError> {
    let said = said_of(printer, part, names)?;
    let family = printer.language.family();
    if family == Family::TypeScript && !printer.language.has_types() {
        return Ok(());
    }
    if family == Family::Python {
        page.fill("\n\nclass $0(NamedTuple):\n    ", &[names.value.as_str()])?;
        put_docstring(said.as_str(), page)?;
        page.put("\n")?;
        return push_leaf_types(printer, part, names, "    $0: $1\n", page);
    }
    page.put("\n")?;
    put_comment(printer.language, said.as_str(), page)?;
    let (head, leaf) = match family {
        Family::Go => ("type $0 struct {\n", "\t$0 $1\n"),
        Family::Rust if part.is_chain() => (
            "#[derive(Clone, PartialEq, Eq, PartialOrd, Ord)]\nstruct $0 {\n",
            "    $0: $1,\n",
        ),
        Family::Rust => (
            "#[derive(Clone, PartialEq, Eq)]\nstruct $0 {\n",
            "    $0: $1,\n",
        ),
        _ => ("export interface $0 {\n", "  readonly $0: $1;\n"),
    };
    page.fill(head, &[names.value.as_str()])?;
    push_leaf_types(printer, part, names, leaf, page)?;
    page.put("}\n")
}

/// Appends the types of leaves. Go has them in a column.
fn push_leaf_types(
    printer: &Printer<'_, '_>,
    part: &Part<'_>,
    names: &PartNames,
    form: &str,
    page: &mut Page,
) -> Result<(), AllocError> {
    let width = longest(names);
    for place in 0..part.kinds.len() {
        let mut name = String::from_str(printer.alloc, name_at(&names.leaves, place))?;
        if printer.language.is_go() {
            for _ in name.len()..width {
                name.push(' ')?;
            }
        }
        page.fill(
            form,
            &[name.as_str(), leaf_type(printer.language, part, place)],
        )?;
    }
    Ok(())
}

/// How long the longest name of a leaf is.
fn longest(names: &PartNames) -> usize {
    let mut width = 0usize;
    for name in names.leaves.iter() {
        if name.len() > width {
            width = name.len();
        }
    }
    width
}

/// Appends the start of a part.
fn push_start(
    printer: &Printer<'_, '_>,
    part: &Part<'_>,
    names: &PartNames,
    page: &mut Page,
) -> Result<(), AllocError> {
    let (before, after) = match printer.language.family() {
        Family::TypeScript => ("\nconst $0~: $1~ = { ", " };\n"),
        Family::Python => ("\n\n$0 = $1(", ")\n"),
        Family::Rust => ("\nfn $0 -> $1 {\n    $1 { ", " }\n}\n"),
        Family::Go => ("\nvar $0 = $1{", "}\n"),
    };
    page.fill(before, &[names.start.as_str(), names.value.as_str()])?;
    for (place, start) in part.starts().iter().enumerate() {
        put_place(printer, names, place, page)?;
        let mut text = String::new(printer.alloc);
        push_kept_constant(printer.alloc, printer.language, *start, &mut text)?;
        page.put(text.as_str())?;
    }
    page.put(after)
}

/// Appends what comes before the leaf at a place of a value that is made: a comma, and its name if the language wants one.
fn put_place(
    printer: &Printer<'_, '_>,
    names: &PartNames,
    place: usize,
    page: &mut Page,
) -> Result<(), AllocError> {
    if place > 0 {
        page.put(", ")?;
    }
    match printer.language.family() {
        Family::TypeScript | Family::Rust => { page.fill("$0: ", &[name_at(&names.leaves, place)]) }
        Family::Python | Family::Go => Ok(()),
    }
}

/// Appends what compares values of which neither may be above the other, and what joins them.
fn push_comparison(
    printer: &Printer<'_, '_>,
    part: &Part<'_>,
    names: &PartNames,
    shape: &Shape,
    page: &mut Page,
) -> Result<(), AllocError> {
    let leaves = Leaves {
        names: &names.leaves,
        part,
    };
    let family = printer.language.family();
    let sides = [names.lacks.as_str(), names.value.as_str()];
    page.fill(lacks_head(family), &sides)?;
    push_lacks_leaves(printer, &leaves, shape, 0, page)?;
    page.put(match family {
        Family::TypeScript => ";\n}\n",
        Family::Python => "\n",
        Family::Rust | Family::Go => "\n}\n",
    })?;
    let (head, end) = joined_texts(family);
    page.fill(head, &[names.joined.as_str(), names.value.as_str()])?;
    for at in 0..part.kinds.len() {
        put_place(printer, names, at, page)?;
        push_join(printer, &leaves, shape, at, page)?;
    }
    page.put(end)
}

/// What is before the comparison of two values: the function and their type.
fn lacks_head(family: Family) -> &'static str {
    match family {
        Family::TypeScript => {
            "\n/** Whether a lacks what b has. */\nfunction $0(a~: $1~, b~: $1~)~: boolean~ {\n  return "
        }
        Family::Python => {
            "\n\ndef $0(a: $1, b: $1) -> bool:\n    \"\"\"Whether a lacks what b has.\"\"\"\n    return "
        }
        Family::Rust => {
            "\n/// Whether a lacks what b has.\nfn $0(a: &$1, b: &$1) -> bool {\n    "
        }
        Family::Go => { "\n// $0: whether a lacks what b has.\nfunc $0(a, b $1) bool {\n\treturn " }
    }
}

/// What is before and after two values that are joined.
fn joined_texts(family: Family) -> (&'static str, &'static str) {
    match family {
        Family::TypeScript => (
            "\nfunction $0(a~: $1~, b~: $1~)~: $1~ {\n  return { ",
            " };\n}\n",
        ),
        Family::Python => ("\n\ndef $0(a: $1, b: $1) -> $1:\n    return $1(", ")\n"),
        Family::Rust => ("\nfn $0(a: &$1, b: &$1) -> $1 {\n    $1 { ", " }\n}\n"),
        Family::Go => ("\nfunc $0(a, b $1) $1 {\n\treturn $1{", "}\n}\n"),
    }
}

/// Appends a leaf of two values joined: in Rust it is copied from one of them.
fn push_join(
    printer: &Printer<'_, '_>,
    leaves: &Leaves<'_>,
    shape: &Shape,
    at: usize,
    page: &mut Page,
) -> Result<(), AllocError> {
    let is_name = matches!(leaves.part.kinds.get(at), Some(Kind::Name));
    let is_rust = printer.language.is_rust();
    page.put(if is_rust && !is_name { "*" } else { "" })?;
    push_joined_leaf(printer, leaves, shape, 0, at, page)?;
    page.put(if is_rust && is_name { ".clone()" } else { "" })
}

/// Appends the function that compares values of which one is always at or below the other, in TypeScript or Go.
fn push_less(
    printer: &Printer<'_, '_>,
    part: &Part<'_>,
    names: &PartNames,
    page: &mut Page,
) -> Result<(), AllocError> {
    let is_go = printer.language.is_go();
    page.fill(
        if is_go {
            "\nfunc $0(a, b $1) bool {\n"
        } else {
            "\nfunction $0(a~: $1~, b~: $1~)~: boolean~ {\n"
        },
        &[names.less.as_str(), names.value.as_str()],
    )?;
    let leaves = Leaves {
        names: &names.leaves,
        part,
    };
    page.indent(printer.language.step());
    for at in 0..part.kinds.len() {
        let is_last = at.saturating_add(1) == part.kinds.len();
        let leaf = [name_at(&names.leaves, at)];
        page.fill(less_head(is_go, is_last), &leaf)?;
        push_leaf_less(printer, &leaves, at, "a", "b", page)?;
        page.put(match (is_go, is_last) {
            (false, _) => ";\n",
            (true, true) => "\n",
            (true, false) => "\n}\n",
        })?;
    }
    page.outdent(printer.language.step());
    page.put("}\n")
}

/// What is before the comparison of a leaf, which decides if it is the last or the leaves differ.
fn less_head(is_go: bool, is_last: bool) -> &'static str {
    match (is_go, is_last) {
        (_, true) => "return ",
        (true, false) => "if a.$0 != b.$0 {\n\treturn ",
        (false, false) => "if (a.$0 !== b.$0) return ",
    }
}
